// The doublewords of the kernel area that a phase speaks of.
ghost use Rattle.std.specs.Prelude.{◌≡◌, IsTrue};
ghost use Rattle.kernel_sim.specs.Phases as spec;

use fe_base::memory_map::REQUEST;
use guest_memory::Bus;

// A doubleword of the kernel area.
pub(crate) fn dword(bus: &Bus, at: u64) -> u64
    requires { IsTrue (spec.is_dword at) }
    ensures { result ≡ spec.dword bus.now at }
{
    bus.load(at, 8)
}

pub(crate) fn request_of(bus: &Bus) -> [u64; 8]
    ensures { result ≡ spec.request_of bus.now }
{
    [
        dword(bus, REQUEST),
        dword(bus, REQUEST + 8),
        dword(bus, REQUEST + 16),
        dword(bus, REQUEST + 24),
        dword(bus, REQUEST + 32),
        dword(bus, REQUEST + 40),
        dword(bus, REQUEST + 48),
        dword(bus, REQUEST + 56),
    ]
}
