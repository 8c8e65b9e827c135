// What a host writes while the kernel runs.
ghost use Rattle.std.specs.Prelude.{◌≡◌};
ghost use Rattle.guest_memory.specs.Bus.{IsBus, with_beat};
ghost use Rattle.rv_hart.specs.HartStep.{over};
ghost use Rattle.kernel_sim.specs.Holds.{Holds};
ghost use Rattle.kernel_sim.specs.HostWrites.{HostWrite, written};

use crate::phase::Phase;
use fe_base::memory_map::{FROMHOST, REQUEST, TOHOST};
use guest_memory::Bus;
use rv_hart::Hart;

// The phase after a write of the host.
fn phase_written(phase: Phase, at: u64, value: u64) -> Phase
    ensures { result ≡ written at value phase }
{
    if at == TOHOST {
        Phase {
            tohost: value,
            ..phase
        }
    } else if at == FROMHOST {
        Phase {
            fromhost: value,
            ..phase
        }
    } else if at == REQUEST {
        let mut request = phase.request;
        request[0] = value;
        Phase { request, ..phase }
    } else {
        phase
    }
}

/// One doubleword that the host writes: 0 to TOHOST in any phase, and while a request waits, its result to REQUEST, to
/// FROMHOST, which holds 0 as TOHOST does, what is not 0, and anything to the user area, where nothing is written at a
/// place that 8 does not divide. The answer is the phase that holds then.
pub fn host_write(hart: &Hart, bus: &mut Bus, phase: Phase, at: u64, value: u64) -> Phase
    requires holds { Holds phase (over bus.old hart.now) }
    requires bytes { IsBus bus.old }
    requires allowed { HostWrite at value phase }
    ensures bus { bus.new ≡ with_beat bus.old at value }
    ensures phase { result ≡ written at value phase }
    ensures holds { Holds result (over bus.new hart.now) }
{
    bus.write_beat(at, value);
    phase_written(phase, at, value)
}
