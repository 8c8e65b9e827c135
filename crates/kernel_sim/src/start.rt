// The phase of a hart that begins.
ghost use Rattle.std.specs.Prelude.{◌≡◌};
ghost use Rattle.guest_memory.specs.Bus.{IsBus};
ghost use Rattle.rv_hart.specs.HartStep.{over};
ghost use Rattle.kernel_sim.specs.Advance.{IsBegun};
ghost use Rattle.kernel_sim.specs.Holds.{Holds};
ghost use Rattle.kernel_sim.specs.Begins.{begun_hart, IsLoaded};

use crate::phase::{Phase, PhaseKind, Spoken, UserState};
use crate::words::{dword, request_of};
use fe_base::memory_map::{FROMHOST, TOHOST};
use guest_memory::Bus;
use rv_hart::Hart;

/// The phase of a hart that begins: as reset leaves it, but running, over loaded memory.
pub fn begin(hart: &Hart, bus: &Bus) -> Phase
    requires begun { hart.now ≡ begun_hart }
    requires loaded { IsLoaded bus.now }
    requires bytes { IsBus bus.now }
    ensures kind { result.kind ≡ PhaseKind.Boot }
    ensures begun { IsBegun result bus.now }
    ensures holds { Holds result (over bus.now hart.now) }
{
    Phase {
        kind: PhaseKind::Boot,
        user: UserState {
            pc: 0,
            regs: [0; 32],
            brk: 0,
            first_break: 0,
        },
        tohost: dword(bus, TOHOST),
        fromhost: dword(bus, FROMHOST),
        request: request_of(bus),
        scanned: 0,
        text: Spoken {
            counter: false,
            cause: 0,
            at: 0,
            value: 0,
            posted: 0,
        },
    }
}
