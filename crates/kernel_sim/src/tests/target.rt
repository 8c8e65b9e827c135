// A hart with the kernel over its memory, in a phase that holds, and a host that plays its part by `host_write`.
ghost use Rattle.std.specs.Prelude.{◌≡◌, ◌*◌, length};
ghost use Rattle.std.specs.Bool.{OnTrue};
ghost use Rattle.rv_hart.specs.HartStep.{IsHart};
ghost use Rattle.proxy_kernel.specs.Image.{HoldsInsns};
ghost use Rattle.proxy_kernel.specs.KernelWords.{kernel_count, kernel_insns};
ghost use Rattle.kernel_code.specs.Kernel.{IsImage};
ghost use Rattle.kernel_sim.specs.Begins as spec;
ghost use Rattle.kernel_sim.specs.HostWrites.{HostWrite};
ghost use Rattle.kernel_sim.specs.Mail.{mail_class, Asked};

use crate::phase::{Phase, PhaseKind};
use crate::words::{dword, request_of};
use crate::{advance, begin, host_write};
use fe_base::memory_map::{BOOT, FROMHOST, KERNEL_START, REQUEST, TOHOST, USER_END, USER_START};
use guest_memory::Bus;
use proxy_kernel::kernel_image;
use rv_decode::INSTRUCTION_ALIGNMENT;
use rv_hart::{Hart, Run};
use std::alloc::Global;
use std::marker::Model;
use std::test::Fail;

/// Where programs begin here.
pub const ENTRY: u64 = 0x1_0000;

/// The first break.
pub const FIRST_BREAK: u64 = 0x1_2000;

/// What x2 holds where a program begins.
pub const STACK_TOP: u64 = 0x100_0000;

// More steps than a phase takes, for the longest path too.
const PATIENCE: u64 = 40_000;

/// The hart, its memory, and the phase that holds of them.
#[derive(Drop)]
pub struct Target {
    hart: Hart,
    bus: Bus,
    phase: Phase,
}

impl Model for Target {
    ghost use Rattle.guest_memory.specs.Bus.{IsBus};
    ghost use Rattle.rv_hart.specs.HartStep.{IsHart, over};
    ghost use Rattle.kernel_sim.specs.declared.phase.Phase.{Phase};
    ghost use Rattle.kernel_sim.specs.Holds.{Holds};

    ghost Value = { Phase };

    ghost view = { λ t. t.phase };

    ghost invariant = { λ t. Holds t.phase (over t.bus t.hart) × IsHart t.hart × IsBus t.bus };
}

// Puts the kernel's image at the start of the kernel area.
fn place_image(bus: &mut Bus, image: &[u8])
    requires insns { HoldsInsns image.now kernel_insns }
    requires length { length image.now ≡ 4 * kernel_count }
    ensures { IsImage bus.new.kernel }
{
    bus.bytes_mut(KERNEL_START, image.len() as u64)
        .copy_from_slice(image);
}

// A hart that begins.
fn begun_hart() -> Hart
    ensures value { result ≡ spec.begun_hart }
    ensures range { IsHart result }
{
    let mut hart = Hart::reset();
    hart.run = Run::Running;
    hart
}

// The hart as it begins over memory that holds the image.
fn begun(bus: Bus) -> Option<Target>
    requires { IsImage bus.kernel }
{
    if bus.load(BOOT, 8) % INSTRUCTION_ALIGNMENT != 0 {
        return None;
    }
    if dword(&bus, TOHOST) != 0 {
        return None;
    }
    if dword(&bus, FROMHOST) != 0 {
        return None;
    }
    if request_of(&bus) != [0; 8] {
        return None;
    }
    let hart = begun_hart();
    let phase = begin(&hart, &bus);
    Some(Target { hart, bus, phase })
}

// A request waits for the host.
fn is_asked(kind: PhaseKind) -> bool
    ensures { OnTrue result (mail_class kind ≡ Asked) }
{
    match kind {
        PhaseKind::BootWait => true,
        PhaseKind::Wait => true,
        _ => false,
    }
}

impl Target {
    /// Lets the hart begin over memory with a program, the image and a boot block.
    pub fn new(alloc: Global, mut bus: Bus, entry: u64) -> Result<Target, Fail> {
        let image = kernel_image(alloc)?;
        bus.write_beat(BOOT, entry);
        bus.write_beat(BOOT + 8, FIRST_BREAK);
        place_image(&mut bus, image.bytes.as_slice());
        Ok(begun(bus).ok_or("the memory is not loaded")?)
    }

    /// The phase that holds.
    pub fn phase(&self) -> Phase {
        self.phase
    }

    /// A doubleword of memory.
    pub fn word(&self, at: u64) -> Option<u64> {
        self.bus.read_beat(at)
    }

    /// The place and the registers of the hart.
    pub fn state(&self) -> (u64, [u64; 32]) {
        let mut registers = [0; 32];
        for n in 0..32u8 {
            registers[n as usize] = self.hart.read_reg(n);
        }
        (self.hart.pc, registers)
    }

    /// One step of the hart.
    pub fn step(&mut self) {
        self.phase = advance(&mut self.hart, &mut self.bus, self.phase);
    }

    /// Steps on into another kind of phase, and answers it.
    pub fn next_kind(&mut self) -> PhaseKind {
        let kind = self.phase.kind;
        for _ in 0..PATIENCE {
            if self.phase.kind != kind {
                break;
            }
            self.step();
        }
        self.phase.kind
    }

    /// Steps on through these kinds of phase, one after the other, up to the first step in the last.
    pub fn passes(&mut self, kinds: &[PhaseKind]) -> bool {
        for kind in kinds {
            if self.next_kind() != *kind {
                return false;
            }
        }
        true
    }

    /// Steps on until there is a word for the host, which the host takes: 0 where none comes.
    pub fn next_word(&mut self) -> u64 {
        for _ in 0..PATIENCE {
            if self.phase.tohost != 0 {
                break;
            }
            self.step();
        }
        let word = self.phase.tohost;
        self.write(TOHOST, 0);
        word
    }

    // A write that the host may make.
    fn write(&mut self, at: u64, value: u64)
        requires { HostWrite at value self.old }
    {
        self.phase = host_write(&self.hart, &mut self.bus, self.phase, at, value);
    }

    /// While a request waits, the host fills a doubleword of the user area.
    pub fn fill(&mut self, at: u64, value: u64) -> bool {
        if !is_asked(self.phase.kind) || at < USER_START || USER_END <= at {
            return false;
        }
        self.write(at, value);
        true
    }

    fn put_result(&mut self, value: u64) -> bool {
        if !is_asked(self.phase.kind) {
            return false;
        }
        self.write(REQUEST, value);
        true
    }

    fn put_answer(&mut self) -> bool {
        if !is_asked(self.phase.kind) || self.phase.tohost != 0 || self.phase.fromhost != 0 {
            return false;
        }
        self.write(FROMHOST, 1);
        true
    }

    /// While a request waits that the host has taken, the host answers it.
    pub fn answer(&mut self, value: u64) -> bool {
        self.put_result(value) && self.put_answer()
    }
}
