// What a user program sees of the hart, and its steps.
ghost use Rattle.std.specs.Prelude.{◌≡◌, ◌≢◌, ◌<◌, ◌≤◌, ◌-◌, ◌^◌, ℕ, length, IsTrue, IsSome, IsNone, IfSome, IfOk};
ghost use Rattle.std.specs.Prelude.{OnErr, None, Some, true, false, slice_index, slice_set};
ghost use Rattle.std.specs.Result.{result_err};
ghost use Rattle.fe_base.specs.MemoryMap.{user_start, kernel_start};
ghost use Rattle.guest_memory.specs.Bus.{is_ram};
ghost use Rattle.guest_memory.specs.Memory.{is_width, zeros};
ghost use Rattle.rv_alu.specs.Effects.{IsInRange};
ghost use Rattle.host_text.specs.World.{Contents};
ghost use Rattle.plain_machine.specs.Asks.{needs_outside, request_cuts, row_asks};
ghost use Rattle.plain_machine.specs.Outsides.{Asking, Called, InWorld, outside as objects};
ghost use Rattle.plain_machine.specs.Programs.{answered};
ghost use Rattle.plain_machine.specs.Rows.{IsInside, RowLed, RowRan};
ghost use Rattle.plain_machine.specs.Stands.{Spares, Tells};
ghost use Rattle.plain_machine.specs.UserStep as spec;
ghost use Rattle.plain_machine.specs.UserStep.{user_step, load_step, store_step, effect_step, step_of, Stays, walked};
ghost use Rattle.plain_machine.specs.UserStep.{moves};

use crate::PlainFault;
use crate::host_calls::call_on;
use fe_base::memory_map::{USER_END, USER_START};
use fe_base::{Sink, Source};
use folder_tree::Folder;
use guest_memory::Bus;
use rv_alu::{Cause, Effect, Size, Trap, act, loaded, put};
use rv_decode::{Decoder, INSTRUCTION_ALIGNMENT};
use std::marker::Model;
use syscall_proxy::{CallAnswer, Host};

/// What a user step did.
#[derive(Clone, Copy)]
pub enum Outcome {
    /// The instruction was done.
    Moved,
    /// It is a system call, which is left to be done; nothing has changed.
    Called,
    /// It is a trap; nothing has changed.
    Trapped(Trap),
}

/// pc, the 32 registers, and the bus, of which a user program sees the user area.
#[derive(Drop)]
pub struct Cpu {
    pc: u64,
    registers: [u64; 32],
    bus: Bus,
    decoder: Decoder,
}

impl Model for Cpu {
    ghost use Rattle.std.specs.Prelude.{◌≡◌, slice_index};
    ghost use Rattle.plain_machine.specs.UserStep.{UserState};

    ghost Value = { UserState };

    ghost view = { λ c. record { pc = c.pc; registers = c.registers; user = c.bus.user } };

    ghost invariant = { λ c. slice_index c.registers 0 ≡ 0 };
}

// The first byte that is not of the user area, of an access that does not stand whole in it.
#[cold]
#[inline(never)]
#[tactic(auto, using(crate::proofs::Places::outside_lemmas))]
fn first_outside(at: u64, count: usize) -> u64
    requires width { IsTrue (is_width count) }
    requires outside { IsSome (spec.outside at count) }
    ensures { spec.outside at count ≡ Some result }
{
    if USER_START <= at && at < USER_END {
        USER_END
    } else {
        at
    }
}

// The first byte of an access that is not of the user area, or None where the access stands whole in it.
#[inline(always)]
#[tactic(auto, using(crate::proofs::Places::outside_lemmas))]
fn outside(at: u64, count: usize) -> Option<u64>
    requires { IsTrue (is_width count) }
    ensures byte { result ≡ spec.outside at count }
    ensures inside { IsNone result → IsTrue (is_ram at count) }
    ensures user { IsNone result → at < kernel_start }
{
    // An address below the area wraps around to a difference beyond every offset in it.
    if at.wrapping_sub(USER_START) <= USER_END - USER_START - count as u64 {
        None
    } else {
        Some(first_outside(at, count))
    }
}

#[inline(always)]
fn trapped(cause: Cause, value: u64) -> Outcome
    ensures { result ≡ Outcome.Trapped (record { cause = cause; value = value }) }
{
    Outcome::Trapped(Trap { cause, value })
}

#[tactic(auto, unfolding(guest_memory::specs::Memory::zeros))]
fn first_registers(sp: u64) -> [u64; 32]
    ensures { result ≡ slice_set (zeros 32) 2 sp }
{
    let mut registers = [0; 32];
    registers[2] = sp;
    registers
}

impl Cpu {
    /// A program at its start: at the entry, with sp set and every other register 0.
    #[tactic(auto, unfolding(guest_memory::specs::Memory::zeros))]
    pub fn new(entry: u64, sp: u64, bus: Bus) -> Cpu
        ensures { result ≡ record { pc = entry; registers = slice_set (zeros 32) 2 sp; user = bus.user } }
    {
        Cpu {
            pc: entry,
            registers: first_registers(sp),
            bus,
            decoder: Decoder::new(),
        }
    }

    /// The address of the next instruction.
    pub fn pc(&self) -> u64
        ensures { result ≡ self.now.pc }
    {
        self.pc
    }

    /// Register n, which is below 32.
    #[inline(always)]
    pub fn register(&self, n: u8) -> u64
        requires { n < 32 }
        ensures { result ≡ spec.register self.now n }
    {
        self.registers[n as usize]
    }

    /// The byte of the user area at an address, where one stands there.
    #[tactic(auto, unfolding(guest_memory::specs::Bus::bus_bytes))]
    pub fn byte(&self, at: u64) -> Option<u8>
        ensures outside { spec.is_user at ≡ false → result ≡ None }
        ensures inside { spec.is_user at ≡ true → result ≡ Some (slice_index self.now.user (at - user_start)) }
    {
        if at < USER_START || at >= USER_END {
            return None;
        }
        Some(self.bus.bytes(at, 1)[0])
    }

    /// The host's call of a request over the user area, which leaves pc and registers as they are.
    pub fn serve<F: Folder, I: Source, C: Sink>(
        &mut self,
        host: &mut Host,
        folder: &mut F,
        input: &mut I,
        console: &mut C,
        request: [u64; 8],
    ) -> Result<CallAnswer, PlainFault>
        requires { IsInside host.old.given request }
        ensures given { host.new.given ≡ host.old.given }
        ensures stays { self.new ≡ (record self.old { user = self.new.user }) }
        ensures row { IfOk result (λ answer. (c : Contents)
            → Tells c (I.left input.old) (C.held console.old) (F.tree folder.old)
            → RowRan host.old host.new request c self.old.user self.new.user answer (I.left input.new)
            (C.held console.new) (F.tree folder.new)) }
        ensures lone { IfOk result (λ answer. needs_outside (row_asks host.old.numbers request self.old.user) ≡ false
            → (c : Contents) → RowLed host.old host.new request c self.old.user self.new.user answer) }
        ensures kept { OnErr result (self.new ≡ self.old) }
        ensures numbers { OnErr result (host.new.numbers ≡ host.old.numbers) }
        ensures spared { OnErr result ((c : Contents)
            → Tells c (I.left input.old) (C.held console.old) (F.tree folder.old)
            → Spares (request_cuts request) host.old.given.root c (I.left input.new) (C.held console.new)
            (F.tree folder.new)) }
        ensures called { Called F.Folder I.Source C.Sink (objects folder.old input.old console.old)
            (objects folder.new input.new console.new) (result_err result) }
        ensures asking { Asking F.Folder I.Source C.Sink
            (row_asks host.old.numbers request self.old.user)
            (objects folder.old input.old console.old) (objects folder.new input.new console.new) (result_err result) }
        ensures in_world { InWorld F.Folder I.Source C.Sink host.old.numbers host.new.numbers
            (objects folder.old input.old console.old) (objects folder.new input.new console.new) (result_err result) }
    {
        call_on(&mut self.bus, host, folder, input, console, request)
    }

    /// A call's answer in a0, at the next instruction.
    pub fn answer(&mut self, value: u64)
        ensures { self.new ≡ answered self.old value }
    {
        put(&mut self.registers, 10, value);
        self.pc = self.pc.wrapping_add(4);
    }

    // A load of this size to a register, with the next instruction at `after`.
    #[inline(always)]
    #[tactic(auto, unfolding(guest_memory::specs::Bus::bus_load))]
    fn load_of(&mut self, size: Size, rd: u8, extends: bool, at: u64, after: u64) -> Outcome
        requires { rd < 32 }
        ensures step { load_step rd size extends at after self.old ≡ step_of result self.new }
        ensures stays { Stays result self.old self.new }
    {
        if let Some(byte) = outside(at, size.bytes()) {
            return trapped(Cause::LoadAccess, byte);
        }
        let number = self.bus.load(at, size.bytes());
        put(&mut self.registers, rd, loaded(size, extends, number));
        self.pc = after;
        Outcome::Moved
    }

    // As `load_of`, by a call for each size: each is compiled for its own width.
    #[inline(always)]
    fn load(&mut self, size: Size, rd: u8, extends: bool, at: u64, after: u64) -> Outcome
        requires { rd < 32 }
        ensures step { load_step rd size extends at after self.old ≡ step_of result self.new }
        ensures stays { Stays result self.old self.new }
    {
        match size {
            Size::Byte => self.load_of(Size::Byte, rd, extends, at, after),
            Size::Half => self.load_of(Size::Half, rd, extends, at, after),
            Size::Word => self.load_of(Size::Word, rd, extends, at, after),
            Size::Double => self.load_of(Size::Double, rd, extends, at, after),
        }
    }

    // A store of the low bytes of a value, so many as the size says, with the next instruction at `after`.
    #[inline(always)]
    #[tactic(auto, unfolding(guest_memory::specs::Bus::bus_store))]
    fn store_of(&mut self, size: Size, at: u64, value: u64, after: u64) -> Outcome
        ensures step { store_step size at value after self.old ≡ step_of result self.new }
        ensures stays { Stays result self.old self.new }
    {
        if let Some(byte) = outside(at, size.bytes()) {
            return trapped(Cause::StoreAccess, byte);
        }
        self.bus.store(at, size.bytes(), value);
        self.pc = after;
        Outcome::Moved
    }

    // As `store_of`, by a call for each size.
    #[inline(always)]
    fn store(&mut self, size: Size, at: u64, value: u64, after: u64) -> Outcome
        ensures step { store_step size at value after self.old ≡ step_of result self.new }
        ensures stays { Stays result self.old self.new }
    {
        match size {
            Size::Byte => self.store_of(Size::Byte, at, value, after),
            Size::Half => self.store_of(Size::Half, at, value, after),
            Size::Word => self.store_of(Size::Word, at, value, after),
            Size::Double => self.store_of(Size::Double, at, value, after),
        }
    }

    // An effect of an instruction of these bits, with the next one at `after`.
    #[inline(always)]
    #[tactic(auto, unfolding(crate::specs::UserStep::effect_step))]
    fn carry(&mut self, effect: Effect, bits: u32, after: u64) -> Outcome
        requires { IsInRange effect }
        ensures step { effect_step effect bits after self.old ≡ step_of result self.new }
        ensures stays { Stays result self.old self.new }
    {
        match effect {
            Effect::Pass => self.pc = after,
            Effect::Set { rd, value } => {
                put(&mut self.registers, rd, value);
                self.pc = after;
            }
            Effect::Jump { rd, target } => {
                if target % INSTRUCTION_ALIGNMENT != 0 {
                    return trapped(Cause::Misaligned, target);
                }
                put(&mut self.registers, rd, after);
                self.pc = target;
            }
            Effect::Load {
                rd,
                size,
                extends,
                at,
            } => return self.load(size, rd, extends, at, after),
            Effect::Store { size, at, value } => return self.store(size, at, value, after),
            Effect::Call => return Outcome::Called,
            Effect::Break => return trapped(Cause::Breakpoint, self.pc),
            Effect::Csr { .. } | Effect::Return | Effect::Wait => {
                return trapped(Cause::Illegal, u64::from(bits));
            }
        }
        Outcome::Moved
    }

    // One instruction, or the call or the trap that it is. Only `walk` calls it.
    #[inline(always)]
    #[tactic(auto, unfolding(guest_memory::specs::Bus::bus_load))]
    fn execute(&mut self) -> Outcome
        ensures step { user_step self.old ≡ step_of result self.new }
        ensures stays { Stays result self.old self.new }
    {
        if let Some(byte) = outside(self.pc, 4) {
            return trapped(Cause::FetchAccess, byte);
        }
        let word = self.bus.load(self.pc, 4) as u32;
        let Some(insn) = self.decoder.decode(self.pc, word) else {
            return trapped(Cause::Illegal, u64::from(word));
        };
        let effect = act::<Cpu>(insn, self.pc, &self.registers);
        self.carry(effect, word, self.pc.wrapping_add(4))
    }

    /// User steps that move on, at most so many: how many were made, and the call or the trap that came next, or Moved
    /// where none did. A call and a trap are not counted, and leave the state as it was.
    // Out of line, since it has two callers: `execute`, with all that it calls, is to stand in the program once.
    #[inline(never)]
    pub fn walk(&mut self, most: u64) -> (u64, Outcome)
        ensures after { self.new ≡ walked result.0 self.old }
        ensures each { (n : ℕ) → n < result.0 → moves (user_step (walked n self.old)) ≡ true }
        ensures most { result.0 ≤ most }
        ensures moved { result.1 ≡ Outcome.Moved → result.0 ≡ most }
        ensures stopped { result.1 ≢ Outcome.Moved
            → (result.0 < most) × (user_step self.new ≡ step_of result.1 self.new) }
    {
        let mut count = 0;
        'steps: while count < most {
            match self.execute() {
                Outcome::Moved => count += 1,
                outcome => return (count, outcome),
            }
        }
        (count, Outcome::Moved)
    }

    /// One user step: a walk of at most one, so that the code of an instruction stands in the program once.
    pub fn step(&mut self) -> Outcome
        ensures step { user_step self.old ≡ step_of result self.new }
        ensures stays { Stays result self.old self.new }
    {
        self.walk(1).1
    }
}
