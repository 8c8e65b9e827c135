// A hart and its step.
ghost use Rattle.std.specs.Prelude.{◌≡◌, ◌≢◌, ◌<◌, ◌≤◌, ◌-◌, ◌^◌};
ghost use Rattle.guest_memory.specs.Bus.{BusState, IsBus};
ghost use Rattle.guest_memory.specs.Memory.{zeros};
ghost use Rattle.rv_alu.specs.Effects as effect_spec;
ghost use Rattle.rv_alu.specs.Effects.{IsInRange};
ghost use Rattle.rv_hart.specs.HartStep as spec;
ghost use Rattle.rv_hart.specs.HartStep.{IsHart, IsUnhalted, reset_hart, trap_step, after_mret, next_hart};
ghost use Rattle.rv_hart.specs.HartStep.{privileged, csr_step, effect_step, instruction_step, over, hart_step};
ghost use Rattle.rv_hart.specs.LinedStep.{AreQuiet, lined_step};
ghost use Rattle.rv_hart.specs.Walks.{step_of, Stays, BusStays, Walked, Settled, counted_by, hart_after};

use crate::access::{load, read, start_word, store};
use crate::debug::{DebugLines, Run};
use fe_base::memory_map::KERNEL_START;
use guest_memory::Bus;
use rv_alu::{Cause, CsrOp, Effect, Trap, act, put};
use rv_csr::{Access, Csrs, Mode};
use rv_decode::{Decoder, INSTRUCTION_ALIGNMENT};
use std::marker::Model;

/// A hart with its 32 registers and its CSRs.
#[derive(Drop)]
pub struct Hart {
    /// The mode in which it runs.
    pub mode: Mode,
    /// The address of the next instruction.
    pub pc: u64,
    /// Its control and status registers.
    pub csrs: Csrs,
    /// Whether it is held, runs or is halted.
    pub run: Run,
    // the steps so far that began in user mode
    user_steps: u64,
    registers: [u64; 32],
    decoder: Decoder,
}

impl Model for Hart {
    ghost use Rattle.rv_csr.specs.CsrTable.{IsCsrs};
    ghost use Rattle.rv_hart.specs.HartStep.{HartState, AreRegisters};

    ghost Value = { HartState };

    ghost view = { λ h. record {
      mode = h.mode;
      pc = h.pc;
      registers = h.registers;
      csrs = h.csrs;
      run = h.run;
      user_steps = h.user_steps;
    } };

    ghost invariant = { λ h. AreRegisters h.registers × IsCsrs h.csrs };
}

// What a CSR instruction does: `rd` gets what the CSR held, which changes by `op` and the value where `writes`.
#[derive(Clone, Copy)]
struct CsrAccess {
    rd: u8,
    csr: u16,
    op: CsrOp,
    value: u64,
    writes: bool,
}

#[tactic(auto, unfolding(guest_memory::specs::Memory::zeros))]
fn no_registers() -> [u64; 32]
    ensures { result ≡ zeros 32 }
{
    [0; 32]
}

// What a CSR instruction writes, of what the register held.
fn written_value(op: CsrOp, old: u64, value: u64) -> u64
    ensures { result ≡ spec.written_value op old value }
{
    match op {
        CsrOp::Write => value,
        CsrOp::SetBits => old | value,
        CsrOp::ClearBits => old & !value,
    }
}

// The walk of a hart in user mode, and that of one in machine mode: each is compiled for its mode.
struct InUser;

struct InMachine;

// What an instruction did.
#[derive(Clone, Copy)]
enum Outcome {
    // It was done, and left the CSRs and the mode.
    Moved,
    // It was done: a CSR instruction or MRET.
    Ruled,
    // It is a trap, which is still to be taken; nothing has changed.
    Trapped(Trap),
}

#[inline(always)]
fn trapped(cause: Cause, value: u64) -> Outcome
    ensures { result ≡ Outcome.Trapped (record { cause = cause; value = value }) }
{
    Outcome::Trapped(Trap { cause, value })
}

// The cause of ECALL.
#[inline(always)]
fn call_cause(mode: Mode) -> Cause
    ensures { result ≡ spec.call_cause mode }
{
    match mode {
        Mode::User => Cause::UserCall,
        Mode::Machine => Cause::MachineCall,
    }
}

impl Hart {
    /// The hart at reset: held, in machine mode, at the first address of the kernel area, with every register 0.
    #[tactic(auto, using(crate::proofs::RegisterLemmas::registers))]
    pub fn reset() -> Hart
        ensures value { result ≡ reset_hart }
        ensures range { IsHart result }
    {
        Hart {
            mode: Mode::Machine,
            pc: KERNEL_START,
            csrs: Csrs::reset(),
            run: Run::Held,
            user_steps: 0,
            registers: no_registers(),
            decoder: Decoder::new(),
        }
    }

    /// Register n, which is below 32.
    pub fn read_reg(&self, n: u8) -> u64
        requires { n < 32 }
        ensures { result ≡ effect_spec.read self.now.registers n }
    {
        self.registers[n as usize]
    }

    /// Writes register n, which is below 32. A write of x0 does nothing.
    #[tactic(auto, using(crate::proofs::RegisterLemmas::registers))]
    pub fn write_reg(&mut self, n: u8, value: u64)
        requires { n < 32 }
        ensures after { self.new ≡ record self.old { registers = effect_spec.put self.old.registers n value } }
        ensures range { IsHart self.new }
    {
        put(&mut self.registers, n, value);
    }

    /// How many steps so far began in user mode, those that ended in a trap among them. The count stays at its last
    /// value.
    pub fn user_steps(&self) -> u64
        ensures { result ≡ self.now.user_steps }
    {
        self.user_steps
    }

    // MRET of an instruction of these bits.
    #[cold]
    #[inline(never)]
    #[tactic(auto, unfolding(crate::specs::HartStep::after_mret))]
    fn return_from_trap(&mut self, bits: u32) -> Outcome
        ensures step { (bus : BusState)
            → privileged self.old.mode bits (next_hart bus (after_mret self.old)) ≡ step_of result (over bus self.new) }
        ensures stays { Stays result self.old self.new }
        ensures run { self.new.run ≡ self.old.run }
        ensures count { self.new.user_steps ≡ self.old.user_steps }
        ensures range { IsHart self.new }
    {
        match self.mode {
            Mode::User => trapped(Cause::Illegal, u64::from(bits)),
            Mode::Machine => {
                (self.mode, self.pc) = self.csrs.leave_trap();
                Outcome::Ruled
            }
        }
    }

    // A CSR instruction of these bits, with the next one at `after`.
    #[cold]
    #[inline(never)]
    #[tactic(auto, using(crate::proofs::RegisterLemmas::registers), unfolding(crate::specs::HartStep::csr_step))]
    fn access_csr(&mut self, access: CsrAccess, bits: u32, after: u64) -> Outcome
        requires { access.rd < 32 }
        ensures step { (bus : BusState)
            → csr_step access bits after (over bus self.old) ≡ step_of result (over bus self.new) }
        ensures stays { Stays result self.old self.new }
        ensures run { self.new.run ≡ self.old.run }
        ensures count { self.new.user_steps ≡ self.old.user_steps }
        ensures range { IsHart self.new }
    {
        let Some(old) = self.csrs.read(access.csr, self.mode) else {
            return trapped(Cause::Illegal, u64::from(bits));
        };
        let wanted = written_value(access.op, old, access.value);
        if access.writes && !self.csrs.write(access.csr, wanted, self.mode) {
            return trapped(Cause::Illegal, u64::from(bits));
        }
        put(&mut self.registers, access.rd, old);
        self.pc = after;
        Outcome::Ruled
    }

    // An effect of an instruction of these bits in this mode, with the next one at `after`. Each walk `W` has an
    // instance of its own.
    #[inline(always)]
    #[tactic(auto, using(crate::proofs::RegisterLemmas::registers), unfolding(crate::specs::HartStep::effect_step))]
    fn carry<W>(
        &mut self,
        bus: &mut Bus,
        mode: Mode,
        effect: Effect,
        bits: u32,
        after: u64,
    ) -> Outcome
        requires range { IsInRange effect }
        requires mode { self.old.mode ≡ mode }
        ensures step { effect_step effect bits after (over bus.old self.old) ≡ step_of result (over bus.new self.new) }
        ensures stays { Stays result self.old self.new }
        ensures bus_stays { BusStays result bus.old bus.new }
        ensures run { self.new.run ≡ self.old.run }
        ensures count { self.new.user_steps ≡ self.old.user_steps }
        ensures range { IsHart self.new }
        ensures bytes { IsBus bus.old → IsBus bus.new }
    {
        let pc = self.pc;
        match effect {
            Effect::Pass => self.pc = after,
            Effect::Set { rd, value } => {
                put(&mut self.registers, rd, value);
                self.pc = after;
            }
            Effect::Jump { rd, target } => {
                if target % INSTRUCTION_ALIGNMENT != 0 {
                    return trapped(Cause::Misaligned, target);
                }
                put(&mut self.registers, rd, after);
                self.pc = target;
            }
            Effect::Load {
                rd,
                size,
                extends,
                at,
            } => match load(bus, &self.csrs, mode, size, extends, at) {
                Ok(value) => {
                    put(&mut self.registers, rd, value);
                    self.pc = after;
                }
                Err(byte) => return trapped(Cause::LoadAccess, byte),
            },
            Effect::Store { size, at, value } => match store(
                bus, &self.csrs, mode, size, at, value,
            ) {
                Ok(()) => self.pc = after,
                Err(byte) => return trapped(Cause::StoreAccess, byte),
            },
            Effect::Csr {
                rd,
                csr,
                op,
                value,
                writes,
            } => {
                let access = CsrAccess {
                    rd,
                    csr,
                    op,
                    value,
                    writes,
                };
                return self.access_csr(access, bits, after);
            }
            Effect::Call => return trapped(call_cause(mode), 0),
            Effect::Break => return trapped(Cause::Breakpoint, pc),
            Effect::Return => return self.return_from_trap(bits),
            Effect::Wait => match mode {
                Mode::User => return trapped(Cause::Illegal, u64::from(bits)),
                Mode::Machine => self.pc = after,
            },
        }
        Outcome::Moved
    }

    // One instruction in this mode, or the trap that it is; nothing has changed then. Each walk `W` has an instance of
    // its own.
    #[inline(always)]
    #[tactic(auto, unfolding(crate::specs::HartStep::instruction_step))]
    fn instruction<W>(&mut self, bus: &mut Bus, mode: Mode) -> Outcome
        requires mode { self.old.mode ≡ mode }
        ensures step { instruction_step (over bus.old self.old) ≡ step_of result (over bus.new self.new) }
        ensures stays { Stays result self.old self.new }
        ensures bus_stays { BusStays result bus.old bus.new }
        ensures run { self.new.run ≡ self.old.run }
        ensures count { self.new.user_steps ≡ self.old.user_steps }
        ensures range { IsHart self.new }
        ensures bytes { IsBus bus.old → IsBus bus.new }
    {
        let word = match read(bus, &self.csrs, mode, Access::Execute, self.pc, 4) {
            Ok(number) => number as u32,
            Err(byte) => return trapped(Cause::FetchAccess, byte),
        };
        let Some(insn) = self.decoder.decode(self.pc, word) else {
            return trapped(Cause::Illegal, u64::from(word));
        };
        let effect = act::<W>(insn, self.pc, &self.registers);
        let after = self.pc.wrapping_add(4);
        self.carry::<W>(bus, mode, effect, word, after)
    }

    // Instructions in this mode as long as each moves on, at most so many: how many did, and what came next, or Moved
    // where all did. No step is counted.
    #[inline(never)]
    fn walk<W>(&mut self, bus: &mut Bus, mode: Mode, most: u64) -> (u64, Outcome)
        requires mode { self.old.mode ≡ mode }
        requires running { self.old.run ≡ Run.Running }
        ensures walked { Walked result.1 mode result.0 (over bus.old self.old) (over bus.new self.new) }
        ensures most { result.0 ≤ most }
        ensures moved { result.1 ≡ Outcome.Moved → result.0 ≡ most }
        ensures stopped { result.1 ≢ Outcome.Moved → result.0 < most }
        ensures run { self.new.run ≡ Run.Running }
        ensures count { self.new.user_steps ≡ self.old.user_steps }
        ensures bytes { IsBus bus.old → IsBus bus.new }
    {
        let mut count = 0;
        'steps: while count < most {
            match self.instruction::<W>(bus, mode) {
                Outcome::Moved => count += 1,
                outcome => return (count, outcome),
            }
        }
        (count, Outcome::Moved)
    }

    // Takes a trap.
    #[cold]
    #[tactic(auto, unfolding(crate::specs::HartStep::trap_step))]
    fn trap(&mut self, trap: Trap)
        ensures after { self.new ≡ trap_step trap.cause trap.value self.old }
        ensures run { self.new.run ≡ self.old.run }
        ensures range { IsHart self.new }
    {
        self.pc = self.csrs.enter_trap(
            u64::from(trap.cause.number()),
            trap.value,
            self.pc,
            self.mode,
        );
        self.mode = Mode::Machine;
    }

    // The walk of this mode.
    #[inline(always)]
    fn walk_in(&mut self, bus: &mut Bus, mode: Mode, most: u64) -> (u64, Outcome)
        requires mode { self.old.mode ≡ mode }
        requires running { self.old.run ≡ Run.Running }
        ensures walked { Walked result.1 mode result.0 (over bus.old self.old) (over bus.new self.new) }
        ensures most { result.0 ≤ most }
        ensures moved { result.1 ≡ Outcome.Moved → result.0 ≡ most }
        ensures stopped { result.1 ≢ Outcome.Moved → result.0 < most }
        ensures run { self.new.run ≡ Run.Running }
        ensures count { self.new.user_steps ≡ self.old.user_steps }
        ensures bytes { IsBus bus.old → IsBus bus.new }
    {
        match mode {
            Mode::User => self.walk::<InUser>(bus, Mode::User, most),
            Mode::Machine => self.walk::<InMachine>(bus, Mode::Machine, most),
        }
    }

    // Ends a walk of so many instructions: the trap that came next is taken. How many steps were made in all.
    #[inline(always)]
    fn settle(&mut self, moved: u64, outcome: Outcome) -> u64
        requires { outcome ≢ Outcome.Moved → moved < 2 ^ 64 - 1 }
        ensures settled { Settled outcome moved result self.old self.new }
        ensures run { self.new.run ≡ self.old.run }
    {
        match outcome {
            Outcome::Moved => moved,
            Outcome::Ruled => moved + 1,
            Outcome::Trapped(trap) => {
                self.trap(trap);
                moved + 1
            }
        }
    }

    // Counts so many steps that began in this mode.
    #[inline(always)]
    #[tactic(auto, using(crate::proofs::WalkLaws::counts))]
    fn count(&mut self, mode: Mode, steps: u64)
        ensures after { self.new ≡ record self.old { user_steps = counted_by mode steps self.old.user_steps } }
        ensures range { IsHart self.new }
    {
        let counted = self.user_steps.saturating_add(steps);
        if mode == Mode::User {
            self.user_steps = counted;
        }
    }

    // Steps of a hart that runs, at most so many and one at least: how many.
    fn run_on(&mut self, bus: &mut Bus, most: u64) -> u64
        requires running { self.old.run ≡ Run.Running }
        requires some { 0 < most }
        ensures steps { hart_after result (over bus.old self.old) ≡ over bus.new self.new }
        ensures some { 0 < result }
        ensures most { result ≤ most }
        ensures run { self.new.run ≡ Run.Running }
        ensures range { IsHart self.new }
        ensures bytes { IsBus bus.old → IsBus bus.new }
    {
        let mode = self.mode;
        let (moved, outcome) = self.walk_in(bus, mode, most);
        let steps = self.settle(moved, outcome);
        self.count(mode, steps);
        steps
    }

    // A step of a hart that does not run.
    #[cold]
    #[inline(never)]
    fn rest(&mut self, bus: &Bus)
        requires { self.old.run ≢ Run.Running }
        ensures step { over bus.now self.new ≡ hart_step (over bus.now self.old) }
        ensures unhalted { IsUnhalted self.old.run → IsUnhalted self.new.run }
        ensures range { IsHart self.new }
    {
        if let Run::Held = self.run {
            if start_word(bus) != 0 {
                self.run = Run::Running;
            }
        }
    }

    // Steps, at most so many and one at least: how many.
    #[inline(always)]
    #[tactic(auto, using(crate::proofs::WalkLaws::one_step))]
    fn go_on(&mut self, bus: &mut Bus, most: u64) -> u64
        requires { 0 < most }
        ensures steps { hart_after result (over bus.old self.old) ≡ over bus.new self.new }
        ensures some { 0 < result }
        ensures most { result ≤ most }
        ensures unhalted { IsUnhalted self.old.run → IsUnhalted self.new.run }
        ensures range { IsHart self.new }
        ensures bytes { IsBus bus.old → IsBus bus.new }
    {
        match self.run {
            Run::Running => self.run_on(bus, most),
            Run::Held | Run::Halted { .. } => {
                self.rest(bus);
                1
            }
        }
    }

    /// So many steps over the bus, where the debug lines ask for nothing.
    pub fn run_steps(&mut self, bus: &mut Bus, count: u64)
        ensures steps { hart_after count (over bus.old self.old) ≡ over bus.new self.new }
        ensures unhalted { IsUnhalted self.old.run → IsUnhalted self.new.run }
        ensures range { IsHart self.new }
        ensures bytes { IsBus bus.old → IsBus bus.new }
    {
        // Read, so that what its type says of the hart is known.
        let _pc = self.pc;
        let mut made = 0;
        'steps: while made < count {
            made += self.go_on(bus, count - made);
        }
    }

    /// One step over the bus and the lines, which may ask for nothing. A held hart begins to run where the start word
    /// is not 0. One that runs makes one instruction or takes its trap. One that is halted stays as it is.
    #[tactic(auto, using(crate::proofs::LinedLaws::lined_step_quiet))]
    pub fn step(&mut self, bus: &mut Bus, lines: &mut DebugLines)
        requires { AreQuiet lines.old }
        ensures step { record { system = over bus.new self.new; lines = lines.new }
            ≡ lined_step (record { system = over bus.old self.old; lines = lines.old }) }
        ensures quiet { over bus.new self.new ≡ hart_step (over bus.old self.old) }
        ensures lines_stay { lines.new ≡ lines.old }
        ensures unhalted { IsUnhalted self.old.run → IsUnhalted self.new.run }
        ensures range { IsHart self.new }
        ensures bytes { IsBus bus.old → IsBus bus.new }
    {
        self.run_steps(bus, 1);
    }
}
