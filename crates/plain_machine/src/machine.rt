// A program that runs, says its last words, or has ended.
ghost use Rattle.std.specs.Prelude.{◌≡◌, ◌≤◌, ◌<◌, ℕ, List, [], ◌∷◌, IsOk, OnOk, OnErr, true, false};
ghost use Rattle.std.specs.Result.{result_err};
ghost use Rattle.fe_base.specs.Outside.{capacity, HasCause, Puts, PutSuits};
ghost use Rattle.host_text.specs.Outside.{HasPut};
ghost use Rattle.host_text.specs.World.{Contents, World};
ghost use Rattle.syscall_proxy.specs.Kept.{Setting};
ghost use Rattle.plain_machine.specs.Asks.{needs_outside, step_asks, step_cuts};
ghost use Rattle.plain_machine.specs.Direct.{machine_step, status_of, in_world, direct_after, moves_on};
ghost use Rattle.plain_machine.specs.Outsides.{Asking, Called, InWorld, outside};
ghost use Rattle.plain_machine.specs.Stands.{MachineAt, Reaches, Spares, Tells};

use crate::PlainFault;
use crate::calls::{Process, call};
use crate::cpu::{Cpu, Outcome};
use crate::messages::{Message, last_words};
use fe_base::{Failed, Sink, Source};
use folder_tree::Folder;
use std::marker::Model;
use syscall_proxy::Host;

/// Where a program stands in its life.
#[derive(Drop)]
pub enum Phase {
    /// Its instructions are done.
    Running,
    /// A trap has ended it: what is left of its last words, and its status behind them.
    Dying { message: Message, status: u8 },
    /// It has ended with this status.
    Ended(u8),
}

/// A program with its phase.
#[derive(Drop)]
pub struct Machine {
    process: Process,
    phase: Phase,
}

impl Model for Machine {
    ghost use Rattle.plain_machine.specs.Direct.{Machine as DirectMachine};
    ghost use Rattle.plain_machine.specs.Machines.{machine_of};

    ghost Value = { DirectMachine };

    ghost view = { λ m. machine_of m.process m.phase };
}

// One byte on the console.
fn put_byte<C: Sink>(byte: u8, console: &mut C) -> Result<(), Failed>
    ensures put { HasPut C.Sink console.old console.new (byte ∷ []) result }
    ensures bytes { Puts (C.held console.old) (C.held console.new) (byte ∷ []) result }
    ensures capacity { capacity (C.held console.new) (C.room console.new)
        ≡ capacity (C.held console.old) (C.room console.old) }
    ensures cause { HasCause (C.faults console.old) (C.faults console.new) result }
    ensures steady { C.steady console.old → OnOk result (C.steady console.new) }
    ensures suits { C.steady console.old → PutSuits (C.room console.old) 1 → IsOk result }
{
    console.put(&[byte])
}

impl Machine {
    ghost use Rattle.plain_machine.specs.Direct.{running};

    /// A program before its first step, with this first break.
    pub fn new(cpu: Cpu, first_break: u64) -> Machine
        ensures { result ≡ running (record { state = cpu; program_break = first_break; first_break = first_break }) }
    {
        let process = Process {
            cpu,
            program_break: first_break,
            first_break,
        };
        Machine {
            process,
            phase: Phase::Running,
        }
    }

    /// The status, where the program has ended.
    #[inline(always)]
    pub fn status(&self) -> Option<u8>
        ensures { result ≡ status_of self.now }
    {
        match self.phase {
            Phase::Ended(status) => Some(status),
            _ => None,
        }
    }

    /// Steps, at most so many, as long as each is an instruction that moves the program on; how many were made. They
    /// leave the console, the input and the files alone.
    pub fn walk(&mut self, most: u64) -> u64
        ensures after { (given : Setting) (w : World)
            → direct_after given result (in_world self.old w) ≡ in_world self.new w }
        ensures each { (given : Setting) (w : World) (n : ℕ) → n < result
            → moves_on (direct_after given n (in_world self.old w)).machine ≡ true }
        ensures most { result ≤ most }
        ensures stopped { result < most → moves_on self.new ≡ false }
        ensures status { status_of self.new ≡ status_of self.old }
    {
        match self.phase {
            Phase::Running => self.process.cpu.walk(most).0,
            Phase::Dying { .. } | Phase::Ended(_) => 0,
        }
    }

    /// One step: an instruction, a call, one byte of the last words, or the end behind them.
    #[inline(always)]
    pub fn step<F: Folder, I: Source, C: Sink>(
        &mut self,
        host: &mut Host,
        folder: &mut F,
        input: &mut I,
        console: &mut C,
    ) -> Result<(), PlainFault>
        ensures given { host.new.given ≡ host.old.given }
        ensures step { OnOk result ((c : Contents)
            → Tells c (I.left input.old) (C.held console.old) (F.tree folder.old)
            → Reaches (machine_step host.old.given self.old (record { contents = c; numbers = host.old.numbers }))
            self.new host.new.numbers (I.left input.new) (C.held console.new) (F.tree folder.new)) }
        ensures lone { OnOk result (needs_outside (step_asks host.old.numbers self.old) ≡ false → (c : Contents)
            → MachineAt (machine_step host.old.given self.old (record { contents = c; numbers = host.old.numbers }))
            self.new host.new.numbers) }
        ensures kept { OnErr result (self.new ≡ self.old) }
        ensures numbers { OnErr result (host.new.numbers ≡ host.old.numbers) }
        ensures spared { OnErr result ((c : Contents)
            → Tells c (I.left input.old) (C.held console.old) (F.tree folder.old)
            → Spares (step_cuts self.old) host.old.given.root c (I.left input.new) (C.held console.new)
            (F.tree folder.new)) }
        ensures called { Called F.Folder I.Source C.Sink (outside folder.old input.old console.old)
            (outside folder.new input.new console.new) (result_err result) }
        ensures asking { Asking F.Folder I.Source C.Sink (step_asks host.old.numbers self.old)
            (outside folder.old input.old console.old) (outside folder.new input.new console.new) (result_err result) }
        ensures in_world { InWorld F.Folder I.Source C.Sink host.old.numbers host.new.numbers
            (outside folder.old input.old console.old) (outside folder.new input.new console.new) (result_err result) }
    {
        match &mut self.phase {
            Phase::Running => match self.process.cpu.step() {
                Outcome::Moved => {}
                Outcome::Called => {
                    if let Some(status) = call(&mut self.process, host, folder, input, console)? {
                        self.phase = Phase::Ended(status);
                    }
                }
                Outcome::Trapped(trap) => {
                    let (message, status) = last_words(trap, self.process.cpu.pc());
                    self.phase = Phase::Dying { message, status };
                }
            },
            Phase::Dying { message, status } => match message.first() {
                Some(byte) => {
                    put_byte(byte, console).map_err(|_| PlainFault::ConsoleFault)?;
                    message.advance();
                }
                None => self.phase = Phase::Ended(*status),
            },
            Phase::Ended(_) => {}
        }
        Ok(())
    }
}
