// The direct run over a source, a sink and a folder.
ghost use Rattle.std.specs.Prelude.{◌≡◌, ◌≢◌, ◌<◌, ◌≤◌, ◌+◌, ◌-◌, ◌^◌, max, ℕ, [], Some, None, Err, ◌↔◌, IfOk, OnOk};
ghost use Rattle.std.specs.Prelude.{OnErr, is_some, length, if◌then◌else◌};
ghost use Rattle.std.specs.Result.{result_err};
ghost use Rattle.fe_base.specs.Outside.{capacity};
ghost use Rattle.host_text.specs.World.{Contents};
ghost use Rattle.syscall_proxy.specs.Kept.{Setting};
ghost use Rattle.plain_machine.specs.Outsides.{Asking, Called, InWorld, outside};

use crate::cpu::Cpu;
use crate::machine::Machine;
use crate::start::first_bus;
use elf_loader::Image;
use fe_base::limits::{MAIN_VARS_LIMIT, PATH_TEXT_LIMIT, STACK_TOP};
use fe_base::{Sink, Source, Words};
use folder_tree::{Folder, Path};
use std::alloc::{AllocError, Global};
use std::marker::Model;
use syscall_proxy::Host;

/// Why a step was not made.
#[derive(Clone, Copy, Debug, PartialEq, Eq)]
pub enum PlainFault {
    /// The folder failed.
    FileFault,
    /// The input failed.
    InputFault,
    /// The console failed.
    ConsoleFault,
    /// The folder found no memory.
    OutOfMemory,
}

/// How a run ended.
#[derive(Clone, Copy, Debug, PartialEq, Eq)]
pub enum PlainEnd {
    /// The program has ended with this status.
    Exited(u8),
    /// The limit's steps were made and the program has not ended.
    StepsSpent,
    /// The next step could not be made.
    Fault(PlainFault),
}

/// A program on the direct machine, with the host of its calls and the number of steps that it has made.
#[derive(Drop)]
pub struct Plain {
    machine: Machine,
    host: Host,
    steps: u64,
}

impl Model for Plain {
    ghost use Rattle.plain_machine.specs.Stands.{PlainState};

    ghost Value = { PlainState };

    ghost view = { λ p. record {
      machine = p.machine;
      given = p.host.given;
      numbers = p.host.numbers;
      steps = p.steps;
    } };
}

impl Plain {
    ghost use Rattle.elf_loader.specs.ElfFile.{IsFit};
    ghost use Rattle.elf_loader.specs.Rules.{user_rules};
    ghost use Rattle.fe_base.specs.WordLists.{main_vars_length};
    ghost use Rattle.folder_tree.specs.Paths.{path_text};
    ghost use Rattle.folder_tree.specs.Tree.{IsWellFormed, Tree};
    ghost use Rattle.syscall_proxy.specs.Worlds.{IsWorldOf};
    ghost use Rattle.plain_machine.specs.Asks.{asks_folder, asks_input, needs_outside, puts_of, step_cuts};
    ghost use Rattle.std.specs.Prelude.{true, false};
    ghost use Rattle.plain_machine.specs.Direct.{DirectState, direct_after, direct_step, ended, moves_on, status_of};
    ghost use Rattle.plain_machine.specs.Stands.{HasRoomFor, IsAt, LoneRan, MachineAt, NeverAsks, NeverPuts, PlainRan};
    ghost use Rattle.plain_machine.specs.Stands.{Spares, Tells};
    ghost use Rattle.plain_machine.specs.Stands.{asks, direct_of, end_fault, first_state, made, tried};

    /// A program before its first step: its image and its arguments stand in the user area. The root is where the paths
    /// of its calls begin. It takes the memory of the machine, and of its host.
    #[tactic(auto, using(crate::proofs::FirstWorld::is_world))]
    pub fn start(alloc: Global, image: Image, args: &Words, root: Path) -> Result<Plain, AllocError>
        requires fit { IsFit user_rules image }
        requires arguments { main_vars_length args.now ≤ MAIN_VARS_LIMIT }
        requires root_length { length (path_text root) ≤ PATH_TEXT_LIMIT }
        ensures world { IfOk result (λ plain. (t : Tree) → IsWellFormed t → IsWorldOf plain.numbers t) }
        ensures first { IfOk result (λ plain. plain ≡ first_state image args.now root) }
    {
        let host = Host::new(alloc, args, root)?;
        let bus = first_bus(alloc, &image.segments, args)?;
        let cpu = Cpu::new(image.entry, STACK_TOP, bus);
        Ok(Plain {
            machine: Machine::new(cpu, image.first_break),
            host,
            steps: 0,
        })
    }

    /// How many steps were made, those of every call together.
    pub fn steps(&self) -> u64
        ensures { result ≡ self.now.steps }
    {
        self.steps
    }

    /// One direct step: the status where the machine has ended after it. A machine that has ended already does nothing.
    pub fn step<F: Folder, I: Source, C: Sink>(
        &mut self,
        folder: &mut F,
        input: &mut I,
        console: &mut C,
    ) -> Result<Option<u8>, PlainFault>
        requires { self.old.steps < 2 ^ 64 - 1 }
        // Over told objects the step is the direct step.
        ensures step { OnOk result ((c : Contents)
            → Tells c (I.left input.old) (C.held console.old) (F.tree folder.old)
            → IsAt (direct_step self.old.given (direct_of self.old c)) self.new (I.left input.new) (C.held console.new)
            (F.tree folder.new)) }
        // So it is, of machine and open numbers, whatever the objects tell, where it needs neither folder nor input.
        ensures lone { OnOk result (needs_outside (asks self.old) ≡ false → (c : Contents)
            → MachineAt (direct_step self.old.given (direct_of self.old c)) self.new.machine self.new.numbers) }
        ensures status { IfOk result (λ status. status ≡ status_of self.new.machine) }
        ensures counted { OnOk result (self.new.steps
            ≡ (if is_some (status_of self.old.machine) then self.old.steps else self.old.steps + 1)) }
        ensures given { self.new.given ≡ self.old.given }

        // A fault leaves the machine, its open numbers and what the objects tell; but an openat that takes a file's
        // bytes away may leave that file, which stands below the root, open once more.
        ensures kept { OnErr result (self.new ≡ self.old) }
        ensures spared { OnErr result ((c : Contents)
            → Tells c (I.left input.old) (C.held console.old) (F.tree folder.old)
            → Spares (step_cuts self.old.machine) self.old.given.root c (I.left input.new) (C.held console.new)
            (F.tree folder.new)) }

        // The causes of faults and what steady objects do; what the step asks of the objects, and that it touches no
        // other; and that a world stays one.
        ensures called { Called F.Folder I.Source C.Sink (outside folder.old input.old console.old)
            (outside folder.new input.new console.new) (result_err result) }
        ensures asking { Asking F.Folder I.Source C.Sink (asks self.old) (outside folder.old input.old console.old)
            (outside folder.new input.new console.new) (result_err result) }
        ensures in_world { InWorld F.Folder I.Source C.Sink self.old.numbers self.new.numbers
            (outside folder.old input.old console.old) (outside folder.new input.new console.new) (result_err result) }
    {
        if let Some(status) = self.machine.status() {
            return Ok(Some(status));
        }
        self.machine.step(&mut self.host, folder, input, console)?;
        self.steps += 1;
        Ok(self.machine.status())
    }

    /// Steps until the machine has ended or the limit's steps were made, those of earlier calls among them.
    pub fn run<F: Folder, I: Source, C: Sink>(
        &mut self,
        limit: u64,
        folder: &mut F,
        input: &mut I,
        console: &mut C,
    ) -> PlainEnd
        // Where machine and told objects stand at a state, they stand behind the run where so many direct steps lead
        // from there, whatever is answered. Before each of these steps the machine had not ended.
        ensures ran { (first : DirectState)
            → IsAt first self.old (I.left input.old) (C.held console.old) (F.tree folder.old)
            → PlainRan first self.old self.new result (I.left input.new) (C.held console.new) (F.tree folder.new) }
        // Whatever the objects tell, a run none of whose steps needs folder or input, the step in which a fault came among
        // them, is the direct run of machine and open numbers, and leaves folder and input as they were.
        ensures lone { (c : Contents)
            → NeverAsks needs_outside self.old.given (direct_of self.old c) (tried result (made self.old self.new))
            → LoneRan (direct_of self.old c) self.old self.new × (folder.new ≡ folder.old) × (input.new ≡ input.old) }
        ensures given { self.new.given ≡ self.old.given }
        ensures later { self.old.steps ≤ self.new.steps }
        ensures within { self.new.steps ≤ max limit self.old.steps }

        // How the run ended, exactly. A fault comes below the limit.
        ensures exited { (status : ℕ) → (result ≡ PlainEnd.Exited status) ↔ (self.new.machine ≡ ended status) }
        ensures spent { (result ≡ PlainEnd.StepsSpent)
            ↔ ((status_of self.new.machine ≡ None) × (self.new.steps ≡ max limit self.old.steps)) }
        ensures stopped { (fault : PlainFault) → result ≡ PlainEnd.Fault fault → self.new.steps < limit }

        // The causes of faults; what steady objects do; that a world stays one; and that a fault comes only of what the
        // step that was not made asks.
        ensures called { Called F.Folder I.Source C.Sink (outside folder.old input.old console.old)
            (outside folder.new input.new console.new) (end_fault result) }
        ensures in_world { InWorld F.Folder I.Source C.Sink self.old.numbers self.new.numbers
            (outside folder.old input.old console.old) (outside folder.new input.new console.new) (end_fault result) }
        ensures file_asked { result ≡ PlainEnd.Fault PlainFault.FileFault → asks_folder (asks self.new) ≡ true }
        ensures memory_asked { result ≡ PlainEnd.Fault PlainFault.OutOfMemory → asks_folder (asks self.new) ≡ true }
        ensures input_asked { result ≡ PlainEnd.Fault PlainFault.InputFault → asks_input (asks self.new) ≡ true }
        ensures console_asked { result ≡ PlainEnd.Fault PlainFault.ConsoleFault → puts_of (asks self.new) ≢ [] }

        // What none of the steps asks is as it was, the step in which a fault came among them.
        ensures folder_untouched { (first : DirectState)
            → IsAt first self.old (I.left input.old) (C.held console.old) (F.tree folder.old)
            → NeverAsks asks_folder self.old.given first (tried result (made self.old self.new))
            → folder.new ≡ folder.old }
        ensures input_untouched { (first : DirectState)
            → IsAt first self.old (I.left input.old) (C.held console.old) (F.tree folder.old)
            → NeverAsks asks_input self.old.given first (tried result (made self.old self.new))
            → input.new ≡ input.old }
        ensures console_untouched { (first : DirectState)
            → IsAt first self.old (I.left input.old) (C.held console.old) (F.tree folder.old)
            → NeverPuts self.old.given first (tried result (made self.old self.new)) → console.new ≡ console.old }

        // A steady console fails no run for which its room suffices: the room for what the direct run has put after one
        // step more than were made.
        ensures suits { C.steady console.old → (first : DirectState)
            → IsAt first self.old (I.left input.old) (C.held console.old) (F.tree folder.old)
            → HasRoomFor (capacity (C.held console.old) (C.room console.old))
            (length (direct_after self.old.given (made self.old self.new + 1) first).world.contents.console)
            → result ≡ PlainEnd.Fault PlainFault.ConsoleFault → ⊥ }
    {
        'steps: while self.steps < limit && self.status().is_none() {
            // The walk leaves a step below the limit for `step`, which makes what a walk cannot.
            self.walk(limit - 1);
            if let Err(fault) = self.step(folder, input, console) {
                return PlainEnd::Fault(fault);
            }
        }
        match self.status() {
            Some(status) => PlainEnd::Exited(status),
            None => PlainEnd::StepsSpent,
        }
    }

    // Steps that move the program on and do nothing else, until the next one is another or this limit's steps were
    // made, those of earlier calls among them.
    fn walk(&mut self, limit: u64)
        ensures after { (c : Contents)
            → direct_after self.old.given (self.new.steps - self.old.steps) (direct_of self.old c)
            ≡ direct_of self.new c }
        ensures each { (c : Contents) (n : ℕ) → n < self.new.steps - self.old.steps
            → moves_on (direct_after self.old.given n (direct_of self.old c)).machine ≡ true }
        ensures given { self.new.given ≡ self.old.given }
        ensures numbers { self.new.numbers ≡ self.old.numbers }
        ensures later { self.old.steps ≤ self.new.steps }
        ensures within { self.new.steps ≤ max limit self.old.steps }
        ensures stopped { self.new.steps < limit → moves_on self.new.machine ≡ false }
        ensures status { status_of self.new.machine ≡ status_of self.old.machine }
    {
        self.steps += self.machine.walk(limit.saturating_sub(self.steps));
    }

    // The status, where the machine has ended.
    fn status(&self) -> Option<u8>
        ensures { result ≡ status_of self.now.machine }
    {
        self.machine.status()
    }
}
