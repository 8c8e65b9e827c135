// The host's side of the mailbox, one host turn at a time.
ghost use Rattle.std.specs.Prelude.{◌≡◌, ℕ, Err, IfErr, IsErrOf, IsTrue};
ghost use Rattle.fe_base.specs.MemoryMap.{is_beat};
ghost use Rattle.fe_base.specs.Outside.{Rose};
ghost use Rattle.host_text.specs.Outside.{acts};
ghost use Rattle.host_text.specs.Played.{Played, at};
ghost use Rattle.htif_mailbox.specs.Alone.{at_memory, memory_alone};
ghost use Rattle.htif_mailbox.specs.Mailboxes.{first_state, keeping};
ghost use Rattle.htif_mailbox.specs.Places.{IsOfRequest};
ghost use Rattle.htif_mailbox.specs.Turns.{give_text, serve_text, turn_text};

use crate::answers::{MailFault, Turned};
use crate::handler::Handler;
use arrayvec::ArrayVec;
use chunk_memory::{ChunkPort, Chunked, MemStop};
use fe_base::{Sink, Source};
use folder_tree::Folder;
use std::marker::Model;
use syscall_proxy::{CallFault, Host};

/// A host behind the guest's two mailbox words: what the guest asks for in tohost is done, and answers go to
/// fromhost, the oldest first.
#[derive(Drop)]
pub struct Mailbox {
    handler: Handler,
    tohost: u64,
    fromhost: u64,
}

impl Model for Mailbox {
    ghost use Rattle.std.specs.Prelude.{IsTrue};
    ghost use Rattle.fe_base.specs.MemoryMap.{is_beat};
    ghost use Rattle.htif_mailbox.specs.Handlers.{kept_by};
    ghost use Rattle.htif_mailbox.specs.Mailboxes.{MailState};

    ghost Value = { MailState };

    ghost view = { λ m. record {
      given = m.handler.host.given;
      kept = kept_by m.handler;
      tohost = m.tohost;
      fromhost = m.fromhost;
    } };

    ghost invariant = { λ m. IsTrue (is_beat m.tohost) × IsTrue (is_beat m.fromhost) };
}

impl Mailbox {
    /// A mailbox in which nothing waits.
    pub fn new(host: Host, tohost: u64, fromhost: u64) -> Mailbox
        requires tohost { IsTrue (is_beat tohost) }
        requires fromhost { IsTrue (is_beat fromhost) }
        ensures { result ≡ first_state host tohost fromhost }
    {
        let handler = Handler {
            host,
            waiting: ArrayVec::new(),
            acted: false,
        };
        Mailbox {
            handler,
            tohost,
            fromhost,
        }
    }

    /// Whether the last `serve` handled a command that acted: a system call by its own account, a command of the
    /// console where its put or take was answered, and an exit always.
    pub fn acted(&self) -> bool
        ensures { result ≡ self.now.kept.acted }
    {
        self.handler.acted
    }

    /// The part of a host turn on tohost: it is read where fewer than 16 answers wait; a word that is not 0 is
    /// cleared and then handled.
    pub fn serve<P: ChunkPort, F: Folder, I: Source, C: Sink>(
        &mut self,
        mem: &mut Chunked<P>,
        folder: &mut F,
        input: &mut I,
        console: &mut C,
    ) -> Result<Turned, MailFault>
        requires usable { P.usable mem.old }
        ensures usable { P.usable mem.new }
        ensures same { self.new ≡ keeping self.old self.new.kept }
        ensures file_fault { result ≡ Err (MailFault.Call CallFault.FileFault)
            → Rose (F.faults folder.old) (F.faults folder.new) }
        ensures out_of_memory { result ≡ Err (MailFault.Call CallFault.OutOfMemory)
            → Rose (F.short folder.old) (F.short folder.new) }
        ensures input_fault { result ≡ Err (MailFault.Call CallFault.InputFault)
            → Rose (I.faults input.old) (I.faults input.new) }
        ensures console_fault { result ≡ Err (MailFault.Call CallFault.ConsoleFault)
            → Rose (C.faults console.old) (C.faults console.new) }
        ensures unmapped { (doubleword : ℕ) → IsErrOf result (MailFault.Port (MemStop.Unmapped doubleword))
            → IsOfRequest P.ChunkPort self.old.tohost mem.old doubleword }
        ensures waiting { IfErr result (λ _. self.new.kept.waiting ≡ self.old.kept.waiting) }
        ensures played { Played (acts P.ChunkPort F.Folder I.Source C.Sink) (serve_text self.old.given self.old.tohost)
            (at mem.old folder.old input.old console.old self.old.kept) result
            (at mem.new folder.new input.new console.new self.new.kept) }
    {
        self.handler.serve(mem, folder, input, console, self.tohost)
    }

    /// The part of a host turn on fromhost: the oldest answer that waits is written there, where it is 0.
    pub fn give<P: ChunkPort>(&mut self, mem: &mut Chunked<P>) -> Result<bool, MemStop>
        requires usable { P.usable mem.old }
        ensures usable { P.usable mem.new }
        ensures same { self.new ≡ keeping self.old self.new.kept }
        ensures refused { IfErr result (λ _. self.new.kept ≡ self.old.kept) }
        ensures mapped { (doubleword : ℕ) → IsErrOf result (MemStop.Unmapped doubleword) → ⊥ }
        ensures played { Played (memory_alone P.ChunkPort) (give_text self.old.fromhost)
            (at_memory mem.old self.old.kept) result (at_memory mem.new self.new.kept) }
    {
        self.handler.give(mem, self.fromhost)
    }

    /// A host turn: the part on tohost and then, unless that was an exit or a fault, the part on fromhost.
    pub fn turn<P: ChunkPort, F: Folder, I: Source, C: Sink>(
        &mut self,
        mem: &mut Chunked<P>,
        folder: &mut F,
        input: &mut I,
        console: &mut C,
    ) -> Result<Turned, MailFault>
        requires usable { P.usable mem.old }
        ensures usable { P.usable mem.new }
        ensures same { self.new ≡ keeping self.old self.new.kept }
        ensures file_fault { result ≡ Err (MailFault.Call CallFault.FileFault)
            → Rose (F.faults folder.old) (F.faults folder.new) }
        ensures out_of_memory { result ≡ Err (MailFault.Call CallFault.OutOfMemory)
            → Rose (F.short folder.old) (F.short folder.new) }
        ensures input_fault { result ≡ Err (MailFault.Call CallFault.InputFault)
            → Rose (I.faults input.old) (I.faults input.new) }
        ensures console_fault { result ≡ Err (MailFault.Call CallFault.ConsoleFault)
            → Rose (C.faults console.old) (C.faults console.new) }
        ensures unmapped { (doubleword : ℕ) → IsErrOf result (MailFault.Port (MemStop.Unmapped doubleword))
            → IsOfRequest P.ChunkPort self.old.tohost mem.old doubleword }
        ensures played { Played (acts P.ChunkPort F.Folder I.Source C.Sink)
            (turn_text self.old.given self.old.tohost self.old.fromhost)
            (at mem.old folder.old input.old console.old self.old.kept) result
            (at mem.new folder.new input.new console.new self.new.kept) }
    {
        let served = self.serve(mem, folder, input, console)?;
        match served {
            Turned::Exited(status) => Ok(Turned::Exited(status)),
            Turned::Answered => Ok(Turned::Answered),
            Turned::Served => {
                self.give(mem)?;
                Ok(Turned::Served)
            }
            Turned::Idle => {
                let given = self.give(mem)?;
                Ok(if given {
                    Turned::Answered
                } else {
                    Turned::Idle
                })
            }
        }
    }
}
