// Commands carried out, and answers that wait.
ghost use Rattle.std.specs.Prelude.{◌≡◌, ◌<◌, ℕ, List, [], ◌∷◌, false, IfErr, IfOk, Ok, Err};
ghost use Rattle.fe_base.specs.declared.outside.Failed.{Failed as Failure};
ghost use Rattle.arrayvec.specs.ArrayVec.{array_vec_len};
ghost use Rattle.host_text.specs.Outside.{HasPut, HasTaken, acts};
ghost use Rattle.host_text.specs.Played.{Played, at};
ghost use Rattle.htif_mailbox.specs.Alone.{at_memory, memory_alone};
ghost use Rattle.htif_mailbox.specs.Causes.{HasCause, IsOfPort, outside};
ghost use Rattle.htif_mailbox.specs.Commands.{command_of as command_in};
ghost use Rattle.htif_mailbox.specs.Handlers.{kept_by};
ghost use Rattle.htif_mailbox.specs.Turns.{command_text, finish, give_text, request_text, serve_text, taken};
ghost use Rattle.syscall_proxy.specs.Kept.{acts as has_acted};
ghost use Rattle.syscall_proxy.specs.declared.answers.CallAnswer.{CallAnswer as Answer};

use crate::answers::{MailFault, Turned};
use crate::commands::{Command, command_of};
use crate::outside;
use arrayvec::ArrayVec;
use chunk_memory::{ChunkPort, Chunked, MemStop};
use fe_base::{Sink, Source, from_host};
use folder_tree::Folder;
use syscall_proxy::{CallAnswer, CallFault, Host, request_of};

/// The most answers that wait for the guest; while so many do, tohost is not read.
pub(crate) const MOST_WAITING: usize = 16;

// What is answered to a system call.
const CALL_ANSWER: u64 = 1;

// The console, the command of it that takes a byte, and what is answered to that with the byte added.
const CONSOLE: u8 = 1;

const TAKE_BYTE: u8 = 0;

const BYTE_TAKEN: u64 = 0x100;

/// A host with the answers that wait for its guest, the oldest first, and whether its last command acted.
#[derive(Drop)]
pub(crate) struct Handler {
    pub host: Host,
    pub waiting: ArrayVec<u64, MOST_WAITING>,
    pub acted: bool,
}

impl Handler {
    // A call's result goes to the request's first doubleword before its answer waits.
    fn finish<P: ChunkPort>(
        &mut self,
        mem: &mut Chunked<P>,
        place: u64,
        value: u64,
    ) -> Result<Turned, MailFault>
        requires usable { P.usable mem.old }
        requires few { array_vec_len self.old.waiting < MOST_WAITING }
        ensures usable { P.usable mem.new }
        ensures host { self.new.host ≡ self.old.host }
        ensures cause { IfErr result IsOfPort }
        ensures waiting { IfErr result (λ _. self.new.waiting.items ≡ self.old.waiting.items) }
        ensures played { Played (memory_alone P.ChunkPort) (finish place (Answer.Result value))
            (at_memory mem.old (kept_by self.old)) result (at_memory mem.new (kept_by self.new)) }
    {
        outside::write_word(mem, place, value)?;
        self.waiting.push(CALL_ANSWER);
        Ok(Turned::Served)
    }

    // A system call whose request stands at a place.
    fn call<P: ChunkPort, F: Folder, I: Source, C: Sink>(
        &mut self,
        mem: &mut Chunked<P>,
        folder: &mut F,
        input: &mut I,
        console: &mut C,
        place: u64,
    ) -> Result<Turned, MailFault>
        requires usable { P.usable mem.old }
        requires rests { self.old.acted ≡ false }
        requires few { array_vec_len self.old.waiting < MOST_WAITING }
        ensures usable { P.usable mem.new }
        ensures given { self.new.host.given ≡ self.old.host.given }
        ensures cause { IfErr result (HasCause F.Folder I.Source C.Sink
            (outside folder.old input.old console.old) (outside folder.new input.new console.new)) }
        ensures waiting { IfErr result (λ _. self.new.waiting.items ≡ self.old.waiting.items) }
        ensures played { Played (acts P.ChunkPort F.Folder I.Source C.Sink) (request_text self.old.host.given place)
            (at mem.old folder.old input.old console.old (kept_by self.old)) result
            (at mem.new folder.new input.new console.new (kept_by self.new)) }
    {
        let bytes = outside::read_request(mem, place)?;
        let answer = self
            .host
            .call(mem, folder, input, console, request_of(&bytes));
        self.acted = self.host.acted();
        match answer {
            Err(fault) => Err(MailFault::Call(fault)),
            Ok(CallAnswer::Exit(status)) => Ok(Turned::Exited(status)),
            Ok(CallAnswer::Result(value)) => self.finish(mem, place, value),
        }
    }

    // A byte of the input, which is answered; its end is not.
    fn take_byte<I: Source>(&mut self, input: &mut I) -> Result<Turned, MailFault>
        requires few { array_vec_len self.old.waiting < MOST_WAITING }
        ensures host { self.new.host ≡ self.old.host }
        ensures ok { IfOk result (λ turned. (bytes : List ℕ) × HasTaken I.Source input.old input.new 1 (Ok bytes)
            × (turned ≡ Turned.Served) × (kept_by self.new ≡ taken bytes (kept_by self.old))) }
        ensures err { IfErr result (λ fault. (why : Failure) × HasTaken I.Source input.old input.new 1 (Err why)
            × (fault ≡ MailFault.Call CallFault.InputFault) × (kept_by self.new ≡ kept_by self.old)) }
        ensures waiting { IfErr result (λ _. self.new.waiting.items ≡ self.old.waiting.items) }
    {
        let byte = outside::take(input).map_err(|_| MailFault::Call(CallFault::InputFault))?;
        self.acted = true;
        if let Some(byte) = byte {
            let answer = from_host(CONSOLE, TAKE_BYTE, BYTE_TAKEN + u64::from(byte));
            self.waiting.push(answer);
        }
        Ok(Turned::Served)
    }

    // A byte for the console, which is not answered.
    fn put_byte<C: Sink>(&mut self, console: &mut C, byte: u8) -> Result<Turned, MailFault>
        ensures host { self.new.host ≡ self.old.host }
        ensures waiting { self.new.waiting ≡ self.old.waiting }
        ensures ok { IfOk result (λ turned. HasPut C.Sink console.old console.new (byte ∷ []) (Ok tt)
            × (turned ≡ Turned.Served) × (kept_by self.new ≡ has_acted (kept_by self.old))) }
        ensures err { IfErr result (λ fault. (why : Failure)
            × HasPut C.Sink console.old console.new (byte ∷ []) (Err why)
            × (fault ≡ MailFault.Call CallFault.ConsoleFault) × (kept_by self.new ≡ kept_by self.old)) }
    {
        outside::put(console, byte).map_err(|_| MailFault::Call(CallFault::ConsoleFault))?;
        self.acted = true;
        Ok(Turned::Served)
    }

    // What a word asks for.
    fn carry_out<P: ChunkPort, F: Folder, I: Source, C: Sink>(
        &mut self,
        mem: &mut Chunked<P>,
        folder: &mut F,
        input: &mut I,
        console: &mut C,
        word: u64,
    ) -> Result<Turned, MailFault>
        requires usable { P.usable mem.old }
        requires rests { self.old.acted ≡ false }
        requires few { array_vec_len self.old.waiting < MOST_WAITING }
        ensures usable { P.usable mem.new }
        ensures given { self.new.host.given ≡ self.old.host.given }
        ensures cause { IfErr result (HasCause F.Folder I.Source C.Sink
            (outside folder.old input.old console.old) (outside folder.new input.new console.new)) }
        ensures waiting { IfErr result (λ _. self.new.waiting.items ≡ self.old.waiting.items) }
        ensures played { Played (acts P.ChunkPort F.Folder I.Source C.Sink)
            (command_text self.old.host.given word (command_in word))
            (at mem.old folder.old input.old console.old (kept_by self.old)) result
            (at mem.new folder.new input.new console.new (kept_by self.new)) }
    {
        match command_of(word) {
            Command::Exit(status) => {
                self.acted = true;
                Ok(Turned::Exited(status))
            }
            Command::Call(place) => self.call(mem, folder, input, console, place),
            Command::TakeByte => self.take_byte(input),
            Command::PutByte(byte) => self.put_byte(console, byte),
            Command::Unknown => Err(MailFault::BadCommand(word)),
        }
    }

    /// The part of a turn on tohost.
    pub fn serve<P: ChunkPort, F: Folder, I: Source, C: Sink>(
        &mut self,
        mem: &mut Chunked<P>,
        folder: &mut F,
        input: &mut I,
        console: &mut C,
        tohost: u64,
    ) -> Result<Turned, MailFault>
        requires usable { P.usable mem.old }
        ensures usable { P.usable mem.new }
        ensures given { self.new.host.given ≡ self.old.host.given }
        ensures cause { IfErr result (HasCause F.Folder I.Source C.Sink
            (outside folder.old input.old console.old) (outside folder.new input.new console.new)) }
        ensures waiting { IfErr result (λ _. self.new.waiting.items ≡ self.old.waiting.items) }
        ensures played { Played (acts P.ChunkPort F.Folder I.Source C.Sink) (serve_text self.old.host.given tohost)
            (at mem.old folder.old input.old console.old (kept_by self.old)) result
            (at mem.new folder.new input.new console.new (kept_by self.new)) }
    {
        self.acted = false;
        if self.waiting.is_full() {
            return Ok(Turned::Idle);
        }
        let word = outside::read_word(mem, tohost)?;
        if word == 0 {
            return Ok(Turned::Idle);
        }
        outside::write_word(mem, tohost, 0)?;
        self.carry_out(mem, folder, input, console, word)
    }

    /// The part of a turn on fromhost: whether an answer was given.
    pub fn give<P: ChunkPort>(
        &mut self,
        mem: &mut Chunked<P>,
        fromhost: u64,
    ) -> Result<bool, MemStop>
        requires usable { P.usable mem.old }
        ensures usable { P.usable mem.new }
        ensures host { self.new.host ≡ self.old.host }
        ensures acted { self.new.acted ≡ self.old.acted }
        ensures refused { IfErr result (λ _. kept_by self.new ≡ kept_by self.old) }
        ensures played { Played (memory_alone P.ChunkPort) (give_text fromhost)
            (at_memory mem.old (kept_by self.old)) result (at_memory mem.new (kept_by self.new)) }
    {
        let Some(answer) = self.waiting.first().copied() else {
            return Ok(false);
        };
        if outside::read_word(mem, fromhost)? != 0 {
            return Ok(false);
        }
        outside::write_word(mem, fromhost, answer)?;
        self.waiting.remove(0);
        Ok(true)
    }
}
