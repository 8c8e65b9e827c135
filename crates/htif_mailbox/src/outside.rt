// The calls of memory, input and console, with what each says as one act of a text.
ghost use Rattle.std.specs.Prelude.{◌≡◌, [], ◌∷◌, OnOk, IfErr, IfOk, Ok, Err};
ghost use Rattle.std.specs.Int.{to_le_bytes, w64};
ghost use Rattle.fe_base.specs.declared.outside.Failed.{Failed as Failure};
ghost use Rattle.host_text.specs.Outside.{HasPut, HasRead, HasTaken, HasWritten};
ghost use Rattle.htif_mailbox.specs.Bytes.{bytes_of};

use chunk_memory::{ChunkPort, Chunked, MemStop};
use console_device::{read_byte, write_byte};
use fe_base::{Failed, Sink, Source};
use syscall_proxy::REQUEST_SIZE;

/// Reads a doubleword of the guest.
pub(crate) fn read_word<P: ChunkPort>(mem: &mut Chunked<P>, at: u64) -> Result<u64, MemStop>
    requires { P.usable mem.old }
    ensures usable { P.usable mem.new }
    ensures ok { IfOk result (λ word. HasRead P.ChunkPort mem.old mem.new at 8 (Ok (to_le_bytes w64 word))) }
    ensures err { IfErr result (λ why. HasRead P.ChunkPort mem.old mem.new at 8 (Err why)) }
{
    match mem.read_u64(at) {
        Ok(word) => Ok(word),
        Err(why) => Err(why),
    }
}

/// Writes a doubleword of the guest.
#[tactic(auto, using(crate::proofs::Leaves::word_are_bytes))]
pub(crate) fn write_word<P: ChunkPort>(
    mem: &mut Chunked<P>,
    at: u64,
    word: u64,
) -> Result<(), MemStop>
    requires { P.usable mem.old }
    ensures usable { P.usable mem.new }
    ensures ok { OnOk result (HasWritten P.ChunkPort mem.old mem.new at (to_le_bytes w64 word) (Ok tt)) }
    ensures err { IfErr result (λ why. HasWritten P.ChunkPort mem.old mem.new at (to_le_bytes w64 word) (Err why)) }
{
    match mem.write_u64(at, word) {
        Ok(()) => Ok(()),
        Err(why) => Err(why),
    }
}

/// Reads the bytes of a request.
pub(crate) fn read_request<P: ChunkPort>(
    mem: &mut Chunked<P>,
    at: u64,
) -> Result<[u8; REQUEST_SIZE], MemStop>
    requires { P.usable mem.old }
    ensures usable { P.usable mem.new }
    ensures ok { IfOk result (λ bytes. HasRead P.ChunkPort mem.old mem.new at REQUEST_SIZE (Ok bytes)) }
    ensures err { IfErr result (λ why. HasRead P.ChunkPort mem.old mem.new at REQUEST_SIZE (Err why)) }
{
    let mut bytes = [0; REQUEST_SIZE];
    match mem.read(at, &mut bytes) {
        Ok(()) => Ok(bytes),
        Err(why) => Err(why),
    }
}

/// Takes a byte of the input.
pub(crate) fn take<I: Source>(input: &mut I) -> Result<Option<u8>, Failed>
    ensures ok { IfOk result (λ byte. HasTaken I.Source input.old input.new 1 (Ok (bytes_of byte))) }
    ensures err { IfErr result (λ why. HasTaken I.Source input.old input.new 1 (Err why)) }
{
    match read_byte(input) {
        Ok(byte) => Ok(byte),
        Err(why) => Err(why),
    }
}

/// Puts a byte on the console.
pub(crate) fn put<C: Sink>(console: &mut C, byte: u8) -> Result<(), Failed>
    ensures ok { OnOk result (HasPut C.Sink console.old console.new (byte ∷ []) (Ok tt)) }
    ensures err { IfErr result (λ why. HasPut C.Sink console.old console.new (byte ∷ []) (Err why)) }
{
    match write_byte(byte, console) {
        Ok(()) => Ok(()),
        Err(why) => Err(why),
    }
}
