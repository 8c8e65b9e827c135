// Bytes on their way between the guest and the outside.
ghost use Rattle.std.specs.Prelude.{◌≡◌, ◌≤◌, ◌+◌, ◌++◌, [], OnOk, Ok, Err, IfErr, IfOk, length, take};
ghost use Rattle.chunk_memory.specs.declared.stops.MemStop.{MemStop as Stop};
ghost use Rattle.fe_base.specs.declared.outside.Failed.{Failed as Failure};
ghost use Rattle.folder_tree.specs.declared.folder.FolderStop.{FolderStop as Refusal};
ghost use Rattle.host_text.specs.Outside.{HasCalled, HasRead, HasTaken};
ghost use Rattle.host_text.specs.Text.{ReadAt};
ghost use Rattle.syscall_proxy.specs.Rows.{folder_fault as fault_of};

use crate::CallFault;
use crate::outside::folder_fault;
use chunk_memory::{ChunkPort, Chunked, MemStop};
use fe_base::limits::TRANSFER_LIMIT;
use fe_base::{Failed, Source};
use folder_tree::{Folder, FolderStop};
use std::alloc::{AllocError, Global};
use std::marker::Model;

/// Room for the most bytes that one call moves, seen as those that were put in last.
#[derive(Drop)]
pub struct Buffer {
    bytes: Vec<u8>,
    len: usize,
}

impl Model for Buffer {
    ghost use Rattle.std.specs.Prelude.{◌≡◌, ◌≤◌, List, ℕ, take, vec_len};

    ghost Value = { List ℕ };

    ghost view = { λ b. take b.len b.bytes.items };

    ghost invariant = { λ b. (b.len ≤ 1048576) × (vec_len b.bytes ≡ 1048576) };
}

// So many bytes.
fn zeroed(alloc: Global, count: usize) -> Result<Vec<u8>, AllocError>
    ensures { IfOk result (λ bytes. length bytes.items ≡ count) }
{
    vec![in alloc; 0; count]
}

impl Buffer {
    /// No bytes, with room for those of a call, for which it takes memory.
    pub fn new(alloc: Global) -> Result<Buffer, AllocError>
        ensures { IfOk result (λ buffer. buffer ≡ []) }
    {
        let bytes = zeroed(alloc, TRANSFER_LIMIT as usize)?;
        Ok(Buffer { bytes, len: 0 })
    }

    /// How many bytes were put in last.
    pub fn len(&self) -> u64
        ensures { result ≡ length self.now }
    {
        self.as_slice().len() as u64
    }

    /// These bytes.
    pub fn as_slice(&self) -> &[u8]
        ensures { result.now ≡ self.now }
    {
        &self.bytes[..self.len]
    }

    /// Puts in these bytes.
    pub fn hold(&mut self, bytes: &[u8])
        requires { length bytes.now ≤ 1048576 }
        ensures { self.new ≡ bytes.now }
    {
        put_at(&mut self.bytes, 0, bytes);
        self.len = bytes.len();
    }

    /// Puts in these bytes behind those that are there.
    pub fn add(&mut self, bytes: &[u8])
        requires { length self.old + length bytes.now ≤ 1048576 }
        ensures { self.new ≡ self.old ++ bytes.now }
    {
        put_at(&mut self.bytes, self.len, bytes);
        self.len += bytes.len();
    }

    /// Reads a range of guest memory.
    pub fn read<P: ChunkPort>(
        &mut self,
        mem: &mut Chunked<P>,
        at: u64,
        count: usize,
    ) -> Result<(), CallFault>
        requires usable { P.usable mem.old }
        requires count { count ≤ 1048576 }
        ensures usable { P.usable mem.new }
        ensures ok { OnOk result (HasRead P.ChunkPort mem.old mem.new at count (Ok self.new)) }
        ensures err { IfErr result (λ fault. (why : Stop) × HasRead P.ChunkPort mem.old mem.new at count (Err why)
            × (fault ≡ CallFault.Port why)) }
    {
        self.len = count;
        match read_front(mem, at, count, &mut self.bytes) {
            Ok(()) => Ok(()),
            Err(why) => Err(CallFault::Port(why)),
        }
    }

    /// Takes bytes of the input, at most so many.
    pub fn take<I: Source>(&mut self, input: &mut I, count: usize) -> Result<(), CallFault>
        requires { count ≤ 1048576 }
        ensures ok { OnOk result (HasTaken I.Source input.old input.new count (Ok self.new)) }
        ensures err { IfErr result (λ fault. (why : Failure) × HasTaken I.Source input.old input.new count (Err why)
            × (fault ≡ CallFault.InputFault)) }
    {
        match take_front(input, count, &mut self.bytes) {
            Ok(taken) => {
                self.len = taken;
                Ok(())
            }
            Err(_) => Err(CallFault::InputFault),
        }
    }

    /// Reads an open file from a place on, at most so many bytes.
    pub fn read_at<F: Folder>(
        &mut self,
        folder: &mut F,
        number: u64,
        place: u64,
        count: usize,
    ) -> Result<(), CallFault>
        requires { count ≤ 1048576 }
        ensures ok { OnOk result (HasCalled F.Folder folder.old folder.new (ReadAt number place count) (Ok self.new)) }
        ensures err { IfErr result (λ fault. (why : Refusal)
            × HasCalled F.Folder folder.old folder.new (ReadAt number place count) (Err why)
            × (fault ≡ fault_of why)) }
    {
        match read_file_front(folder, number, place, count, &mut self.bytes) {
            Ok(moved) => {
                self.len = moved;
                Ok(())
            }
            Err(why) => Err(folder_fault(why)),
        }
    }
}

// Bytes from a place on.
fn put_at(room: &mut [u8], place: usize, bytes: &[u8])
    requires { place + length bytes.now ≤ length room.old }
    ensures same { length room.new ≡ length room.old }
    ensures front { take (place + length bytes.now) room.new ≡ take place room.old ++ bytes.now }
{
    room[place..place + bytes.len()].copy_from_slice(bytes);
}

// A range of guest memory, in the front of some bytes.
fn read_front<P: ChunkPort>(
    mem: &mut Chunked<P>,
    at: u64,
    count: usize,
    bytes: &mut [u8],
) -> Result<(), MemStop>
    requires usable { P.usable mem.old }
    requires room { count ≤ length bytes.old }
    ensures usable { P.usable mem.new }
    ensures ok { OnOk result (HasRead P.ChunkPort mem.old mem.new at count (Ok (take count bytes.new))) }
    ensures err { IfErr result (λ why. HasRead P.ChunkPort mem.old mem.new at count (Err why)) }
{
    match mem.read(at, &mut bytes[..count]) {
        Ok(()) => Ok(()),
        Err(why) => Err(why),
    }
}

// What the input gives, in the front of some bytes.
fn take_front<I: Source>(input: &mut I, count: usize, bytes: &mut [u8]) -> Result<usize, Failed>
    requires { count ≤ length bytes.old }
    ensures bound { IfOk result (λ n. n ≤ count) }
    ensures ok { IfOk result (λ n. HasTaken I.Source input.old input.new count (Ok (take n bytes.new))) }
    ensures err { IfErr result (λ why. HasTaken I.Source input.old input.new count (Err why)) }
{
    match input.take(&mut bytes[..count]) {
        Ok(taken) => Ok(taken),
        Err(why) => Err(why),
    }
}

// A part of an open file, in the front of some bytes.
fn read_file_front<F: Folder>(
    folder: &mut F,
    number: u64,
    place: u64,
    count: usize,
    bytes: &mut [u8],
) -> Result<usize, FolderStop>
    requires { count ≤ length bytes.old }
    ensures bound { IfOk result (λ n. n ≤ count) }
    ensures ok { IfOk result (λ n.
        HasCalled F.Folder folder.old folder.new (ReadAt number place count) (Ok (take n bytes.new))) }
    ensures err { IfErr result (λ why. HasCalled F.Folder folder.old folder.new (ReadAt number place count) (Err why)) }
{
    match folder.read_at(number, place, &mut bytes[..count]) {
        Ok(moved) => Ok(moved),
        Err(why) => Err(why),
    }
}
