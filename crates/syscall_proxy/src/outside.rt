// The calls of the outside, with what each says as one act, and its refusal as the caller's fault.
ghost use Rattle.std.specs.Prelude.{◌≡◌, OnOk, Ok, Err, IfErr, IfOk};
ghost use Rattle.chunk_memory.specs.declared.stops.MemStop.{MemStop as Stop};
ghost use Rattle.fe_base.specs.declared.outside.Failed.{Failed as Failure};
ghost use Rattle.folder_tree.specs.declared.folder.FolderStop.{FolderStop as Refusal};
ghost use Rattle.host_text.specs.Outside.{HasCalled, HasPut, HasWritten};
ghost use Rattle.host_text.specs.Text.{Create, Kind, MakeDir, OpenFile, Release, Remove, RemoveDir, SetSize, Size};
ghost use Rattle.host_text.specs.Text.{WriteAt};
ghost use Rattle.syscall_proxy.specs.Rows.{folder_fault as fault_of};

use crate::CallFault;
use crate::buffer::Buffer;
use chunk_memory::{ChunkPort, Chunked};
use fe_base::Sink;
use folder_tree::{Folder, FolderStop, Path, PathKind};

/// What a folder's refusal is to the caller.
pub fn folder_fault(why: FolderStop) -> CallFault
    ensures { result ≡ fault_of why }
{
    match why {
        FolderStop::Failed => CallFault::FileFault,
        FolderStop::NoMemory => CallFault::OutOfMemory,
    }
}

/// Writes the buffer's bytes to a range of guest memory.
pub fn write<P: ChunkPort>(mem: &mut Chunked<P>, at: u64, bytes: &Buffer) -> Result<(), CallFault>
    requires { P.usable mem.old }
    ensures usable { P.usable mem.new }
    ensures ok { OnOk result (HasWritten P.ChunkPort mem.old mem.new at bytes.now (Ok tt)) }
    ensures err { IfErr result (λ fault. (why : Stop)
        × HasWritten P.ChunkPort mem.old mem.new at bytes.now (Err why)
        × (fault ≡ CallFault.Port why)) }
{
    write_range(mem, at, bytes.as_slice())
}

fn write_range<P: ChunkPort>(mem: &mut Chunked<P>, at: u64, bytes: &[u8]) -> Result<(), CallFault>
    requires { P.usable mem.old }
    ensures usable { P.usable mem.new }
    ensures ok { OnOk result (HasWritten P.ChunkPort mem.old mem.new at bytes.now (Ok tt)) }
    ensures err { IfErr result (λ fault. (why : Stop)
        × HasWritten P.ChunkPort mem.old mem.new at bytes.now (Err why)
        × (fault ≡ CallFault.Port why)) }
{
    match mem.write(at, bytes) {
        Ok(()) => Ok(()),
        Err(why) => Err(CallFault::Port(why)),
    }
}

/// Puts the buffer's bytes on the console.
pub fn put<C: Sink>(console: &mut C, bytes: &Buffer) -> Result<(), CallFault>
    ensures ok { OnOk result (HasPut C.Sink console.old console.new bytes.now (Ok tt)) }
    ensures err { IfErr result (λ fault. (why : Failure)
        × HasPut C.Sink console.old console.new bytes.now (Err why)
        × (fault ≡ CallFault.ConsoleFault)) }
{
    match console.put(bytes.as_slice()) {
        Ok(()) => Ok(()),
        Err(_) => Err(CallFault::ConsoleFault),
    }
}

/// The size of an open file.
pub fn size<F: Folder>(folder: &mut F, number: u64) -> Result<u64, CallFault>
    ensures ok { IfOk result (λ reply. HasCalled F.Folder folder.old folder.new (Size number) (Ok reply)) }
    ensures err { IfErr result (λ fault. (why : Refusal)
        × HasCalled F.Folder folder.old folder.new (Size number) (Err why)
        × (fault ≡ fault_of why)) }
{
    match folder.size(number) {
        Ok(reply) => Ok(reply),
        Err(why) => Err(folder_fault(why)),
    }
}

/// Closes an open file once.
pub fn release<F: Folder>(folder: &mut F, number: u64) -> Result<(), CallFault>
    ensures ok { OnOk result (HasCalled F.Folder folder.old folder.new (Release number) (Ok tt)) }
    ensures err { IfErr result (λ fault. (why : Refusal)
        × HasCalled F.Folder folder.old folder.new (Release number) (Err why)
        × (fault ≡ fault_of why)) }
{
    match folder.release(number) {
        Ok(()) => Ok(()),
        Err(why) => Err(folder_fault(why)),
    }
}

/// Writes the buffer's bytes to an open file, from a place on.
pub fn write_at<F: Folder>(
    folder: &mut F,
    number: u64,
    place: u64,
    bytes: &Buffer,
) -> Result<(), CallFault>
    ensures ok { OnOk result (HasCalled F.Folder folder.old folder.new (WriteAt number place bytes.now) (Ok tt)) }
    ensures err { IfErr result (λ fault. (why : Refusal)
        × HasCalled F.Folder folder.old folder.new (WriteAt number place bytes.now) (Err why)
        × (fault ≡ fault_of why)) }
{
    write_bytes(folder, number, place, bytes.as_slice())
}

fn write_bytes<F: Folder>(
    folder: &mut F,
    number: u64,
    place: u64,
    bytes: &[u8],
) -> Result<(), CallFault>
    ensures ok { OnOk result (HasCalled F.Folder folder.old folder.new (WriteAt number place bytes.now) (Ok tt)) }
    ensures err { IfErr result (λ fault. (why : Refusal)
        × HasCalled F.Folder folder.old folder.new (WriteAt number place bytes.now) (Err why)
        × (fault ≡ fault_of why)) }
{
    match folder.write_at(number, place, bytes) {
        Ok(()) => Ok(()),
        Err(why) => Err(folder_fault(why)),
    }
}

/// Cuts an open file, or fills it with zeros.
pub fn set_size<F: Folder>(folder: &mut F, number: u64, size: u64) -> Result<(), CallFault>
    ensures ok { OnOk result (HasCalled F.Folder folder.old folder.new (SetSize number size) (Ok tt)) }
    ensures err { IfErr result (λ fault. (why : Refusal)
        × HasCalled F.Folder folder.old folder.new (SetSize number size) (Err why)
        × (fault ≡ fault_of why)) }
{
    match folder.set_size(number, size) {
        Ok(()) => Ok(()),
        Err(why) => Err(folder_fault(why)),
    }
}

/// The kind of a path.
pub fn kind<F: Folder>(folder: &mut F, path: &Path) -> Result<PathKind, CallFault>
    ensures ok { IfOk result (λ reply. HasCalled F.Folder folder.old folder.new (Kind path.now) (Ok reply)) }
    ensures err { IfErr result (λ fault. (why : Refusal)
        × HasCalled F.Folder folder.old folder.new (Kind path.now) (Err why)
        × (fault ≡ fault_of why)) }
{
    match folder.kind(path) {
        Ok(reply) => Ok(reply),
        Err(why) => Err(folder_fault(why)),
    }
}

/// Opens the file at a path, and answers its number.
pub fn open_file<F: Folder>(folder: &mut F, path: &Path) -> Result<u64, CallFault>
    ensures ok { IfOk result (λ reply. HasCalled F.Folder folder.old folder.new (OpenFile path.now) (Ok reply)) }
    ensures err { IfErr result (λ fault. (why : Refusal)
        × HasCalled F.Folder folder.old folder.new (OpenFile path.now) (Err why)
        × (fault ≡ fault_of why)) }
{
    match folder.open_file(path) {
        Ok(reply) => Ok(reply),
        Err(why) => Err(folder_fault(why)),
    }
}

/// Makes an empty file at a path, opens it, and answers its number.
pub fn create<F: Folder>(folder: &mut F, path: &Path) -> Result<u64, CallFault>
    ensures ok { IfOk result (λ reply. HasCalled F.Folder folder.old folder.new (Create path.now) (Ok reply)) }
    ensures err { IfErr result (λ fault. (why : Refusal)
        × HasCalled F.Folder folder.old folder.new (Create path.now) (Err why)
        × (fault ≡ fault_of why)) }
{
    match folder.create(path) {
        Ok(reply) => Ok(reply),
        Err(why) => Err(folder_fault(why)),
    }
}

/// Removes the name of a file.
pub fn remove<F: Folder>(folder: &mut F, path: &Path) -> Result<(), CallFault>
    ensures ok { OnOk result (HasCalled F.Folder folder.old folder.new (Remove path.now) (Ok tt)) }
    ensures err { IfErr result (λ fault. (why : Refusal)
        × HasCalled F.Folder folder.old folder.new (Remove path.now) (Err why)
        × (fault ≡ fault_of why)) }
{
    match folder.remove(path) {
        Ok(()) => Ok(()),
        Err(why) => Err(folder_fault(why)),
    }
}

/// Makes a directory.
pub fn make_dir<F: Folder>(folder: &mut F, path: &Path) -> Result<(), CallFault>
    ensures ok { OnOk result (HasCalled F.Folder folder.old folder.new (MakeDir path.now) (Ok tt)) }
    ensures err { IfErr result (λ fault. (why : Refusal)
        × HasCalled F.Folder folder.old folder.new (MakeDir path.now) (Err why)
        × (fault ≡ fault_of why)) }
{
    match folder.make_dir(path) {
        Ok(()) => Ok(()),
        Err(why) => Err(folder_fault(why)),
    }
}

/// Removes a directory; false where something stands in it.
pub fn remove_dir<F: Folder>(folder: &mut F, path: &Path) -> Result<bool, CallFault>
    ensures ok { IfOk result (λ reply. HasCalled F.Folder folder.old folder.new (RemoveDir path.now) (Ok reply)) }
    ensures err { IfErr result (λ fault. (why : Refusal)
        × HasCalled F.Folder folder.old folder.new (RemoveDir path.now) (Err why)
        × (fault ≡ fault_of why)) }
{
    match folder.remove_dir(path) {
        Ok(reply) => Ok(reply),
        Err(why) => Err(folder_fault(why)),
    }
}
