// The file that a word names: found and read, unless it is too large.
ghost use Rattle.std.specs.Prelude.{◌≡◌, ◌≤◌, ◌<◌, IfOk, IsErrOf, Some, length, take, nat_lt, true};
ghost use Rattle.folder_tree.specs.Tree.{Tree, IsWellFormed, bytes_of, file_of, opens_of};
ghost use Rattle.plain_machine.specs.Stands.{HasFiles};
ghost use Rattle.spike_front.specs.Causes.{RoseFor};
ghost use Rattle.spike_front.specs.FoundFiles.{IsBounded, IsFound, IsReadOf, file_named, StaysOrOpens};

use fe_base::limits::TRANSFER_LIMIT;
use folder_tree::{Folder, FolderStop, Path, PathKind, read_path};
use std::alloc::{AllocError, Global};

/// What stands at a path.
#[derive(Drop)]
pub enum FoundFile {
    /// No file.
    Missing,
    /// A file of more bytes than the limit.
    TooLarge,
    /// A file with these bytes.
    Bytes(Vec<u8>),
}

/// Why nothing could be learned of a file.
#[derive(Clone, Copy, Debug, PartialEq, Eq)]
pub enum Stop {
    FileFault,
    OutOfMemory,
}

impl From<FolderStop> for Stop {
    ghost use Rattle.spike_front.specs.FoundFiles.{stop_of};

    ghost from_gives = { λ stop e. e ≡ stop_of stop };

    fn from(stop: FolderStop) -> Self {
        match stop {
            FolderStop::Failed => Stop::FileFault,
            FolderStop::NoMemory => Stop::OutOfMemory,
        }
    }
}

impl From<AllocError> for Stop {
    ghost use Rattle.spike_front.specs.declared.file.Stop.TheVariants.{OutOfMemory};

    ghost from_gives = { λ _ e. e ≡ OutOfMemory };

    fn from(_: AllocError) -> Self {
        Stop::OutOfMemory
    }
}

fn zeroed(alloc: Global, count: usize) -> Result<Vec<u8>, AllocError>
    ensures { IfOk result (λ bytes. length bytes.items ≡ count) }
{
    vec![in alloc; 0; count]
}

// Reads on, behind the bytes that have come. The answer is how many there are then.
fn read_more<F: Folder>(
    folder: &mut F,
    number: u64,
    count: usize,
    bytes: &mut [u8],
) -> Result<usize, Stop>
    requires { count < length bytes.old }
    ensures later { IfOk result (λ now. (count ≤ now) × (now ≤ length bytes.old)) }
    ensures told { IfOk result (λ now. (t : Tree) → F.tree folder.old ≡ Some t
        → length bytes.old ≡ length (bytes_of t number)
        → take count bytes.old ≡ take count (bytes_of t number) → (count < now)
        × (take now bytes.new ≡ take now (bytes_of t number))) }
    ensures tree { (t : Tree) → F.tree folder.old ≡ Some t → F.tree folder.new ≡ Some t }
    ensures cause { RoseFor (IsErrOf result Stop.FileFault) (F.faults folder.old) (F.faults folder.new) }
    ensures short { F.short folder.old ≤ F.short folder.new }
    ensures steady { (t : Tree) → F.tree folder.old ≡ Some t → F.steady folder.old → nat_lt 0 (opens_of t number) ≡ true
        → (IsErrOf result Stop.FileFault → ⊥) × F.steady folder.new }
{
    let end = bytes.len().min(count + TRANSFER_LIMIT as usize);
    let read = folder.read_at(number, count as u64, &mut bytes[count..end])?;
    Ok(count + read)
}

// All the bytes of an open file of this size. A folder that tells nothing may give fewer.
fn read_open<F: Folder>(
    alloc: Global,
    folder: &mut F,
    number: u64,
    size: usize,
) -> Result<Vec<u8>, Stop>
    ensures bound { IfOk result (λ bytes. length bytes.items ≤ size) }
    ensures told { IfOk result (λ bytes. (t : Tree) → F.tree folder.old ≡ Some t → size ≡ length (bytes_of t number)
        → bytes.items ≡ bytes_of t number) }
    ensures tree { (t : Tree) → F.tree folder.old ≡ Some t → F.tree folder.new ≡ Some t }
    ensures cause { RoseFor (IsErrOf result Stop.FileFault) (F.faults folder.old) (F.faults folder.new) }
    ensures short { F.short folder.old ≤ F.short folder.new }
    ensures steady { (t : Tree) → F.tree folder.old ≡ Some t → F.steady folder.old → nat_lt 0 (opens_of t number) ≡ true
        → (IsErrOf result Stop.FileFault → ⊥) × F.steady folder.new }
{
    let mut bytes = zeroed(alloc, size)?;
    let mut count = 0;
    'reads: while count < size {
        let now = read_more(folder, number, count, &mut bytes)?;
        if now == count {
            break;
        }
        count = now;
    }
    bytes.truncate(count);
    Ok(bytes)
}

// What an open file holds, where that is at most so many bytes.
fn read_file<F: Folder>(
    alloc: Global,
    folder: &mut F,
    number: u64,
    limit: u64,
) -> Result<FoundFile, Stop>
    ensures bound { IfOk result (IsBounded limit) }
    ensures told { IfOk result (λ found. (t : Tree) → F.tree folder.old ≡ Some t
        → IsReadOf limit (bytes_of t number) found) }
    ensures tree { (t : Tree) → F.tree folder.old ≡ Some t → F.tree folder.new ≡ Some t }
    ensures cause { RoseFor (IsErrOf result Stop.FileFault) (F.faults folder.old) (F.faults folder.new) }
    ensures short { F.short folder.old ≤ F.short folder.new }
    ensures steady { (t : Tree) → F.tree folder.old ≡ Some t → F.steady folder.old → nat_lt 0 (opens_of t number) ≡ true
        → (IsErrOf result Stop.FileFault → ⊥) × F.steady folder.new }
{
    let size = folder.size(number)?;
    if size > limit {
        return Ok(FoundFile::TooLarge);
    }
    let bytes = read_open(alloc, folder, number, size as usize)?;
    Ok(FoundFile::Bytes(bytes))
}

/// The file that a word names, with its bytes where these are at most so many. It is opened, read and released again.
pub fn find_named<F: Folder>(
    alloc: Global,
    folder: &mut F,
    word: &str,
    limit: u64,
) -> Result<FoundFile, Stop>
    ensures bound { IfOk result (IsBounded limit) }
    ensures told { IfOk result (λ found. (t : Tree) → IsWellFormed t → F.tree folder.old ≡ Some t
        → IsFound limit (file_named word.now t) found × (F.tree folder.new ≡ Some t)) }
    ensures files { (t : Tree) → F.tree folder.old ≡ Some t → HasFiles t (F.tree folder.new) }
    ensures opens { (t : Tree) → IsWellFormed t → F.tree folder.old ≡ Some t → StaysOrOpens t (F.tree folder.new) }
    ensures cause { RoseFor (IsErrOf result Stop.FileFault) (F.faults folder.old) (F.faults folder.new) }
    ensures short { F.short folder.old ≤ F.short folder.new }
    ensures steady { (t : Tree) → F.tree folder.old ≡ Some t → F.steady folder.old
        → (IsErrOf result Stop.FileFault → ⊥) × F.steady folder.new }
{
    let Ok(path) = read_path(word.as_bytes()) else {
        return Ok(FoundFile::Missing);
    };
    find_file(alloc, folder, &path, limit)
}

// What stands at a path.
fn find_file<F: Folder>(
    alloc: Global,
    folder: &mut F,
    path: &Path,
    limit: u64,
) -> Result<FoundFile, Stop>
    ensures bound { IfOk result (IsBounded limit) }
    ensures told { IfOk result (λ found. (t : Tree) → IsWellFormed t → F.tree folder.old ≡ Some t
        → IsFound limit (file_of t path.now) found × (F.tree folder.new ≡ Some t)) }
    ensures files { (t : Tree) → F.tree folder.old ≡ Some t → HasFiles t (F.tree folder.new) }
    ensures opens { (t : Tree) → IsWellFormed t → F.tree folder.old ≡ Some t → StaysOrOpens t (F.tree folder.new) }
    ensures cause { RoseFor (IsErrOf result Stop.FileFault) (F.faults folder.old) (F.faults folder.new) }
    ensures short { F.short folder.old ≤ F.short folder.new }
    ensures steady { (t : Tree) → F.tree folder.old ≡ Some t → F.steady folder.old
        → (IsErrOf result Stop.FileFault → ⊥) × F.steady folder.new }
{
    if folder.kind(path)? != PathKind::File {
        return Ok(FoundFile::Missing);
    }
    let number = folder.open_file(path)?;
    let found = read_file(alloc, folder, number, limit)?;
    folder.release(number)?;
    Ok(found)
}
