// A folder that tells nothing: one file, of which it may give less than its size, and the number of calls of each kind.
ghost use Rattle.std.specs.Prelude.{None};

use folder_tree::{Folder, FolderStop, Path, PathKind};

/// How often each call was made.
#[derive(Clone, Copy, Debug, PartialEq, Eq)]
pub struct Calls {
    pub kind: u64,
    pub open_file: u64,
    pub size: u64,
    pub read_at: u64,
    pub release: u64,
}

/// A folder that has a file at every path but its root. Reads give its bytes to their end, wherever its size says that
/// it ends.
#[derive(Drop)]
pub struct QuietFolder<'a> {
    bytes: &'a [u8],
    size: u64,
    calls: Calls,
}

impl<'a> QuietFolder<'a> {
    pub fn new(bytes: &'a [u8], size: u64) -> Self {
        let calls = Calls {
            kind: 0,
            open_file: 0,
            size: 0,
            read_at: 0,
            release: 0,
        };
        QuietFolder { bytes, size, calls }
    }

    pub fn calls(&self) -> Calls {
        self.calls
    }
}

impl Folder for QuietFolder<'_> {
    ghost tree = { λ _. None };

    ghost faults = { λ _. 0 };

    ghost short = { λ _. 0 };

    ghost steady = { λ _. ⊥ };

    fn kind(&mut self, path: &Path) -> Result<PathKind, FolderStop> {
        self.calls.kind = self.calls.kind.saturating_add(1);
        if path.text().is_empty() {
            return Ok(PathKind::Directory);
        }
        Ok(PathKind::File)
    }

    fn open_file(&mut self, _path: &Path) -> Result<u64, FolderStop> {
        self.calls.open_file = self.calls.open_file.saturating_add(1);
        Ok(7)
    }

    fn size(&mut self, _number: u64) -> Result<u64, FolderStop> {
        self.calls.size = self.calls.size.saturating_add(1);
        Ok(self.size)
    }

    fn read_at(&mut self, _number: u64, at: u64, into: &mut [u8]) -> Result<usize, FolderStop> {
        self.calls.read_at = self.calls.read_at.saturating_add(1);
        let from = self.bytes.len().min(at as usize);
        let count = into.len().min(self.bytes.len() - from);
        into[..count].copy_from_slice(&self.bytes[from..from + count]);
        Ok(count)
    }

    fn release(&mut self, _number: u64) -> Result<(), FolderStop> {
        self.calls.release = self.calls.release.saturating_add(1);
        Ok(())
    }

    fn create(&mut self, _path: &Path) -> Result<u64, FolderStop> {
        Ok(7)
    }

    fn write_at(&mut self, _number: u64, _at: u64, _bytes: &[u8]) -> Result<(), FolderStop> {
        Ok(())
    }

    fn set_size(&mut self, _number: u64, _size: u64) -> Result<(), FolderStop> {
        Ok(())
    }

    fn remove(&mut self, _path: &Path) -> Result<(), FolderStop> {
        Ok(())
    }

    fn make_dir(&mut self, _path: &Path) -> Result<(), FolderStop> {
        Ok(())
    }

    fn remove_dir(&mut self, _path: &Path) -> Result<bool, FolderStop> {
        Ok(true)
    }
}
