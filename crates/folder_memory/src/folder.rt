// A folder in memory, which tells its tree, and whose listed calls fail.
ghost use Rattle.std.specs.Prelude.{◌≡◌, ◌≤◌, IfOk, IsTrue, None, OnErr, OnOk, Some, drop, length, take};
ghost use Rattle.std.specs.Option.{option_copied};
ghost use Rattle.fe_base.specs.Memory.{NoneFrom, counted, is_listed};
ghost use Rattle.folder_tree.specs.Tree.{IsWellFormed, Tree, directory, empty_tree, file_of, kind_of};
ghost use Rattle.folder_tree.specs.TreeOps.{create_row, is_free, kind_row, least_free, make_dir_row, named, open_row};
ghost use Rattle.folder_tree.specs.TreeOps.{read_row, release_row, remove_dir_row, remove_row, set_size_row, size_row};
ghost use Rattle.folder_tree.specs.TreeOps.{with_file, write_row};
ghost use Rattle.folder_tree.specs.Answers.{Answers, HasCauses, StaysSteady, Suits, bytes_read};
ghost use Rattle.folder_memory.specs.Folder.{Called, HasCounts, refused};

use crate::tree::MemoryTree;
use folder_tree::{Folder, FolderStop, Path, PathKind, is_writable};
use std::alloc::{AllocError, Global};
use std::marker::Model;

/// A folder in memory. Each call of a listed number fails; calls are counted from 0. Only `open_file`, `create`,
/// `write_at`, `set_size` and `make_dir` may want memory.
#[derive(Drop)]
pub struct MemoryFolder {
    tree: MemoryTree,
    calls: u64,
    failing: Vec<u64>,
    faults: u64,
    short: u64,
}

impl Model for MemoryFolder {
    ghost use Rattle.folder_memory.specs.Folder.{FolderState, state_code};

    ghost Value = { FolderState };

    ghost coded = { state_code };

    ghost use Rattle.std.specs.Prelude.{◌<◌, ◌^◌};

    ghost view = { λ f. record {
      tree = f.tree;
      calls = f.calls;
      failing = f.failing.items;
      faults = f.faults;
      short = f.short;
    } };

    ghost invariant = { λ f. (f.calls < 2 ^ 64) × (f.faults < 2 ^ 64) × (f.short < 2 ^ 64) };
}

impl MemoryFolder {
    /// A folder with nothing in its root, on which no call was made.
    pub fn new(alloc: Global, failing: &[u64]) -> Result<MemoryFolder, AllocError>
        ensures empty { IfOk result (λ f. f ≡ record {
          tree = empty_tree;
          calls = 0;
          failing = failing.now;
          faults = 0;
          short = 0;
        }) }
        ensures well_formed { IfOk result (λ f. IsWellFormed f.tree) }
    {
        Ok(MemoryFolder {
            tree: MemoryTree::new(alloc),
            calls: 0,
            failing: failing.to_vec(alloc)?,
            faults: 0,
            short: 0,
        })
    }

    /// Whether nothing stands at a path, in a directory that does, so that something can be put there.
    pub fn can_put(&self, path: &Path) -> bool
        ensures { result ≡ is_free (kind_of self.now.tree path.now) }
    {
        self.tree.is_free(path)
    }

    /// Adds a file that isn't open. This is none of the counted calls.
    pub fn put_file(&mut self, path: &Path, bytes: &[u8]) -> Result<(), AllocError>
        requires { IsTrue (is_free (kind_of self.old.tree path.now)) }
        ensures ok { OnOk result (self.new ≡ record self.old {
          tree = with_file self.old.tree path.now (least_free self.old.tree.bytes) bytes.now;
        }) }
        ensures err { OnErr result (self.new ≡ self.old) }
        ensures well_formed { IsWellFormed self.new.tree }
    {
        self.tree.put_copy(path, bytes)
    }

    /// Makes a directory. This is none of the counted calls.
    pub fn put_dir(&mut self, path: &Path) -> Result<(), AllocError>
        requires { IsTrue (is_free (kind_of self.old.tree path.now)) }
        ensures ok { OnOk result (self.new ≡ record self.old { tree = named self.old.tree path.now directory }) }
        ensures err { OnErr result (self.new ≡ self.old) }
        ensures well_formed { IsWellFormed self.new.tree }
    {
        self.tree.make_dir(path)
    }

    /// What the file at a path holds; none exactly where the path is no file.
    pub fn file(&self, path: &Path) -> Option<&[u8]>
        ensures { option_copied result ≡ file_of self.now.tree path.now }
    {
        self.tree.file(path)
    }

    fn is_listed(&self) -> bool
        ensures listed { result ≡ is_listed self.now.calls self.now.failing }
        ensures counts { HasCounts self.now }
    {
        self.failing.contains(&self.calls)
    }

    fn refuse(&mut self) -> FolderStop
        ensures stop { result ≡ FolderStop.Failed }
        ensures state { self.new ≡ refused self.old }
    {
        self.calls = self.calls.saturating_add(1);
        self.faults = self.faults.saturating_add(1);
        FolderStop::Failed
    }

    fn want(&mut self) -> FolderStop
        ensures stop { result ≡ FolderStop.NoMemory }
        ensures state { self.new ≡ record self.old { calls = counted self.old.calls; short = counted self.old.short } }
    {
        self.calls = self.calls.saturating_add(1);
        self.short = self.short.saturating_add(1);
        FolderStop::NoMemory
    }

    fn pass(&mut self)
        ensures { self.new ≡ record self.old { calls = counted self.old.calls } }
    {
        self.calls = self.calls.saturating_add(1);
    }
}

// Moves bytes from a place on into the front of a buffer, and answers how many.
fn move_bytes(bytes: &[u8], at: u64, into: &mut [u8]) -> usize
    ensures bound { result ≤ length into.new }
    ensures moved { take result into.new ≡ take (length into.old) (drop at bytes.now) }
    ensures behind { drop result into.new ≡ drop result into.old }
{
    let rest = &bytes[bytes.len().min(at as usize)..];
    let count = into.len().min(rest.len());
    into[..count].copy_from_slice(&rest[..count]);
    count
}

// Each call, by its row.
impl MemoryFolder {
    fn try_kind(&mut self, path: &Path) -> Result<PathKind, FolderStop>
        ensures called { Called self.old self.new (kind_row path.now self.old.tree) result }
        ensures counts { HasCounts self.old }
        ensures no_want { self.new.short ≡ self.old.short }
    {
        if self.is_listed() {
            return Err(self.refuse());
        }
        let kind = self.tree.kind(path);
        self.pass();
        Ok(kind)
    }

    fn try_open(&mut self, path: &Path) -> Result<u64, FolderStop>
        ensures called { Called self.old self.new (open_row path.now self.old.tree) result }
        ensures counts { HasCounts self.old }
    {
        if self.is_listed() {
            return Err(self.refuse());
        }
        let Some(number) = self.tree.number(path) else {
            return Err(self.refuse());
        };
        if self.tree.open(number).is_err() {
            return Err(self.want());
        }
        self.pass();
        Ok(number)
    }

    fn try_create(&mut self, path: &Path) -> Result<u64, FolderStop>
        ensures called { Called self.old self.new (create_row path.now self.old.tree) result }
        ensures counts { HasCounts self.old }
    {
        if self.is_listed() || !self.tree.is_free(path) {
            return Err(self.refuse());
        }
        let Ok(number) = self.tree.create(path) else {
            return Err(self.want());
        };
        self.pass();
        Ok(number)
    }

    fn try_release(&mut self, number: u64) -> Result<(), FolderStop>
        ensures called { Called self.old self.new (release_row number self.old.tree) result }
        ensures counts { HasCounts self.old }
        ensures no_want { self.new.short ≡ self.old.short }
    {
        if self.is_listed() || !self.tree.is_open(number) {
            return Err(self.refuse());
        }
        self.tree.release(number);
        self.pass();
        Ok(())
    }

    fn try_size(&mut self, number: u64) -> Result<u64, FolderStop>
        ensures called { Called self.old self.new (size_row number self.old.tree) result }
        ensures counts { HasCounts self.old }
        ensures no_want { self.new.short ≡ self.old.short }
    {
        if self.is_listed() || !self.tree.is_open(number) {
            return Err(self.refuse());
        }
        let size = self.tree.open_bytes(number).len() as u64;
        self.pass();
        Ok(size)
    }

    fn try_read(&mut self, number: u64, at: u64, into: &mut [u8]) -> Result<usize, FolderStop>
        ensures bound { IfOk result (λ n. n ≤ length into.new) }
        ensures called { Called self.old self.new (read_row number at (length into.old) self.old.tree)
            (bytes_read result into.new) }
        ensures counts { HasCounts self.old }
        ensures behind { IfOk result (λ n. drop n into.new ≡ drop n into.old) }
        ensures no_want { self.new.short ≡ self.old.short }
    {
        if self.is_listed() || !self.tree.is_open(number) {
            return Err(self.refuse());
        }
        let count = move_bytes(self.tree.open_bytes(number), at, into);
        self.pass();
        Ok(count)
    }

    fn try_write(&mut self, number: u64, at: u64, bytes: &[u8]) -> Result<(), FolderStop>
        ensures called { Called self.old self.new (write_row number at bytes.now self.old.tree) result }
        ensures counts { HasCounts self.old }
    {
        if self.is_listed() || !self.tree.is_open(number) || !is_writable(at, bytes) {
            return Err(self.refuse());
        }
        if self.tree.write(number, at, bytes).is_err() {
            return Err(self.want());
        }
        self.pass();
        Ok(())
    }

    fn try_set_size(&mut self, number: u64, size: u64) -> Result<(), FolderStop>
        ensures called { Called self.old self.new (set_size_row number size self.old.tree) result }
        ensures counts { HasCounts self.old }
    {
        if self.is_listed() || !self.tree.is_open(number) {
            return Err(self.refuse());
        }
        if self.tree.fit(number, size).is_err() {
            return Err(self.want());
        }
        self.pass();
        Ok(())
    }

    fn try_remove(&mut self, path: &Path) -> Result<(), FolderStop>
        ensures called { Called self.old self.new (remove_row path.now self.old.tree) result }
        ensures counts { HasCounts self.old }
        ensures no_want { self.new.short ≡ self.old.short }
    {
        if self.is_listed() {
            return Err(self.refuse());
        }
        let Some(number) = self.tree.number(path) else {
            return Err(self.refuse());
        };
        self.tree.remove(path, number);
        self.pass();
        Ok(())
    }

    fn try_make_dir(&mut self, path: &Path) -> Result<(), FolderStop>
        ensures called { Called self.old self.new (make_dir_row path.now self.old.tree) result }
        ensures counts { HasCounts self.old }
    {
        if self.is_listed() || !self.tree.is_free(path) {
            return Err(self.refuse());
        }
        if self.tree.make_dir(path).is_err() {
            return Err(self.want());
        }
        self.pass();
        Ok(())
    }

    fn try_remove_dir(&mut self, path: &Path) -> Result<bool, FolderStop>
        ensures called { Called self.old self.new (remove_dir_row path.now self.old.tree) result }
        ensures counts { HasCounts self.old }
        ensures no_want { self.new.short ≡ self.old.short }
    {
        if self.is_listed() || !self.tree.is_inner_directory(path) {
            return Err(self.refuse());
        }
        let gone = self.tree.remove_dir(path);
        self.pass();
        Ok(gone)
    }
}

impl Folder for MemoryFolder {
    ghost tree = { λ f. Some f.tree };

    ghost faults = { λ f. f.faults };

    ghost short = { λ f. f.short };

    ghost steady = { λ f. NoneFrom f.calls f.failing };

    fn kind(&mut self, path: &Path) -> Result<PathKind, FolderStop>
        ensures tree { Answers (Some self.old.tree) (Some self.new.tree) (kind_row path.now) result }
        ensures untold { Some self.old.tree ≡ None → Some self.new.tree ≡ None }
        ensures cause { HasCauses self.old.faults self.new.faults self.old.short self.new.short result }
        ensures steady { NoneFrom self.old.calls self.old.failing → Suits (Some self.old.tree) (kind_row path.now)
            → StaysSteady self.old.faults self.new.faults result (NoneFrom self.new.calls self.new.failing) }
        ensures called { Called self.old self.new (kind_row path.now self.old.tree) result }
        ensures no_want { self.new.short ≡ self.old.short }
    {
        self.try_kind(path)
    }

    fn open_file(&mut self, path: &Path) -> Result<u64, FolderStop>
        ensures tree { Answers (Some self.old.tree) (Some self.new.tree) (open_row path.now) result }
        ensures untold { Some self.old.tree ≡ None → Some self.new.tree ≡ None }
        ensures cause { HasCauses self.old.faults self.new.faults self.old.short self.new.short result }
        ensures steady { NoneFrom self.old.calls self.old.failing → Suits (Some self.old.tree) (open_row path.now)
            → StaysSteady self.old.faults self.new.faults result (NoneFrom self.new.calls self.new.failing) }
        ensures called { Called self.old self.new (open_row path.now self.old.tree) result }
    {
        self.try_open(path)
    }

    fn create(&mut self, path: &Path) -> Result<u64, FolderStop>
        ensures tree { Answers (Some self.old.tree) (Some self.new.tree) (create_row path.now) result }
        ensures untold { Some self.old.tree ≡ None → Some self.new.tree ≡ None }
        ensures cause { HasCauses self.old.faults self.new.faults self.old.short self.new.short result }
        ensures steady { NoneFrom self.old.calls self.old.failing → Suits (Some self.old.tree) (create_row path.now)
            → StaysSteady self.old.faults self.new.faults result (NoneFrom self.new.calls self.new.failing) }
        ensures called { Called self.old self.new (create_row path.now self.old.tree) result }
    {
        self.try_create(path)
    }

    fn release(&mut self, number: u64) -> Result<(), FolderStop>
        ensures tree { Answers (Some self.old.tree) (Some self.new.tree) (release_row number) result }
        ensures untold { Some self.old.tree ≡ None → Some self.new.tree ≡ None }
        ensures cause { HasCauses self.old.faults self.new.faults self.old.short self.new.short result }
        ensures steady { NoneFrom self.old.calls self.old.failing → Suits (Some self.old.tree) (release_row number)
            → StaysSteady self.old.faults self.new.faults result (NoneFrom self.new.calls self.new.failing) }
        ensures called { Called self.old self.new (release_row number self.old.tree) result }
        ensures no_want { self.new.short ≡ self.old.short }
    {
        self.try_release(number)
    }

    fn size(&mut self, number: u64) -> Result<u64, FolderStop>
        ensures tree { Answers (Some self.old.tree) (Some self.new.tree) (size_row number) result }
        ensures untold { Some self.old.tree ≡ None → Some self.new.tree ≡ None }
        ensures cause { HasCauses self.old.faults self.new.faults self.old.short self.new.short result }
        ensures steady { NoneFrom self.old.calls self.old.failing → Suits (Some self.old.tree) (size_row number)
            → StaysSteady self.old.faults self.new.faults result (NoneFrom self.new.calls self.new.failing) }
        ensures called { Called self.old self.new (size_row number self.old.tree) result }
        ensures no_want { self.new.short ≡ self.old.short }
    {
        self.try_size(number)
    }

    fn read_at(&mut self, number: u64, at: u64, into: &mut [u8]) -> Result<usize, FolderStop>
        ensures bound { IfOk result (λ n. n ≤ length into.new) }
        ensures tree { Answers (Some self.old.tree) (Some self.new.tree) (read_row number at (length into.old))
            (bytes_read result into.new) }
        ensures untold { Some self.old.tree ≡ None → Some self.new.tree ≡ None }
        ensures behind { (t : Tree) → Some self.old.tree ≡ Some t
            → IfOk result (λ n. drop n into.new ≡ drop n into.old) }
        ensures cause { HasCauses self.old.faults self.new.faults self.old.short self.new.short result }
        ensures steady { NoneFrom self.old.calls self.old.failing
            → Suits (Some self.old.tree) (read_row number at (length into.old))
            → StaysSteady self.old.faults self.new.faults result (NoneFrom self.new.calls self.new.failing) }
        ensures called { Called self.old self.new (read_row number at (length into.old) self.old.tree)
            (bytes_read result into.new) }
        ensures no_want { self.new.short ≡ self.old.short }
    {
        self.try_read(number, at, into)
    }

    fn write_at(&mut self, number: u64, at: u64, bytes: &[u8]) -> Result<(), FolderStop>
        ensures tree { Answers (Some self.old.tree) (Some self.new.tree) (write_row number at bytes.now) result }
        ensures untold { Some self.old.tree ≡ None → Some self.new.tree ≡ None }
        ensures cause { HasCauses self.old.faults self.new.faults self.old.short self.new.short result }
        ensures steady { NoneFrom self.old.calls self.old.failing
            → Suits (Some self.old.tree) (write_row number at bytes.now)
            → StaysSteady self.old.faults self.new.faults result (NoneFrom self.new.calls self.new.failing) }
        ensures called { Called self.old self.new (write_row number at bytes.now self.old.tree) result }
    {
        self.try_write(number, at, bytes)
    }

    fn set_size(&mut self, number: u64, size: u64) -> Result<(), FolderStop>
        ensures tree { Answers (Some self.old.tree) (Some self.new.tree) (set_size_row number size) result }
        ensures untold { Some self.old.tree ≡ None → Some self.new.tree ≡ None }
        ensures cause { HasCauses self.old.faults self.new.faults self.old.short self.new.short result }
        ensures steady { NoneFrom self.old.calls self.old.failing
            → Suits (Some self.old.tree) (set_size_row number size)
            → StaysSteady self.old.faults self.new.faults result (NoneFrom self.new.calls self.new.failing) }
        ensures called { Called self.old self.new (set_size_row number size self.old.tree) result }
    {
        self.try_set_size(number, size)
    }

    fn remove(&mut self, path: &Path) -> Result<(), FolderStop>
        ensures tree { Answers (Some self.old.tree) (Some self.new.tree) (remove_row path.now) result }
        ensures untold { Some self.old.tree ≡ None → Some self.new.tree ≡ None }
        ensures cause { HasCauses self.old.faults self.new.faults self.old.short self.new.short result }
        ensures steady { NoneFrom self.old.calls self.old.failing → Suits (Some self.old.tree) (remove_row path.now)
            → StaysSteady self.old.faults self.new.faults result (NoneFrom self.new.calls self.new.failing) }
        ensures called { Called self.old self.new (remove_row path.now self.old.tree) result }
        ensures no_want { self.new.short ≡ self.old.short }
    {
        self.try_remove(path)
    }

    fn make_dir(&mut self, path: &Path) -> Result<(), FolderStop>
        ensures tree { Answers (Some self.old.tree) (Some self.new.tree) (make_dir_row path.now) result }
        ensures untold { Some self.old.tree ≡ None → Some self.new.tree ≡ None }
        ensures cause { HasCauses self.old.faults self.new.faults self.old.short self.new.short result }
        ensures steady { NoneFrom self.old.calls self.old.failing → Suits (Some self.old.tree) (make_dir_row path.now)
            → StaysSteady self.old.faults self.new.faults result (NoneFrom self.new.calls self.new.failing) }
        ensures called { Called self.old self.new (make_dir_row path.now self.old.tree) result }
    {
        self.try_make_dir(path)
    }

    fn remove_dir(&mut self, path: &Path) -> Result<bool, FolderStop>
        ensures tree { Answers (Some self.old.tree) (Some self.new.tree) (remove_dir_row path.now) result }
        ensures untold { Some self.old.tree ≡ None → Some self.new.tree ≡ None }
        ensures cause { HasCauses self.old.faults self.new.faults self.old.short self.new.short result }
        ensures steady { NoneFrom self.old.calls self.old.failing → Suits (Some self.old.tree) (remove_dir_row path.now)
            → StaysSteady self.old.faults self.new.faults result (NoneFrom self.new.calls self.new.failing) }
        ensures called { Called self.old self.new (remove_dir_row path.now self.old.tree) result }
        ensures no_want { self.new.short ≡ self.old.short }
    {
        self.try_remove_dir(path)
    }
}
