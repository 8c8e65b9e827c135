// The working directory behind the trait `Folder`.
ghost use Rattle.std.specs.Prelude.{◌≡◌, ◌≤◌, ◌<◌, IfErr, IfOk, IsErrOf, None, Ok, Some, drop, length};
ghost use Rattle.fe_base.specs.Outside.{Rose};
ghost use Rattle.folder_host.specs.Folder.{no_tree};
ghost use Rattle.folder_tree.specs.Answers.{Answers, HasCauses, StaysSteady, Suits, bytes_read};
ghost use Rattle.folder_tree.specs.Tree.{Tree};
ghost use Rattle.folder_tree.specs.TreeOps.{create_row, kind_row, make_dir_row, open_row, read_row, release_row};
ghost use Rattle.folder_tree.specs.TreeOps.{remove_dir_row, remove_row, set_size_row, size_row, write_row};
ghost use Rattle.folder_tree.specs.declared.folder.FolderStop.{FolderStop as Stop};

use crate::calls::{create_dir_at, open_existing, open_new, remove_empty, remove_file_at};
use crate::names::{is_file, kind_of, name_of};
use folder_tree::{Folder, FolderStop, Path, PathKind, is_writable};
use slab::Slab;
use std::collections::BTreeMap;
use std::fs::OpenFile;
use std::io;
use std::io::{Read, Seek, SeekFrom, Write};
use std::rt::Files;

/// The working directory of the runtime. Each open has a number of its own, which is given to no other open.
#[derive(Drop)]
pub struct HostFolder<R: Files + AllocGlobal + Drop> {
    rt: R,
    files: Slab<R::File>,
    // the slab's key of each number
    keys: BTreeMap<u64, usize>,
    next: u64,
    faults: u64,
    short: u64,
}

// Reads from a place on until the buffer is full or the file has ended.
fn read_from<F: Read + Seek>(file: &mut F, at: u64, into: &mut [u8]) -> io::Result<usize>
    ensures { IfOk result (λ count. count ≤ length into.new) }
{
    file.seek(SeekFrom::Start(at))?;
    let mut count = 0;
    while count < into.len() {
        let more = file.read(&mut into[count..])?;
        if more == 0 {
            break;
        }
        count += more;
    }
    Ok(count)
}

// Reads from a place on in a file of so many bytes. Behind its end, where the system may refuse to go, there are none.
pub fn read_within<F: Read + Seek>(
    file: &mut F,
    size: u64,
    at: u64,
    into: &mut [u8],
) -> io::Result<usize>
    ensures bound { IfOk result (λ count. count ≤ length into.new) }
    ensures behind { size ≤ at → result ≡ Ok 0 }
{
    if at >= size {
        return Ok(0);
    }
    read_from(file, at, into)
}

// Writes all of the bytes from a place on.
pub fn write_from<F: Write + Seek>(file: &mut F, at: u64, bytes: &[u8]) -> io::Result<()> {
    file.seek(SeekFrom::Start(at))?;
    file.write_all(bytes)
}

impl<R: Files + AllocGlobal + Drop> HostFolder<R> {
    /// The working directory, with no file open.
    pub fn here(rt: R) -> Self {
        let files = Slab::new(rt.alloc());
        let keys = BTreeMap::new(rt.alloc());
        HostFolder {
            rt,
            files,
            keys,
            next: 0,
            faults: 0,
            short: 0,
        }
    }

    // One fault more.
    fn failed(&mut self) -> FolderStop
        ensures stop { result ≡ FolderStop.Failed }
        ensures faults { Rose self.old.faults self.new.faults }
        ensures later { self.old.faults ≤ self.new.faults }
        ensures short { self.new.short ≡ self.old.short }
        ensures next { self.new.next ≡ self.old.next }
    {
        self.faults = self.faults.saturating_add(1);
        FolderStop::Failed
    }

    // One want of memory more.
    fn wanting(&mut self) -> FolderStop
        ensures stop { result ≡ FolderStop.NoMemory }
        ensures short { Rose self.old.short self.new.short }
        ensures later { self.old.short ≤ self.new.short }
        ensures faults { self.new.faults ≡ self.old.faults }
        ensures next { self.new.next ≡ self.old.next }
    {
        self.short = self.short.saturating_add(1);
        FolderStop::NoMemory
    }

    // Holds an open file under a new number, which is that of no other open before or after it.
    fn hold(&mut self, file: R::File) -> Result<u64, FolderStop>
        ensures stop { IfErr result (λ stop. stop ≡ FolderStop.NoMemory) }
        ensures short { IfErr result (λ _. Rose self.old.short self.new.short) }
        ensures later { self.old.short ≤ self.new.short }
        ensures faults { self.new.faults ≡ self.old.faults }
        ensures own { IfOk result (λ number. self.old.next ≤ number) }
        ensures next { IfOk result (λ number. number < self.new.next) }
        ensures onward { self.old.next ≤ self.new.next }
    {
        let number = self.next;
        let Some(next) = number.checked_add(1) else {
            return Err(self.wanting());
        };
        let Ok(key) = self.files.insert(file) else {
            return Err(self.wanting());
        };
        if self.keys.insert(number, key).is_err() {
            let _ = self.files.try_remove(key);
            return Err(self.wanting());
        }
        self.next = next;
        Ok(number)
    }
}

impl<R: Files + AllocGlobal + Drop> Folder for HostFolder<R> {
    ghost tree = { λ _. None };

    ghost faults = { λ f. f.faults };

    ghost short = { λ f. f.short };

    ghost steady = { λ _. ⊥ };

    fn kind(&mut self, path: &Path) -> Result<PathKind, FolderStop>
        ensures tree { Answers None None (kind_row path.now) result }
        ensures untold { no_tree ≡ None → no_tree ≡ None }
        ensures cause { HasCauses self.old.faults self.new.faults self.old.short self.new.short result }
        ensures steady { ⊥ → Suits None (kind_row path.now) → StaysSteady self.old.faults self.new.faults result ⊥ }
        ensures kept { self.new.next ≡ self.old.next }
    {
        match kind_of(&self.rt, name_of(path)) {
            Ok(kind) => Ok(kind),
            Err(_) => Err(self.failed()),
        }
    }

    fn open_file(&mut self, path: &Path) -> Result<u64, FolderStop>
        ensures tree { Answers None None (open_row path.now) result }
        ensures untold { no_tree ≡ None → no_tree ≡ None }
        ensures cause { HasCauses self.old.faults self.new.faults self.old.short self.new.short result }
        ensures steady { ⊥ → Suits None (open_row path.now) → StaysSteady self.old.faults self.new.faults result ⊥ }
        ensures own { IfOk result (λ number. self.old.next ≤ number) }
        ensures next { IfOk result (λ number. number < self.new.next) }
        ensures onward { self.old.next ≤ self.new.next }
    {
        let name = name_of(path);
        if !is_file(&self.rt, name) {
            return Err(self.failed());
        }
        match open_existing(&self.rt, name) {
            Ok(file) => self.hold(file),
            Err(_) => Err(self.failed()),
        }
    }

    fn create(&mut self, path: &Path) -> Result<u64, FolderStop>
        ensures tree { Answers None None (create_row path.now) result }
        ensures untold { no_tree ≡ None → no_tree ≡ None }
        ensures cause { HasCauses self.old.faults self.new.faults self.old.short self.new.short result }
        ensures steady { ⊥ → Suits None (create_row path.now) → StaysSteady self.old.faults self.new.faults result ⊥ }
        ensures own { IfOk result (λ number. self.old.next ≤ number) }
        ensures next { IfOk result (λ number. number < self.new.next) }
        ensures onward { self.old.next ≤ self.new.next }
    {
        let name = name_of(path);
        let Ok(file) = open_new(&self.rt, name) else {
            return Err(self.failed());
        };
        let held = self.hold(file);
        if held.is_err() {
            let _ = remove_file_at(&self.rt, name);
        }
        held
    }

    fn release(&mut self, number: u64) -> Result<(), FolderStop>
        ensures tree { Answers None None (release_row number) result }
        ensures untold { no_tree ≡ None → no_tree ≡ None }
        ensures cause { HasCauses self.old.faults self.new.faults self.old.short self.new.short result }
        ensures steady { ⊥ → Suits None (release_row number) → StaysSteady self.old.faults self.new.faults result ⊥ }
        ensures kept { self.new.next ≡ self.old.next }
    {
        let Some(key) = self.keys.remove(&number) else {
            return Err(self.failed());
        };
        match self.files.try_remove(key) {
            Some(_) => Ok(()),
            None => Err(self.failed()),
        }
    }

    fn size(&mut self, number: u64) -> Result<u64, FolderStop>
        ensures tree { Answers None None (size_row number) result }
        ensures untold { no_tree ≡ None → no_tree ≡ None }
        ensures cause { HasCauses self.old.faults self.new.faults self.old.short self.new.short result }
        ensures steady { ⊥ → Suits None (size_row number) → StaysSteady self.old.faults self.new.faults result ⊥ }
        ensures kept { self.new.next ≡ self.old.next }
    {
        if let Some(key) = self.keys.get(&number)
            && let Some(file) = self.files.get(*key)
            && let Ok(found) = file.metadata()
        {
            return Ok(found.len());
        }
        Err(self.failed())
    }

    fn read_at(&mut self, number: u64, at: u64, into: &mut [u8]) -> Result<usize, FolderStop>
        ensures bound { IfOk result (λ n. n ≤ length into.new) }
        ensures tree { Answers None None (read_row number at (length into.old)) (bytes_read result into.new) }
        ensures untold { no_tree ≡ None → no_tree ≡ None }
        ensures behind { (t : Tree) → no_tree ≡ Some t → IfOk result (λ n. drop n into.new ≡ drop n into.old) }
        ensures cause { HasCauses self.old.faults self.new.faults self.old.short self.new.short result }
        ensures steady { ⊥ → Suits None (read_row number at (length into.old))
            → StaysSteady self.old.faults self.new.faults result ⊥ }
        ensures kept { self.new.next ≡ self.old.next }
    {
        if let Some(key) = self.keys.get(&number)
            && let Some(file) = self.files.get_mut(*key)
            && let Ok(found) = file.metadata()
            && let Ok(count) = read_within(file, found.len(), at, into)
        {
            return Ok(count);
        }
        Err(self.failed())
    }

    fn write_at(&mut self, number: u64, at: u64, bytes: &[u8]) -> Result<(), FolderStop>
        ensures tree { Answers None None (write_row number at bytes.now) result }
        ensures untold { no_tree ≡ None → no_tree ≡ None }
        ensures cause { HasCauses self.old.faults self.new.faults self.old.short self.new.short result }
        ensures steady { ⊥ → Suits None (write_row number at bytes.now)
            → StaysSteady self.old.faults self.new.faults result ⊥ }
        ensures kept { self.new.next ≡ self.old.next }
    {
        if is_writable(at, bytes)
            && let Some(key) = self.keys.get(&number)
            && let Some(file) = self.files.get_mut(*key)
            && let Ok(()) = write_from(file, at, bytes)
        {
            return Ok(());
        }
        Err(self.failed())
    }

    fn set_size(&mut self, number: u64, size: u64) -> Result<(), FolderStop>
        ensures tree { Answers None None (set_size_row number size) result }
        ensures untold { no_tree ≡ None → no_tree ≡ None }
        ensures cause { HasCauses self.old.faults self.new.faults self.old.short self.new.short result }
        ensures steady { ⊥ → Suits None (set_size_row number size)
            → StaysSteady self.old.faults self.new.faults result ⊥ }
        ensures kept { self.new.next ≡ self.old.next }
    {
        if let Some(key) = self.keys.get(&number)
            && let Some(file) = self.files.get(*key)
            && let Ok(()) = file.set_len(size)
        {
            return Ok(());
        }
        Err(self.failed())
    }

    fn remove(&mut self, path: &Path) -> Result<(), FolderStop>
        ensures tree { Answers None None (remove_row path.now) result }
        ensures untold { no_tree ≡ None → no_tree ≡ None }
        ensures cause { HasCauses self.old.faults self.new.faults self.old.short self.new.short result }
        ensures steady { ⊥ → Suits None (remove_row path.now) → StaysSteady self.old.faults self.new.faults result ⊥ }
        ensures kept { self.new.next ≡ self.old.next }
    {
        let name = name_of(path);
        if is_file(&self.rt, name)
            && let Ok(()) = remove_file_at(&self.rt, name)
        {
            return Ok(());
        }
        Err(self.failed())
    }

    fn make_dir(&mut self, path: &Path) -> Result<(), FolderStop>
        ensures tree { Answers None None (make_dir_row path.now) result }
        ensures untold { no_tree ≡ None → no_tree ≡ None }
        ensures cause { HasCauses self.old.faults self.new.faults self.old.short self.new.short result }
        ensures steady { ⊥ → Suits None (make_dir_row path.now)
            → StaysSteady self.old.faults self.new.faults result ⊥ }
        ensures kept { self.new.next ≡ self.old.next }
    {
        match create_dir_at(&self.rt, name_of(path)) {
            Ok(()) => Ok(()),
            Err(_) => Err(self.failed()),
        }
    }

    fn remove_dir(&mut self, path: &Path) -> Result<bool, FolderStop>
        ensures tree { Answers None None (remove_dir_row path.now) result }
        ensures untold { no_tree ≡ None → no_tree ≡ None }
        ensures cause { HasCauses self.old.faults self.new.faults self.old.short self.new.short result }
        ensures steady { ⊥ → Suits None (remove_dir_row path.now)
            → StaysSteady self.old.faults self.new.faults result ⊥ }
        ensures kept { self.new.next ≡ self.old.next }
    {
        match remove_empty(&self.rt, name_of(path)) {
            Ok(gone) => Ok(gone),
            Err(_) => Err(self.failed()),
        }
    }
}
