// The tree of a memory folder.
ghost use Rattle.std.specs.Prelude.{◌≡◌, ◌<◌, ◌^◌, ◌+◌, ◌==◌, ◌&&◌, not, IfOk, IsTrue, OnErr, OnOk, length, nat_lt};
ghost use Rattle.std.specs.Prelude.{true, Some, unwrap_or};
ghost use Rattle.folder_tree.specs.Tree.{IsWellFormed, bytes_of, directory, empty_tree, file_of, kind_of, number_at};
ghost use Rattle.folder_tree.specs.Tree.{opens_of};
ghost use Rattle.folder_tree.specs.TreeOps.{After, created, dropped, emptied, holding, is_free, is_named, least_free};
ghost use Rattle.folder_tree.specs.TreeOps.{named, opened, released, sized, with_file, without, written};
ghost use Rattle.folder_memory.specs.Names.{names_tree};
ghost use Rattle.folder_memory.specs.Folder.{is_inner_directory};
ghost use Rattle.std.specs.FinMap as map;
ghost use Rattle.std.specs.Option.{option_copied};

use crate::contents::Contents;
use crate::names::{Names, Stood};
use crate::opens::Opens;
use folder_tree::{Path, PathKind};
use std::alloc::{AllocError, Global};
use std::marker::Model;

#[derive(Drop)]
pub struct MemoryTree {
    alloc: Global,
    names: Names,
    contents: Contents,
    opens: Opens,
}

impl Model for MemoryTree {
    ghost use Rattle.folder_tree.specs.Tree.{IsWellFormed, Tree, tree_code};

    ghost Value = { Tree };

    ghost coded = { tree_code };

    ghost view = { λ m. record { names = m.names; bytes = m.contents; opens = m.opens } };

    ghost invariant = { λ m. IsWellFormed (record { names = m.names; bytes = m.contents; opens = m.opens }) };
}

impl MemoryTree {
    pub fn new(alloc: Global) -> Self
        ensures { result ≡ empty_tree }
    {
        MemoryTree {
            alloc,
            names: Names::new(alloc),
            contents: Contents::new(alloc),
            opens: Opens::new(alloc),
        }
    }

    /// The kind of a path.
    pub fn kind(&self, path: &Path) -> PathKind
        ensures { result ≡ kind_of self.now path.now }
    {
        self.names.kind(path)
    }

    /// Whether nothing stands at a path, in a directory that does.
    pub fn is_free(&self, path: &Path) -> bool
        ensures { result ≡ is_free (kind_of self.now path.now) }
    {
        matches!(self.kind(path), PathKind::Free)
    }

    /// Whether a directory other than the root stands at a path.
    pub fn is_inner_directory(&self, path: &Path) -> bool
        ensures { result ≡ is_inner_directory self.now path.now }
    {
        if path.text().is_empty() {
            return false;
        }
        matches!(self.kind(path), PathKind::Directory)
    }

    /// The number of the file at a path.
    pub fn number(&self, path: &Path) -> Option<u64>
        ensures { result ≡ number_at self.now path.now }
    {
        self.names.number(path)
    }

    /// What the file at a path holds; none exactly where the path is no file.
    pub fn file(&self, path: &Path) -> Option<&[u8]>
        ensures { option_copied result ≡ file_of self.now path.now }
    {
        let number = self.number(path)?;
        self.contents.bytes(number)
    }

    pub fn is_open(&self, number: u64) -> bool
        ensures { result ≡ nat_lt 0 (opens_of self.now number) }
    {
        self.opens.count(number) > 0
    }

    /// What an open file holds.
    pub fn open_bytes(&self, number: u64) -> &[u8]
        requires { 0 < opens_of self.now number }
        ensures { result.now ≡ bytes_of self.now number }
    {
        self.contents.bytes(number).unwrap()
    }

    /// Writes bytes from the place `at` of an open file on, with zeros up to it.
    pub fn write(&mut self, number: u64, at: u64, bytes: &[u8]) -> Result<(), AllocError>
        requires held { 0 < opens_of self.old number }
        requires end { at + length bytes.now < 2 ^ 63 }
        ensures ok { OnOk result (self.new ≡ holding self.old number
            (written at bytes.now (bytes_of self.old number))) }
        ensures err { OnErr result (self.new ≡ self.old) }
    {
        self.contents.write(number, at, bytes)?;
        Ok(())
    }

    /// Cuts an open file to a size, or fills it with zeros.
    pub fn fit(&mut self, number: u64, size: u64) -> Result<(), AllocError>
        requires held { 0 < opens_of self.old number }
        ensures ok { OnOk result (self.new ≡ holding self.old number (sized size (bytes_of self.old number))) }
        ensures err { OnErr result (self.new ≡ self.old) }
    {
        self.contents.fit(number, size)?;
        Ok(())
    }

    /// Opens a file once more.
    pub fn open(&mut self, number: u64) -> Result<(), AllocError>
        requires { is_named self.old number ≡ true }
        ensures ok { OnOk result (self.new ≡ opened self.old number) }
        ensures err { OnErr result (self.new ≡ self.old) }
    {
        self.opens.add(number)?;
        Ok(())
    }

    /// Closes an open file once; a file without name and opens is dropped.
    pub fn release(&mut self, number: u64)
        requires { 0 < opens_of self.old number }
        ensures { self.new ≡ released self.old number }
    {
        if self.is_last(number) {
            self.contents.remove(number);
            self.opens.remove(number);
            return;
        }
        self.opens.remove(number);
    }

    // Whether a file without a name is open once.
    fn is_last(&self, number: u64) -> bool
        ensures { result ≡ (opens_of self.now number == 1 && not (is_named self.now number)) }
    {
        self.opens.count(number) == 1 && !self.names.is_named(number)
    }

    /// Makes a directory at a free path.
    pub fn make_dir(&mut self, path: &Path) -> Result<(), AllocError>
        requires { IsTrue (is_free (kind_of self.old path.now)) }
        ensures ok { OnOk result (self.new ≡ named self.old path.now directory) }
        ensures err { OnErr result (self.new ≡ self.old) }
        ensures well_formed { IsWellFormed self.new }
    {
        self.names.add(path, Stood::Directory)?;
        Ok(())
    }

    /// Adds a file that isn't open at a free path, and gives its number.
    pub fn put(&mut self, path: &Path, bytes: Vec<u8>) -> Result<u64, AllocError>
        requires { IsTrue (is_free (kind_of self.old path.now)) }
        ensures number { IfOk result (λ n. n ≡ least_free self.old.bytes) }
        ensures ok { OnOk result (self.new ≡ with_file self.old path.now (least_free self.old.bytes) bytes.items) }
        ensures err { OnErr result (self.new ≡ self.old) }
        ensures well_formed { IsWellFormed self.new }
    {
        let number = self.contents.least_free();
        self.contents.add(number, bytes)?;
        if self.names.add(path, Stood::File(number)).is_err() {
            self.contents.remove(number);
            return Err(AllocError);
        }
        Ok(number)
    }

    /// Adds a file that isn't open at a free path, with a copy of these bytes.
    pub fn put_copy(&mut self, path: &Path, bytes: &[u8]) -> Result<(), AllocError>
        requires { IsTrue (is_free (kind_of self.old path.now)) }
        ensures ok { OnOk result (self.new ≡ with_file self.old path.now (least_free self.old.bytes) bytes.now) }
        ensures err { OnErr result (self.new ≡ self.old) }
        ensures well_formed { IsWellFormed self.new }
    {
        let bytes = bytes.to_vec(self.alloc)?;
        self.put(path, bytes)?;
        Ok(())
    }

    /// Makes an empty file at a free path, opens it, and gives its number.
    pub fn create(&mut self, path: &Path) -> Result<u64, AllocError>
        requires { IsTrue (is_free (kind_of self.old path.now)) }
        ensures number { IfOk result (λ n. n ≡ least_free self.old.bytes) }
        ensures ok { OnOk result (self.new ≡ created self.old path.now) }
        ensures err { OnErr result (self.new ≡ self.old) }
    {
        let number = self.put(path, Vec::new(self.alloc))?;
        if self.opens.add(number).is_err() {
            self.names.remove(path);
            self.contents.remove(number);
            return Err(AllocError);
        }
        Ok(number)
    }

    /// Removes the name of a file; its bytes stay while it is open.
    pub fn remove(&mut self, path: &Path, number: u64)
        requires { number_at self.old path.now ≡ Some number }
        ensures { self.new ≡ dropped (without self.old path.now) number }
    {
        self.names.remove(path);
        if is_unused(&self.names, &self.opens, number) {
            self.contents.remove(number);
        }
    }

    /// Removes a directory that is not the root; false, and no change, where something stands in it.
    pub fn remove_dir(&mut self, path: &Path) -> bool
        requires { IsTrue (is_inner_directory self.old path.now) }
        ensures { record { answer = result; tree = self.new } ≡ emptied self.old path.now }
    {
        if self.names.is_filled(path) {
            return false;
        }
        self.names.remove(path);
        true
    }
}

// Whether a file has neither a name nor an open.
fn is_unused(names: &Names, opens: &Opens, number: u64) -> bool
    ensures { result ≡ (unwrap_or (map.get opens.now number) 0 == 0 && not (is_named (names_tree names.now) number)) }
{
    opens.count(number) == 0 && !names.is_named(number)
}
