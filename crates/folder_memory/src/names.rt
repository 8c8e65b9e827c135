// The names of a memory folder.
ghost use Rattle.std.specs.Prelude.{◌≡◌, ◌++◌, ◌<◌, [], ◌∷◌, ℕ, List, IsSome, OnErr, OnOk, length, Some, None};
ghost use Rattle.std.specs.Option.{option_map};
ghost use Rattle.std.specs.FinMap as map;
ghost use Rattle.folder_tree.specs.Paths.{parts_of};
ghost use Rattle.folder_tree.specs.Tree.{HasParents, kind_of, number_at};
ghost use Rattle.folder_tree.specs.TreeOps.{is_filled, is_named};
ghost use Rattle.folder_tree.specs.WalkLaws.{kind_standing, kind_under, number_standing, standing};
ghost use Rattle.folder_memory.specs.Names.{IsLast, IsPathText, entry_of, is_number, names_tree, stands_below};
ghost use Rattle.folder_memory.specs.Names.{starts_below};

use folder_tree::{Path, PathKind};
use std::alloc::{AllocError, Global};
use std::collections::BTreeMap;
use std::marker::Model;

/// What a name stands for.
#[derive(Clone, Copy, Debug)]
pub enum Stood {
    Directory,
    /// The file of a number.
    File(u64),
}

#[derive(Drop)]
pub struct Names {
    alloc: Global,
    // by the text of the path
    names: BTreeMap<Vec<u8>, Stood>,
}

impl Model for Names {
    ghost use Rattle.std.specs.FinMap as map;
    ghost use Rattle.std.specs.Coded.{coded_ℕ, coded_list};
    ghost use Rattle.folder_tree.specs.Paths.{parts_cmp};
    ghost use Rattle.folder_tree.specs.Tree.{Entry, entry_code};
    ghost use Rattle.folder_memory.specs.Names.{AreTexts, names_of};

    ghost Value = { map.FinMap parts_cmp Entry };

    ghost coded = { map.code (coded_list (coded_list coded_ℕ)) entry_code };

    ghost view = { λ n. names_of (λ k. k.items) n.names.entries };

    ghost invariant = { λ n. AreTexts (λ k. k.items) n.names };
}

impl Names {
    pub fn new(alloc: Global) -> Self
        ensures { result ≡ map.empty }
    {
        Names {
            alloc,
            names: BTreeMap::new(alloc),
        }
    }

    /// What stands at the path of a text.
    pub fn find(&self, text: &[u8]) -> Option<Stood>
        requires { IsPathText text.now }
        ensures { option_map entry_of result ≡ map.get self.now (parts_of text.now) }
    {
        self.names.get(text).copied()
    }

    pub fn add(&mut self, path: &Path, stood: Stood) -> Result<(), AllocError>
        ensures ok { OnOk result (self.new ≡ map.insert self.old path.now (entry_of stood)) }
        ensures err { OnErr result (self.new ≡ self.old) }
    {
        let text = path.text().to_vec(self.alloc)?;
        self.names.insert(text, stood)?;
        Ok(())
    }

    pub fn remove(&mut self, path: &Path)
        ensures { self.new ≡ map.remove self.old path.now }
    {
        let _ = self.names.remove(path.text());
    }

    // What stands at the path of a text; the root is a directory.
    fn standing(&self, text: &str) -> Option<Stood>
        requires { IsPathText text.now }
        ensures { option_map entry_of result ≡ standing (names_tree self.now) (parts_of text.now) }
    {
        if text.is_empty() {
            return Some(Stood::Directory);
        }
        self.find(text.as_bytes())
    }

    /// The kind of a path in a tree of these names.
    pub fn kind(&self, path: &Path) -> PathKind
        requires { HasParents (names_tree self.now) }
        ensures { result ≡ kind_of (names_tree self.now) path.now }
    {
        let text = path.as_str();
        let Some(stood) = self.standing(text) else {
            return self.missing_kind(text);
        };
        stood.kind()
    }

    // The kind of a path at which no name stands: what stands next above it decides.
    fn missing_kind(&self, text: &str) -> PathKind
        requires text { IsPathText text.now }
        requires missing { standing (names_tree self.now) (parts_of text.now) ≡ None }
        requires well { HasParents (names_tree self.now) }
        ensures { result ≡ kind_of (names_tree self.now) (parts_of text.now) }
    {
        let mut kind = PathKind::Free;
        let mut above = text_above(text);
        loop {
            if let Some(stood) = self.standing(above) {
                return stood.kind_below(kind);
            }
            kind = PathKind::NoParent;
            above = text_above(above);
        }
    }

    /// The number of the file at a path in a tree of these names.
    pub fn number(&self, path: &Path) -> Option<u64>
        requires { HasParents (names_tree self.now) }
        ensures { result ≡ number_at (names_tree self.now) path.now }
    {
        let stood = self.standing(path.as_str())?;
        stood.number()
    }

    /// Whether a name stands below a path that is not the root.
    pub fn is_filled(&self, path: &Path) -> bool
        requires { path.now ≡ [] → ⊥ }
        ensures { result ≡ is_filled (names_tree self.now) path.now }
    {
        let text = path.text();
        for name in self.names.keys() {
            if stands_below(name, text) {
                return true;
            }
        }
        false
    }

    /// Whether a name stands for the file of a number.
    pub fn is_named(&self, number: u64) -> bool
        ensures { result ≡ is_named (names_tree self.now) number }
    {
        for stood in self.names.values() {
            if stood.is_number(number) {
                return true;
            }
        }
        false
    }
}

impl Stood {
    fn kind(&self) -> PathKind
        ensures { result ≡ kind_standing (entry_of self.now) }
    {
        match self {
            Stood::Directory => PathKind::Directory,
            Stood::File(_) => PathKind::File,
        }
    }

    // The kind of a path below, where no name stands: this one in a directory.
    fn kind_below(&self, missing: PathKind) -> PathKind
        ensures { result ≡ kind_under missing (kind_standing (entry_of self.now)) }
    {
        match self {
            Stood::Directory => missing,
            Stood::File(_) => PathKind::UnderFile,
        }
    }

    fn number(&self) -> Option<u64>
        ensures { result ≡ number_standing (Some (entry_of self.now)) }
    {
        match self {
            Stood::Directory => None,
            Stood::File(number) => Some(*number),
        }
    }

    fn is_number(&self, number: u64) -> bool
        ensures { result ≡ is_number number self.now }
    {
        match self {
            Stood::File(other) => number == *other,
            Stood::Directory => false,
        }
    }
}

// The text of the path above one that has parts.
fn text_above(text: &str) -> &str
    requires path { IsPathText text.now }
    requires parts { parts_of text.now ≡ [] → ⊥ }
    ensures path { IsPathText result.now }
    ensures last { IsLast (parts_of text.now) (parts_of result.now) }
    ensures shorter { length result.now < length text.now }
{
    match text.rfind('/') {
        Some(end) => &text[..end],
        None => "",
    }
}

// Whether a name goes on behind a text by a slash.
fn stands_below(name: &[u8], text: &[u8]) -> bool
    ensures { result ≡ stands_below text.now name.now }
{
    match name.strip_prefix(text) {
        Some(rest) => starts_below(rest),
        None => false,
    }
}

fn starts_below(rest: &[u8]) -> bool
    ensures { result ≡ starts_below rest.now }
{
    matches!(rest, [b'/', ..])
}
