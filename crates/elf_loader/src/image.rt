// What a program file puts into memory.
ghost use Rattle.std.specs.Prelude.{◌≡◌, ◌<◌, ◌++◌, [], ◌∷◌, length, OnOk};
ghost use Rattle.elf_loader.specs.Segment.{segment_at};

use std::alloc::{AllocError, Global};
use std::marker::Model;

#[derive(Drop)]
struct Loaded {
    address: u64,
    size: u64,
    bytes: Vec<u8>,
}

/// The parts of memory that a program file fills, in the order of its headers: for each an address, how many bytes it
/// takes, and the bytes that the file gives for its front. The others are zeros.
#[derive(Drop)]
pub struct Segments {
    loaded: Vec<Loaded>,
}

impl Model for Segments {
    ghost use Rattle.std.specs.Prelude.{List, map};
    ghost use Rattle.elf_loader.specs.Segment.{Segment};

    ghost Value = { List Segment };

    ghost use Rattle.elf_loader.specs.Loaded.{segment_of};

    ghost view = { λ s. map segment_of s.loaded.items };
}

impl Segments {
    pub(crate) fn new(alloc: Global) -> Self
        ensures { result ≡ [] }
    {
        Segments {
            loaded: Vec::new(alloc),
        }
    }

    pub(crate) fn push(&mut self, address: u64, size: u64, bytes: Vec<u8>) -> Result<(), AllocError>
        ensures { OnOk result (self.new ≡ self.old ++ (record { address = address; size = size; bytes = bytes.items })
            ∷ []) }
    {
        self.loaded.push(Loaded {
            address,
            size,
            bytes,
        })?;
        Ok(())
    }

    /// How many segments there are.
    pub fn len(&self) -> usize
        ensures { result ≡ length self.now }
    {
        self.loaded.len()
    }

    /// Where the segment begins.
    pub fn address(&self, i: usize) -> u64
        requires { i < length self.now }
        ensures { result ≡ (segment_at self.now i).address }
    {
        self.loaded[i].address
    }

    /// How many bytes of memory the segment takes.
    pub fn size(&self, i: usize) -> u64
        requires { i < length self.now }
        ensures { result ≡ (segment_at self.now i).size }
    {
        self.loaded[i].size
    }

    /// The file's bytes for the front of the segment.
    pub fn bytes(&self, i: usize) -> &[u8]
        requires { i < length self.now }
        ensures { result.now ≡ (segment_at self.now i).bytes }
    {
        &self.loaded[i].bytes
    }
}

/// What an accepted file asks for: where the program begins, what stands in memory then, and where its heap begins.
#[derive(Drop)]
pub struct Image {
    /// The address of the first instruction.
    pub entry: u64,
    /// The parts of memory that the file fills.
    pub segments: Segments,
    /// The first address behind all segments, rounded up to a multiple of 16.
    pub first_break: u64,
}
