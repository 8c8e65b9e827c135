//! A list of bytes over one raw block.
ghost use Rattle.std.specs.Prelude.{◌≡◌, ℕ, ◌+◌, ◌≤◌, ◌<◌, ◌^◌, List, length, IfOk, IsTrue, slice_range};
ghost use Rattle.std.specs.Borrow.{sem};
ghost use Rattle.guest_memory.specs.Memory.{zeros, load, store, is_width, AreBytes};

use crate::block::{Block, Deed};
use byteorder::{ByteOrder, LittleEndian};
use std::alloc::{AllocError, Global};
use std::marker::Model;

/// A fixed number of bytes, seen as the list of them. A place is counted from its first byte.
pub struct Ram {
    alloc: Global,
    block: Block,
    deed: Deed<Global>,
}

impl Model for Ram {
    ghost Value = { List ℕ };

    ghost view = { λ r. r.block.bytes };

    ghost invariant = { λ r. (r.deed.alloc ≡ r.alloc) × (r.deed.ptr ≡ r.block.ptr) × (r.deed.size ≡ r.block.len) };
}

impl Drop for Ram {
    fn drop(self) {
        let Ram { alloc, block, deed } = self;
        block.free(deed, &alloc);
    }
}

impl Ram {
    ghost use Rattle.guest_memory.specs.LendsPart.{LendsPart};

    /// So many bytes, all zero.
    #[tactic(auto, unfolding(crate::specs::Memory::zeros))]
    pub fn new(alloc: Global, size: usize) -> Result<Ram, AllocError>
        ensures bytes { IfOk result (λ ram. ram ≡ zeros size) }
        ensures length { IfOk result (λ ram. length ram ≡ size) }
    {
        if size > 0x7fff_ffff_ffff_ffff {
            return Err(AllocError);
        }
        let (block, deed) = Block::allocate(&alloc, size)?;
        Ok(Ram { alloc, block, deed })
    }

    /// The number that 1, 2, 4 or 8 bytes spell, little endian.
    #[inline(always)]
    #[tactic(auto, unfolding(crate::specs::Memory::load))]
    pub fn load(&self, at: usize, width: usize) -> u64
        requires allowed { IsTrue (is_width width) }
        requires inside { at + width ≤ length self.now }
        ensures value { result ≡ load self.now at width }
        ensures fits { result < 256 ^ width }
        ensures bytes { AreBytes self.now }
    {
        let bytes = self.block.as_slice();
        match width {
            1 => u64::from(bytes[at]),
            2 => u64::from(LittleEndian::read_u16(&bytes[at..])),
            4 => u64::from(LittleEndian::read_u32(&bytes[at..])),
            _ => LittleEndian::read_u64(&bytes[at..]),
        }
    }

    /// Puts the low 1, 2, 4 or 8 bytes of a number, little endian.
    #[inline(always)]
    #[tactic(auto, using(crate::proofs::MemoryLemmas::lengths), unfolding(crate::specs::Memory::store))]
    pub fn store(&mut self, at: usize, width: usize, value: u64)
        requires allowed { IsTrue (is_width width) }
        requires inside { at + width ≤ length self.old }
        ensures value { self.new ≡ store self.old at width value }
        ensures length { length self.new ≡ length self.old }
    {
        let bytes = self.block.part_mut(at, width);
        match width {
            1 => bytes[0] = (value & 0xff) as u8,
            2 => LittleEndian::write_u16(bytes, (value & 0xffff) as u16),
            4 => LittleEndian::write_u32(bytes, (value & 0xffff_ffff) as u32),
            _ => LittleEndian::write_u64(bytes, value),
        }
    }

    /// Lends `n` bytes. Nothing is copied.
    pub fn bytes(&self, at: usize, n: usize) -> &[u8]
        requires { at + n ≤ length self.now }
        ensures { result.now ≡ slice_range self.now at (at + n) }
    {
        &self.block.as_slice()[at..at + n]
    }

    /// Lends `n` bytes to write. Nothing is copied.
    pub fn bytes_mut(&mut self, at: usize, n: usize) -> &mut [u8]
        requires { at + n ≤ length self.old }
        ensures* writes_back { sem 𝓛 (LendsPart self.entry at n result) }
        ensures value { result.now ≡ slice_range self.old at (at + n) }
    {
        let block = &mut self.block;
        block.part_mut(at, n)
    }
}
