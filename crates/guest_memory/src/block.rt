//! One raw block of bytes.
ghost use Rattle.std.specs.Prelude.{◌≡◌, ℕ, ◌+◌, ◌<◌, ◌≤◌, ◌^◌, List, slice_range, length, replicate, IfOk};
ghost use Rattle.std.specs.Borrow.{full_share, sem, u8};
ghost use Rattle.std.specs.Ptr.{lies_at};
ghost use denote.Array.{Array};
ghost use denote.RawPtr.{Ptr, room_for};
ghost use denote.Struct.Lending.{lent_at};
ghost use Rattle.guest_memory.specs.Ownership.{bytes_type};

use std::alloc::{AllocError, Allocator};
use std::marker::{Model, PhantomData};
use std::slice;

/// The bytes that lie at a pointer. It frees nothing by itself.
pub(crate) struct Block {
    ptr: *mut u8,
    len: usize,
    pub(crate) ghost bytes: { List ℕ },
    ghost small: { len < 2 ^ 63 },
}

impl Model for Block {
    ghost also_owns = { λ b. lies_at (Array u8 b.len) full_share b.ptr b.bytes };

    ghost also_shares = { λ b _ κ. lent_at (Array u8 b.len) b.ptr b.bytes κ };
}

/// The right to give the block back. It takes no space.
pub(crate) struct Deed<A: Allocator> {
    marker: PhantomData<A>,
    ghost alloc: { A },
    ghost ptr: { Ptr },
    ghost size: { ℕ },
}

impl<A: Allocator> Model for Deed<A> {
    ghost also_owns = { λ d. A.dealloc_token d.alloc (bytes_type d.size) d.ptr };
}

// Zeroes memory in which nothing lies yet.
unsafe fn zero(ptr: *mut u8, len: usize)
    requires* { sem 𝓛 (room_for (bytes_type len) ptr) }
    ensures* { sem 𝓛 (lies_at (Array u8 len) full_share ptr (replicate len 0)) }
{
    let mut i = 0;
    while i < len {
        unsafe {
            ptr.add(i).write(0);
        }
        i += 1;
    }
}

impl Block {
    ghost use Rattle.guest_memory.specs.Lending.{LendsSome};

    pub(crate) fn allocate<A: Allocator>(
        alloc: &A,
        size: usize,
    ) -> Result<(Block, Deed<A>), AllocError>
        requires { size < 2 ^ 63 }
        ensures { IfOk result (λ r. (r.0.bytes ≡ replicate size 0) × (r.1.alloc ≡ alloc.now) × (r.1.ptr ≡ r.0.ptr) × (r.1.size ≡ r.0.len)) }
    {
        match alloc.allocate(size, 1) {
            Ok(ptr) => {
                unsafe { zero(ptr, size) }
                let marker = PhantomData;
                Ok((Block { ptr, len: size }, Deed { marker }))
            }
            Err(error) => Err(error),
        }
    }

    pub(crate) fn free<A: Allocator>(self, deed: Deed<A>, alloc: &A)
        requires { (deed.alloc ≡ alloc.now) × (deed.ptr ≡ self.ptr) × (deed.size ≡ self.len) }
    {
        let Block { ptr, len } = self;
        let Deed { marker: _ } = deed;
        unsafe { alloc.deallocate(ptr, len, 1) }
    }

    pub(crate) fn as_slice(&self) -> &[u8]
        ensures { result.now ≡ self.now.bytes }
    {
        unsafe { slice::from_raw_parts(self.ptr, self.len) }
    }

    pub(crate) fn part_mut(&mut self, at: usize, n: usize) -> &mut [u8]
        requires { at + n ≤ length self.old.bytes }
        ensures* writes_back { sem 𝓛 (LendsSome self.entry at n result) }
        ensures value { result.now ≡ slice_range self.old.bytes at (at + n) }
    {
        unsafe { slice::from_raw_parts_mut(self.ptr.add(at), n) }
    }
}
