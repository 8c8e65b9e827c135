//! The bus of the target: two areas of RAM in one block, and the start word.
ghost use Rattle.std.specs.Prelude.{◌≡◌, ◌≤◌, ◌<◌, ◌^◌, ◌+◌, ◌-◌, ◌%◌, ◌==◌, ◌&&◌, if◌then◌else◌, nat_lt, IsTrue, IfOk, IfSome, is_some, length};
ghost use Rattle.std.specs.Bool.{OnTrue, OnFalse};
ghost use Rattle.std.specs.Borrow.{sem};
ghost use Rattle.core.specs.Bool.{then_some};
ghost use Rattle.fe_base.specs.MemoryMap.{user_start, kernel_start};
ghost use Rattle.guest_memory.specs.Bus as spec;
ghost use Rattle.guest_memory.specs.Bus.{IsBus, is_within, is_beat, beat, with_beat, bus_load, bus_store, bus_bytes, reset_bus};
ghost use Rattle.guest_memory.specs.Memory.{is_width};

use crate::ram::Ram;
use fe_base::memory_map::{KERNEL_END, KERNEL_START, START_WORD, USER_END, USER_START};
use std::alloc::{AllocError, Global};
use std::marker::Model;

// How many bytes the user area has, and both areas together.
const USER_SIZE: u64 = 0x0100_0000;

const RAM_SIZE: usize = 0x0101_0000;

/// The memory of the target, seen as the bytes of its two areas and the start word.
#[derive(Drop)]
pub struct Bus {
    // the user area, and behind it the kernel area
    ram: Ram,
    start: u64,
}

impl Model for Bus {
    ghost use Rattle.std.specs.Prelude.{◌≡◌, ◌<◌, ◌^◌, length, take, drop};
    ghost use Rattle.guest_memory.specs.Bus.{BusState, user_size};

    ghost Value = { BusState };

    ghost view = { λ b. record { user = take user_size b.ram; kernel = drop user_size b.ram; start = b.start } };

    ghost invariant = { λ b. (length b.ram ≡ 0x1010000) × (b.start < 2 ^ 64) };
}

// Where the byte of an address in RAM stands in the block.
#[inline(always)]
fn place_of(at: u64) -> usize
    requires { user_start ≤ at }
    ensures { result ≡ (if nat_lt at kernel_start then at - user_start else 0x1000000 + (at - kernel_start)) }
{
    if at < KERNEL_START {
        (at - USER_START) as usize
    } else {
        (USER_SIZE + (at - KERNEL_START)) as usize
    }
}

// `n` bytes from `at` on stand whole between two addresses.
#[inline(always)]
fn stands_within(first: u64, end: u64, at: u64, n: u64) -> bool
    requires { first ≤ end }
    ensures { result ≡ is_within first end at n }
{
    first <= at && at <= end && n <= end - at
}

/// `n` bytes from `at` on stand whole in one area of RAM. A range of no bytes does so where `at` stands in an area or at
/// its end.
#[inline(always)]
pub fn is_ram(at: u64, n: u64) -> bool
    ensures { result ≡ spec.is_ram at n }
{
    stands_within(USER_START, USER_END, at, n) || stands_within(KERNEL_START, KERNEL_END, at, n)
}

// A doubleword of RAM stands at `at`, a multiple of 8.
#[inline(always)]
fn is_ram_beat(at: u64) -> bool
    ensures { result ≡ (at % 8 == 0 && spec.is_ram at 8) }
{
    at % 8 == 0 && is_ram(at, 8)
}

impl Bus {
    ghost use Rattle.guest_memory.specs.LendsBytes.{LendsBytes};

    /// The bus at reset. Every byte of RAM and the start word are zero.
    pub fn new(alloc: Global) -> Result<Bus, AllocError>
        ensures { IfOk result (λ bus. bus ≡ reset_bus) }
    {
        let ram = Ram::new(alloc, RAM_SIZE)?;
        Ok(Bus { ram, start: 0 })
    }

    /// The number that 1, 2, 4 or 8 bytes of RAM spell, little endian.
    #[inline(always)]
    #[tactic(auto, using(crate::proofs::BusLemmas::steps))]
    pub fn load(&self, at: u64, width: usize) -> u64
        requires allowed { IsTrue (is_width width) }
        requires inside { IsTrue (spec.is_ram at width) }
        ensures value { result ≡ bus_load self.now at width }
        ensures fits { result < 256 ^ width }
        ensures whole { IsBus self.now }
    {
        self.ram.load(place_of(at), width)
    }

    /// As `load`, at any address. None where the bytes do not stand whole in one area of RAM.
    #[inline(always)]
    pub fn load_within(&self, at: u64, width: usize) -> Option<u64>
        requires { IsTrue (is_width width) }
        ensures value { result ≡ then_some (spec.is_ram at width) (bus_load self.now at width) }
        ensures fits { IfSome result (λ number. number < 256 ^ width) }
    {
        if stands_within(USER_START, USER_END, at, width as u64) {
            Some(self.load(at, width))
        } else if stands_within(KERNEL_START, KERNEL_END, at, width as u64) {
            Some(self.load(at, width))
        } else {
            None
        }
    }

    /// As `store`, at any address. False, and nothing is changed, where the bytes do not stand whole in one area of RAM.
    #[inline(always)]
    pub fn store_within(&mut self, at: u64, width: usize, value: u64) -> bool
        requires { IsTrue (is_width width) }
        ensures inside { result ≡ spec.is_ram at width }
        ensures after { OnTrue result (self.new ≡ bus_store self.old at width value) }
        ensures refused { OnFalse result (self.new ≡ self.old) }
    {
        if stands_within(USER_START, USER_END, at, width as u64) {
            self.store(at, width, value);
        } else if stands_within(KERNEL_START, KERNEL_END, at, width as u64) {
            self.store(at, width, value);
        } else {
            return false;
        }
        true
    }

    /// Puts the low 1, 2, 4 or 8 bytes of a number into RAM, little endian.
    #[inline(always)]
    #[tactic(auto, using(crate::proofs::BusLemmas::steps))]
    pub fn store(&mut self, at: u64, width: usize, value: u64)
        requires allowed { IsTrue (is_width width) }
        requires inside { IsTrue (spec.is_ram at width) }
        ensures { self.new ≡ bus_store self.old at width value }
    {
        self.ram.store(place_of(at), width, value);
    }

    /// Lends `n` bytes of RAM. Nothing is copied.
    pub fn bytes(&self, at: u64, n: u64) -> &[u8]
        requires { IsTrue (spec.is_ram at n) }
        ensures value { result.now ≡ bus_bytes self.now at n }
        ensures length { length result.now ≡ n }
    {
        self.ram.bytes(place_of(at), n as usize)
    }

    /// Lends `n` bytes of RAM to write. Nothing is copied.
    pub fn bytes_mut(&mut self, at: u64, n: u64) -> &mut [u8]
        requires { IsTrue (spec.is_ram at n) }
        ensures* writes_back { sem 𝓛 (LendsBytes self.entry at n result) }
        ensures value { result.now ≡ bus_bytes self.old at n }
        ensures length { length result.now ≡ n }
    {
        let place = place_of(at);
        let ram = &mut self.ram;
        ram.bytes_mut(place, n as usize)
    }

    /// Reads the doubleword at `at` in one transaction. None where `at` is no multiple of 8 or is not mapped.
    #[tactic(auto, using(crate::proofs::BusLemmas::beats))]
    pub fn read_beat(&self, at: u64) -> Option<u64>
        ensures value { result ≡ beat self.now at }
        ensures mapped { is_some result ≡ is_beat at }
    {
        if at == START_WORD {
            Some(self.start)
        } else if is_ram_beat(at) {
            Some(self.load(at, 8))
        } else {
            None
        }
    }

    /// Writes the doubleword at `at` in one transaction. False, and nothing is changed, where `at` is no multiple of 8 or is
    /// not mapped.
    #[tactic(auto, using(crate::proofs::BusLemmas::beats))]
    pub fn write_beat(&mut self, at: u64, value: u64) -> bool
        ensures mapped { result ≡ is_beat at }
        ensures after { self.new ≡ with_beat self.old at value }
        ensures refused { OnFalse result (self.new ≡ self.old) }
    {
        if at == START_WORD {
            self.start = value;
        } else if is_ram_beat(at) {
            self.store(at, 8, value);
        } else {
            return false;
        }
        true
    }
}
