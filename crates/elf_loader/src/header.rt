// The program headers of a file.
ghost use Rattle.std.specs.Prelude.{◌≡◌, ◌<◌, ◌≤◌, ◌+◌, ◌*◌, length, Some, slice_get};
ghost use Rattle.elf_loader.specs.ProgramHeader as spec;
ghost use Rattle.elf_loader.specs.ProgramHeader.{number_at};
ghost use Rattle.elf_loader.specs.Rules.{is_inside, lies_in};

use crate::area::Area;
use byteorder::{ByteOrder, LittleEndian};
use std::marker::Model;

const HEADER_BYTES: usize = 56;

#[tactic(auto, unfolding(crate::specs::ProgramHeader::number_at))]
pub fn u16_at(file: &[u8], place: usize) -> u16
    requires { place + 2 ≤ length file.now }
    ensures { result ≡ number_at 2 place file.now }
{
    LittleEndian::read_u16(&file[place..])
}

#[tactic(auto, unfolding(crate::specs::ProgramHeader::number_at))]
pub fn u32_at(file: &[u8], place: usize) -> u32
    requires { place + 4 ≤ length file.now }
    ensures { result ≡ number_at 4 place file.now }
{
    LittleEndian::read_u32(&file[place..])
}

#[tactic(auto, unfolding(crate::specs::ProgramHeader::number_at))]
pub fn u64_at(file: &[u8], place: usize) -> u64
    requires { place + 8 ≤ length file.now }
    ensures { result ≡ number_at 8 place file.now }
{
    LittleEndian::read_u64(&file[place..])
}

// The fields of a program header that count here.
#[derive(Clone, Copy)]
pub struct ProgramHeader {
    pub kind: u32,
    pub offset: u64,
    pub address: u64,
    pub file_size: u64,
    pub memory_size: u64,
}

#[tactic(auto, unfolding(crate::specs::ProgramHeader::header_at))]
fn header_at(file: &[u8], place: usize) -> ProgramHeader
    requires { place + 56 ≤ length file.now }
    ensures { result ≡ spec.header_at place file.now }
{
    ProgramHeader {
        kind: u32_at(file, place),
        offset: u64_at(file, place + 8),
        address: u64_at(file, place + 16),
        file_size: u64_at(file, place + 32),
        memory_size: u64_at(file, place + 40),
    }
}

const LOADED: u32 = 1;

const DYNAMIC: u32 = 2;

const INTERPRETER: u32 = 3;

impl ProgramHeader {
    // The first address behind its memory.
    fn end(&self) -> u128
        ensures { result ≡ self.now.address + self.now.memory_size }
    {
        u128::from(self.address) + u128::from(self.memory_size)
    }

    pub fn is_dynamic(&self) -> bool
        ensures { result ≡ spec.is_dynamic self.now }
    {
        self.kind == DYNAMIC || self.kind == INTERPRETER
    }

    pub fn is_segment(&self) -> bool
        ensures { result ≡ spec.is_segment self.now }
    {
        self.kind == LOADED && self.memory_size != 0
    }

    pub fn is_cut(&self, file_length: usize) -> bool
        ensures { result ≡ spec.is_cut file_length self.now }
    {
        let file_end = u128::from(self.offset) + u128::from(self.file_size);
        self.kind == LOADED && (self.file_size > self.memory_size || file_end > file_length as u128)
    }

    // Whether its memory lies in the area.
    fn lies_in(&self, area: &Area) -> bool
        ensures { result ≡ lies_in self.now.address self.now.memory_size area.now }
    {
        self.address >= area.start && self.end() <= u128::from(area.end)
    }

    fn is_inside(&self, areas: &[Area]) -> bool
        ensures { result ≡ is_inside areas.now self.now.address self.now.memory_size }
    {
        areas.iter().any(|area| self.lies_in(area))
    }

    pub fn is_outside(&self, areas: &[Area]) -> bool
        ensures { result ≡ spec.is_outside areas.now self.now }
    {
        self.is_segment() && !self.is_inside(areas)
    }

    pub fn meets(&self, other: &ProgramHeader) -> bool
        ensures { result ≡ spec.segments_meet self.now other.now }
    {
        self.is_segment()
            && other.is_segment()
            && u128::from(self.address) < other.end()
            && u128::from(other.address) < self.end()
    }

    pub fn holds(&self, address: u64) -> bool
        ensures { result ≡ spec.segment_holds address self.now }
    {
        self.is_segment() && self.address <= address && u128::from(address) < self.end()
    }
}

// All program headers of a file, in its order.
#[derive(Drop)]
pub struct Headers<'a> {
    file: &'a [u8],
    place: usize,
    count: u16,
}

impl<'a> Model for Headers<'a> {
    ghost use Rattle.std.specs.Prelude.{List, length, ◌≤◌, ◌+◌, ◌*◌};
    ghost use Rattle.elf_loader.specs.declared.header.ProgramHeader.{ProgramHeader};
    ghost use Rattle.elf_loader.specs.ProgramHeader.{headers_from};

    ghost Value = { List ProgramHeader };

    ghost view = { λ h. headers_from h.file.now h.place h.count };

    ghost invariant = { λ h. h.place + 56 * h.count ≤ length h.file.now };
}

impl<'a> Headers<'a> {
    pub fn new(file: &'a [u8], place: usize, count: u16) -> Headers<'a>
        requires { place + 56 * count ≤ length file.now }
        ensures { result ≡ spec.headers_from file.now place count }
    {
        Headers { file, place, count }
    }

    pub fn len(&self) -> u16
        ensures { result ≡ length self.now }
    {
        self.count
    }

    pub fn get(&self, i: u16) -> ProgramHeader
        requires { i < length self.now }
        ensures { slice_get self.now i ≡ Some result }
    {
        header_at(self.file, self.place + HEADER_BYTES * i as usize)
    }
}
