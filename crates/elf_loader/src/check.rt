// Looks for the first fault of a file.
ghost use Rattle.std.specs.Prelude.{◌≡◌, ◌<◌, ◌≤◌, ◌+◌, ◌*◌, length, drop, IsNone};
ghost use Rattle.std.specs.List.{list_any, position_from};
ghost use Rattle.elf_loader.specs.ProgramHeader.{is_dynamic, is_cut, is_outside, segments_meet, segment_holds};
ghost use Rattle.elf_loader.specs.Faults.{first_fault};
ghost use Rattle.elf_loader.specs.Rules.{aligned_rules};
ghost use Rattle.elf_loader.specs.ElfFile as spec;
ghost use Rattle.elf_loader.specs.ElfFile.{fault_by, fault_of, identification_rows, file_header_rows};
ghost use Rattle.elf_loader.specs.ElfFile.{program_header_rows, headers_place, headers_count};

use crate::ElfFault;
use crate::area::Area;
use crate::header::{Headers, ProgramHeader, u16_at, u32_at, u64_at};
use fe_base::limits::{ELF_FILE_LIMIT, STACK_TOP};
use fe_base::memory_map::USER_START;

const FILE_HEADER_BYTES: usize = 64;

const MAGIC: [u8; 4] = [0x7f, 0x45, 0x4c, 0x46];

const RISCV: u16 = 243;

// Where the segments of a program that the kernel runs may stand.
const USER_AREAS: [Area; 1] = [Area {
    start: USER_START,
    end: STACK_TOP,
}];

// Such a program begins at a multiple of this.
const ENTRY_ALIGNMENT: u64 = 4;

// RVC, the float ABI and RVE.
const REFUSED_FLAGS: u32 = 0xf;

#[tactic(auto, unfolding(crate::specs::ElfFile::identification_rows))]
fn identification_fault(file: &[u8]) -> Option<ElfFault>
    ensures fault { result ≡ first_fault (identification_rows file.now) }
    ensures long_enough { IsNone result → 64 ≤ length file.now }
{
    if file.len() as u64 > ELF_FILE_LIMIT {
        return Some(ElfFault::TooLarge);
    }
    if file.len() < FILE_HEADER_BYTES {
        return Some(ElfFault::Short);
    }
    if &file[..4] != MAGIC.as_slice() {
        return Some(ElfFault::Magic);
    }
    if file[4] != 2 {
        return Some(ElfFault::Class);
    }
    if file[5] != 1 {
        return Some(ElfFault::Order);
    }
    if file[6] != 1 || u32_at(file, 20) != 1 {
        return Some(ElfFault::Version);
    }
    None
}

#[tactic(auto, unfolding(crate::specs::ElfFile::file_header_rows))]
fn file_header_fault(file: &[u8]) -> Option<ElfFault>
    requires { 64 ≤ length file.now }
    ensures fault { result ≡ first_fault (file_header_rows file.now) }
    ensures headers_inside { IsNone result → headers_place file.now + 56 * headers_count file.now ≤ length file.now }
{
    if u16_at(file, 16) != 2 {
        return Some(ElfFault::Kind);
    }
    if u16_at(file, 18) != RISCV {
        return Some(ElfFault::Machine);
    }
    if u32_at(file, 48) & REFUSED_FLAGS != 0 {
        return Some(ElfFault::Flags);
    }
    if u16_at(file, 52) != 64 || u16_at(file, 54) != 56 {
        return Some(ElfFault::HeaderSize);
    }
    let headers_end = u128::from(u64_at(file, 32)) + 56 * u128::from(u16_at(file, 56));
    if headers_end > file.len() as u128 {
        return Some(ElfFault::Headers);
    }
    None
}

fn any_dynamic(headers: &Headers) -> bool
    ensures { result ≡ list_any is_dynamic headers.now }
{
    for i in 0..headers.len() {
        let header = headers.get(i);
        if header.is_dynamic() {
            return true;
        }
    }
    false
}

fn first_cut(headers: &Headers, file_length: usize) -> Option<u16>
    ensures { result ≡ position_from (is_cut file_length) 0 headers.now }
{
    for i in 0..headers.len() {
        let header = headers.get(i);
        if header.is_cut(file_length) {
            return Some(i);
        }
    }
    None
}

fn first_outside(headers: &Headers, areas: &[Area]) -> Option<u16>
    ensures { result ≡ position_from (is_outside areas.now) 0 headers.now }
{
    for i in 0..headers.len() {
        let header = headers.get(i);
        if header.is_outside(areas) {
            return Some(i);
        }
    }
    None
}

// The first header from this number on that meets the one that is given.
fn first_that_meets(headers: &Headers, header: &ProgramHeader, from: u16) -> Option<u16>
    requires { from ≤ length headers.now }
    ensures { result ≡ position_from (segments_meet header.now) from (drop from headers.now) }
{
    for j in from..headers.len() {
        let other = headers.get(j);
        if header.meets(&other) {
            return Some(j);
        }
    }
    None
}

fn first_meeting(headers: &Headers) -> Option<(u16, u16)>
    ensures { result ≡ spec.first_meeting 0 headers.now }
{
    for i in 0..headers.len() {
        let header = headers.get(i);
        if let Some(j) = first_that_meets(headers, &header, i + 1) {
            return Some((i, j));
        }
    }
    None
}

fn any_holds(headers: &Headers, address: u64) -> bool
    ensures { result ≡ list_any (segment_holds address) headers.now }
{
    for i in 0..headers.len() {
        let header = headers.get(i);
        if header.holds(address) {
            return true;
        }
    }
    false
}

// The first fault of the program headers and of the entry, at which a program may begin or not.
#[tactic(auto, unfolding(crate::specs::ElfFile::program_header_rows))]
fn program_header_fault(
    headers: &Headers,
    file_length: usize,
    areas: &[Area],
    entry: u64,
    may_enter: bool,
) -> Option<ElfFault>
    ensures { result ≡ first_fault (program_header_rows areas.now may_enter file_length entry headers.now) }
{
    if any_dynamic(headers) {
        return Some(ElfFault::Dynamic);
    }
    if let Some(i) = first_cut(headers, file_length) {
        return Some(ElfFault::Segment(i));
    }
    if let Some(i) = first_outside(headers, areas) {
        return Some(ElfFault::Outside(i));
    }
    if let Some((i, j)) = first_meeting(headers) {
        return Some(ElfFault::Overlap(i, j));
    }
    if !may_enter || !any_holds(headers, entry) {
        return Some(ElfFault::Entry);
    }
    None
}

// The program headers of a file that holds them all.
pub fn headers_of(file: &[u8]) -> Headers<'_>
    requires long_enough { 64 ≤ length file.now }
    requires inside { headers_place file.now + 56 * headers_count file.now ≤ length file.now }
    ensures { result ≡ spec.headers_of file.now }
{
    Headers::new(file, u64_at(file, 32) as usize, u16_at(file, 56))
}

// The first fault of a file whose segments have to stand in these areas, and whose entry at a multiple of this.
pub fn first_fault_of(file: &[u8], areas: &[Area], alignment: u64) -> Option<ElfFault>
    requires { 0 < alignment }
    ensures fault { result ≡ fault_by (aligned_rules areas.now alignment) file.now }
    ensures long_enough { IsNone result → 64 ≤ length file.now }
    ensures headers_inside { IsNone result → headers_place file.now + 56 * headers_count file.now ≤ length file.now }
{
    if let Some(fault) = identification_fault(file) {
        return Some(fault);
    }
    if let Some(fault) = file_header_fault(file) {
        return Some(fault);
    }
    let entry = u64_at(file, 24);
    let headers = headers_of(file);
    program_header_fault(&headers, file.len(), areas, entry, entry % alignment == 0)
}

// The first fault of a file as a program that the kernel runs.
#[tactic(auto, unfolding(crate::specs::Rules::user_rules))]
pub fn user_fault_of(file: &[u8]) -> Option<ElfFault>
    ensures fault { result ≡ fault_of file.now }
    ensures long_enough { IsNone result → 64 ≤ length file.now }
    ensures headers_inside { IsNone result → headers_place file.now + 56 * headers_count file.now ≤ length file.now }
{
    first_fault_of(file, &USER_AREAS, ENTRY_ALIGNMENT)
}
