// Reads a program file.
ghost use Rattle.std.specs.Prelude.{◌≡◌, ◌<◌, ◌≤◌, ◌+◌, ◌↔◌, ◌++◌, [], ◌∷◌, false, length, take, drop, map, filter};
ghost use Rattle.std.specs.Prelude.{All, IfOk, OnOk, Some, None, Err};
ghost use Rattle.std.specs.List.{position_from};
ghost use Rattle.elf_loader.specs.ProgramHeader.{is_segment, is_cut, segment_of_header};
ghost use Rattle.elf_loader.specs.Rules.{user_rules};
ghost use Rattle.elf_loader.specs.Segment as spec;
ghost use Rattle.elf_loader.specs.ElfFile.{fault_of, image_of, IsFit, IsFitSegment};
ghost use Rattle.elf_loader.specs.declared.fault.ElfFault.{ElfFault};

use crate::check::{headers_of, user_fault_of};
use crate::header::{Headers, ProgramHeader, u64_at};
use crate::{ElfStop, Image, Segments};
use fe_base::limits::STACK_TOP;
use std::alloc::{AllocError, Global};

// The bytes that the file gives for a header.
fn file_bytes<'a>(file: &'a [u8], header: &ProgramHeader) -> &'a [u8]
    requires { header.now.offset + header.now.file_size ≤ length file.now }
    ensures { result.now ≡ take header.now.file_size (drop header.now.offset file.now) }
{
    &file[header.offset as usize..][..header.file_size as usize]
}

// What one header puts into memory, behind what is there.
fn load_header(
    alloc: Global,
    file: &[u8],
    header: &ProgramHeader,
    segments: &mut Segments,
) -> Result<(), AllocError>
    requires { is_cut (length file.now) header.now ≡ false }
    ensures { OnOk result (segments.new ≡ segments.old
        ++ map (segment_of_header file.now) (filter is_segment (header.now ∷ []))) }
{
    if !header.is_segment() {
        return Ok(());
    }
    let bytes = file_bytes(file, header).to_vec(alloc)?;
    segments.push(header.address, header.memory_size, bytes)?;
    Ok(())
}

// What the headers put into memory.
fn load(alloc: Global, file: &[u8], headers: &Headers) -> Result<Segments, AllocError>
    requires { position_from (is_cut (length file.now)) 0 headers.now ≡ None }
    ensures { IfOk result (λ segments. segments ≡ map (segment_of_header file.now) (filter is_segment headers.now)) }
{
    let mut segments = Segments::new(alloc);
    for i in 0..headers.len() {
        let header = headers.get(i);
        load_header(alloc, file, &header, &mut segments)?;
    }
    Ok(segments)
}

// The first address behind all segments.
fn greatest_end(segments: &Segments) -> u64
    requires { All (λ s. spec.end_of s ≤ STACK_TOP) segments.now }
    ensures { result ≡ spec.greatest_end segments.now }
{
    let mut greatest = 0;
    for i in 0..segments.len() {
        greatest = (segments.address(i) + segments.size(i)).max(greatest);
    }
    greatest
}

/// The image of a program file, or why there is none. Finding a fault takes no memory. The time grows with the file's
/// length, and with the square of the number of its program headers.
pub fn read_elf(alloc: Global, file: &[u8]) -> Result<Image, ElfStop>
    // A file is refused exactly for its first fault, whatever memory there is.
    ensures bad { (fault : ElfFault) → (result ≡ Err (ElfStop.Bad fault)) ↔ (fault_of file.now ≡ Some fault) }
    ensures image { IfOk result (λ image. (fault_of file.now ≡ None) × (image ≡ image_of file.now)) }
    // What was read may be run.
    ensures fit { IfOk result (IsFit user_rules) }
{
    if let Some(fault) = user_fault_of(file) {
        return Err(ElfStop::Bad(fault));
    }
    let segments = load(alloc, file, &headers_of(file))?;
    let first_break = greatest_end(&segments).next_multiple_of(16);
    Ok(Image {
        entry: u64_at(file, 24),
        segments,
        first_break,
    })
}

#[cfg(test)]
mod tests;
