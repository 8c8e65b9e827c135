// What the host writes before the hart begins.
ghost use Rattle.std.specs.Prelude.{◌≡◌, [], ◌∷◌, map};
ghost use Rattle.chunk_memory.specs.BeatChunks.{bytes_of};
ghost use Rattle.target_box.specs.Lined.{lined};
ghost use Rattle.target_box.specs.Turn.{IsUsable};
ghost use Rattle.target_box.specs.declared.target.Link.TheVariants as link_of;
ghost use Rattle.fe_base.specs.MemoryMap.{kernel_start};
ghost use Rattle.tether_base.specs.Texts.{loads_of, segment_range};
ghost use Rattle.tether_base.specs.ToldActs.{LineWritten};
ghost use Rattle.tether_session.specs.Begins.{Begins, Loads};

use asm_items::Code;
use byteorder::{ByteOrder, LittleEndian};
use chunk_memory::MemStop;
use direct_ranges::write_range;
use elf_loader::Image;
use fe_base::Sink;
use fe_base::memory_map::{BOOT, START_WORD};
use target_box::Target;

// The program's entry and its first break, a doubleword each.
fn boot_block(image: &Image) -> [u8; 16]
    ensures { result ≡ bytes_of (image.now.entry ∷ image.now.first_break ∷ []) }
{
    let mut block = [0; 16];
    LittleEndian::write_u64(&mut block[..8], image.entry);
    LittleEndian::write_u64(&mut block[8..], image.first_break);
    block
}

// Writes a range by transactions.
fn put_range<R: Sink>(
    target: &mut Target,
    trace: &mut R,
    at: u64,
    from: &[u8],
) -> Result<(), MemStop>
    requires { IsUsable link_of.Direct target.old }
    ensures usable { IsUsable link_of.Direct target.new }
    ensures written { LineWritten (lined target.old (R.held trace.old)) at from.now result
        (lined target.new (R.held trace.new)) }
{
    write_range(target, trace, at, from)
}

// Writes each segment's bytes of the file, in the order of the file's headers.
fn load_segments<R: Sink>(target: &mut Target, trace: &mut R, image: &Image) -> Result<(), MemStop>
    requires { IsUsable link_of.Direct target.old }
    ensures usable { IsUsable link_of.Direct target.new }
    ensures loads { Loads (map segment_range image.now.segments) (lined target.old (R.held trace.old)) result
        (lined target.new (R.held trace.new)) }
{
    for i in 0..image.segments.len() {
        put_range(
            target,
            trace,
            image.segments.address(i),
            image.segments.bytes(i),
        )?;
    }
    Ok(())
}

/// Writes the kernel's image, each segment's bytes and the boot block, and then 1 to the start word.
pub fn load<R: Sink>(
    target: &mut Target,
    trace: &mut R,
    kernel: &Code,
    image: &Image,
) -> Result<(), MemStop>
    requires usable { IsUsable link_of.Direct target.old }
    requires base { kernel.now.base ≡ kernel_start }
    ensures usable { IsUsable link_of.Direct target.new }
    ensures begins { Begins (loads_of kernel.now.bytes image.now) (lined target.old (R.held trace.old)) result
        (lined target.new (R.held trace.new)) }
{
    put_range(target, trace, kernel.base, kernel.bytes.as_slice())?;
    load_segments(target, trace, image)?;
    put_range(target, trace, BOOT, &boot_block(image))?;
    put_range(target, trace, START_WORD, &1u64.to_le_bytes())
}
