use crate::{kernel_image, kernel_items};
use fe_base::memory_map::KERNEL_START;
use std::test::Fail;

// The first and the last words, and some between, by LLVM's assembler (llvm-mc 14, --triple=riscv64): the AUIPC of the
// frame, the write of mtvec, the first wait, MRET, the first branch of a call, the sum that makes a digit, the last jump.
static WORDS: [(usize, u32); 7] = [
    (0, 0x0000_8f97),
    (5, 0x3050_9073),
    (24, 0xfe00_8ee3),
    (30, 0x3020_0073),
    (69, 0x0858_8e63),
    (320, 0x0065_0533),
    (335, 0x0000_006f),
];

#[test]
fn the_kernel_is_assembled(rt: HostRuntime) -> Result<(), Fail> {
    let items = kernel_items(rt.alloc())?;
    assert_eq!(rt; items.len(), 372);
    let image = kernel_image(rt.alloc())?;
    assert_eq!(rt; image.base, KERNEL_START);
    let bytes = image.bytes.as_slice();
    assert_eq!(rt; bytes.len(), 1344);
    for (place, word) in &WORDS {
        let rest = bytes.get(place * 4..).ok_or("no word")?;
        let first = rest.first_chunk::<4>().ok_or("no word")?;
        assert_eq!(rt; u32::from_le_bytes(*first), *word, "at {place}");
    }
    Ok(())
}
