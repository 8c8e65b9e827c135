// What the commands `kernel` and `asm` put on the console.
ghost use Rattle.std.specs.Prelude.{◌≡◌, ◌≤◌, ◌+◌, ◌++◌, ◌∷◌, [], IfOk, OnOk, length, slice_index_or};
ghost use Rattle.fe_base.specs.Digits.{hexadecimal};
ghost use Rattle.spike_front.specs.Listings as spec;
ghost use Rattle.spike_front.specs.Listings.{Lists, kernel_listing};

use arrayvec::ArrayString;
use asm_text::print_asm;
use fe_base::{Bytes, push_hexadecimal};
use proxy_kernel::kernel_items;
use std::alloc::{AllocError, Global};

fn push_all(text: &mut Bytes, bytes: &[u8]) -> Result<(), AllocError>
    ensures { OnOk result (text.new ≡ text.old ++ bytes.now) }
{
    for byte in bytes {
        text.push(*byte)?;
    }
    Ok(())
}

// Adds the line of a word.
fn push_word(text: &mut Bytes, word: u32) -> Result<(), AllocError>
    ensures { OnOk result (text.new ≡ text.old ++ (hexadecimal 8 word ++ 10 ∷ [])) }
{
    let mut digits = ArrayString::<8>::new();
    push_hexadecimal(&mut digits, u64::from(word), 8);
    push_all(text, digits.as_str().as_bytes())?;
    text.push(b'\n')
}

// The word of the four bytes from a place on, lowest first.
fn word_at(bytes: &[u8], at: usize) -> u32
    requires { at + 4 ≤ length bytes.now }
    ensures { result ≡ spec.word_of (slice_index_or bytes.now at 0) (slice_index_or bytes.now (at + 1) 0)
        (slice_index_or bytes.now (at + 2) 0) (slice_index_or bytes.now (at + 3) 0) }
{
    u32::from(bytes[at])
        + 0x100 * u32::from(bytes[at + 1])
        + 0x1_0000 * u32::from(bytes[at + 2])
        + 0x100_0000 * u32::from(bytes[at + 3])
}

/// Each four bytes as a word of eight hexadecimal digits, with a newline.
pub fn word_lines(alloc: Global, bytes: &[u8]) -> Result<Bytes, AllocError>
    ensures { IfOk result (λ text. text ≡ spec.word_lines bytes.now) }
{
    let mut text = Bytes::new(alloc);
    let mut at = 0;
    'words: while bytes.len() - at >= 4 {
        push_word(&mut text, word_at(bytes, at))?;
        at += 4;
    }
    Ok(text)
}

/// The text of the kernel's items.
pub fn kernel_text(alloc: Global) -> Result<Bytes, AllocError>
    ensures { IfOk result (Lists kernel_listing) }
{
    let items = kernel_items(alloc)?;
    print_asm(alloc, items.as_slice())
}
