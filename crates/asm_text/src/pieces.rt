// What a piece of a line stands for.
ghost use Rattle.std.specs.Prelude.{◌≡◌, ◌≤◌, ◌<◌, ◌+◌, ◌*◌, ◌^◌, length, true, IfOk, IfSome, Some, None, pos, negsuc};
ghost use Rattle.std.specs.Prelude.{◌≤ℤ◌};
ghost use Rattle.std.specs.Option.{option_copied};
ghost use Rattle.asm_text.specs.Layout.{ends_with, without_last};
ghost use Rattle.asm_text.specs.Pieces.{digit, digit_value, digits, fault_at, more_digits, natural as spec_natural};
ghost use Rattle.asm_text.specs.Pieces.{name as spec_name, number as spec_number, short, small_number};
ghost use Rattle.asm_text.specs.Pieces.{text as spec_text, place as spec_place, register as spec_register, small};
ghost use Rattle.asm_text.specs.Pieces.{string_of, string_rest, within, natural_within};

use crate::fault::TextKind;
use crate::layout::{all_but_last, ends_in};
use crate::strings::string_in;
use asm_items::{Name, Text};
use asm_table::{cut, register_named};

// The fault of a piece: a byte above 0x7F at its start has the lowest number.
pub fn fault(piece: &[u8], kind: TextKind) -> TextKind
    ensures { result ≡ fault_at piece.now kind }
{
    match piece {
        [] => kind,
        [first, ..] if *first > 127 => TextKind::BadLine,
        _ => kind,
    }
}

/// The register of this name.
pub fn register(piece: &[u8]) -> Result<u8, TextKind>
    ensures value { result ≡ spec_register piece.now }
{
    match register_named(piece) {
        Some(number) => Ok(number),
        None => Err(fault(piece, TextKind::BadRegister)),
    }
}

fn value_of_digit(byte: u8) -> Option<u8>
    ensures { result ≡ digit_value byte }
{
    match byte {
        b'0'..=b'9' => Some(byte - b'0'),
        b'a'..=b'f' => Some(byte - b'a' + 10),
        b'A'..=b'F' => Some(byte - b'A' + 10),
        _ => None,
    }
}

fn digit_of(base: u8, byte: u8) -> Option<u8>
    ensures { result ≡ digit base byte }
{
    match value_of_digit(byte) {
        Some(value) if value < base => Some(value),
        _ => None,
    }
}

fn grown(number: u64, base: u8, digit: u8) -> Option<u64>
    ensures { result ≡ small (Some (number * base + digit)) }
{
    match number.checked_mul(u64::from(base)) {
        None => None,
        Some(product) => product.checked_add(u64::from(digit)),
    }
}

// The number that the digits spell, where it is below 2^64.
fn some_digits(base: u8, text: &[u8]) -> Option<u64>
    requires { 0 < base }
    ensures { result ≡ small (more_digits base 0 text.now) }
{
    let mut number = 0;
    for byte in text {
        let Some(digit) = digit_of(base, *byte) else {
            return None;
        };
        match grown(number, base, digit) {
            None => return None,
            Some(next) => number = next,
        }
    }
    Some(number)
}

fn digits_of(base: u8, text: &[u8]) -> Option<u64>
    requires { 0 < base }
    ensures { result ≡ small (digits base text.now) }
{
    match text {
        [] => None,
        _ => some_digits(base, text),
    }
}

// The number that the piece spells, where its digits stand for one below 2^64.
fn number_in(piece: &[u8]) -> Option<i128>
    ensures { result ≡ small_number piece.now }
{
    match piece {
        [b'-', digits @ ..] => Some(-i128::from(digits_of(10, digits)?)),
        [b'0', b'x', digits @ ..] => Some(i128::from(digits_of(16, digits)?)),
        _ => Some(i128::from(digits_of(10, piece)?)),
    }
}

fn in_range(z: Option<i128>, least: i128, greatest: i128) -> Option<i128>
    ensures value { result ≡ within least greatest z }
    ensures bounds { IfSome result (λ z. (least ≤ℤ z) × (z ≤ℤ greatest)) }
{
    match z {
        Some(z) if least <= z && z <= greatest => Some(z),
        _ => None,
    }
}

fn natural_in_range(z: Option<i128>, greatest: u32) -> Option<u32>
    ensures value { result ≡ natural_within greatest z }
    ensures bound { IfSome result (λ n. n ≤ greatest) }
{
    match z {
        Some(z) if 0 <= z && z <= i128::from(greatest) => Some(z as u32),
        _ => None,
    }
}

/// The number that the piece spells, from the least to the greatest.
#[tactic(auto, using(crate::proofs::Numbers::small_number_within))]
pub fn number(piece: &[u8], least: i128, greatest: i128) -> Result<i128, TextKind>
    requires low { negsuc 18446744073709551614 ≤ℤ least }
    requires high { greatest ≤ℤ pos 18446744073709551615 }
    ensures value { result ≡ spec_number least greatest piece.now }
    ensures bounds { IfOk result (λ z. (least ≤ℤ z) × (z ≤ℤ greatest)) }
{
    match in_range(number_in(piece), least, greatest) {
        Some(z) => Ok(z),
        None => Err(fault(piece, TextKind::BadNumber)),
    }
}

/// The number that the piece spells, from 0 to the greatest.
#[tactic(auto, using(crate::proofs::Numbers::small_number_natural))]
pub fn natural(piece: &[u8], greatest: u32) -> Result<u32, TextKind>
    ensures value { result ≡ spec_natural greatest piece.now }
    ensures bound { IfOk result (λ n. n ≤ greatest) }
{
    match natural_in_range(number_in(piece), greatest) {
        Some(n) => Ok(n),
        None => Err(fault(piece, TextKind::BadNumber)),
    }
}

/// The number of 12 bits that the piece spells.
pub fn small_immediate(piece: &[u8]) -> Result<i32, TextKind>
    ensures { result ≡ spec_number (negsuc 2047) (pos 2047) piece.now }
{
    match number(piece, -2048, 2047) {
        Ok(z) => Ok(z as i32),
        Err(kind) => Err(kind),
    }
}

/// The number and the register of a place in memory.
pub fn place(piece: &[u8]) -> Result<(i32, u8), TextKind>
    ensures { result ≡ spec_place piece.now }
{
    match cut(piece, b'(') {
        (before, Some(inside)) if ends_in(inside, b')') => {
            let imm = small_immediate(before)?;
            let base = register(all_but_last(inside))?;
            Ok((imm, base))
        }
        _ => Err(TextKind::BadLine),
    }
}

/// The name that the piece is.
pub fn name(piece: &[u8]) -> Result<Name, TextKind>
    ensures { result ≡ spec_name piece.now }
{
    match Name::new(piece) {
        Some(name) => Ok(name),
        None => Err(fault(piece, TextKind::BadLabel)),
    }
}

/// The text that the piece is, between its quotes.
pub fn text(piece: &[u8]) -> Result<Text, TextKind>
    ensures { result ≡ spec_text piece.now }
{
    match string_in(piece) {
        Some(text) => Ok(text),
        None => Err(fault(piece, TextKind::BadLine)),
    }
}
