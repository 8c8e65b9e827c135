// Reading the operands of a line.
ghost use Rattle.std.specs.Prelude.{◌≡◌, ◌≤◌, ◌<◌, ◌+◌, length, IfOk, Some, None, pos, negsuc, ◌≤ℤ◌};
ghost use Rattle.std.specs.Option.{option_copied};
ghost use Rattle.asm_text.specs.Pieces.{name as spec_name, natural as spec_natural, number as spec_number};
ghost use Rattle.asm_text.specs.Pieces.{place as spec_place, register as spec_register};
ghost use Rattle.asm_text.specs.Reading.{Gives, is_space, last, one, operand, three};
ghost use Rattle.asm_text.specs.Layout.{drop_while};

use crate::fault::TextKind;
use crate::pieces::{name, natural, number, place, register, small_immediate};
use asm_items::Name;
use asm_table::cut;

pub fn without_spaces(text: &[u8]) -> &[u8]
    ensures { result.now ≡ drop_while is_space text.now }
{
    for (i, byte) in text.iter().enumerate() {
        if *byte != b' ' {
            return &text[i..];
        }
    }
    &[]
}

fn next_operand(rest: Option<&[u8]>, wants_more: bool) -> Result<(&[u8], Option<&[u8]>), TextKind>
    ensures { Gives (λ x. (x.0.now, option_copied x.1)) result (operand wants_more (option_copied rest.entry)) }
{
    match rest {
        None => Err(TextKind::BadLine),
        Some(rest) => {
            if wants_more && rest.is_empty() {
                return Err(TextKind::BadLine);
            }
            match cut(rest, b',') {
                (piece, None) => Ok((piece, None)),
                (piece, Some(more)) => Ok((piece, Some(without_spaces(more)))),
            }
        }
    }
}

pub fn one_register(rest: Option<&[u8]>) -> Result<(u8, Option<&[u8]>), TextKind>
    ensures { Gives (λ x. (x.0, option_copied x.1)) result (one spec_register (option_copied rest.entry)) }
{
    let (piece, more) = next_operand(rest, true)?;
    let number = register(piece)?;
    Ok((number, more))
}

pub fn last_register(rest: Option<&[u8]>) -> Result<u8, TextKind>
    ensures { result ≡ last spec_register (option_copied rest.entry) }
{
    let (piece, more) = next_operand(rest, false)?;
    let number = register(piece)?;
    match more {
        None => Ok(number),
        Some(_) => Err(TextKind::BadLine),
    }
}

pub fn one_natural(rest: Option<&[u8]>, greatest: u32) -> Result<(u32, Option<&[u8]>), TextKind>
    ensures value { Gives (λ x. (x.0, option_copied x.1)) result
        (one (spec_natural greatest) (option_copied rest.entry)) }
    ensures bound { IfOk result (λ x. x.0 ≤ greatest) }
{
    let (piece, more) = next_operand(rest, true)?;
    let number = natural(piece, greatest)?;
    Ok((number, more))
}

pub fn last_number(rest: Option<&[u8]>, least: i128, greatest: i128) -> Result<i128, TextKind>
    requires low { negsuc 18446744073709551614 ≤ℤ least }
    requires high { greatest ≤ℤ pos 18446744073709551615 }
    ensures value { result ≡ last (spec_number least greatest) (option_copied rest.entry) }
    ensures bounds { IfOk result (λ z. (least ≤ℤ z) × (z ≤ℤ greatest)) }
{
    let (piece, more) = next_operand(rest, false)?;
    let z = number(piece, least, greatest)?;
    match more {
        None => Ok(z),
        Some(_) => Err(TextKind::BadLine),
    }
}

pub fn last_immediate(rest: Option<&[u8]>) -> Result<i32, TextKind>
    ensures { result ≡ last (spec_number (negsuc 2047) (pos 2047)) (option_copied rest.entry) }
{
    let (piece, more) = next_operand(rest, false)?;
    let z = small_immediate(piece)?;
    match more {
        None => Ok(z),
        Some(_) => Err(TextKind::BadLine),
    }
}

pub fn last_natural(rest: Option<&[u8]>, greatest: u32) -> Result<u32, TextKind>
    ensures value { result ≡ last (spec_natural greatest) (option_copied rest.entry) }
    ensures bound { IfOk result (λ n. n ≤ greatest) }
{
    let (piece, more) = next_operand(rest, false)?;
    let n = natural(piece, greatest)?;
    match more {
        None => Ok(n),
        Some(_) => Err(TextKind::BadLine),
    }
}

pub fn last_place(rest: Option<&[u8]>) -> Result<(i32, u8), TextKind>
    ensures { result ≡ last spec_place (option_copied rest.entry) }
{
    let (piece, more) = next_operand(rest, false)?;
    let at = place(piece)?;
    match more {
        None => Ok(at),
        Some(_) => Err(TextKind::BadLine),
    }
}

pub fn last_name(rest: Option<&[u8]>) -> Result<Name, TextKind>
    ensures { result ≡ last spec_name (option_copied rest.entry) }
{
    let (piece, more) = next_operand(rest, false)?;
    let found = name(piece)?;
    match more {
        None => Ok(found),
        Some(_) => Err(TextKind::BadLine),
    }
}

pub fn three_registers(rest: Option<&[u8]>) -> Result<(u8, u8, u8), TextKind>
    ensures { result ≡ three spec_register spec_register spec_register (option_copied rest.entry) }
{
    let (first, rest) = one_register(rest)?;
    let (second, rest) = one_register(rest)?;
    let third = last_register(rest)?;
    Ok((first, second, third))
}
