// Reading the lines of a text.
ghost use Rattle.std.specs.Prelude.{◌≡◌, ◌≤◌, ◌<◌, ◌+◌, length, Some, None};
ghost use Rattle.std.specs.Option.{option_copied};
ghost use Rattle.std.specs.List.{list_any};
ghost use Rattle.asm_text.specs.Reading.{bare_item, is_high, item_of, line_item, operands_in, worded};

use crate::fault::TextKind;
use crate::layout::{all_but_last, bare_line, ends_in};
use crate::operands::{
    last_immediate, last_name, last_natural, last_number, last_place, last_register, one_natural,
    one_register, three_registers, without_spaces,
};
use crate::pieces::{fault, name, text};
use asm_items::{Item, Name};
use asm_table::{
    BareOp, CsrImmediateOp, CsrOp, ImmediateOp, LoadOp, Op, RegisterOp, ShiftOp, ShortShiftOp,
    StoreOp, UpperOp, bare_insn, csr_immediate_insn, csr_insn, cut, immediate_insn, load_insn,
    op_named, registers_insn, shift_insn, short_shift_insn, store_insn, upper_insn,
};
use rv_decode::Cond;

#[tactic(auto, unfolding(crate::specs::Reading::item_of))]
fn read_registers(op: RegisterOp, rest: Option<&[u8]>) -> Result<Item, TextKind>
    ensures { result ≡ item_of (Op.Registers op) (option_copied rest.entry) }
{
    let (rd, rs1, rs2) = three_registers(rest)?;
    Ok(Item::Plain(registers_insn(op, rd, rs1, rs2)))
}

#[tactic(auto, unfolding(crate::specs::Reading::item_of))]
fn read_immediate(op: ImmediateOp, rest: Option<&[u8]>) -> Result<Item, TextKind>
    ensures { result ≡ item_of (Op.Immediate op) (option_copied rest.entry) }
{
    let (rd, rest) = one_register(rest)?;
    let (rs1, rest) = one_register(rest)?;
    let imm = last_immediate(rest)?;
    Ok(Item::Plain(immediate_insn(op, rd, rs1, imm)))
}

#[tactic(auto, unfolding(crate::specs::Reading::item_of))]
fn read_shift(op: ShiftOp, rest: Option<&[u8]>) -> Result<Item, TextKind>
    ensures { result ≡ item_of (Op.Shift op) (option_copied rest.entry) }
{
    let (rd, rest) = one_register(rest)?;
    let (rs1, rest) = one_register(rest)?;
    let amount = last_natural(rest, 63)?;
    Ok(Item::Plain(shift_insn(op, rd, rs1, amount as u8)))
}

#[tactic(auto, unfolding(crate::specs::Reading::item_of))]
fn read_short_shift(op: ShortShiftOp, rest: Option<&[u8]>) -> Result<Item, TextKind>
    ensures { result ≡ item_of (Op.ShortShift op) (option_copied rest.entry) }
{
    let (rd, rest) = one_register(rest)?;
    let (rs1, rest) = one_register(rest)?;
    let amount = last_natural(rest, 31)?;
    Ok(Item::Plain(short_shift_insn(op, rd, rs1, amount as u8)))
}

#[tactic(auto, unfolding(crate::specs::Reading::item_of))]
fn read_load(op: LoadOp, rest: Option<&[u8]>) -> Result<Item, TextKind>
    ensures { result ≡ item_of (Op.Load op) (option_copied rest.entry) }
{
    let (rd, rest) = one_register(rest)?;
    let (imm, rs1) = last_place(rest)?;
    Ok(Item::Plain(load_insn(op, rd, rs1, imm)))
}

#[tactic(auto, unfolding(crate::specs::Reading::item_of))]
fn read_store(op: StoreOp, rest: Option<&[u8]>) -> Result<Item, TextKind>
    ensures { result ≡ item_of (Op.Store op) (option_copied rest.entry) }
{
    let (rs2, rest) = one_register(rest)?;
    let (imm, rs1) = last_place(rest)?;
    Ok(Item::Plain(store_insn(op, rs1, rs2, imm)))
}

#[tactic(auto, unfolding(crate::specs::Reading::item_of))]
fn read_upper(op: UpperOp, rest: Option<&[u8]>) -> Result<Item, TextKind>
    ensures { result ≡ item_of (Op.Upper op) (option_copied rest.entry) }
{
    let (rd, rest) = one_register(rest)?;
    let imm = last_natural(rest, 0xfffff)?;
    Ok(Item::Plain(upper_insn(op, rd, imm)))
}

#[tactic(auto, unfolding(crate::specs::Reading::item_of))]
fn read_csr(op: CsrOp, rest: Option<&[u8]>) -> Result<Item, TextKind>
    ensures { result ≡ item_of (Op.Csr op) (option_copied rest.entry) }
{
    let (rd, rest) = one_register(rest)?;
    let (csr, rest) = one_natural(rest, 4095)?;
    let rs1 = last_register(rest)?;
    Ok(Item::Plain(csr_insn(op, rd, rs1, csr as u16)))
}

#[tactic(auto, unfolding(crate::specs::Reading::item_of))]
fn read_csr_immediate(op: CsrImmediateOp, rest: Option<&[u8]>) -> Result<Item, TextKind>
    ensures { result ≡ item_of (Op.CsrImmediate op) (option_copied rest.entry) }
{
    let (rd, rest) = one_register(rest)?;
    let (csr, rest) = one_natural(rest, 4095)?;
    let imm = last_natural(rest, 31)?;
    Ok(Item::Plain(csr_immediate_insn(op, rd, imm as u8, csr as u16)))
}

#[tactic(auto, unfolding(crate::specs::Reading::item_of))]
fn read_bare(op: BareOp, rest: Option<&[u8]>) -> Result<Item, TextKind>
    ensures { result ≡ item_of (Op.Bare op) (option_copied rest.entry) }
{
    match rest {
        None => Ok(Item::Plain(bare_insn(op))),
        Some(_) => Err(TextKind::BadLine),
    }
}

#[tactic(auto, unfolding(crate::specs::Reading::item_of))]
fn read_branch(cond: Cond, rest: Option<&[u8]>) -> Result<Item, TextKind>
    ensures { result ≡ item_of (Op.Branch cond) (option_copied rest.entry) }
{
    let (rs1, rest) = one_register(rest)?;
    let (rs2, rest) = one_register(rest)?;
    let label = last_name(rest)?;
    Ok(Item::Branch(cond, rs1, rs2, label))
}

#[tactic(auto, unfolding(crate::specs::Reading::item_of))]
fn read_jump(rest: Option<&[u8]>) -> Result<Item, TextKind>
    ensures { result ≡ item_of Op.Jump (option_copied rest.entry) }
{
    let (rd, rest) = one_register(rest)?;
    let label = last_name(rest)?;
    Ok(Item::Jump(rd, label))
}

#[tactic(auto, unfolding(crate::specs::Reading::item_of))]
fn read_address(rest: Option<&[u8]>) -> Result<Item, TextKind>
    ensures { result ≡ item_of Op.Address (option_copied rest.entry) }
{
    let (rd, rest) = one_register(rest)?;
    let label = last_name(rest)?;
    Ok(Item::Address(rd, label))
}

#[tactic(auto, unfolding(crate::specs::Reading::item_of))]
fn read_dword(rest: Option<&[u8]>) -> Result<Item, TextKind>
    ensures { result ≡ item_of Op.Dword (option_copied rest.entry) }
{
    let z = last_number(rest, -0x8000_0000_0000_0000, 0xffff_ffff_ffff_ffff)?;
    let value = if z < 0 {
        (z as i64).cast_unsigned()
    } else {
        z as u64
    };
    Ok(Item::Dword(value))
}

#[tactic(auto, unfolding(crate::specs::Reading::item_of))]
fn read_ascii(rest: Option<&[u8]>) -> Result<Item, TextKind>
    ensures { result ≡ item_of Op.Ascii (option_copied rest.entry) }
{
    match rest {
        None => Err(TextKind::BadLine),
        Some(rest) => {
            let found = text(rest)?;
            Ok(Item::Ascii(found))
        }
    }
}

fn read_operands(op: Op, rest: Option<&[u8]>) -> Result<Item, TextKind>
    ensures { result ≡ item_of op (option_copied rest.entry) }
{
    match op {
        Op::Registers(op) => read_registers(op, rest),
        Op::Immediate(op) => read_immediate(op, rest),
        Op::Shift(op) => read_shift(op, rest),
        Op::ShortShift(op) => read_short_shift(op, rest),
        Op::Load(op) => read_load(op, rest),
        Op::Store(op) => read_store(op, rest),
        Op::Upper(op) => read_upper(op, rest),
        Op::Csr(op) => read_csr(op, rest),
        Op::CsrImmediate(op) => read_csr_immediate(op, rest),
        Op::Bare(op) => read_bare(op, rest),
        Op::Branch(cond) => read_branch(cond, rest),
        Op::Jump => read_jump(rest),
        Op::Address => read_address(rest),
        Op::Dword => read_dword(rest),
        Op::Ascii => read_ascii(rest),
    }
}

fn operands(rest: Option<&[u8]>) -> Option<&[u8]>
    ensures { option_copied result ≡ operands_in (option_copied rest.entry) }
{
    match rest {
        None => None,
        Some(rest) => {
            let operands = without_spaces(rest);
            if operands.is_empty() {
                None
            } else {
                Some(operands)
            }
        }
    }
}

fn read_words(line: &[u8]) -> Result<Item, TextKind>
    ensures { result ≡ worded line.now }
{
    let (word, rest) = cut(line, b' ');
    match op_named(word) {
        None => Err(fault(word, TextKind::UnknownName)),
        Some(op) => read_operands(op, operands(rest)),
    }
}

fn read_bare_line(line: &[u8]) -> Result<Option<Item>, TextKind>
    ensures { result ≡ bare_item line.now }
{
    if line.is_empty() {
        return Ok(None);
    }
    if ends_in(line, b':') {
        let label = name(all_but_last(line))?;
        return Ok(Some(Item::Label(label)));
    }
    let item = read_words(line)?;
    Ok(Some(item))
}

fn is_high_byte(byte: u8) -> bool
    ensures { result ≡ is_high byte }
{
    byte > 127
}

fn has_high_byte(line: &[u8]) -> bool
    ensures { result ≡ list_any is_high line.now }
{
    line.iter().any(|byte| is_high_byte(*byte))
}

/// The item of a line, if it has one.
#[tactic(auto, unfolding(crate::specs::Reading::line_item))]
pub fn read_line(line: &[u8]) -> Result<Option<Item>, TextKind>
    ensures { result ≡ line_item line.now }
{
    let found = read_bare_line(bare_line(line))?;
    if has_high_byte(line) {
        return Err(TextKind::BadLine);
    }
    Ok(found)
}
