// Writing items as text.
ghost use Rattle.std.specs.Prelude.{◌≡◌, ◌≤◌, ◌++◌, [], ◌∷◌, length, true, All, IfOk, Ok, OnOk};
ghost use Rattle.std.specs.List.{flat_map};
ghost use Rattle.std.specs.Fmt.{decimal, signed_decimal};
ghost use Rattle.asm_items.specs.Printable.{is_insn_printable, IsPrintable};
ghost use Rattle.asm_text.specs.Texts.{text_items};
ghost use Rattle.asm_text.specs.Printing.{escaped, HasWords, IsHeld, numbers, place_text, PrintsAll, PrintsItem, reg};
ghost use Rattle.asm_text.specs.Printing.{spelled_op, spelled_pieces, words, Writes};

use crate::spelled::{Spelled, spell};
use arrayvec::ArrayVec;
use asm_items::Item;
use asm_table::{Op, name_of};
use fe_base::Bytes;
use itoa::Buffer;
use rv_decode::Insn;
use std::alloc::{AllocError, Global};

fn put(out: &mut Bytes, bytes: &[u8]) -> Result<(), AllocError>
    ensures { OnOk result (out.new ≡ out.old ++ bytes.now) }
{
    for byte in bytes {
        out.push(*byte)?;
    }
    Ok(())
}

fn put_three(
    out: &mut Bytes,
    name: &[u8],
    first: &[u8],
    second: &[u8],
    third: &[u8],
) -> Result<(), AllocError>
    ensures { OnOk result (out.new ≡ out.old ++ words name.now (first.now ∷ second.now ∷ third.now ∷ [])) }
{
    put(out, b"    ")?;
    put(out, name)?;
    put(out, b" ")?;
    put(out, first)?;
    put(out, b", ")?;
    put(out, second)?;
    put(out, b", ")?;
    put(out, third)
}

fn put_two(out: &mut Bytes, name: &[u8], first: &[u8], second: &[u8]) -> Result<(), AllocError>
    ensures { OnOk result (out.new ≡ out.old ++ words name.now (first.now ∷ second.now ∷ [])) }
{
    put(out, b"    ")?;
    put(out, name)?;
    put(out, b" ")?;
    put(out, first)?;
    put(out, b", ")?;
    put(out, second)
}

fn put_one(out: &mut Bytes, name: &[u8], first: &[u8]) -> Result<(), AllocError>
    ensures { OnOk result (out.new ≡ out.old ++ words name.now (first.now ∷ [])) }
{
    put(out, b"    ")?;
    put(out, name)?;
    put(out, b" ")?;
    put(out, first)
}

fn put_none(out: &mut Bytes, name: &[u8]) -> Result<(), AllocError>
    ensures { OnOk result (out.new ≡ out.old ++ words name.now []) }
{
    put(out, b"    ")?;
    put(out, name)
}

fn three(
    out: &mut Bytes,
    op: Op,
    first: &[u8],
    second: &[u8],
    third: &[u8],
) -> Result<(), AllocError>
    ensures { OnOk result (Writes out.old out.new (HasWords op (first.now ∷ second.now ∷ third.now ∷ []))) }
{
    put_three(out, name_of(op), first, second, third)
}

fn two(out: &mut Bytes, op: Op, first: &[u8], second: &[u8]) -> Result<(), AllocError>
    ensures { OnOk result (Writes out.old out.new (HasWords op (first.now ∷ second.now ∷ []))) }
{
    put_two(out, name_of(op), first, second)
}

fn one(out: &mut Bytes, op: Op, first: &[u8]) -> Result<(), AllocError>
    ensures { OnOk result (Writes out.old out.new (HasWords op (first.now ∷ []))) }
{
    put_one(out, name_of(op), first)
}

fn none(out: &mut Bytes, op: Op) -> Result<(), AllocError>
    ensures { OnOk result (Writes out.old out.new (HasWords op [])) }
{
    put_none(out, name_of(op))
}

/// A written operand.
type Piece = ArrayVec<u8, 96>;

fn natural_piece(n: u64) -> Piece
    ensures value { result.items ≡ decimal n }
    ensures bound { length result.items ≤ 40 }
{
    let mut piece = ArrayVec::new();
    let mut buffer = Buffer::new();
    piece
        .try_extend_from_slice(buffer.format(n).as_bytes())
        .unwrap();
    piece
}

fn number_piece(z: i32) -> Piece
    ensures value { result.items ≡ signed_decimal z }
    ensures bound { length result.items ≤ 40 }
{
    let mut piece = ArrayVec::new();
    let mut buffer = Buffer::new();
    piece
        .try_extend_from_slice(buffer.format(z).as_bytes())
        .unwrap();
    piece
}

fn register_piece(n: u8) -> Piece
    ensures value { result.items ≡ reg n }
    ensures bound { length result.items ≤ 41 }
{
    let mut piece = ArrayVec::new();
    let mut buffer = Buffer::new();
    piece.push(b'x');
    piece
        .try_extend_from_slice(buffer.format(n).as_bytes())
        .unwrap();
    piece
}

fn put_spelled(out: &mut Bytes, spelled: Spelled) -> Result<(), AllocError>
    ensures { OnOk result (Writes out.old out.new (HasWords (spelled_op spelled) (spelled_pieces spelled))) }
{
    match spelled {
        Spelled::Registers(op, rd, rs1, rs2) => three(
            out,
            Op::Registers(op),
            register_piece(rd).as_slice(),
            register_piece(rs1).as_slice(),
            register_piece(rs2).as_slice(),
        ),
        Spelled::Immediate(op, rd, rs1, imm) => three(
            out,
            Op::Immediate(op),
            register_piece(rd).as_slice(),
            register_piece(rs1).as_slice(),
            number_piece(imm).as_slice(),
        ),
        Spelled::Shift(op, rd, rs1, amount) => three(
            out,
            Op::Shift(op),
            register_piece(rd).as_slice(),
            register_piece(rs1).as_slice(),
            natural_piece(u64::from(amount)).as_slice(),
        ),
        Spelled::ShortShift(op, rd, rs1, amount) => three(
            out,
            Op::ShortShift(op),
            register_piece(rd).as_slice(),
            register_piece(rs1).as_slice(),
            natural_piece(u64::from(amount)).as_slice(),
        ),
        Spelled::Load(op, rd, rs1, imm) => two(
            out,
            Op::Load(op),
            register_piece(rd).as_slice(),
            place_piece(imm, rs1).as_slice(),
        ),
        Spelled::Store(op, rs1, rs2, imm) => two(
            out,
            Op::Store(op),
            register_piece(rs2).as_slice(),
            place_piece(imm, rs1).as_slice(),
        ),
        Spelled::Upper(op, rd, imm) => two(
            out,
            Op::Upper(op),
            register_piece(rd).as_slice(),
            natural_piece(u64::from(imm)).as_slice(),
        ),
        Spelled::Csr(op, rd, rs1, csr) => three(
            out,
            Op::Csr(op),
            register_piece(rd).as_slice(),
            natural_piece(u64::from(csr)).as_slice(),
            register_piece(rs1).as_slice(),
        ),
        Spelled::CsrImmediate(op, rd, imm, csr) => three(
            out,
            Op::CsrImmediate(op),
            register_piece(rd).as_slice(),
            natural_piece(u64::from(csr)).as_slice(),
            natural_piece(u64::from(imm)).as_slice(),
        ),
        Spelled::Bare(op) => none(out, Op::Bare(op)),
    }
}

fn place_piece(imm: i32, base: u8) -> Piece
    ensures { result.items ≡ place_text imm base }
{
    let mut piece = number_piece(imm);
    piece.push(b'(');
    piece
        .try_extend_from_slice(register_piece(base).as_slice())
        .unwrap();
    piece.push(b')');
    piece
}

fn put_plain(out: &mut Bytes, insn: Insn) -> Result<(), AllocError>
    requires { is_insn_printable insn ≡ true }
    ensures { OnOk result (Writes out.old out.new (PrintsItem (Item.Plain insn))) }
{
    let spelled = spell(insn).unwrap();
    put_spelled(out, spelled)
}

fn put_label(out: &mut Bytes, name: &[u8]) -> Result<(), AllocError>
    ensures { OnOk result (out.new ≡ out.old ++ (name.now ++ 58 ∷ [])) }
{
    put(out, name)?;
    put(out, b":")
}

fn put_escaped(out: &mut Bytes, byte: u8) -> Result<(), AllocError>
    ensures { OnOk result (out.new ≡ out.old ++ escaped byte) }
{
    match byte {
        b'\n' => put(out, b"\\n"),
        b'"' => put(out, b"\\\""),
        b'\\' => put(out, b"\\\\"),
        _ => out.push(byte),
    }
}

fn put_text(out: &mut Bytes, text: &[u8]) -> Result<(), AllocError>
    ensures { OnOk result (out.new ≡ out.old ++ flat_map escaped text.now) }
{
    for byte in text {
        put_escaped(out, *byte)?;
    }
    Ok(())
}

fn put_ascii(out: &mut Bytes, name: &[u8], text: &[u8]) -> Result<(), AllocError>
    ensures { OnOk result (out.new ≡ out.old ++ words name.now ((34 ∷ (flat_map escaped text.now ++ 34 ∷ [])) ∷ [])) }
{
    put(out, b"    ")?;
    put(out, name)?;
    put(out, b" \"")?;
    put_text(out, text)?;
    put(out, b"\"")
}

fn put_item(out: &mut Bytes, item: &Item) -> Result<(), AllocError>
    requires { IsPrintable item.now }
    ensures prints { OnOk result (Writes out.old out.new (PrintsItem item.now)) }
    ensures held { OnOk result (IsHeld item.now) }
{
    match item {
        Item::Plain(insn) => put_plain(out, *insn),
        Item::Branch(cond, rs1, rs2, name) => three(
            out,
            Op::Branch(*cond),
            register_piece(*rs1).as_slice(),
            register_piece(*rs2).as_slice(),
            name.as_slice(),
        ),
        Item::Jump(rd, name) => two(
            out,
            Op::Jump,
            register_piece(*rd).as_slice(),
            name.as_slice(),
        ),
        Item::Address(rd, name) => two(
            out,
            Op::Address,
            register_piece(*rd).as_slice(),
            name.as_slice(),
        ),
        Item::Label(name) => put_label(out, name.as_slice()),
        Item::Dword(value) => one(out, Op::Dword, natural_piece(*value).as_slice()),
        Item::Ascii(text) => put_ascii(out, name_of(Op::Ascii), text.as_slice()),
    }
}

/// The text of the items, a line each: `name:`, or four spaces, the mnemonic, a space and the operands with a
/// comma and a space between each two, registers by their x names and numbers in decimal. Reading it gives
/// the same items, on the lines from 1 on.
pub fn print_asm(alloc: Global, items: &[Item]) -> Result<Bytes, AllocError>
    requires { All IsPrintable items.now }
    ensures text { IfOk result (PrintsAll items.now) }
    ensures back { IfOk result (λ text. text_items text ≡ Ok (items.now, numbers 1 (length items.now))) }
{
    let mut out = Bytes::new(alloc);
    for item in items {
        put_item(&mut out, item)?;
        out.push(b'\n')?;
    }
    Ok(out)
}
