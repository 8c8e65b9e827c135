// From items to code.
ghost use Rattle.std.specs.Prelude.{◌≡◌, ◌<◌, ◌≤◌, ◌+◌, ◌*◌, ◌++◌, ◌^◌, [], ◌∷◌, ℕ, List, length, pos, negsuc};
ghost use Rattle.std.specs.Prelude.{replicate, OnOk, MatchResult, IfOk, IfSome, All, true, ◌≤ℤ◌, Some, None};
ghost use Rattle.std.specs.Prelude.{if◌then◌else◌};
ghost use Rattle.std.specs.Int.{w32, w64, to_le_bytes};
ghost use Rattle.rv_decode.specs.Fits.{FitsSignedBits, IsEven, IsFit};
ghost use Rattle.asm_items.specs.ItemMeaning.{address, address_parts, assembled, branch, Code as IsCode, Fails, filled};
ghost use Rattle.asm_items.specs.ItemMeaning.{HoldsParts, IsItemFit, parts_of, Grows, offset, offset_found, is_within};
ghost use Rattle.asm_items.specs.ItemMeaning.{Puts, total_words};
ghost use Rattle.asm_items.specs.LabelMap.{look_up};
ghost use Rattle.rv_decode.specs.declared.instruction.Insn.TheVariants.{Jal};

use crate::fault::AsmFault;
use crate::item::Item;
use crate::labels::{Labels, words_in};
use crate::name::Name;
use fe_base::Bytes;
use rv_decode::{Cond, Insn, encode};
use std::alloc::{AllocError, Global};

/// Assembled code, and the address at which it is to stand.
#[derive(Drop)]
pub struct Code {
    pub base: u64,
    pub bytes: Bytes,
}

// Adds the four bytes of an instruction.
fn put_insn(code: &mut Bytes, insn: Insn) -> Result<(), AllocError>
    requires { IsFit insn }
    ensures { OnOk result (Grows code.old code.new (IsCode insn ∷ [])) }
{
    put_bytes(code, &encode(insn).to_le_bytes())
}

fn put_bytes(code: &mut Bytes, bytes: &[u8]) -> Result<(), AllocError>
    ensures { OnOk result (code.new ≡ code.old ++ bytes.now) }
{
    for byte in bytes {
        code.push(*byte)?;
    }
    Ok(())
}

fn put_filled(code: &mut Bytes, text: &[u8]) -> Result<(), AllocError>
    requires { length text.now ≤ 1024 }
    ensures { OnOk result (code.new ≡ code.old ++ filled text.now) }
{
    put_bytes(code, text)?;
    put_zeros(code, text.len().div_ceil(4) * 4 - text.len())
}

fn put_zeros(code: &mut Bytes, count: usize) -> Result<(), AllocError>
    ensures { OnOk result (code.new ≡ code.old ++ replicate count 0) }
{
    for _ in 0..count {
        code.push(0)?;
    }
    Ok(())
}

fn branch_insn(cond: Cond, rs1: u8, rs2: u8, offset: i32) -> Insn
    requires rs1 { rs1 < 32 }
    requires rs2 { rs2 < 32 }
    requires reach { FitsSignedBits 13 offset }
    requires even { IsEven offset }
    ensures value { result ≡ branch cond rs1 rs2 offset }
    ensures fit { IsFit result }
{
    match cond {
        Cond::Eq => Insn::Beq { rs1, rs2, offset },
        Cond::Ne => Insn::Bne { rs1, rs2, offset },
        Cond::Lt => Insn::Blt { rs1, rs2, offset },
        Cond::Ge => Insn::Bge { rs1, rs2, offset },
        Cond::Ltu => Insn::Bltu { rs1, rs2, offset },
        Cond::Geu => Insn::Bgeu { rs1, rs2, offset },
    }
}

fn put_branch(code: &mut Bytes, cond: Cond, rs1: u8, rs2: u8, offset: i32) -> Result<(), AllocError>
    requires rs1 { rs1 < 32 }
    requires rs2 { rs2 < 32 }
    requires reach { FitsSignedBits 13 offset }
    requires even { IsEven offset }
    ensures { OnOk result (Grows code.old code.new (IsCode (branch cond rs1 rs2 offset) ∷ [])) }
{
    put_insn(code, branch_insn(cond, rs1, rs2, offset))
}

fn put_jump(code: &mut Bytes, rd: u8, offset: i32) -> Result<(), AllocError>
    requires rd { rd < 32 }
    requires reach { FitsSignedBits 21 offset }
    requires even { IsEven offset }
    ensures { OnOk result (Grows code.old code.new (IsCode (Jal rd offset) ∷ [])) }
{
    put_insn(code, Insn::Jal { rd, offset })
}

fn put_address(code: &mut Bytes, rd: u8, offset: i64) -> Result<(), AllocError>
    requires rd { rd < 32 }
    requires least { negsuc 2147485695 ≤ℤ offset }
    requires greatest { offset ≤ℤ pos 2147481599 }
    ensures { OnOk result (Grows code.old code.new (address_parts rd offset)) }
{
    let raised = (offset + 0x800) as i32;
    let bits = raised.cast_unsigned();
    put_insn(
        code,
        Insn::Auipc {
            rd,
            imm: bits >> 12,
        },
    )?;
    put_insn(
        code,
        Insn::Addi {
            rd,
            rs1: rd,
            imm: (bits % 0x1000) as i32 - 0x800,
        },
    )
}

// Where an item stands: the address of the first item, its index, and how many words stand before it.
#[derive(Clone, Copy)]
struct Here {
    base: u64,
    index: u64,
    place: u64,
}

// Adds what an item stands for.
fn put_item(code: &mut Bytes, labels: &Labels<'_>, here: Here, item: &Item) -> Result<(), AsmFault>
    requires place { address here.base here.place < 2 ^ 64 }
    requires spots { (name : List ℕ) → IfSome (look_up labels.now name) (λ spot. address here.base spot.1 < 2 ^ 64) }
    requires fit { IsItemFit item.now }
    ensures { Puts code.old code.new result (parts_of (look_up labels.now) here.base here.index here.place item.now) }
{
    match item {
        Item::Plain(insn) => Ok(put_insn(code, *insn)?),
        Item::Branch(cond, rs1, rs2, name) => {
            let offset = reached(labels, here, name, -4096, 4094)?;
            Ok(put_branch(code, *cond, *rs1, *rs2, offset as i32)?)
        }
        Item::Jump(rd, name) => {
            let offset = reached(labels, here, name, -1_048_576, 1_048_574)?;
            Ok(put_jump(code, *rd, offset as i32)?)
        }
        Item::Address(rd, name) => {
            let offset = reached(labels, here, name, -2_147_485_696, 2_147_481_599)?;
            Ok(put_address(code, *rd, offset)?)
        }
        Item::Label(name) => match labels.find(name.as_slice()) {
            Some((first, _)) if first != here.index => Err(AsmFault::LabelTwice(here.index)),
            _ => Ok(()),
        },
        Item::Dword(value) => Ok(put_bytes(code, &value.to_le_bytes())?),
        Item::Ascii(text) => Ok(put_filled(code, text.as_slice())?),
    }
}

// The offset from where an item stands to the first label of this name, where it is within reach.
fn reached(
    labels: &Labels<'_>,
    here: Here,
    name: &Name,
    least: i64,
    greatest: i64,
) -> Result<i64, AsmFault>
    requires place { address here.base here.place < 2 ^ 64 }
    requires spots { (name : List ℕ) → IfSome (look_up labels.now name) (λ spot. address here.base spot.1 < 2 ^ 64) }
    ensures value { result ≡ offset_found here.base here.index here.place (look_up labels.now name.now) least greatest }
    ensures within { IfOk result (λ z. (least ≤ℤ z) × (z ≤ℤ greatest)) }
    ensures even { IfOk result IsEven }
{
    match labels.find(name.as_slice()) {
        None => Err(AsmFault::UnknownLabel(here.index)),
        Some((_, target)) => {
            checked_offset(here, target, least, greatest).ok_or(AsmFault::OutOfReach(here.index))
        }
    }
}

// The offset from where an item stands to a place, where it is within reach.
#[tactic(auto, using(crate::proofs::Offsets::offset_even, crate::proofs::Offsets::is_within_true, crate::proofs::Offsets::is_within_low, crate::proofs::Offsets::is_within_high))]
fn checked_offset(here: Here, target: u64, least: i64, greatest: i64) -> Option<i64>
    requires place { address here.base here.place < 2 ^ 64 }
    requires target { address here.base target < 2 ^ 64 }
    ensures value { result ≡ (if is_within least greatest (offset here.base here.place target)
        then Some (offset here.base here.place target) else None) }
    ensures within { IfSome result (λ z. (least ≤ℤ z) × (z ≤ℤ greatest)) }
    ensures even { IfSome result IsEven }
{
    let from = here.base + 4 * here.place;
    let offset = i128::from(here.base + 4 * target) - i128::from(from);
    if offset < i128::from(least) {
        return None;
    }
    if offset > i128::from(greatest) {
        return None;
    }
    Some(offset as i64)
}

/// The code that the items stand for, to stand at the address `base`, with its labels there; or the first fault
/// among the items. Labels are looked up in a map, so it takes about as long for each item however many there are.
pub fn assemble(alloc: Global, items: &[Item], base: u64) -> Result<Code, AsmFault>
    requires fit { All IsItemFit items.now }
    requires size { address base (total_words items.now) < 2 ^ 64 }
    ensures meaning { MatchResult result (λ code. (code.base ≡ base) × HoldsParts code.bytes (assembled base items.now))
        (λ fault. Fails fault (assembled base items.now)) }
    ensures length { IfOk result (λ code. length code.bytes ≡ 4 * total_words items.now) }
{
    let labels = Labels::of(alloc, items)?;
    let mut bytes = Bytes::new(alloc);
    let mut place = 0;
    let mut index = 0;
    for item in items {
        let here = Here { base, index, place };
        if let Err(fault) = put_item(&mut bytes, &labels, here, item) {
            return Err(fault);
        }
        index += 1;
        place += words_in(item);
    }
    Ok(Code { base, bytes })
}
