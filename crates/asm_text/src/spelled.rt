// How an instruction is spelled.
ghost use Rattle.std.specs.Prelude.{◌≡◌, true, IfSome, IsSome};
ghost use Rattle.asm_items.specs.Printable.{is_insn_printable};
ghost use Rattle.asm_text.specs.Printing.{spelled_insn};

use asm_table::{
    BareOp, CsrImmediateOp, CsrOp, ImmediateOp, LoadOp, RegisterOp, ShiftOp, ShortShiftOp, StoreOp,
    UpperOp,
};
use rv_decode::Insn;

/// A mnemonic with the values of its operands.
#[derive(Clone, Copy)]
pub enum Spelled {
    Registers(RegisterOp, u8, u8, u8),
    Immediate(ImmediateOp, u8, u8, i32),
    Shift(ShiftOp, u8, u8, u8),
    ShortShift(ShortShiftOp, u8, u8, u8),
    Load(LoadOp, u8, u8, i32),
    Store(StoreOp, u8, u8, i32),
    Upper(UpperOp, u8, u32),
    Csr(CsrOp, u8, u8, u16),
    CsrImmediate(CsrImmediateOp, u8, u8, u16),
    Bare(BareOp),
}

/// How the instruction is spelled; branches to a number, JAL and other fences have no text.
pub fn spell(insn: Insn) -> Option<Spelled>
    ensures value { IfSome result (λ s. spelled_insn s ≡ insn) }
    ensures written { is_insn_printable insn ≡ true → IsSome result }
{
    match insn {
        Insn::Add { rd, rs1, rs2 } => Some(Spelled::Registers(RegisterOp::Add, rd, rs1, rs2)),
        Insn::Sll { rd, rs1, rs2 } => Some(Spelled::Registers(RegisterOp::Sll, rd, rs1, rs2)),
        Insn::Slt { rd, rs1, rs2 } => Some(Spelled::Registers(RegisterOp::Slt, rd, rs1, rs2)),
        Insn::Sltu { rd, rs1, rs2 } => Some(Spelled::Registers(RegisterOp::Sltu, rd, rs1, rs2)),
        Insn::Xor { rd, rs1, rs2 } => Some(Spelled::Registers(RegisterOp::Xor, rd, rs1, rs2)),
        Insn::Srl { rd, rs1, rs2 } => Some(Spelled::Registers(RegisterOp::Srl, rd, rs1, rs2)),
        Insn::Or { rd, rs1, rs2 } => Some(Spelled::Registers(RegisterOp::Or, rd, rs1, rs2)),
        Insn::And { rd, rs1, rs2 } => Some(Spelled::Registers(RegisterOp::And, rd, rs1, rs2)),
        Insn::Sub { rd, rs1, rs2 } => Some(Spelled::Registers(RegisterOp::Sub, rd, rs1, rs2)),
        Insn::Sra { rd, rs1, rs2 } => Some(Spelled::Registers(RegisterOp::Sra, rd, rs1, rs2)),
        Insn::Mul { rd, rs1, rs2 } => Some(Spelled::Registers(RegisterOp::Mul, rd, rs1, rs2)),
        Insn::Mulh { rd, rs1, rs2 } => Some(Spelled::Registers(RegisterOp::Mulh, rd, rs1, rs2)),
        Insn::Mulhsu { rd, rs1, rs2 } => Some(Spelled::Registers(RegisterOp::Mulhsu, rd, rs1, rs2)),
        Insn::Mulhu { rd, rs1, rs2 } => Some(Spelled::Registers(RegisterOp::Mulhu, rd, rs1, rs2)),
        Insn::Div { rd, rs1, rs2 } => Some(Spelled::Registers(RegisterOp::Div, rd, rs1, rs2)),
        Insn::Divu { rd, rs1, rs2 } => Some(Spelled::Registers(RegisterOp::Divu, rd, rs1, rs2)),
        Insn::Rem { rd, rs1, rs2 } => Some(Spelled::Registers(RegisterOp::Rem, rd, rs1, rs2)),
        Insn::Remu { rd, rs1, rs2 } => Some(Spelled::Registers(RegisterOp::Remu, rd, rs1, rs2)),
        Insn::Addw { rd, rs1, rs2 } => Some(Spelled::Registers(RegisterOp::Addw, rd, rs1, rs2)),
        Insn::Sllw { rd, rs1, rs2 } => Some(Spelled::Registers(RegisterOp::Sllw, rd, rs1, rs2)),
        Insn::Srlw { rd, rs1, rs2 } => Some(Spelled::Registers(RegisterOp::Srlw, rd, rs1, rs2)),
        Insn::Subw { rd, rs1, rs2 } => Some(Spelled::Registers(RegisterOp::Subw, rd, rs1, rs2)),
        Insn::Sraw { rd, rs1, rs2 } => Some(Spelled::Registers(RegisterOp::Sraw, rd, rs1, rs2)),
        Insn::Mulw { rd, rs1, rs2 } => Some(Spelled::Registers(RegisterOp::Mulw, rd, rs1, rs2)),
        Insn::Divw { rd, rs1, rs2 } => Some(Spelled::Registers(RegisterOp::Divw, rd, rs1, rs2)),
        Insn::Divuw { rd, rs1, rs2 } => Some(Spelled::Registers(RegisterOp::Divuw, rd, rs1, rs2)),
        Insn::Remw { rd, rs1, rs2 } => Some(Spelled::Registers(RegisterOp::Remw, rd, rs1, rs2)),
        Insn::Remuw { rd, rs1, rs2 } => Some(Spelled::Registers(RegisterOp::Remuw, rd, rs1, rs2)),
        Insn::Addi { rd, rs1, imm } => Some(Spelled::Immediate(ImmediateOp::Addi, rd, rs1, imm)),
        Insn::Slti { rd, rs1, imm } => Some(Spelled::Immediate(ImmediateOp::Slti, rd, rs1, imm)),
        Insn::Sltiu { rd, rs1, imm } => Some(Spelled::Immediate(ImmediateOp::Sltiu, rd, rs1, imm)),
        Insn::Xori { rd, rs1, imm } => Some(Spelled::Immediate(ImmediateOp::Xori, rd, rs1, imm)),
        Insn::Ori { rd, rs1, imm } => Some(Spelled::Immediate(ImmediateOp::Ori, rd, rs1, imm)),
        Insn::Andi { rd, rs1, imm } => Some(Spelled::Immediate(ImmediateOp::Andi, rd, rs1, imm)),
        Insn::Addiw { rd, rs1, imm } => Some(Spelled::Immediate(ImmediateOp::Addiw, rd, rs1, imm)),
        Insn::Slli { rd, rs1, amount } => Some(Spelled::Shift(ShiftOp::Slli, rd, rs1, amount)),
        Insn::Srli { rd, rs1, amount } => Some(Spelled::Shift(ShiftOp::Srli, rd, rs1, amount)),
        Insn::Srai { rd, rs1, amount } => Some(Spelled::Shift(ShiftOp::Srai, rd, rs1, amount)),
        Insn::Slliw { rd, rs1, amount } => Some(Spelled::ShortShift(
            ShortShiftOp::Slliw,
            rd,
            rs1,
            amount,
        )),
        Insn::Srliw { rd, rs1, amount } => Some(Spelled::ShortShift(
            ShortShiftOp::Srliw,
            rd,
            rs1,
            amount,
        )),
        Insn::Sraiw { rd, rs1, amount } => Some(Spelled::ShortShift(
            ShortShiftOp::Sraiw,
            rd,
            rs1,
            amount,
        )),
        Insn::Jalr { rd, rs1, imm } => Some(Spelled::Load(LoadOp::Jalr, rd, rs1, imm)),
        Insn::Lb { rd, rs1, imm } => Some(Spelled::Load(LoadOp::Lb, rd, rs1, imm)),
        Insn::Lh { rd, rs1, imm } => Some(Spelled::Load(LoadOp::Lh, rd, rs1, imm)),
        Insn::Lw { rd, rs1, imm } => Some(Spelled::Load(LoadOp::Lw, rd, rs1, imm)),
        Insn::Ld { rd, rs1, imm } => Some(Spelled::Load(LoadOp::Ld, rd, rs1, imm)),
        Insn::Lbu { rd, rs1, imm } => Some(Spelled::Load(LoadOp::Lbu, rd, rs1, imm)),
        Insn::Lhu { rd, rs1, imm } => Some(Spelled::Load(LoadOp::Lhu, rd, rs1, imm)),
        Insn::Lwu { rd, rs1, imm } => Some(Spelled::Load(LoadOp::Lwu, rd, rs1, imm)),
        Insn::Sb { rs1, rs2, imm } => Some(Spelled::Store(StoreOp::Sb, rs1, rs2, imm)),
        Insn::Sh { rs1, rs2, imm } => Some(Spelled::Store(StoreOp::Sh, rs1, rs2, imm)),
        Insn::Sw { rs1, rs2, imm } => Some(Spelled::Store(StoreOp::Sw, rs1, rs2, imm)),
        Insn::Sd { rs1, rs2, imm } => Some(Spelled::Store(StoreOp::Sd, rs1, rs2, imm)),
        Insn::Lui { rd, imm } => Some(Spelled::Upper(UpperOp::Lui, rd, imm)),
        Insn::Auipc { rd, imm } => Some(Spelled::Upper(UpperOp::Auipc, rd, imm)),
        Insn::Csrrw { rd, rs1, csr } => Some(Spelled::Csr(CsrOp::Csrrw, rd, rs1, csr)),
        Insn::Csrrs { rd, rs1, csr } => Some(Spelled::Csr(CsrOp::Csrrs, rd, rs1, csr)),
        Insn::Csrrc { rd, rs1, csr } => Some(Spelled::Csr(CsrOp::Csrrc, rd, rs1, csr)),
        Insn::Csrrwi { rd, imm, csr } => Some(Spelled::CsrImmediate(
            CsrImmediateOp::Csrrwi,
            rd,
            imm,
            csr,
        )),
        Insn::Csrrsi { rd, imm, csr } => Some(Spelled::CsrImmediate(
            CsrImmediateOp::Csrrsi,
            rd,
            imm,
            csr,
        )),
        Insn::Csrrci { rd, imm, csr } => Some(Spelled::CsrImmediate(
            CsrImmediateOp::Csrrci,
            rd,
            imm,
            csr,
        )),
        Insn::Ecall => Some(Spelled::Bare(BareOp::Ecall)),
        Insn::Ebreak => Some(Spelled::Bare(BareOp::Ebreak)),
        Insn::Mret => Some(Spelled::Bare(BareOp::Mret)),
        Insn::Wfi => Some(Spelled::Bare(BareOp::Wfi)),
        Insn::Fence { word: 0x0ff0_000f } => Some(Spelled::Bare(BareOp::Fence)),
        Insn::FenceI { word: 0x0000_100f } => Some(Spelled::Bare(BareOp::FenceI)),
        _ => None,
    }
}
