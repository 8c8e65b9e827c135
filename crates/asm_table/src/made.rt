// The instruction of a mnemonic and its operands.
ghost use Rattle.std.specs.Prelude.{◌≡◌};
ghost use Rattle.asm_table.specs.Made as made;

use crate::mnemonics::{
    BareOp, CsrImmediateOp, CsrOp, ImmediateOp, LoadOp, RegisterOp, ShiftOp, ShortShiftOp, StoreOp,
    UpperOp,
};
use rv_decode::Insn;

/// The instruction of the mnemonic and its three registers.
pub fn registers_insn(op: RegisterOp, rd: u8, rs1: u8, rs2: u8) -> Insn
    ensures { result ≡ made.registers_insn op rd rs1 rs2 }
{
    match op {
        RegisterOp::Add => Insn::Add { rd, rs1, rs2 },
        RegisterOp::Sll => Insn::Sll { rd, rs1, rs2 },
        RegisterOp::Slt => Insn::Slt { rd, rs1, rs2 },
        RegisterOp::Sltu => Insn::Sltu { rd, rs1, rs2 },
        RegisterOp::Xor => Insn::Xor { rd, rs1, rs2 },
        RegisterOp::Srl => Insn::Srl { rd, rs1, rs2 },
        RegisterOp::Or => Insn::Or { rd, rs1, rs2 },
        RegisterOp::And => Insn::And { rd, rs1, rs2 },
        RegisterOp::Sub => Insn::Sub { rd, rs1, rs2 },
        RegisterOp::Sra => Insn::Sra { rd, rs1, rs2 },
        RegisterOp::Mul => Insn::Mul { rd, rs1, rs2 },
        RegisterOp::Mulh => Insn::Mulh { rd, rs1, rs2 },
        RegisterOp::Mulhsu => Insn::Mulhsu { rd, rs1, rs2 },
        RegisterOp::Mulhu => Insn::Mulhu { rd, rs1, rs2 },
        RegisterOp::Div => Insn::Div { rd, rs1, rs2 },
        RegisterOp::Divu => Insn::Divu { rd, rs1, rs2 },
        RegisterOp::Rem => Insn::Rem { rd, rs1, rs2 },
        RegisterOp::Remu => Insn::Remu { rd, rs1, rs2 },
        RegisterOp::Addw => Insn::Addw { rd, rs1, rs2 },
        RegisterOp::Sllw => Insn::Sllw { rd, rs1, rs2 },
        RegisterOp::Srlw => Insn::Srlw { rd, rs1, rs2 },
        RegisterOp::Subw => Insn::Subw { rd, rs1, rs2 },
        RegisterOp::Sraw => Insn::Sraw { rd, rs1, rs2 },
        RegisterOp::Mulw => Insn::Mulw { rd, rs1, rs2 },
        RegisterOp::Divw => Insn::Divw { rd, rs1, rs2 },
        RegisterOp::Divuw => Insn::Divuw { rd, rs1, rs2 },
        RegisterOp::Remw => Insn::Remw { rd, rs1, rs2 },
        RegisterOp::Remuw => Insn::Remuw { rd, rs1, rs2 },
    }
}

/// The instruction of the mnemonic, its two registers and its number of 12 bits.
pub fn immediate_insn(op: ImmediateOp, rd: u8, rs1: u8, imm: i32) -> Insn
    ensures { result ≡ made.immediate_insn op rd rs1 imm }
{
    match op {
        ImmediateOp::Addi => Insn::Addi { rd, rs1, imm },
        ImmediateOp::Slti => Insn::Slti { rd, rs1, imm },
        ImmediateOp::Sltiu => Insn::Sltiu { rd, rs1, imm },
        ImmediateOp::Xori => Insn::Xori { rd, rs1, imm },
        ImmediateOp::Ori => Insn::Ori { rd, rs1, imm },
        ImmediateOp::Andi => Insn::Andi { rd, rs1, imm },
        ImmediateOp::Addiw => Insn::Addiw { rd, rs1, imm },
    }
}

/// The instruction of the mnemonic, its two registers and its amount of 6 bits.
pub fn shift_insn(op: ShiftOp, rd: u8, rs1: u8, amount: u8) -> Insn
    ensures { result ≡ made.shift_insn op rd rs1 amount }
{
    match op {
        ShiftOp::Slli => Insn::Slli { rd, rs1, amount },
        ShiftOp::Srli => Insn::Srli { rd, rs1, amount },
        ShiftOp::Srai => Insn::Srai { rd, rs1, amount },
    }
}

/// The instruction of the mnemonic, its two registers and its amount of 5 bits.
pub fn short_shift_insn(op: ShortShiftOp, rd: u8, rs1: u8, amount: u8) -> Insn
    ensures { result ≡ made.short_shift_insn op rd rs1 amount }
{
    match op {
        ShortShiftOp::Slliw => Insn::Slliw { rd, rs1, amount },
        ShortShiftOp::Srliw => Insn::Srliw { rd, rs1, amount },
        ShortShiftOp::Sraiw => Insn::Sraiw { rd, rs1, amount },
    }
}

/// The instruction of the mnemonic, its register and its place: a base register and an offset.
pub fn load_insn(op: LoadOp, rd: u8, rs1: u8, imm: i32) -> Insn
    ensures { result ≡ made.load_insn op rd rs1 imm }
{
    match op {
        LoadOp::Jalr => Insn::Jalr { rd, rs1, imm },
        LoadOp::Lb => Insn::Lb { rd, rs1, imm },
        LoadOp::Lh => Insn::Lh { rd, rs1, imm },
        LoadOp::Lw => Insn::Lw { rd, rs1, imm },
        LoadOp::Ld => Insn::Ld { rd, rs1, imm },
        LoadOp::Lbu => Insn::Lbu { rd, rs1, imm },
        LoadOp::Lhu => Insn::Lhu { rd, rs1, imm },
        LoadOp::Lwu => Insn::Lwu { rd, rs1, imm },
    }
}

/// The instruction of the mnemonic, its place (a base register and an offset) and the register that it stores.
pub fn store_insn(op: StoreOp, rs1: u8, rs2: u8, imm: i32) -> Insn
    ensures { result ≡ made.store_insn op rs1 rs2 imm }
{
    match op {
        StoreOp::Sb => Insn::Sb { rs1, rs2, imm },
        StoreOp::Sh => Insn::Sh { rs1, rs2, imm },
        StoreOp::Sw => Insn::Sw { rs1, rs2, imm },
        StoreOp::Sd => Insn::Sd { rs1, rs2, imm },
    }
}

/// The instruction of the mnemonic, its register and its 20 upper bits.
pub fn upper_insn(op: UpperOp, rd: u8, imm: u32) -> Insn
    ensures { result ≡ made.upper_insn op rd imm }
{
    match op {
        UpperOp::Lui => Insn::Lui { rd, imm },
        UpperOp::Auipc => Insn::Auipc { rd, imm },
    }
}

/// The instruction of the mnemonic, its two registers and its CSR.
pub fn csr_insn(op: CsrOp, rd: u8, rs1: u8, csr: u16) -> Insn
    ensures { result ≡ made.csr_insn op rd rs1 csr }
{
    match op {
        CsrOp::Csrrw => Insn::Csrrw { rd, rs1, csr },
        CsrOp::Csrrs => Insn::Csrrs { rd, rs1, csr },
        CsrOp::Csrrc => Insn::Csrrc { rd, rs1, csr },
    }
}

/// The instruction of the mnemonic, its register, its number of 5 bits and its CSR.
pub fn csr_immediate_insn(op: CsrImmediateOp, rd: u8, imm: u8, csr: u16) -> Insn
    ensures { result ≡ made.csr_immediate_insn op rd imm csr }
{
    match op {
        CsrImmediateOp::Csrrwi => Insn::Csrrwi { rd, imm, csr },
        CsrImmediateOp::Csrrsi => Insn::Csrrsi { rd, imm, csr },
        CsrImmediateOp::Csrrci => Insn::Csrrci { rd, imm, csr },
    }
}

/// The instruction of the mnemonic; a fence is the word that assemblers write for all accesses.
pub fn bare_insn(op: BareOp) -> Insn
    ensures { result ≡ made.bare_insn op }
{
    match op {
        BareOp::Ecall => Insn::Ecall,
        BareOp::Ebreak => Insn::Ebreak,
        BareOp::Mret => Insn::Mret,
        BareOp::Wfi => Insn::Wfi,
        BareOp::Fence => Insn::Fence { word: 0x0ff0_000f },
        BareOp::FenceI => Insn::FenceI { word: 0x0000_100f },
    }
}
