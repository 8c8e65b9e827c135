// From instructions to words.

ghost use Rattle.std.specs.Prelude.{◌≡◌, ◌<◌, ◌^◌, ◌%◌, Some};
ghost use Rattle.rv_decode.specs.Fields.{signed, IsU, IsJ, IsI, IsS, IsB, IsR, IsShift, IsCsr};
ghost use Rattle.rv_decode.specs.Fits.{IsFit, FitsSignedBits, IsEven};
ghost use Rattle.rv_decode.specs.InsnTable.{Row, insn_of};

use crate::instruction::Insn;
use crate::opcodes::{self, EBREAK_WORD, ECALL_WORD, MRET_WORD, WFI_WORD};
use crate::word_fields::bits;

/// The word that stands for an instruction, each field of which is in its range.
pub fn encode(insn: Insn) -> u32
    requires { IsFit insn }
    ensures row { Row result insn }
    ensures decoded { insn_of result ≡ Some insn }
{
    row_word(insn)
}

// A line for each row of the table: the format, and the values of its fixed fields.
fn row_word(insn: Insn) -> u32
    requires { IsFit insn }
    ensures { Row result insn }
{
    match insn {
        Insn::Lui { rd, imm } => u_word(opcodes::LUI, rd, imm),
        Insn::Auipc { rd, imm } => u_word(opcodes::AUIPC, rd, imm),
        Insn::Jal { rd, offset } => j_word(opcodes::JAL, rd, offset),
        Insn::Jalr { rd, rs1, imm } => i_word(opcodes::JALR, 0, rd, rs1, imm),
        Insn::Beq { rs1, rs2, offset } => b_word(opcodes::BRANCH, 0, rs1, rs2, offset),
        Insn::Bne { rs1, rs2, offset } => b_word(opcodes::BRANCH, 1, rs1, rs2, offset),
        Insn::Blt { rs1, rs2, offset } => b_word(opcodes::BRANCH, 4, rs1, rs2, offset),
        Insn::Bge { rs1, rs2, offset } => b_word(opcodes::BRANCH, 5, rs1, rs2, offset),
        Insn::Bltu { rs1, rs2, offset } => b_word(opcodes::BRANCH, 6, rs1, rs2, offset),
        Insn::Bgeu { rs1, rs2, offset } => b_word(opcodes::BRANCH, 7, rs1, rs2, offset),
        Insn::Lb { rd, rs1, imm } => i_word(opcodes::LOAD, 0, rd, rs1, imm),
        Insn::Lh { rd, rs1, imm } => i_word(opcodes::LOAD, 1, rd, rs1, imm),
        Insn::Lw { rd, rs1, imm } => i_word(opcodes::LOAD, 2, rd, rs1, imm),
        Insn::Ld { rd, rs1, imm } => i_word(opcodes::LOAD, 3, rd, rs1, imm),
        Insn::Lbu { rd, rs1, imm } => i_word(opcodes::LOAD, 4, rd, rs1, imm),
        Insn::Lhu { rd, rs1, imm } => i_word(opcodes::LOAD, 5, rd, rs1, imm),
        Insn::Lwu { rd, rs1, imm } => i_word(opcodes::LOAD, 6, rd, rs1, imm),
        Insn::Sb { rs1, rs2, imm } => s_word(opcodes::STORE, 0, rs1, rs2, imm),
        Insn::Sh { rs1, rs2, imm } => s_word(opcodes::STORE, 1, rs1, rs2, imm),
        Insn::Sw { rs1, rs2, imm } => s_word(opcodes::STORE, 2, rs1, rs2, imm),
        Insn::Sd { rs1, rs2, imm } => s_word(opcodes::STORE, 3, rs1, rs2, imm),
        Insn::Addi { rd, rs1, imm } => i_word(opcodes::OP_IMM, 0, rd, rs1, imm),
        Insn::Slti { rd, rs1, imm } => i_word(opcodes::OP_IMM, 2, rd, rs1, imm),
        Insn::Sltiu { rd, rs1, imm } => i_word(opcodes::OP_IMM, 3, rd, rs1, imm),
        Insn::Xori { rd, rs1, imm } => i_word(opcodes::OP_IMM, 4, rd, rs1, imm),
        Insn::Ori { rd, rs1, imm } => i_word(opcodes::OP_IMM, 6, rd, rs1, imm),
        Insn::Andi { rd, rs1, imm } => i_word(opcodes::OP_IMM, 7, rd, rs1, imm),
        Insn::Slli { rd, rs1, amount } => shift_word(opcodes::OP_IMM, 1, 0, rd, rs1, amount),
        Insn::Srli { rd, rs1, amount } => shift_word(opcodes::OP_IMM, 5, 0, rd, rs1, amount),
        Insn::Srai { rd, rs1, amount } => shift_word(opcodes::OP_IMM, 5, 0x10, rd, rs1, amount),
        Insn::Addiw { rd, rs1, imm } => i_word(opcodes::OP_IMM_32, 0, rd, rs1, imm),
        Insn::Slliw { rd, rs1, amount } => r_word(opcodes::OP_IMM_32, 1, 0, rd, rs1, amount),
        Insn::Srliw { rd, rs1, amount } => r_word(opcodes::OP_IMM_32, 5, 0, rd, rs1, amount),
        Insn::Sraiw { rd, rs1, amount } => r_word(opcodes::OP_IMM_32, 5, 0x20, rd, rs1, amount),
        Insn::Add { rd, rs1, rs2 } => r_word(opcodes::OP, 0, 0, rd, rs1, rs2),
        Insn::Sll { rd, rs1, rs2 } => r_word(opcodes::OP, 1, 0, rd, rs1, rs2),
        Insn::Slt { rd, rs1, rs2 } => r_word(opcodes::OP, 2, 0, rd, rs1, rs2),
        Insn::Sltu { rd, rs1, rs2 } => r_word(opcodes::OP, 3, 0, rd, rs1, rs2),
        Insn::Xor { rd, rs1, rs2 } => r_word(opcodes::OP, 4, 0, rd, rs1, rs2),
        Insn::Srl { rd, rs1, rs2 } => r_word(opcodes::OP, 5, 0, rd, rs1, rs2),
        Insn::Or { rd, rs1, rs2 } => r_word(opcodes::OP, 6, 0, rd, rs1, rs2),
        Insn::And { rd, rs1, rs2 } => r_word(opcodes::OP, 7, 0, rd, rs1, rs2),
        Insn::Sub { rd, rs1, rs2 } => r_word(opcodes::OP, 0, 0x20, rd, rs1, rs2),
        Insn::Sra { rd, rs1, rs2 } => r_word(opcodes::OP, 5, 0x20, rd, rs1, rs2),
        Insn::Mul { rd, rs1, rs2 } => r_word(opcodes::OP, 0, 1, rd, rs1, rs2),
        Insn::Mulh { rd, rs1, rs2 } => r_word(opcodes::OP, 1, 1, rd, rs1, rs2),
        Insn::Mulhsu { rd, rs1, rs2 } => r_word(opcodes::OP, 2, 1, rd, rs1, rs2),
        Insn::Mulhu { rd, rs1, rs2 } => r_word(opcodes::OP, 3, 1, rd, rs1, rs2),
        Insn::Div { rd, rs1, rs2 } => r_word(opcodes::OP, 4, 1, rd, rs1, rs2),
        Insn::Divu { rd, rs1, rs2 } => r_word(opcodes::OP, 5, 1, rd, rs1, rs2),
        Insn::Rem { rd, rs1, rs2 } => r_word(opcodes::OP, 6, 1, rd, rs1, rs2),
        Insn::Remu { rd, rs1, rs2 } => r_word(opcodes::OP, 7, 1, rd, rs1, rs2),
        Insn::Addw { rd, rs1, rs2 } => r_word(opcodes::OP_32, 0, 0, rd, rs1, rs2),
        Insn::Sllw { rd, rs1, rs2 } => r_word(opcodes::OP_32, 1, 0, rd, rs1, rs2),
        Insn::Srlw { rd, rs1, rs2 } => r_word(opcodes::OP_32, 5, 0, rd, rs1, rs2),
        Insn::Subw { rd, rs1, rs2 } => r_word(opcodes::OP_32, 0, 0x20, rd, rs1, rs2),
        Insn::Sraw { rd, rs1, rs2 } => r_word(opcodes::OP_32, 5, 0x20, rd, rs1, rs2),
        Insn::Mulw { rd, rs1, rs2 } => r_word(opcodes::OP_32, 0, 1, rd, rs1, rs2),
        Insn::Divw { rd, rs1, rs2 } => r_word(opcodes::OP_32, 4, 1, rd, rs1, rs2),
        Insn::Divuw { rd, rs1, rs2 } => r_word(opcodes::OP_32, 5, 1, rd, rs1, rs2),
        Insn::Remw { rd, rs1, rs2 } => r_word(opcodes::OP_32, 6, 1, rd, rs1, rs2),
        Insn::Remuw { rd, rs1, rs2 } => r_word(opcodes::OP_32, 7, 1, rd, rs1, rs2),
        Insn::Fence { word } => word,
        Insn::FenceI { word } => word,
        Insn::Ecall => ECALL_WORD,
        Insn::Ebreak => EBREAK_WORD,
        Insn::Mret => MRET_WORD,
        Insn::Wfi => WFI_WORD,
        Insn::Csrrw { rd, rs1, csr } => csr_word(opcodes::SYSTEM, 1, rd, rs1, csr),
        Insn::Csrrs { rd, rs1, csr } => csr_word(opcodes::SYSTEM, 2, rd, rs1, csr),
        Insn::Csrrc { rd, rs1, csr } => csr_word(opcodes::SYSTEM, 3, rd, rs1, csr),
        Insn::Csrrwi { rd, imm, csr } => csr_word(opcodes::SYSTEM, 5, rd, imm, csr),
        Insn::Csrrsi { rd, imm, csr } => csr_word(opcodes::SYSTEM, 6, rd, imm, csr),
        Insn::Csrrci { rd, imm, csr } => csr_word(opcodes::SYSTEM, 7, rd, imm, csr),
    }
}

// The field of 12 bits that spells an immediate.
fn low_12(imm: i32) -> u32
    requires { FitsSignedBits 12 imm }
    ensures value { signed 12 result ≡ imm }
    ensures range { result < 2 ^ 12 }
{
    if imm < 0 {
        (imm + 0x1000) as u32
    } else {
        imm as u32
    }
}

// The 13 bits that spell a branch's offset; the lowest is 0.
fn low_13(imm: i32) -> u32
    requires { FitsSignedBits 13 imm }
    ensures value { signed 13 result ≡ imm }
    ensures range { result < 2 ^ 13 }
    ensures even { IsEven imm → result % 2 ≡ 0 }
{
    if imm < 0 {
        (imm + 0x2000) as u32
    } else {
        imm as u32
    }
}

// The 21 bits that spell a jump's offset; the lowest is 0.
fn low_21(imm: i32) -> u32
    requires { FitsSignedBits 21 imm }
    ensures value { signed 21 result ≡ imm }
    ensures range { result < 2 ^ 21 }
    ensures even { IsEven imm → result % 2 ≡ 0 }
{
    if imm < 0 {
        (imm + 0x20_0000) as u32
    } else {
        imm as u32
    }
}

// A word of the U format.
fn u_word(opcode: u32, rd: u8, imm: u32) -> u32
    requires opcode { opcode < 128 }
    requires rd { rd < 32 }
    requires imm { imm < 2 ^ 20 }
    ensures { IsU opcode rd imm result }
{
    opcode + (u32::from(rd) << 7) + (imm << 12)
}

// A word of the I format.
fn i_word(opcode: u32, funct3: u32, rd: u8, rs1: u8, imm: i32) -> u32
    requires opcode { opcode < 128 }
    requires funct3 { funct3 < 8 }
    requires rd { rd < 32 }
    requires rs1 { rs1 < 32 }
    requires imm { FitsSignedBits 12 imm }
    ensures { IsI opcode funct3 rd rs1 imm result }
{
    opcode + (u32::from(rd) << 7) + (funct3 << 12) + (u32::from(rs1) << 15) + (low_12(imm) << 20)
}

// A word of the S format.
fn s_word(opcode: u32, funct3: u32, rs1: u8, rs2: u8, imm: i32) -> u32
    requires opcode { opcode < 128 }
    requires funct3 { funct3 < 8 }
    requires rs1 { rs1 < 32 }
    requires rs2 { rs2 < 32 }
    requires imm { FitsSignedBits 12 imm }
    ensures { IsS opcode funct3 rs1 rs2 imm result }
{
    let field = low_12(imm);
    opcode
        + (bits(field, 0, 5) << 7)
        + (funct3 << 12)
        + (u32::from(rs1) << 15)
        + (u32::from(rs2) << 20)
        + (bits(field, 5, 7) << 25)
}

// A word of the B format.
fn b_word(opcode: u32, funct3: u32, rs1: u8, rs2: u8, offset: i32) -> u32
    requires opcode { opcode < 128 }
    requires funct3 { funct3 < 8 }
    requires rs1 { rs1 < 32 }
    requires rs2 { rs2 < 32 }
    requires offset { FitsSignedBits 13 offset }
    requires even { IsEven offset }
    ensures { IsB opcode funct3 rs1 rs2 offset result }
{
    let field = low_13(offset);
    opcode
        + (bits(field, 11, 1) << 7)
        + (bits(field, 1, 4) << 8)
        + (funct3 << 12)
        + (u32::from(rs1) << 15)
        + (u32::from(rs2) << 20)
        + (bits(field, 5, 6) << 25)
        + (bits(field, 12, 1) << 31)
}

// A word of the J format.
fn j_word(opcode: u32, rd: u8, offset: i32) -> u32
    requires opcode { opcode < 128 }
    requires rd { rd < 32 }
    requires offset { FitsSignedBits 21 offset }
    requires even { IsEven offset }
    ensures { IsJ opcode rd offset result }
{
    let field = low_21(offset);
    opcode
        + (u32::from(rd) << 7)
        + (bits(field, 12, 8) << 12)
        + (bits(field, 11, 1) << 20)
        + (bits(field, 1, 10) << 21)
        + (bits(field, 20, 1) << 31)
}

// A word of the R format.
fn r_word(opcode: u32, funct3: u32, funct7: u32, rd: u8, rs1: u8, rs2: u8) -> u32
    requires opcode { opcode < 128 }
    requires funct3 { funct3 < 8 }
    requires funct7 { funct7 < 128 }
    requires rd { rd < 32 }
    requires rs1 { rs1 < 32 }
    requires rs2 { rs2 < 32 }
    ensures { IsR opcode funct3 funct7 rd rs1 rs2 result }
{
    opcode
        + (u32::from(rd) << 7)
        + (funct3 << 12)
        + (u32::from(rs1) << 15)
        + (u32::from(rs2) << 20)
        + (funct7 << 25)
}

// A 64-bit shift by a constant.
fn shift_word(opcode: u32, funct3: u32, funct6: u32, rd: u8, rs1: u8, amount: u8) -> u32
    requires opcode { opcode < 128 }
    requires funct3 { funct3 < 8 }
    requires funct6 { funct6 < 64 }
    requires rd { rd < 32 }
    requires rs1 { rs1 < 32 }
    requires amount { amount < 64 }
    ensures { IsShift opcode funct3 funct6 rd rs1 amount result }
{
    opcode
        + (u32::from(rd) << 7)
        + (funct3 << 12)
        + (u32::from(rs1) << 15)
        + (u32::from(amount) << 20)
        + (funct6 << 26)
}

// A CSR instruction, with a source register or a 5-bit immediate in rs1's place.
fn csr_word(opcode: u32, funct3: u32, rd: u8, rs1: u8, csr: u16) -> u32
    requires opcode { opcode < 128 }
    requires funct3 { funct3 < 8 }
    requires rd { rd < 32 }
    requires rs1 { rs1 < 32 }
    requires csr { csr < 2 ^ 12 }
    ensures { IsCsr opcode funct3 rd rs1 csr result }
{
    opcode + (u32::from(rd) << 7) + (funct3 << 12) + (u32::from(rs1) << 15) + (u32::from(csr) << 20)
}
