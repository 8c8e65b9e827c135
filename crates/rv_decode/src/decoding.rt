// From words to instructions.

ghost use Rattle.std.specs.Prelude.{◌≡◌, ◌↔◌, Some, IfSome};
ghost use Rattle.rv_decode.specs.declared.instruction.Insn.{Insn};
ghost use Rattle.rv_decode.specs.Fits.{IsFit};
ghost use Rattle.rv_decode.specs.InsnTable.{insn_of, branch_of, load_of, store_of, op_imm_of, op_imm_32_of, op_of};
ghost use Rattle.rv_decode.specs.InsnTable.{op_base_of, op_alternate_of, op_muldiv_of, op_32_of, op_32_base_of};
ghost use Rattle.rv_decode.specs.InsnTable.{op_32_alternate_of, op_32_muldiv_of, misc_mem_of, system_of, jalr_of};
ghost use Rattle.rv_decode.specs.InsnTable.{Row};

use crate::instruction::Insn;
use crate::opcodes::{self, EBREAK_WORD, ECALL_WORD, MRET_WORD, WFI_WORD};
use crate::word_fields::{
    amount_in, b_imm, csr_in, funct3_in, funct6_in, funct7_in, i_imm, j_imm, opcode_in, rd_in,
    rs1_in, rs2_in, s_imm, upper_imm,
};

/// The instruction that a word stands for, or None where no row of the table has the word
/// (Unprivileged ISA, RV32/64G Instruction Set Listings).
pub fn decode(word: u32) -> Option<Insn>
    ensures value { result ≡ insn_of word }
    ensures row { (insn : Insn) → (result ≡ Some insn) ↔ Row word insn }
    ensures one_row { (one other : Insn) → Row word one → Row word other → one ≡ other }
    ensures in_range { IfSome result IsFit }
{
    decode_opcode(word)
}

// The opcode chooses the part of the table: a function for each, as for each definition.
#[tactic(auto, unfolding(crate::specs::InsnTable::insn_of))]
fn decode_opcode(word: u32) -> Option<Insn>
    ensures { result ≡ insn_of word }
{
    match opcode_in(word) {
        opcodes::LUI => Some(Insn::Lui {
            rd: rd_in(word),
            imm: upper_imm(word),
        }),
        opcodes::AUIPC => Some(Insn::Auipc {
            rd: rd_in(word),
            imm: upper_imm(word),
        }),
        opcodes::JAL => Some(Insn::Jal {
            rd: rd_in(word),
            offset: j_imm(word),
        }),
        opcodes::BRANCH => decode_branch(word),
        opcodes::LOAD => decode_load(word),
        opcodes::STORE => decode_store(word),
        opcodes::OP_IMM => decode_op_imm(word),
        opcodes::OP_IMM_32 => decode_op_imm_32(word),
        opcodes::OP => decode_op(word),
        opcodes::OP_32 => decode_op_32(word),
        opcodes::MISC_MEM => decode_misc_mem(word),
        opcodes::SYSTEM => decode_system(word),
        opcodes::JALR => decode_jalr(word),
        _ => None,
    }
}

#[tactic(auto, unfolding(crate::specs::InsnTable::branch_of))]
fn decode_branch(word: u32) -> Option<Insn>
    ensures { result ≡ branch_of word }
{
    let rs1 = rs1_in(word);
    let rs2 = rs2_in(word);
    let offset = b_imm(word);
    match funct3_in(word) {
        0 => Some(Insn::Beq { rs1, rs2, offset }),
        1 => Some(Insn::Bne { rs1, rs2, offset }),
        4 => Some(Insn::Blt { rs1, rs2, offset }),
        5 => Some(Insn::Bge { rs1, rs2, offset }),
        6 => Some(Insn::Bltu { rs1, rs2, offset }),
        7 => Some(Insn::Bgeu { rs1, rs2, offset }),
        _ => None,
    }
}

#[tactic(auto, unfolding(crate::specs::InsnTable::load_of))]
fn decode_load(word: u32) -> Option<Insn>
    ensures { result ≡ load_of word }
{
    let rd = rd_in(word);
    let rs1 = rs1_in(word);
    let imm = i_imm(word);
    match funct3_in(word) {
        0 => Some(Insn::Lb { rd, rs1, imm }),
        1 => Some(Insn::Lh { rd, rs1, imm }),
        2 => Some(Insn::Lw { rd, rs1, imm }),
        3 => Some(Insn::Ld { rd, rs1, imm }),
        4 => Some(Insn::Lbu { rd, rs1, imm }),
        5 => Some(Insn::Lhu { rd, rs1, imm }),
        6 => Some(Insn::Lwu { rd, rs1, imm }),
        _ => None,
    }
}

#[tactic(auto, unfolding(crate::specs::InsnTable::store_of))]
fn decode_store(word: u32) -> Option<Insn>
    ensures { result ≡ store_of word }
{
    let rs1 = rs1_in(word);
    let rs2 = rs2_in(word);
    let imm = s_imm(word);
    match funct3_in(word) {
        0 => Some(Insn::Sb { rs1, rs2, imm }),
        1 => Some(Insn::Sh { rs1, rs2, imm }),
        2 => Some(Insn::Sw { rs1, rs2, imm }),
        3 => Some(Insn::Sd { rs1, rs2, imm }),
        _ => None,
    }
}

#[tactic(auto, unfolding(crate::specs::InsnTable::op_imm_of))]
fn decode_op_imm(word: u32) -> Option<Insn>
    ensures { result ≡ op_imm_of word }
{
    let rd = rd_in(word);
    let rs1 = rs1_in(word);
    let imm = i_imm(word);
    match funct3_in(word) {
        0 => Some(Insn::Addi { rd, rs1, imm }),
        // Only a shift needs its amount: above, it would be computed for each of these instructions.
        1 => {
            let amount = amount_in(word);
            match funct6_in(word) {
                0 => Some(Insn::Slli { rd, rs1, amount }),
                _ => None,
            }
        }
        2 => Some(Insn::Slti { rd, rs1, imm }),
        3 => Some(Insn::Sltiu { rd, rs1, imm }),
        4 => Some(Insn::Xori { rd, rs1, imm }),
        5 => {
            let amount = amount_in(word);
            match funct6_in(word) {
                0 => Some(Insn::Srli { rd, rs1, amount }),
                0x10 => Some(Insn::Srai { rd, rs1, amount }),
                _ => None,
            }
        }
        6 => Some(Insn::Ori { rd, rs1, imm }),
        7 => Some(Insn::Andi { rd, rs1, imm }),
        _ => None,
    }
}

#[tactic(auto, unfolding(crate::specs::InsnTable::op_imm_32_of))]
fn decode_op_imm_32(word: u32) -> Option<Insn>
    ensures { result ≡ op_imm_32_of word }
{
    let rd = rd_in(word);
    let rs1 = rs1_in(word);
    let imm = i_imm(word);
    let amount = rs2_in(word);
    match funct3_in(word) {
        0 => Some(Insn::Addiw { rd, rs1, imm }),
        1 => match funct7_in(word) {
            0 => Some(Insn::Slliw { rd, rs1, amount }),
            _ => None,
        },
        5 => match funct7_in(word) {
            0 => Some(Insn::Srliw { rd, rs1, amount }),
            0x20 => Some(Insn::Sraiw { rd, rs1, amount }),
            _ => None,
        },
        _ => None,
    }
}

#[tactic(auto, unfolding(crate::specs::InsnTable::op_base_of))]
fn decode_op_base(word: u32) -> Option<Insn>
    ensures { result ≡ op_base_of word }
{
    let rd = rd_in(word);
    let rs1 = rs1_in(word);
    let rs2 = rs2_in(word);
    match funct3_in(word) {
        0 => Some(Insn::Add { rd, rs1, rs2 }),
        1 => Some(Insn::Sll { rd, rs1, rs2 }),
        2 => Some(Insn::Slt { rd, rs1, rs2 }),
        3 => Some(Insn::Sltu { rd, rs1, rs2 }),
        4 => Some(Insn::Xor { rd, rs1, rs2 }),
        5 => Some(Insn::Srl { rd, rs1, rs2 }),
        6 => Some(Insn::Or { rd, rs1, rs2 }),
        7 => Some(Insn::And { rd, rs1, rs2 }),
        _ => None,
    }
}

#[tactic(auto, unfolding(crate::specs::InsnTable::op_alternate_of))]
fn decode_op_alternate(word: u32) -> Option<Insn>
    ensures { result ≡ op_alternate_of word }
{
    let rd = rd_in(word);
    let rs1 = rs1_in(word);
    let rs2 = rs2_in(word);
    match funct3_in(word) {
        0 => Some(Insn::Sub { rd, rs1, rs2 }),
        5 => Some(Insn::Sra { rd, rs1, rs2 }),
        _ => None,
    }
}

#[tactic(auto, unfolding(crate::specs::InsnTable::op_muldiv_of))]
fn decode_op_muldiv(word: u32) -> Option<Insn>
    ensures { result ≡ op_muldiv_of word }
{
    let rd = rd_in(word);
    let rs1 = rs1_in(word);
    let rs2 = rs2_in(word);
    match funct3_in(word) {
        0 => Some(Insn::Mul { rd, rs1, rs2 }),
        1 => Some(Insn::Mulh { rd, rs1, rs2 }),
        2 => Some(Insn::Mulhsu { rd, rs1, rs2 }),
        3 => Some(Insn::Mulhu { rd, rs1, rs2 }),
        4 => Some(Insn::Div { rd, rs1, rs2 }),
        5 => Some(Insn::Divu { rd, rs1, rs2 }),
        6 => Some(Insn::Rem { rd, rs1, rs2 }),
        7 => Some(Insn::Remu { rd, rs1, rs2 }),
        _ => None,
    }
}

#[tactic(auto, unfolding(crate::specs::InsnTable::op_of))]
fn decode_op(word: u32) -> Option<Insn>
    ensures { result ≡ op_of word }
{
    match funct7_in(word) {
        0 => decode_op_base(word),
        0x20 => decode_op_alternate(word),
        1 => decode_op_muldiv(word),
        _ => None,
    }
}

#[tactic(auto, unfolding(crate::specs::InsnTable::op_32_base_of))]
fn decode_op_32_base(word: u32) -> Option<Insn>
    ensures { result ≡ op_32_base_of word }
{
    let rd = rd_in(word);
    let rs1 = rs1_in(word);
    let rs2 = rs2_in(word);
    match funct3_in(word) {
        0 => Some(Insn::Addw { rd, rs1, rs2 }),
        1 => Some(Insn::Sllw { rd, rs1, rs2 }),
        5 => Some(Insn::Srlw { rd, rs1, rs2 }),
        _ => None,
    }
}

#[tactic(auto, unfolding(crate::specs::InsnTable::op_32_alternate_of))]
fn decode_op_32_alternate(word: u32) -> Option<Insn>
    ensures { result ≡ op_32_alternate_of word }
{
    let rd = rd_in(word);
    let rs1 = rs1_in(word);
    let rs2 = rs2_in(word);
    match funct3_in(word) {
        0 => Some(Insn::Subw { rd, rs1, rs2 }),
        5 => Some(Insn::Sraw { rd, rs1, rs2 }),
        _ => None,
    }
}

#[tactic(auto, unfolding(crate::specs::InsnTable::op_32_muldiv_of))]
fn decode_op_32_muldiv(word: u32) -> Option<Insn>
    ensures { result ≡ op_32_muldiv_of word }
{
    let rd = rd_in(word);
    let rs1 = rs1_in(word);
    let rs2 = rs2_in(word);
    match funct3_in(word) {
        0 => Some(Insn::Mulw { rd, rs1, rs2 }),
        4 => Some(Insn::Divw { rd, rs1, rs2 }),
        5 => Some(Insn::Divuw { rd, rs1, rs2 }),
        6 => Some(Insn::Remw { rd, rs1, rs2 }),
        7 => Some(Insn::Remuw { rd, rs1, rs2 }),
        _ => None,
    }
}

#[tactic(auto, unfolding(crate::specs::InsnTable::op_32_of))]
fn decode_op_32(word: u32) -> Option<Insn>
    ensures { result ≡ op_32_of word }
{
    match funct7_in(word) {
        0 => decode_op_32_base(word),
        0x20 => decode_op_32_alternate(word),
        1 => decode_op_32_muldiv(word),
        _ => None,
    }
}

#[tactic(auto, unfolding(crate::specs::InsnTable::misc_mem_of))]
fn decode_misc_mem(word: u32) -> Option<Insn>
    ensures { result ≡ misc_mem_of word }
{
    match funct3_in(word) {
        0 => Some(Insn::Fence { word }),
        1 => Some(Insn::FenceI { word }),
        _ => None,
    }
}

#[tactic(auto, unfolding(crate::specs::InsnTable::system_of))]
fn decode_system(word: u32) -> Option<Insn>
    ensures { result ≡ system_of word }
{
    let rd = rd_in(word);
    let rs1 = rs1_in(word);
    let imm = rs1;
    let csr = csr_in(word);
    match funct3_in(word) {
        0 => match word {
            ECALL_WORD => Some(Insn::Ecall),
            EBREAK_WORD => Some(Insn::Ebreak),
            MRET_WORD => Some(Insn::Mret),
            WFI_WORD => Some(Insn::Wfi),
            _ => None,
        },
        1 => Some(Insn::Csrrw { rd, rs1, csr }),
        2 => Some(Insn::Csrrs { rd, rs1, csr }),
        3 => Some(Insn::Csrrc { rd, rs1, csr }),
        5 => Some(Insn::Csrrwi { rd, imm, csr }),
        6 => Some(Insn::Csrrsi { rd, imm, csr }),
        7 => Some(Insn::Csrrci { rd, imm, csr }),
        _ => None,
    }
}

#[tactic(auto, unfolding(crate::specs::InsnTable::jalr_of))]
fn decode_jalr(word: u32) -> Option<Insn>
    ensures { result ≡ jalr_of word }
{
    let rd = rd_in(word);
    let rs1 = rs1_in(word);
    let imm = i_imm(word);
    match funct3_in(word) {
        0 => Some(Insn::Jalr { rd, rs1, imm }),
        _ => None,
    }
}
