// Words by LLVM's assembler (llvm-mc 14, --triple=riscv64 -mattr=+m), but for the two fences with every
// other bit set, and words of no instruction.

use crate::{Decoder, Insn, decode, encode};

// A word, the instruction's name, and its fields in the order of its variant.
static ROWS: [(u32, &str, [i64; 3]); 115] = [
    (0xffff_ffb7, "lui", [31, 1048575, 0]),
    (0x1234_50b7, "lui", [1, 74565, 0]),
    (0x0000_0297, "auipc", [5, 0, 0]),
    (0x8000_0f97, "auipc", [31, 524288, 0]),
    (0x0000_00ef, "jal", [1, 0, 0]),
    (0x0020_00ef, "jal", [1, 2, 0]),
    (0xffff_f0ef, "jal", [1, -2, 0]),
    (0x0010_00ef, "jal", [1, 2048, 0]),
    (0x801f_f0ef, "jal", [1, -2048, 0]),
    (0x0000_10ef, "jal", [1, 4096, 0]),
    (0x7fff_f0ef, "jal", [1, 1048574, 0]),
    (0x8000_00ef, "jal", [1, -1048576, 0]),
    (0x3461_20ef, "jal", [1, 74566, 0]),
    (0x800f_80e7, "jalr", [1, 31, -2048]),
    (0x7ff0_8067, "jalr", [0, 1, 2047]),
    (0xff55_0fe3, "beq", [10, 21, -2]),
    (0xff55_1fe3, "bne", [10, 21, -2]),
    (0xff55_4fe3, "blt", [10, 21, -2]),
    (0xff55_5fe3, "bge", [10, 21, -2]),
    (0xff55_6fe3, "bltu", [10, 21, -2]),
    (0xff55_7fe3, "bgeu", [10, 21, -2]),
    (0x001f_8063, "beq", [31, 1, 0]),
    (0x001f_8163, "beq", [31, 1, 2]),
    (0x001f_8f63, "beq", [31, 1, 30]),
    (0x021f_8063, "beq", [31, 1, 32]),
    (0x7e1f_8f63, "beq", [31, 1, 2046]),
    (0x001f_80e3, "beq", [31, 1, 2048]),
    (0x7e1f_8fe3, "beq", [31, 1, 4094]),
    (0x801f_8063, "beq", [31, 1, -4096]),
    (0x801f_80e3, "beq", [31, 1, -2048]),
    (0xfff9_8383, "lb", [7, 19, -1]),
    (0xfff9_9383, "lh", [7, 19, -1]),
    (0xfff9_a383, "lw", [7, 19, -1]),
    (0xfff9_b383, "ld", [7, 19, -1]),
    (0xfff9_c383, "lbu", [7, 19, -1]),
    (0xfff9_d383, "lhu", [7, 19, -1]),
    (0xfff9_e383, "lwu", [7, 19, -1]),
    (0x7ff0_3f83, "ld", [31, 0, 2047]),
    (0x800f_8003, "lb", [0, 31, -2048]),
    (0xfe79_8123, "sb", [19, 7, -30]),
    (0xfe79_9123, "sh", [19, 7, -30]),
    (0xfe79_a123, "sw", [19, 7, -30]),
    (0xfe79_b123, "sd", [19, 7, -30]),
    (0x01f1_3fa3, "sd", [2, 31, 31]),
    (0x03f1_3023, "sd", [2, 31, 32]),
    (0x7ff1_3fa3, "sd", [2, 31, 2047]),
    (0x81f1_3023, "sd", [2, 31, -2048]),
    (0xedde_0193, "addi", [3, 28, -291]),
    (0xedde_2193, "slti", [3, 28, -291]),
    (0xedde_3193, "sltiu", [3, 28, -291]),
    (0xedde_4193, "xori", [3, 28, -291]),
    (0xedde_6193, "ori", [3, 28, -291]),
    (0xedde_7193, "andi", [3, 28, -291]),
    (0x7ff0_0f93, "addi", [31, 0, 2047]),
    (0xff01_0113, "addi", [2, 2, -16]),
    (0x800f_f013, "andi", [0, 31, -2048]),
    (0x000b_1493, "slli", [9, 22, 0]),
    (0x020b_1493, "slli", [9, 22, 32]),
    (0x03fb_1493, "slli", [9, 22, 63]),
    (0x000b_5493, "srli", [9, 22, 0]),
    (0x020b_5493, "srli", [9, 22, 32]),
    (0x03fb_5493, "srli", [9, 22, 63]),
    (0x400b_5493, "srai", [9, 22, 0]),
    (0x420b_5493, "srai", [9, 22, 32]),
    (0x43fb_5493, "srai", [9, 22, 63]),
    (0xfffb_049b, "addiw", [9, 22, -1]),
    (0x000b_149b, "slliw", [9, 22, 0]),
    (0x01fb_149b, "slliw", [9, 22, 31]),
    (0x000b_549b, "srliw", [9, 22, 0]),
    (0x01fb_549b, "srliw", [9, 22, 31]),
    (0x400b_549b, "sraiw", [9, 22, 0]),
    (0x41fb_549b, "sraiw", [9, 22, 31]),
    (0x01f9_02b3, "add", [5, 18, 31]),
    (0x01f9_12b3, "sll", [5, 18, 31]),
    (0x01f9_22b3, "slt", [5, 18, 31]),
    (0x01f9_32b3, "sltu", [5, 18, 31]),
    (0x01f9_42b3, "xor", [5, 18, 31]),
    (0x01f9_52b3, "srl", [5, 18, 31]),
    (0x01f9_62b3, "or", [5, 18, 31]),
    (0x01f9_72b3, "and", [5, 18, 31]),
    (0x41f9_02b3, "sub", [5, 18, 31]),
    (0x41f9_52b3, "sra", [5, 18, 31]),
    (0x03f9_02b3, "mul", [5, 18, 31]),
    (0x03f9_12b3, "mulh", [5, 18, 31]),
    (0x03f9_22b3, "mulhsu", [5, 18, 31]),
    (0x03f9_32b3, "mulhu", [5, 18, 31]),
    (0x03f9_42b3, "div", [5, 18, 31]),
    (0x03f9_52b3, "divu", [5, 18, 31]),
    (0x03f9_62b3, "rem", [5, 18, 31]),
    (0x03f9_72b3, "remu", [5, 18, 31]),
    (0x01f9_02bb, "addw", [5, 18, 31]),
    (0x01f9_12bb, "sllw", [5, 18, 31]),
    (0x01f9_52bb, "srlw", [5, 18, 31]),
    (0x41f9_02bb, "subw", [5, 18, 31]),
    (0x41f9_52bb, "sraw", [5, 18, 31]),
    (0x03f9_02bb, "mulw", [5, 18, 31]),
    (0x03f9_42bb, "divw", [5, 18, 31]),
    (0x03f9_52bb, "divuw", [5, 18, 31]),
    (0x03f9_62bb, "remw", [5, 18, 31]),
    (0x03f9_72bb, "remuw", [5, 18, 31]),
    (0x0ff0_000f, "fence", [0xff0_000f, 0, 0]),
    (0xffff_8f8f, "fence", [0xffff_8f8f, 0, 0]),
    (0x0000_100f, "fence.i", [0x100f, 0, 0]),
    (0xffff_9f8f, "fence.i", [0xffff_9f8f, 0, 0]),
    (0x0000_0073, "ecall", [0, 0, 0]),
    (0x0010_0073, "ebreak", [0, 0, 0]),
    (0x3020_0073, "mret", [0, 0, 0]),
    (0x1050_0073, "wfi", [0, 0, 0]),
    (0x340f_9373, "csrrw", [6, 31, 832]),
    (0x340f_a373, "csrrs", [6, 31, 832]),
    (0x340f_b373, "csrrc", [6, 31, 832]),
    (0xffff_d373, "csrrwi", [6, 31, 4095]),
    (0xffff_e373, "csrrsi", [6, 31, 4095]),
    (0xffff_f373, "csrrci", [6, 31, 4095]),
    (0x0000_1073, "csrrw", [0, 0, 0]),
];

// Words that stand in no row, and what is wrong with each.
static ILLEGAL: [(u32, &str); 38] = [
    (0x0000_0000, "a word of zeros"),
    (0xffff_ffff, "a word of ones"),
    (0x0000_4501, "16-bit instructions"),
    (0x0000_0012, "opcode 0x12"),
    (0x0000_9067, "JALR with funct3 1"),
    (0x0000_2063, "a branch with funct3 2"),
    (0x0000_3063, "a branch with funct3 3"),
    (0x0000_7003, "a load with funct3 7"),
    (0x0000_4023, "a store with funct3 4"),
    (0x0000_7023, "a store with funct3 7"),
    (0x0400_1013, "SLLI with bit 26"),
    (0x4000_1013, "SLLI with bit 30"),
    (0x8000_5013, "SRLI with bit 31"),
    (0x4400_5013, "SRAI with bit 26"),
    (0x0200_101b, "SLLIW by 32"),
    (0x0200_501b, "SRLIW by 32"),
    (0x4200_501b, "SRAIW by 32"),
    (0x0000_201b, "OP-IMM-32 with funct3 2"),
    (0x4000_1033, "OP with funct7 0x20 and funct3 1"),
    (0x4000_7033, "OP with funct7 0x20 and funct3 7"),
    (0x0400_0033, "OP with funct7 2"),
    (0x4200_0033, "OP with funct7 0x21"),
    (0x0000_203b, "OP-32 with funct3 2"),
    (0x4000_103b, "OP-32 with funct7 0x20 and funct3 1"),
    (0x0200_103b, "OP-32 with funct7 1 and funct3 1"),
    (0x0200_303b, "OP-32 with funct7 1 and funct3 3"),
    (0x0000_200f, "MISC-MEM with funct3 2"),
    (0x0000_4073, "SYSTEM with funct3 4"),
    (0x0000_00f3, "ECALL with rd 1"),
    (0x0000_8073, "ECALL with rs1 1"),
    (0x0010_00f3, "EBREAK with rd 1"),
    (0x0020_0073, "URET"),
    (0x1020_0073, "SRET"),
    (0x7b20_0073, "DRET"),
    (0x1200_0073, "SFENCE.VMA"),
    (0x0000_2007, "FLW"),
    (0x0000_202f, "an atomic"),
    (0x0000_0053, "FADD.S"),
];

fn rows() -> &'static [(u32, &'static str, [i64; 3])] {
    &ROWS
}

fn illegal() -> &'static [(u32, &'static str)] {
    &ILLEGAL
}

fn shown(insn: Insn) -> (&'static str, [i64; 3]) {
    match insn {
        Insn::Lui { rd, imm } => ("lui", [i64::from(rd), i64::from(imm), 0]),
        Insn::Auipc { rd, imm } => ("auipc", [i64::from(rd), i64::from(imm), 0]),
        Insn::Jal { rd, offset } => ("jal", [i64::from(rd), i64::from(offset), 0]),
        Insn::Jalr { rd, rs1, imm } => ("jalr", [i64::from(rd), i64::from(rs1), i64::from(imm)]),
        Insn::Beq { rs1, rs2, offset } => (
            "beq",
            [i64::from(rs1), i64::from(rs2), i64::from(offset)],
        ),
        Insn::Bne { rs1, rs2, offset } => (
            "bne",
            [i64::from(rs1), i64::from(rs2), i64::from(offset)],
        ),
        Insn::Blt { rs1, rs2, offset } => (
            "blt",
            [i64::from(rs1), i64::from(rs2), i64::from(offset)],
        ),
        Insn::Bge { rs1, rs2, offset } => (
            "bge",
            [i64::from(rs1), i64::from(rs2), i64::from(offset)],
        ),
        Insn::Bltu { rs1, rs2, offset } => (
            "bltu",
            [i64::from(rs1), i64::from(rs2), i64::from(offset)],
        ),
        Insn::Bgeu { rs1, rs2, offset } => (
            "bgeu",
            [i64::from(rs1), i64::from(rs2), i64::from(offset)],
        ),
        Insn::Lb { rd, rs1, imm } => ("lb", [i64::from(rd), i64::from(rs1), i64::from(imm)]),
        Insn::Lh { rd, rs1, imm } => ("lh", [i64::from(rd), i64::from(rs1), i64::from(imm)]),
        Insn::Lw { rd, rs1, imm } => ("lw", [i64::from(rd), i64::from(rs1), i64::from(imm)]),
        Insn::Ld { rd, rs1, imm } => ("ld", [i64::from(rd), i64::from(rs1), i64::from(imm)]),
        Insn::Lbu { rd, rs1, imm } => ("lbu", [i64::from(rd), i64::from(rs1), i64::from(imm)]),
        Insn::Lhu { rd, rs1, imm } => ("lhu", [i64::from(rd), i64::from(rs1), i64::from(imm)]),
        Insn::Lwu { rd, rs1, imm } => ("lwu", [i64::from(rd), i64::from(rs1), i64::from(imm)]),
        Insn::Sb { rs1, rs2, imm } => ("sb", [i64::from(rs1), i64::from(rs2), i64::from(imm)]),
        Insn::Sh { rs1, rs2, imm } => ("sh", [i64::from(rs1), i64::from(rs2), i64::from(imm)]),
        Insn::Sw { rs1, rs2, imm } => ("sw", [i64::from(rs1), i64::from(rs2), i64::from(imm)]),
        Insn::Sd { rs1, rs2, imm } => ("sd", [i64::from(rs1), i64::from(rs2), i64::from(imm)]),
        Insn::Addi { rd, rs1, imm } => ("addi", [i64::from(rd), i64::from(rs1), i64::from(imm)]),
        Insn::Slti { rd, rs1, imm } => ("slti", [i64::from(rd), i64::from(rs1), i64::from(imm)]),
        Insn::Sltiu { rd, rs1, imm } => ("sltiu", [i64::from(rd), i64::from(rs1), i64::from(imm)]),
        Insn::Xori { rd, rs1, imm } => ("xori", [i64::from(rd), i64::from(rs1), i64::from(imm)]),
        Insn::Ori { rd, rs1, imm } => ("ori", [i64::from(rd), i64::from(rs1), i64::from(imm)]),
        Insn::Andi { rd, rs1, imm } => ("andi", [i64::from(rd), i64::from(rs1), i64::from(imm)]),
        Insn::Slli { rd, rs1, amount } => (
            "slli",
            [i64::from(rd), i64::from(rs1), i64::from(amount)],
        ),
        Insn::Srli { rd, rs1, amount } => (
            "srli",
            [i64::from(rd), i64::from(rs1), i64::from(amount)],
        ),
        Insn::Srai { rd, rs1, amount } => (
            "srai",
            [i64::from(rd), i64::from(rs1), i64::from(amount)],
        ),
        Insn::Addiw { rd, rs1, imm } => ("addiw", [i64::from(rd), i64::from(rs1), i64::from(imm)]),
        Insn::Slliw { rd, rs1, amount } => (
            "slliw",
            [i64::from(rd), i64::from(rs1), i64::from(amount)],
        ),
        Insn::Srliw { rd, rs1, amount } => (
            "srliw",
            [i64::from(rd), i64::from(rs1), i64::from(amount)],
        ),
        Insn::Sraiw { rd, rs1, amount } => (
            "sraiw",
            [i64::from(rd), i64::from(rs1), i64::from(amount)],
        ),
        Insn::Add { rd, rs1, rs2 } => ("add", [i64::from(rd), i64::from(rs1), i64::from(rs2)]),
        Insn::Sll { rd, rs1, rs2 } => ("sll", [i64::from(rd), i64::from(rs1), i64::from(rs2)]),
        Insn::Slt { rd, rs1, rs2 } => ("slt", [i64::from(rd), i64::from(rs1), i64::from(rs2)]),
        Insn::Sltu { rd, rs1, rs2 } => ("sltu", [i64::from(rd), i64::from(rs1), i64::from(rs2)]),
        Insn::Xor { rd, rs1, rs2 } => ("xor", [i64::from(rd), i64::from(rs1), i64::from(rs2)]),
        Insn::Srl { rd, rs1, rs2 } => ("srl", [i64::from(rd), i64::from(rs1), i64::from(rs2)]),
        Insn::Or { rd, rs1, rs2 } => ("or", [i64::from(rd), i64::from(rs1), i64::from(rs2)]),
        Insn::And { rd, rs1, rs2 } => ("and", [i64::from(rd), i64::from(rs1), i64::from(rs2)]),
        Insn::Sub { rd, rs1, rs2 } => ("sub", [i64::from(rd), i64::from(rs1), i64::from(rs2)]),
        Insn::Sra { rd, rs1, rs2 } => ("sra", [i64::from(rd), i64::from(rs1), i64::from(rs2)]),
        Insn::Mul { rd, rs1, rs2 } => ("mul", [i64::from(rd), i64::from(rs1), i64::from(rs2)]),
        Insn::Mulh { rd, rs1, rs2 } => ("mulh", [i64::from(rd), i64::from(rs1), i64::from(rs2)]),
        Insn::Mulhsu { rd, rs1, rs2 } => (
            "mulhsu",
            [i64::from(rd), i64::from(rs1), i64::from(rs2)],
        ),
        Insn::Mulhu { rd, rs1, rs2 } => ("mulhu", [i64::from(rd), i64::from(rs1), i64::from(rs2)]),
        Insn::Div { rd, rs1, rs2 } => ("div", [i64::from(rd), i64::from(rs1), i64::from(rs2)]),
        Insn::Divu { rd, rs1, rs2 } => ("divu", [i64::from(rd), i64::from(rs1), i64::from(rs2)]),
        Insn::Rem { rd, rs1, rs2 } => ("rem", [i64::from(rd), i64::from(rs1), i64::from(rs2)]),
        Insn::Remu { rd, rs1, rs2 } => ("remu", [i64::from(rd), i64::from(rs1), i64::from(rs2)]),
        Insn::Addw { rd, rs1, rs2 } => ("addw", [i64::from(rd), i64::from(rs1), i64::from(rs2)]),
        Insn::Sllw { rd, rs1, rs2 } => ("sllw", [i64::from(rd), i64::from(rs1), i64::from(rs2)]),
        Insn::Srlw { rd, rs1, rs2 } => ("srlw", [i64::from(rd), i64::from(rs1), i64::from(rs2)]),
        Insn::Subw { rd, rs1, rs2 } => ("subw", [i64::from(rd), i64::from(rs1), i64::from(rs2)]),
        Insn::Sraw { rd, rs1, rs2 } => ("sraw", [i64::from(rd), i64::from(rs1), i64::from(rs2)]),
        Insn::Mulw { rd, rs1, rs2 } => ("mulw", [i64::from(rd), i64::from(rs1), i64::from(rs2)]),
        Insn::Divw { rd, rs1, rs2 } => ("divw", [i64::from(rd), i64::from(rs1), i64::from(rs2)]),
        Insn::Divuw { rd, rs1, rs2 } => ("divuw", [i64::from(rd), i64::from(rs1), i64::from(rs2)]),
        Insn::Remw { rd, rs1, rs2 } => ("remw", [i64::from(rd), i64::from(rs1), i64::from(rs2)]),
        Insn::Remuw { rd, rs1, rs2 } => ("remuw", [i64::from(rd), i64::from(rs1), i64::from(rs2)]),
        Insn::Fence { word } => ("fence", [i64::from(word), 0, 0]),
        Insn::FenceI { word } => ("fence.i", [i64::from(word), 0, 0]),
        Insn::Ecall => ("ecall", [0, 0, 0]),
        Insn::Ebreak => ("ebreak", [0, 0, 0]),
        Insn::Mret => ("mret", [0, 0, 0]),
        Insn::Wfi => ("wfi", [0, 0, 0]),
        Insn::Csrrw { rd, rs1, csr } => ("csrrw", [i64::from(rd), i64::from(rs1), i64::from(csr)]),
        Insn::Csrrs { rd, rs1, csr } => ("csrrs", [i64::from(rd), i64::from(rs1), i64::from(csr)]),
        Insn::Csrrc { rd, rs1, csr } => ("csrrc", [i64::from(rd), i64::from(rs1), i64::from(csr)]),
        Insn::Csrrwi { rd, imm, csr } => (
            "csrrwi",
            [i64::from(rd), i64::from(imm), i64::from(csr)],
        ),
        Insn::Csrrsi { rd, imm, csr } => (
            "csrrsi",
            [i64::from(rd), i64::from(imm), i64::from(csr)],
        ),
        Insn::Csrrci { rd, imm, csr } => (
            "csrrci",
            [i64::from(rd), i64::from(imm), i64::from(csr)],
        ),
    }
}

#[test]
fn rows_decode_and_encode(rt: HostRuntime) {
    for &(word, name, fields) in rows() {
        let insn = decode(word).expect(&rt, "a row");
        assert_eq!(rt; encode(insn), word, "{name} {word:#x}");
        let (found_name, found_fields) = shown(insn);
        assert_eq!(rt; found_name, name, "{word:#x}");
        assert_eq!(rt; found_fields, fields, "{name} {word:#x}");
    }
}

#[test]
fn other_words_are_illegal(rt: HostRuntime) {
    for &(word, fault) in illegal() {
        assert!(rt; decode(word).is_none(), "{fault} {word:#x}");
    }
}

// Each word at the address of the one before it, twice: it is decoded, and then it is kept.
#[test]
fn rows_decode_at_one_address(rt: HostRuntime) {
    let mut decoder = Decoder::new();
    for &(word, name, _) in rows() {
        let insn = decoder.decode(0x1_0000, word).expect(&rt, "a row");
        assert_eq!(rt; encode(*insn), word, "{name} {word:#x}");
        let kept = decoder.decode(0x1_0000, word).expect(&rt, "a row");
        assert_eq!(rt; encode(*kept), word, "{name} {word:#x}");
    }
}
