// Instructions as values, and where they may stand.

/// An instruction's address is a multiple of this (Unprivileged ISA, 1.5, IALIGN, in bytes).
pub const INSTRUCTION_ALIGNMENT: u64 = 4;

/// An instruction of RV64IM, Zicsr or Zifencei, MRET or WFI, under its name in the manual.
///
/// `rd`, `rs1` and `rs2` are register numbers. `imm` and `offset` are sign-extended immediates in
/// bytes, but for LUI and AUIPC, whose `imm` holds the 20 bits as they stand in the word. `amount` is
/// a shift amount. `csr` is the number of a control and status register. A fence keeps its whole
/// word, since its other bits have no effect here.
#[derive(Clone, Copy)]
pub enum Insn {
    /// Load upper immediate.
    Lui { rd: u8, imm: u32 },
    /// Add upper immediate to pc.
    Auipc { rd: u8, imm: u32 },

    /// Jump and link; the offset is even.
    Jal { rd: u8, offset: i32 },
    /// Jump and link to a register's address; bit 0 of the target is cleared.
    Jalr { rd: u8, rs1: u8, imm: i32 },

    /// Branch where equal; a branch's offset is even.
    Beq { rs1: u8, rs2: u8, offset: i32 },
    /// Branch where not equal.
    Bne { rs1: u8, rs2: u8, offset: i32 },
    /// Branch where less, signed.
    Blt { rs1: u8, rs2: u8, offset: i32 },
    /// Branch where greater or equal, signed.
    Bge { rs1: u8, rs2: u8, offset: i32 },
    /// Branch where less, unsigned.
    Bltu { rs1: u8, rs2: u8, offset: i32 },
    /// Branch where greater or equal, unsigned.
    Bgeu { rs1: u8, rs2: u8, offset: i32 },

    /// Load a byte, sign-extended.
    Lb { rd: u8, rs1: u8, imm: i32 },
    /// Load two bytes, sign-extended.
    Lh { rd: u8, rs1: u8, imm: i32 },
    /// Load four bytes, sign-extended.
    Lw { rd: u8, rs1: u8, imm: i32 },
    /// Load eight bytes.
    Ld { rd: u8, rs1: u8, imm: i32 },
    /// Load a byte, zero-extended.
    Lbu { rd: u8, rs1: u8, imm: i32 },
    /// Load two bytes, zero-extended.
    Lhu { rd: u8, rs1: u8, imm: i32 },
    /// Load four bytes, zero-extended.
    Lwu { rd: u8, rs1: u8, imm: i32 },

    /// Store a byte.
    Sb { rs1: u8, rs2: u8, imm: i32 },
    /// Store two bytes.
    Sh { rs1: u8, rs2: u8, imm: i32 },
    /// Store four bytes.
    Sw { rs1: u8, rs2: u8, imm: i32 },
    /// Store eight bytes.
    Sd { rs1: u8, rs2: u8, imm: i32 },

    /// Add an immediate.
    Addi { rd: u8, rs1: u8, imm: i32 },
    /// 1 where less than the immediate, signed, else 0.
    Slti { rd: u8, rs1: u8, imm: i32 },
    /// 1 where less than the sign-extended immediate, unsigned, else 0.
    Sltiu { rd: u8, rs1: u8, imm: i32 },
    /// Exclusive or with an immediate.
    Xori { rd: u8, rs1: u8, imm: i32 },
    /// Or with an immediate.
    Ori { rd: u8, rs1: u8, imm: i32 },
    /// And with an immediate.
    Andi { rd: u8, rs1: u8, imm: i32 },
    /// Shift left by 0 to 63.
    Slli { rd: u8, rs1: u8, amount: u8 },
    /// Shift right by 0 to 63, filling with zeros.
    Srli { rd: u8, rs1: u8, amount: u8 },
    /// Shift right by 0 to 63, filling with the sign.
    Srai { rd: u8, rs1: u8, amount: u8 },

    /// Add an immediate, in 32 bits.
    Addiw { rd: u8, rs1: u8, imm: i32 },
    /// Shift left by 0 to 31, in 32 bits.
    Slliw { rd: u8, rs1: u8, amount: u8 },
    /// Shift right by 0 to 31, in 32 bits, filling with zeros.
    Srliw { rd: u8, rs1: u8, amount: u8 },
    /// Shift right by 0 to 31, in 32 bits, filling with the sign.
    Sraiw { rd: u8, rs1: u8, amount: u8 },

    /// Add.
    Add { rd: u8, rs1: u8, rs2: u8 },
    /// Shift left by the low 6 bits of rs2.
    Sll { rd: u8, rs1: u8, rs2: u8 },
    /// 1 where less, signed, else 0.
    Slt { rd: u8, rs1: u8, rs2: u8 },
    /// 1 where less, unsigned, else 0.
    Sltu { rd: u8, rs1: u8, rs2: u8 },
    /// Exclusive or.
    Xor { rd: u8, rs1: u8, rs2: u8 },
    /// Shift right by the low 6 bits of rs2, filling with zeros.
    Srl { rd: u8, rs1: u8, rs2: u8 },
    /// Or.
    Or { rd: u8, rs1: u8, rs2: u8 },
    /// And.
    And { rd: u8, rs1: u8, rs2: u8 },
    /// Subtract.
    Sub { rd: u8, rs1: u8, rs2: u8 },
    /// Shift right by the low 6 bits of rs2, filling with the sign.
    Sra { rd: u8, rs1: u8, rs2: u8 },

    /// The low half of the product.
    Mul { rd: u8, rs1: u8, rs2: u8 },
    /// The high half of the product, signed by signed.
    Mulh { rd: u8, rs1: u8, rs2: u8 },
    /// The high half of the product, signed by unsigned.
    Mulhsu { rd: u8, rs1: u8, rs2: u8 },
    /// The high half of the product, unsigned by unsigned.
    Mulhu { rd: u8, rs1: u8, rs2: u8 },
    /// The quotient, signed.
    Div { rd: u8, rs1: u8, rs2: u8 },
    /// The quotient, unsigned.
    Divu { rd: u8, rs1: u8, rs2: u8 },
    /// The remainder, signed.
    Rem { rd: u8, rs1: u8, rs2: u8 },
    /// The remainder, unsigned.
    Remu { rd: u8, rs1: u8, rs2: u8 },

    /// Add, in 32 bits.
    Addw { rd: u8, rs1: u8, rs2: u8 },
    /// Shift left by the low 5 bits of rs2, in 32 bits.
    Sllw { rd: u8, rs1: u8, rs2: u8 },
    /// Shift right by the low 5 bits of rs2, in 32 bits, filling with zeros.
    Srlw { rd: u8, rs1: u8, rs2: u8 },
    /// Subtract, in 32 bits.
    Subw { rd: u8, rs1: u8, rs2: u8 },
    /// Shift right by the low 5 bits of rs2, in 32 bits, filling with the sign.
    Sraw { rd: u8, rs1: u8, rs2: u8 },
    /// The product, in 32 bits.
    Mulw { rd: u8, rs1: u8, rs2: u8 },
    /// The quotient, signed, in 32 bits.
    Divw { rd: u8, rs1: u8, rs2: u8 },
    /// The quotient, unsigned, in 32 bits.
    Divuw { rd: u8, rs1: u8, rs2: u8 },
    /// The remainder, signed, in 32 bits.
    Remw { rd: u8, rs1: u8, rs2: u8 },
    /// The remainder, unsigned, in 32 bits.
    Remuw { rd: u8, rs1: u8, rs2: u8 },

    /// Order memory accesses.
    Fence { word: u32 },
    /// Order stores and instruction fetches.
    FenceI { word: u32 },

    /// Call the environment.
    Ecall,
    /// Break into the debugger.
    Ebreak,
    /// Return from a machine-mode trap.
    Mret,
    /// Wait for an interrupt.
    Wfi,

    /// Read a CSR and write it.
    Csrrw { rd: u8, rs1: u8, csr: u16 },
    /// Read a CSR and set bits of it.
    Csrrs { rd: u8, rs1: u8, csr: u16 },
    /// Read a CSR and clear bits of it.
    Csrrc { rd: u8, rs1: u8, csr: u16 },
    /// Read a CSR and write it with an immediate of 5 bits.
    Csrrwi { rd: u8, imm: u8, csr: u16 },
    /// Read a CSR and set the bits of an immediate of 5 bits.
    Csrrsi { rd: u8, imm: u8, csr: u16 },
    /// Read a CSR and clear the bits of an immediate of 5 bits.
    Csrrci { rd: u8, imm: u8, csr: u16 },
}

/// The condition of a branch, between the values of rs1 and rs2.
#[derive(Clone, Copy)]
pub enum Cond {
    /// Equal, as BEQ.
    Eq,
    /// Not equal, as BNE.
    Ne,
    /// Less, signed, as BLT.
    Lt,
    /// Greater or equal, signed, as BGE.
    Ge,
    /// Less, unsigned, as BLTU.
    Ltu,
    /// Greater or equal, unsigned, as BGEU.
    Geu,
}
