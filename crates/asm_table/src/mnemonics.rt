// The names of instructions and directives, in one table.
ghost use Rattle.std.specs.Prelude.{◌≡◌};
ghost use Rattle.asm_table.specs.Table.{op_in, op_of};

use crate::cuts::cut;
use rv_decode::Cond;

/// Instructions whose operands are three registers.
#[derive(Clone, Copy, PartialEq, Eq)]
pub enum RegisterOp {
    Add,
    Sll,
    Slt,
    Sltu,
    Xor,
    Srl,
    Or,
    And,
    Sub,
    Sra,
    Mul,
    Mulh,
    Mulhsu,
    Mulhu,
    Div,
    Divu,
    Rem,
    Remu,
    Addw,
    Sllw,
    Srlw,
    Subw,
    Sraw,
    Mulw,
    Divw,
    Divuw,
    Remw,
    Remuw,
}

/// Instructions whose operands are two registers and a number.
#[derive(Clone, Copy, PartialEq, Eq)]
pub enum ImmediateOp {
    Addi,
    Slti,
    Sltiu,
    Xori,
    Ori,
    Andi,
    Addiw,
}

/// Instructions whose operands are two registers and an amount below 64.
#[derive(Clone, Copy, PartialEq, Eq)]
pub enum ShiftOp {
    Slli,
    Srli,
    Srai,
}

/// Instructions whose operands are two registers and an amount below 32.
#[derive(Clone, Copy, PartialEq, Eq)]
pub enum ShortShiftOp {
    Slliw,
    Srliw,
    Sraiw,
}

/// Instructions whose operands are a register, and a number and a register in brackets.
#[derive(Clone, Copy, PartialEq, Eq)]
pub enum LoadOp {
    Jalr,
    Lb,
    Lh,
    Lw,
    Ld,
    Lbu,
    Lhu,
    Lwu,
}

/// Instructions that store a register at a number and a register in brackets.
#[derive(Clone, Copy, PartialEq, Eq)]
pub enum StoreOp {
    Sb,
    Sh,
    Sw,
    Sd,
}

/// Instructions whose operands are a register and 20 bits.
#[derive(Clone, Copy, PartialEq, Eq)]
pub enum UpperOp {
    Lui,
    Auipc,
}

/// Instructions whose operands are a register, a CSR number and a register.
#[derive(Clone, Copy, PartialEq, Eq)]
pub enum CsrOp {
    Csrrw,
    Csrrs,
    Csrrc,
}

/// Instructions whose operands are a register, a CSR number and 5 bits.
#[derive(Clone, Copy, PartialEq, Eq)]
pub enum CsrImmediateOp {
    Csrrwi,
    Csrrsi,
    Csrrci,
}

/// Instructions without operands.
#[derive(Clone, Copy, PartialEq, Eq)]
pub enum BareOp {
    Ecall,
    Ebreak,
    Mret,
    Wfi,
    Fence,
    FenceI,
}

/// What the first word of a line stands for, by the form of the operands behind it.
#[derive(Clone, Copy)]
pub enum Op {
    /// `rd, rs1, rs2`
    Registers(RegisterOp),
    /// `rd, rs1, N`
    Immediate(ImmediateOp),
    /// `rd, rs1, N`, N below 64
    Shift(ShiftOp),
    /// `rd, rs1, N`, N below 32
    ShortShift(ShortShiftOp),
    /// `rd, N(rs1)`
    Load(LoadOp),
    /// `rs2, N(rs1)`
    Store(StoreOp),
    /// `rd, N`, N of 20 bits
    Upper(UpperOp),
    /// `rd, N, rs1`, N a CSR
    Csr(CsrOp),
    /// `rd, N, N`, the first a CSR
    CsrImmediate(CsrImmediateOp),
    /// No operand.
    Bare(BareOp),
    /// `rs1, rs2, name`
    Branch(Cond),
    /// `rd, name`: a jump that keeps the address behind it.
    Jump,
    /// `rd, name`: the address of a place, as two instructions.
    Address,
    /// `N`: eight bytes.
    Dword,
    /// `"TEXT"`: the bytes of a text.
    Ascii,
}

/// A name and what it stands for.
#[derive(Clone, Copy)]
pub struct Mnemonic {
    /// The bytes of the name, and zeros behind them.
    pub name: [u8; 8],
    pub op: Op,
}

/// Each name once: the instructions of RV64IM, Zicsr and Zifencei, MRET and WFI in lower case as the manual
/// lists them, `la`, and two directives.
pub const MNEMONICS: [Mnemonic; 77] = [
    Mnemonic {
        name: *b"add\0\0\0\0\0",
        op: Op::Registers(RegisterOp::Add),
    },
    Mnemonic {
        name: *b"sll\0\0\0\0\0",
        op: Op::Registers(RegisterOp::Sll),
    },
    Mnemonic {
        name: *b"slt\0\0\0\0\0",
        op: Op::Registers(RegisterOp::Slt),
    },
    Mnemonic {
        name: *b"sltu\0\0\0\0",
        op: Op::Registers(RegisterOp::Sltu),
    },
    Mnemonic {
        name: *b"xor\0\0\0\0\0",
        op: Op::Registers(RegisterOp::Xor),
    },
    Mnemonic {
        name: *b"srl\0\0\0\0\0",
        op: Op::Registers(RegisterOp::Srl),
    },
    Mnemonic {
        name: *b"or\0\0\0\0\0\0",
        op: Op::Registers(RegisterOp::Or),
    },
    Mnemonic {
        name: *b"and\0\0\0\0\0",
        op: Op::Registers(RegisterOp::And),
    },
    Mnemonic {
        name: *b"sub\0\0\0\0\0",
        op: Op::Registers(RegisterOp::Sub),
    },
    Mnemonic {
        name: *b"sra\0\0\0\0\0",
        op: Op::Registers(RegisterOp::Sra),
    },
    Mnemonic {
        name: *b"mul\0\0\0\0\0",
        op: Op::Registers(RegisterOp::Mul),
    },
    Mnemonic {
        name: *b"mulh\0\0\0\0",
        op: Op::Registers(RegisterOp::Mulh),
    },
    Mnemonic {
        name: *b"mulhsu\0\0",
        op: Op::Registers(RegisterOp::Mulhsu),
    },
    Mnemonic {
        name: *b"mulhu\0\0\0",
        op: Op::Registers(RegisterOp::Mulhu),
    },
    Mnemonic {
        name: *b"div\0\0\0\0\0",
        op: Op::Registers(RegisterOp::Div),
    },
    Mnemonic {
        name: *b"divu\0\0\0\0",
        op: Op::Registers(RegisterOp::Divu),
    },
    Mnemonic {
        name: *b"rem\0\0\0\0\0",
        op: Op::Registers(RegisterOp::Rem),
    },
    Mnemonic {
        name: *b"remu\0\0\0\0",
        op: Op::Registers(RegisterOp::Remu),
    },
    Mnemonic {
        name: *b"addw\0\0\0\0",
        op: Op::Registers(RegisterOp::Addw),
    },
    Mnemonic {
        name: *b"sllw\0\0\0\0",
        op: Op::Registers(RegisterOp::Sllw),
    },
    Mnemonic {
        name: *b"srlw\0\0\0\0",
        op: Op::Registers(RegisterOp::Srlw),
    },
    Mnemonic {
        name: *b"subw\0\0\0\0",
        op: Op::Registers(RegisterOp::Subw),
    },
    Mnemonic {
        name: *b"sraw\0\0\0\0",
        op: Op::Registers(RegisterOp::Sraw),
    },
    Mnemonic {
        name: *b"mulw\0\0\0\0",
        op: Op::Registers(RegisterOp::Mulw),
    },
    Mnemonic {
        name: *b"divw\0\0\0\0",
        op: Op::Registers(RegisterOp::Divw),
    },
    Mnemonic {
        name: *b"divuw\0\0\0",
        op: Op::Registers(RegisterOp::Divuw),
    },
    Mnemonic {
        name: *b"remw\0\0\0\0",
        op: Op::Registers(RegisterOp::Remw),
    },
    Mnemonic {
        name: *b"remuw\0\0\0",
        op: Op::Registers(RegisterOp::Remuw),
    },
    Mnemonic {
        name: *b"addi\0\0\0\0",
        op: Op::Immediate(ImmediateOp::Addi),
    },
    Mnemonic {
        name: *b"slti\0\0\0\0",
        op: Op::Immediate(ImmediateOp::Slti),
    },
    Mnemonic {
        name: *b"sltiu\0\0\0",
        op: Op::Immediate(ImmediateOp::Sltiu),
    },
    Mnemonic {
        name: *b"xori\0\0\0\0",
        op: Op::Immediate(ImmediateOp::Xori),
    },
    Mnemonic {
        name: *b"ori\0\0\0\0\0",
        op: Op::Immediate(ImmediateOp::Ori),
    },
    Mnemonic {
        name: *b"andi\0\0\0\0",
        op: Op::Immediate(ImmediateOp::Andi),
    },
    Mnemonic {
        name: *b"addiw\0\0\0",
        op: Op::Immediate(ImmediateOp::Addiw),
    },
    Mnemonic {
        name: *b"slli\0\0\0\0",
        op: Op::Shift(ShiftOp::Slli),
    },
    Mnemonic {
        name: *b"srli\0\0\0\0",
        op: Op::Shift(ShiftOp::Srli),
    },
    Mnemonic {
        name: *b"srai\0\0\0\0",
        op: Op::Shift(ShiftOp::Srai),
    },
    Mnemonic {
        name: *b"slliw\0\0\0",
        op: Op::ShortShift(ShortShiftOp::Slliw),
    },
    Mnemonic {
        name: *b"srliw\0\0\0",
        op: Op::ShortShift(ShortShiftOp::Srliw),
    },
    Mnemonic {
        name: *b"sraiw\0\0\0",
        op: Op::ShortShift(ShortShiftOp::Sraiw),
    },
    Mnemonic {
        name: *b"jalr\0\0\0\0",
        op: Op::Load(LoadOp::Jalr),
    },
    Mnemonic {
        name: *b"lb\0\0\0\0\0\0",
        op: Op::Load(LoadOp::Lb),
    },
    Mnemonic {
        name: *b"lh\0\0\0\0\0\0",
        op: Op::Load(LoadOp::Lh),
    },
    Mnemonic {
        name: *b"lw\0\0\0\0\0\0",
        op: Op::Load(LoadOp::Lw),
    },
    Mnemonic {
        name: *b"ld\0\0\0\0\0\0",
        op: Op::Load(LoadOp::Ld),
    },
    Mnemonic {
        name: *b"lbu\0\0\0\0\0",
        op: Op::Load(LoadOp::Lbu),
    },
    Mnemonic {
        name: *b"lhu\0\0\0\0\0",
        op: Op::Load(LoadOp::Lhu),
    },
    Mnemonic {
        name: *b"lwu\0\0\0\0\0",
        op: Op::Load(LoadOp::Lwu),
    },
    Mnemonic {
        name: *b"sb\0\0\0\0\0\0",
        op: Op::Store(StoreOp::Sb),
    },
    Mnemonic {
        name: *b"sh\0\0\0\0\0\0",
        op: Op::Store(StoreOp::Sh),
    },
    Mnemonic {
        name: *b"sw\0\0\0\0\0\0",
        op: Op::Store(StoreOp::Sw),
    },
    Mnemonic {
        name: *b"sd\0\0\0\0\0\0",
        op: Op::Store(StoreOp::Sd),
    },
    Mnemonic {
        name: *b"lui\0\0\0\0\0",
        op: Op::Upper(UpperOp::Lui),
    },
    Mnemonic {
        name: *b"auipc\0\0\0",
        op: Op::Upper(UpperOp::Auipc),
    },
    Mnemonic {
        name: *b"csrrw\0\0\0",
        op: Op::Csr(CsrOp::Csrrw),
    },
    Mnemonic {
        name: *b"csrrs\0\0\0",
        op: Op::Csr(CsrOp::Csrrs),
    },
    Mnemonic {
        name: *b"csrrc\0\0\0",
        op: Op::Csr(CsrOp::Csrrc),
    },
    Mnemonic {
        name: *b"csrrwi\0\0",
        op: Op::CsrImmediate(CsrImmediateOp::Csrrwi),
    },
    Mnemonic {
        name: *b"csrrsi\0\0",
        op: Op::CsrImmediate(CsrImmediateOp::Csrrsi),
    },
    Mnemonic {
        name: *b"csrrci\0\0",
        op: Op::CsrImmediate(CsrImmediateOp::Csrrci),
    },
    Mnemonic {
        name: *b"ecall\0\0\0",
        op: Op::Bare(BareOp::Ecall),
    },
    Mnemonic {
        name: *b"ebreak\0\0",
        op: Op::Bare(BareOp::Ebreak),
    },
    Mnemonic {
        name: *b"mret\0\0\0\0",
        op: Op::Bare(BareOp::Mret),
    },
    Mnemonic {
        name: *b"wfi\0\0\0\0\0",
        op: Op::Bare(BareOp::Wfi),
    },
    Mnemonic {
        name: *b"fence\0\0\0",
        op: Op::Bare(BareOp::Fence),
    },
    Mnemonic {
        name: *b"fence.i\0",
        op: Op::Bare(BareOp::FenceI),
    },
    Mnemonic {
        name: *b"beq\0\0\0\0\0",
        op: Op::Branch(Cond::Eq),
    },
    Mnemonic {
        name: *b"bne\0\0\0\0\0",
        op: Op::Branch(Cond::Ne),
    },
    Mnemonic {
        name: *b"blt\0\0\0\0\0",
        op: Op::Branch(Cond::Lt),
    },
    Mnemonic {
        name: *b"bge\0\0\0\0\0",
        op: Op::Branch(Cond::Ge),
    },
    Mnemonic {
        name: *b"bltu\0\0\0\0",
        op: Op::Branch(Cond::Ltu),
    },
    Mnemonic {
        name: *b"bgeu\0\0\0\0",
        op: Op::Branch(Cond::Geu),
    },
    Mnemonic {
        name: *b"jal\0\0\0\0\0",
        op: Op::Jump,
    },
    Mnemonic {
        name: *b"la\0\0\0\0\0\0",
        op: Op::Address,
    },
    Mnemonic {
        name: *b".dword\0\0",
        op: Op::Dword,
    },
    Mnemonic {
        name: *b".ascii\0\0",
        op: Op::Ascii,
    },
];

// What the first row of this name stands for.
fn op_among(rows: &[Mnemonic], name: &[u8]) -> Option<Op>
    ensures { result ≡ op_in rows.now name.now }
{
    for row in rows {
        if cut(&row.name, 0).0 == name {
            return Some(row.op);
        }
    }
    None
}

/// What the name stands for, if it is one.
#[tactic(auto, unfolding(crate::specs::Table::op_of))]
pub fn op_named(name: &[u8]) -> Option<Op>
    ensures { result ≡ op_of name.now }
{
    op_among(&MNEMONICS, name)
}
