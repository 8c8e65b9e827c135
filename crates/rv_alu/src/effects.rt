// What an instruction does to the machine that it runs on.
ghost use Rattle.std.specs.Prelude.{◌≡◌, ◌<◌, ◌^◌, ◌==◌, ◌||◌, true, false, IsTrue, slice_index};
ghost use Rattle.rv_decode.specs.Fits.{IsFit};
ghost use Rattle.rv_alu.specs.Formulas as formula;
ghost use Rattle.rv_alu.specs.Numbers as number;
ghost use Rattle.rv_alu.specs.Effects as spec;
ghost use Rattle.rv_alu.specs.Effects.{effect_of, bytes, IsInRange};

use crate::arithmetic::{AluOp, AluWOp, MulOp, alu, alu_w, mul_div, taken};
use rv_decode::{Cond, Insn};

/// How many bytes a load or a store moves: 1, 2, 4 or 8.
#[derive(Clone, Copy, Debug, PartialEq, Eq)]
pub enum Size {
    Byte,
    Half,
    Word,
    Double,
}

/// How a CSR instruction changes its register: by a value, or by the bits that a value names.
#[derive(Clone, Copy, Debug, PartialEq, Eq)]
pub enum CsrOp {
    Write,
    SetBits,
    ClearBits,
}

/// What an instruction does. After Pass, Set, Load, Store, Csr and Wait a machine goes on to the next
/// instruction.
#[derive(Clone, Copy, Debug, PartialEq, Eq)]
pub enum Effect {
    /// Nothing: a fence, or a branch that is not taken.
    Pass,
    /// `rd` gets `value`.
    Set {
        rd: u8,
        value: u64,
    },
    /// A jump or a taken branch: `rd` gets the address of the next instruction, and `target` is the
    /// next pc. A machine tests that it is aligned.
    Jump {
        rd: u8,
        target: u64,
    },
    /// `rd` gets the number at the address `at`, sign-extended where `extends`.
    Load {
        rd: u8,
        size: Size,
        extends: bool,
        at: u64,
    },
    /// The low bytes of `value` go to the address `at`.
    Store {
        size: Size,
        at: u64,
        value: u64,
    },
    /// `rd` gets what the CSR held, which changes by `op` where `writes`.
    Csr {
        rd: u8,
        csr: u16,
        op: CsrOp,
        value: u64,
        writes: bool,
    },
    /// ECALL.
    Call,
    /// EBREAK.
    Break,
    /// MRET.
    Return,
    /// WFI.
    Wait,
}

impl Size {
    /// The number of bytes.
    #[inline(always)]
    pub fn bytes(self) -> usize
        ensures value { result ≡ bytes self }
        ensures width { IsTrue (result == 1 || (result == 2 || (result == 4 || result == 8))) }
    {
        match self {
            Size::Byte => 1,
            Size::Half => 2,
            Size::Word => 4,
            Size::Double => 8,
        }
    }
}

/// What a load leaves in its register of the little-endian number that it read.
#[inline(always)]
pub fn loaded(size: Size, extends: bool, number: u64) -> u64
    requires { number < 256 ^ bytes size }
    ensures { result ≡ spec.loaded size extends number }
{
    match size {
        Size::Byte if extends => i64::from((number as u8).cast_signed()).cast_unsigned(),
        Size::Half if extends => i64::from((number as u16).cast_signed()).cast_unsigned(),
        Size::Word if extends => i64::from((number as u32).cast_signed()).cast_unsigned(),
        _ => number,
    }
}

/// Writes a register; a write of x0 does nothing.
#[tactic(auto, unfolding(crate::specs::Effects::put))]
#[inline(always)]
pub fn put(registers: &mut [u64; 32], rd: u8, value: u64)
    requires { rd < 32 }
    ensures after { registers.new ≡ spec.put registers.old rd value }
    ensures x0_stays { slice_index registers.new 0 ≡ slice_index registers.old 0 }
{
    if rd != 0 {
        registers[rd as usize] = value;
    }
}

#[inline(always)]
fn read(registers: &[u64; 32], n: u8) -> u64
    requires { n < 32 }
    ensures { result ≡ spec.read registers.now n }
{
    registers[n as usize]
}

#[inline(always)]
fn extended(imm: i32) -> u64
    ensures { result ≡ number.register_of imm }
{
    i64::from(imm).cast_unsigned()
}

#[inline(always)]
fn upper(imm: u32) -> u64
    requires { imm < 2 ^ 20 }
    ensures { result ≡ spec.upper imm }
{
    i64::from((imm << 12).cast_signed()).cast_unsigned()
}

#[inline(always)]
fn plus(base: u64, offset: i32) -> u64
    ensures { result ≡ spec.plus base offset }
{
    base.wrapping_add_signed(i64::from(offset))
}

#[inline(always)]
fn even(target: u64) -> u64
    ensures { result ≡ spec.even target }
{
    target - target % 2
}

#[inline(always)]
fn branch(cond: Cond, rs1: u8, rs2: u8, offset: i32, pc: u64, registers: &[u64; 32]) -> Effect
    requires rs1 { rs1 < 32 }
    requires rs2 { rs2 < 32 }
    ensures effect { let x = spec.read registers.now in
        result ≡ spec.branch (formula.taken cond (x rs1) (x rs2)) (spec.plus pc offset) }
    ensures in_range { IsInRange result }
{
    if taken(cond, read(registers, rs1), read(registers, rs2)) {
        Effect::Jump {
            rd: 0,
            target: plus(pc, offset),
        }
    } else {
        Effect::Pass
    }
}

#[inline(always)]
fn signed_load(size: Size, rd: u8, rs1: u8, imm: i32, registers: &[u64; 32]) -> Effect
    requires rd { rd < 32 }
    requires rs1 { rs1 < 32 }
    ensures effect { let x = spec.read registers.now in
        result ≡ Effect.Load rd size true (spec.plus (x rs1) imm) }
    ensures in_range { IsInRange result }
{
    Effect::Load {
        rd,
        size,
        extends: true,
        at: plus(read(registers, rs1), imm),
    }
}

#[inline(always)]
fn unsigned_load(size: Size, rd: u8, rs1: u8, imm: i32, registers: &[u64; 32]) -> Effect
    requires rd { rd < 32 }
    requires rs1 { rs1 < 32 }
    ensures effect { let x = spec.read registers.now in
        result ≡ Effect.Load rd size false (spec.plus (x rs1) imm) }
    ensures in_range { IsInRange result }
{
    Effect::Load {
        rd,
        size,
        extends: false,
        at: plus(read(registers, rs1), imm),
    }
}

#[inline(always)]
fn store(size: Size, rs1: u8, rs2: u8, imm: i32, registers: &[u64; 32]) -> Effect
    requires rs1 { rs1 < 32 }
    requires rs2 { rs2 < 32 }
    ensures effect { let x = spec.read registers.now in
        result ≡ Effect.Store size (spec.plus (x rs1) imm) (x rs2) }
    ensures in_range { IsInRange result }
{
    Effect::Store {
        size,
        at: plus(read(registers, rs1), imm),
        value: read(registers, rs2),
    }
}

#[inline(always)]
fn immediate(op: AluOp, rd: u8, rs1: u8, imm: i32, registers: &[u64; 32]) -> Effect
    requires rd { rd < 32 }
    requires rs1 { rs1 < 32 }
    ensures effect { let x = spec.read registers.now in
        result ≡ Effect.Set rd (formula.alu op (x rs1) (number.register_of imm)) }
    ensures in_range { IsInRange result }
{
    Effect::Set {
        rd,
        value: alu(op, read(registers, rs1), extended(imm)),
    }
}

#[inline(always)]
fn shift(op: AluOp, rd: u8, rs1: u8, amount: u8, registers: &[u64; 32]) -> Effect
    requires rd { rd < 32 }
    requires rs1 { rs1 < 32 }
    ensures effect { let x = spec.read registers.now in
        result ≡ Effect.Set rd (formula.alu op (x rs1) amount) }
    ensures in_range { IsInRange result }
{
    Effect::Set {
        rd,
        value: alu(op, read(registers, rs1), u64::from(amount)),
    }
}

#[inline(always)]
fn plain(op: AluOp, rd: u8, rs1: u8, rs2: u8, registers: &[u64; 32]) -> Effect
    requires rd { rd < 32 }
    requires rs1 { rs1 < 32 }
    requires rs2 { rs2 < 32 }
    ensures effect { let x = spec.read registers.now in
        result ≡ Effect.Set rd (formula.alu op (x rs1) (x rs2)) }
    ensures in_range { IsInRange result }
{
    Effect::Set {
        rd,
        value: alu(op, read(registers, rs1), read(registers, rs2)),
    }
}

#[inline(always)]
fn shift_w(op: AluWOp, rd: u8, rs1: u8, amount: u8, registers: &[u64; 32]) -> Effect
    requires rd { rd < 32 }
    requires rs1 { rs1 < 32 }
    ensures effect { let x = spec.read registers.now in
        result ≡ Effect.Set rd (formula.alu_w op (x rs1) amount) }
    ensures in_range { IsInRange result }
{
    Effect::Set {
        rd,
        value: alu_w(op, read(registers, rs1), u64::from(amount)),
    }
}

#[inline(always)]
fn plain_w(op: AluWOp, rd: u8, rs1: u8, rs2: u8, registers: &[u64; 32]) -> Effect
    requires rd { rd < 32 }
    requires rs1 { rs1 < 32 }
    requires rs2 { rs2 < 32 }
    ensures effect { let x = spec.read registers.now in
        result ≡ Effect.Set rd (formula.alu_w op (x rs1) (x rs2)) }
    ensures in_range { IsInRange result }
{
    Effect::Set {
        rd,
        value: alu_w(op, read(registers, rs1), read(registers, rs2)),
    }
}

#[inline(always)]
fn multiply(op: MulOp, rd: u8, rs1: u8, rs2: u8, registers: &[u64; 32]) -> Effect
    requires rd { rd < 32 }
    requires rs1 { rs1 < 32 }
    requires rs2 { rs2 < 32 }
    ensures effect { let x = spec.read registers.now in
        result ≡ Effect.Set rd (formula.mul_div op (x rs1) (x rs2)) }
    ensures in_range { IsInRange result }
{
    Effect::Set {
        rd,
        value: mul_div(op, read(registers, rs1), read(registers, rs2)),
    }
}

/// The effect of an instruction at `pc` over the registers x0 to x31, of which x0 is taken as it is
/// given. The sums of addresses wrap at 64 bits. `M` is the machine that carries it out: each has an
/// instance of its own, so that the instance's one call is compiled in line.
#[tactic(auto, unfolding(crate::specs::Effects::effect_of))]
pub fn act<M>(insn: &Insn, pc: u64, registers: &[u64; 32]) -> Effect
    requires { IsFit insn.now }
    ensures effect { result ≡ effect_of insn.now pc registers.now }
    ensures in_range { IsInRange result }
{
    match *insn {
        Insn::Lui { rd, imm } => Effect::Set {
            rd,
            value: upper(imm),
        },
        Insn::Auipc { rd, imm } => Effect::Set {
            rd,
            value: pc.wrapping_add(upper(imm)),
        },
        Insn::Jal { rd, offset } => Effect::Jump {
            rd,
            target: plus(pc, offset),
        },
        Insn::Jalr { rd, rs1, imm } => Effect::Jump {
            rd,
            target: even(plus(read(registers, rs1), imm)),
        },
        Insn::Beq { rs1, rs2, offset } => branch(Cond::Eq, rs1, rs2, offset, pc, registers),
        Insn::Bne { rs1, rs2, offset } => branch(Cond::Ne, rs1, rs2, offset, pc, registers),
        Insn::Blt { rs1, rs2, offset } => branch(Cond::Lt, rs1, rs2, offset, pc, registers),
        Insn::Bge { rs1, rs2, offset } => branch(Cond::Ge, rs1, rs2, offset, pc, registers),
        Insn::Bltu { rs1, rs2, offset } => branch(Cond::Ltu, rs1, rs2, offset, pc, registers),
        Insn::Bgeu { rs1, rs2, offset } => branch(Cond::Geu, rs1, rs2, offset, pc, registers),
        Insn::Lb { rd, rs1, imm } => signed_load(Size::Byte, rd, rs1, imm, registers),
        Insn::Lh { rd, rs1, imm } => signed_load(Size::Half, rd, rs1, imm, registers),
        Insn::Lw { rd, rs1, imm } => signed_load(Size::Word, rd, rs1, imm, registers),
        Insn::Ld { rd, rs1, imm } => unsigned_load(Size::Double, rd, rs1, imm, registers),
        Insn::Lbu { rd, rs1, imm } => unsigned_load(Size::Byte, rd, rs1, imm, registers),
        Insn::Lhu { rd, rs1, imm } => unsigned_load(Size::Half, rd, rs1, imm, registers),
        Insn::Lwu { rd, rs1, imm } => unsigned_load(Size::Word, rd, rs1, imm, registers),
        Insn::Sb { rs1, rs2, imm } => store(Size::Byte, rs1, rs2, imm, registers),
        Insn::Sh { rs1, rs2, imm } => store(Size::Half, rs1, rs2, imm, registers),
        Insn::Sw { rs1, rs2, imm } => store(Size::Word, rs1, rs2, imm, registers),
        Insn::Sd { rs1, rs2, imm } => store(Size::Double, rs1, rs2, imm, registers),
        Insn::Addi { rd, rs1, imm } => immediate(AluOp::Add, rd, rs1, imm, registers),
        Insn::Slti { rd, rs1, imm } => immediate(AluOp::Slt, rd, rs1, imm, registers),
        Insn::Sltiu { rd, rs1, imm } => immediate(AluOp::Sltu, rd, rs1, imm, registers),
        Insn::Xori { rd, rs1, imm } => immediate(AluOp::Xor, rd, rs1, imm, registers),
        Insn::Ori { rd, rs1, imm } => immediate(AluOp::Or, rd, rs1, imm, registers),
        Insn::Andi { rd, rs1, imm } => immediate(AluOp::And, rd, rs1, imm, registers),
        Insn::Slli { rd, rs1, amount } => shift(AluOp::Sll, rd, rs1, amount, registers),
        Insn::Srli { rd, rs1, amount } => shift(AluOp::Srl, rd, rs1, amount, registers),
        Insn::Srai { rd, rs1, amount } => shift(AluOp::Sra, rd, rs1, amount, registers),
        Insn::Addiw { rd, rs1, imm } => Effect::Set {
            rd,
            value: alu_w(AluWOp::Add, read(registers, rs1), extended(imm)),
        },
        Insn::Slliw { rd, rs1, amount } => shift_w(AluWOp::Sll, rd, rs1, amount, registers),
        Insn::Srliw { rd, rs1, amount } => shift_w(AluWOp::Srl, rd, rs1, amount, registers),
        Insn::Sraiw { rd, rs1, amount } => shift_w(AluWOp::Sra, rd, rs1, amount, registers),
        Insn::Add { rd, rs1, rs2 } => plain(AluOp::Add, rd, rs1, rs2, registers),
        Insn::Sub { rd, rs1, rs2 } => plain(AluOp::Sub, rd, rs1, rs2, registers),
        Insn::Sll { rd, rs1, rs2 } => plain(AluOp::Sll, rd, rs1, rs2, registers),
        Insn::Slt { rd, rs1, rs2 } => plain(AluOp::Slt, rd, rs1, rs2, registers),
        Insn::Sltu { rd, rs1, rs2 } => plain(AluOp::Sltu, rd, rs1, rs2, registers),
        Insn::Xor { rd, rs1, rs2 } => plain(AluOp::Xor, rd, rs1, rs2, registers),
        Insn::Srl { rd, rs1, rs2 } => plain(AluOp::Srl, rd, rs1, rs2, registers),
        Insn::Sra { rd, rs1, rs2 } => plain(AluOp::Sra, rd, rs1, rs2, registers),
        Insn::Or { rd, rs1, rs2 } => plain(AluOp::Or, rd, rs1, rs2, registers),
        Insn::And { rd, rs1, rs2 } => plain(AluOp::And, rd, rs1, rs2, registers),
        Insn::Addw { rd, rs1, rs2 } => plain_w(AluWOp::Add, rd, rs1, rs2, registers),
        Insn::Subw { rd, rs1, rs2 } => plain_w(AluWOp::Sub, rd, rs1, rs2, registers),
        Insn::Sllw { rd, rs1, rs2 } => plain_w(AluWOp::Sll, rd, rs1, rs2, registers),
        Insn::Srlw { rd, rs1, rs2 } => plain_w(AluWOp::Srl, rd, rs1, rs2, registers),
        Insn::Sraw { rd, rs1, rs2 } => plain_w(AluWOp::Sra, rd, rs1, rs2, registers),
        Insn::Mul { rd, rs1, rs2 } => multiply(MulOp::Mul, rd, rs1, rs2, registers),
        Insn::Mulh { rd, rs1, rs2 } => multiply(MulOp::Mulh, rd, rs1, rs2, registers),
        Insn::Mulhsu { rd, rs1, rs2 } => multiply(MulOp::Mulhsu, rd, rs1, rs2, registers),
        Insn::Mulhu { rd, rs1, rs2 } => multiply(MulOp::Mulhu, rd, rs1, rs2, registers),
        Insn::Div { rd, rs1, rs2 } => multiply(MulOp::Div, rd, rs1, rs2, registers),
        Insn::Divu { rd, rs1, rs2 } => multiply(MulOp::Divu, rd, rs1, rs2, registers),
        Insn::Rem { rd, rs1, rs2 } => multiply(MulOp::Rem, rd, rs1, rs2, registers),
        Insn::Remu { rd, rs1, rs2 } => multiply(MulOp::Remu, rd, rs1, rs2, registers),
        Insn::Mulw { rd, rs1, rs2 } => multiply(MulOp::Mulw, rd, rs1, rs2, registers),
        Insn::Divw { rd, rs1, rs2 } => multiply(MulOp::Divw, rd, rs1, rs2, registers),
        Insn::Divuw { rd, rs1, rs2 } => multiply(MulOp::Divuw, rd, rs1, rs2, registers),
        Insn::Remw { rd, rs1, rs2 } => multiply(MulOp::Remw, rd, rs1, rs2, registers),
        Insn::Remuw { rd, rs1, rs2 } => multiply(MulOp::Remuw, rd, rs1, rs2, registers),
        Insn::Fence { .. } | Insn::FenceI { .. } => Effect::Pass,
        Insn::Ecall => Effect::Call,
        Insn::Ebreak => Effect::Break,
        Insn::Mret => Effect::Return,
        Insn::Wfi => Effect::Wait,
        Insn::Csrrw { rd, rs1, csr } => Effect::Csr {
            rd,
            csr,
            op: CsrOp::Write,
            value: read(registers, rs1),
            writes: true,
        },
        Insn::Csrrs { rd, rs1, csr } => Effect::Csr {
            rd,
            csr,
            op: CsrOp::SetBits,
            value: read(registers, rs1),
            writes: rs1 != 0,
        },
        Insn::Csrrc { rd, rs1, csr } => Effect::Csr {
            rd,
            csr,
            op: CsrOp::ClearBits,
            value: read(registers, rs1),
            writes: rs1 != 0,
        },
        Insn::Csrrwi { rd, imm, csr } => Effect::Csr {
            rd,
            csr,
            op: CsrOp::Write,
            value: u64::from(imm),
            writes: true,
        },
        Insn::Csrrsi { rd, imm, csr } => Effect::Csr {
            rd,
            csr,
            op: CsrOp::SetBits,
            value: u64::from(imm),
            writes: imm != 0,
        },
        Insn::Csrrci { rd, imm, csr } => Effect::Csr {
            rd,
            csr,
            op: CsrOp::ClearBits,
            value: u64::from(imm),
            writes: imm != 0,
        },
    }
}
