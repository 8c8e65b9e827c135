// The operations on registers that instructions name.
ghost use Rattle.std.specs.Prelude.{◌≡◌, ◌<◌, ◌^◌, ◌*◌, ◌/◌, ◌*ℤ◌, pos, int_div, int_rem};
ghost use Rattle.rv_alu.specs.Numbers as number;
ghost use Rattle.rv_alu.specs.Numbers.{register_of, word_of, floor_div};
ghost use Rattle.rv_alu.specs.Formulas as formula;

use rv_decode::Cond;

/// An operation on whole registers: the register forms of RV64I and their immediate forms.
#[derive(Clone, Copy, Debug, PartialEq, Eq)]
pub enum AluOp {
    Add,
    Sub,
    Sll,
    Slt,
    Sltu,
    Xor,
    Srl,
    Sra,
    Or,
    And,
}

/// An operation on low words: the W forms of RV64I.
#[derive(Clone, Copy, Debug, PartialEq, Eq)]
pub enum AluWOp {
    Add,
    Sub,
    Sll,
    Srl,
    Sra,
}

/// An operation of the M extension.
#[derive(Clone, Copy, Debug, PartialEq, Eq)]
pub enum MulOp {
    Mul,
    Mulh,
    Mulhsu,
    Mulhu,
    Div,
    Divu,
    Rem,
    Remu,
    Mulw,
    Divw,
    Divuw,
    Remw,
    Remuw,
}

/// Whether a branch on this condition is taken.
#[inline(always)]
pub fn taken(cond: Cond, a: u64, b: u64) -> bool
    ensures { result ≡ formula.taken cond a b }
{
    match cond {
        Cond::Eq => a == b,
        Cond::Ne => a != b,
        Cond::Lt => a.cast_signed() < b.cast_signed(),
        Cond::Ge => a.cast_signed() >= b.cast_signed(),
        Cond::Ltu => a < b,
        Cond::Geu => a >= b,
    }
}

#[inline(always)]
fn low_word(a: u64) -> u32
    ensures { result ≡ number.low_word a }
{
    (a % (1 << 32)) as u32
}

#[inline(always)]
fn extended_word(a: u32) -> u64
    ensures { result ≡ number.extended_word a }
{
    i64::from(a.cast_signed()).cast_unsigned()
}

#[inline(always)]
fn shifted_right(a: i64, by: u32) -> u64
    requires { by < 64 }
    ensures { result ≡ register_of (floor_div a (2 ^ by)) }
{
    (a >> by).cast_unsigned()
}

#[inline(always)]
fn word_shifted_right(a: i32, by: u32) -> u32
    requires { by < 32 }
    ensures { result ≡ word_of (floor_div a (2 ^ by)) }
{
    (a >> by).cast_unsigned()
}

/// The result of an operation on whole registers; a shift takes the low six bits of `b`.
#[inline(always)]
pub fn alu(op: AluOp, a: u64, b: u64) -> u64
    ensures { result ≡ formula.alu op a b }
{
    let by = (b % 64) as u32;
    match op {
        AluOp::Add => a.wrapping_add(b),
        AluOp::Sub => a.wrapping_sub(b),
        AluOp::Sll => a << by,
        AluOp::Slt => u64::from(a.cast_signed() < b.cast_signed()),
        AluOp::Sltu => u64::from(a < b),
        AluOp::Xor => a ^ b,
        AluOp::Srl => a >> by,
        AluOp::Sra => shifted_right(a.cast_signed(), by),
        AluOp::Or => a | b,
        AluOp::And => a & b,
    }
}

/// The result of an operation on low words, sign-extended; a shift takes the low five bits of `b`.
#[inline(always)]
pub fn alu_w(op: AluWOp, a: u64, b: u64) -> u64
    ensures { result ≡ formula.alu_w op a b }
{
    let by = (b % 32) as u32;
    let a = low_word(a);
    let b = low_word(b);
    match op {
        AluWOp::Add => extended_word(a.wrapping_add(b)),
        AluWOp::Sub => extended_word(a.wrapping_sub(b)),
        AluWOp::Sll => extended_word(a << by),
        AluWOp::Srl => extended_word(a >> by),
        AluWOp::Sra => extended_word(word_shifted_right(a.cast_signed(), by)),
    }
}

#[inline(always)]
fn high_half(product: i128) -> u64
    ensures { result ≡ register_of (floor_div product (2 ^ 64)) }
{
    (product.cast_unsigned() >> 64) as u64
}

fn high_signed(a: i64, b: i64) -> u64
    ensures { result ≡ register_of (floor_div (a *ℤ b) (2 ^ 64)) }
{
    high_half(i128::from(a) * i128::from(b))
}

fn high_mixed(a: i64, b: u64) -> u64
    ensures { result ≡ register_of (floor_div (a *ℤ pos b) (2 ^ 64)) }
{
    high_half(i128::from(a) * i128::from(b))
}

fn high_unsigned(a: u64, b: u64) -> u64
    ensures { result ≡ a * b / 2 ^ 64 }
{
    ((u128::from(a) * u128::from(b)) >> 64) as u64
}

fn quotient(a: u64, b: u64) -> u64
    requires { 0 < b }
    ensures { result ≡ register_of (int_div (number.signed a) (number.signed b)) }
{
    a.cast_signed()
        .wrapping_div(b.cast_signed())
        .cast_unsigned()
}

fn remainder(a: u64, b: u64) -> u64
    requires { 0 < b }
    ensures { result ≡ register_of (int_rem (number.signed a) (number.signed b)) }
{
    a.cast_signed()
        .wrapping_rem(b.cast_signed())
        .cast_unsigned()
}

fn word_quotient(a: u32, b: u32) -> u32
    requires { 0 < b }
    ensures { result ≡ word_of (int_div (number.signed_word a) (number.signed_word b)) }
{
    a.cast_signed()
        .wrapping_div(b.cast_signed())
        .cast_unsigned()
}

fn word_remainder(a: u32, b: u32) -> u32
    requires { 0 < b }
    ensures { result ≡ word_of (int_rem (number.signed_word a) (number.signed_word b)) }
{
    a.cast_signed()
        .wrapping_rem(b.cast_signed())
        .cast_unsigned()
}

/// The result of a multiplication or division; division by zero and overflow are no errors.
pub fn mul_div(op: MulOp, a: u64, b: u64) -> u64
    ensures { result ≡ formula.mul_div op a b }
{
    let low_a = low_word(a);
    let low_b = low_word(b);
    match op {
        MulOp::Mul => a.wrapping_mul(b),
        MulOp::Mulh => high_signed(a.cast_signed(), b.cast_signed()),
        MulOp::Mulhsu => high_mixed(a.cast_signed(), b),
        MulOp::Mulhu => high_unsigned(a, b),
        MulOp::Div if b == 0 => u64::MAX,
        MulOp::Div => quotient(a, b),
        MulOp::Divu if b == 0 => u64::MAX,
        MulOp::Divu => a / b,
        MulOp::Rem if b == 0 => a,
        MulOp::Rem => remainder(a, b),
        MulOp::Remu if b == 0 => a,
        MulOp::Remu => a % b,
        MulOp::Mulw => extended_word(low_a.wrapping_mul(low_b)),
        MulOp::Divw if low_b == 0 => u64::MAX,
        MulOp::Divw => extended_word(word_quotient(low_a, low_b)),
        MulOp::Divuw if low_b == 0 => u64::MAX,
        MulOp::Divuw => extended_word(low_a / low_b),
        MulOp::Remw if low_b == 0 => extended_word(low_a),
        MulOp::Remw => extended_word(word_remainder(low_a, low_b)),
        MulOp::Remuw if low_b == 0 => extended_word(low_a),
        MulOp::Remuw => extended_word(low_a % low_b),
    }
}
