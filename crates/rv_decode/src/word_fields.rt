// The fields of an instruction word.

ghost use Rattle.std.specs.Prelude.{◌≡◌, ◌<◌, ◌^◌};
ghost use Rattle.rv_decode.specs.Fields as spec;

// The number that `count` bits of the word spell, from bit `low` upward.
#[inline(always)]
pub fn bits(word: u32, low: u32, count: u32) -> u32
    requires low { low < 32 }
    requires count { count < 32 }
    ensures value { result ≡ spec.bits word low count }
    ensures range { result < 2 ^ count }
{
    (word >> low) % (1 << count)
}

// As `bits`, of at most 7 bits.
#[inline(always)]
fn small_bits(word: u32, low: u32, count: u32) -> u8
    requires low { low < 32 }
    requires count { count < 8 }
    ensures value { result ≡ spec.bits word low count }
    ensures range { result < 2 ^ count }
{
    bits(word, low, count) as u8
}

#[inline(always)]
pub fn opcode_in(word: u32) -> u32
    ensures { result ≡ spec.opcode word }
{
    bits(word, 0, 7)
}

#[inline(always)]
pub fn funct3_in(word: u32) -> u32
    ensures { result ≡ spec.funct3 word }
{
    bits(word, 12, 3)
}

// The bits above the amount of a 64-bit shift.
#[inline(always)]
pub fn funct6_in(word: u32) -> u32
    ensures { result ≡ spec.funct6 word }
{
    bits(word, 26, 6)
}

#[inline(always)]
pub fn funct7_in(word: u32) -> u32
    ensures { result ≡ spec.funct7 word }
{
    bits(word, 25, 7)
}

#[inline(always)]
pub fn rd_in(word: u32) -> u8
    ensures { result ≡ spec.rd_at word }
{
    small_bits(word, 7, 5)
}

#[inline(always)]
pub fn rs1_in(word: u32) -> u8
    ensures { result ≡ spec.rs1_at word }
{
    small_bits(word, 15, 5)
}

#[inline(always)]
pub fn rs2_in(word: u32) -> u8
    ensures { result ≡ spec.rs2_at word }
{
    small_bits(word, 20, 5)
}

// The amount of a 64-bit shift.
#[inline(always)]
pub fn amount_in(word: u32) -> u8
    ensures { result ≡ spec.amount_at word }
{
    small_bits(word, 20, 6)
}

// The 20 bits of a U-immediate.
#[inline(always)]
pub fn upper_imm(word: u32) -> u32
    ensures { result ≡ spec.upper_at word }
{
    bits(word, 12, 20)
}

// The I-immediate.
#[inline(always)]
pub fn i_imm(word: u32) -> i32
    ensures { result ≡ spec.i_at word }
{
    word.cast_signed() >> 20
}

// The S-immediate.
#[inline(always)]
pub fn s_imm(word: u32) -> i32
    ensures { result ≡ spec.s_at word }
{
    ((word.cast_signed() >> 25) << 5) + bits(word, 7, 5) as i32
}

// The B-immediate, a branch's offset.
#[inline(always)]
pub fn b_imm(word: u32) -> i32
    ensures { result ≡ spec.b_at word }
{
    let low = (bits(word, 7, 1) << 11) + (bits(word, 25, 6) << 5) + (bits(word, 8, 4) << 1);
    ((word.cast_signed() >> 31) << 12) + low as i32
}

// The J-immediate, a jump's offset.
#[inline(always)]
pub fn j_imm(word: u32) -> i32
    ensures { result ≡ spec.j_at word }
{
    let low = (bits(word, 12, 8) << 12) + (bits(word, 20, 1) << 11) + (bits(word, 21, 10) << 1);
    ((word.cast_signed() >> 31) << 20) + low as i32
}

#[inline(always)]
pub fn csr_in(word: u32) -> u16
    ensures { result ≡ spec.csr_at word }
{
    bits(word, 20, 12) as u16
}
