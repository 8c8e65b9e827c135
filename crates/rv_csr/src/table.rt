// Which registers there are, by number.
ghost use Rattle.std.specs.Prelude.{◌≡◌, ◌<◌, ◌%◌, ◌^◌};
ghost use Rattle.rv_csr.specs.Fields as field;
ghost use Rattle.rv_csr.specs.CsrTable as spec;

use rv_decode::INSTRUCTION_ALIGNMENT;

/// A register, by its name in the Privileged Architecture.
#[derive(Clone, Copy)]
pub enum Csr {
    Mstatus,
    Misa,
    Mie,
    Mtvec,
    Mcounteren,
    Mscratch,
    Mepc,
    Mcause,
    Mtval,
    Mip,
    Pmpcfg0,
    Pmpaddr0,
    Pmpaddr1,
    Mhartid,
}

/// The register of a number, if there is one.
#[tactic(auto, unfolding(crate::specs::CsrTable::csr_of))]
pub fn csr_of(number: u16) -> Option<Csr>
    ensures { result ≡ spec.csr_of number }
{
    match number {
        0x300 => Some(Csr::Mstatus),
        0x301 => Some(Csr::Misa),
        0x304 => Some(Csr::Mie),
        0x305 => Some(Csr::Mtvec),
        0x306 => Some(Csr::Mcounteren),
        0x340 => Some(Csr::Mscratch),
        0x341 => Some(Csr::Mepc),
        0x342 => Some(Csr::Mcause),
        0x343 => Some(Csr::Mtval),
        0x344 => Some(Csr::Mip),
        0x3a0 => Some(Csr::Pmpcfg0),
        0x3b0 => Some(Csr::Pmpaddr0),
        0x3b1 => Some(Csr::Pmpaddr1),
        0xf14 => Some(Csr::Mhartid),
        _ => None,
    }
}

/// The number is that of a register that is only read.
pub fn is_read_only(number: u16) -> bool
    ensures { result ≡ spec.is_read_only number }
{
    bits(u64::from(number), 10, 2) == 3
}

/// The number that `count` bits spell, from bit `low` upward.
pub fn bits(number: u64, low: u32, count: u32) -> u64
    requires low { low < 64 }
    requires count { count < 64 }
    ensures value { result ≡ field.bits number low count }
    ensures range { result < 2 ^ count }
{
    (number >> low) % (1 << count)
}

/// Bit `place` is 1.
pub fn is_set(number: u64, place: u32) -> bool
    requires { place < 64 }
    ensures { result ≡ field.is_set number place }
{
    bits(number, place, 1) == 1
}

/// The address with its low two bits cleared.
pub fn aligned(address: u64) -> u64
    ensures value { result ≡ field.aligned address }
    ensures aligned { result % 4 ≡ 0 }
{
    address - address % 4
}

/// The last address up to this one at which an instruction may stand.
pub fn instruction_aligned(address: u64) -> u64
    ensures value { result ≡ field.instruction_aligned address }
    ensures aligned { result % INSTRUCTION_ALIGNMENT ≡ 0 }
{
    address - address % INSTRUCTION_ALIGNMENT
}
