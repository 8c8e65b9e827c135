// Why a machine takes a trap.
ghost use Rattle.std.specs.Prelude.{◌≡◌, ◌<◌};
ghost use Rattle.rv_alu.specs.Causes.{cause_number};

/// The cause of a trap.
#[derive(Clone, Copy, Debug, PartialEq, Eq)]
pub enum Cause {
    /// A jump to an address at which no instruction may stand; the value is that address.
    Misaligned,
    /// An instruction that may not be fetched; the value is the byte that is refused.
    FetchAccess,
    /// A word that is no instruction in its mode; the value is the word.
    Illegal,
    /// EBREAK; the value is its address.
    Breakpoint,
    /// A load that may not be made; the value is the byte that is refused.
    LoadAccess,
    /// A store that may not be made; the value is the byte that is refused.
    StoreAccess,
    /// ECALL in user mode; the value is 0.
    UserCall,
    /// ECALL in machine mode; the value is 0.
    MachineCall,
}

/// A trap that is to be taken.
#[derive(Clone, Copy, Debug, PartialEq, Eq)]
pub struct Trap {
    /// Why.
    pub cause: Cause,
    /// What else is told of it.
    pub value: u64,
}

impl Cause {
    /// The number that the Privileged Architecture gives to the cause (3.1.15, mcause).
    pub fn number(self) -> u8
        ensures value { result ≡ cause_number self }
        ensures small { result < 16 }
    {
        match self {
            Cause::Misaligned => 0,
            Cause::FetchAccess => 1,
            Cause::Illegal => 2,
            Cause::Breakpoint => 3,
            Cause::LoadAccess => 5,
            Cause::StoreAccess => 7,
            Cause::UserCall => 8,
            Cause::MachineCall => 11,
        }
    }
}
