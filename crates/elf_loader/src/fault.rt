// Why a file is no program.
ghost use Rattle.std.specs.Prelude.{◌≡◌};
ghost use Rattle.elf_loader.specs.Faults.{number_of};

use std::alloc::AllocError;
use thiserror::Error;

/// What is wrong with a file, in the order in which the faults are looked for. A number is that of a program header,
/// counted from 0.
#[derive(Clone, Copy, Debug, PartialEq, Eq, Error)]
pub enum ElfFault {
    /// It has more than 67,108,864 bytes.
    #[error("the file is too large")]
    TooLarge,
    /// It has fewer bytes than a file header.
    #[error("the file is too short")]
    Short,
    /// It does not begin as an ELF file.
    #[error("the file is no ELF file")]
    Magic,
    /// It is not for 64 bits.
    #[error("the file is not for 64 bits")]
    Class,
    /// It is not little-endian.
    #[error("the file is not little-endian")]
    Order,
    /// It is of another version of the format.
    #[error("the file's format has another version")]
    Version,
    /// It is no executable with fixed addresses.
    #[error("the file is no executable")]
    Kind,
    /// It is for another machine.
    #[error("the file is not for RISC-V")]
    Machine,
    /// It asks for compressed instructions, a float ABI or the embedded registers.
    #[error("the file asks for extensions that are not there")]
    Flags,
    /// Its headers have other sizes.
    #[error("the file's headers have other sizes")]
    HeaderSize,
    /// Its program headers reach behind its end.
    #[error("the program headers reach behind the file's end")]
    Headers,
    /// It asks for a dynamic linker.
    #[error("the file is linked dynamically")]
    Dynamic,
    /// This header has more bytes than its memory, or bytes behind the file's end.
    #[error("program header {0} has bytes that are not there")]
    Segment(u16),
    /// This header's memory is not inside the area for programs.
    #[error("program header {0} lies outside the memory for programs")]
    Outside(u16),
    /// The memories of these two headers meet.
    #[error("program headers {0} and {1} overlap")]
    Overlap(u16, u16),
    /// No instruction can stand at the entry.
    #[error("the entry is in no segment")]
    Entry,
}

impl ElfFault {
    /// The fault's number, from 1 to 16 in the order above.
    pub fn number(self) -> u8
        ensures { result ≡ number_of self }
    {
        match self {
            ElfFault::TooLarge => 1,
            ElfFault::Short => 2,
            ElfFault::Magic => 3,
            ElfFault::Class => 4,
            ElfFault::Order => 5,
            ElfFault::Version => 6,
            ElfFault::Kind => 7,
            ElfFault::Machine => 8,
            ElfFault::Flags => 9,
            ElfFault::HeaderSize => 10,
            ElfFault::Headers => 11,
            ElfFault::Dynamic => 12,
            ElfFault::Segment(_) => 13,
            ElfFault::Outside(_) => 14,
            ElfFault::Overlap(_, _) => 15,
            ElfFault::Entry => 16,
        }
    }
}

/// Why no image was made.
#[derive(Clone, Copy, Debug, PartialEq, Eq)]
pub enum ElfStop {
    /// The file is refused.
    Bad(ElfFault),
    /// There was no memory for the image.
    OutOfMemory,
}

impl From<AllocError> for ElfStop {
    ghost use Rattle.elf_loader.specs.declared.fault.ElfStop.TheVariants.{OutOfMemory};

    ghost from_gives = { λ _ e. e ≡ OutOfMemory };

    fn from(_: AllocError) -> Self {
        ElfStop::OutOfMemory
    }
}
