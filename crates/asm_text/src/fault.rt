// Why a text cannot be read.
ghost use Rattle.std.specs.Prelude.{◌≡◌};
ghost use Rattle.asm_text.specs.Faults.{number_of};

use thiserror::Error;

/// What is wrong with a line, by number.
#[derive(Clone, Copy, Debug, PartialEq, Eq, Error)]
pub enum TextKind {
    /// An operand is missing or too many, or has not its form; or a byte is above 0x7F.
    #[error("no line of assembly")]
    BadLine,
    /// The first word is no mnemonic.
    #[error("no name of an instruction or a directive")]
    UnknownName,
    /// An operand is no register.
    #[error("no register")]
    BadRegister,
    /// An operand is no number, or one that is out of its field.
    #[error("no number of the field's range")]
    BadNumber,
    /// An operand or what stands before a colon is no name.
    #[error("no name of a place")]
    BadLabel,
}

impl TextKind {
    /// The kind's number, from 1 to 5 in the order above.
    pub fn number(self) -> u8
        ensures { result ≡ number_of self }
    {
        match self {
            TextKind::BadLine => 1,
            TextKind::UnknownName => 2,
            TextKind::BadRegister => 3,
            TextKind::BadNumber => 4,
            TextKind::BadLabel => 5,
        }
    }
}

/// Why a text was not read.
#[derive(Clone, Copy, Debug, PartialEq, Eq, Error)]
pub enum TextFault {
    /// The text's first fault is of this kind, in this line, counted from 1.
    #[error("line {line}: {kind}")]
    At { line: u64, kind: TextKind },
    /// There was no memory for the items.
    #[error("out of memory")]
    OutOfMemory,
}
