// Assembly text and the items that it stands for, both ways.
//
// `read_asm` gives exactly the items of a text, each with its line, or the first fault; any bytes are a text.
// `specs/Layout` says what lines, comments and blanks are, `specs/Pieces` what an operand stands for, `specs/Reading`
// what a line stands for, `specs/Texts` what a whole text does. `specs/FirstFault` lists all faults of a line with
// their places; the one that `read_asm` tells is the first of them. `print_asm` writes items as `specs/Printing` says,
// and what it wrote reads back as these items.
#![tactic(auto)]

mod fault;
mod layout;
mod lines;
mod operands;
mod pieces;
mod printing;
mod reading;
mod spelled;
mod strings;
#[cfg(test)]
mod tests;
mod texts;

pub use fault::{TextFault, TextKind};
pub use lines::Lines;
pub use printing::print_asm;
pub use texts::{AsmText, read_asm};
