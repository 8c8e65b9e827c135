// The instruction table of RV64IM: what a 32-bit instruction word stands for, and which word stands
// for an instruction.
//
// The table is `specs/InsnTable`: for each instruction the format of its words and the values of
// their fixed fields, as equations on the word. `decode` answers the one instruction in whose row the
// word stands, and None exactly where it stands in none; `encode` answers a word of the
// instruction's row, for fields that are in the ranges of `specs/Fits`, and decoding that word gives
// the instruction back.
//
// A `Decoder` answers the same, and keeps the words that it decoded last with their instructions, for
// machines that step.
//
// The table holds RV64I, M, Zicsr, Zifencei, MRET and WFI. Nothing here takes memory.
#![tactic(auto)]

mod decoder;
mod decoding;
mod encoding;
mod instruction;
mod opcodes;
#[cfg(test)]
mod tests;
mod word_fields;

pub use decoder::Decoder;
pub use decoding::decode;
pub use encoding::encode;
pub use instruction::{Cond, INSTRUCTION_ALIGNMENT, Insn};
