// The words of assembly text, each table stated once: `MNEMONICS` has the names of instructions and of directives and
// says what each stands for, `REGISTERS` has the names of registers. The definition of the text form, its reader and
// its printer all look names up here: `op_named` and `register_named` read a name, `name_of` gives it back, and
// `registers_insn` and its kin make the instruction of a mnemonic. `cut` takes a text apart at a byte, as a row's name
// at the zeros behind it.
#![tactic(auto)]

mod cuts;
mod made;
mod mnemonics;
mod op_names;
mod registers;

pub use cuts::cut;
pub use made::{
    bare_insn, csr_immediate_insn, csr_insn, immediate_insn, load_insn, registers_insn, shift_insn,
    short_shift_insn, store_insn, upper_insn,
};
pub use mnemonics::{
    BareOp, CsrImmediateOp, CsrOp, ImmediateOp, LoadOp, MNEMONICS, Mnemonic, Op, RegisterOp,
    ShiftOp, ShortShiftOp, StoreOp, UpperOp, op_named,
};
pub use op_names::name_of;
pub use registers::{REGISTERS, Register, register_named};
