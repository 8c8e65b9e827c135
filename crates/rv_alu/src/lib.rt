// What RV64IM instructions compute, what each does to the machine that it runs on, and why one traps.
//
// The results of the operations on registers are the manual's whole-number formulas, for every
// operand. `act` turns an instruction into one of ten effects over the registers and the pc. An
// effect holds no length, word, next pc or mode, so each machine that steps instructions carries
// out the same effects by its own rules for memory and traps. `Cause` is why any of them traps.
// Nothing here takes memory.
#![tactic(auto)]

mod arithmetic;
mod causes;
mod effects;
mod laws;
#[cfg(test)]
mod tests;

pub use arithmetic::{AluOp, AluWOp, MulOp, alu, alu_w, mul_div, taken};
pub use causes::{Cause, Trap};
pub use effects::{CsrOp, Effect, Size, act, loaded, put};
pub use laws::effects_in_range;
