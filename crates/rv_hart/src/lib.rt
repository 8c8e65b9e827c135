// A hart of RV64IM with machine mode and user mode, and its steps over the bus.
//
// `Hart::step` is one step of `specs/HartStep.antt`. A held hart begins to run where the start word is not 0. One that
// runs makes one instruction or takes its trap: it carries out the same effects as the direct machine, by the PMP and
// the bus in user mode and by the bus alone in machine mode, and counts the steps that begin in user mode. Halting and
// what a debugger asks of a halted hart are not built: a step is owed only where the debug lines ask for nothing.
//
// Nothing here takes memory.
#![tactic(auto)]

mod access;
mod debug;
mod hart;
mod laws;
#[cfg(test)]
mod tests;

pub use debug::{DebugLines, Job, Run};
pub use hart::Hart;
pub use laws::{machine_steps_uncounted, quiet_steps, steps_keep_range};
