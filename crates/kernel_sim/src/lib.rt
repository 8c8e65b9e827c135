// The kernel's phases: what holds in each, and the step from each to the next.
//
// A `Phase` tells where kernel and host are while the hart runs: the program's state, the mailbox, and how far a path
// or a message has come. `specs/Rows` says row by row what holds in each phase, of the hart and of the kernel area;
// `Holds` is that, and the hart's place in the kernel's code. `begin` is the phase of a hart that begins over loaded
// memory, `advance` makes one step of the hart, and `host_write` one write of the host; each answers the phase that
// holds then. `begin_holds`, `steps_advance` and `host_writes_hold` are the same as laws of the definitions. Each step
// lowers the number of steps left (`specs/Progress`), but where the program runs, the kernel waits for its host, or a
// next byte is begun.
//
// An instruction of a hart in user mode, behind the PMP as the kernel sets it, is the user step of the direct machine:
// a next state, or a call, or a trap of the same cause and value. The hart's step takes that call or trap. Both are
// laws of the definitions, the contracts of `instructions_agree` and `user_steps_agree`; `step_user` makes such a step.
// `kernel_fences` says that the kernel's three writes set that PMP.
//
// Nothing here takes memory.
#![tactic(auto)]

pub mod laws;
pub mod phase;
pub mod start;
pub mod steps;
#[cfg(test)]
mod tests;
pub mod user_mode;
mod words;
pub mod writes;

pub use laws::{
    begin_holds, host_writes_hold, image_loads, reset_begins, steps_advance, steps_bounded,
    steps_lower, writes_lower,
};
pub use phase::{Phase, PhaseKind, Spoken, UserState};
pub use start::begin;
pub use steps::advance;
pub use user_mode::{instructions_agree, kernel_fences, step_user, user_steps_agree};
pub use writes::host_write;
