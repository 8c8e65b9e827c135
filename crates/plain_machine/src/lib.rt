// The direct machine: a user program's instructions one after the other, and its calls done by themselves.
//
// `Plain` holds a program that was read from a file. A step of it is the direct step of `specs/Direct.antt`, a run of
// it the direct run: over objects that tell what they hold, the machine and the objects stand where so many direct
// steps lead, whatever is answered. A call is its kernel part (`specs/KernelPart`), and where that posts a request, the
// host's row of the call table, which `syscall_proxy` carries out over the machine's own memory. A fault of the outside
// is answered only where that object's count of faults rose; the step is then not made. A trap ends the program: its
// last words go to the console, one byte a step. No call but `Plain::start` takes memory of its own.
#![tactic(auto)]

mod calls;
mod cpu;
#[cfg(test)]
mod file_tests;
mod host_calls;
mod kernel_part;
mod laws;
mod machine;
mod messages;
mod plain;
mod start;
#[cfg(test)]
mod tests;

pub use laws::{posts_inside, user_steps_trap};
pub use plain::{Plain, PlainEnd, PlainFault};
