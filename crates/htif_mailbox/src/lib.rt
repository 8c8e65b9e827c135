// The mailbox of a program's kernel: what the guest asks for by a word in tohost is done, and what is answered goes to
// fromhost (riscv-isa-sim, fesvr). Device 0 has the system calls and the program's end, device 1 the console.
//
// `specs/Turns` has a host turn as texts, `serve_text`, `give_text` and `turn_text`; by `played`, each of `serve`,
// `give` and `turn` follows its text, to its end or to a refusal. `specs/Commands` says what a word asks for. The
// other clauses say which count rose where an object is blamed, and what waits after a fault.
//
// Nothing here takes memory but the folder's own calls.
#![tactic(auto)]

mod answers;
mod commands;
mod handler;
mod mailbox;
mod outside;
#[cfg(test)]
mod tests;

pub use answers::{MailFault, Turned};
pub use mailbox::Mailbox;
