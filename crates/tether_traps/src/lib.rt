// From a trap that is no call to the exit behind its message, beside the direct run of the same program.
//
// There is no code here: definitions, and laws of them.
// - `specs/Saying` says what stands beside the direct run while the kernel says a message and posts the exit behind it,
//   `specs/Handling` what the host's part on tohost comes to there.
// - `laws` has what is proved: each step of the kernel takes the message on, to the exit that is posted
//   (`trap_steps_follow`, `trap_hands_stay`), and a word that waits in TOHOST stays (`words_stay`). The part of a host
//   turn on tohost puts the byte that waits, which the direct run says too, or handles the exit, with which it ends
//   (`words_are_handled`). On each of these outcomes, and in each state on the way, console, input and files are the
//   direct run's at the place (`handled_agree`, `traps_agree`), where what is noted is one more (`bytes_are_noted`),
//   and an exit is answered exactly where the direct run has ended there (`exits_agree`).
#![tactic(auto)]

pub mod laws;

pub use laws::{
    bytes_are_noted, exits_agree, handled_agree, trap_hands_stay, trap_steps_follow, traps_agree,
    words_are_handled, words_stay,
};
