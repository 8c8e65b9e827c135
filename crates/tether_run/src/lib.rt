// A session beside the direct run of the same program: between two acts of its host, host turn by host turn, and whole.
//
// There is no code here: definitions, and laws of them, over what is seen of a target.
// - `specs/Hands` says what stands wherever the kernel is: the hand. `specs/HostTurns` has the host's turns one after
//   the other, with what the host notes, and what they come to. `specs/Sessions` is a session from reset.
// - `laws` has what is proved: a step of the hart keeps the hand (`hand_steps`, `hands_stay`), where the session agrees
//   with the direct run, which has not ended (`standing_is_open`). The part of a host turn on tohost leaves the session
//   standing, or it is over and so is the direct run, or it was refused and agrees (`serves_hands`); the part on
//   fromhost leaves it standing, or was refused (`gives_hands`); and so do host turns one after the other
//   (`turns_agree`). What is followed of a session's text is such a session (`texts_are_sessions`), and so is what is
//   seen of one over a line (`sessions_are_seen`). Whatever it answers, it agrees with the direct run at its place, and
//   answers an exit exactly where the direct run has ended there (`sessions_agree`).
#![tactic(auto)]

pub mod laws;

pub use laws::{
    gives_hands, hand_steps, hands_stay, serves_hands, sessions_agree, sessions_are_seen,
    standing_is_open, texts_are_sessions, turns_agree,
};
