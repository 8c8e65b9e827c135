// A session: a program on a target, whose kernel and program the host loads and whose calls it makes, beside the
// direct run of the same program.
//
// There is no code here yet: definitions, and laws of them.
// - `specs/Place` says at which step of the direct run a session stands, and what agrees there. `specs/Texts` is what
//   the host does, as one text: it loads, lets the hart begin, and makes the host turns of `htif_mailbox`.
//   `specs/Tethered` is the tethered run: that text over the turns of a target from reset (`specs/ToldActs`), which has
//   one state and one end for each number of turns (`tethered_once`), however many host turns the text has
//   (`more_turns`).
// - `specs/Seen`: what is followed over a target behind a line is followed over what is seen of it, hart steps and
//   accesses (`lines_are_seen`). `specs/SeenWords`: there a read only lets the hart run, a word of the kernel is read
//   or written at one moment (`words_are_seen`), and user steps never fall (`steps_never_fall`).
// - What stands beside the direct run: `specs/Between` while the program runs, and in the kernel until a call is
//   posted; `specs/Waiting` and `specs/Serving` while the host handles it; `specs/Behind` until the program runs
//   again; `specs/Own` while the kernel answers a call itself.
// - `laws` has what is proved, of a call from the program and back to it: a step in user mode is a step of the direct
//   run (`user_steps_follow`); the kernel leaves a call to be made until it is posted (`call_steps_follow`), and then
//   waits (`posted_calls_wait`, `stays_waiting`); the part of a host turn on tohost makes the direct run's step,
//   whatever the call (`serves_calls`, and `serves_words` from behind the read of the word), and whatever it comes to,
//   console, input and files are the direct run's at the place (`calls_agree`); the answer is then given
//   (`gives_answers`) and taken back to the program (`answered_calls_return`, `answer_steps_follow`). A call that the
//   kernel answers itself is taken back too (`own_calls_begin`, `own_answers_follow`). What is loaded stands in memory
//   while the hart is held (`loads_hold`), and behind the write of the start word it is held no more (`starts_hart`).
//
// Not proved yet: a session as a whole. From the loaded memory to the program's first step see `tether_boot`, and from a
// trap that is no call to its message and exit `tether_traps`.
#![tactic(auto)]

pub mod laws;

pub use laws::{
    answer_steps_follow, answered_calls_return, call_steps_follow, calls_agree, gives_answers,
    lines_are_seen, loads_hold, more_turns, own_answers_follow, own_calls_begin, posted_calls_wait,
    serves_calls, serves_words, starts_hart, stays_waiting, steps_never_fall, takes_user_writes,
    tethered_once, user_steps_follow, words_are_seen,
};
