// A session from the loaded memory and the write of the start word to its program's first step, beside the start of the
// direct run. There is no code here: definitions, and laws of them.
// - `specs/Booting` says what stands in each phase until the program runs, and `specs/Handing` what the parts of a host
//   turn come to meanwhile.
// - `laws` has what is proved, for an image that may be run and main vars that fit: what is loaded stands in memory
//   (`loads_stand_inside`, `images_stand`); behind the write of the start word the hart begins (`hart_begins`); each
//   step goes on to the program, which begins as the direct run does (`boot_steps_follow`); the host writes the main
//   vars that the kernel asks for (`serves_boot`) and gives its answer (`gives_boot`); and whatever these come to, no
//   step of the program was made, and contents are the direct run's at the place (`boot_is_unbegun`, `boot_agrees`).
#![tactic(auto)]

pub mod laws;

pub use laws::{
    boot_agrees, boot_is_unbegun, boot_steps_follow, gives_boot, hart_begins, images_stand,
    loads_stand_inside, serves_boot,
};
