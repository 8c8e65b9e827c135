// The control and status registers of a hart with machine mode and user mode (Privileged Architecture, chapters 2 and
// 3).
//
// - `Csrs` holds what the registers keep. It reads and writes them by number, and says which accesses are illegal; a
//   refused write changes nothing.
// - A trap and MRET change it as a whole, and answer where the hart goes on.
// - `allows` is the physical memory protection: two entries, each OFF or TOR, of which the first that matches any byte
//   of an access decides. It binds user mode alone, and takes every address and every width, wrap included.
//
// Nothing here takes memory.
#![tactic(auto)]

mod csrs;
mod pmp;
mod privilege;
mod table;
#[cfg(test)]
mod tests;

pub use csrs::Csrs;
pub use privilege::{Access, Mode};
