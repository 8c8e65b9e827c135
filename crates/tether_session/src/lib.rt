// The parts of a session over a target by transactions: what is written before the hart begins, and the parts of a
// host turn. A session itself is not here yet.
//
// `load` writes the kernel's image, the program's segments, the boot block and the start word; what it did is followed
// of that text over a line to the target, also where the port refused (`specs/Begins`). `serve` and `give` make the
// parts of a host turn on tohost and on fromhost with a mailbox; where folder, input and console tell what they hold,
// what they did is followed of the part's text over the line and what is told (`specs/RealLines`): of these acts the
// tethered run is made (`tether_base/specs/ToldActs`).
//
// Nothing here takes memory.
#![tactic(auto)]

mod loading;
mod turns;

pub use loading::load;
pub use turns::{give, give_over, serve, serve_over};
