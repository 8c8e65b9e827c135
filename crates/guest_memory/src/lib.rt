// The memory of the target.
//
// - `Ram` is a list of bytes over one raw block: it loads and stores numbers of 1, 2, 4 or 8 bytes, little endian, and
//   lends ranges. Nothing undefined is done in the block's functions, and the block is given back when `Ram` is dropped.
// - `Bus` is the target's memory: the user area and the kernel area, in one `Ram`, and the start word. A contract sees it
//   as a record of these three, so an access of one leaves the others as fields that are not touched.
// - `laws` says what a load gives after a store.
//
// Only `Ram::new` and `Bus::new` take memory.
#![tactic(auto)]

mod block;
mod bus;
pub mod laws;
mod ram;
#[cfg(test)]
mod tests;

pub use bus::{Bus, is_ram};
pub use ram::Ram;
