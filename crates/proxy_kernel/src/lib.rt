// The proxy kernel: what runs in machine mode on the hart and passes a program's calls on to the host.
//
// `src/list.rt` is its text, and `specs/Kernel` the list of items that the text stands for. `kernel_items` gives
// that list, and `kernel_image` its code at the start of the kernel area. What the kernel does is no matter of this
// crate: docs/KERNEL.md tells it.
#![tactic(auto)]

mod image;
mod list;
mod rows;
#[cfg(test)]
mod tests;

pub use image::{kernel_image, kernel_items};
