// Program files and what a program finds in memory at its start. `read_elf` reads a file in the ELF-64 format for
// RISC-V: it gives the image exactly of an accepted file, and for every other the fault that the file has. An image
// that was read is always fit to be run. `main_vars` makes the bytes of the stack's first frame: the count of the
// arguments, the pointers to them and their texts.
#![tactic(auto)]

mod area;
mod arguments;
mod check;
mod fault;
mod header;
mod image;
mod read;

pub use arguments::{main_vars, main_vars_len};
pub use fault::{ElfFault, ElfStop};
pub use image::{Image, Segments};
pub use read::read_elf;
