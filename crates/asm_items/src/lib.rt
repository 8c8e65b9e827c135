// Assembly items: instructions, labels and data as values, and the code that a list of them stands for.
//
// `specs/ItemMeaning` says what a list of items stands for at a base address: instructions as values, with the
// offsets of their labels, and bytes; or the fault of the first item that has one. `assemble` gives bytes that
// hold it, each instruction as a word that decodes to it. `specs/Printable` says which items have a text.
#![tactic(auto)]

mod assembling;
mod fault;
mod item;
mod labels;
mod name;
#[cfg(test)]
mod tests;

pub use assembling::{Code, assemble};
pub use fault::AsmFault;
pub use item::{Item, Items};
pub use name::{Name, Text};
