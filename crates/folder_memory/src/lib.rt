// A folder in memory, which tells its tree. `MemoryFolder` meets the trait `Folder`; each call of a listed number
// fails. Names stand in a map by the text of their path, what files hold in a slab to whose keys file numbers lead, and
// opens in a list with an entry for each.
#![tactic(auto)]

mod contents;
mod folder;
mod held;
mod names;
mod opens;
#[cfg(test)]
mod tests;
mod tree;

pub use folder::MemoryFolder;
