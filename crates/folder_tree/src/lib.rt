// A tree of files behind a trait: what each call answers and does to the tree stands in `specs/TreeOps`, one row a
// call, and a folder that tells its tree answers by these rows. A folder also counts its faults and its wants of
// memory, and each refusal raises its count. `read_path` reads the text of a path.
#![tactic(auto)]

mod folder;
mod path;
#[cfg(test)]
mod tests;

pub use folder::{Folder, FolderStop, PathKind, is_writable};
pub use path::{Path, read_path};
