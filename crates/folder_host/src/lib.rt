// The working directory as a folder: the trusted edge of the file system. It tells no tree; what is proved of it is
// what the trait `Folder` owes of any folder: a refusal has its cause, and a read gives no more bytes than there is
// room for. Beside that, no name that leads out of the directory is handed to the system, and each open has a number
// that no other has.
//
// Symbolic links are followed, as the system does. What is neither a regular file nor a directory (a pipe, a socket, a
// device) is a fault, and is never opened.
#![tactic(auto)]

mod calls;
mod host_folder;
mod names;
#[cfg(test)]
mod tests;

pub use host_folder::HostFolder;
