// What a row of a table says of one call, and the rules that each path is under.

use crate::trial::Trial;
use crate::words::{
    A_FILE, EACCES, EBADF, EINVAL, ENAMETOOLONG, ENOENT, HERE, LONG_NAME, LONG_PART, NO_NAME,
    NO_TEXT, RELATIVE, UPWARDS,
};
use syscall_proxy::CallAnswer;

/// What a call leaves, beside its result.
#[derive(Clone, Copy)]
pub enum Leaves {
    /// Files, console, input and buffer as they were.
    All,
    /// These bytes in the guest.
    Guest(u64, &'static [u8]),
    /// These bytes on the console.
    Console(&'static [u8]),
    /// A file with these bytes.
    File(&'static [u8], &'static [u8]),
    /// A name at which nothing stands.
    Free(&'static [u8]),
    /// A directory.
    Directory(&'static [u8]),
}

/// A call by its number and its first arguments, its result, and what it leaves.
#[derive(Clone, Copy)]
pub struct Row(pub [u64; 6], pub u64, pub Leaves);

/// What a call answers to a path that breaks a rule: the directory number, the path's place and length, the result.
pub static RULES: [(u64, u64, u64, u64); 12] = [
    (HERE, A_FILE, 0, EINVAL),
    (HERE, A_FILE, 4_097, EINVAL),
    (HERE, A_FILE, 1 << 63, EINVAL),
    (HERE, NO_TEXT, 3, EINVAL),
    (3, NO_TEXT + 1, 2, EINVAL),
    (HERE, NO_NAME, 2, ENOENT),
    (3, NO_NAME, 2, ENOENT),
    (3, RELATIVE, 2, EBADF),
    (3, UPWARDS + 1, 9, EBADF),
    (HERE, LONG_PART, 258, ENAMETOOLONG),
    (HERE, LONG_NAME, 4_096, ENAMETOOLONG),
    (HERE, UPWARDS, 10, EACCES),
];

/// The calls that take a path, with flags that make something where nothing stands.
pub static PATH_CALLS: [(u64, u64); 4] = [(34, 0), (35, 0), (48, 0), (56, 0x42)];

fn leaves_so(trial: &Trial, before: u64, leaves: Leaves) -> bool {
    match leaves {
        Leaves::All => trial.digest() == before,
        Leaves::Guest(at, bytes) => trial.has_guest(at, bytes),
        Leaves::Console(bytes) => trial.has_console(bytes),
        Leaves::File(text, bytes) => trial.has_file(text, bytes),
        Leaves::Free(text) => trial.is_free(text),
        Leaves::Directory(text) => trial.is_directory(text),
    }
}

impl Row {
    /// Makes the row's call, and compares.
    pub fn agrees(&self, trial: &mut Trial) -> Result<(), &'static str> {
        let before = trial.digest();
        if trial.call(self.0) != Ok(CallAnswer::Result(self.1)) {
            return Err("another result");
        }
        if !trial.acted() {
            return Err("it had not acted");
        }
        if !leaves_so(trial, before, self.2) {
            return Err("other things left");
        }
        Ok(())
    }
}
