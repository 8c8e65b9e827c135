// Calls that follow each other, with the result of each: places, appending, removal, and numbers that are free again.

use crate::trial::Trial;
use crate::words::{
    A_FILE, BUFFER, EBADF, EFBIG, EINVAL, EMFILE, ENOENT, ESPIPE, HERE, NO_PARENT, TEXT, W_FILE,
};
use syscall_proxy::CallAnswer;

/// A call and its result.
#[derive(Clone, Copy)]
pub struct Step([u64; 6], u64);

/// Two opens of a file have places of their own, and what may not be read does not move.
static PLACES: [Step; 10] = [
    Step([56, HERE, A_FILE, 3, 0, 0], 3),
    Step([56, HERE, A_FILE, 3, 0, 0], 4),
    Step([63, 3, BUFFER, 2, 0, 0], 2),
    Step([63, 4, BUFFER, 5, 0, 0], 5),
    Step([62, 3, 0, 1, 0, 0], 2),
    Step([67, 3, BUFFER, 5, 0, 0], 5),
    Step([64, 3, TEXT, 2, 0, 0], EBADF),
    Step([62, 3, 0, 1, 0, 0], 2),
    Step([63, 4, BUFFER, 1, 0, 0], 0),
    Step([62, 4, 0, 1, 0, 0], 5),
];

/// What is appended goes to where the file ends then.
static APPENDED: [Step; 8] = [
    Step([56, HERE, W_FILE, 3, 0x401, 0], 3),
    Step([56, HERE, W_FILE, 3, 2, 0], 4),
    Step([64, 4, TEXT, 2, 0, 0], 2),
    Step([64, 3, TEXT, 2, 0, 0], 2),
    Step([68, 4, TEXT, 1, 12, 0], 1),
    Step([64, 3, TEXT, 2, 0, 0], 2),
    Step([62, 3, 0, 1, 0, 0], 15),
    Step([62, 3, 0, 2, 0, 0], 15),
];

/// A file that was removed keeps its bytes for the number at which it is open.
static REMOVED: [Step; 10] = [
    Step([56, HERE, W_FILE, 3, 2, 0], 3),
    Step([35, HERE, W_FILE, 3, 0, 0], 0),
    Step([48, HERE, W_FILE, 3, 0, 0], ENOENT),
    Step([63, 3, BUFFER, 5, 0, 0], 5),
    Step([56, HERE, W_FILE, 3, 0x42, 0], 4),
    Step([64, 4, TEXT, 2, 0, 0], 2),
    Step([63, 3, BUFFER, 100, 0, 0], 5),
    Step([57, 3, 0, 0, 0, 0], 0),
    Step([57, 3, 0, 0, 0, 0], EBADF),
    Step([57, 4, 0, 0, 0, 0], 0),
];

/// A place may lie behind the greatest file; what would be written there is refused, and the place stays.
static FAR: [Step; 9] = [
    Step([56, HERE, W_FILE, 3, 2, 0], 3),
    Step([62, 3, 268_435_456, 0, 0, 0], 268_435_456),
    Step([64, 3, TEXT, 1, 0, 0], EFBIG),
    Step([62, 3, (1 << 63) - 1, 0, 0, 0], (1 << 63) - 1),
    Step([64, 3, TEXT, 1, 0, 0], EFBIG),
    Step([63, 3, BUFFER, 1, 0, 0], 0),
    Step([62, 3, 0, 1, 0, 0], (1 << 63) - 1),
    Step([64, 3, TEXT, 0, 0, 0], 0),
    Step([62, 3, 0, 1, 0, 0], (1 << 63) - 1),
];

/// What is written behind a file's end leaves zeros between.
static GAP: [Step; 6] = [
    Step([56, HERE, W_FILE, 3, 2, 0], 3),
    Step([62, 3, u64::MAX, 0, 0, 0], EINVAL),
    Step([62, 0, 0, 1, 0, 0], ESPIPE),
    Step([62, 3, 13, 0, 0, 0], 13),
    Step([64, 3, TEXT, 1, 0, 0], 1),
    Step([46, 3, 268_435_457, 0, 0, 0], EFBIG),
];

/// The lowest number that is free is taken, the standard ones too.
static LOWEST: [Step; 9] = [
    Step([57, 1, 0, 0, 0, 0], 0),
    Step([57, 0, 0, 0, 0, 0], 0),
    Step([56, HERE, A_FILE, 3, 0, 0], 0),
    Step([56, HERE, A_FILE, 3, 1, 0], 1),
    Step([56, HERE, A_FILE, 3, 0, 0], 3),
    Step([64, 1, TEXT, 2, 0, 0], 2),
    Step([63, 0, BUFFER, 5, 0, 0], 5),
    Step([64, 2, TEXT, 2, 0, 0], 2),
    Step([63, 1, BUFFER, 5, 0, 0], EBADF),
];

fn agree(trial: &mut Trial, steps: &[Step]) -> Result<(), &'static str> {
    for step in steps {
        if trial.call(step.0) != Ok(CallAnswer::Result(step.1)) {
            return Err("another result");
        }
    }
    Ok(())
}

/// Places, each open with its own.
pub fn places(trial: &mut Trial) -> Result<(), &'static str> {
    agree(trial, &PLACES)
}

/// Appending.
pub fn appending(trial: &mut Trial) -> Result<(), &'static str> {
    agree(trial, &APPENDED)?;
    if trial.has_file(b"d/w", b"Hi23456789HiHHi") {
        Ok(())
    } else {
        Err("other bytes")
    }
}

/// Removal of an open file.
pub fn removal(trial: &mut Trial) -> Result<(), &'static str> {
    agree(trial, &REMOVED)?;
    if trial.has_file(b"d/w", b"Hi") && trial.has_guest(BUFFER, b"56789.") {
        Ok(())
    } else {
        Err("other bytes")
    }
}

/// Places that lie far behind a file.
pub fn far_places(trial: &mut Trial) -> Result<(), &'static str> {
    agree(trial, &FAR)?;
    if trial.has_file(b"d/w", b"0123456789") {
        Ok(())
    } else {
        Err("other bytes")
    }
}

/// A place behind a file's end, and a byte there.
pub fn gap(trial: &mut Trial) -> Result<(), &'static str> {
    agree(trial, &GAP)?;
    if trial.has_file(b"d/w", b"0123456789\0\0\0H") {
        Ok(())
    } else {
        Err("other bytes")
    }
}

/// The lowest free number.
pub fn lowest_number(trial: &mut Trial) -> Result<(), &'static str> {
    agree(trial, &LOWEST)?;
    if trial.has_file(b"d/a", b"Hillo") && trial.has_console(b"Hi") {
        Ok(())
    } else {
        Err("other bytes")
    }
}

/// All numbers taken: the one that is refused asks the folder nothing, and the one that is closed is taken again.
pub fn many_numbers(trial: &mut Trial) -> Result<(), &'static str> {
    let open = [56, HERE, A_FILE, 3, 0, 0];
    for fd in 3..64 {
        if trial.call(open) != Ok(CallAnswer::Result(fd)) {
            return Err("another number");
        }
    }
    let full = [
        Step(open, EMFILE),
        Step([56, HERE, NO_PARENT, 6, 0, 0], EMFILE),
        Step([63, 63, BUFFER, 5, 0, 0], 5),
        Step([57, 40, 0, 0, 0, 0], 0),
        Step([57, 10, 0, 0, 0, 0], 0),
        Step(open, 10),
        Step(open, 40),
        Step(open, EMFILE),
    ];
    agree(trial, &full)
}
