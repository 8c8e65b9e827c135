// One program's calls, made over objects of which one call fails: for each call of each object in turn. The call that
// meets the failure is that object's fault and changes nothing; made once more it does what it would have done.

use crate::trial::{Failing, NONE_FAILS, Trial};
use crate::words::{A_FILE, BUFFER, FULL, HERE, NEW, SUB, TEXT, W_FILE};
use std::alloc::AllocError;
use syscall_proxy::{CallAnswer, CallFault};

/// How many calls the program makes.
const LENGTH: usize = 32;

/// The room of the console.
const ROOM: usize = 64;

/// More calls of one object than the program leads to.
const PATIENCE: u64 = 100;

static PROGRAM: [[u64; 6]; LENGTH] = [
    [56, HERE, A_FILE, 3, 0, 0],
    [56, HERE, NEW, 5, 0x42, 0],
    [56, HERE, W_FILE, 3, 0x201, 0],
    [56, HERE, W_FILE, 3, 0x401, 0],
    [64, 4, TEXT, 8, 0, 0],
    [64, 1, TEXT, 2, 0, 0],
    [64, 6, TEXT, 3, 0, 0],
    [64, 5, TEXT, 1, 0, 0],
    [62, 4, 0, 2, 0, 0],
    [62, 4, 1, 0, 0, 0],
    [63, 4, BUFFER, 4, 0, 0],
    [63, 3, BUFFER + 8, 100, 0, 0],
    [63, 0, BUFFER + 16, 3, 0, 0],
    [63, 0, BUFFER + 24, 9, 0, 0],
    [67, 3, BUFFER + 32, 3, 1, 0],
    [68, 4, TEXT, 2, 9, 0],
    [80, 4, BUFFER, 0, 0, 0],
    [46, 4, 10, 0, 0, 0],
    [34, HERE, SUB, 5, 0, 0],
    [35, HERE, SUB, 5, 0x200, 0],
    [34, HERE, SUB, 5, 0, 0],
    [48, HERE, SUB, 5, 0, 0],
    [35, HERE, W_FILE, 3, 0, 0],
    [35, HERE, FULL, 6, 0x200, 0],
    [64, 5, TEXT, 2, 0, 0],
    [57, 3, 0, 0, 0, 0],
    [57, 5, 0, 0, 0, 0],
    [56, HERE, A_FILE, 3, 2, 0],
    [64, 3, TEXT, 2, 0, 0],
    [64, 2, TEXT, 8, 0, 0],
    [2011, BUFFER + 40, 100, 0, 0, 0],
    [93, 0x107, 0, 0, 0, 0],
];

fn program() -> &'static [[u64; 6]; LENGTH] {
    &PROGRAM
}

/// What the program's calls answer, and what they leave, where nothing fails.
#[derive(Clone, Copy)]
pub struct Unbroken {
    answers: [CallAnswer; LENGTH],
    digest: u64,
}

/// The objects that may fail.
#[derive(Clone, Copy)]
pub enum Object {
    Folder,
    Input,
    Console,
}

impl Object {
    fn fault(self) -> CallFault {
        match self {
            Object::Folder => CallFault::FileFault,
            Object::Input => CallFault::InputFault,
            Object::Console => CallFault::ConsoleFault,
        }
    }
}

/// How a run went of which one call of an object was to fail.
pub enum Failure {
    /// No call met the failure.
    NotMet,
    /// One did, and all else was as it is without it.
    Met,
    /// Something else came of it.
    Differs(&'static str),
    OutOfMemory,
}

impl From<AllocError> for Failure {
    fn from(_: AllocError) -> Failure {
        Failure::OutOfMemory
    }
}

/// The run in which nothing fails.
pub fn unbroken_run(trial: &mut Trial) -> Result<Option<Unbroken>, AllocError> {
    trial.begin(NONE_FAILS, ROOM)?;
    let mut answers = [CallAnswer::Exit(0); LENGTH];
    for i in 0..LENGTH {
        match trial.call(program()[i]) {
            Ok(answer) => answers[i] = answer,
            Err(_) => return Ok(None),
        }
    }
    Ok(Some(Unbroken {
        answers,
        digest: trial.digest(),
    }))
}

// The call of the run, and once more where it meets the failure.
fn call_twice(
    trial: &mut Trial,
    words: [u64; 6],
    fault: CallFault,
    met: &mut bool,
) -> Result<CallAnswer, &'static str> {
    let before = trial.digest();
    match trial.call(words) {
        Ok(answer) => Ok(answer),
        Err(other) if other != fault => Err("another object's fault"),
        Err(_) if trial.acted() => Err("a failed call had acted"),
        Err(_) if trial.digest() != before => Err("a failed call changed something"),
        Err(_) => {
            *met = true;
            trial.call(words).map_err(|_| "the same call failed again")
        }
    }
}

fn run(trial: &mut Trial, whole: &Unbroken, fault: CallFault) -> Failure {
    let mut met = false;
    for i in 0..LENGTH {
        match call_twice(trial, program()[i], fault, &mut met) {
            Ok(answer) if answer == whole.answers[i] => {}
            Ok(_) => return Failure::Differs("another answer"),
            Err(what) => return Failure::Differs(what),
        }
    }
    if trial.digest() != whole.digest {
        return Failure::Differs("another end");
    }
    if met { Failure::Met } else { Failure::NotMet }
}

/// The run in which this call of an object fails.
pub fn failing_at(trial: &mut Trial, whole: &Unbroken, object: Object, call: u64) -> Failure {
    let list = [call];
    let failing = match object {
        Object::Folder => Failing {
            folder: &list,
            input: &[],
            console: &[],
        },
        Object::Input => Failing {
            folder: &[],
            input: &list,
            console: &[],
        },
        Object::Console => Failing {
            folder: &[],
            input: &[],
            console: &list,
        },
    };
    match trial.begin(failing, ROOM) {
        Ok(()) => run(trial, whole, object.fault()),
        Err(AllocError) => Failure::OutOfMemory,
    }
}

/// How many calls of an object met a failure, one after the other, or what differed.
pub fn failures_of(
    trial: &mut Trial,
    whole: &Unbroken,
    object: Object,
) -> Result<u64, &'static str> {
    for call in 0..PATIENCE {
        match failing_at(trial, whole, object, call) {
            Failure::Met => {}
            Failure::NotMet => return Ok(call),
            Failure::Differs(what) => return Err(what),
            Failure::OutOfMemory => return Err("no memory"),
        }
    }
    Err("more calls than there are")
}
