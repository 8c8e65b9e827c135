// The host of a program over objects in memory: each way out of each row of the call table, rows of calls, and objects
// of which one call fails, compared with tables that were worked out by hand. It prints what differs, and how many cases
// agree.
//
// It is there for what no clause says: that calls are carried out at all, and that the table is what it is meant to be.
#![tactic(auto)]

mod byte_table;
mod failures;
mod number_table;
mod path_table;
mod rows;
mod trial;
mod walks;
mod words;

use byte_table::BYTE_ROWS;
use chunk_memory::MemStop;
use failures::{Object, failures_of, unbroken_run};
use number_table::NUMBER_ROWS;
use path_table::PATH_ROWS;
use rows::{PATH_CALLS, RULES, Row};
use std::alloc::AllocError;
use std::io;
use std::process::ExitCode;
use syscall_proxy::{CallAnswer, CallFault};
use trial::{NONE_FAILS, Trial};
use words::{HERE, NOWHERE, W_FILE};

// The room of the console.
const ROOM: usize = 64;

fn path_rows() -> &'static [Row] {
    &PATH_ROWS
}

fn number_rows() -> &'static [Row] {
    &NUMBER_ROWS
}

fn byte_rows() -> &'static [Row] {
    &BYTE_ROWS
}

fn rules() -> &'static [(u64, u64, u64, u64)] {
    &RULES
}

fn path_calls() -> &'static [(u64, u64)] {
    &PATH_CALLS
}

// Calls whose range is no memory, and whether the call has acted by then.
static RANGES: [([u64; 6], bool); 9] = [
    ([34, HERE, NOWHERE, 3, 0, 0], false),
    ([48, HERE, NOWHERE, 3, 0, 0], false),
    ([56, HERE, NOWHERE, 3, 0, 0], false),
    ([64, 1, NOWHERE, 3, 0, 0], false),
    ([64, 4, NOWHERE, 3, 0, 0], false),
    ([68, 5, NOWHERE, 3, 0, 0], false),
    ([63, 0, NOWHERE, 3, 0, 0], true),
    ([63, 3, NOWHERE, 3, 0, 0], true),
    ([80, 3, NOWHERE, 0, 0, 0], true),
];

fn ranges() -> &'static [([u64; 6], bool)] {
    &RANGES
}

// How many cases agree.
#[derive(Drop)]
struct Counts {
    agree: u64,
    differ: u64,
}

impl Counts {
    fn note(
        &mut self,
        rt: &impl Print,
        case: &str,
        verdict: Result<(), &'static str>,
    ) -> io::Result<()> {
        match verdict {
            Ok(()) => self.agree = self.agree.wrapping_add(1),
            Err(what) => {
                self.differ = self.differ.wrapping_add(1);
                println!(rt; "{case} after {} cases: {what}", self.agree)?;
            }
        }
        Ok(())
    }
}

// A host with files at 3 to 6.
fn ready(trial: &mut Trial) -> Result<(), AllocError> {
    trial.begin(NONE_FAILS, ROOM)?;
    if trial.open_files() {
        Ok(())
    } else {
        Err(AllocError)
    }
}

fn try_table(
    rt: &impl Print,
    trial: &mut Trial,
    counts: &mut Counts,
    name: &str,
    rows: &[Row],
) -> io::Result<()> {
    for row in rows {
        ready(trial)?;
        counts.note(rt, name, row.agrees(trial))?;
    }
    Ok(())
}

fn try_rows(rt: &impl Print, trial: &mut Trial, counts: &mut Counts) -> io::Result<()> {
    try_table(rt, trial, counts, "a call of a path", path_rows())?;
    try_table(rt, trial, counts, "a call of a number", number_rows())?;
    try_table(rt, trial, counts, "a call of bytes", byte_rows())
}

// Each rule of a path, for each call that takes one.
fn try_rules(rt: &impl Print, trial: &mut Trial, counts: &mut Counts) -> io::Result<()> {
    for (number, flags) in path_calls() {
        for (dirfd, place, length, want) in rules() {
            ready(trial)?;
            let words = [*number, *dirfd, *place, *length, *flags, 0];
            let row = Row(words, *want, rows::Leaves::All);
            counts.note(rt, "a path's rule", row.agrees(trial))?;
        }
    }
    Ok(())
}

fn range_agrees(trial: &mut Trial, words: [u64; 6], acts: bool) -> Result<(), &'static str> {
    let before = trial.digest();
    match trial.call(words) {
        Err(CallFault::Port(MemStop::Unmapped(NOWHERE))) => {}
        _ => return Err("no fault of the port"),
    }
    if trial.acted() != acts {
        return Err("it acts elsewhere");
    }
    if !acts && trial.digest() != before {
        return Err("other things left");
    }
    Ok(())
}

fn try_ranges(rt: &impl Print, trial: &mut Trial, counts: &mut Counts) -> io::Result<()> {
    for (words, acts) in ranges() {
        ready(trial)?;
        counts.note(
            rt,
            "a range of no memory",
            range_agrees(trial, *words, *acts),
        )?;
    }
    Ok(())
}

fn ends(trial: &mut Trial, number: u64) -> Result<(), &'static str> {
    match trial.call([number, 0x1_0105, 7, 7, 7, 7]) {
        Ok(CallAnswer::Exit(5)) if trial.acted() => Ok(()),
        _ => Err("another end"),
    }
}

// A console with less room than a call has bytes.
fn full_console(trial: &mut Trial) -> Result<(), &'static str> {
    let before = trial.digest();
    match trial.call([64, 1, W_FILE, 65, 0, 0]) {
        Err(CallFault::ConsoleFault) if trial.digest() == before && !trial.acted() => Ok(()),
        _ => Err("a full console"),
    }
}

fn try_walks(rt: &impl Print, trial: &mut Trial, counts: &mut Counts) -> io::Result<()> {
    for number in [93, 94] {
        ready(trial)?;
        counts.note(rt, "an exit", ends(trial, number))?;
    }
    ready(trial)?;
    counts.note(rt, "a full console", full_console(trial))?;
    trial.begin(NONE_FAILS, ROOM)?;
    counts.note(rt, "places", walks::places(trial))?;
    trial.begin(NONE_FAILS, ROOM)?;
    counts.note(rt, "appending", walks::appending(trial))?;
    trial.begin(NONE_FAILS, ROOM)?;
    counts.note(rt, "removal", walks::removal(trial))?;
    trial.begin(NONE_FAILS, ROOM)?;
    counts.note(rt, "far places", walks::far_places(trial))?;
    trial.begin(NONE_FAILS, ROOM)?;
    counts.note(rt, "a gap", walks::gap(trial))?;
    trial.begin(NONE_FAILS, ROOM)?;
    counts.note(rt, "the lowest number", walks::lowest_number(trial))?;
    trial.begin(NONE_FAILS, ROOM)?;
    counts.note(rt, "many numbers", walks::many_numbers(trial))
}

fn try_failures(rt: &impl Print, trial: &mut Trial, counts: &mut Counts) -> io::Result<()> {
    let Some(whole) = unbroken_run(trial)? else {
        return counts.note(rt, "the program", Err("a fault where nothing fails"));
    };
    for (name, object) in [
        ("the folder", Object::Folder),
        ("the input", Object::Input),
        ("the console", Object::Console),
    ] {
        match failures_of(trial, &whole, object) {
            Ok(count) => {
                println!(rt; "{name} failed at each of its {count} calls in turn")?;
                counts.note(rt, name, Ok(()))?;
            }
            Err(what) => counts.note(rt, name, Err(what))?,
        }
    }
    Ok(())
}

fn main(rt: HostRuntime) -> io::Result<ExitCode> {
    let mut trial = Trial::new(rt.alloc())?;
    let mut counts = Counts {
        agree: 0,
        differ: 0,
    };
    try_rows(&rt, &mut trial, &mut counts)?;
    try_rules(&rt, &mut trial, &mut counts)?;
    try_ranges(&rt, &mut trial, &mut counts)?;
    try_walks(&rt, &mut trial, &mut counts)?;
    try_failures(&rt, &mut trial, &mut counts)?;
    println!(rt; "{} cases agree, {} differ", counts.agree, counts.differ)?;
    Ok(ExitCode::from(u8::from(counts.differ > 0)))
}
