// The kernel on a hart: the program boots it, makes calls and traps from user mode, plays the host, and compares what
// is posted, said and restored with tables that were worked out by hand. It prints what differs, how many cases agree,
// and how many steps the kernel takes.
//
// It is there for that count, which `bench/kernel_steps` shows, docs/KERNEL.md has and the gate compares, and for a run
// from reset in which no contract of the phases has a part. Through the same calls and traps the tests of `kernel_sim`
// go phase by phase, by contracts.
#![tactic(auto)]

mod calls;
mod traps;
mod trial;

use calls::{CALLS, Call};
use proxy_kernel::kernel_image;
use std::io;
use std::process::ExitCode;
use traps::TRAPS;
use trial::Trial;

fn all_calls() -> &'static [Call] {
    &CALLS
}

fn all_traps() -> &'static [traps::Trap] {
    &TRAPS
}

// What was measured, and how many cases agree.
#[derive(Drop)]
struct Counts {
    // the most steps of a call without a path that returns
    call: u64,
    // the bytes and the steps of the first and of the last path of one call
    paths: [(u64, u64); 2],
    // the most steps up to the first byte of a message, and between two
    bytes: (u64, u64),
    agree: u64,
    differ: u64,
}

impl Counts {
    fn note(
        &mut self,
        rt: &impl Print,
        case: &str,
        verdict: Result<(), &'static str>,
    ) -> io::Result<()> {
        match verdict {
            Ok(()) => self.agree = self.agree.wrapping_add(1),
            Err(what) => {
                self.differ = self.differ.wrapping_add(1);
                println!(rt; "{case} after {} cases: {what}", self.agree)?;
            }
        }
        Ok(())
    }

    fn note_call(&mut self, call: &Call, steps: u64) {
        match call.path_bytes() {
            None => {
                if !call.has_path() && !call.is_exit() {
                    self.call = self.call.max(steps);
                }
            }
            Some(bytes) if call.number == 48 => {
                if self.paths[0].0 == 0 {
                    self.paths[0] = (bytes, steps);
                }
                self.paths[1] = (bytes, steps);
            }
            Some(_) => {}
        }
    }

    // The steps of one more byte of a path.
    fn path_byte(&self) -> Option<u64> {
        let bytes = self.paths[1].0.checked_sub(self.paths[0].0)?;
        self.paths[1]
            .1
            .checked_sub(self.paths[0].1)?
            .checked_div(bytes)
    }
}

fn try_calls(rt: &impl Print, trial: &mut Trial, counts: &mut Counts) -> io::Result<()> {
    for call in all_calls() {
        let verdict = trial.call(call);
        if let Ok(steps) = verdict {
            counts.note_call(call, steps);
        }
        counts.note(rt, "a call", verdict.map(|_| ()))?;
    }
    Ok(())
}

fn try_traps(rt: &impl Print, trial: &mut Trial, counts: &mut Counts) -> io::Result<()> {
    for trap in all_traps() {
        let verdict = trial.boot().and_then(|_| trial.trap(trap));
        if let Ok((first, next)) = verdict {
            counts.bytes = (counts.bytes.0.max(first), counts.bytes.1.max(next));
        }
        counts.note(rt, "a trap", verdict.map(|_| ()))?;
    }
    Ok(())
}

fn main(rt: HostRuntime) -> io::Result<ExitCode> {
    let image = kernel_image(rt.alloc())?;
    let mut trial = Trial::new(rt.alloc(), image.bytes.as_slice())?;
    let mut counts = Counts {
        call: 0,
        paths: [(0, 0); 2],
        bytes: (0, 0),
        agree: 0,
        differ: 0,
    };
    let booted = trial.boot();
    let (to_post, to_program) = booted.unwrap_or((0, 0));
    counts.note(&rt, "the boot", booted.map(|_| ()))?;
    trial.place_paths();
    try_calls(&rt, &mut trial, &mut counts)?;
    try_traps(&rt, &mut trial, &mut counts)?;
    let ran = trial.boot().and_then(|_| trial.hi());
    counts.note(&rt, "a program", ran)?;
    println!(rt; "boot: {to_post} steps to the post, {to_program} on to the program")?;
    println!(rt;
        "a call without a path that returns: at most {} steps",
        counts.call
    )?;
    println!(rt;
        "a byte of a path: {} steps",
        counts.path_byte().unwrap_or(0)
    )?;
    println!(rt;
        "a message: at most {} steps to its first byte, {} to the next",
        counts.bytes.0, counts.bytes.1
    )?;
    println!(rt; "{} cases agree, {} differ", counts.agree, counts.differ)?;
    Ok(ExitCode::from(u8::from(counts.differ > 0)))
}
