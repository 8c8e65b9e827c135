// The front end's program. `front` does what the words of the command line ask for: it reads the file that they name,
// runs it on the direct machine between standard input, standard output and a folder, and puts one line on standard
// error that tells how that ended and after how many steps. `main` hands in the process's own streams and working
// directory.
//
// What each clause of `front` says:
//
// - `words`, `other_words`, `other_words_untouched`: Words that are no command are refused first, exactly, with the
//   kind and place of their first failure by the grammar of `specs/Words`, and then nothing but the report is called.
// - `no_file_untouched`: Words that name no file call the folder not at all.
// - `refusal`, `refused`, `refused_untouched`: The other refusals (no program, the file's fault, no folder, arguments
//   too long, a fault of assembly text) are exactly those of the plan that words and files determine (`specs/Plans`),
//   in order. They yield only to a fault of the folder, to want of memory and to a report that fails. All files are as
//   they were.
// - `answers`: Whatever the objects tell: `plain` answers NoProgram, a fault of the file, NoFolder or ArgsTooLong, or as
//   a run does; `kernel` and `asm` answer Done or a fault, and `asm` NoProgram or BadAsm, which no other command answers;
//   words that are no command have their one answer. Besides, any report may fail.
// - `refusal_untouched`, `listing_untouched`: Whatever the objects tell: where the answer is a refusal, input and
//   console were not called; and a command that puts a listing does not call the input.
// - `too_long`, `spent`: ArgsTooLong(N) comes only where the main vars of the words' arguments have N bytes, above
//   65,536; the number of StepsSpent is the limit of the words.
// - `opens`, `formed`: Of a told tree all stays, where the answer is a refusal or the command puts a listing, but that
//   one of its files may be open once more. Whatever is answered, it is told, and well formed where it was.
// - `reported`: A told report has grown by exactly the line of the answer. For `plain` the line's number of steps is at
//   most the limit of the words, 0 for a refusal, and the limit where that was spent; every other command has a line
//   without a number. After ReportFault the report is as it was.
// - `done`, `not_done`: Done comes only of a command that puts a listing. Then the report was not called, and a told
//   console has grown by a text that the command may put, whatever the folder holds: print_asm's text of the kernel's
//   items, or the words of what some assembly file means. Where such a command answers anything else, a told console is
//   as it was.
// - `listed`: A listing that words and files determine is put whole, and then the answer is Done and nothing else, or
//   the console is as it was, and then the folder or the console failed or there was no memory. What is put lists what
//   the words ask for (`specs/Listings`): print_asm's text of the kernel's items, or the words of bytes that hold what
//   the assembly text means at 0. A steady console with room for each text that lists it, and a steady folder, fail no
//   listing.
// - `one_put`, `no_put`, `at_most_one_put`, `one_line`: A command that puts a listing makes one put on the console where
//   the answer is Done or ConsoleFault, does not call it where words or file are refused, the folder failed or there was
//   no memory, and makes one put at most whatever is answered. The report is called by one put, but for Done.
// - `ran`: On every answer of a run, the faults and OutOfMemory too, there is one number of steps at which console,
//   untaken input and files are those of the direct run (`specs/Runs`), and which the report tells. No earlier state
//   had ended. Exited(s) and StepsSpent(limit) come exactly where the direct run says so. The whole tree is that of the
//   direct run, counts of opens too, but that one file may be open once more where the folder failed, or there was no
//   memory, before the first step or in an openat that takes the file's bytes away. A fault comes only at a step that
//   asks that object, and want of memory behind the first step only at one that asks the folder; each has its cause,
//   also where ReportFault replaced it. Steady objects fail no run, a console with room for one step more among them.
//   An input that no step takes from is as it was, and so is a console that no step puts on.
// - `file_cause`, `input_cause`, `console_cause`, `report_cause`: The counts of faults never fall, and each fault comes
//   only where the count of that object rose in this call.
// - `file_steady`, `listing_steady`, `input_steady`, `report_steady`: Over a steady folder whose tree is told and well
//   formed, a steady input, and a steady report with room for a line of 128 bytes, no fault of theirs is answered; of a
//   listing also where the tree is told and not well formed.
#![tactic(auto)]

mod answer;
mod directory;
mod file;
mod front;
mod listing;
mod plan;
mod report;
mod run;
#[cfg(test)]
mod tests;
mod words;

ghost use Rattle.std.specs.Prelude.{◌≡◌};
ghost use Rattle.std.specs.Process.{exit_status};
ghost use Rattle.spike_front.specs.Report.{code_of};

use answer::Answer;
use fe_base::{StdSink, StdSource, Words};
use folder_host::HostFolder;
use std::fs::open;
use std::io::ErrorKind;
use std::process::ExitCode;
use std::rt::Files;
use std::{env, io};

/// The device that gives nothing.
const NULL_DEVICE: &str = "/dev/null";

/// The directory that is always there.
const ROOT_DIRECTORY: &str = "/";

// The words after the program's name. Words that are not all UTF-8 are no words.
fn words_of(rt: &HostRuntime) -> io::Result<Words> {
    let mut words = Words::new(rt.alloc());
    match env::args(rt) {
        Ok(args) => {
            for word in args.skip(1) {
                words.push(word.as_str())?;
            }
        }
        Err(error) if error.kind() == ErrorKind::InvalidData => {}
        Err(error) => return Err(error),
    }
    Ok(words)
}

// The status of the process for an answer.
fn status_of(answer: Answer) -> ExitCode
    ensures { exit_status result ≡ code_of answer }
{
    ExitCode::from(answer.code())
}

// What holds the number of a closed stream: the null device, or the root directory where there is none. Both are opened
// for reading, so that a write to the stream fails.
fn number_holder<R: Files>(rt: &R) -> io::Result<R::File> {
    open(rt, NULL_DEVICE).or_else(|_| open(rt, ROOT_DIRECTORY))
}

// Where a standard stream is closed, the first file that is opened gets its number, and would then be read or written
// in its place. So three numbers are taken first, and held.
fn hold_numbers<R: Files>(rt: &R) -> io::Result<[R::File; 3]> {
    Ok([number_holder(rt)?, number_holder(rt)?, number_holder(rt)?])
}

fn main(rt: HostRuntime) -> ExitCode {
    let Ok(_numbers) = hold_numbers(&rt) else {
        return status_of(Answer::FileFault);
    };
    let Ok(words) = words_of(&rt) else {
        return status_of(Answer::OutOfMemory);
    };
    let mut input = StdSource::over(rt.stdin());
    let mut console = StdSink::over(rt.stdout());
    let mut report = StdSink::over(rt.stderr());
    let mut folder = HostFolder::here(rt);
    status_of(front::front(
        rt.alloc(),
        &words,
        &mut input,
        &mut console,
        &mut report,
        &mut folder,
    ))
}
