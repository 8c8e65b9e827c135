// `front` over objects in memory: what it answers, puts on the console and reports.
ghost use Rattle.std.specs.Prelude.{◌<◌, length};

mod files;
mod folders;
mod listings;
mod programs;
mod quiet_folder;

use crate::answer::Answer;
use crate::front::front;
use elf_loader::{ElfFault, read_elf};
use fe_base::limits::REPORT_LINE_LIMIT;
use fe_base::{ByteSink, ByteSource, Words};
use folder_memory::MemoryFolder;
use folder_tree::{Path, read_path};
use plain_machine::{Plain, PlainEnd};
use programs::{
    BEYOND, COUNTER, DIVIDES, END, FOREVER, FRONT, GROWS, HI, JUMPS_BETWEEN, NO_CALL, STORES_FAR,
    THREE_HUNDRED, hello, program,
};
use quiet_folder::{Calls, QuietFolder};
use std::alloc::{AllocError, Global};
use std::process::Abort;
use std::str::from_utf8;
use std::test::Fail;

/// A command line over a folder with the file `p`, with the numbers of the calls that fail, and what
/// must come of it.
#[derive(Clone, Copy)]
struct Case<'a> {
    words: &'a [&'a str],
    file: &'a [u8],
    folder: &'a [u64],
    console: &'a [u64],
    report: &'a [u64],
    answer: Answer,
    code: u8,
    puts: &'a [u8],
    line: &'a str,
}

fn check(rt: &impl Abort, alloc: Global, case: &Case) -> Result<(), Fail> {
    let mut words = Words::new(alloc);
    for word in case.words {
        words.push(word)?;
    }
    check_words(rt, alloc, &words, case)
}

// These words, in place of those of the case.
fn check_words(rt: &impl Abort, alloc: Global, words: &Words, case: &Case) -> Result<(), Fail> {
    let mut input = ByteSource::new(alloc, b"", &[])?;
    let mut console = ByteSink::new(alloc, 100, case.console)?;
    let mut report = ByteSink::new(alloc, REPORT_LINE_LIMIT, case.report)?;
    let mut folder = MemoryFolder::new(alloc, case.folder)?;
    let path = read_path(b"p")?;
    assert!(rt; folder.can_put(&path));
    folder.put_file(&path, case.file)?;
    let answer = front(
        alloc,
        words,
        &mut input,
        &mut console,
        &mut report,
        &mut folder,
    );
    assert_eq!(rt; answer, case.answer, "{}", case.line);
    assert_eq!(rt; answer.code(), case.code, "{}", case.line);
    assert_eq!(rt; console.as_slice(), case.puts, "{}", case.line);
    assert_eq!(rt; report.as_slice(), case.line.as_bytes(), "{}", case.line);
    Ok(())
}

// `plain p`, with no call failing, which answers so.
fn plain<'a>(file: &'a [u8], answer: Answer, code: u8, puts: &'a [u8], line: &'a str) -> Case<'a> {
    Case {
        words: &["plain", "p"],
        file,
        folder: &[],
        console: &[],
        report: &[],
        answer,
        code,
        puts,
        line,
    }
}

// A run of a program with this code that ends with this status.
fn ends(
    rt: &impl Abort,
    alloc: Global,
    code: &[u32],
    status: u8,
    puts: &[u8],
    line: &str,
) -> Result<(), Fail>
    requires { length code.now < 1000 }
{
    let file = program(alloc, code)?;
    check(
        rt,
        alloc,
        &plain(&file, Answer::Exited(status), status, puts, line),
    )
}

// Words over a file of no bytes, which are refused so.
fn refuses(
    rt: &impl Abort,
    alloc: Global,
    words: &[&str],
    answer: Answer,
    code: u8,
    line: &str,
) -> Result<(), Fail> {
    check(
        rt,
        alloc,
        &Case {
            words,
            ..plain(b"", answer, code, b"", line)
        },
    )
}

// Words that fail so at this place.
fn fails(
    rt: &impl Abort,
    alloc: Global,
    words: &[&str],
    kind: u8,
    place: u64,
    line: &str,
) -> Result<(), Fail> {
    refuses(rt, alloc, words, Answer::Usage(kind, place), 64, line)
}

#[test]
fn programs_end(rt: HostRuntime) -> Result<(), Fail> {
    let alloc = rt.alloc();
    ends(&rt, alloc, &END, 0, b"", "pkfe: exited 0 after 2 steps\n")?;
    ends(
        &rt,
        alloc,
        &HI,
        0,
        b"Hi\n",
        "pkfe: exited 0 after 9 steps\n",
    )?;
    ends(
        &rt,
        alloc,
        &THREE_HUNDRED,
        44,
        b"",
        "pkfe: exited 44 after 3 steps\n",
    )?;
    ends(
        &rt,
        alloc,
        &BEYOND,
        14,
        b"",
        "pkfe: exited 14 after 11 steps\n",
    )?;
    ends(
        &rt,
        alloc,
        &GROWS,
        1,
        b"",
        "pkfe: exited 1 after 11 steps\n",
    )?;
    ends(
        &rt,
        alloc,
        &NO_CALL,
        38,
        b"",
        "pkfe: exited 38 after 5 steps\n",
    )?;
    Ok(())
}

#[test]
fn a_linked_program_ends(rt: HostRuntime) -> Result<(), Fail> {
    let alloc = rt.alloc();
    let file = hello(alloc)?;
    let line = "pkfe: exited 0 after 19 steps\n";
    check(
        &rt,
        alloc,
        &plain(&file, Answer::Exited(0), 0, b"Hello, world!\n", line),
    )
}

#[test]
fn traps_speak(rt: HostRuntime) -> Result<(), Fail> {
    let alloc = rt.alloc();
    let far = b"pk: trap 07 at 0000000000010008 value 0000000080000000\n";
    ends(
        &rt,
        alloc,
        &STORES_FAR,
        135,
        far,
        "pkfe: exited 135 after 59 steps\n",
    )?;
    let counter = b"pk: counter read at 0000000000010000\n";
    ends(
        &rt,
        alloc,
        &COUNTER,
        124,
        counter,
        "pkfe: exited 124 after 39 steps\n",
    )?;
    let between = b"pk: trap 00 at 0000000000010000 value 0000000000010002\n";
    ends(
        &rt,
        alloc,
        &JUMPS_BETWEEN,
        128,
        between,
        "pkfe: exited 128 after 57 steps\n",
    )?;
    let quotients =
        b"\x00\x00\x00\x00\x00\x00\x00\x80\xff\xff\xff\xff\xff\xff\xff\xff\xff\xff\xff\xff\xff\xff\xff\xff";
    ends(
        &rt,
        alloc,
        &DIVIDES,
        0,
        quotients,
        "pkfe: exited 0 after 17 steps\n",
    )?;
    Ok(())
}

#[test]
fn runs_stop(rt: HostRuntime) -> Result<(), Fail> {
    let alloc = rt.alloc();
    let forever = program(alloc, &FOREVER)?;
    let spent = "pkfe: steps spent after 1000 steps\n";
    let case = Case {
        words: &["plain", "--steps", "01000", "p"],
        ..plain(&forever, Answer::StepsSpent(1000), 78, b"", spent)
    };
    check(&rt, alloc, &case)?;
    let hi = program(alloc, &HI)?;
    let fault = "pkfe: console fault after 5 steps\n";
    let case = Case {
        console: &[0],
        ..plain(&hi, Answer::ConsoleFault, 72, b"", fault)
    };
    check(&rt, alloc, &case)?;
    let case = Case {
        report: &[0],
        ..plain(&hi, Answer::ReportFault, 73, b"Hi\n", "")
    };
    check(&rt, alloc, &case)?;
    Ok(())
}

#[test]
fn folders_fail(rt: HostRuntime) -> Result<(), Fail> {
    let alloc = rt.alloc();
    let hi = program(alloc, &HI)?;
    // The file's kind, its opening, its size, a read and its release, and then the kind of the folder.
    for call in 0..6 {
        let failing = [call];
        let line = "pkfe: file fault after 0 steps\n";
        let case = Case {
            folder: &failing,
            ..plain(&hi, Answer::FileFault, 70, b"", line)
        };
        check(&rt, alloc, &case)?;
    }
    let line = "pkfe: exited 0 after 9 steps\n";
    let case = Case {
        folder: &[6],
        ..plain(&hi, Answer::Exited(0), 0, b"Hi\n", line)
    };
    check(&rt, alloc, &case)
}

#[test]
fn words_fail(rt: HostRuntime) -> Result<(), Fail> {
    let alloc = rt.alloc();
    fails(&rt, alloc, &[], 1, 0, "pkfe: usage 1 at 0\n")?;
    fails(&rt, alloc, &["nosuch"], 2, 0, "pkfe: usage 2 at 0\n")?;
    fails(&rt, alloc, &["plain"], 9, 1, "pkfe: usage 9 at 1\n")?;
    fails(&rt, alloc, &["plain", "--"], 9, 2, "pkfe: usage 9 at 2\n")?;
    fails(&rt, alloc, &["plain", "-x"], 3, 1, "pkfe: usage 3 at 1\n")?;
    fails(
        &rt,
        alloc,
        &["plain", "--steps=5", "p"],
        3,
        1,
        "pkfe: usage 3 at 1\n",
    )?;
    Ok(())
}

#[test]
fn values_fail(rt: HostRuntime) -> Result<(), Fail> {
    let alloc = rt.alloc();
    fails(
        &rt,
        alloc,
        &["plain", "--steps"],
        5,
        2,
        "pkfe: usage 5 at 2\n",
    )?;
    fails(
        &rt,
        alloc,
        &["plain", "--steps", "0", "p"],
        6,
        2,
        "pkfe: usage 6 at 2\n",
    )?;
    fails(
        &rt,
        alloc,
        &["plain", "--steps", "1000000000001", "p"],
        6,
        2,
        "pkfe: usage 6 at 2\n",
    )?;
    let twice = ["plain", "--steps", "5", "--steps", "6", "p"];
    fails(&rt, alloc, &twice, 4, 3, "pkfe: usage 4 at 3\n")?;
    fails(
        &rt,
        alloc,
        &["plain", "--steps", "5"],
        9,
        3,
        "pkfe: usage 9 at 3\n",
    )?;
    Ok(())
}

#[test]
fn words_are_not_built(rt: HostRuntime) -> Result<(), Fail> {
    let alloc = rt.alloc();
    let line = "pkfe: not built 1\n";
    refuses(&rt, alloc, &["run", "p"], Answer::NotBuilt(1), 77, line)?;
    refuses(&rt, alloc, &["demo", "3"], Answer::NotBuilt(1), 77, line)?;
    let case = Case {
        words: &[],
        report: &[0],
        ..plain(b"", Answer::ReportFault, 73, b"", "")
    };
    check(&rt, alloc, &case)?;
    Ok(())
}

#[test]
fn names_nothing(rt: HostRuntime) -> Result<(), Fail> {
    let alloc = rt.alloc();
    let line = "pkfe: no program\n";
    refuses(&rt, alloc, &["plain", "q"], Answer::NoProgram, 65, line)?;
    refuses(&rt, alloc, &["plain", ""], Answer::NoProgram, 65, line)?;
    refuses(&rt, alloc, &["plain", "-"], Answer::NoProgram, 65, line)?;
    refuses(&rt, alloc, &["plain", "../p"], Answer::NoProgram, 65, line)?;
    refuses(
        &rt,
        alloc,
        &["plain", "--", "-x"],
        Answer::NoProgram,
        65,
        line,
    )?;
    Ok(())
}

// A file that is refused with this fault.
fn bad(
    rt: &impl Abort,
    alloc: Global,
    file: &[u8],
    fault: ElfFault,
    line: &str,
) -> Result<(), Fail> {
    check(
        rt,
        alloc,
        &plain(file, Answer::BadElf(fault), 66, b"", line),
    )
}

#[test]
fn files_are_refused(rt: HostRuntime) -> Result<(), Fail> {
    let alloc = rt.alloc();
    let file = program(alloc, &END)?;
    bad(&rt, alloc, b"", ElfFault::Short, "pkfe: bad elf 2\n")?;
    bad(
        &rt,
        alloc,
        &FRONT[..63],
        ElfFault::Short,
        "pkfe: bad elf 2\n",
    )?;
    let (cut, _) = file.split_at(file.len().saturating_sub(1));
    bad(
        &rt,
        alloc,
        cut,
        ElfFault::Segment(0),
        "pkfe: bad elf 13 0\n",
    )?;
    Ok(())
}

// The file of `END` with one byte changed.
fn changed(alloc: Global, place: usize, byte: u8) -> Result<Vec<u8>, AllocError> {
    let mut file = program(alloc, &END)?;
    if place < file.len() {
        file[place] = byte;
    }
    Ok(file)
}

#[test]
fn changed_files_are_refused(rt: HostRuntime) -> Result<(), Fail> {
    let alloc = rt.alloc();
    bad(
        &rt,
        alloc,
        &changed(alloc, 104, 7)?,
        ElfFault::Segment(0),
        "pkfe: bad elf 13 0\n",
    )?;
    bad(
        &rt,
        alloc,
        &changed(alloc, 107, 1)?,
        ElfFault::Outside(0),
        "pkfe: bad elf 14 0\n",
    )?;
    bad(
        &rt,
        alloc,
        &changed(alloc, 48, 1)?,
        ElfFault::Flags,
        "pkfe: bad elf 9\n",
    )?;
    bad(
        &rt,
        alloc,
        &changed(alloc, 24, 2)?,
        ElfFault::Entry,
        "pkfe: bad elf 16\n",
    )?;
    bad(
        &rt,
        alloc,
        &changed(alloc, 24, 8)?,
        ElfFault::Entry,
        "pkfe: bad elf 16\n",
    )?;
    Ok(())
}

// The file of `END` with its program header twice, and its code behind both.
fn doubled(alloc: Global) -> Result<Vec<u8>, AllocError> {
    let mut file = program(alloc, &END)?;
    if file.len() == 128 {
        file[56] = 2;
        file[72] = 0xb0;
        let code = file.split_off(120)?;
        let header = Vec::from_slice(alloc, &file[64..120])?;
        file.extend_from_slice(&header)?;
        file.extend_from_slice(&code)?;
    }
    Ok(file)
}

#[test]
fn overlapping_segments_are_refused(rt: HostRuntime) -> Result<(), Fail> {
    let alloc = rt.alloc();
    let file = doubled(alloc)?;
    bad(
        &rt,
        alloc,
        &file,
        ElfFault::Overlap(0, 1),
        "pkfe: bad elf 15 0 1\n",
    )
}

// `plain p` with one argument of so many bytes.
fn with_argument(
    rt: &impl Abort,
    alloc: Global,
    count: usize,
    answer: Answer,
    code: u8,
    line: &str,
) -> Result<(), Fail> {
    let file = program(alloc, &END)?;
    let bytes: Vec<u8> = vec![in alloc; b'a'; count]?;
    let argument = from_utf8(&bytes)?;
    let mut words = Words::new(alloc);
    words.push("plain")?;
    words.push("p")?;
    words.push(argument)?;
    let case = plain(&file, answer, code, b"", line);
    check_words(rt, alloc, &words, &case)
}

#[test]
fn arguments_have_a_limit(rt: HostRuntime) -> Result<(), Fail> {
    let alloc = rt.alloc();
    let long = "pkfe: arguments need 65537 bytes\n";
    with_argument(&rt, alloc, 65_494, Answer::ArgsTooLong(65_537), 68, long)?;
    let line = "pkfe: exited 0 after 2 steps\n";
    with_argument(&rt, alloc, 65_493, Answer::Exited(0), 0, line)?;
    Ok(())
}

#[test]
fn a_run_stops_at_its_limit(rt: HostRuntime) -> Result<(), Fail> {
    let alloc = rt.alloc();
    let image = read_elf(alloc, &program(alloc, &HI)?)?;
    let args = Words::new(alloc);
    let mut input = ByteSource::new(alloc, b"", &[])?;
    let mut console = ByteSink::new(alloc, 100, &[])?;
    let mut folder = MemoryFolder::new(alloc, &[])?;
    let mut plain = Plain::start(alloc, image, &args, Path::root())?;
    let end = plain.run(3, &mut folder, &mut input, &mut console);
    assert_eq!(rt; end, PlainEnd::StepsSpent);
    assert_eq!(rt; plain.steps(), 3);
    Ok(())
}

#[test]
fn words_of_listings_fail(rt: HostRuntime) -> Result<(), Fail> {
    let alloc = rt.alloc();
    fails(&rt, alloc, &["kernel", "x"], 10, 1, "pkfe: usage 10 at 1\n")?;
    let ended = ["kernel", "--", "x"];
    fails(&rt, alloc, &ended, 10, 2, "pkfe: usage 10 at 2\n")?;
    fails(&rt, alloc, &["kernel", "-x"], 3, 1, "pkfe: usage 3 at 1\n")?;
    fails(&rt, alloc, &["asm"], 9, 1, "pkfe: usage 9 at 1\n")?;
    fails(&rt, alloc, &["asm", "--"], 9, 2, "pkfe: usage 9 at 2\n")?;
    let many = ["asm", "p", "-x"];
    fails(&rt, alloc, &many, 10, 2, "pkfe: usage 10 at 2\n")?;
    let line = "pkfe: no program\n";
    refuses(&rt, alloc, &["asm", "q"], Answer::NoProgram, 65, line)?;
    Ok(())
}

// A command for `p` over a folder that tells nothing, with a file of these bytes and this size, is answered so after so
// many reads and questions for a kind, and one call of each other sort.
fn reads(
    rt: &impl Abort,
    alloc: Global,
    command: &str,
    bytes: &[u8],
    size: u64,
    (reads, kinds): (u64, u64),
    answer: Answer,
) -> Result<(), Fail> {
    let mut words = Words::new(alloc);
    words.push(command)?;
    words.push("p")?;
    let mut input = ByteSource::new(alloc, b"", &[])?;
    let mut console = ByteSink::new(alloc, 100, &[])?;
    let mut report = ByteSink::new(alloc, REPORT_LINE_LIMIT, &[])?;
    let mut folder = QuietFolder::new(bytes, size);
    let given = front(
        alloc,
        &words,
        &mut input,
        &mut console,
        &mut report,
        &mut folder,
    );
    let calls = Calls {
        kind: kinds,
        open_file: 1,
        size: 1,
        read_at: reads,
        release: 1,
    };
    assert_eq!(rt; given, answer);
    assert_eq!(rt; folder.calls(), calls);
    Ok(())
}

#[test]
fn files_are_read_in_pieces(rt: HostRuntime) -> Result<(), Fail> {
    let alloc = rt.alloc();
    let file = program(alloc, &END)?;
    let size = file.len() as u64;
    let (cut, _) = file.split_at(file.len().saturating_sub(1));
    reads(&rt, alloc, "plain", &file, size, (1, 2), Answer::Exited(0))?;
    // A read that ends early: what has come is the file, and nothing is filled in.
    let fault = Answer::BadElf(ElfFault::Segment(0));
    reads(&rt, alloc, "plain", cut, size, (2, 1), fault)?;
    reads(
        &rt,
        alloc,
        "plain",
        b"",
        size,
        (1, 1),
        Answer::BadElf(ElfFault::Short),
    )?;
    // A file above the limit is not read.
    let large = Answer::BadElf(ElfFault::TooLarge);
    reads(&rt, alloc, "plain", &file, 67_108_865, (0, 1), large)?;
    let large = Answer::BadAsm(0, 9);
    reads(&rt, alloc, "asm", &file, 1_048_577, (0, 1), large)?;
    let mut long = file;
    let behind: Vec<u8> = vec![in alloc; 0; 1_048_576]?;
    long.extend_from_slice(&behind)?;
    reads(
        &rt,
        alloc,
        "plain",
        &long,
        long.len() as u64,
        (2, 2),
        Answer::Exited(0),
    )?;
    Ok(())
}
