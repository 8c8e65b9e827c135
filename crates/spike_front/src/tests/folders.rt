// The option `--folder`: how its words fail, and which directory it names.
use super::programs::{END, program};
use super::{Case, check_words, fails, plain};
use crate::answer::Answer;
use crate::front::front;
use elf_loader::ElfFault;
use fe_base::limits::REPORT_LINE_LIMIT;
use fe_base::{ByteSink, ByteSource, Words};
use folder_memory::MemoryFolder;
use folder_tree::read_path;
use std::alloc::Global;
use std::process::Abort;
use std::str::from_utf8;
use std::test::Fail;

#[test]
fn words_of_folders_fail(rt: HostRuntime) -> Result<(), Fail> {
    let alloc = rt.alloc();
    let missing = ["plain", "--folder"];
    fails(&rt, alloc, &missing, 5, 2, "pkfe: usage 5 at 2\n")?;
    let no_file = ["plain", "--folder", "d"];
    fails(&rt, alloc, &no_file, 9, 3, "pkfe: usage 9 at 3\n")?;
    let twice = ["plain", "--folder", "d", "--folder", "d", "p"];
    fails(&rt, alloc, &twice, 4, 3, "pkfe: usage 4 at 3\n")?;
    // That the option was given before is told, and not that its value is missing.
    let repeated = ["plain", "--folder", "d", "--folder"];
    fails(&rt, alloc, &repeated, 4, 3, "pkfe: usage 4 at 3\n")?;
    // The value is the next word, whatever it is.
    let dashes = ["plain", "--folder", "--", "--steps", "0", "p"];
    fails(&rt, alloc, &dashes, 6, 4, "pkfe: usage 6 at 4\n")?;
    fails(
        &rt,
        alloc,
        &["asm", "--folder", "d", "p"],
        3,
        1,
        "pkfe: usage 3 at 1\n",
    )
}

// What the words of a case are answered over a folder with the directory `d` and the file `p`.
fn over_directory(rt: &impl Abort, alloc: Global, case: &Case) -> Result<(), Fail> {
    let mut words = Words::new(alloc);
    for word in case.words {
        words.push(word)?;
    }
    let mut input = ByteSource::new(alloc, b"", &[])?;
    let mut console = ByteSink::new(alloc, 100, case.console)?;
    let mut report = ByteSink::new(alloc, REPORT_LINE_LIMIT, case.report)?;
    let mut folder = MemoryFolder::new(alloc, case.folder)?;
    let directory = read_path(b"d")?;
    assert!(rt; folder.can_put(&directory));
    folder.put_dir(&directory)?;
    let path = read_path(b"p")?;
    assert!(rt; folder.can_put(&path));
    folder.put_file(&path, case.file)?;
    let answer = front(
        alloc,
        &words,
        &mut input,
        &mut console,
        &mut report,
        &mut folder,
    );
    assert_eq!(rt; answer, case.answer, "{}", case.line);
    assert_eq!(rt; answer.code(), case.code, "{}", case.line);
    assert_eq!(rt; report.as_slice(), case.line.as_bytes(), "{}", case.line);
    Ok(())
}

// `plain --folder DIR p` is answered so, with DIR this word.
fn under(
    rt: &impl Abort,
    alloc: Global,
    directory: &str,
    file: &[u8],
    answer: Answer,
    line: &str,
) -> Result<(), Fail> {
    let case = Case {
        words: &["plain", "--folder", directory, "p"],
        ..plain(file, answer, answer.code(), b"", line)
    };
    over_directory(rt, alloc, &case)
}

#[test]
fn folders_are_found(rt: HostRuntime) -> Result<(), Fail> {
    let alloc = rt.alloc();
    let file = program(alloc, &END)?;
    let line = "pkfe: exited 0 after 2 steps\n";
    under(&rt, alloc, "d", &file, Answer::Exited(0), line)?;
    under(&rt, alloc, "/./d//", &file, Answer::Exited(0), line)?;
    under(&rt, alloc, "", &file, Answer::Exited(0), line)?;
    under(&rt, alloc, "/", &file, Answer::Exited(0), line)?;
    let line = "pkfe: no folder\n";
    under(&rt, alloc, "e", &file, Answer::NoFolder, line)?;
    under(&rt, alloc, "p", &file, Answer::NoFolder, line)
}

// The root's path in 4,095 bytes, and one byte more, which is no path.
#[test]
fn long_folders_name_nothing(rt: HostRuntime) -> Result<(), Fail> {
    let alloc = rt.alloc();
    let file = program(alloc, &END)?;
    let slashes: Vec<u8> = vec![in alloc; b'/'; 4_096]?;
    let root = from_utf8(&slashes[1..])?;
    let line = "pkfe: exited 0 after 2 steps\n";
    under(&rt, alloc, root, &file, Answer::Exited(0), line)?;
    let long = from_utf8(&slashes)?;
    let line = "pkfe: no folder\n";
    under(&rt, alloc, long, &file, Answer::NoFolder, line)
}

#[test]
fn folders_are_refused_in_order(rt: HostRuntime) -> Result<(), Fail> {
    let alloc = rt.alloc();
    let file = program(alloc, &END)?;
    let line = "pkfe: no folder\n";
    under(&rt, alloc, "p/q", &file, Answer::NoFolder, line)?;
    under(&rt, alloc, "d/../d", &file, Answer::NoFolder, line)?;
    // A file's fault is told first.
    let fault = Answer::BadElf(ElfFault::Short);
    under(&rt, alloc, "e", b"", fault, "pkfe: bad elf 2\n")?;
    // The arguments' length is told last.
    with_long_argument(&rt, alloc)
}

// A directory that is missing is told before an argument that is too long.
fn with_long_argument(rt: &impl Abort, alloc: Global) -> Result<(), Fail> {
    let file = program(alloc, &END)?;
    let bytes: Vec<u8> = vec![in alloc; b'a'; 65_494]?;
    let argument = from_utf8(&bytes)?;
    let mut words = Words::new(alloc);
    for word in ["plain", "--folder", "e", "p"] {
        words.push(word)?;
    }
    words.push(argument)?;
    let case = plain(&file, Answer::NoFolder, 67, b"", "pkfe: no folder\n");
    check_words(rt, alloc, &words, &case)
}
