// Programs that read the input, and that read and write files.
use super::programs::{APPENDS, TAKES, TAKES_BETWEEN, program};
use crate::answer::Answer;
use crate::front::front;
use fe_base::limits::REPORT_LINE_LIMIT;
use fe_base::{ByteSink, ByteSource, Words};
use folder_memory::MemoryFolder;
use folder_tree::read_path;
use std::alloc::{AllocError, Global};
use std::process::Abort;
use std::test::Fail;

/// A run of the file `p` with an input of `abcde`, with the numbers of the input's takes that fail, and what must come
/// of it.
#[derive(Clone, Copy)]
struct Taking<'a> {
    file: &'a [u8],
    failing: &'a [u64],
    answer: Answer,
    line: &'a str,
    puts: &'a [u8],
    rest: &'a [u8],
}

fn takes(rt: &impl Abort, alloc: Global, case: &Taking) -> Result<(), Fail> {
    let mut words = Words::new(alloc);
    words.push("plain")?;
    words.push("p")?;
    let mut input = ByteSource::new(alloc, b"abcde", case.failing)?;
    let mut console = ByteSink::new(alloc, 100, &[])?;
    let mut report = ByteSink::new(alloc, REPORT_LINE_LIMIT, &[])?;
    let mut folder = MemoryFolder::new(alloc, &[])?;
    let path = read_path(b"p")?;
    assert!(rt; folder.can_put(&path));
    folder.put_file(&path, case.file)?;
    let answer = front(
        alloc,
        &words,
        &mut input,
        &mut console,
        &mut report,
        &mut folder,
    );
    assert_eq!(rt; answer, case.answer);
    assert_eq!(rt; report.as_slice(), case.line.as_bytes());
    assert_eq!(rt; console.as_slice(), case.puts);
    assert_eq!(rt; input.rest(), case.rest);
    Ok(())
}

#[test]
fn input_is_taken(rt: HostRuntime) -> Result<(), Fail> {
    let alloc = rt.alloc();
    let file = program(alloc, &TAKES)?;
    let case = Taking {
        file: &file,
        failing: &[],
        answer: Answer::Exited(5),
        line: "pkfe: exited 5 after 7 steps\n",
        puts: b"",
        rest: b"",
    };
    takes(&rt, alloc, &case)?;
    let case = Taking {
        failing: &[0],
        answer: Answer::InputFault,
        line: "pkfe: input fault after 4 steps\n",
        rest: b"abcde",
        ..case
    };
    takes(&rt, alloc, &case)?;
    assert_eq!(&rt; case.answer.code(), 71);
    let file = program(alloc, &TAKES_BETWEEN)?;
    let case = Taking {
        file: &file,
        failing: &[1],
        answer: Answer::Exited(0),
        line: "pkfe: exited 0 after 15 steps\n",
        puts: b"\xffabc\xff\xff\xff\xff",
        rest: b"de",
    };
    takes(&rt, alloc, &case)
}

// A folder whose calls with these numbers fail, with the program `p`, and a file `log` in the root and in the directory
// `d`.
fn logs(rt: &impl Abort, alloc: Global, failing: &[u64]) -> Result<MemoryFolder, Fail> {
    let mut folder = MemoryFolder::new(alloc, failing)?;
    let directory = read_path(b"d")?;
    assert!(rt; folder.can_put(&directory));
    folder.put_dir(&directory)?;
    let file = program(alloc, &APPENDS)?;
    put(rt, &mut folder, b"p", &file)?;
    put(rt, &mut folder, b"log", b"ab")?;
    put(rt, &mut folder, b"d/log", b"cd")?;
    Ok(folder)
}

fn put(rt: &impl Abort, folder: &mut MemoryFolder, name: &[u8], bytes: &[u8]) -> Result<(), Fail> {
    let path = read_path(name)?;
    assert!(rt; folder.can_put(&path));
    folder.put_file(&path, bytes)?;
    Ok(())
}

// These words over that folder are answered so, and leave this in the two files.
fn appends(
    rt: &impl Abort,
    alloc: Global,
    command: &[&str],
    failing: &[u64],
    (answer, line): (Answer, &str),
    (root, below): (&[u8], &[u8]),
) -> Result<(), Fail> {
    let mut words = Words::new(alloc);
    for word in command {
        words.push(word)?;
    }
    let mut folder = logs(rt, alloc, failing)?;
    let mut input = ByteSource::new(alloc, b"", &[])?;
    let mut console = ByteSink::new(alloc, 100, &[])?;
    let mut report = ByteSink::new(alloc, REPORT_LINE_LIMIT, &[])?;
    let given = front(
        alloc,
        &words,
        &mut input,
        &mut console,
        &mut report,
        &mut folder,
    );
    assert_eq!(rt; given, answer, "{line}");
    assert_eq!(rt; report.as_slice(), line.as_bytes(), "{line}");
    assert_eq!(rt; folder.file(&read_path(b"log")?), Some(root), "{line}");
    assert_eq!(rt; folder.file(&read_path(b"d/log")?), Some(below), "{line}");
    Ok(())
}

#[test]
fn files_are_written(rt: HostRuntime) -> Result<(), Fail> {
    let alloc = rt.alloc();
    let exited = (Answer::Exited(0), "pkfe: exited 0 after 12 steps\n");
    appends(&rt, alloc, &["plain", "p"], &[], exited, (b"ablog", b"cd"))?;
    appends(
        &rt,
        alloc,
        &["plain", "p"],
        &[99],
        exited,
        (b"ablog", b"cd"),
    )?;
    // The program's paths stand under DIR, and FILE does not.
    let below = ["plain", "--folder", "d", "p"];
    appends(&rt, alloc, &below, &[], exited, (b"ab", b"cdlog"))?;
    // The calls before the run are six. Of the program, openat asks for a kind and opens, and write asks for the size.
    let fault = (Answer::FileFault, "pkfe: file fault after 5 steps\n");
    appends(&rt, alloc, &below, &[6], fault, (b"ab", b"cd"))?;
    appends(&rt, alloc, &below, &[7], fault, (b"ab", b"cd"))?;
    let fault = (Answer::FileFault, "pkfe: file fault after 8 steps\n");
    appends(&rt, alloc, &["plain", "p"], &[8], fault, (b"ab", b"cd"))?;
    appends(&rt, alloc, &below, &[9], fault, (b"ab", b"cd"))?;
    // There is no eleventh call.
    appends(&rt, alloc, &below, &[10], exited, (b"ab", b"cdlog"))
}
