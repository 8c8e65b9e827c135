// The commands `kernel` and `asm`.
use super::{Case, check, plain};
use crate::answer::Answer;
use crate::front::front;
use crate::listing::word_lines;
use fe_base::limits::REPORT_LINE_LIMIT;
use fe_base::{ByteSink, ByteSource, Words};
use folder_memory::MemoryFolder;
use folder_tree::read_path;
use proxy_kernel::kernel_image;
use std::alloc::{AllocError, Global};
use std::process::Abort;
use std::test::Fail;

// `asm p` of this text, with no call failing, which answers so.
fn asm<'a>(text: &'a [u8], answer: Answer, code: u8, puts: &'a [u8], line: &'a str) -> Case<'a> {
    Case {
        words: &["asm", "p"],
        ..plain(text, answer, code, puts, line)
    }
}

// `asm p` of text whose line has this fault.
fn bad_asm(
    rt: &impl Abort,
    alloc: Global,
    text: &[u8],
    at: u64,
    kind: u8,
    line: &str,
) -> Result<(), Fail> {
    check(
        rt,
        alloc,
        &asm(text, Answer::BadAsm(at, kind), 75, b"", line),
    )
}

#[test]
fn text_is_assembled(rt: HostRuntime) -> Result<(), Fail> {
    let alloc = rt.alloc();
    let text = b"start:\n    la a0, start\n    beq x0, x0, start\n";
    let words = b"00000517\n00050513\nfe000ce3\n";
    // By one put: a second would fail.
    let case = Case {
        console: &[1],
        ..asm(text, Answer::Done, 0, words, "")
    };
    check(&rt, alloc, &case)?;
    check(&rt, alloc, &asm(b"", Answer::Done, 0, b"", ""))?;
    // The report is not called, and a console that fails keeps nothing.
    let case = Case {
        report: &[0],
        ..asm(text, Answer::Done, 0, words, "")
    };
    check(&rt, alloc, &case)?;
    let case = Case {
        console: &[0],
        ..asm(text, Answer::ConsoleFault, 72, b"", "pkfe: console fault\n")
    };
    check(&rt, alloc, &case)?;
    let case = Case {
        folder: &[3],
        ..asm(text, Answer::FileFault, 70, b"", "pkfe: file fault\n")
    };
    check(&rt, alloc, &case)?;
    Ok(())
}

#[test]
fn text_is_refused(rt: HostRuntime) -> Result<(), Fail> {
    let alloc = rt.alloc();
    let line = "pkfe: asm fault 1 at line 1\n";
    bad_asm(&rt, alloc, b"add x1, x2", 1, 1, line)?;
    let line = "pkfe: asm fault 1 at line 2\n";
    bad_asm(&rt, alloc, b"ecall\n# \xff\n", 2, 1, line)?;
    let line = "pkfe: asm fault 2 at line 1\n";
    bad_asm(&rt, alloc, b"frob x1, x2\n", 1, 2, line)?;
    let line = "pkfe: asm fault 3 at line 1\n";
    bad_asm(&rt, alloc, b"add x1, x2, x99\n", 1, 3, line)?;
    let line = "pkfe: asm fault 4 at line 1\n";
    bad_asm(&rt, alloc, b"addi x1, x2, 2048\n", 1, 4, line)?;
    let line = "pkfe: asm fault 5 at line 1\n";
    bad_asm(&rt, alloc, b"1a:\n", 1, 5, line)?;
    Ok(())
}

// A branch over four texts of 1,024 bytes each.
fn far_branch(alloc: Global) -> Result<Vec<u8>, AllocError> {
    let letters: Vec<u8> = vec![in alloc; b'a'; 1024]?;
    let mut text = Vec::from_slice(alloc, b"beq x0, x0, there\n")?;
    for _ in 0..4 {
        text.extend_from_slice(b".ascii \"")?;
        text.extend_from_slice(&letters)?;
        text.extend_from_slice(b"\"\n")?;
    }
    text.extend_from_slice(b"there:\n")?;
    Ok(text)
}

#[test]
fn items_are_refused(rt: HostRuntime) -> Result<(), Fail> {
    let alloc = rt.alloc();
    let line = "pkfe: asm fault 6 at line 1\n";
    bad_asm(&rt, alloc, b"beq x0, x0, there\n", 1, 6, line)?;
    let line = "pkfe: asm fault 7 at line 2\n";
    bad_asm(&rt, alloc, b"a:\na:\necall\n", 2, 7, line)?;
    let line = "pkfe: asm fault 8 at line 1\n";
    bad_asm(&rt, alloc, &far_branch(alloc)?, 1, 8, line)?;
    // A fault of the text on a later line comes before one of the items.
    let line = "pkfe: asm fault 2 at line 3\n";
    bad_asm(&rt, alloc, b"a:\na:\nfrob\n", 3, 2, line)?;
    let large: Vec<u8> = vec![in alloc; b'#'; 1_048_577]?;
    let line = "pkfe: asm fault 9 at line 0\n";
    bad_asm(&rt, alloc, &large, 0, 9, line)
}

// What a command puts on a console of which a second put fails, over a folder with this file `p`.
fn listing(
    rt: &impl Abort,
    alloc: Global,
    command: &[&str],
    file: &[u8],
) -> Result<ByteSink, Fail> {
    let mut words = Words::new(alloc);
    for word in command {
        words.push(word)?;
    }
    let mut input = ByteSource::new(alloc, b"", &[])?;
    let mut console = ByteSink::new(alloc, 100_000, &[1])?;
    let mut report = ByteSink::new(alloc, REPORT_LINE_LIMIT, &[])?;
    let mut folder = MemoryFolder::new(alloc, &[])?;
    let path = read_path(b"p")?;
    assert!(rt; folder.can_put(&path));
    folder.put_file(&path, file)?;
    let answer = front(
        alloc,
        &words,
        &mut input,
        &mut console,
        &mut report,
        &mut folder,
    );
    assert_eq!(rt; answer, Answer::Done);
    assert_eq!(rt; report.as_slice(), b"".as_slice());
    Ok(console)
}

#[test]
fn the_kernel_is_listed(rt: HostRuntime) -> Result<(), Fail> {
    let alloc = rt.alloc();
    let text = listing(&rt, alloc, &["kernel"], b"")?;
    let words = listing(&rt, alloc, &["asm", "p"], text.as_slice())?;
    let image = kernel_image(alloc)?;
    let wanted = word_lines(alloc, image.bytes.as_slice())?;
    assert_eq!(rt; words.as_slice(), wanted.as_slice());
    assert!(rt; image.bytes.len() > 1000);
    Ok(())
}
