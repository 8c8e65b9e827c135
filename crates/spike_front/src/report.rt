// The report's last line. Its text stands on the stack, so that no answer is lost for want of memory.
ghost use Rattle.std.specs.Prelude.{◌≡◌, ◌≤◌, ◌+◌, ◌++◌, None, codes, length};
ghost use Rattle.std.specs.Fmt.{decimal};
ghost use Rattle.arrayvec.specs.ArrayString.{array_string_len};
ghost use Rattle.fe_base.specs.Limits.{report_line_limit};
ghost use Rattle.spike_front.specs.Report as spec;

use crate::answer::Answer;
use arrayvec::ArrayString;
use elf_loader::ElfFault;
use fe_base::limits::REPORT_LINE_LIMIT;
use itoa::Buffer;

/// A line of the report.
pub type Line = ArrayString<REPORT_LINE_LIMIT>;

fn push_number(line: &mut Line, number: u64)
    requires { array_string_len line.old ≤ 100 }
    ensures bytes { line.new.bytes ≡ line.old.bytes ++ decimal number }
    ensures len { array_string_len line.new ≤ array_string_len line.old + 20 }
{
    let mut digits = Buffer::new();
    line.push_str(digits.format(number));
}

fn text(words: &str) -> Line
    requires { length words.now ≤ 40 }
    ensures { result.bytes ≡ words.now }
{
    let mut line = Line::new();
    line.push_str(words);
    line
}

fn numbered(words: &str, number: u64) -> Line
    requires { length words.now ≤ 40 }
    ensures bytes { result.bytes ≡ words.now ++ decimal number }
    ensures len { array_string_len result ≤ 60 }
{
    let mut line = text(words);
    push_number(&mut line, number);
    line
}

fn counted(mut line: Line, steps: Option<u64>) -> Line
    requires { array_string_len line ≤ 60 }
    ensures { result.bytes ≡ spec.counted line.bytes steps }
{
    let Some(steps) = steps else {
        return ended(line, "\n");
    };
    line.push_str(" after ");
    push_number(&mut line, steps);
    line.push_str(" steps\n");
    line
}

fn ended(mut line: Line, words: &str) -> Line
    requires { array_string_len line + length words.now ≤ report_line_limit }
    ensures { result.bytes ≡ line.bytes ++ words.now }
{
    line.push_str(words);
    line
}

fn usage(kind: u8, place: u64) -> Line
    ensures { result.bytes ≡ spec.line_of (Answer.Usage kind place) None }
{
    let mut line = numbered("pkfe: usage ", u64::from(kind));
    line.push_str(" at ");
    push_number(&mut line, place);
    ended(line, "\n")
}

fn placed(mut line: Line, place: u16) -> Line
    requires { array_string_len line ≤ 81 }
    ensures bytes { result.bytes ≡ line.bytes ++ (codes " " ++ decimal place) }
    ensures len { array_string_len result ≤ array_string_len line + 21 }
{
    line.push_str(" ");
    push_number(&mut line, u64::from(place));
    line
}

// The places of the program headers that a fault names, behind a line.
fn with_places(line: Line, fault: ElfFault) -> Line
    requires { array_string_len line ≤ 60 }
    ensures bytes { result.bytes ≡ line.bytes ++ spec.places_of fault }
    ensures len { array_string_len result ≤ 102 }
{
    match fault {
        ElfFault::Segment(header) | ElfFault::Outside(header) => placed(line, header),
        ElfFault::Overlap(first, second) => placed(placed(line, first), second),
        ElfFault::TooLarge
        | ElfFault::Short
        | ElfFault::Magic
        | ElfFault::Class
        | ElfFault::Order
        | ElfFault::Version
        | ElfFault::Kind
        | ElfFault::Machine
        | ElfFault::Flags
        | ElfFault::HeaderSize
        | ElfFault::Headers
        | ElfFault::Dynamic
        | ElfFault::Entry => line,
    }
}

fn bad_elf(fault: ElfFault) -> Line
    ensures { result.bytes ≡ spec.line_of (Answer.BadElf fault) None }
{
    let line = numbered("pkfe: bad elf ", u64::from(fault.number()));
    ended(with_places(line, fault), "\n")
}

fn bad_asm(text_line: u64, kind: u8) -> Line
    ensures { result.bytes ≡ spec.line_of (Answer.BadAsm text_line kind) None }
{
    let mut line = numbered("pkfe: asm fault ", u64::from(kind));
    line.push_str(" at line ");
    push_number(&mut line, text_line);
    ended(line, "\n")
}

/// The last line of the report, for an answer and the number of steps made before it, where steps are counted.
pub fn line_of(answer: Answer, steps: Option<u64>) -> Line
    ensures { result.bytes ≡ spec.line_of answer steps }
{
    match answer {
        Answer::Done | Answer::ReportFault => Line::new(),
        Answer::Exited(status) => counted(numbered("pkfe: exited ", u64::from(status)), steps),
        Answer::Usage(kind, place) => usage(kind, place),
        Answer::NoProgram => text("pkfe: no program\n"),
        Answer::BadElf(fault) => bad_elf(fault),
        Answer::NoFolder => text("pkfe: no folder\n"),
        Answer::ArgsTooLong(bytes) => ended(numbered("pkfe: arguments need ", bytes), " bytes\n"),
        Answer::BadAsm(text_line, kind) => bad_asm(text_line, kind),
        Answer::StepsSpent(_) => counted(text("pkfe: steps spent"), steps),
        Answer::FileFault => counted(text("pkfe: file fault"), steps),
        Answer::InputFault => counted(text("pkfe: input fault"), steps),
        Answer::ConsoleFault => counted(text("pkfe: console fault"), steps),
        Answer::OutOfMemory => counted(text("pkfe: out of memory"), steps),
        Answer::NotBuilt(kind) => ended(numbered("pkfe: not built ", u64::from(kind)), "\n"),
    }
}
