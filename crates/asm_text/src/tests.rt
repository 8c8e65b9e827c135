// Texts with their first fault, and texts that are read, printed and read again. The expected answers were
// written from the rules of the text form.

use crate::{Lines, TextFault, TextKind, print_asm, read_asm};
use fe_base::Bytes;
use std::alloc::{AllocError, Global};
use std::test::Fail;

// A text, and the line and the number of its first fault; two zeros where it has none.
static TEXTS: [(&[u8], u64, u8); 108] = [
    (b"", 0, 0), // no line has an item
    (b"\n\n \t\n# only a comment", 0, 0), // no line has an item
    (b"add x1, x2", 1, 1), // the third operand is missing
    (b"add x1, x2, x99", 1, 3),
    (b"addi x1, x2, 2048", 1, 4),
    (b"addi x1, x2, -2049", 1, 4),
    (b"addi x1, x2, -2048", 0, 0),
    (b"add x1,", 1, 1), // an empty operand and a missing one at one place
    (b"add x1, # c", 1, 1), // the line ends where its comment begins
    (b"add x1, x2,", 1, 3), // an empty operand is no register
    (b"add x1,, x2", 1, 3),
    (b"add", 1, 1),
    (b"add y1", 1, 3), // before the missing one
    (b"add x1, x2, x3, x4", 1, 1),
    (b"add x1, x2, x3,", 1, 1), // an empty operand too many
    (b"add x1, x2, y3, x4", 1, 3), // before the one too many
    (b"add x1 x2, x3", 1, 3),
    (b"add x1 , x2, x3", 1, 3), // a space before a comma belongs to the operand
    (b"add   x1,x2,   x3", 0, 0),
    (b"\t add x1, x2, x3 \t", 0, 0),
    (b"add\tx1, x2, x3", 1, 2), // a tab does not end a word
    (b"add\0 x1, x2, x3", 1, 2),
    (b"add x1, x2, x3\r", 1, 3),
    (b"ADD x1, x2, x3", 1, 2),
    (b"addx x1", 1, 2),
    (b"\xff", 1, 1), // a byte above 0x7F where an unknown word begins
    (b"ad\xff x1", 1, 2), // the word begins before the byte
    (b"add x1, \xff, y", 1, 1),
    (b"add y1, \xff", 1, 3),
    (b"add x1, x\xff", 1, 3),
    (b"ecall # \xff", 1, 1), // in a comment too
    (b"ecal # \xff", 1, 2),
    (b"# \xff", 1, 1),
    (b"ecall x1", 1, 1),
    (b"ecall\x7f", 1, 2), // 0x7F is in ASCII
    (b"0a:", 1, 5),
    (b":", 1, 5),
    (b"a b:", 1, 5),
    (b"\xffa:", 1, 1),
    (b"a\xff:", 1, 5),
    (b"a: ecall", 1, 2),
    (b"_b23456789a123456789b123456789c:", 0, 0), // a name of 31 letters
    (b"_b23456789a123456789b123456789c1:", 1, 5), // a name of 32 letters
    (b"jal x1, _b23456789a123456789b123456789c1", 1, 5),
    (b"beq x0, x0, 1a", 1, 5),
    (b"beq x0, x0,", 1, 5),
    (b"beq x0, x0", 1, 1),
    (b"la 1a, 1a", 1, 3),
    (b"ld x1, 8(x2", 1, 1),
    (b"ld x1, 8", 1, 1),
    (b"ld x1, 8(x2)", 0, 0),
    (b"ld x1, y(x2)", 1, 4),
    (b"ld x1, y(z)", 1, 4), // the number stands before the register
    (b"ld x1, y", 1, 1), // no brackets and no number at one place
    (b"ld x1, 8(z)", 1, 3),
    (b"ld x1, 8((x2)", 1, 3),
    (b"ld x1, (x2)", 1, 4),
    (b"ld x1, 8 (x2)", 1, 4),
    (b"ld x1, 8(\xff)", 1, 1),
    (b"sd x1, -2049(x2)", 1, 4),
    (b"jalr x0, 0(x1), x2", 1, 1),
    (b"slli x1, x2, 63", 0, 0),
    (b"slli x1, x2, 64", 1, 4),
    (b"slliw x1, x2, 31", 0, 0),
    (b"slliw x1, x2, 32", 1, 4),
    (b"lui x1, 0xFFFFF", 0, 0),
    (b"lui x1, 0x100000", 1, 4),
    (b"lui x1, -1", 1, 4),
    (b"csrrw x0, 0x340, x31", 0, 0),
    (b"csrrw x0, 4096, y", 1, 4),
    (b"csrrwi x0, 4095, 32", 1, 4),
    (b"addi x1, x2, 0x", 1, 4),
    (b"addi x1, x2, -", 1, 4),
    (b"addi x1, x2, -0x1", 1, 4),
    (b"addi x1, x2, 0X1", 1, 4),
    (b"addi x1, x2, +1", 1, 4),
    (b"addi x1, x2, 1_0", 1, 4),
    (b"addi x1, x2, 007", 0, 0),
    (b"addi x1, x2, -0", 0, 0),
    (b"addi x1, x2, 0x7fF", 0, 0),
    (b".dword", 1, 1),
    (b".dword 1, 2", 1, 1),
    (b".dword 18446744073709551615", 0, 0),
    (b".dword 18446744073709551616", 1, 4),
    (b".dword -9223372036854775808", 0, 0),
    (b".dword -9223372036854775809", 1, 4),
    (b".dword 1234567890123456789012345678901234567890", 1, 4), // forty digits
    (b".dword 0000000000000000000000000000000000000001", 0, 0), // forty digits
    (b".ascii", 1, 1),
    (b".ascii a", 1, 1),
    (b".ascii \"a", 1, 1), // a string that is not closed
    (b".ascii \"a # b", 1, 1),
    (b".ascii \"a:", 1, 5), // a line that ends with a colon is a name
    (b".ascii \"a\" b", 1, 1),
    (b".ascii \"a\", \"b\"", 1, 1),
    (b".ascii \"a, #b\"", 0, 0), // no comment in a string
    (b".ascii \"a\\\"#b\" # c", 0, 0),
    (b".ascii \"a\\\\\"# c\"", 0, 0), // the string ends before the comment
    (b".ascii \"\\q\"", 1, 1),
    (b".ascii \"\xff\"", 1, 1),
    (b".ascii \"a\tb\"", 1, 1),
    (b"ecall \"#\"", 1, 1),
    (b"fence x1", 1, 1),
    (b"fence.i", 0, 0),
    (b"ecall\n\nbad\nadd", 3, 2), // the first fault counts
    (b"a:\nbeq x0, x0, a\nb", 3, 2), // the last line may lack its end
    (b"a:\na:\nbeq x0, x0, there", 0, 0), // labels are looked up later
    (b"start:\n    la a0, start\n    beq x0, x0, start", 0, 0),
];

fn texts() -> &'static [(&'static [u8], u64, u8)] {
    &TEXTS
}

// The line and the number of the text's first fault; want of memory counts as 99.
fn fault_of(alloc: Global, text: &[u8]) -> (u64, u8) {
    match read_asm(alloc, text) {
        Ok(_) => (0, 0),
        Err(TextFault::At { line, kind }) => (line, kind.number()),
        Err(TextFault::OutOfMemory) => (0, 99),
    }
}

#[test]
fn first_faults(rt: HostRuntime) {
    let mut row = 0u64;
    for &(text, line, number) in texts() {
        assert_eq!(rt; fault_of(rt.alloc(), text), (line, number), "row {row}");
        row = row.wrapping_add(1);
    }
}

// Items in every form, spelled in many ways.
static MIXED: &[u8] = b"# a program
start:
    la a0, start # its own address
\tli:
  ld t0,   -8(sp)
sd ra,0x10(fp)

csrrw zero, 0x340, t6
csrrwi x1, 0x300, 0x1f
    bgeu s11, s0, li
    jal x0, start
srai t1, t2, 63
sraiw t3, t4, 31
lui a7, 0xfffff
fence
fence.i
.dword -1
.ascii \"a # \\\"b\\\"\\n\\\\\" # two strings";

// The same items in the form that is printed.
static PRINTED: &[u8] = b"start:
    la x10, start
li:
    ld x5, -8(x2)
    sd x1, 16(x8)
    csrrw x0, 832, x31
    csrrwi x1, 768, 31
    bgeu x27, x8, li
    jal x0, start
    srai x6, x7, 63
    sraiw x28, x29, 31
    lui x17, 1048575
    fence
    fence.i
    .dword 18446744073709551615
    .ascii \"a # \\\"b\\\"\\n\\\\\"
";

// The line of each item of the mixed text.
static MIXED_LINES: [u64; 16] = [2, 3, 4, 5, 6, 8, 9, 10, 11, 12, 13, 14, 15, 16, 17, 18];

#[test]
fn reads_and_prints(rt: HostRuntime) -> Result<(), Fail> {
    let read = read_asm(rt.alloc(), MIXED).expect(&rt, "a text");
    assert_eq!(rt; read.items.len(), 16);
    assert!(rt; read.lines.as_slice() == MIXED_LINES.as_slice());
    let text = print_asm(rt.alloc(), read.items.as_slice())?;
    assert!(rt; text.as_slice() == PRINTED);
    let again = read_asm(rt.alloc(), text.as_slice()).expect(&rt, "a printed text");
    assert_eq!(rt; again.lines.len(), 16);
    let twice = print_asm(rt.alloc(), again.items.as_slice())?;
    assert!(rt; twice.as_slice() == PRINTED);
    Ok(())
}

// `.ascii` and so many newlines between quotes, each of two bytes.
fn newlines(alloc: Global, count: u16) -> Result<Bytes, AllocError> {
    let mut text = Bytes::new(alloc);
    for byte in b".ascii \"" {
        text.push(*byte)?;
    }
    for _ in 0..count {
        text.push(b'\\')?;
        text.push(b'n')?;
    }
    text.push(b'"')?;
    Ok(text)
}

#[test]
fn longest_text(rt: HostRuntime) -> Result<(), Fail> {
    for (count, fault) in [(0, (0, 0)), (1024, (0, 0)), (1025, (1, 1))] {
        let text = newlines(rt.alloc(), count)?;
        assert_eq!(rt;
            fault_of(rt.alloc(), text.as_slice()),
            fault,
            "{count} bytes"
        );
    }
    Ok(())
}

#[test]
fn lines_and_messages(rt: HostRuntime) -> Result<(), Fail> {
    let mut lines = Lines::new(rt.alloc());
    lines.push(7)?;
    lines.push(9)?;
    assert_eq!(rt; lines.len(), 2);
    assert!(rt; lines.as_slice() == [7, 9].as_slice());
    let fault = TextFault::At {
        line: 7,
        kind: TextKind::BadNumber,
    };
    assert_eq!(rt;
        format!(in rt.alloc(); "{fault}")?.as_str(),
        "line 7: no number of the field's range"
    );
    assert_eq!(rt;
        format!(in rt.alloc(); "{}", TextFault::OutOfMemory)?.as_str(),
        "out of memory"
    );
    Ok(())
}
