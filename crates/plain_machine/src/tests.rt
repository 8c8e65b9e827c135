// Whole programs without files: how each ends, after how many steps, and what stands on the console.
ghost use Rattle.std.specs.Prelude.{◌≤◌, length};

use crate::{Plain, PlainEnd, PlainFault};
use elf_loader::read_elf;
use fe_base::{ByteSink, ByteSource, Words};
use folder_memory::MemoryFolder;
use folder_tree::Path;
use std::alloc::{AllocError, Global};
use std::process::Abort;
use std::test::Fail;

// The headers of a file with one segment; how many bytes it has stands at 96 and 104.
const HEADERS: [u8; 120] = [
    0x7f, 0x45, 0x4c, 0x46, 2, 1, 1, 0, 0, 0, 0, 0, 0, 0, 0, 0, //
    2, 0, 243, 0, 1, 0, 0, 0, 0, 0, 1, 0, 0, 0, 0, 0, //
    64, 0, 0, 0, 0, 0, 0, 0, 0, 0, 0, 0, 0, 0, 0, 0, //
    0, 0, 0, 0, 64, 0, 56, 0, 1, 0, 0, 0, 0, 0, 0, 0, //
    1, 0, 0, 0, 7, 0, 0, 0, 120, 0, 0, 0, 0, 0, 0, 0, //
    0, 0, 1, 0, 0, 0, 0, 0, 0, 0, 1, 0, 0, 0, 0, 0, //
    0, 0, 0, 0, 0, 0, 0, 0, 0, 0, 0, 0, 0, 0, 0, 0, //
    0, 0x10, 0, 0, 0, 0, 0, 0,
];

// write(1, "Hi\n", 3), then exit(0)
const HI: [u32; 10] = [
    0x00100513, 0x00000597, 0x02058593, 0x00300613, 0x04000893, 0x00000073, 0x00000513, 0x05d00893,
    0x00000073, 0x000a6948,
];

#[derive(Drop)]
struct Case<'a> {
    words: &'a [u32],
    limit: u64,
    failing: &'a [u64],
    end: PlainEnd,
    steps: u64,
    console: &'a [u8],
}

static CASES: [Case<'static>; 16] = [
    Case {
        words: &HI,
        limit: 100,
        failing: &[],
        end: PlainEnd::Exited(0),
        steps: 9,
        console: b"Hi\n",
    },
    Case {
        words: &HI,
        limit: 3,
        failing: &[],
        end: PlainEnd::StepsSpent,
        steps: 3,
        console: b"",
    },
    Case {
        words: &HI,
        limit: 100,
        failing: &[0],
        end: PlainEnd::Fault(PlainFault::ConsoleFault),
        steps: 5,
        console: b"",
    },
    // exit_group(300)
    Case {
        words: &[0x12c00513, 0x05e00893, 0x00000073],
        limit: 100,
        failing: &[],
        end: PlainEnd::Exited(44),
        steps: 3,
        console: b"",
    },
    // ld a0, 0(sp), which is the number of arguments; addi a0, a0, 5; exit(a0)
    Case {
        words: &[0x00013503, 0x00550513, 0x05d00893, 0x00000073],
        limit: 100,
        failing: &[],
        end: PlainEnd::Exited(7),
        steps: 4,
        console: b"",
    },
    // the first break is 0x10030, and the program ends with bits 23:16 of brk(0xf00000) - brk(0xf00001):
    // lui a0, 0xf00; addi a0, a0, 1; addi a7, x0, 214; ecall; addi s0, a0, 0; lui a0, 0xf00; ecall;
    // sub a0, a0, s0; srli a0, a0, 16; addi a7, x0, 93; ecall
    Case {
        words: &[
            0x00f00537, 0x00150513, 0x0d600893, 0x00000073, 0x00050413, 0x00f00537, 0x00000073,
            0x40850533, 0x01055513, 0x05d00893, 0x00000073,
        ],
        limit: 100,
        failing: &[],
        end: PlainEnd::Exited(0xee),
        steps: 11,
        console: b"",
    },
    // call 2011 and call 1000 answer -38: addi a7, x0, 2011; ecall; addi a7, x0, 1000; ecall; sub a0, x0, a0; exit(a0)
    Case {
        words: &[
            0x7db00893, 0x00000073, 0x3e800893, 0x00000073, 0x40a00533, 0x05d00893, 0x00000073,
        ],
        limit: 100,
        failing: &[],
        end: PlainEnd::Exited(38),
        steps: 7,
        console: b"",
    },
    // read of open number 1, which is the console, answers -9: addi a0, x0, 1; lui a1, 0x10; addi a7, x0, 63; ecall;
    // sub a0, x0, a0; exit(a0)
    Case {
        words: &[
            0x00100513, 0x000105b7, 0x03f00893, 0x00000073, 0x40a00533, 0x05d00893, 0x00000073,
        ],
        limit: 100,
        failing: &[],
        end: PlainEnd::Exited(9),
        steps: 7,
        console: b"",
    },
    // addi t0, x0, 1; slli t0, t0, 31; sd x0, 0(t0)
    Case {
        words: &[0x00100293, 0x01f29293, 0x0002b023],
        limit: 100,
        failing: &[],
        end: PlainEnd::Exited(135),
        steps: 59,
        console: b"pk: trap 07 at 0000000000010008 value 0000000080000000\n",
    },
    // the same, with the third byte of its last words failing
    Case {
        words: &[0x00100293, 0x01f29293, 0x0002b023],
        limit: 100,
        failing: &[2],
        end: PlainEnd::Fault(PlainFault::ConsoleFault),
        steps: 5,
        console: b"pk",
    },
    // csrrs t0, 0xc00, x0
    Case {
        words: &[0xc00022f3],
        limit: 100,
        failing: &[],
        end: PlainEnd::Exited(124),
        steps: 39,
        console: b"pk: counter read at 0000000000010000\n",
    },
    // csrrs t0, 0xc20, x0
    Case {
        words: &[0xc20022f3],
        limit: 100,
        failing: &[],
        end: PlainEnd::Exited(130),
        steps: 57,
        console: b"pk: trap 02 at 0000000000010000 value 00000000c20022f3\n",
    },
    // jal x0, .+2
    Case {
        words: &[0x0020006f],
        limit: 100,
        failing: &[],
        end: PlainEnd::Exited(128),
        steps: 57,
        console: b"pk: trap 00 at 0000000000010000 value 0000000000010002\n",
    },
    // lui a1, 0x1010; lw a0, -2(a1)
    Case {
        words: &[0x010105b7, 0xffe5a503],
        limit: 100,
        failing: &[],
        end: PlainEnd::Exited(133),
        steps: 58,
        console: b"pk: trap 05 at 0000000000010004 value 0000000001010000\n",
    },
    // jal x0, .
    Case {
        words: &[0x0000006f],
        limit: 1000,
        failing: &[],
        end: PlainEnd::StepsSpent,
        steps: 1000,
        console: b"",
    },
    // the least number divided by -1, the remainder of -1 by 0, and the upper half of -1 times -1 as mulhsu takes them
    Case {
        words: &[
            0xfff00293, 0x03f29313, 0x025343b3, 0x0202ee33, 0x0252aeb3, 0x00020437, 0x00743023,
            0x01c43423, 0x01d43823, 0x00100513, 0x00040593, 0x01800613, 0x04000893, 0x00000073,
            0x00000513, 0x05d00893, 0x00000073,
        ],
        limit: 100,
        failing: &[],
        end: PlainEnd::Exited(0),
        steps: 17,
        console: &[
            0, 0, 0, 0, 0, 0, 0, 0x80, 0xff, 0xff, 0xff, 0xff, 0xff, 0xff, 0xff, 0xff, 0xff, 0xff,
            0xff, 0xff, 0xff, 0xff, 0xff, 0xff,
        ],
    },
];

fn cases() -> &'static [Case<'static>] {
    &CASES
}

pub fn file(alloc: Global, words: &[u32]) -> Result<Vec<u8>, AllocError>
    requires { length words.now ≤ 63 }
{
    let mut headers = HEADERS;
    headers[96] = (4 * words.len()) as u8;
    headers[104] = (4 * words.len()) as u8;
    let mut file = headers.to_vec(alloc)?;
    for word in words {
        file.extend_from_slice(&word.to_le_bytes())?;
    }
    Ok(file)
}

// A program with two arguments, before its first step.
pub fn started(rt: &impl Abort, alloc: Global, words: &[u32]) -> Result<Plain, Fail> {
    assert!(rt; words.len() < 64);
    let image = read_elf(alloc, &file(alloc, words)?)?;
    let mut args = Words::new(alloc);
    args.push("p")?;
    args.push("word")?;
    Ok(Plain::start(alloc, image, &args, Path::root())?)
}

// Runs a program, and compares what it leaves.
fn run_case(rt: &impl Abort, alloc: Global, case: &Case) -> Result<(), Fail> {
    let mut plain = started(rt, alloc, case.words)?;
    let mut folder = MemoryFolder::new(alloc, &[])?;
    let mut input = ByteSource::new(alloc, &[], &[])?;
    let mut console = ByteSink::new(alloc, 64, case.failing)?;
    let end = plain.run(case.limit, &mut folder, &mut input, &mut console);
    assert!(rt; end == case.end);
    assert!(rt; plain.steps() == case.steps);
    assert!(rt; console.as_slice() == case.console);
    Ok(())
}

#[test]
fn programs_end_as_written(rt: HostRuntime) -> Result<(), Fail> {
    for case in cases() {
        run_case(&rt, rt.alloc(), case)?;
    }
    Ok(())
}
