// Whole programs with files: what they leave, and what a call that fails leaves.
use super::tests::started;
use crate::{Plain, PlainEnd, PlainFault};
use fe_base::{ByteSink, ByteSource};
use folder_memory::MemoryFolder;
use folder_tree::read_path;
use std::alloc::Global;
use std::process::Abort;
use std::test::Fail;

// Reads up to 16 bytes of the file `in`, writes them to `out`, which loses its bytes or is made, closes both, and exits
// with their count: openat, read, openat, write, close, close, exit.
static COPY: [u32; 36] = [
    0xf9c00513, 0x000105b7, 0x08858593, 0x00000613, 0x03800893, 0x00000073, 0x00050413, 0x000115b7,
    0x80058593, 0x01000613, 0x03f00893, 0x00000073, 0x00050493, 0xf9c00513, 0x000105b7, 0x08b58593,
    0x24100613, 0x03800893, 0x00000073, 0x00050913, 0x000115b7, 0x80058593, 0x00048613, 0x04000893,
    0x00000073, 0x00090513, 0x03900893, 0x00000073, 0x00040513, 0x03900893, 0x00000073, 0x00048513,
    0x05d00893, 0x00000073, 0x6f006e69, 0x00007475,
];

// Copies its input to the console, four bytes at a time, and exits with their count.
static ECHO: [u32; 18] = [
    0x00000513, 0x000115b7, 0x80058593, 0x00400613, 0x03f00893, 0x00000073, 0x00050613, 0x02060063,
    0x00100513, 0x000115b7, 0x80058593, 0x04000893, 0x00000073, 0x00a40433, 0xfc0004e3, 0x00040513,
    0x05d00893, 0x00000073,
];

// Opens `in` until that is refused, closes number 0 and opens `in` once more: exits with the sum of the count of opens,
// of the refusal and of the last number.
static MANY: [u32; 24] = [
    0xf9c00513, 0x000105b7, 0x05c58593, 0x00000613, 0x03800893, 0x00000073, 0x00054663, 0x00140413,
    0xfe0000e3, 0x00050493, 0x00000513, 0x03900893, 0x00000073, 0xf9c00513, 0x000105b7, 0x05c58593,
    0x00000613, 0x03800893, 0x00000073, 0x00850533, 0x00950533, 0x05d00893, 0x00000073, 0x00006e69,
];

// The objects of a run.
#[derive(Drop)]
struct World {
    folder: MemoryFolder,
    input: ByteSource,
    console: ByteSink,
}

// A folder with a file `in`, a file `out` with other bytes and a directory `d`, an input and a console, of which these
// calls fail.
fn make_world(
    rt: &impl Abort,
    alloc: Global,
    folder_fails: &[u64],
    input_fails: &[u64],
    console_fails: &[u64],
) -> Result<World, Fail> {
    let mut folder = MemoryFolder::new(alloc, folder_fails)?;
    let (read, written, directory) = (read_path(b"in")?, read_path(b"out")?, read_path(b"d")?);
    assert!(rt; folder.can_put(&read));
    folder.put_file(&read, b"12345")?;
    assert!(rt; folder.can_put(&written));
    folder.put_file(&written, b"older")?;
    assert!(rt; folder.can_put(&directory));
    folder.put_dir(&directory)?;
    Ok(World {
        folder,
        input: ByteSource::new(alloc, b"abcdef", input_fails)?,
        console: ByteSink::new(alloc, 64, console_fails)?,
    })
}

// A run to a limit.
fn run(plain: &mut Plain, world: &mut World, limit: u64) -> PlainEnd {
    plain.run(
        limit,
        &mut world.folder,
        &mut world.input,
        &mut world.console,
    )
}

// Whether a file of the folder has these bytes.
fn has(world: &World, name: &[u8], bytes: &[u8]) -> bool {
    match read_path(name) {
        Ok(path) => world.folder.file(&path) == Some(bytes),
        Err(_) => false,
    }
}

#[test]
fn a_file_is_copied(rt: HostRuntime) -> Result<(), Fail> {
    let mut world = make_world(&rt, rt.alloc(), &[], &[], &[])?;
    let mut plain = started(&rt, rt.alloc(), &COPY)?;
    assert_eq!(rt; run(&mut plain, &mut world, 100), PlainEnd::Exited(5));
    assert_eq!(rt; plain.steps(), 34);
    assert!(rt; has(&world, b"out", b"12345"));
    assert!(rt; has(&world, b"in", b"12345"));
    assert_eq!(rt; world.input.rest(), b"abcdef".as_slice());
    Ok(())
}

#[test]
fn a_number_for_each_open(rt: HostRuntime) -> Result<(), Fail> {
    let mut world = make_world(&rt, rt.alloc(), &[], &[], &[])?;
    let mut plain = started(&rt, rt.alloc(), &MANY)?;
    assert_eq!(rt; run(&mut plain, &mut world, 1000), PlainEnd::Exited(37));
    Ok(())
}

#[test]
fn input_is_copied(rt: HostRuntime) -> Result<(), Fail> {
    let mut world = make_world(&rt, rt.alloc(), &[], &[], &[])?;
    let mut plain = started(&rt, rt.alloc(), &ECHO)?;
    assert_eq!(rt; run(&mut plain, &mut world, 1000), PlainEnd::Exited(6));
    assert_eq!(rt; world.input.rest(), b"".as_slice());
    assert_eq!(rt; world.console.as_slice(), b"abcdef".as_slice());
    Ok(())
}

// Of each call of the folder that fails in COPY: after how many steps, and what `out` then has.
static FAILING: [(u64, u64, &'static [u8]); 9] = [
    (0, 5, b"older"),
    (1, 5, b"older"),
    (2, 11, b"older"),
    (3, 18, b"older"),
    (4, 18, b"older"),
    (5, 18, b"older"),
    (6, 24, b""),
    (7, 27, b"12345"),
    (8, 30, b"12345"),
];

fn failing() -> &'static [(u64, u64, &'static [u8])] {
    &FAILING
}

// A call of the folder fails, the step is not made, and a second run goes on from there.
fn folder_fails(
    rt: &impl Abort,
    alloc: Global,
    call: u64,
    steps: u64,
    out: &[u8],
) -> Result<(), Fail> {
    let mut world = make_world(rt, alloc, &[call], &[], &[])?;
    let mut plain = started(rt, alloc, &COPY)?;
    let end = run(&mut plain, &mut world, 100);
    assert_eq!(rt; end, PlainEnd::Fault(PlainFault::FileFault), "call {call}");
    assert_eq!(rt; plain.steps(), steps, "call {call}");
    assert!(rt; has(&world, b"out", out), "call {call}");
    assert!(rt; has(&world, b"in", b"12345"), "call {call}");
    let end = run(&mut plain, &mut world, 100);
    assert_eq!(rt; end, PlainEnd::Exited(5), "call {call}");
    assert!(rt; has(&world, b"out", b"12345"), "call {call}");
    Ok(())
}

#[test]
fn calls_of_the_folder_fail(rt: HostRuntime) -> Result<(), Fail> {
    for (call, steps, out) in failing() {
        folder_fails(&rt, rt.alloc(), *call, *steps, out)?;
    }
    Ok(())
}

// A call of ECHO on the input or on the console fails, and a second run goes on from there.
fn stream_fails(
    rt: &impl Abort,
    alloc: Global,
    mut world: World,
    fault: PlainFault,
    rest: &[u8],
    put: &[u8],
) -> Result<(), Fail> {
    let mut plain = started(rt, alloc, &ECHO)?;
    let end = run(&mut plain, &mut world, 1000);
    assert_eq!(rt; end, PlainEnd::Fault(fault));
    assert_eq!(rt; world.input.rest(), rest);
    assert_eq!(rt; world.console.as_slice(), put);
    let end = run(&mut plain, &mut world, 1000);
    assert_eq!(rt; end, PlainEnd::Exited(6));
    assert_eq!(rt; world.console.as_slice(), b"abcdef".as_slice());
    Ok(())
}

#[test]
fn calls_of_the_streams_fail(rt: HostRuntime) -> Result<(), Fail> {
    let alloc = rt.alloc();
    for (call, rest, put) in [
        (0, b"abcdef".as_slice(), b"".as_slice()),
        (1, b"ef", b"abcd"),
        (2, b"", b"abcdef"),
    ] {
        let world = make_world(&rt, alloc, &[], &[call], &[])?;
        stream_fails(&rt, alloc, world, PlainFault::InputFault, rest, put)?;
    }
    for (call, rest, put) in [(0, b"ef".as_slice(), b"".as_slice()), (1, b"", b"abcd")] {
        let world = make_world(&rt, alloc, &[], &[], &[call])?;
        stream_fails(&rt, alloc, world, PlainFault::ConsoleFault, rest, put)?;
    }
    Ok(())
}

// Programs of one call each, which exit with the negated result.
static CALLS: [(&'static [u32], u8); 19] = [
    // openat of a name that is missing
    (
        &[
            0xf9c00513, 0x000105b7, 0x02858593, 0x00000613, 0x00000693, 0x03800893, 0x00000073,
            0x40a00533, 0x05d00893, 0x00000073, 0x00006f6e,
        ],
        2,
    ),
    // openat of a directory
    (
        &[
            0xf9c00513, 0x000105b7, 0x02858593, 0x00000613, 0x00000693, 0x03800893, 0x00000073,
            0x40a00533, 0x05d00893, 0x00000073, 0x00000064,
        ],
        21,
    ),
    // openat below a file
    (
        &[
            0xf9c00513, 0x000105b7, 0x02858593, 0x00000613, 0x00000693, 0x03800893, 0x00000073,
            0x40a00533, 0x05d00893, 0x00000073, 0x782f6e69, 0x00000000,
        ],
        20,
    ),
    // openat with a part ..
    (
        &[
            0xf9c00513, 0x000105b7, 0x02858593, 0x00000613, 0x00000693, 0x03800893, 0x00000073,
            0x40a00533, 0x05d00893, 0x00000073, 0x2e2e2f64, 0x00000000,
        ],
        13,
    ),
    // openat, its path below the user area
    (
        &[
            0xf9c00513, 0x000085b7, 0x00058593, 0x00000613, 0x00000693, 0x03800893, 0x00000073,
            0x40a00533, 0x05d00893, 0x00000073,
        ],
        14,
    ),
    // faccessat of a file
    (
        &[
            0xf9c00513, 0x000105b7, 0x02858593, 0x00000613, 0x00000693, 0x03000893, 0x00000073,
            0x40a00533, 0x05d00893, 0x00000073, 0x00006e69,
        ],
        0,
    ),
    // mkdirat of a name that is there
    (
        &[
            0xf9c00513, 0x000105b7, 0x02858593, 0x00000613, 0x00000693, 0x02200893, 0x00000073,
            0x40a00533, 0x05d00893, 0x00000073, 0x00000064,
        ],
        17,
    ),
    // mkdirat of a free name
    (
        &[
            0xf9c00513, 0x000105b7, 0x02858593, 0x00000613, 0x00000693, 0x02200893, 0x00000073,
            0x40a00533, 0x05d00893, 0x00000073, 0x00000065,
        ],
        0,
    ),
    // unlinkat of a file
    (
        &[
            0xf9c00513, 0x000105b7, 0x02858593, 0x00000613, 0x00000693, 0x02300893, 0x00000073,
            0x40a00533, 0x05d00893, 0x00000073, 0x00006e69,
        ],
        0,
    ),
    // unlinkat of a directory
    (
        &[
            0xf9c00513, 0x000105b7, 0x02858593, 0x00000613, 0x00000693, 0x02300893, 0x00000073,
            0x40a00533, 0x05d00893, 0x00000073, 0x00000064,
        ],
        21,
    ),
    // unlinkat of a directory by AT_REMOVEDIR
    (
        &[
            0xf9c00513, 0x000105b7, 0x02858593, 0x20000613, 0x00000693, 0x02300893, 0x00000073,
            0x40a00533, 0x05d00893, 0x00000073, 0x00000064,
        ],
        0,
    ),
    // ftruncate of the console
    (
        &[
            0x00100513, 0x00000593, 0x00000613, 0x00000693, 0x02e00893, 0x00000073, 0x40a00533,
            0x05d00893, 0x00000073,
        ],
        22,
    ),
    // close of a number that is closed
    (
        &[
            0x00300513, 0x00000593, 0x00000613, 0x00000693, 0x03900893, 0x00000073, 0x40a00533,
            0x05d00893, 0x00000073,
        ],
        9,
    ),
    // lseek of the input
    (
        &[
            0x00000513, 0x00000593, 0x00000613, 0x00000693, 0x03e00893, 0x00000073, 0x40a00533,
            0x05d00893, 0x00000073,
        ],
        29,
    ),
    // pread64 of the input
    (
        &[
            0x00000513, 0x000115b7, 0x80058593, 0x00100613, 0x00000693, 0x04300893, 0x00000073,
            0x40a00533, 0x05d00893, 0x00000073,
        ],
        29,
    ),
    // pwrite64 of the console
    (
        &[
            0x00100513, 0x000115b7, 0x80058593, 0x00100613, 0x00000693, 0x04400893, 0x00000073,
            0x40a00533, 0x05d00893, 0x00000073,
        ],
        29,
    ),
    // fstat of the input
    (
        &[
            0x00000513, 0x000115b7, 0x80058593, 0x00000613, 0x00000693, 0x05000893, 0x00000073,
            0x40a00533, 0x05d00893, 0x00000073,
        ],
        0,
    ),
    // fstat into memory that is not the program's
    (
        &[
            0x00000513, 0x000085b7, 0x00058593, 0x00000613, 0x00000693, 0x05000893, 0x00000073,
            0x40a00533, 0x05d00893, 0x00000073,
        ],
        14,
    ),
    // write to the input
    (
        &[
            0x00000513, 0x000115b7, 0x80058593, 0x00100613, 0x00000693, 0x04000893, 0x00000073,
            0x40a00533, 0x05d00893, 0x00000073,
        ],
        9,
    ),
];

fn calls() -> &'static [(&'static [u32], u8)] {
    &CALLS
}

#[test]
fn calls_by_their_results(rt: HostRuntime) -> Result<(), Fail> {
    for (words, status) in calls() {
        let mut world = make_world(&rt, rt.alloc(), &[], &[], &[])?;
        let mut plain = started(&rt, rt.alloc(), words)?;
        let end = run(&mut plain, &mut world, 100);
        assert_eq!(rt; end, PlainEnd::Exited(*status), "words {words:?}");
    }
    Ok(())
}

// Programs that open a path without an end, and exit with the negated result after so many steps: bytes of ones up to
// the end of the user area, and 4096 bytes and more of ones.
static ENDLESS: [(&'static [u32], u8, u64); 2] = [
    (
        &[
            0x010105b7, 0xff658593, 0xfff00293, 0x0055b023, 0x00559423, 0xf9c00513, 0x03800893,
            0x00000073, 0x40a00533, 0x05d00893, 0x00000073,
        ],
        14,
        11,
    ),
    (
        &[
            0x000205b7, 0xfff00293, 0x00058313, 0x000013b7, 0x00b383b3, 0x00533023, 0x00830313,
            0xfe736ce3, 0xf9c00513, 0x03800893, 0x00000073, 0x40a00533, 0x05d00893, 0x00000073,
        ],
        36,
        1547,
    ),
];

fn endless() -> &'static [(&'static [u32], u8, u64)] {
    &ENDLESS
}

#[test]
fn paths_without_an_end(rt: HostRuntime) -> Result<(), Fail> {
    for (words, status, steps) in endless() {
        let mut world = make_world(&rt, rt.alloc(), &[], &[], &[])?;
        let mut plain = started(&rt, rt.alloc(), words)?;
        let end = run(&mut plain, &mut world, 10_000);
        assert_eq!(rt; end, PlainEnd::Exited(*status), "words {words:?}");
        assert_eq!(rt; plain.steps(), *steps, "words {words:?}");
    }
    Ok(())
}
