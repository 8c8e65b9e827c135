// Registers by number, the PMP by addresses, and traps.
use crate::{Access, Csrs, Mode};
use std::process::Abort;
use std::test::Fail;

// What a register reads in machine mode after a write in machine mode, where both are legal.
fn stored(csrs: &mut Csrs, number: u16, value: u64) -> Option<u64> {
    if csrs.write(number, value, Mode::Machine) {
        csrs.read(number, Mode::Machine)
    } else {
        None
    }
}

// A row: a number, what is written, and what is read afterwards.
static STORED: [(u16, u64, u64); 20] = [
    (0x300, 0xffff_ffff_ffff_ffff, 0x2_0000_1888),
    (0x300, 0x800, 0x2_0000_0000),
    (0x300, 0x1000, 0x2_0000_0000),
    (0x300, 0x8, 0x2_0000_0008),
    (0x300, 0x80, 0x2_0000_0080),
    (0x301, 0, 0x8000_0000_0010_1100),
    (0x304, 0xffff_ffff_ffff_ffff, 0),
    (0x344, 0xffff_ffff_ffff_ffff, 0),
    (0x306, 0xffff_ffff_ffff_ffff, 0),
    (0x305, 0x8000_0103, 0x8000_0100),
    (0x341, 0xffff_ffff_ffff_ffff, 0xffff_ffff_ffff_fffc),
    (0x340, 0xffff_ffff_ffff_ffff, 0xffff_ffff_ffff_ffff),
    (0x342, 0x8000_0000_0000_000b, 0x8000_0000_0000_000b),
    (0x343, 0x1234_5678_9abc_def1, 0x1234_5678_9abc_def1),
    (0x3a0, 0xffff, 0x0707),
    (0x3a0, 0x0f02, 0x0f00),
    (0x3a0, 0x1717, 0x0707),
    (0x3a0, 0xffff_ffff_ffff_8f9f, 0x0f07),
    (0x3b0, 0xffff_ffff_ffff_ffff, 0x003f_ffff_ffff_ffff),
    (0x3b1, 0x0040_0000_0000_0001, 1),
];

fn stored_rows() -> &'static [(u16, u64, u64)] {
    &STORED
}

#[test]
fn keeps_what_the_table_says(rt: HostRuntime) -> Result<(), Fail> {
    for (number, value, kept) in stored_rows() {
        let mut csrs = Csrs::reset();
        assert_eq!(rt;
            stored(&mut csrs, *number, *value),
            Some(*kept),
            "register {number}"
        );
    }
    Ok(())
}

// The numbers that machine mode may read.
static NUMBERS: [u16; 14] = [
    0x300, 0x301, 0x304, 0x305, 0x306, 0x340, 0x341, 0x342, 0x343, 0x344, 0x3a0, 0x3b0, 0x3b1,
    0xf14,
];

fn numbers() -> &'static [u16] {
    &NUMBERS
}

#[test]
fn every_other_number_is_illegal(rt: HostRuntime) -> Result<(), Fail> {
    let mut csrs = Csrs::reset();
    for number in 0..0x1001 {
        let is_there = numbers().contains(&number);
        let is_written = is_there && number != 0xf14;
        assert_eq!(rt;
            csrs.read(number, Mode::Machine).is_some(),
            is_there,
            "read of {number}"
        );
        assert_eq!(rt;
            csrs.write(number, 0, Mode::Machine),
            is_written,
            "write of {number}"
        );
        assert!(rt; csrs.read(number, Mode::User).is_none());
        assert!(rt; !csrs.write(number, 0, Mode::User));
    }
    Ok(())
}

// Two entries: pmpcfg0, pmpaddr0 and pmpaddr1.
fn fenced(configuration: u64, first: u64, second: u64) -> Csrs {
    let mut csrs = Csrs::reset();
    csrs.write(0x3a0, configuration, Mode::Machine);
    csrs.write(0x3b0, first, Mode::Machine);
    csrs.write(0x3b1, second, Mode::Machine);
    csrs
}

fn allows(rt: &impl Abort, csrs: &Csrs, rows: &[(u64, u64, Access, bool)]) {
    for (at, width, access, allowed) in rows {
        assert_eq!(rt;
            csrs.allows(*at, *width, *access, Mode::User),
            *allowed,
            "{width} bytes at {at}"
        );
        assert!(rt; csrs.allows(*at, *width, *access, Mode::Machine));
    }
}

// A row: an address, how many bytes, the access, and whether it is allowed in user mode.
static USER_AREA: [(u64, u64, Access, bool); 16] = [
    (0x1_0000, 8, Access::Read, true),
    (0x1_0000, 4, Access::Execute, true),
    (0xffff, 2, Access::Read, false),
    (0xffff, 1, Access::Read, false),
    (0x100_fff8, 8, Access::Read, true),
    (0x100_fffc, 8, Access::Write, false),
    (0x100_fffc, 4, Access::Execute, true),
    (0x100_fffe, 4, Access::Execute, false),
    (0x101_0000, 1, Access::Read, false),
    (0x8000_0000, 8, Access::Read, false),
    (0x200_0000, 8, Access::Write, false),
    (0x1_0000, 0x100_0000, Access::Read, true),
    (0x1_0000, 0x100_0001, Access::Read, false),
    (0x1_0000, 0, Access::Read, false),
    (0xffff_ffff_ffff_fff8, 0x2_0000, Access::Read, false),
    (
        0xffff_ffff_ffff_ffff,
        0xffff_ffff_ffff_ffff,
        Access::Execute,
        false,
    ),
];

// The first 16 bytes may only be read, up to the greatest end all may only be executed.
static TWO_ENTRIES: [(u64, u64, Access, bool); 10] = [
    (0, 16, Access::Read, true),
    (0, 16, Access::Write, false),
    (8, 8, Access::Execute, false),
    (12, 8, Access::Read, false),
    (12, 8, Access::Execute, false),
    (16, 8, Access::Execute, true),
    (16, 8, Access::Read, false),
    (0x00ff_ffff_ffff_fff8, 4, Access::Execute, true),
    (0x00ff_ffff_ffff_fff9, 4, Access::Execute, false),
    (0xffff_ffff_ffff_fffe, 4, Access::Read, false),
];

fn user_area() -> &'static [(u64, u64, Access, bool)] {
    &USER_AREA
}

fn two_entries() -> &'static [(u64, u64, Access, bool)] {
    &TWO_ENTRIES
}

#[test]
fn first_entry_that_matches_decides(rt: HostRuntime) -> Result<(), Fail> {
    allows(&rt, &fenced(0x0f00, 0x4000, 0x40_4000), user_area());
    allows(
        &rt,
        &fenced(0x0c09, 4, 0xffff_ffff_ffff_ffff),
        two_entries(),
    );
    let open = fenced(0x0f0f, 0x40_4000, 0x4000);
    assert!(rt; open.allows(0, 0x101_0000, Access::Write, Mode::User));
    assert!(rt; !open.allows(0x101_0000, 1, Access::Read, Mode::User));
    Ok(())
}

#[test]
fn traps_nest(rt: HostRuntime) -> Result<(), Fail> {
    let mut csrs = Csrs::reset();
    csrs.write(0x305, 0x8000_0100, Mode::Machine);
    csrs.write(0x300, 0x8, Mode::Machine);
    assert_eq!(rt; csrs.enter_trap(8, 0, 0x1_0006, Mode::User), 0x8000_0100);
    assert_eq!(rt; csrs.read(0x300, Mode::Machine), Some(0x2_0000_0080));
    assert_eq!(rt; csrs.read(0x341, Mode::Machine), Some(0x1_0004));
    assert_eq!(rt; csrs.read(0x342, Mode::Machine), Some(8));
    assert_eq!(rt;
        csrs.enter_trap(5, 0x123, 0x8000_0104, Mode::Machine),
        0x8000_0100
    );
    assert_eq!(rt; csrs.read(0x300, Mode::Machine), Some(0x2_0000_1800));
    assert_eq!(rt; csrs.read(0x343, Mode::Machine), Some(0x123));
    assert!(rt; csrs.leave_trap() == (Mode::Machine, 0x8000_0104));
    assert_eq!(rt; csrs.read(0x300, Mode::Machine), Some(0x2_0000_0080));
    csrs.write(0x341, 0x1_0007, Mode::Machine);
    assert!(rt; csrs.leave_trap() == (Mode::User, 0x1_0004));
    assert_eq!(rt; csrs.read(0x300, Mode::Machine), Some(0x2_0000_0088));
    Ok(())
}
