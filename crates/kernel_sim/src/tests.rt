// Runs of the kernel by `advance` and `host_write`.

mod calls;
mod target;
mod traps;

use crate::phase::{Phase, PhaseKind};
use PhaseKind::{
    Boot, BootTake, BootWait, Check, Closing, Fill, Leave, Local, Restore, Save, Scan, Speak, Take,
    User, Wait,
};
use calls::{CALLS, Call, PATHS};
use fe_base::memory_map::{FROMHOST, REQUEST, TOHOST};
use guest_memory::Bus;
use std::test::Fail;
use target::{ENTRY, FIRST_BREAK, STACK_TOP, Target};
use traps::{TRAPS, Trap};

// Where the rows of the calls stand, and how long each is.
const ROWS: u64 = 0x5_0000;

const ROW: u64 = 56;

// Puts words into the user area.
fn put_words(bus: &mut Bus, at: u64, words: &[u32]) {
    let mut place = at;
    for word in words {
        bus.store_within(place, 4, u64::from(*word));
        place = place.wrapping_add(4);
    }
}

// Lets the hart go from its first phase into the program.
fn boots(target: &mut Target) -> bool {
    target.phase().kind == Boot
        && target.passes(&[BootWait])
        && target.phase().request == [2011, STACK_TOP, 0x1_0000, 0, 0, 0, 0, 0]
        && target.next_word() == REQUEST
        && target.answer(0)
        && target.passes(&[BootTake, Leave, User])
}

// A program that writes `Hi` and ends, by LLVM's assembler.
static HI: [u32; 10] = [
    0x0010_0513,
    0x0000_0597,
    0x0205_8593,
    0x0030_0613,
    0x0400_0893,
    0x0000_0073,
    0x0000_0513,
    0x05d0_0893,
    0x0000_0073,
    0x000a_6948,
];

#[test]
fn a_program_writes_and_ends(rt: HostRuntime) -> Result<(), Fail> {
    let mut bus = Bus::new(rt.alloc())?;
    put_words(&mut bus, ENTRY, &HI);
    let mut target = Target::new(rt.alloc(), bus, ENTRY)?;
    assert!(rt; boots(&mut target));
    let user = target.phase().user;
    assert_eq!(rt;
        (user.pc, user.brk, user.first_break),
        (ENTRY, FIRST_BREAK, FIRST_BREAK)
    );
    let (pc, registers) = target.state();
    let mut begins = [0; 32];
    begins[2] = STACK_TOP;
    assert_eq!(rt; pc, ENTRY);
    assert_eq!(rt; registers, begins);

    assert!(rt; target.passes(&[Save, Check, Fill, Wait]));
    assert_eq!(rt; target.word(TOHOST), Some(0x8000_8080));
    assert_eq!(rt; target.phase().request, [64, 1, 0x1_0024, 3, 0, 0, 0, 0]);
    assert_eq!(rt; target.next_word(), 0x8000_8080);
    assert!(rt; target.fill(0x2_0000, 7));
    assert!(rt; target.answer(3));
    assert!(rt; target.passes(&[Take, Restore, User]));
    let (pc, registers) = target.state();
    assert_eq!(rt; (pc, registers[10]), (0x1_0018, 3));
    assert_eq!(rt; target.word(FROMHOST), Some(0));
    assert_eq!(rt; target.word(0x2_0000), Some(7));

    assert!(rt; target.passes(&[Save, Check, Fill, Wait]));
    assert_eq!(rt; target.phase().request, [93, 0, 0, 0, 0, 0, 0, 0]);
    Ok(())
}

fn all_calls() -> &'static [Call] {
    &CALLS
}

// Puts the paths, the program that makes the calls, and the rows of its arguments into memory.
fn put_calls(bus: &mut Bus) {
    for (start, letters, ends) in &PATHS {
        let mut at = *start;
        for _ in 0..*letters {
            bus.store_within(at, 1, u64::from(b'x'));
            at = at.wrapping_add(1);
        }
        if *ends {
            bus.store_within(at, 1, 0);
        }
    }
    put_words(bus, ENTRY, &calls::PROGRAM);
    put_rows(bus);
}

fn put_rows(bus: &mut Bus) {
    let mut at = ROWS;
    for call in all_calls() {
        for argument in &call.arguments() {
            bus.write_beat(at, *argument);
            at = at.wrapping_add(8);
        }
        bus.write_beat(at, call.number());
        at = at.wrapping_add(8);
    }
}

// The program's registers once it has made the call of a row, and what that answered.
fn registers_after(call: &Call, row: u64, answer: u64) -> [u64; 32] {
    let mut registers = [0; 32];
    for n in 0..32usize {
        registers[n] = 65 * n as u64;
    }
    registers[2] = STACK_TOP;
    registers[8] = row;
    let arguments = call.arguments();
    registers[10] = answer;
    for n in 1..6usize {
        registers[10 + n] = arguments[n];
    }
    registers[17] = call.number();
    registers
}

// The request of a call, with zeros behind what is sent.
fn request_of(number: u64, sent: [u64; 5]) -> [u64; 8] {
    let mut request = [0; 8];
    request[0] = number;
    for n in 0..5usize {
        request[n + 1] = sent[n];
    }
    request
}

// Makes the call of a row, and answers it where it is posted.
fn makes(target: &mut Target, call: &Call, row: u64) -> Result<(), &'static str> {
    if !target.passes(&[Save, Check]) {
        return Err("no call is made");
    }
    if call.is_scanned() && !target.passes(&[Scan]) {
        return Err("the path is not scanned");
    }
    let answer = match *call {
        Call::Answers(_, _, answer) => {
            if !target.passes(&[Local, Restore, User]) {
                return Err("the kernel does not answer");
            }
            answer
        }
        Call::Posts(number, _, sent) => {
            if !target.passes(&[Fill, Wait]) || target.next_word() != REQUEST {
                return Err("nothing is posted");
            }
            if target.phase().request != request_of(number, sent) {
                return Err("another request is posted");
            }
            let answer = number.wrapping_mul(0xa5a5_a5a5_a5a5_a5a5);
            if !target.answer(answer) || !target.passes(&[Take, Restore, User]) {
                return Err("the kernel does not return");
            }
            answer
        }
    };
    if target.state() != (calls::BEHIND, registers_after(call, row, answer)) {
        return Err("the program goes on with something else");
    }
    Ok(())
}

#[test]
fn every_call(rt: HostRuntime) -> Result<(), Fail> {
    let mut bus = Bus::new(rt.alloc())?;
    put_calls(&mut bus);
    let mut target = Target::new(rt.alloc(), bus, ENTRY)?;
    assert!(rt; boots(&mut target));
    let mut row = ROWS;
    for call in all_calls() {
        assert_eq!(rt; makes(&mut target, call, row), Ok(()), "row {row:x}");
        row = row.wrapping_add(ROW);
    }
    Ok(())
}

fn all_traps() -> &'static [Trap] {
    &TRAPS
}

// Lets the program trap, and takes the bytes that the kernel says.
fn says(target: &mut Target, trap: &Trap) -> Result<(), &'static str> {
    if !boots(target) || !target.passes(&[Save, Check, Speak]) {
        return Err("no message begins");
    }
    for byte in trap.text.as_bytes() {
        if target.next_word() != 0x0101 << 48 | u64::from(*byte) {
            return Err("another byte is said");
        }
    }
    if target.next_word() != 2 * u64::from(trap.status) + 1 {
        return Err("the program ends with another status");
    }
    if target.phase().kind != Closing || target.next_word() != 0 {
        return Err("the kernel goes on");
    }
    Ok(())
}

// What the phase tells of the trap.
fn tells(phase: &Phase, trap: &Trap) -> bool {
    phase.text.counter == (trap.status == 124)
        && phase.text.at == trap.pc
        && phase.text.posted as usize == trap.text.len()
}

#[test]
fn every_trap(rt: HostRuntime) -> Result<(), Fail> {
    for trap in all_traps() {
        let mut bus = Bus::new(rt.alloc())?;
        put_words(&mut bus, ENTRY, &[trap.word]);
        put_words(&mut bus, traps::START, &traps::PROGRAM);
        bus.write_beat(traps::ROW, trap.x5);
        bus.write_beat(traps::ROW + 8, trap.pc);
        let mut target = Target::new(rt.alloc(), bus, traps::START)?;
        assert_eq!(rt; says(&mut target, trap), Ok(()), "{}", trap.text);
        assert!(rt; tells(&target.phase(), trap), "{}", trap.text);
    }
    Ok(())
}
