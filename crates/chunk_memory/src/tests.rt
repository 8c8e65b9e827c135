// Ranges over a bus and over a small wire, beside what lists of bytes say.
ghost use Rattle.std.specs.Prelude.{◌≡◌, ◌≤◌, ◌<◌, ◌+◌, ℕ, [], None, length};
ghost use Rattle.fe_base.specs.Wires.{FailsBy, Lowers, OnTold, StaysUnfailed};
ghost use Rattle.chunk_memory.specs.BeatChunks.{DirectOne};
ghost use Rattle.chunk_memory.specs.Ports.{with_bytes};
ghost use Rattle.chunk_memory.specs.RamTurns.{ram_turn};
ghost use Rattle.chunk_memory.specs.Transactions.{ReadsRange};

use crate::mapped::first_unmapped;
use crate::{ChunkPort, Chunked, DirectPort, MemStop, RamPort};
use fe_base::memory_map::{KERNEL_END, KERNEL_START, START_WORD, TOHOST, USER_END, USER_START};
use fe_base::{BeatWire, WireStop};
use guest_memory::Bus;
use std::test::Fail;

// The byte that stands at a place at first.
fn old_byte(place: u64) -> u64 {
    place.wrapping_mul(7).wrapping_add(1) % 256
}

// The byte at a place of a range that is written.
fn new_byte(place: u64) -> u64 {
    place.wrapping_mul(11).wrapping_add(3) % 256
}

fn new_bytes() -> [u8; 40] {
    let mut bytes = [0; 40];
    let mut place = 0u64;
    for byte in bytes.iter_mut() {
        *byte = (new_byte(place) % 256) as u8;
        place = place.wrapping_add(1);
    }
    bytes
}

// Reads a range of a bus, and says whether its bytes are those that stand there.
fn reads(bus: &mut Bus, base: u64, offset: u64, count: usize) -> bool {
    for place in 0..64 {
        bus.store_within(base.wrapping_add(place), 1, old_byte(place));
    }
    let mut bytes = [0xee; 40];
    let Some(into) = bytes.get_mut(..count) else {
        return false;
    };
    let mut memory = Chunked::over(RamPort::over(bus));
    if memory.read(base.wrapping_add(offset), into) != Ok(()) {
        return false;
    }
    let mut place = offset;
    let mut left = count;
    for byte in bytes {
        let want = if left > 0 { old_byte(place) } else { 0xee };
        if u64::from(byte) != want {
            return false;
        }
        place = place.wrapping_add(1);
        left = left.saturating_sub(1);
    }
    true
}

// Writes a range of a bus, and says whether its bytes are the new ones and those around it the old ones.
fn writes(bus: &mut Bus, base: u64, offset: u64, count: usize) -> bool {
    for place in 0..64 {
        bus.store_within(base.wrapping_add(place), 1, old_byte(place));
    }
    let bytes = new_bytes();
    let Some(from) = bytes.get(..count) else {
        return false;
    };
    {
        let mut memory = Chunked::over(RamPort::over(bus));
        if memory.write(base.wrapping_add(offset), from) != Ok(()) {
            return false;
        }
    }
    let end = offset.wrapping_add(count as u64);
    for place in 0..64 {
        let inside = place >= offset && place < end;
        let want = if inside {
            new_byte(place.wrapping_sub(offset))
        } else {
            old_byte(place)
        };
        if bus.load_within(base.wrapping_add(place), 1) != Some(want) {
            return false;
        }
    }
    true
}

#[test]
fn ranges_over_a_bus(rt: HostRuntime) -> Result<(), Fail> {
    let mut bus = Bus::new(rt.alloc())?;
    for base in [USER_START, USER_END - 64, KERNEL_START, KERNEL_END - 64] {
        for offset in 0..8 {
            for count in 0..41 {
                assert!(rt;
                    reads(&mut bus, base, offset, count),
                    "read {base:x} {offset} {count}"
                );
                assert!(rt;
                    writes(&mut bus, base, offset, count),
                    "write {base:x} {offset} {count}"
                );
            }
        }
    }
    Ok(())
}

#[test]
fn doublewords_over_a_bus(rt: HostRuntime) -> Result<(), Fail> {
    let mut bus = Bus::new(rt.alloc())?;
    for at in [
        USER_START,
        USER_START + 3,
        START_WORD,
        TOHOST,
        KERNEL_END - 8,
    ] {
        let mut memory = Chunked::over(RamPort::over(&mut bus));
        assert_eq!(rt; memory.read_u64(at), Ok(0), "at {at:x}");
        assert_eq!(rt;
            memory.write_u64(at, 0x0123_4567_89ab_cdef),
            Ok(()),
            "at {at:x}"
        );
        assert_eq!(rt; memory.read_u64(at), Ok(0x0123_4567_89ab_cdef), "at {at:x}");
        assert_eq!(rt; memory.write_u64(at, 0), Ok(()), "at {at:x}");
    }
    Ok(())
}

// A wire to 40 doublewords from the first address of the user area on. It fails at the transaction before which `cut` are
// left; that one is made all the same. It tells nothing of its doublewords.
#[derive(Drop)]
struct SmallWire {
    words: [u64; 40],
    left: u64,
    cut: u64,
    faults: u64,
}

impl SmallWire {
    // Makes a transaction, whose reply may be lost.
    fn turn(&mut self) -> Result<(), WireStop>
        ensures left { Lowers self.old.left self.new.left result }
        ensures cause { FailsBy self.old.faults self.new.faults result }
    {
        let cut = self.left == self.cut;
        self.left = self.left.checked_sub(1).ok_or(WireStop::Spent)?;
        if cut {
            self.faults = self.faults.saturating_add(1);
            return Err(WireStop::Failed);
        }
        Ok(())
    }
}

fn word_at(at: u64) -> usize {
    (at.wrapping_sub(USER_START) / 8 % 40) as usize
}

impl BeatWire for SmallWire {
    ghost use Rattle.std.proofs.Common.{refl, ◌∙◌};
    ghost use Rattle.fe_base.specs.Wires.{Kept};

    ghost State = { ℕ };

    ghost View = { ℕ };

    ghost view = { λ s. s };

    ghost told = { λ _. None };

    ghost valid = { λ _. ⊥ };

    ghost usable = { λ _. Unit {0} };

    ghost kept = { λ _. record { lent = []; capacity = None } };

    ghost left = { λ w. w.left };

    ghost faults = { λ w. w.faults };

    ghost steady = { λ _. ⊥ };

    ghost positive = { λ _. ⊥ };

    ghost next = { λ s _. (s, 0) };

    ghost lost = { λ s _. (s, 0) };

    ghost ran = { λ v _ w. w ≡ v };

    ghost touched = { λ _ _ _. ⊥ };

    fn read_beat(&mut self, at: u64) -> Result<u64, WireStop> {
        self.turn()?;
        Ok(self.words[word_at(at) % 40])
    }

    fn write_beat(&mut self, at: u64, value: u64) -> Result<(), WireStop> {
        match self.turn() {
            Err(WireStop::Spent) => Err(WireStop::Spent),
            answer => {
                self.words[word_at(at) % 40] = value;
                answer
            }
        }
    }

    ghost tells_valid = { λ w u. tt };

    ghost ran_none = { λ v. refl };

    ghost ran_more = { λ a b c m n p q. q ∙ p };

    ghost turns = { λ s ask ok here. absurd ok };

    ghost turns_lost = { λ s ask ok here. absurd ok };
}

fn wire(left: u64, cut: u64) -> SmallWire {
    let mut words = [0; 40];
    let mut place = 0u64;
    for word in words.iter_mut() {
        let mut bytes = [0; 8];
        for byte in bytes.iter_mut() {
            *byte = (old_byte(place) % 256) as u8;
            place = place.wrapping_add(1);
        }
        *word = u64::from_le_bytes(bytes);
    }
    SmallWire {
        words,
        left,
        cut,
        faults: 0,
    }
}

// Whether a doubleword stands whole in a range.
fn is_whole(word: u64, offset: u64, count: u64) -> bool {
    offset <= word.wrapping_mul(8)
        && word.wrapping_mul(8).wrapping_add(8) <= offset.wrapping_add(count)
}

// Whether a doubleword has a byte of a range.
fn is_met(word: u64, offset: u64, count: u64) -> bool {
    count > 0
        && offset < word.wrapping_mul(8).wrapping_add(8)
        && word.wrapping_mul(8) < offset.wrapping_add(count)
}

// How many doublewords have a byte of a range.
fn words_met(offset: u64, count: u64) -> u64 {
    let mut words = 0u64;
    for word in 0..40 {
        if is_met(word, offset, count) {
            words = words.wrapping_add(1);
        }
    }
    words
}

// How many transactions the writes of the doublewords below one make: one each, and before it a read where it isn't whole.
fn beats_below(end: u64, offset: u64, count: u64) -> u64 {
    let mut beats = 0u64;
    for word in 0..40 {
        if word < end && is_met(word, offset, count) {
            beats = beats.wrapping_add(if is_whole(word, offset, count) { 1 } else { 2 });
        }
    }
    beats
}

// The doubleword at a place, whose bytes in a range are the new ones if they were written.
fn doubleword(word: u64, offset: u64, count: u64, written: bool) -> u64 {
    let mut bytes = [0; 8];
    let mut place = word.wrapping_mul(8);
    for byte in bytes.iter_mut() {
        let inside = place >= offset && place < offset.wrapping_add(count);
        let value = if inside && written {
            new_byte(place.wrapping_sub(offset))
        } else {
            old_byte(place)
        };
        *byte = (value % 256) as u8;
        place = place.wrapping_add(1);
    }
    u64::from_le_bytes(bytes)
}

// The doublewords of the wire once so many transactions of a write were made: with the new bytes where the write was among
// them, and with the old ones elsewhere.
fn holds(wire: &SmallWire, made: u64, offset: u64, count: u64) -> bool {
    let mut place = 0u64;
    for word in wire.words {
        let written = beats_below(place.wrapping_add(1), offset, count) <= made;
        if word != doubleword(place, offset, count, written) {
            return false;
        }
        place = place.wrapping_add(1);
    }
    true
}

// The answer of a range of so many transactions, and how many of them are made.
fn outcome(beats: u64, left: u64, cut: u64) -> (Result<(), MemStop>, u64) {
    let until_cut = left.wrapping_sub(cut).wrapping_add(1);
    if cut <= left && cut > 0 && until_cut <= beats {
        (Err(MemStop::WireFault), until_cut)
    } else if left < beats {
        (Err(MemStop::Spent), left)
    } else {
        (Ok(()), beats)
    }
}

// Writes a range over a wire that is spent or fails at a transaction, and says whether the answer, the number of
// transactions and the bytes are as they should be.
fn write_stops(offset: u64, count: usize, left: u64, cut: u64) -> bool {
    let mut bytes = [0; 320];
    let mut place = 0u64;
    for byte in bytes.iter_mut() {
        *byte = (new_byte(place) % 256) as u8;
        place = place.wrapping_add(1);
    }
    let Some(from) = bytes.get(..count) else {
        return false;
    };
    let mut memory = Chunked::over(DirectPort::over(wire(left, cut)));
    let answer = memory.write(USER_START.wrapping_add(offset), from);
    let after = memory.into_port().into_wire();
    let (want, made) = outcome(beats_below(40, offset, count as u64), left, cut);
    answer == want
        && after.left == left.wrapping_sub(made)
        && holds(&after, made, offset, count as u64)
}

// Reads a range over such a wire, and says the same.
fn read_stops(offset: u64, count: usize, left: u64, cut: u64) -> bool {
    let mut bytes = [0xee; 320];
    let Some(into) = bytes.get_mut(..count) else {
        return false;
    };
    let mut memory = Chunked::over(DirectPort::over(wire(left, cut)));
    let answer = memory.read(USER_START.wrapping_add(offset), into);
    let after = memory.into_port().into_wire();
    let (want, made) = outcome(words_met(offset, count as u64), left, cut);
    answer == want
        && after.left == left.wrapping_sub(made)
        && holds(&after, 0, offset, count as u64)
        && (answer.is_err() || were_read(&bytes, offset, count as u64))
}

// Whether what was read are the old bytes of a range, and what stands behind them is as it was.
fn were_read(bytes: &[u8; 320], offset: u64, count: u64) -> bool {
    let mut place = 0u64;
    for byte in bytes {
        let inside = place < count;
        let want = if inside {
            old_byte(offset.wrapping_add(place))
        } else {
            0xee
        };
        if u64::from(*byte) != want {
            return false;
        }
        place = place.wrapping_add(1);
    }
    true
}

// A row: a range. Each of its transactions is the one that is not made, or whose reply is lost.
#[test]
fn ranges_that_stop(rt: HostRuntime) {
    let rows = [
        (0, 0),
        (5, 0),
        (0, 1),
        (7, 2),
        (0, 7),
        (0, 8),
        (3, 8),
        (0, 9),
        (6, 23),
        (2, 40),
        (0, 320),
        (1, 313),
        (4, 316),
        (7, 299),
    ];
    for (offset, count) in rows {
        for turn in 0..41 {
            for (left, cut) in [(turn, 0), (100, 100 - turn)] {
                assert!(rt;
                    write_stops(offset, count, left, cut),
                    "write {offset} {count} {left} {cut}"
                );
                assert!(rt;
                    read_stops(offset, count, left, cut),
                    "read {offset} {count} {left} {cut}"
                );
            }
        }
    }
}

// A row: an address, how many bytes, and the first doubleword that is not mapped.
#[test]
fn unmapped_ranges(rt: HostRuntime) {
    let rows = [
        (USER_END - 4, 8, Some(USER_END)),
        (USER_END - 8, 9, Some(USER_END)),
        (USER_END - 8, 8, None),
        (USER_END, 1, Some(USER_END)),
        (USER_END, 0, None),
        (USER_START - 1, 2, Some(USER_START - 8)),
        (START_WORD, 8, None),
        (START_WORD + 4, 5, Some(START_WORD + 8)),
        (START_WORD - 1, 9, Some(START_WORD - 8)),
        (KERNEL_END - 16, 40, Some(KERNEL_END)),
        (KERNEL_START - 5, 3, Some(KERNEL_START - 8)),
        (0, 1, Some(0)),
        (0, 0, None),
        (u64::MAX, 40, Some(u64::MAX - 7)),
    ];
    let mut bytes = [0xee; 40];
    for (at, count, want) in rows {
        assert_eq!(rt; first_unmapped(at, count), want, "at {at:x}");
        let Some(first) = want else {
            continue;
        };
        let Some(range) = bytes.get_mut(..count) else {
            continue;
        };
        let mut memory = Chunked::over(DirectPort::over(wire(9, 0)));
        assert_eq!(rt;
            memory.read(at, range),
            Err(MemStop::Unmapped(first)),
            "at {at:x}"
        );
        assert_eq!(rt;
            memory.write(at, range),
            Err(MemStop::Unmapped(first)),
            "at {at:x}"
        );
        assert_eq!(rt; memory.into_port().into_wire().left, 9);
    }
    assert_eq!(rt; bytes, [0xee; 40]);
}

// What has a bus beside other things.
#[derive(Drop)]
struct Machine {
    bus: Bus,
    steps: u64,
}

// Reads a range over a port, and gives the port back.
fn read_over<P: ChunkPort>(
    port: P,
    at: u64,
    into: &mut [u8],
    outcome: &mut Result<(), MemStop>,
) -> P
    requires { P.usable port }
    ensures kept { P.kept result ≡ P.kept port }
    ensures told { OnTold (P.told port) (P.told result)
        (ReadsRange P.one P.refused P.unit P.most at (length into.old) (with_bytes outcome.new into.new)) }
{
    let mut memory = Chunked::over(port);
    *outcome = memory.read(at, into);
    memory.into_port()
}

impl Machine {
    // Reads a range of its bus, which it then knows.
    fn read(&mut self, at: u64, into: &mut [u8]) -> Result<(), MemStop>
        ensures steps { self.new.steps ≡ self.old.steps }
        ensures bytes { ReadsRange (DirectOne ram_turn) (λ before chunk stop after. ⊥) 8 1024 at (length into.old)
            (with_bytes result into.new) self.old.bus self.new.bus }
    {
        let mut outcome = Ok(());
        let _port = read_over(RamPort::over(&mut self.bus), at, into, &mut outcome);
        outcome
    }
}

#[test]
fn a_bus_that_is_a_field(rt: HostRuntime) -> Result<(), Fail> {
    let bus = Bus::new(rt.alloc())?;
    let mut machine = Machine { bus, steps: 7 };
    machine.bus.store_within(USER_START, 2, 0x0102);
    let mut bytes = [9; 3];
    assert_eq!(rt; machine.read(USER_START, &mut bytes), Ok(()));
    assert_eq!(rt; bytes, [2, 1, 0]);
    assert_eq!(rt;
        machine.read(USER_END, &mut bytes),
        Err(MemStop::Unmapped(USER_END))
    );
    assert_eq!(rt; machine.steps, 7);
    Ok(())
}
