use super::*;
use chunk_memory::MemStop;
use fe_base::memory_map::{KERNEL_END, KERNEL_START, USER_END, USER_START};
use fe_base::{ByteSink, NoTrace, Pauses};
use std::alloc::Global;
use std::marker::Model;
use std::test::Fail;

// A target that stands in another struct.
#[derive(Drop)]
struct Session {
    target: Target,
}

#[test]
fn a_range_over_a_field(rt: HostRuntime) -> Result<(), Fail> {
    let pauses = Pauses::list(&[1]).ok_or("pauses")?;
    let mut session = Session {
        target: Target::direct(rt.alloc(), pauses, 4)?,
    };
    let mut trace = ByteSink::new(rt.alloc(), 256, &[])?;
    let written = write_range(&mut session.target, &mut trace, 0x1_0001, b"abc");
    assert_eq!(rt; written, Ok(()));
    let mut bytes = [0; 4];
    let read = read_range(&mut session.target, &mut trace, 0x1_0000, &mut bytes);
    assert_eq!(rt; read, Ok(()));
    assert!(rt; bytes == *b"\0abc");
    assert_eq!(rt; session.target.turns(), 3);
    let lines =
        "b 1 r 0000000000010000 0000000000000000\nb 1 w 0000000000010000 0000000063626100\nb 1 r 0000000000010000 0000000063626100\n";
    assert_eq!(rt; trace.as_slice(), lines.as_bytes());
    let mut outside = [0; 8];
    let unmapped = read_range(&mut session.target, &mut trace, 0x100_fffc, &mut outside);
    assert_eq!(rt; unmapped, Err(MemStop::Unmapped(0x101_0000)));
    assert_eq!(rt; session.target.turns(), 3);
    Ok(())
}

// The byte that stands at a place at first.
fn old_byte(place: u64) -> u8 {
    (place.wrapping_mul(7).wrapping_add(1) % 256) as u8
}

// The byte at a place of a range that is written.
fn new_byte(place: u64) -> u8 {
    (place.wrapping_mul(11).wrapping_add(3) % 256) as u8
}

fn old_bytes() -> [u8; 64] {
    let mut bytes = [0; 64];
    let mut place = 0u64;
    for byte in bytes.iter_mut() {
        *byte = old_byte(place);
        place = place.wrapping_add(1);
    }
    bytes
}

fn new_bytes() -> [u8; 40] {
    let mut bytes = [0; 40];
    let mut place = 0u64;
    for byte in bytes.iter_mut() {
        *byte = new_byte(place);
        place = place.wrapping_add(1);
    }
    bytes
}

// A target that may be used at all times.
#[derive(Drop)]
struct Subject {
    target: Target,
}

impl Model for Subject {
    ghost use Rattle.target_box.specs.Turn.{IsUsable, TargetState};
    ghost use Rattle.target_box.specs.declared.target.Link.TheVariants as link_of;

    ghost Value = { TargetState };

    ghost view = { λ s. s.target };

    ghost invariant = { λ s. IsUsable link_of.Direct s.target };
}

impl Subject {
    fn new(alloc: Global) -> Result<Subject, Fail> {
        let pauses = Pauses::list(&[1]).ok_or("pauses")?;
        let target = Target::direct(alloc, pauses, 1_000_000)?;
        Ok(Subject { target })
    }

    // Puts the old bytes at 64 places from a base on.
    fn fill(&mut self, base: u64) -> bool {
        write_range(&mut self.target, &mut NoTrace, base, &old_bytes()) == Ok(())
    }

    // Reads a range of old bytes, and says whether it has them, and what stands behind it is as it was.
    fn reads(&mut self, base: u64, offset: u64, count: usize) -> bool {
        let mut bytes = [0xee; 40];
        let Some(into) = bytes.get_mut(..count) else {
            return false;
        };
        let at = base.wrapping_add(offset);
        if read_range(&mut self.target, &mut NoTrace, at, into) != Ok(()) {
            return false;
        }
        let mut place = 0u64;
        for byte in bytes {
            let inside = place < count as u64;
            let want = if inside {
                old_byte(offset.wrapping_add(place))
            } else {
                0xee
            };
            if byte != want {
                return false;
            }
            place = place.wrapping_add(1);
        }
        true
    }

    // Writes a range, and says whether its bytes are the new ones and those around it the old ones.
    fn writes(&mut self, base: u64, offset: u64, count: usize) -> bool {
        let bytes = new_bytes();
        let Some(from) = bytes.get(..count) else {
            return false;
        };
        let at = base.wrapping_add(offset);
        if write_range(&mut self.target, &mut NoTrace, at, from) != Ok(()) {
            return false;
        }
        let end = offset.wrapping_add(count as u64);
        for place in 0..64 {
            let inside = place >= offset && place < end;
            let want = if inside {
                new_byte(place.wrapping_sub(offset))
            } else {
                old_byte(place)
            };
            let bus = self.target.bus();
            if bus.load_within(base.wrapping_add(place), 1) != Some(u64::from(want)) {
                return false;
            }
        }
        true
    }
}

#[test]
fn ranges_of_a_target(rt: HostRuntime) -> Result<(), Fail> {
    let mut subject = Subject::new(rt.alloc())?;
    for base in [USER_START, USER_END - 64, KERNEL_START, KERNEL_END - 64] {
        for offset in 0..8 {
            for count in 0..41 {
                assert!(rt; subject.fill(base), "fill {base:x}");
                assert!(rt;
                    subject.reads(base, offset, count),
                    "read {base:x} {offset} {count}"
                );
                assert!(rt;
                    subject.writes(base, offset, count),
                    "write {base:x} {offset} {count}"
                );
            }
        }
    }
    Ok(())
}
