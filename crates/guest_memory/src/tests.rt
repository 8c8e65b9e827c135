ghost use Rattle.std.specs.Prelude.{◌≡◌, IsTrue, length};
ghost use Rattle.guest_memory.specs.Bus as spec;

use crate::{Bus, Ram, is_ram};
use std::test::Fail;

#[test]
fn loads_what_was_stored(rt: HostRuntime) -> Result<(), Fail> {
    let mut ram = Ram::new(rt.alloc(), 16)?;
    assert_eq!(rt; ram.load(8, 8), 0);
    ram.store(3, 8, 0x1122334455667788);
    assert_eq!(rt; ram.load(3, 8), 0x1122334455667788);
    assert_eq!(rt; ram.load(2, 2), 0x8800);
    assert!(rt; ram.bytes(3, 2) == [0x88, 0x77].as_slice());
    Ok(())
}

// What is written through the lent bytes is what the bus then holds.
fn put(bus: &mut Bus, at: u64, bytes: &[u8])
    requires { IsTrue (spec.is_ram at (length bytes.now)) }
    ensures { bus.new ≡ spec.with_bus_bytes bus.old at bytes.now }
{
    bus.bytes_mut(at, bytes.len() as u64).copy_from_slice(bytes);
}

// The edges of both areas and of the start word. A row: an address, how many bytes, whether they are RAM.
#[test]
fn knows_the_edges(rt: HostRuntime) -> Result<(), Fail> {
    let rows = [
        (0xffff, 1, false),
        (0x1_0000, 1, true),
        (0x100_ffff, 1, true),
        (0x101_0000, 1, false),
        (0x200_0000, 1, false),
        (0x200_0007, 1, false),
        (0x7fff_ffff, 1, false),
        (0x8000_0000, 1, true),
        (0x8000_ffff, 1, true),
        (0x8001_0000, 1, false),
        (0xffff_ffff_ffff_ffff, 1, false),
        (0xffff, 2, false),
        (0x1_0000, 2, true),
        (0x100_fffe, 2, true),
        (0x100_ffff, 2, false),
        (0x200_0000, 2, false),
        (0x7fff_ffff, 2, false),
        (0x8000_0000, 2, true),
        (0x8000_fffe, 2, true),
        (0x8000_ffff, 2, false),
        (0xffff_ffff_ffff_ffff, 2, false),
        (0xfffd, 4, false),
        (0x1_0000, 4, true),
        (0x100_fffc, 4, true),
        (0x100_fffd, 4, false),
        (0x200_0000, 4, false),
        (0x200_0004, 4, false),
        (0x7fff_fffd, 4, false),
        (0x8000_0000, 4, true),
        (0x8000_fffc, 4, true),
        (0x8000_fffd, 4, false),
        (0xffff_ffff_ffff_fffd, 4, false),
        (0xfff9, 8, false),
        (0x1_0000, 8, true),
        (0x100_fff8, 8, true),
        (0x100_fff9, 8, false),
        (0x200_0000, 8, false),
        (0x7fff_fff9, 8, false),
        (0x8000_0000, 8, true),
        (0x8000_fff8, 8, true),
        (0x8000_fff9, 8, false),
        (0xffff_ffff_ffff_fff9, 8, false),
        (0x1_0000, 0x100_0000, true),
        (0x1_0000, 0x100_0001, false),
        (0x8000_0000, 0x1_0000, true),
        (0x8000_0000, 0x1_0001, false),
        (0x1_0000, 0x7fff_0008, false),
        (0x1_0001, 0xffff_ffff_ffff_ffff, false),
    ];
    for (at, n, is) in rows {
        assert_eq!(rt; is_ram(at, n), is, "{n} bytes at {at}");
    }
    Ok(())
}

// A row: an address, and whether a doubleword of the bus stands there.
#[test]
fn moves_doublewords(rt: HostRuntime) -> Result<(), Fail> {
    let rows = [
        (0, false),
        (0xfff8, false),
        (0x1_0000, true),
        (0x1_0004, false),
        (0x100_fff8, true),
        (0x101_0000, false),
        (0x1ff_fff8, false),
        (0x200_0000, true),
        (0x200_0001, false),
        (0x200_0004, false),
        (0x200_0008, false),
        (0x7fff_fff8, false),
        (0x8000_0000, true),
        (0x8000_fff8, true),
        (0x8000_fffc, false),
        (0x8001_0000, false),
        (0xffff_ffff_ffff_fff8, false),
    ];
    let mut bus = Bus::new(rt.alloc())?;
    for (at, mapped) in rows {
        assert_eq!(rt; bus.read_beat(at).is_some(), mapped, "read at {at}");
        assert_eq!(rt; bus.write_beat(at, at | 1), mapped, "write at {at}");
    }
    for (at, mapped) in rows {
        if mapped {
            assert_eq!(rt; bus.read_beat(at), Some(at | 1), "read back at {at}");
        }
    }
    assert_eq!(rt; bus.load(0x1_0000, 4), 0x1_0001);
    bus.store(0x8000_fffe, 2, 0x1234);
    assert_eq!(rt; bus.read_beat(0x8000_fff8), Some(0x1234_0000_8000_fff9));
    assert!(rt; bus.bytes(0x8000_fffe, 2) == [0x34, 0x12].as_slice());
    put(&mut bus, 0x2_0000, &[1, 2, 3]);
    assert_eq!(rt; bus.load(0x1_fffe, 4), 0x0201_0000);
    Ok(())
}
