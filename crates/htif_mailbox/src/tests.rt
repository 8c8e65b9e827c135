use super::*;
use chunk_memory::{Chunked, MemStop, RamPort};
use fe_base::memory_map::{FROMHOST, REQUEST, TOHOST};
use fe_base::{ByteSink, ByteSource, Words};
use folder_memory::MemoryFolder;
use folder_tree::Path;
use guest_memory::Bus;
use std::test::Fail;
use syscall_proxy::Host;

// The guest, and what its mailbox works on.
#[derive(Drop)]
struct Guest {
    bus: Bus,
    mailbox: Mailbox,
    folder: MemoryFolder,
    input: ByteSource,
    console: ByteSink,
}

fn make_guest(rt: HostRuntime, input: &[u8]) -> Result<Guest, Fail> {
    let mut args = Words::new(rt.alloc());
    args.push("p")?;
    let host = Host::new(rt.alloc(), &args, Path::root())?;
    Ok(Guest {
        bus: Bus::new(rt.alloc())?,
        mailbox: Mailbox::new(host, TOHOST, FROMHOST),
        folder: MemoryFolder::new(rt.alloc(), &[])?,
        input: ByteSource::new(rt.alloc(), input, &[])?,
        console: ByteSink::new(rt.alloc(), 64, &[])?,
    })
}

impl Guest {
    fn turn(&mut self) -> Result<Turned, MailFault> {
        let mut memory = Chunked::over(RamPort::over(&mut self.bus));
        self.mailbox.turn(
            &mut memory,
            &mut self.folder,
            &mut self.input,
            &mut self.console,
        )
    }

    // What a turn comes to with this word in tohost.
    fn turn_on(&mut self, word: u64) -> Result<Turned, MailFault> {
        self.bus.write_beat(TOHOST, word);
        self.turn()
    }
}

#[test]
fn words_by_device_and_command(rt: HostRuntime) -> Result<(), Fail> {
    let mut guest = make_guest(rt, b"")?;
    let rows = [
        (0x0101_0000_0000_0041, Ok(Turned::Served)),
        (
            0x0200_0000_0000_0000,
            Err(MailFault::BadCommand(0x0200_0000_0000_0000)),
        ),
        (
            0x00ff_0000_0000_0000,
            Err(MailFault::BadCommand(0x00ff_0000_0000_0000)),
        ),
        (
            0x0102_0000_0000_0000,
            Err(MailFault::BadCommand(0x0102_0000_0000_0000)),
        ),
        (0x0100_0000_0000_0000, Ok(Turned::Served)),
        (4, Err(MailFault::Port(MemStop::Unmapped(0)))),
        (
            0x8001_0000,
            Err(MailFault::Port(MemStop::Unmapped(0x8001_0000))),
        ),
        (
            0x0200_0000,
            Err(MailFault::Port(MemStop::Unmapped(0x0200_0008))),
        ),
        (7, Ok(Turned::Exited(3))),
        (0xffff_ffff_ffff, Ok(Turned::Exited(255))),
        (0, Ok(Turned::Idle)),
    ];
    for (word, want) in rows {
        assert!(rt; guest.turn_on(word) == want);
        assert!(rt; guest.bus.read_beat(TOHOST) == Some(0));
    }
    assert!(rt; guest.console.as_slice() == b"A".as_slice());
    assert!(rt; guest.bus.read_beat(FROMHOST) == Some(0));
    Ok(())
}

#[test]
fn a_call_is_answered(rt: HostRuntime) -> Result<(), Fail> {
    let mut guest = make_guest(rt, b"")?;
    guest.bus.write_beat(0x2_0000, 0x6948);
    for (place, word) in [(0, 64), (8, 1), (16, 0x2_0000), (24, 2)] {
        guest.bus.write_beat(REQUEST.wrapping_add(place), word);
    }
    assert!(rt; guest.turn_on(REQUEST) == Ok(Turned::Served));
    assert!(rt; guest.mailbox.acted());
    assert!(rt; guest.console.as_slice() == b"Hi".as_slice());
    assert!(rt; guest.bus.read_beat(REQUEST) == Some(2));
    assert!(rt; guest.bus.read_beat(FROMHOST) == Some(1));
    Ok(())
}

#[test]
fn sixteen_answers_wait(rt: HostRuntime) -> Result<(), Fail> {
    let mut guest = make_guest(rt, b"abcdefghijklmnopqrst")?;
    guest.bus.write_beat(FROMHOST, 1);
    for _ in 0..16 {
        assert!(rt; guest.turn_on(0x0100_0000_0000_0000) == Ok(Turned::Served));
    }
    assert!(rt; guest.turn_on(0x0100_0000_0000_0000) == Ok(Turned::Idle));
    assert!(rt; guest.bus.read_beat(TOHOST) == Some(0x0100_0000_0000_0000));
    assert!(rt; guest.input.rest() == b"qrst".as_slice());
    guest.bus.write_beat(FROMHOST, 0);
    assert!(rt; guest.turn() == Ok(Turned::Answered));
    assert!(rt; guest.bus.read_beat(FROMHOST) == Some(0x0100_0000_0000_0161));
    Ok(())
}
