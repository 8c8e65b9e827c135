use super::Host;
use super::flags::OpenFlags;
use super::path_rules::guest_path;
use super::request::request_of;
use super::stat::stat_record;
use fe_base::{ErrNo, Words};
use folder_tree::read_path;
use std::test::Fail;

const HERE: u32 = 0xffff_ff9c;

// Whether a guest's path names this text, or breaks this rule first.
fn names(dirfd: u32, bytes: &[u8], want: Result<&str, ErrNo>) -> bool {
    match guest_path(dirfd, bytes) {
        Ok(path) => want == Ok(path.as_str()),
        Err(error) => want == Err(error),
    }
}

#[test]
fn paths_by_their_rules(rt: HostRuntime) {
    let long = [b'a'; 256];
    let rows: [(u32, &[u8], Result<&str, ErrNo>); 13] = [
        (HERE, b"f\0g", Ok("f")),
        (HERE, b"d//./f", Ok("d/f")),
        (3, b"/d/f\0", Ok("d/f")),
        (HERE, b"/\0", Ok("")),
        (HERE, b"\xff\0", Err(ErrNo::EINVAL)),
        (3, b"\xff\0", Err(ErrNo::EINVAL)),
        (HERE, b"\0f", Err(ErrNo::ENOENT)),
        (3, b"", Err(ErrNo::ENOENT)),
        (3, b"f\0", Err(ErrNo::EBADF)),
        (3, b"../f\0", Err(ErrNo::EBADF)),
        (HERE, &long, Err(ErrNo::ENAMETOOLONG)),
        (HERE, b"d/../f\0", Err(ErrNo::EACCES)),
        (HERE, b"f\0../\xff", Ok("f")),
    ];
    for (dirfd, bytes, want) in rows {
        assert!(rt; names(dirfd, bytes, want));
    }
}

#[test]
fn flags_by_their_bits(rt: HostRuntime) {
    for (bits, reads, writes) in [
        (0, true, false),
        (1, false, true),
        (2, true, true),
        (0x440, true, false),
    ] {
        let flags = OpenFlags(bits);
        assert!(rt; flags.reads() == reads);
        assert!(rt; flags.writes() == writes);
        assert!(rt; !flags.is_invalid());
    }
    assert!(rt; OpenFlags(3).is_invalid());
    assert!(rt; OpenFlags(0x40).creates());
    assert!(rt; !OpenFlags(0x80).wants_new());
    assert!(rt; OpenFlags(0xc0).wants_new());
    assert!(rt; !OpenFlags(0x200).cuts());
    assert!(rt; OpenFlags(0x201).cuts());
    assert!(rt; OpenFlags(0x400).appends());
}

#[test]
fn records_and_requests(rt: HostRuntime) {
    let record = stat_record(0x81b6, 513);
    let rows: [(usize, u8); 8] = [
        (16, 0xb6),
        (17, 0x81),
        (20, 1),
        (48, 1),
        (49, 2),
        (57, 0x10),
        (64, 2),
        (127, 0),
    ];
    for (at, byte) in rows {
        assert!(rt; record[at] == byte);
    }
    let mut bytes = [0; 64];
    bytes[0] = 64;
    bytes[15] = 0x80;
    bytes[56] = 7;
    assert!(rt; request_of(&bytes) == [64, 1 << 63, 0, 0, 0, 0, 0, 7]);
}

#[test]
fn a_host_begins(rt: HostRuntime) -> Result<(), Fail> {
    let mut args = Words::new(rt.alloc());
    args.push("p")?;
    args.push("one")?;
    match read_path(b"d") {
        Ok(root) => {
            let host = Host::new(rt.alloc(), &args, root)?;
            assert!(rt; !host.acted());
        }
        Err(_) => assert!(rt; false),
    }
    Ok(())
}
