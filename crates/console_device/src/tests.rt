use super::*;
use fe_base::{ByteSink, ByteSource};
use std::test::Fail;

#[test]
fn bytes_come_one_by_one(rt: HostRuntime) -> Result<(), Fail> {
    let mut input = ByteSource::new(rt.alloc(), b"a\0\xff", &[1])?;
    for want in [
        Ok(Some(b'a')),
        Err(Failed),
        Ok(Some(0)),
        Ok(Some(0xff)),
        Ok(None),
        Ok(None),
    ] {
        assert_eq!(rt; read_byte(&mut input), want);
    }
    Ok(())
}

// The takes 1 and 5 fail, so that one take more than one a byte, or more than one at the end, is seen.
#[test]
fn each_byte_is_one_take(rt: HostRuntime) -> Result<(), Fail> {
    let mut input = ByteSource::new(rt.alloc(), b"abc", &[1, 5])?;
    for want in [
        Ok(Some(b'a')),
        Err(Failed),
        Ok(Some(b'b')),
        Ok(Some(b'c')),
        Ok(None),
        Err(Failed),
        Ok(None),
    ] {
        assert_eq!(rt; read_byte(&mut input), want);
    }
    Ok(())
}

#[test]
fn bytes_go_one_by_one(rt: HostRuntime) -> Result<(), Fail> {
    let mut console = ByteSink::new(rt.alloc(), 3, &[1])?;
    for (byte, want) in [
        (b'a', Ok(())),
        (b'b', Err(Failed)),
        (0, Ok(())),
        (0xff, Ok(())),
        (b'c', Err(Failed)),
    ] {
        assert_eq!(rt; write_byte(byte, &mut console), want);
    }
    assert_eq!(rt; console.as_slice(), b"a\0\xff".as_slice());
    Ok(())
}
