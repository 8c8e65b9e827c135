use super::*;
use fe_base::ErrNo;
use std::alloc::{AllocError, Global};
use std::test::Fail;

fn names(text: &[u8], parts: &[u8]) -> bool {
    match read_path(text) {
        Ok(path) => path.text() == parts,
        Err(_) => false,
    }
}

fn refuses(text: &[u8], error: ErrNo) -> bool {
    match read_path(text) {
        Ok(_) => false,
        Err(found) => found == error,
    }
}

fn letters(alloc: Global, count: usize, end: &[u8]) -> Result<Vec<u8>, AllocError> {
    let mut text = vec![in alloc; b'a'; count]?;
    text.extend_from_slice(end)?;
    Ok(text)
}

#[test]
fn texts_name_parts(rt: HostRuntime) -> Result<(), Fail> {
    let alloc = rt.alloc();
    assert!(rt; names(b"hi", b"hi"));
    assert!(rt; names(b"", b""));
    assert!(rt; names(b"/./", b""));
    assert!(rt; names(b"/a//b/./c/", b"a/b/c"));
    assert!(rt; names(b"a/.../.b", b"a/.../.b"));
    assert!(rt; names(&letters(alloc, 255, b"/.")?, &letters(alloc, 255, b"")?));
    Ok(())
}

#[test]
fn texts_are_refused_in_order(rt: HostRuntime) -> Result<(), Fail> {
    let alloc = rt.alloc();
    assert!(rt; refuses(b"../\xff", ErrNo::EINVAL));
    assert!(rt; refuses(b"a\0", ErrNo::EINVAL));
    assert!(rt; refuses(&letters(alloc, 256, b"\0")?, ErrNo::EINVAL));
    assert!(rt; refuses(&letters(alloc, 256, b"/..")?, ErrNo::ENAMETOOLONG));
    assert!(rt; refuses(b"a/..", ErrNo::EACCES));
    Ok(())
}

#[test]
fn a_text_has_4095_bytes(rt: HostRuntime) -> Result<(), Fail> {
    let mut long = Vec::new(rt.alloc());
    for _ in 0..2047 {
        long.extend_from_slice(b"a/")?;
    }
    long.push(b'b')?;
    assert!(rt; names(&long, &long));
    long.push(b'/')?;
    assert!(rt; refuses(&long, ErrNo::ENAMETOOLONG));
    Ok(())
}

#[test]
fn paths_stand_below_others(rt: HostRuntime) -> Result<(), Fail> {
    let root = read_path(b"a/b")?;
    let path = read_path(b"/c/d")?;
    assert!(rt; path.below(&root).as_str() == "a/b/c/d");
    assert!(rt; path.below(&Path::root()).as_str() == "c/d");
    assert!(rt; Path::root().below(&root).text() == b"a/b".as_slice());
    Ok(())
}
