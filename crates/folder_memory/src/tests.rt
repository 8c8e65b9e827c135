use super::*;
use folder_tree::{Folder, FolderStop, Path, PathKind, read_path};
use std::alloc::Global;
use std::process::Abort;
use std::test::Fail;

// A folder with the file `f` of `abc` and the directory `d`, whose call of this number fails.
fn some_folder(rt: &impl Abort, alloc: Global, failing: u64) -> Result<MemoryFolder, Fail> {
    let mut folder = MemoryFolder::new(alloc, &[failing])?;
    let file = read_path(b"f")?;
    assert!(rt; folder.can_put(&file));
    folder.put_file(&file, b"abc")?;
    let directory = read_path(b"d")?;
    assert!(rt; folder.can_put(&directory));
    folder.put_dir(&directory)?;
    Ok(folder)
}

#[test]
fn paths_have_kinds(rt: HostRuntime) -> Result<(), Fail> {
    let mut folder = some_folder(&rt, rt.alloc(), 99)?;
    let rows: [(&[u8], PathKind); 8] = [
        (b"", PathKind::Directory),
        (b"f", PathKind::File),
        (b"d", PathKind::Directory),
        (b"g", PathKind::Free),
        (b"d/g", PathKind::Free),
        (b"g/h", PathKind::NoParent),
        (b"f/g/h", PathKind::UnderFile),
        (b"d/g/h/i", PathKind::NoParent),
    ];
    for (text, want) in rows {
        assert_eq!(rt; folder.kind(&read_path(text)?), Ok(want));
    }
    Ok(())
}

#[test]
fn a_file_is_written_and_cut(rt: HostRuntime) -> Result<(), Fail> {
    let mut folder = some_folder(&rt, rt.alloc(), 99)?;
    let new = read_path(b"d/new")?;
    let mut buffer = *b"......";
    assert_eq!(rt; folder.create(&new), Ok(1));
    assert_eq!(rt; folder.write_at(1, 2, b"xyz"), Ok(()));
    assert_eq!(rt; folder.read_at(1, 1, &mut buffer), Ok(4));
    assert_eq!(rt; buffer, *b"\0xyz..");
    assert_eq!(rt; folder.set_size(1, 3), Ok(()));
    assert_eq!(rt; folder.size(1), Ok(3));
    assert!(rt;
        folder
            .file(&new)
            .is_some_and(|bytes| bytes == b"\0\0x".as_slice())
    );
    Ok(())
}

#[test]
fn a_removed_file_stays_while_it_is_open(rt: HostRuntime) -> Result<(), Fail> {
    let mut folder = some_folder(&rt, rt.alloc(), 99)?;
    let file = read_path(b"f")?;
    assert_eq!(rt; folder.open_file(&file), Ok(0));
    assert_eq!(rt; folder.remove(&file), Ok(()));
    assert!(rt; folder.file(&file).is_none());
    assert_eq!(rt; folder.kind(&file), Ok(PathKind::Free));
    assert_eq!(rt; folder.size(0), Ok(3));
    assert_eq!(rt; folder.release(0), Ok(()));
    assert_eq!(rt; folder.size(0), Err(FolderStop::Failed));
    Ok(())
}

#[test]
fn a_file_is_written_behind_its_end(rt: HostRuntime) -> Result<(), Fail> {
    let mut folder = some_folder(&rt, rt.alloc(), 999)?;
    let file = read_path(b"f")?;
    for _ in 0..61 {
        assert_eq!(rt; folder.open_file(&file), Ok(0));
    }
    assert_eq!(rt; folder.write_at(0, 6, b"z"), Ok(()));
    for _ in 0..61 {
        assert_eq!(rt; folder.release(0), Ok(()));
    }
    assert_eq!(rt; folder.release(0), Err(FolderStop::Failed));
    assert!(rt;
        folder
            .file(&file)
            .is_some_and(|bytes| bytes == b"abc\0\0\0z".as_slice())
    );
    Ok(())
}

#[test]
fn a_directory_goes_once_it_is_empty(rt: HostRuntime) -> Result<(), Fail> {
    let mut folder = some_folder(&rt, rt.alloc(), 99)?;
    let directory = read_path(b"d")?;
    let inner = read_path(b"d/e")?;
    assert_eq!(rt; folder.make_dir(&inner), Ok(()));
    assert_eq!(rt; folder.remove_dir(&directory), Ok(false));
    assert_eq!(rt; folder.remove_dir(&inner), Ok(true));
    assert_eq!(rt; folder.remove_dir(&directory), Ok(true));
    assert_eq!(rt; folder.remove_dir(&Path::root()), Err(FolderStop::Failed));
    Ok(())
}

#[test]
fn a_listed_call_fails(rt: HostRuntime) -> Result<(), Fail> {
    let mut folder = some_folder(&rt, rt.alloc(), 1)?;
    let file = read_path(b"f")?;
    let new = read_path(b"g")?;
    assert_eq!(rt; folder.create(&file), Err(FolderStop::Failed));
    assert_eq!(rt; folder.create(&new), Err(FolderStop::Failed));
    assert_eq!(rt; folder.create(&new), Ok(1));
    assert_eq!(rt; folder.write_at(1, 0, b""), Err(FolderStop::Failed));
    assert_eq!(rt; folder.write_at(1, u64::MAX, b"x"), Err(FolderStop::Failed));
    assert_eq!(rt;
        folder.open_file(&read_path(b"d")?),
        Err(FolderStop::Failed)
    );
    Ok(())
}
