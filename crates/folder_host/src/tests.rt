use crate::HostFolder;
use crate::host_folder::{read_within, write_from};
use folder_tree::{Folder, FolderStop, Path, PathKind, read_path};
use std::io::{Read, Seek, SeekFrom, Write};
use std::os::unix::fs::symlink;
use std::test::Fail;
use std::{fs, io};

// All eleven calls, in the directory in which the tests are run.
#[test]
fn the_working_directory_is_a_folder(rt: HostRuntime) -> Result<(), Fail> {
    let mut folder = HostFolder::here(rt);
    let directory = read_path(b"host_folder")?;
    let file = read_path(b"host_folder/file")?;
    assert_eq!(rt; folder.make_dir(&directory), Ok(()));
    let kinds = [
        ("", PathKind::Directory),
        ("host_folder", PathKind::Directory),
        ("host_folder/file", PathKind::Free),
        ("missing/file", PathKind::NoParent),
    ];
    for (text, kind) in kinds {
        let path = read_path(text.as_bytes())?;
        assert_eq!(rt; folder.kind(&path), Ok(kind), "{text}");
    }
    let number = folder.create(&file)?;
    assert_eq!(rt; folder.create(&file), Err(FolderStop::Failed));
    let other = folder.open_file(&file)?;
    let mut into = [0; 4];
    assert_eq!(rt; folder.write_at(number, 2, b"cdef"), Ok(()));
    assert_eq!(rt; folder.size(other), Ok(6));
    assert_eq!(rt; folder.read_at(other, 4, &mut into), Ok(2));
    assert_eq!(rt; into, *b"ef\0\0");
    assert_eq!(rt; folder.set_size(number, 3), Ok(()));
    assert_eq!(rt; folder.read_at(other, 0, &mut into), Ok(3));
    assert_eq!(rt; into, *b"\0\0c\0");
    assert_eq!(rt; folder.remove_dir(&directory), Ok(false));
    assert_eq!(rt; folder.remove(&file), Ok(()));
    assert_eq!(rt; folder.open_file(&file), Err(FolderStop::Failed));
    assert_eq!(rt; folder.size(other), Ok(3));
    assert_eq!(rt; folder.release(other), Ok(()));
    assert_eq!(rt; folder.size(other), Err(FolderStop::Failed));
    assert_eq!(rt; folder.remove_dir(&directory), Ok(true));
    Ok(())
}

// What doesn't suit a path or a number is refused, and changes nothing.
#[test]
fn what_does_not_suit_is_refused(rt: HostRuntime) -> Result<(), Fail> {
    let mut folder = HostFolder::here(rt);
    let directory = read_path(b"host_other")?;
    let file = read_path(b"host_other/file")?;
    let below = read_path(b"host_other/file/x")?;
    assert_eq!(rt; folder.make_dir(&directory), Ok(()));
    let number = folder.create(&file)?;
    assert_eq!(rt; folder.kind(&file), Ok(PathKind::File));
    assert_eq!(rt; folder.kind(&below), Ok(PathKind::UnderFile));
    assert_eq!(rt; folder.create(&below), Err(FolderStop::Failed));
    assert_eq!(rt; folder.make_dir(&file), Err(FolderStop::Failed));
    assert_eq!(rt; folder.remove_dir(&file), Err(FolderStop::Failed));
    assert_eq!(rt; folder.open_file(&directory), Err(FolderStop::Failed));
    assert_eq!(rt; folder.remove(&directory), Err(FolderStop::Failed));
    assert_eq!(rt; folder.remove_dir(&Path::root()), Err(FolderStop::Failed));
    assert_eq!(rt; folder.write_at(number, 0, b""), Err(FolderStop::Failed));
    assert_eq!(rt;
        folder.write_at(number, 1 << 63, b"x"),
        Err(FolderStop::Failed)
    );
    assert_eq!(rt; folder.size(number), Ok(0));
    assert_eq!(rt; folder.release(number), Ok(()));
    assert_eq!(rt; folder.release(number), Err(FolderStop::Failed));
    assert_eq!(rt; folder.remove(&file), Ok(()));
    assert_eq!(rt; folder.remove_dir(&directory), Ok(true));
    Ok(())
}

// A link leads to what stands where it points to; its own name is what is removed.
#[test]
fn a_link_is_followed(rt: HostRuntime) -> Result<(), Fail> {
    symlink(&rt, "host_target", "host_link")?;
    let mut folder = HostFolder::here(rt);
    let link = read_path(b"host_link")?;
    let target = read_path(b"host_target")?;
    assert_eq!(rt; folder.kind(&link), Ok(PathKind::Free));
    assert_eq!(rt; folder.create(&link), Err(FolderStop::Failed));
    let number = folder.create(&target)?;
    assert_eq!(rt; folder.kind(&link), Ok(PathKind::File));
    let other = folder.open_file(&link)?;
    assert_eq!(rt; folder.write_at(other, 0, b"ab"), Ok(()));
    assert_eq!(rt; folder.size(number), Ok(2));
    assert_eq!(rt; folder.remove(&link), Ok(()));
    assert_eq!(rt; folder.kind(&target), Ok(PathKind::File));
    assert_eq!(rt; folder.remove(&target), Ok(()));
    Ok(())
}

// What is neither a file nor a directory is a fault, and isn't opened.
#[test]
fn a_device_is_a_fault(rt: HostRuntime) -> Result<(), Fail> {
    symlink(&rt, "/dev/null", "host_device")?;
    let mut folder = HostFolder::here(rt);
    let device = read_path(b"host_device")?;
    assert_eq!(rt; folder.kind(&device), Err(FolderStop::Failed));
    assert_eq!(rt; folder.open_file(&device), Err(FolderStop::Failed));
    assert_eq!(rt; folder.remove(&device), Err(FolderStop::Failed));
    assert_eq!(rt;
        folder.kind(&read_path(b"host_device/x")?),
        Ok(PathKind::UnderFile)
    );
    fs::remove_file(&rt, "host_device")?;
    Ok(())
}

// Each open is a file of its own, which keeps its bytes.
#[test]
fn opens_do_not_meet(rt: HostRuntime) -> Result<(), Fail> {
    let mut folder = HostFolder::here(rt);
    let one = read_path(b"host_one")?;
    let two = read_path(b"host_two")?;
    let first = folder.create(&one)?;
    let second = folder.create(&two)?;
    assert_eq!(rt; folder.write_at(first, 0, b"abc"), Ok(()));
    assert_eq!(rt; folder.write_at(second, 0, b"xy"), Ok(()));
    let again = folder.open_file(&one)?;
    let mut into = [b'.'; 4];
    assert_eq!(rt; folder.size(again), Ok(3));
    assert_eq!(rt; folder.write_at(again, 0, b"z"), Ok(()));
    assert_eq!(rt; folder.read_at(first, 0, &mut into), Ok(3));
    assert_eq!(rt; into, *b"zbc.");
    assert_eq!(rt; folder.set_size(second, 3), Ok(()));
    assert_eq!(rt; folder.read_at(second, 0, &mut into), Ok(3));
    assert_eq!(rt; into, *b"xy\0.");
    assert_eq!(rt; folder.release(first), Ok(()));
    assert_eq!(rt; folder.size(again), Ok(3));
    assert_eq!(rt; folder.release(again), Ok(()));
    assert_eq!(rt; folder.release(second), Ok(()));
    assert_eq!(rt; folder.remove(&one), Ok(()));
    assert_eq!(rt; folder.remove(&two), Ok(()));
    Ok(())
}

// Behind a file's end there are no bytes, however far.
#[test]
fn behind_the_end_is_nothing(rt: HostRuntime) -> Result<(), Fail> {
    let mut folder = HostFolder::here(rt);
    let path = read_path(b"host_end")?;
    let number = folder.create(&path)?;
    let mut into = [b'.'; 4];
    assert_eq!(rt; folder.write_at(number, 0, b"abc"), Ok(()));
    for at in [3, 4, 17592186044416, 9223372036854775807, u64::MAX] {
        assert_eq!(rt; folder.read_at(number, at, &mut into), Ok(0), "{at}");
        assert_eq!(rt; into, *b"....", "{at}");
    }
    assert_eq!(rt; folder.read_at(number, 2, &mut into), Ok(1));
    assert_eq!(rt; into, *b"c...");
    assert_eq!(rt; folder.set_size(number, 5), Ok(()));
    assert_eq!(rt; folder.size(number), Ok(5));
    assert_eq!(rt; folder.read_at(number, 2, &mut into), Ok(3));
    assert_eq!(rt; into, *b"c\0\0.");
    assert_eq!(rt; folder.release(number), Ok(()));
    assert_eq!(rt; folder.remove(&path), Ok(()));
    Ok(())
}

// A running program's own file, which many systems let nobody write meanwhile, is opened and read.
#[test]
fn what_may_only_be_read_is_opened(rt: HostRuntime) -> Result<(), Fail> {
    symlink(&rt, "/proc/self/exe", "host_running")?;
    let mut folder = HostFolder::here(rt);
    let path = read_path(b"host_running")?;
    let number = folder.open_file(&path)?;
    let mut into = [0; 4];
    assert_eq!(rt; folder.read_at(number, 0, &mut into), Ok(4));
    assert_eq!(rt; into, *b"\x7fELF");
    assert_eq!(rt; folder.release(number), Ok(()));
    assert_eq!(rt; folder.remove(&path), Ok(()));
    Ok(())
}

// A file that moves up to two bytes at a time.
#[derive(Drop)]
struct CutFile {
    bytes: [u8; 8],
    at: usize,
}

impl CutFile {
    fn places(&mut self) -> &mut [u8] {
        &mut self.bytes[self.at.min(8)..]
    }
}

impl Read for CutFile {
    fn read(&mut self, buf: &mut [u8]) -> io::Result<usize> {
        let places = self.places();
        let count = places.len().min(buf.len()).min(2);
        buf[..count].copy_from_slice(&places[..count]);
        self.at = self.at.saturating_add(count);
        Ok(count)
    }
}

impl Write for CutFile {
    fn write(&mut self, buf: &[u8]) -> io::Result<usize> {
        let places = self.places();
        let count = places.len().min(buf.len()).min(2);
        places[..count].copy_from_slice(&buf[..count]);
        self.at = self.at.saturating_add(count);
        Ok(count)
    }

    fn flush(&mut self) -> io::Result<()> {
        Ok(())
    }
}

impl Seek for CutFile {
    fn seek(&mut self, to: SeekFrom) -> io::Result<u64> {
        let SeekFrom::Start(at) = to else {
            return Err(io::Error::from(io::ErrorKind::Unsupported));
        };
        self.at = at as usize;
        Ok(at)
    }
}

// A read and a write go on until all bytes are moved.
#[test]
fn all_bytes_are_moved(rt: HostRuntime) -> Result<(), Fail> {
    let mut file = CutFile {
        bytes: [b'.'; 8],
        at: 8,
    };
    write_from(&mut file, 1, b"abcde")?;
    assert_eq!(rt; file.bytes, *b".abcde..");
    let mut into = [0; 5];
    assert_eq!(rt; read_within(&mut file, 8, 2, &mut into)?, 5);
    assert_eq!(rt; into, *b"bcde.");
    assert_eq!(rt; read_within(&mut file, 8, 5, &mut into)?, 3);
    assert_eq!(rt; into, *b"e..e.");
    assert_eq!(rt; read_within(&mut file, 8, 8, &mut into)?, 0);
    Ok(())
}
