// A host over a guest's memory and over objects in memory, as a program finds them.

use crate::words::{A_FILE, BUFFER, LONG_NAME, LONG_PART, PATHS, W_FILE};
use chunk_memory::{Chunked, RamPort};
use fe_base::{ByteSink, ByteSource, Words};
use folder_memory::MemoryFolder;
use folder_tree::{Path, read_path};
use guest_memory::Bus;
use std::alloc::{AllocError, Global};
use syscall_proxy::{CallAnswer, CallFault, Host};

// The bytes of the buffer that are looked at.
const WINDOW: u64 = 160;

// What is not written is this.
const BLANK: u64 = 0x2e;

// The files that are looked at.
static FILES: [&[u8]; 9] = [
    b"d/a",
    b"d/w",
    b"d/empty",
    b"d/full/x",
    b"d/new",
    b"d/sub",
    b"d/sub/y",
    b"d/full",
    b"e",
];

/// Which calls of the objects fail, counted from 0.
#[derive(Clone, Copy)]
pub struct Failing<'a> {
    pub folder: &'a [u64],
    pub input: &'a [u64],
    pub console: &'a [u64],
}

/// Nothing fails.
pub const NONE_FAILS: Failing<'static> = Failing {
    folder: &[],
    input: &[],
    console: &[],
};

/// What a host works on, and the host.
#[derive(Drop)]
pub struct Trial {
    alloc: Global,
    bus: Bus,
    host: Host,
    folder: MemoryFolder,
    input: ByteSource,
    console: ByteSink,
}

fn add_file(folder: &mut MemoryFolder, text: &[u8], bytes: &[u8]) -> Result<(), AllocError> {
    let Ok(path) = read_path(text) else {
        return Ok(());
    };
    if folder.can_put(&path) {
        folder.put_file(&path, bytes)?;
    }
    Ok(())
}

fn add_directory(folder: &mut MemoryFolder, text: &[u8]) -> Result<(), AllocError> {
    let Ok(path) = read_path(text) else {
        return Ok(());
    };
    if folder.can_put(&path) {
        folder.put_dir(&path)?;
    }
    Ok(())
}

fn make_folder(alloc: Global, failing: &[u64]) -> Result<MemoryFolder, AllocError> {
    let mut folder = MemoryFolder::new(alloc, failing)?;
    add_directory(&mut folder, b"d")?;
    add_directory(&mut folder, b"d/sub")?;
    add_directory(&mut folder, b"d/full")?;
    add_file(&mut folder, b"d/full/x", b"x")?;
    add_file(&mut folder, b"d/a", b"hello")?;
    add_file(&mut folder, b"d/w", b"0123456789")?;
    add_file(&mut folder, b"d/empty", b"")?;
    add_file(&mut folder, b"e", b"outside")?;
    Ok(folder)
}

fn make_host(alloc: Global) -> Result<Host, AllocError> {
    let mut args = Words::new(alloc);
    args.push("p")?;
    args.push("one")?;
    match read_path(b"d") {
        Ok(root) => Host::new(alloc, &args, root),
        Err(_) => Host::new(alloc, &args, Path::root()),
    }
}

fn put_byte(bus: &mut Bus, at: u64, byte: u8) {
    bus.store_within(at, 1, u64::from(byte));
}

fn put_text(bus: &mut Bus, first: u64, text: &[u8]) {
    let mut at = first;
    for byte in text {
        put_byte(bus, at, *byte);
        at = at.wrapping_add(1);
    }
}

// The paths that calls name.
fn put_paths(bus: &mut Bus) {
    for (at, text) in all_paths() {
        put_text(bus, *at, text);
    }
    put_byte(bus, LONG_PART, b'/');
    for i in 1..257 {
        put_byte(bus, LONG_PART.wrapping_add(i), b'a');
    }
    for i in 0..4096 {
        let byte = if i % 5 == 0 { b'/' } else { b'b' };
        put_byte(bus, LONG_NAME.wrapping_add(i), byte);
    }
}

fn all_paths() -> &'static [(u64, &'static [u8])] {
    &PATHS
}

fn all_files() -> &'static [&'static [u8]] {
    &FILES
}

// One byte more in a digest (FNV-1a, 64 bits).
fn mixed(digest: u64, byte: u8) -> u64 {
    (digest ^ u64::from(byte)).wrapping_mul(0x100_0000_01b3)
}

fn mixed_all(before: u64, bytes: &[u8]) -> u64 {
    let mut digest = before;
    for byte in bytes {
        digest = mixed(digest, *byte);
    }
    mixed(digest, 0xff)
}

impl Trial {
    /// A host whose program has made no call yet.
    pub fn new(alloc: Global) -> Result<Trial, AllocError> {
        let mut bus = Bus::new(alloc)?;
        put_paths(&mut bus);
        Ok(Trial {
            alloc,
            bus,
            host: make_host(alloc)?,
            folder: make_folder(alloc, &[])?,
            input: ByteSource::new(alloc, b"", &[])?,
            console: ByteSink::new(alloc, 0, &[])?,
        })
    }

    /// Begins anew, over objects of which these calls fail. The console has room for so many bytes.
    pub fn begin(&mut self, failing: Failing<'_>, room: usize) -> Result<(), AllocError> {
        self.host = make_host(self.alloc)?;
        self.folder = make_folder(self.alloc, failing.folder)?;
        self.input = ByteSource::new(self.alloc, b"input", failing.input)?;
        self.console = ByteSink::new(self.alloc, room, failing.console)?;
        for i in 0..WINDOW {
            self.bus.store_within(BUFFER.wrapping_add(i), 1, BLANK);
        }
        Ok(())
    }

    /// Opens what the rows of the tables find: 3 is `a`, to be read; 4 is `w`, to be written; 5 is `w`, for both; 6 is
    /// `w`, to be appended to.
    pub fn open_files(&mut self) -> bool {
        let here = crate::words::HERE;
        let opens = [
            (3, A_FILE, 0),
            (4, W_FILE, 1),
            (5, W_FILE, 2),
            (6, W_FILE, 0x401),
        ];
        for (fd, path, flags) in opens {
            if self.call([56, here, path, 4, flags, 0]) != Ok(CallAnswer::Result(fd)) {
                return false;
            }
        }
        true
    }

    /// Makes a call, by its number and its first arguments.
    pub fn call(&mut self, words: [u64; 6]) -> Result<CallAnswer, CallFault> {
        let [number, a, b, c, d, e] = words;
        let mut memory = Chunked::over(RamPort::over(&mut self.bus));
        self.host.call(
            &mut memory,
            &mut self.folder,
            &mut self.input,
            &mut self.console,
            [number, a, b, c, d, e, 0, 0],
        )
    }

    /// The last call acted.
    pub fn acted(&self) -> bool {
        self.host.acted()
    }

    /// These bytes stand in the guest.
    pub fn has_guest(&self, first: u64, bytes: &[u8]) -> bool {
        let mut at = first;
        for byte in bytes {
            if self.bus.load_within(at, 1) != Some(u64::from(*byte)) {
                return false;
            }
            at = at.wrapping_add(1);
        }
        true
    }

    /// The console has these bytes.
    pub fn has_console(&self, bytes: &[u8]) -> bool {
        self.console.as_slice() == bytes
    }

    /// A file holds these bytes.
    pub fn has_file(&self, text: &[u8], bytes: &[u8]) -> bool {
        let Ok(path) = read_path(text) else {
            return false;
        };
        match self.folder.file(&path) {
            Some(held) => held == bytes,
            None => false,
        }
    }

    /// Nothing stands at a path, and something could.
    pub fn is_free(&self, text: &[u8]) -> bool {
        let Ok(path) = read_path(text) else {
            return false;
        };
        self.folder.can_put(&path)
    }

    /// A directory stands at a path.
    pub fn is_directory(&self, text: &[u8]) -> bool {
        let Ok(path) = read_path(text) else {
            return false;
        };
        !self.folder.can_put(&path) && self.folder.file(&path).is_none()
    }

    fn mixed_file(&self, before: u64, text: &[u8]) -> u64 {
        let Ok(path) = read_path(text) else {
            return before;
        };
        let digest = mixed(before, u8::from(self.folder.can_put(&path)));
        match self.folder.file(&path) {
            Some(held) => mixed_all(mixed(digest, 1), held),
            None => mixed(digest, 0),
        }
    }

    /// A digest of the files, of the console, of the input that is left and of the buffer.
    pub fn digest(&self) -> u64 {
        let mut digest = 0xcbf2_9ce4_8422_2325;
        for text in all_files() {
            digest = self.mixed_file(digest, text);
        }
        digest = mixed_all(digest, self.console.as_slice());
        digest = mixed_all(digest, self.input.rest());
        for i in 0..WINDOW {
            let byte = self.bus.load_within(BUFFER.wrapping_add(i), 1);
            digest = mixed(digest, (byte.unwrap_or(0) % 256) as u8);
        }
        digest
    }
}
