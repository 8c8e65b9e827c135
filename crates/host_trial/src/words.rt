// The words of requests: directories, flags, places in the guest, and the results of refused calls.

/// The directory number that stands for no directory, -100.
pub const HERE: u64 = 0xffff_ffff_ffff_ff9c;

/// Where calls read and write.
pub const BUFFER: u64 = 0x2_0000;

/// The place that no byte of memory stands at.
pub const NOWHERE: u64 = 0x2000_0000;

pub const A_FILE: u64 = 0x3_0000;

pub const W_FILE: u64 = 0x3_0010;

pub const EMPTY_FILE: u64 = 0x3_0020;

pub const SUB: u64 = 0x3_0030;

pub const FULL: u64 = 0x3_0040;

pub const NEW: u64 = 0x3_0050;

pub const UNDER_FILE: u64 = 0x3_0060;

pub const NO_PARENT: u64 = 0x3_0070;

pub const ROOT: u64 = 0x3_0080;

pub const NO_NAME: u64 = 0x3_0090;

pub const NO_TEXT: u64 = 0x3_00a0;

pub const RELATIVE: u64 = 0x3_00b0;

pub const UPWARDS: u64 = 0x3_00c0;

pub const IN_SUB: u64 = 0x3_00d0;

pub const SUB_AGAIN: u64 = 0x3_00e0;

pub const TEXT: u64 = 0x3_00f0;

/// A name whose one part has 256 bytes.
pub const LONG_PART: u64 = 0x4_0000;

/// A name of 4,096 bytes, whose parts have 4.
pub const LONG_NAME: u64 = 0x5_0000;

/// A name whose last byte is the last one of the user area.
pub const LAST_NAME: u64 = 0x100_fffe;

/// What stands where.
pub static PATHS: [(u64, &[u8]); 17] = [
    (A_FILE, b"/a\0"),
    (W_FILE, b"/w\0"),
    (EMPTY_FILE, b"/empty\0"),
    (SUB, b"/sub\0"),
    (FULL, b"/full\0"),
    (NEW, b"/new\0"),
    (UNDER_FILE, b"/a/x\0"),
    (NO_PARENT, b"/no/x\0"),
    (ROOT, b"/\0"),
    (NO_NAME, b"\0a"),
    (NO_TEXT, b"/\xff\0"),
    (RELATIVE, b"a\0"),
    (UPWARDS, b"/sub/../a\0"),
    (IN_SUB, b"/sub/y\0"),
    (SUB_AGAIN, b"//./sub\0"),
    (TEXT, b"Hi there"),
    (LAST_NAME, b"/a"),
];

// Error numbers, negated.
pub const ENOENT: u64 = 0xffff_ffff_ffff_fffe;

pub const EBADF: u64 = 0xffff_ffff_ffff_fff7;

pub const ENOMEM: u64 = 0xffff_ffff_ffff_fff4;

pub const EACCES: u64 = 0xffff_ffff_ffff_fff3;

pub const EEXIST: u64 = 0xffff_ffff_ffff_ffef;

pub const ENOTDIR: u64 = 0xffff_ffff_ffff_ffec;

pub const EISDIR: u64 = 0xffff_ffff_ffff_ffeb;

pub const EINVAL: u64 = 0xffff_ffff_ffff_ffea;

pub const EMFILE: u64 = 0xffff_ffff_ffff_ffe8;

pub const EFBIG: u64 = 0xffff_ffff_ffff_ffe5;

pub const ESPIPE: u64 = 0xffff_ffff_ffff_ffe3;

pub const ENAMETOOLONG: u64 = 0xffff_ffff_ffff_ffdc;

pub const ENOSYS: u64 = 0xffff_ffff_ffff_ffda;

pub const ENOTEMPTY: u64 = 0xffff_ffff_ffff_ffd9;
