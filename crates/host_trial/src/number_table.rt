// The calls on an open number alone: close 57, lseek 62, ftruncate 46 and fstat 80, once for each way out of their
// rows.

use crate::rows::{Leaves, Row};
use crate::words::{BUFFER, EBADF, EFBIG, EINVAL, ESPIPE};

/// By what stands at the number.
pub static NUMBER_ROWS: [Row; 39] = [
    Row([57, 9, 0, 0, 0, 0], EBADF, Leaves::All),
    Row([57, 64, 0, 0, 0, 0], EBADF, Leaves::All),
    Row([57, 0xffff_ffff, 0, 0, 0, 0], EBADF, Leaves::All),
    Row([57, u64::MAX, 0, 0, 0, 0], EBADF, Leaves::All),
    Row([57, 3, 0, 0, 0, 0], 0, Leaves::All),
    Row([57, 0x1_0000_0003, 0, 0, 0, 0], 0, Leaves::All),
    Row([57, 0, 0, 0, 0, 0], 0, Leaves::All),
    Row([57, 1, 0, 0, 0, 0], 0, Leaves::All),
    Row([62, 9, 0, 3, 0, 0], EBADF, Leaves::All),
    Row([62, 0, 0, 0, 0, 0], ESPIPE, Leaves::All),
    Row([62, 1, 0, 3, 0, 0], ESPIPE, Leaves::All),
    Row([62, 3, 0, 3, 0, 0], EINVAL, Leaves::All),
    Row([62, 3, u64::MAX, 0, 0, 0], EINVAL, Leaves::All),
    Row([62, 4, u64::MAX - 10, 2, 0, 0], EINVAL, Leaves::All),
    Row([62, 4, u64::MAX - 9, 2, 0, 0], 0, Leaves::All),
    Row([62, 4, (1 << 63) - 1, 0, 0, 0], (1 << 63) - 1, Leaves::All),
    Row([62, 4, 1 << 63, 0, 0, 0], EINVAL, Leaves::All),
    Row([62, 4, (1 << 63) - 1, 2, 0, 0], EINVAL, Leaves::All),
    Row([62, 4, (1 << 63) - 1, 1, 0, 0], (1 << 63) - 1, Leaves::All),
    Row([62, 4, u64::MAX, 1, 0, 0], EINVAL, Leaves::All),
    Row([62, 4, 2, 2, 0, 0], 12, Leaves::All),
    Row([62, 4, 2, 0x1_0000_0002, 0, 0], 12, Leaves::All),
    Row([46, 9, 0, 0, 0, 0], EBADF, Leaves::All),
    Row([46, 0, 0, 0, 0, 0], EINVAL, Leaves::All),
    Row([46, 1, 0, 0, 0, 0], EINVAL, Leaves::All),
    Row([46, 3, 0, 0, 0, 0], EINVAL, Leaves::All),
    Row([46, 5, 1 << 63, 0, 0, 0], EINVAL, Leaves::All),
    Row([46, 5, u64::MAX, 0, 0, 0], EINVAL, Leaves::All),
    Row([46, 5, 268_435_457, 0, 0, 0], EFBIG, Leaves::All),
    Row([46, 5, 3, 0, 0, 0], 0, Leaves::File(b"d/w", b"012")),
    Row(
        [46, 5, 12, 0, 0, 0],
        0,
        Leaves::File(b"d/w", b"0123456789\0\0"),
    ),
    Row([46, 4, 0, 0, 0, 0], 0, Leaves::File(b"d/w", b"")),
    Row([46, 5, 10, 0, 0, 0], 0, Leaves::All),
    Row([80, 9, BUFFER, 0, 0, 0], EBADF, Leaves::All),
    Row(
        [80, 0, BUFFER, 0, 0, 0],
        0,
        Leaves::Guest(BUFFER + 16, b"\xb6\x21\0\0\x01\0\0\0"),
    ),
    Row(
        [80, 1, BUFFER, 0, 0, 0],
        0,
        Leaves::Guest(BUFFER + 48, b"\0\0\0\0\0\0\0\0"),
    ),
    Row(
        [80, 3, BUFFER, 0, 0, 0],
        0,
        Leaves::Guest(BUFFER + 16, b"\xb6\x81\0\0\x01\0\0\0"),
    ),
    Row(
        [80, 4, BUFFER, 0, 0, 0],
        0,
        Leaves::Guest(BUFFER + 48, b"\x0a\0\0\0\0\0\0\0\0\x10\0\0\0\0\0\0\x01\0"),
    ),
    Row(
        [80, 4, BUFFER, 0, 0, 0],
        0,
        Leaves::Guest(BUFFER + 120, b"\0\0\0\0\0\0\0\0."),
    ),
];
