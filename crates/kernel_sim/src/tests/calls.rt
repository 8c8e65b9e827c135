// What the kernel makes of each call: worked out by hand from the call table.

use Call::{Answers, Posts};

/// A call by its number in a7 and its arguments in a0 to a5, and what comes of it.
#[derive(Clone, Copy)]
pub enum Call {
    /// It is posted: its number, these arguments, and zeros.
    Posts(u64, [u64; 6], [u64; 5]),
    /// The kernel answers it itself.
    Answers(u64, [u64; 6], u64),
}

impl Call {
    /// What a7 holds.
    pub fn number(&self) -> u64 {
        match *self {
            Call::Posts(number, _, _) => number,
            Call::Answers(number, _, _) => number,
        }
    }

    /// What a0 to a5 hold.
    pub fn arguments(&self) -> [u64; 6] {
        match *self {
            Call::Posts(_, arguments, _) => arguments,
            Call::Answers(_, arguments, _) => arguments,
        }
    }

    /// It names a path.
    pub fn is_scanned(&self) -> bool {
        matches!(self.number(), 34 | 35 | 48 | 56)
    }
}

// -38, ENOSYS.
const NO_CALL: u64 = 0xffff_ffff_ffff_ffda;

// -14, EFAULT.
const BAD_ADDRESS: u64 = 0xffff_ffff_ffff_fff2;

// -36, ENAMETOOLONG.
const LONG_PATH: u64 = 0xffff_ffff_ffff_ffdc;

// The directory number -100.
const HERE: u64 = 0xffff_ffff_ffff_ff9c;

/// A program by LLVM's assembler: it gives the registers values of their own, x8 the place of the first row, and then
/// makes the call of each row, which is a0 to a5 and a7.
pub static PROGRAM: [u32; 33] = [
    0x0410_0093,
    0x0c30_0193,
    0x1040_0213,
    0x1450_0293,
    0x1860_0313,
    0x1c70_0393,
    0x2490_0493,
    0x4100_0813,
    0x4920_0913,
    0x4d30_0993,
    0x5140_0a13,
    0x5550_0a93,
    0x5960_0b13,
    0x5d70_0b93,
    0x6180_0c13,
    0x6590_0c93,
    0x69a0_0d13,
    0x6db0_0d93,
    0x71c0_0e13,
    0x75d0_0e93,
    0x79e0_0f13,
    0x7df0_0f93,
    0x0005_0437,
    0x0004_3503,
    0x0084_3583,
    0x0104_3603,
    0x0184_3683,
    0x0204_3703,
    0x0284_3783,
    0x0304_3883,
    0x0000_0073,
    0x0384_0413,
    0xfddf_f06f,
];

/// The instruction behind its call.
pub const BEHIND: u64 = 0x1_007c;

/// Paths in the user area: an address, how many letters, and whether a NUL stands behind them.
pub static PATHS: [(u64, u64, bool); 5] = [
    (0x2_0000, 3, true),
    (0x2_1000, 0, true),
    (0x3_0000, 4095, true),
    (0x4_0000, 4096, false),
    (0x100_fff6, 10, false),
];

/// The calls, in the order in which they are made.
pub static CALLS: [Call; 61] = [
    // read and write: the count is lowered, then the range is tested
    Posts(63, [3, 0x2_0000, 10, 7, 7, 7], [3, 0x2_0000, 10, 0, 0]),
    Posts(63, [0, 0x1_0000, 0, 7, 7, 7], [0, 0x1_0000, 0, 0, 0]),
    Posts(
        63,
        [3, 0x1_0000, 0x10_0001, 7, 7, 7],
        [3, 0x1_0000, 0x10_0000, 0, 0],
    ),
    Posts(
        63,
        [3, 0x1_0000, 0xffff_ffff_ffff_ffff, 7, 7, 7],
        [3, 0x1_0000, 0x10_0000, 0, 0],
    ),
    Posts(63, [3, 0x101_0000, 0, 7, 7, 7], [3, 0x101_0000, 0, 0, 0]),
    Answers(63, [3, 0x101_0000, 1, 7, 7, 7], BAD_ADDRESS),
    Answers(63, [3, 0x101_0001, 0, 7, 7, 7], BAD_ADDRESS),
    Posts(63, [3, 0x100_ffff, 1, 7, 7, 7], [3, 0x100_ffff, 1, 0, 0]),
    Answers(63, [3, 0x100_ffff, 2, 7, 7, 7], BAD_ADDRESS),
    Answers(63, [3, 0xffff, 1, 7, 7, 7], BAD_ADDRESS),
    Answers(63, [3, 0xffff, 0, 7, 7, 7], BAD_ADDRESS),
    Answers(63, [3, 0xffff_ffff_ffff_ffff, 1, 7, 7, 7], BAD_ADDRESS),
    Answers(
        63,
        [3, 0xf1_0001, 0xffff_ffff_ffff_ffff, 7, 7, 7],
        BAD_ADDRESS,
    ),
    Posts(
        63,
        [3, 0xf1_0000, 0xffff_ffff_ffff_ffff, 7, 7, 7],
        [3, 0xf1_0000, 0x10_0000, 0, 0],
    ),
    Posts(
        64,
        [0xffff_ffff_ffff_ffff, 0x1_0024, 3, 7, 7, 7],
        [0xffff_ffff_ffff_ffff, 0x1_0024, 3, 0, 0],
    ),
    Posts(
        64,
        [1, 0x1_0000, 0x10_0000, 7, 7, 7],
        [1, 0x1_0000, 0x10_0000, 0, 0],
    ),
    Answers(64, [1, 0x8000_0000, 1, 7, 7, 7], BAD_ADDRESS),
    Answers(64, [1, 0, 0, 7, 7, 7], BAD_ADDRESS),
    // pread64, pwrite64 and fstat
    Posts(67, [3, 0x2_0000, 10, 5, 7, 7], [3, 0x2_0000, 10, 5, 0]),
    Posts(
        67,
        [3, 0x2_0000, 0x100_0000_0000, 0xffff_ffff_ffff_ffff, 7, 7],
        [3, 0x2_0000, 0x10_0000, 0xffff_ffff_ffff_ffff, 0],
    ),
    Answers(67, [3, 0x100_ffff, 2, 0, 7, 7], BAD_ADDRESS),
    Posts(
        68,
        [4, 0x2_0001, 1, 0x8000_0000_0000_0000, 7, 7],
        [4, 0x2_0001, 1, 0x8000_0000_0000_0000, 0],
    ),
    Answers(68, [4, 0xfff8, 8, 0, 7, 7], BAD_ADDRESS),
    Posts(80, [1, 0x100_ff80, 7, 7, 7, 7], [1, 0x100_ff80, 0, 0, 0]),
    Answers(80, [1, 0x100_ff81, 7, 7, 7, 7], BAD_ADDRESS),
    Posts(80, [9, 0x1_0000, 7, 7, 7, 7], [9, 0x1_0000, 0, 0, 0]),
    Answers(80, [1, 0x8000_8100, 7, 7, 7, 7], BAD_ADDRESS),
    // calls with numbers alone
    Posts(57, [5, 7, 7, 7, 7, 7], [5, 0, 0, 0, 0]),
    Posts(
        57,
        [0xffff_ffff_ffff_ffff, 7, 7, 7, 7, 7],
        [0xffff_ffff_ffff_ffff, 0, 0, 0, 0],
    ),
    Posts(
        62,
        [3, 0xffff_ffff_ffff_ffff, 2, 7, 7, 7],
        [3, 0xffff_ffff_ffff_ffff, 2, 0, 0],
    ),
    Posts(
        46,
        [3, 0x4000_0000_0000_0000, 7, 7, 7, 7],
        [3, 0x4000_0000_0000_0000, 0, 0, 0],
    ),
    Posts(93, [300, 7, 7, 7, 7, 7], [300, 0, 0, 0, 0]),
    Posts(94, [0, 7, 7, 7, 7, 7], [0, 0, 0, 0, 0]),
    // paths: the length, NUL included, stands behind the address
    Posts(
        56,
        [HERE, 0x2_0000, 66, 420, 7, 7],
        [HERE, 0x2_0000, 4, 66, 420],
    ),
    Posts(56, [3, 0x2_1000, 0, 0, 7, 7], [3, 0x2_1000, 1, 0, 0]),
    Posts(
        34,
        [HERE, 0x2_0001, 493, 7, 7, 7],
        [HERE, 0x2_0001, 3, 493, 0],
    ),
    Posts(
        35,
        [HERE, 0x2_0000, 512, 7, 7, 7],
        [HERE, 0x2_0000, 4, 512, 0],
    ),
    Posts(48, [HERE, 0x2_0002, 0, 0, 7, 7], [HERE, 0x2_0002, 2, 0, 0]),
    Posts(
        48,
        [HERE, 0x3_0000, 4, 7, 7, 7],
        [HERE, 0x3_0000, 4096, 4, 0],
    ),
    Answers(56, [HERE, 0x4_0000, 0, 0, 7, 7], LONG_PATH),
    Answers(34, [HERE, 0x100_fff6, 0, 7, 7, 7], BAD_ADDRESS),
    Answers(35, [HERE, 0x101_0000, 0, 7, 7, 7], BAD_ADDRESS),
    Answers(48, [HERE, 0xffff, 0, 7, 7, 7], BAD_ADDRESS),
    Answers(56, [HERE, 0xffff_ffff_ffff_ffff, 0, 0, 7, 7], BAD_ADDRESS),
    Answers(56, [HERE, 0x8000_8080, 0, 0, 7, 7], BAD_ADDRESS),
    // the break, which begins at 0x12000
    Answers(214, [0, 7, 7, 7, 7, 7], 0x1_2000),
    Answers(214, [0x1_3000, 7, 7, 7, 7, 7], 0x1_3000),
    Answers(214, [0x1_1fff, 7, 7, 7, 7, 7], 0x1_3000),
    Answers(214, [0xf0_0000, 7, 7, 7, 7, 7], 0xf0_0000),
    Answers(214, [0xf0_0001, 7, 7, 7, 7, 7], 0xf0_0000),
    Answers(214, [0xffff_ffff_ffff_ffff, 7, 7, 7, 7, 7], 0xf0_0000),
    Answers(214, [0x1_2000, 7, 7, 7, 7, 7], 0x1_2000),
    Answers(214, [1, 7, 7, 7, 7, 7], 0x1_2000),
    // what is no call
    Answers(0, [1, 0x2_0000, 1, 7, 7, 7], NO_CALL),
    Answers(2011, [1, 0x2_0000, 1, 7, 7, 7], NO_CALL),
    Answers(2012, [1, 0x2_0000, 1, 7, 7, 7], NO_CALL),
    Answers(17, [1, 0x2_0000, 1, 7, 7, 7], NO_CALL),
    Answers(1024, [1, 0x2_0000, 1, 7, 7, 7], NO_CALL),
    Answers(0x1_0000_0040, [1, 0x2_0000, 1, 7, 7, 7], NO_CALL),
    Answers(0x8000_0000_0000_00d6, [1, 0x2_0000, 1, 7, 7, 7], NO_CALL),
    Answers(0xffff_ffff_ffff_ffff, [1, 0x2_0000, 1, 7, 7, 7], NO_CALL),
];
