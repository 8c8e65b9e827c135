// What the kernel makes of each call: worked out by hand from the call table.

/// What comes of a call.
#[derive(Clone, Copy)]
pub enum Outcome {
    /// The request that is posted behind its number; the rest of it is zeros.
    Posts([u64; 5]),
    /// The answer of the kernel itself.
    Answers(u64),
}

/// A call by its number in a7 and its arguments in a0 to a5.
#[derive(Clone, Copy)]
pub struct Call {
    pub number: u64,
    pub arguments: [u64; 6],
    pub outcome: Outcome,
}

impl Call {
    /// It names a path.
    pub fn has_path(&self) -> bool {
        matches!(self.number, 34 | 35 | 48 | 56)
    }

    /// It ends the program.
    pub fn is_exit(&self) -> bool {
        matches!(self.number, 93 | 94)
    }

    /// How many bytes the path of the call has, its NUL included, where the call has one and is posted.
    pub fn path_bytes(&self) -> Option<u64> {
        match self.outcome {
            Outcome::Posts(arguments) if self.has_path() => Some(arguments[2]),
            _ => None,
        }
    }
}

// -38, ENOSYS.
const NO_CALL: Outcome = Outcome::Answers(0xffff_ffff_ffff_ffda);

// -14, EFAULT.
const BAD_ADDRESS: Outcome = Outcome::Answers(0xffff_ffff_ffff_fff2);

// -36, ENAMETOOLONG.
const LONG_PATH: Outcome = Outcome::Answers(0xffff_ffff_ffff_ffdc);

// The directory number -100.
const HERE: u64 = 0xffff_ffff_ffff_ff9c;

/// Paths in the user area: an address, how many letters, and whether a NUL stands behind them.
pub static PATHS: [(u64, u64, bool); 5] = [
    (0x2_0000, 3, true),
    (0x2_1000, 0, true),
    (0x3_0000, 4095, true),
    (0x4_0000, 4096, false),
    (0x100_fff6, 10, false),
];

/// The calls, in the order in which they are made.
pub static CALLS: [Call; 61] = [
    // read and write: the count is lowered, then the range is tested
    Call {
        number: 63,
        arguments: [3, 0x2_0000, 10, 7, 7, 7],
        outcome: Outcome::Posts([3, 0x2_0000, 10, 0, 0]),
    },
    Call {
        number: 63,
        arguments: [0, 0x1_0000, 0, 7, 7, 7],
        outcome: Outcome::Posts([0, 0x1_0000, 0, 0, 0]),
    },
    Call {
        number: 63,
        arguments: [3, 0x1_0000, 0x10_0001, 7, 7, 7],
        outcome: Outcome::Posts([3, 0x1_0000, 0x10_0000, 0, 0]),
    },
    Call {
        number: 63,
        arguments: [3, 0x1_0000, 0xffff_ffff_ffff_ffff, 7, 7, 7],
        outcome: Outcome::Posts([3, 0x1_0000, 0x10_0000, 0, 0]),
    },
    Call {
        number: 63,
        arguments: [3, 0x101_0000, 0, 7, 7, 7],
        outcome: Outcome::Posts([3, 0x101_0000, 0, 0, 0]),
    },
    Call {
        number: 63,
        arguments: [3, 0x101_0000, 1, 7, 7, 7],
        outcome: BAD_ADDRESS,
    },
    Call {
        number: 63,
        arguments: [3, 0x101_0001, 0, 7, 7, 7],
        outcome: BAD_ADDRESS,
    },
    Call {
        number: 63,
        arguments: [3, 0x100_ffff, 1, 7, 7, 7],
        outcome: Outcome::Posts([3, 0x100_ffff, 1, 0, 0]),
    },
    Call {
        number: 63,
        arguments: [3, 0x100_ffff, 2, 7, 7, 7],
        outcome: BAD_ADDRESS,
    },
    Call {
        number: 63,
        arguments: [3, 0xffff, 1, 7, 7, 7],
        outcome: BAD_ADDRESS,
    },
    Call {
        number: 63,
        arguments: [3, 0xffff, 0, 7, 7, 7],
        outcome: BAD_ADDRESS,
    },
    Call {
        number: 63,
        arguments: [3, 0xffff_ffff_ffff_ffff, 1, 7, 7, 7],
        outcome: BAD_ADDRESS,
    },
    Call {
        number: 63,
        arguments: [3, 0xf1_0001, 0xffff_ffff_ffff_ffff, 7, 7, 7],
        outcome: BAD_ADDRESS,
    },
    Call {
        number: 63,
        arguments: [3, 0xf1_0000, 0xffff_ffff_ffff_ffff, 7, 7, 7],
        outcome: Outcome::Posts([3, 0xf1_0000, 0x10_0000, 0, 0]),
    },
    Call {
        number: 64,
        arguments: [0xffff_ffff_ffff_ffff, 0x1_0024, 3, 7, 7, 7],
        outcome: Outcome::Posts([0xffff_ffff_ffff_ffff, 0x1_0024, 3, 0, 0]),
    },
    Call {
        number: 64,
        arguments: [1, 0x1_0000, 0x10_0000, 7, 7, 7],
        outcome: Outcome::Posts([1, 0x1_0000, 0x10_0000, 0, 0]),
    },
    Call {
        number: 64,
        arguments: [1, 0x8000_0000, 1, 7, 7, 7],
        outcome: BAD_ADDRESS,
    },
    Call {
        number: 64,
        arguments: [1, 0, 0, 7, 7, 7],
        outcome: BAD_ADDRESS,
    },
    // pread64, pwrite64 and fstat
    Call {
        number: 67,
        arguments: [3, 0x2_0000, 10, 5, 7, 7],
        outcome: Outcome::Posts([3, 0x2_0000, 10, 5, 0]),
    },
    Call {
        number: 67,
        arguments: [3, 0x2_0000, 0x100_0000_0000, 0xffff_ffff_ffff_ffff, 7, 7],
        outcome: Outcome::Posts([3, 0x2_0000, 0x10_0000, 0xffff_ffff_ffff_ffff, 0]),
    },
    Call {
        number: 67,
        arguments: [3, 0x100_ffff, 2, 0, 7, 7],
        outcome: BAD_ADDRESS,
    },
    Call {
        number: 68,
        arguments: [4, 0x2_0001, 1, 0x8000_0000_0000_0000, 7, 7],
        outcome: Outcome::Posts([4, 0x2_0001, 1, 0x8000_0000_0000_0000, 0]),
    },
    Call {
        number: 68,
        arguments: [4, 0xfff8, 8, 0, 7, 7],
        outcome: BAD_ADDRESS,
    },
    Call {
        number: 80,
        arguments: [1, 0x100_ff80, 7, 7, 7, 7],
        outcome: Outcome::Posts([1, 0x100_ff80, 0, 0, 0]),
    },
    Call {
        number: 80,
        arguments: [1, 0x100_ff81, 7, 7, 7, 7],
        outcome: BAD_ADDRESS,
    },
    Call {
        number: 80,
        arguments: [9, 0x1_0000, 7, 7, 7, 7],
        outcome: Outcome::Posts([9, 0x1_0000, 0, 0, 0]),
    },
    Call {
        number: 80,
        arguments: [1, 0x8000_8100, 7, 7, 7, 7],
        outcome: BAD_ADDRESS,
    },
    // calls with numbers alone
    Call {
        number: 57,
        arguments: [5, 7, 7, 7, 7, 7],
        outcome: Outcome::Posts([5, 0, 0, 0, 0]),
    },
    Call {
        number: 57,
        arguments: [0xffff_ffff_ffff_ffff, 7, 7, 7, 7, 7],
        outcome: Outcome::Posts([0xffff_ffff_ffff_ffff, 0, 0, 0, 0]),
    },
    Call {
        number: 62,
        arguments: [3, 0xffff_ffff_ffff_ffff, 2, 7, 7, 7],
        outcome: Outcome::Posts([3, 0xffff_ffff_ffff_ffff, 2, 0, 0]),
    },
    Call {
        number: 46,
        arguments: [3, 0x4000_0000_0000_0000, 7, 7, 7, 7],
        outcome: Outcome::Posts([3, 0x4000_0000_0000_0000, 0, 0, 0]),
    },
    Call {
        number: 93,
        arguments: [300, 7, 7, 7, 7, 7],
        outcome: Outcome::Posts([300, 0, 0, 0, 0]),
    },
    Call {
        number: 94,
        arguments: [0, 7, 7, 7, 7, 7],
        outcome: Outcome::Posts([0, 0, 0, 0, 0]),
    },
    // paths: the length, NUL included, stands behind the address
    Call {
        number: 56,
        arguments: [HERE, 0x2_0000, 66, 420, 7, 7],
        outcome: Outcome::Posts([HERE, 0x2_0000, 4, 66, 420]),
    },
    Call {
        number: 56,
        arguments: [3, 0x2_1000, 0, 0, 7, 7],
        outcome: Outcome::Posts([3, 0x2_1000, 1, 0, 0]),
    },
    Call {
        number: 34,
        arguments: [HERE, 0x2_0001, 493, 7, 7, 7],
        outcome: Outcome::Posts([HERE, 0x2_0001, 3, 493, 0]),
    },
    Call {
        number: 35,
        arguments: [HERE, 0x2_0000, 512, 7, 7, 7],
        outcome: Outcome::Posts([HERE, 0x2_0000, 4, 512, 0]),
    },
    Call {
        number: 48,
        arguments: [HERE, 0x2_0002, 0, 0, 7, 7],
        outcome: Outcome::Posts([HERE, 0x2_0002, 2, 0, 0]),
    },
    Call {
        number: 48,
        arguments: [HERE, 0x3_0000, 4, 7, 7, 7],
        outcome: Outcome::Posts([HERE, 0x3_0000, 4096, 4, 0]),
    },
    Call {
        number: 56,
        arguments: [HERE, 0x4_0000, 0, 0, 7, 7],
        outcome: LONG_PATH,
    },
    Call {
        number: 34,
        arguments: [HERE, 0x100_fff6, 0, 7, 7, 7],
        outcome: BAD_ADDRESS,
    },
    Call {
        number: 35,
        arguments: [HERE, 0x101_0000, 0, 7, 7, 7],
        outcome: BAD_ADDRESS,
    },
    Call {
        number: 48,
        arguments: [HERE, 0xffff, 0, 7, 7, 7],
        outcome: BAD_ADDRESS,
    },
    Call {
        number: 56,
        arguments: [HERE, 0xffff_ffff_ffff_ffff, 0, 0, 7, 7],
        outcome: BAD_ADDRESS,
    },
    Call {
        number: 56,
        arguments: [HERE, 0x8000_8080, 0, 0, 7, 7],
        outcome: BAD_ADDRESS,
    },
    // the break, which begins at 0x12000
    Call {
        number: 214,
        arguments: [0, 7, 7, 7, 7, 7],
        outcome: Outcome::Answers(0x1_2000),
    },
    Call {
        number: 214,
        arguments: [0x1_3000, 7, 7, 7, 7, 7],
        outcome: Outcome::Answers(0x1_3000),
    },
    Call {
        number: 214,
        arguments: [0x1_1fff, 7, 7, 7, 7, 7],
        outcome: Outcome::Answers(0x1_3000),
    },
    Call {
        number: 214,
        arguments: [0xf0_0000, 7, 7, 7, 7, 7],
        outcome: Outcome::Answers(0xf0_0000),
    },
    Call {
        number: 214,
        arguments: [0xf0_0001, 7, 7, 7, 7, 7],
        outcome: Outcome::Answers(0xf0_0000),
    },
    Call {
        number: 214,
        arguments: [0xffff_ffff_ffff_ffff, 7, 7, 7, 7, 7],
        outcome: Outcome::Answers(0xf0_0000),
    },
    Call {
        number: 214,
        arguments: [0x1_2000, 7, 7, 7, 7, 7],
        outcome: Outcome::Answers(0x1_2000),
    },
    Call {
        number: 214,
        arguments: [1, 7, 7, 7, 7, 7],
        outcome: Outcome::Answers(0x1_2000),
    },
    // what is no call
    Call {
        number: 0,
        arguments: [1, 0x2_0000, 1, 7, 7, 7],
        outcome: NO_CALL,
    },
    Call {
        number: 2011,
        arguments: [1, 0x2_0000, 1, 7, 7, 7],
        outcome: NO_CALL,
    },
    Call {
        number: 2012,
        arguments: [1, 0x2_0000, 1, 7, 7, 7],
        outcome: NO_CALL,
    },
    Call {
        number: 17,
        arguments: [1, 0x2_0000, 1, 7, 7, 7],
        outcome: NO_CALL,
    },
    Call {
        number: 1024,
        arguments: [1, 0x2_0000, 1, 7, 7, 7],
        outcome: NO_CALL,
    },
    Call {
        number: 0x1_0000_0040,
        arguments: [1, 0x2_0000, 1, 7, 7, 7],
        outcome: NO_CALL,
    },
    Call {
        number: 0x8000_0000_0000_00d6,
        arguments: [1, 0x2_0000, 1, 7, 7, 7],
        outcome: NO_CALL,
    },
    Call {
        number: 0xffff_ffff_ffff_ffff,
        arguments: [1, 0x2_0000, 1, 7, 7, 7],
        outcome: NO_CALL,
    },
];
