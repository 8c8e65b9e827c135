// The limits of the product, each once. Sizes are numbers of bytes.
use crate::memory_map::USER_END;

/// The most bytes that a program file has.
pub const ELF_FILE_LIMIT: u64 = 67_108_864;

/// The most bytes that an assembly file has.
pub const ASSEMBLY_FILE_LIMIT: u64 = 1_048_576;

/// The most bytes that a program's main vars have: its arguments, as they stand in its memory.
pub const MAIN_VARS_LIMIT: u64 = 65_536;

/// The most bytes that one read or write moves; a call that asks for more is answered a lesser count.
pub const TRANSFER_LIMIT: u64 = 1_048_576;

/// How many open numbers a program has, from 0 on.
pub const OPEN_NUMBERS: usize = 64;

/// The most bytes that a path has in the guest's memory, its NUL among them (PATH_MAX of Linux).
pub const GUEST_PATH_LIMIT: u64 = 4_096;

/// The most bytes that the text of a path has that is read, without a NUL.
pub const PATH_TEXT_LIMIT: usize = 4_095;

/// The most bytes that a path has that is held, a root and what stands below it together.
pub const PATH_LIMIT: usize = 8_192;

/// The most bytes that one part of a path has (NAME_MAX of Linux).
pub const PATH_PART_LIMIT: usize = 255;

/// The most bytes that a guest makes a file have.
pub const GUEST_FILE_LIMIT: u64 = 268_435_456;

/// The greatest break that a program may set.
pub const GREATEST_BREAK: u64 = 0x00f0_0000;

/// Where the stack begins, which grows downwards, and where the main vars stand: the end of the user area less their
/// limit.
pub const STACK_TOP: u64 = USER_END - MAIN_VARS_LIMIT;

/// The most hart steps of a pause, before one transaction.
pub const PAUSE_LIMIT: u32 = 1_000_000;

/// The most steps of a run on the direct machine, where the words give no limit.
pub const DEFAULT_STEP_LIMIT: u64 = 1_000_000_000;

/// The greatest limit of steps that the words may give.
pub const GREATEST_STEP_LIMIT: u64 = 1_000_000_000_000;

/// The most bytes of the report's last line, its newline among them.
pub const REPORT_LINE_LIMIT: usize = 128;
