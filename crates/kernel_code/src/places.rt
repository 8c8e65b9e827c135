// The addresses of the kernel's code at which a phase begins, or of which a phase speaks. Written by
// tools/kernel_blocks.py.

/// The load of FROMHOST while the first request waits.
pub const BOOT_WAIT: u64 = 0x8000_005c;

/// The test of it.
pub const BOOT_TEST: u64 = 0x8000_0060;

/// The answer to the first request is taken.
pub const BOOT_TAKE: u64 = 0x8000_0064;

/// The program is entered for the first time.
pub const LEAVE: u64 = 0x8000_0068;

/// The MRET that enters it.
pub const LEAVE_RETURN: u64 = 0x8000_0078;

/// The handler: the program's registers are saved.
pub const SAVE: u64 = 0x8000_007c;

/// The cause and the number of a call are looked at.
pub const CHECK: u64 = 0x8000_0104;

/// A path is scanned.
pub const SCAN: u64 = 0x8000_01e4;

/// The load of a path's byte.
pub const PATH_LOAD: u64 = 0x8000_0200;

/// Behind it.
pub const PATH_LOADED: u64 = 0x8000_0204;

/// The test of it.
pub const PATH_TEST: u64 = 0x8000_0208;

/// A byte that is not NUL was passed.
pub const PATH_PASSED: u64 = 0x8000_020c;

/// The kernel answers itself.
pub const LOCAL: u64 = 0x8000_0214;

/// A request is filled.
pub const FILL: u64 = 0x8000_0248;

/// The load of FROMHOST while a request waits.
pub const WAIT: u64 = 0x8000_0288;

/// The test of it.
pub const WAIT_TEST: u64 = 0x8000_028c;

/// The answer is taken.
pub const TAKE: u64 = 0x8000_0290;

/// The program's registers are restored.
pub const RESTORE: u64 = 0x8000_0298;

/// The MRET that returns to the program.
pub const RETURN: u64 = 0x8000_031c;

/// The last words of a program are chosen.
pub const SPEAK: u64 = 0x8000_0320;

/// The load of TOHOST before a byte is put.
pub const PUT: u64 = 0x8000_0518;

/// The test of it.
pub const PUT_TEST: u64 = 0x8000_051c;

/// The store of a byte to TOHOST.
pub const PUT_STORE: u64 = 0x8000_0520;

/// Behind it.
pub const PUT_DONE: u64 = 0x8000_0524;

/// The exit word is made.
pub const CLOSE: u64 = 0x8000_0528;

/// The load of TOHOST before the exit word is put.
pub const CLOSING: u64 = 0x8000_0530;

/// The test of it.
pub const CLOSING_TEST: u64 = 0x8000_0534;

/// The store of the exit word to TOHOST.
pub const CLOSING_STORE: u64 = 0x8000_0538;

/// The last place, which jumps to itself.
pub const IDLE: u64 = 0x8000_053c;
