// The phases of kernel and host, and what a phase tells.

/// What kernel and host are doing.
#[derive(Clone, Copy, Debug, PartialEq, Eq)]
pub enum PhaseKind {
    Boot,
    BootWait,
    BootTake,
    Leave,
    User,
    Save,
    Check,
    Scan,
    Fill,
    Wait,
    Take,
    Local,
    Restore,
    Speak,
    Closing,
}

/// A user program's registers and break.
#[derive(Clone, Copy)]
pub struct UserState {
    pub pc: u64,
    pub regs: [u64; 32],
    pub brk: u64,
    pub first_break: u64,
}

/// A message.
#[derive(Clone, Copy)]
pub struct Spoken {
    pub counter: bool,
    pub cause: u64,
    pub at: u64,
    pub value: u64,
    pub posted: u32,
}

/// What holds at a moment.
#[derive(Clone, Copy)]
pub struct Phase {
    pub kind: PhaseKind,
    pub user: UserState,
    pub tohost: u64,
    pub fromhost: u64,
    pub request: [u64; 8],
    pub scanned: u32,
    pub text: Spoken,
}
