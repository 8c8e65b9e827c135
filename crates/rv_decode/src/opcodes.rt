// The major opcodes, by their names in the manual (Unprivileged ISA, RV32/64G Instruction Set Listings).

pub const LUI: u32 = 0x37;

pub const AUIPC: u32 = 0x17;

pub const JAL: u32 = 0x6f;

pub const JALR: u32 = 0x67;

pub const BRANCH: u32 = 0x63;

pub const LOAD: u32 = 0x03;

pub const STORE: u32 = 0x23;

pub const OP_IMM: u32 = 0x13;

pub const OP_IMM_32: u32 = 0x1b;

pub const OP: u32 = 0x33;

pub const OP_32: u32 = 0x3b;

pub const MISC_MEM: u32 = 0x0f;

pub const SYSTEM: u32 = 0x73;

// The whole words of the instructions that have no field.
pub const ECALL_WORD: u32 = 0x0000_0073;

pub const EBREAK_WORD: u32 = 0x0010_0073;

pub const MRET_WORD: u32 = 0x3020_0073;

pub const WFI_WORD: u32 = 0x1050_0073;
