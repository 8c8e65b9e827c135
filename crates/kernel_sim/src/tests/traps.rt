// What the kernel says of each trap: worked out by hand.

/// A trap: the word where programs begin, the pc, x5, what is said of it and the status that follows.
pub struct Trap {
    pub word: u32,
    pub pc: u64,
    pub x5: u64,
    pub text: &'static str,
    pub status: u8,
}

/// Where the program begins that leads to the trap.
pub const START: u64 = 0x2_0000;

/// Where x5 and the pc stand for it.
pub const ROW: u64 = 0x3_0000;

/// That program, by LLVM's assembler.
pub static PROGRAM: [u32; 4] = [0x0003_0337, 0x0003_3283, 0x0083_3303, 0x0003_0067];

/// The traps, each after a boot.
pub static TRAPS: [Trap; 30] = [
    Trap {
        word: 0x0020_006f,
        pc: 0x1_0000,
        x5: 0,
        text: "pk: trap 00 at 0000000000010000 value 0000000000010002\n",
        status: 128,
    },
    Trap {
        word: 0x0000_0013,
        pc: 0x101_0000,
        x5: 0,
        text: "pk: trap 01 at 0000000001010000 value 0000000001010000\n",
        status: 129,
    },
    Trap {
        word: 0x0000_0013,
        pc: 0x8000_0000,
        x5: 0,
        text: "pk: trap 01 at 0000000080000000 value 0000000080000000\n",
        status: 129,
    },
    Trap {
        word: 0x0000_0013,
        pc: 0,
        x5: 0,
        text: "pk: trap 01 at 0000000000000000 value 0000000000000000\n",
        status: 129,
    },
    Trap {
        word: 0x0000_0000,
        pc: 0x1_0000,
        x5: 0,
        text: "pk: trap 02 at 0000000000010000 value 0000000000000000\n",
        status: 130,
    },
    Trap {
        word: 0xffff_ffff,
        pc: 0x1_0000,
        x5: 0,
        text: "pk: trap 02 at 0000000000010000 value 00000000ffffffff\n",
        status: 130,
    },
    Trap {
        word: 0x3000_12f3,
        pc: 0x1_0000,
        x5: 0,
        text: "pk: trap 02 at 0000000000010000 value 00000000300012f3\n",
        status: 130,
    },
    Trap {
        word: 0x1050_0073,
        pc: 0x1_0000,
        x5: 0,
        text: "pk: trap 02 at 0000000000010000 value 0000000010500073\n",
        status: 130,
    },
    Trap {
        word: 0x3020_0073,
        pc: 0x1_0000,
        x5: 0,
        text: "pk: trap 02 at 0000000000010000 value 0000000030200073\n",
        status: 130,
    },
    Trap {
        word: 0xc200_22f3,
        pc: 0x1_0000,
        x5: 0,
        text: "pk: trap 02 at 0000000000010000 value 00000000c20022f3\n",
        status: 130,
    },
    Trap {
        word: 0xbff0_22f3,
        pc: 0x1_0000,
        x5: 0,
        text: "pk: trap 02 at 0000000000010000 value 00000000bff022f3\n",
        status: 130,
    },
    Trap {
        word: 0xc000_42f3,
        pc: 0x1_0000,
        x5: 0,
        text: "pk: trap 02 at 0000000000010000 value 00000000c00042f3\n",
        status: 130,
    },
    Trap {
        word: 0x0010_0073,
        pc: 0x1_0000,
        x5: 0,
        text: "pk: trap 03 at 0000000000010000 value 0000000000010000\n",
        status: 131,
    },
    Trap {
        word: 0x0002_b303,
        pc: 0x1_0000,
        x5: 0x8000_0000,
        text: "pk: trap 05 at 0000000000010000 value 0000000080000000\n",
        status: 133,
    },
    Trap {
        word: 0x0002_b303,
        pc: 0x1_0000,
        x5: 0x100_fffd,
        text: "pk: trap 05 at 0000000000010000 value 0000000001010000\n",
        status: 133,
    },
    Trap {
        word: 0x0002_a303,
        pc: 0x1_0000,
        x5: 0xffff,
        text: "pk: trap 05 at 0000000000010000 value 000000000000ffff\n",
        status: 133,
    },
    Trap {
        word: 0x0002_b303,
        pc: 0x1_0000,
        x5: 0xffff_ffff_ffff_fffc,
        text: "pk: trap 05 at 0000000000010000 value fffffffffffffffc\n",
        status: 133,
    },
    Trap {
        word: 0x0002_b303,
        pc: 0x1_0000,
        x5: 0x200_0000,
        text: "pk: trap 05 at 0000000000010000 value 0000000002000000\n",
        status: 133,
    },
    Trap {
        word: 0x0002_b023,
        pc: 0x1_0000,
        x5: 0x8000_8100,
        text: "pk: trap 07 at 0000000000010000 value 0000000080008100\n",
        status: 135,
    },
    Trap {
        word: 0x0052_b023,
        pc: 0x1_0000,
        x5: 0x100_fff9,
        text: "pk: trap 07 at 0000000000010000 value 0000000001010000\n",
        status: 135,
    },
    Trap {
        word: 0x0002_8023,
        pc: 0x1_0000,
        x5: 0xffff,
        text: "pk: trap 07 at 0000000000010000 value 000000000000ffff\n",
        status: 135,
    },
    Trap {
        word: 0xc000_12f3,
        pc: 0x1_0000,
        x5: 0,
        text: "pk: counter read at 0000000000010000\n",
        status: 124,
    },
    Trap {
        word: 0xc000_22f3,
        pc: 0x1_0000,
        x5: 0,
        text: "pk: counter read at 0000000000010000\n",
        status: 124,
    },
    Trap {
        word: 0xc000_32f3,
        pc: 0x1_0000,
        x5: 0,
        text: "pk: counter read at 0000000000010000\n",
        status: 124,
    },
    Trap {
        word: 0xc000_52f3,
        pc: 0x1_0000,
        x5: 0,
        text: "pk: counter read at 0000000000010000\n",
        status: 124,
    },
    Trap {
        word: 0xc000_62f3,
        pc: 0x1_0000,
        x5: 0,
        text: "pk: counter read at 0000000000010000\n",
        status: 124,
    },
    Trap {
        word: 0xc000_72f3,
        pc: 0x1_0000,
        x5: 0,
        text: "pk: counter read at 0000000000010000\n",
        status: 124,
    },
    Trap {
        word: 0xc1f0_22f3,
        pc: 0x1_0000,
        x5: 0,
        text: "pk: counter read at 0000000000010000\n",
        status: 124,
    },
    Trap {
        word: 0xc02f_9073,
        pc: 0x1_0000,
        x5: 0,
        text: "pk: counter read at 0000000000010000\n",
        status: 124,
    },
    Trap {
        word: 0xc10f_e2f3,
        pc: 0x1_0000,
        x5: 0,
        text: "pk: counter read at 0000000000010000\n",
        status: 124,
    },
];
