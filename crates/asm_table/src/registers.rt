// The names of registers, in one table.
ghost use Rattle.std.specs.Prelude.{◌≡◌};
ghost use Rattle.asm_table.specs.Registers.{register_in, register_of};

use crate::cuts::cut;

/// A register's name and number.
#[derive(Clone, Copy)]
pub struct Register {
    /// The bytes of the name, and zeros behind them.
    pub name: [u8; 4],
    pub number: u8,
}

/// Each name once: the numbers behind an x, and the names of the integer calling convention.
pub const REGISTERS: [Register; 65] = [
    Register {
        name: *b"x0\0\0",
        number: 0,
    },
    Register {
        name: *b"x1\0\0",
        number: 1,
    },
    Register {
        name: *b"x2\0\0",
        number: 2,
    },
    Register {
        name: *b"x3\0\0",
        number: 3,
    },
    Register {
        name: *b"x4\0\0",
        number: 4,
    },
    Register {
        name: *b"x5\0\0",
        number: 5,
    },
    Register {
        name: *b"x6\0\0",
        number: 6,
    },
    Register {
        name: *b"x7\0\0",
        number: 7,
    },
    Register {
        name: *b"x8\0\0",
        number: 8,
    },
    Register {
        name: *b"x9\0\0",
        number: 9,
    },
    Register {
        name: *b"x10\0",
        number: 10,
    },
    Register {
        name: *b"x11\0",
        number: 11,
    },
    Register {
        name: *b"x12\0",
        number: 12,
    },
    Register {
        name: *b"x13\0",
        number: 13,
    },
    Register {
        name: *b"x14\0",
        number: 14,
    },
    Register {
        name: *b"x15\0",
        number: 15,
    },
    Register {
        name: *b"x16\0",
        number: 16,
    },
    Register {
        name: *b"x17\0",
        number: 17,
    },
    Register {
        name: *b"x18\0",
        number: 18,
    },
    Register {
        name: *b"x19\0",
        number: 19,
    },
    Register {
        name: *b"x20\0",
        number: 20,
    },
    Register {
        name: *b"x21\0",
        number: 21,
    },
    Register {
        name: *b"x22\0",
        number: 22,
    },
    Register {
        name: *b"x23\0",
        number: 23,
    },
    Register {
        name: *b"x24\0",
        number: 24,
    },
    Register {
        name: *b"x25\0",
        number: 25,
    },
    Register {
        name: *b"x26\0",
        number: 26,
    },
    Register {
        name: *b"x27\0",
        number: 27,
    },
    Register {
        name: *b"x28\0",
        number: 28,
    },
    Register {
        name: *b"x29\0",
        number: 29,
    },
    Register {
        name: *b"x30\0",
        number: 30,
    },
    Register {
        name: *b"x31\0",
        number: 31,
    },
    Register {
        name: *b"zero",
        number: 0,
    },
    Register {
        name: *b"ra\0\0",
        number: 1,
    },
    Register {
        name: *b"sp\0\0",
        number: 2,
    },
    Register {
        name: *b"gp\0\0",
        number: 3,
    },
    Register {
        name: *b"tp\0\0",
        number: 4,
    },
    Register {
        name: *b"t0\0\0",
        number: 5,
    },
    Register {
        name: *b"t1\0\0",
        number: 6,
    },
    Register {
        name: *b"t2\0\0",
        number: 7,
    },
    Register {
        name: *b"t3\0\0",
        number: 28,
    },
    Register {
        name: *b"t4\0\0",
        number: 29,
    },
    Register {
        name: *b"t5\0\0",
        number: 30,
    },
    Register {
        name: *b"t6\0\0",
        number: 31,
    },
    Register {
        name: *b"s0\0\0",
        number: 8,
    },
    Register {
        name: *b"s1\0\0",
        number: 9,
    },
    Register {
        name: *b"s2\0\0",
        number: 18,
    },
    Register {
        name: *b"s3\0\0",
        number: 19,
    },
    Register {
        name: *b"s4\0\0",
        number: 20,
    },
    Register {
        name: *b"s5\0\0",
        number: 21,
    },
    Register {
        name: *b"s6\0\0",
        number: 22,
    },
    Register {
        name: *b"s7\0\0",
        number: 23,
    },
    Register {
        name: *b"s8\0\0",
        number: 24,
    },
    Register {
        name: *b"s9\0\0",
        number: 25,
    },
    Register {
        name: *b"s10\0",
        number: 26,
    },
    Register {
        name: *b"s11\0",
        number: 27,
    },
    Register {
        name: *b"fp\0\0",
        number: 8,
    },
    Register {
        name: *b"a0\0\0",
        number: 10,
    },
    Register {
        name: *b"a1\0\0",
        number: 11,
    },
    Register {
        name: *b"a2\0\0",
        number: 12,
    },
    Register {
        name: *b"a3\0\0",
        number: 13,
    },
    Register {
        name: *b"a4\0\0",
        number: 14,
    },
    Register {
        name: *b"a5\0\0",
        number: 15,
    },
    Register {
        name: *b"a6\0\0",
        number: 16,
    },
    Register {
        name: *b"a7\0\0",
        number: 17,
    },
];

// The number of the first register of this name.
fn number_among(rows: &[Register], name: &[u8]) -> Option<u8>
    ensures { result ≡ register_in rows.now name.now }
{
    for row in rows {
        if cut(&row.name, 0).0 == name {
            return Some(row.number);
        }
    }
    None
}

/// The number of the register of this name, if it is one.
#[tactic(auto, unfolding(crate::specs::Registers::register_of))]
pub fn register_named(name: &[u8]) -> Option<u8>
    ensures { result ≡ register_of name.now }
{
    number_among(&REGISTERS, name)
}
