// Corner cases of each operation, by the manual's formulas on whole numbers without bound, and one
// word for each effect.
use crate::{
    AluOp, AluWOp, CsrOp, Effect, MulOp, Size, act, alu, alu_w, loaded, mul_div, put, taken,
};
use rv_decode::{Cond, decode};
use std::test::Fail;

// -1, and every bit set
const ONES: u64 = 0xffff_ffff_ffff_ffff;

// -2^63
const LEAST: u64 = 0x8000_0000_0000_0000;

const GREATEST: u64 = 0x7fff_ffff_ffff_ffff;

// -2^31 as a word, and sign-extended
const LEAST_WORD: u64 = 0x8000_0000;

const EXTENDED_LEAST: u64 = 0xffff_ffff_8000_0000;

const CONDITIONS: [(Cond, u64, u64, bool); 18] = [
    (Cond::Eq, LEAST, GREATEST, false),
    (Cond::Eq, 0, ONES, false),
    (Cond::Eq, 5, 5, true),
    (Cond::Ne, LEAST, GREATEST, true),
    (Cond::Ne, 0, ONES, true),
    (Cond::Ne, 5, 5, false),
    (Cond::Lt, LEAST, GREATEST, true),
    (Cond::Lt, 0, ONES, false),
    (Cond::Lt, 5, 5, false),
    (Cond::Ge, LEAST, GREATEST, false),
    (Cond::Ge, 0, ONES, true),
    (Cond::Ge, 5, 5, true),
    (Cond::Ltu, LEAST, GREATEST, false),
    (Cond::Ltu, 0, ONES, true),
    (Cond::Ltu, 5, 5, false),
    (Cond::Geu, LEAST, GREATEST, true),
    (Cond::Geu, 0, ONES, false),
    (Cond::Geu, 5, 5, true),
];

const WHOLE: [(AluOp, u64, u64, u64); 33] = [
    (AluOp::Add, ONES, 1, 0),
    (AluOp::Add, GREATEST, 1, LEAST),
    (AluOp::Add, LEAST, LEAST, 0),
    (AluOp::Sub, 0, 1, ONES),
    (AluOp::Sub, LEAST, 1, GREATEST),
    (AluOp::Sub, 5, 7, 0xffff_ffff_ffff_fffe),
    (AluOp::Sll, 1, 63, LEAST),
    (AluOp::Sll, ONES, 0, ONES),
    (AluOp::Sll, ONES, 63, LEAST),
    (AluOp::Sll, 3, 64, 3),
    (AluOp::Slt, LEAST, 0, 1),
    (AluOp::Slt, ONES, 0, 1),
    (AluOp::Slt, 0, ONES, 0),
    (AluOp::Slt, LEAST, GREATEST, 1),
    (AluOp::Slt, 7, 7, 0),
    (AluOp::Sltu, LEAST, 0, 0),
    (AluOp::Sltu, 0, ONES, 1),
    (AluOp::Sltu, ONES, 0, 0),
    (AluOp::Xor, 0xf0f0, 0xff00, 0xff0),
    (AluOp::Xor, ONES, LEAST, GREATEST),
    (AluOp::Srl, LEAST, 63, 1),
    (AluOp::Srl, ONES, 0, ONES),
    (AluOp::Srl, ONES, 63, 1),
    (AluOp::Srl, ONES, 4, 0xfff_ffff_ffff_ffff),
    (AluOp::Sra, LEAST, 63, ONES),
    (AluOp::Sra, LEAST, 0, LEAST),
    (AluOp::Sra, LEAST, 4, 0xf800_0000_0000_0000),
    (AluOp::Sra, GREATEST, 62, 1),
    (AluOp::Sra, ONES, 63, ONES),
    (AluOp::Sra, 0xffff_ffff_ffff_fffb, 1, 0xffff_ffff_ffff_fffd),
    (AluOp::Or, 0xf0f0, 0xff0, 0xfff0),
    (AluOp::And, 0xf0f0, 0xff0, 0xf0),
    (AluOp::And, ONES, LEAST, LEAST),
];

const WORDS: [(AluWOp, u64, u64, u64); 19] = [
    (AluWOp::Add, 0x7fff_ffff, 1, EXTENDED_LEAST),
    (AluWOp::Add, 0xffff_ffff, 1, 0),
    (AluWOp::Add, 0x1_0000_0000, LEAST_WORD, EXTENDED_LEAST),
    (AluWOp::Sub, 0, 1, ONES),
    (AluWOp::Sub, LEAST_WORD, 1, 0x7fff_ffff),
    (AluWOp::Sub, 0x1_0000_0005, 2, 3),
    (AluWOp::Sll, 1, 31, EXTENDED_LEAST),
    (AluWOp::Sll, 1, 32, 1),
    (AluWOp::Sll, 0xffff_ffff, 31, EXTENDED_LEAST),
    (AluWOp::Sll, 0x1_0000_0003, 0, 3),
    (AluWOp::Srl, LEAST_WORD, 31, 1),
    (AluWOp::Srl, 0xffff_ffff, 0, ONES),
    (AluWOp::Srl, EXTENDED_LEAST, 4, 0x800_0000),
    (AluWOp::Srl, 0xffff_ffff, 32, ONES),
    (AluWOp::Sra, LEAST_WORD, 31, ONES),
    (AluWOp::Sra, LEAST_WORD, 0, EXTENDED_LEAST),
    (AluWOp::Sra, 0x7fff_ffff, 31, 0),
    (AluWOp::Sra, 0xf_8000_0000, 4, 0xffff_ffff_f800_0000),
    (AluWOp::Sra, 0xffff_fffe, 33, ONES),
];

const PRODUCTS: [(MulOp, u64, u64, u64); 55] = [
    (MulOp::Mul, LEAST, LEAST, 0),
    (MulOp::Mul, ONES, ONES, 1),
    (MulOp::Mul, LEAST, 2, 0),
    (MulOp::Mul, GREATEST, ONES, 0x8000_0000_0000_0001),
    (MulOp::Mulh, LEAST, LEAST, 0x4000_0000_0000_0000),
    (MulOp::Mulh, ONES, ONES, 0),
    (MulOp::Mulh, LEAST, 2, ONES),
    (MulOp::Mulh, GREATEST, ONES, ONES),
    (MulOp::Mulhsu, LEAST, LEAST, 0xc000_0000_0000_0000),
    (MulOp::Mulhsu, ONES, ONES, ONES),
    (MulOp::Mulhsu, LEAST, 2, ONES),
    (MulOp::Mulhsu, GREATEST, ONES, 0x7fff_ffff_ffff_fffe),
    (MulOp::Mulhu, LEAST, LEAST, 0x4000_0000_0000_0000),
    (MulOp::Mulhu, ONES, ONES, 0xffff_ffff_ffff_fffe),
    (MulOp::Mulhu, LEAST, 2, 1),
    (MulOp::Mulhu, GREATEST, ONES, 0x7fff_ffff_ffff_fffe),
    (MulOp::Div, LEAST, ONES, LEAST),
    (MulOp::Div, 0xffff_ffff_ffff_fff9, 0, ONES),
    (MulOp::Div, 0xffff_ffff_ffff_fff9, 2, 0xffff_ffff_ffff_fffd),
    (MulOp::Div, 7, 0xffff_ffff_ffff_fffe, 0xffff_ffff_ffff_fffd),
    (MulOp::Div, 0xffff_ffff_ffff_fff9, 0xffff_ffff_ffff_fffe, 3),
    (MulOp::Divu, LEAST, ONES, 0),
    (MulOp::Divu, 0xffff_ffff_ffff_fff9, 0, ONES),
    (MulOp::Divu, 0xffff_ffff_ffff_fff9, 2, 0x7fff_ffff_ffff_fffc),
    (MulOp::Divu, 7, 0xffff_ffff_ffff_fffe, 0),
    (MulOp::Divu, 0xffff_ffff_ffff_fff9, 0xffff_ffff_ffff_fffe, 0),
    (MulOp::Rem, LEAST, ONES, 0),
    (MulOp::Rem, 0xffff_ffff_ffff_fff9, 0, 0xffff_ffff_ffff_fff9),
    (MulOp::Rem, 0xffff_ffff_ffff_fff9, 2, ONES),
    (MulOp::Rem, 7, 0xffff_ffff_ffff_fffe, 1),
    (
        MulOp::Rem,
        0xffff_ffff_ffff_fff9,
        0xffff_ffff_ffff_fffe,
        ONES,
    ),
    (MulOp::Remu, LEAST, ONES, LEAST),
    (MulOp::Remu, 0xffff_ffff_ffff_fff9, 0, 0xffff_ffff_ffff_fff9),
    (MulOp::Remu, 0xffff_ffff_ffff_fff9, 2, 1),
    (MulOp::Remu, 7, 0xffff_ffff_ffff_fffe, 7),
    (
        MulOp::Remu,
        0xffff_ffff_ffff_fff9,
        0xffff_ffff_ffff_fffe,
        0xffff_ffff_ffff_fff9,
    ),
    (MulOp::Mulw, LEAST_WORD, LEAST_WORD, 0),
    (MulOp::Mulw, 0xffff_ffff, 0x7fff_ffff, 0xffff_ffff_8000_0001),
    (MulOp::Mulw, 0x1_0001, 0x1_0001, 0x2_0001),
    (MulOp::Divw, LEAST_WORD, ONES, EXTENDED_LEAST),
    (MulOp::Divw, 0x1_8000_0000, 0x1_0000_0000, ONES),
    (MulOp::Divw, 0xffff_fff9, 2, 0xffff_ffff_ffff_fffd),
    (MulOp::Divw, 7, 0xffff_fffe, 0xffff_ffff_ffff_fffd),
    (MulOp::Divuw, LEAST_WORD, ONES, 0),
    (MulOp::Divuw, 0x1_8000_0000, 0x1_0000_0000, ONES),
    (MulOp::Divuw, 0xffff_fff9, 2, 0x7fff_fffc),
    (MulOp::Divuw, 7, 0xffff_fffe, 0),
    (MulOp::Remw, LEAST_WORD, ONES, 0),
    (MulOp::Remw, 0x1_8000_0000, 0x1_0000_0000, EXTENDED_LEAST),
    (MulOp::Remw, 0xffff_fff9, 2, ONES),
    (MulOp::Remw, 7, 0xffff_fffe, 1),
    (MulOp::Remuw, LEAST_WORD, ONES, EXTENDED_LEAST),
    (MulOp::Remuw, 0x1_8000_0000, 0x1_0000_0000, EXTENDED_LEAST),
    (MulOp::Remuw, 0xffff_fff9, 2, 1),
    (MulOp::Remuw, 7, 0xffff_fffe, 7),
];

#[test]
fn operations(rt: HostRuntime) {
    for (cond, a, b, want) in CONDITIONS {
        assert_eq!(rt; taken(cond, a, b), want, "branch {a:#x} {b:#x}");
    }
    for (op, a, b, want) in WHOLE {
        assert_eq!(rt; alu(op, a, b), want, "{op:?} {a:#x} {b:#x}");
    }
    for (op, a, b, want) in WORDS {
        assert_eq!(rt; alu_w(op, a, b), want, "{op:?} {a:#x} {b:#x}");
    }
    for (op, a, b, want) in PRODUCTS {
        assert_eq!(rt; mul_div(op, a, b), want, "{op:?} {a:#x} {b:#x}");
    }
}

#[test]
fn effects(rt: HostRuntime) -> Result<(), Fail> {
    let mut registers = [0; 32];
    put(&mut registers, 0, 9);
    put(&mut registers, 5, 0x1122_3344_5566_7788);
    put(&mut registers, 6, 0x2_0003);
    let rows = [
        // fence
        (0x0ff0_000f, Effect::Pass),
        // beq x5, x6, 8
        (0x0062_8463, Effect::Pass),
        // bne x5, x6, -4
        (
            0xfe62_9ee3,
            Effect::Jump {
                rd: 0,
                target: 0xfffc,
            },
        ),
        // lui x7, 0x80000
        (
            0x8000_03b7,
            Effect::Set {
                rd: 7,
                value: 0xffff_ffff_8000_0000,
            },
        ),
        // auipc x7, 1
        (
            0x0000_1397,
            Effect::Set {
                rd: 7,
                value: 0x1_1000,
            },
        ),
        // addi x7, x6, -1
        (
            0xfff3_0393,
            Effect::Set {
                rd: 7,
                value: 0x2_0002,
            },
        ),
        // srai x7, x6, 1
        (
            0x4013_5393,
            Effect::Set {
                rd: 7,
                value: 0x1_0001,
            },
        ),
        // jal x1, 8
        (
            0x0080_00ef,
            Effect::Jump {
                rd: 1,
                target: 0x1_0008,
            },
        ),
        // jalr x1, 2(x6)
        (
            0x0023_00e7,
            Effect::Jump {
                rd: 1,
                target: 0x2_0004,
            },
        ),
        // lw x7, -4(x6)
        (
            0xffc3_2383,
            Effect::Load {
                rd: 7,
                size: Size::Word,
                extends: true,
                at: 0x1_ffff,
            },
        ),
        // lbu x7, 0(x6)
        (
            0x0003_4383,
            Effect::Load {
                rd: 7,
                size: Size::Byte,
                extends: false,
                at: 0x2_0003,
            },
        ),
        // sh x5, 16(x6)
        (
            0x0053_1823,
            Effect::Store {
                size: Size::Half,
                at: 0x2_0013,
                value: 0x1122_3344_5566_7788,
            },
        ),
        // csrrw x0, 0x341, x5
        (
            0x3412_9073,
            Effect::Csr {
                rd: 0,
                csr: 0x341,
                op: CsrOp::Write,
                value: 0x1122_3344_5566_7788,
                writes: true,
            },
        ),
        // csrrs x7, 0x300, x0
        (
            0x3000_23f3,
            Effect::Csr {
                rd: 7,
                csr: 0x300,
                op: CsrOp::SetBits,
                value: 0,
                writes: false,
            },
        ),
        // csrrci x7, 0x340, 17
        (
            0x3408_f3f3,
            Effect::Csr {
                rd: 7,
                csr: 0x340,
                op: CsrOp::ClearBits,
                value: 17,
                writes: true,
            },
        ),
        // ecall
        (0x0000_0073, Effect::Call),
        // ebreak
        (0x0010_0073, Effect::Break),
        // mret
        (0x3020_0073, Effect::Return),
        // wfi
        (0x1050_0073, Effect::Wait),
    ];
    for (word, want) in rows {
        let insn = decode(word).ok_or("no row")?;
        assert_eq!(rt; act::<()>(&insn, 0x1_0000, &registers), want, "{word:#x}");
    }
    assert_eq!(rt; loaded(Size::Byte, true, 0x80), 0xffff_ffff_ffff_ff80);
    assert_eq!(rt; loaded(Size::Half, true, 0x7fff), 0x7fff);
    assert_eq!(rt; loaded(Size::Word, true, LEAST_WORD), EXTENDED_LEAST);
    assert_eq!(rt; loaded(Size::Word, false, LEAST_WORD), LEAST_WORD);
    assert_eq!(rt; loaded(Size::Double, false, LEAST), LEAST);
    Ok(())
}
