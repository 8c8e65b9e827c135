// Words by LLVM's assembler (llvm-mc 14, --triple=riscv64), and faults worked out by hand.
ghost use Rattle.std.specs.Prelude.{◌≤◌, ◌*◌, All, IfOk, IfSome, length};
ghost use Rattle.asm_items.specs.ItemMeaning.{IsItemFit, total_words, words_of};

use crate::{AsmFault, Item, Items, Name, Text, assemble};
use rv_decode::{Cond, Insn};
use std::alloc::Global;
use std::process::Abort;
use std::test::Fail;

// An item as a value that can be copied; a text is given by its length.
#[derive(Clone, Copy)]
enum Row {
    Label(&'static str),
    Beq(&'static str),
    Bltu(&'static str),
    Jal(&'static str),
    La(&'static str),
    Ecall,
    Dword(u64),
    Ascii(usize),
}

// Items with how many words they take, and some of these by their place; or with their fault.
struct Case {
    rows: &'static [Row],
    count: usize,
    words: &'static [(usize, u32)],
    fault: Option<AsmFault>,
}

static CASES: [Case; 17] = [
    // the lines start:, la a0, start, beq x0, x0, start
    Case {
        rows: &[Row::Label("s"), Row::La("s"), Row::Beq("s")],
        count: 3,
        words: &[(0, 0x0000_0297), (1, 0x0002_8293), (2, 0xfe00_0ce3)],
        fault: None,
    },
    Case {
        rows: &[
            Row::Jal("b"),
            Row::Ecall,
            Row::Label("b"),
            Row::Jal("b"),
            Row::Bltu("c"),
            Row::Ecall,
            Row::Label("c"),
        ],
        count: 5,
        words: &[
            (0, 0x0080_00ef),
            (1, 0x0000_0073),
            (2, 0x0000_00ef),
            (3, 0x0020_e463),
        ],
        fault: None,
    },
    // a branch reaches 4,094 bytes on and 4,096 back
    Case {
        rows: &[
            Row::Beq("t"),
            Row::Ascii(1024),
            Row::Ascii(1024),
            Row::Ascii(1024),
            Row::Ascii(1016),
            Row::Label("t"),
        ],
        count: 1023,
        words: &[(0, 0x7e00_0ee3), (1, 0x7878_7878)],
        fault: None,
    },
    Case {
        rows: &[
            Row::Beq("t"),
            Row::Ascii(1024),
            Row::Ascii(1024),
            Row::Ascii(1024),
            Row::Ascii(1017),
            Row::Label("t"),
        ],
        count: 0,
        words: &[],
        fault: Some(AsmFault::OutOfReach(0)),
    },
    Case {
        rows: &[
            Row::Label("t"),
            Row::Ascii(1024),
            Row::Ascii(1024),
            Row::Ascii(1024),
            Row::Ascii(1024),
            Row::Beq("t"),
        ],
        count: 1025,
        words: &[(1024, 0x8000_0063)],
        fault: None,
    },
    Case {
        rows: &[
            Row::Label("t"),
            Row::Ecall,
            Row::Ascii(1024),
            Row::Ascii(1024),
            Row::Ascii(1024),
            Row::Ascii(1024),
            Row::Beq("t"),
        ],
        count: 0,
        words: &[],
        fault: Some(AsmFault::OutOfReach(6)),
    },
    // the upper part of an address is rounded
    Case {
        rows: &[
            Row::La("t"),
            Row::Ascii(1024),
            Row::Ascii(1012),
            Row::Label("t"),
        ],
        count: 511,
        words: &[(0, 0x0000_0297), (1, 0x7fc2_8293)],
        fault: None,
    },
    Case {
        rows: &[
            Row::La("t"),
            Row::Ascii(1024),
            Row::Ascii(1016),
            Row::Label("t"),
        ],
        count: 512,
        words: &[(0, 0x0000_1297), (1, 0x8002_8293)],
        fault: None,
    },
    Case {
        rows: &[
            Row::Label("t"),
            Row::Ascii(1024),
            Row::Ascii(1024),
            Row::Ascii(8),
            Row::La("t"),
        ],
        count: 516,
        words: &[(514, 0xffff_f297), (515, 0x7f82_8293)],
        fault: None,
    },
    // data, lowest byte first, and texts filled with zeros
    Case {
        rows: &[
            Row::Dword(0x0123_4567_89ab_cdef),
            Row::Ascii(0),
            Row::Ascii(1),
            Row::Ascii(4),
            Row::Ascii(6),
        ],
        count: 6,
        words: &[
            (0, 0x89ab_cdef),
            (1, 0x0123_4567),
            (2, 0x0000_0078),
            (3, 0x7878_7878),
            (5, 0x0000_7878),
        ],
        fault: None,
    },
    Case {
        rows: &[],
        count: 0,
        words: &[],
        fault: None,
    },
    Case {
        rows: &[Row::Ecall, Row::Beq("there"), Row::Jal("nowhere")],
        count: 0,
        words: &[],
        fault: Some(AsmFault::UnknownLabel(1)),
    },
    // the item of a label that stands twice is the later one
    Case {
        rows: &[Row::Label("a"), Row::Label("a"), Row::Ecall],
        count: 0,
        words: &[],
        fault: Some(AsmFault::LabelTwice(1)),
    },
    Case {
        rows: &[
            Row::Label("a"),
            Row::Label("b"),
            Row::Ecall,
            Row::Label("b"),
            Row::Label("a"),
        ],
        count: 0,
        words: &[],
        fault: Some(AsmFault::LabelTwice(3)),
    },
    // the first item with a fault counts
    Case {
        rows: &[Row::Jal("x"), Row::Label("a"), Row::Label("a")],
        count: 0,
        words: &[],
        fault: Some(AsmFault::UnknownLabel(0)),
    },
    Case {
        rows: &[Row::Label("a"), Row::Label("a"), Row::Jal("x")],
        count: 0,
        words: &[],
        fault: Some(AsmFault::LabelTwice(1)),
    },
    // a name in two cases is two names
    Case {
        rows: &[
            Row::Label("a"),
            Row::Ecall,
            Row::Label("A"),
            Row::Beq("A"),
            Row::Beq("a"),
        ],
        count: 3,
        words: &[(1, 0x0000_0063), (2, 0xfe00_0ce3)],
        fault: None,
    },
];

fn cases() -> &'static [Case] {
    &CASES
}

static LETTERS: [u8; 1024] = [b'x'; 1024];

fn item_of(row: Row) -> Option<Item>
    ensures fit { IfSome result IsItemFit }
    ensures short { IfSome result (λ item. words_of item ≤ 256) }
{
    Some(match row {
        Row::Label(name) => Item::Label(Name::new(name.as_bytes())?),
        Row::Beq(name) => Item::Branch(Cond::Eq, 0, 0, Name::new(name.as_bytes())?),
        Row::Bltu(name) => Item::Branch(Cond::Ltu, 1, 2, Name::new(name.as_bytes())?),
        Row::Jal(name) => Item::Jump(1, Name::new(name.as_bytes())?),
        Row::La(name) => Item::Address(5, Name::new(name.as_bytes())?),
        Row::Ecall => Item::Plain(Insn::Ecall),
        Row::Dword(value) => Item::Dword(value),
        Row::Ascii(count) => Item::Ascii(Text::new(LETTERS.get(..count)?)?),
    })
}

fn items_of(alloc: Global, rows: &[Row]) -> Result<Items, Fail>
    ensures fit { IfOk result (λ items. All IsItemFit items) }
    ensures short { IfOk result (λ items. total_words items ≤ 256 * length rows.now) }
{
    let mut items = Items::new(alloc);
    for row in rows {
        items.push(item_of(*row).ok_or("no item")?)?;
    }
    Ok(items)
}

fn word_at(bytes: &[u8], place: usize) -> Option<u32> {
    let low = place.checked_mul(4)?;
    let four = bytes.get(low..low.checked_add(4)?)?;
    Some(u32::from_le_bytes(four.try_into().ok()?))
}

fn check(rt: &impl Abort, alloc: Global, case: &Case) -> Result<(), Fail> {
    let items = items_of(alloc, case.rows)?;
    assert!(rt; case.rows.len() < 100);
    match assemble(alloc, items.as_slice(), 0x1_0000) {
        Ok(code) => {
            assert_eq!(rt; case.fault, None);
            assert_eq!(rt; code.base, 0x1_0000);
            assert_eq!(rt; code.bytes.len() / 4, case.count);
            for (place, word) in case.words {
                assert_eq!(rt;
                    word_at(code.bytes.as_slice(), *place),
                    Some(*word),
                    "at {place}"
                );
            }
        }
        Err(fault) => assert_eq!(rt; case.fault, Some(fault)),
    }
    Ok(())
}

#[test]
fn items_stand_for_words(rt: HostRuntime) -> Result<(), Fail> {
    for case in cases() {
        check(&rt, rt.alloc(), case)?;
    }
    Ok(())
}

static NAMES: [(&str, bool); 9] = [
    ("a", true),
    ("_", true),
    ("_9Zz", true),
    ("abcdefghijklmnopqrstuvwxyz01234", true),
    ("abcdefghijklmnopqrstuvwxyz012345", false),
    ("", false),
    ("9a", false),
    ("a-b", false),
    ("aé", false),
];

#[test]
fn names_and_texts(rt: HostRuntime) -> Result<(), Fail> {
    for (name, is_name) in &NAMES {
        let bytes = name.as_bytes();
        let found = Name::new(bytes);
        assert_eq!(rt; found.is_some(), *is_name, "{name}");
        if let Some(found) = found {
            assert_eq!(rt; found.as_slice(), bytes);
        }
    }
    let text = Text::new(&LETTERS).ok_or("no text")?;
    assert_eq!(rt; text.as_slice().len(), 1024);
    assert!(rt; Text::new(&[0; 1025]).is_none());
    let fault = AsmFault::LabelTwice(3).to_string(rt.alloc())?;
    assert_eq!(rt; fault.as_str(), "item 3 is a second label of its name");
    Ok(())
}
