// Reading a whole text.
ghost use Rattle.std.specs.Prelude.{◌≡◌, ◌≤◌, ◌+◌, ◌*◌, length, All, Ok, IfOk, MatchResult};
ghost use Rattle.asm_items.specs.ItemMeaning.{total_words};
ghost use Rattle.asm_items.specs.Printable.{IsPrintable};
ghost use Rattle.asm_text.specs.FirstFault.{IsFaultless, IsFirstFault};
ghost use Rattle.asm_text.specs.Reading.{line_item};
ghost use Rattle.asm_text.specs.Texts.{Puts, Refuses, text_items};

use crate::fault::TextFault;
use crate::lines::Lines;
use crate::reading::read_line;
use asm_items::Items;
use asm_table::cut;
use std::alloc::Global;

/// The items of a text, with the line of each.
#[derive(Drop)]
pub struct AsmText {
    pub items: Items,
    pub lines: Lines,
}

#[tactic(auto, using(crate::proofs::TextWalk::with_front_one))]
fn put(found: &mut AsmText, line: u64, text: &[u8]) -> Result<(), TextFault>
    ensures { Puts found.old.items found.old.lines found.new.items found.new.lines line (line_item text.now) result }
{
    match read_line(text) {
        Err(kind) => Err(TextFault::At { line, kind }),
        Ok(None) => Ok(()),
        Ok(Some(item)) => {
            if found.items.push(item).is_err() || found.lines.push(line).is_err() {
                return Err(TextFault::OutOfMemory);
            }
            Ok(())
        }
    }
}

/// The items of the text, each with the number of its line; or the text's first fault. Any bytes are a
/// text. Lines are counted from 1, and a line gives one item or none.
pub fn read_asm(alloc: Global, text: &[u8]) -> Result<AsmText, TextFault>
    ensures read { MatchResult result (λ found. text_items text.now ≡ Ok (found.items, found.lines))
        (λ fault. Refuses fault (text_items text.now)) }
    ensures order { MatchResult result (λ found. IsFaultless text.now) (λ fault. IsFirstFault fault text.now) }
    ensures paired { IfOk result (λ found. length found.lines ≡ length found.items) }
    ensures printable { IfOk result (λ found. All IsPrintable found.items) }
    ensures size { IfOk result (λ found. total_words found.items ≤ 256 * (length text.now + 1)) }
{
    let mut found = AsmText {
        items: Items::new(alloc),
        lines: Lines::new(alloc),
    };
    let mut line = 1;
    let mut rest = Some(text);
    while let Some(behind) = rest {
        let (first, more) = cut(behind, b'\n');
        if let Err(fault) = put(&mut found, line, first) {
            return Err(fault);
        }
        line += 1;
        rest = more;
    }
    Ok(found)
}
