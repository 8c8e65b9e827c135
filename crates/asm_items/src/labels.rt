// Where the labels of a list of items stand.
ghost use Rattle.std.specs.Prelude.{◌≡◌, ◌<◌, ◌≤◌, ◌*◌, ◌+◌, ◌^◌, List, ℕ, IfOk, OnOk, OnErr, Some, None};
ghost use Rattle.std.specs.Prelude.{if◌then◌else◌};
ghost use Rattle.std.specs.Option.{option_or};
ghost use Rattle.asm_items.specs.LabelMap.{look_up};
ghost use Rattle.asm_items.specs.ItemMeaning.{is_label, labels_of, total_words, words_of};

use crate::item::Item;
use std::alloc::{AllocError, Global};
use std::collections::BTreeMap;

/// The index of a label among the items, and its place: how many words stand before it.
pub type Spot = (u64, u64);

/// The first label of each name.
#[derive(Drop)]
pub struct Labels<'a> {
    spots: BTreeMap<&'a [u8], Spot>,
}

impl<'a> Labels<'a> {
    /// The first label of each name among the items.
    pub fn of(alloc: Global, items: &'a [Item]) -> Result<Labels<'a>, AllocError>
        requires { total_words items.now < 2 ^ 64 }
        ensures { IfOk result (λ labels. (name : List ℕ) → look_up labels name ≡ labels_of items.now name) }
    {
        let mut labels = Labels {
            spots: BTreeMap::new(alloc),
        };
        let mut index = 0;
        let mut place = 0;
        for item in items {
            labels.note(item, (index, place))?;
            index += 1;
            place += words_in(item);
        }
        Ok(labels)
    }

    // Keeps where the item stands, if it is the first label of its name.
    fn note(&mut self, item: &'a Item, spot: Spot) -> Result<(), AllocError>
        ensures { OnOk result ((name : List ℕ) → look_up self.new name
            ≡ option_or (look_up self.old name) (if is_label name item.now then Some spot else None)) }
    {
        if let Item::Label(name) = item {
            let name = name.as_slice();
            if !self.spots.contains_key(name) {
                self.spots.insert(name, spot)?;
            }
        }
        Ok(())
    }

    /// The first label of this name.
    pub fn find(&self, name: &[u8]) -> Option<Spot>
        ensures { result ≡ look_up self.now name.now }
    {
        self.spots.get(name).copied()
    }
}

/// How many words of four bytes the item takes.
pub fn words_in(item: &Item) -> u64
    ensures value { result ≡ words_of item.now }
    ensures bound { result < 2 ^ 62 }
{
    match item {
        Item::Plain(_) | Item::Branch(..) | Item::Jump(..) => 1,
        Item::Address(..) | Item::Dword(_) => 2,
        Item::Label(_) => 0,
        Item::Ascii(text) => (text.as_slice().len() as u64).div_ceil(4),
    }
}
