// A small target behind the word link, and a wire to it: one doubleword that every mapped address names, beside a hart
// that does nothing. The wire tells the words of the transfer so far, the words that are owed, and the doubleword.
ghost use Rattle.std.specs.Prelude.{◌≡◌, ◌+◌, ◌-◌, ◌<◌, ◌≤◌, ℕ, Some, None, [], length};
ghost use Rattle.std.proofs.Common.{refl, ◌∙◌};
ghost use Rattle.fe_base.specs.Transfers as spec;
ghost use Rattle.fe_base.specs.Transfers.{Transfers, SendWord, GetWord};
ghost use Rattle.fe_base.specs.SampleWires as sample;
ghost use Rattle.fe_base.specs.SampleWires.{one_word, one_ran, one_reached, one-words};
ghost use Rattle.fe_base.specs.Wires.{Lowers, FailsBy, StaysUnfailed};

use super::*;
use crate::memory_map::is_beat;
use arrayvec::ArrayVec;
use std::marker::Model;

// The most words that a wire of these tests sends.
const ROOM: usize = 64;

// The words of the transfer so far; whether words are owed, how many more than one, the first one's address, and the
// high word where its doubleword was loaded; the doubleword.
#[derive(Drop)]
struct Link {
    sent: ArrayVec<u32, ROOM>,
    owes: bool,
    more: u64,
    at: u64,
    high: Option<u32>,
    value: u64,
}

impl Model for Link {
    ghost use Rattle.std.specs.Prelude.{ℕ};
    ghost use Rattle.fe_base.specs.Transfers.{Transfers};
    ghost use Rattle.fe_base.specs.SampleWires.{owed_from};

    ghost Value = { Transfers × ℕ };

    ghost view = { λ l. (record { sent = l.sent.items; owed = owed_from l.owes l.more l.at l.high }, l.value) };
}

fn joined(low: u32, high: u32) -> u64
    ensures { result ≡ spec.joined low high }
{
    u64::from(low) + u64::from(high) * 0x1_0000_0000
}

fn word_place(at: u64, index: u64) -> u64
    requires { index ≤ 64 }
    ensures { result ≡ spec.word_place at index }
{
    (at - at % 4).wrapping_add(4 * index)
}

impl Link {
    // No transfer is under way, and no word is owed.
    fn new(value: u64) -> Link
        ensures { result ≡ (spec.no_transfers, value) }
    {
        Link {
            sent: ArrayVec::new(),
            owes: false,
            more: 0,
            at: 0,
            high: None,
            value,
        }
    }

    // The last word of a transfer's beginning. A read's words are owed then.
    #[tactic(auto, using(crate::proofs::SentWords::fifth_word))]
    fn begin(&mut self, many: u32)
        requires four { length self.old.0.sent ≡ 4 }
        requires none { self.old.0.owed ≡ spec.nothing_owed }
        ensures step { (self.new, None) ≡ sample.one_worded (spec.send_step self.old.0.sent many) self.old.1 }
        ensures room { length self.new.0.sent ≤ length self.old.0.sent + 1 }
    {
        if self.sent[0] != 0 {
            self.sent.push(many);
            return;
        }
        self.owes = true;
        self.more = joined(self.sent[3], many);
        self.at = word_place(joined(self.sent[1], self.sent[2]), 0);
        self.high = None;
        self.sent.clear();
    }

    // Stores a data word, the last one of its transfer or not, at its address. Before it came so many data words, and
    // this word.
    fn store(&mut self, at: u64, before: usize, low: u32, word: u32, last: bool)
        ensures { self.new ≡ (self.old.0, sample.data_stored at before low word last self.old.1) }
    {
        if at % 8 == 4 {
            if is_beat(at - 4) {
                self.value = if before == 0 {
                    self.value % 0x1_0000_0000 + u64::from(word) * 0x1_0000_0000
                } else {
                    joined(low, word)
                };
            }
        } else if last && is_beat(at) {
            self.value = self.value - self.value % 0x1_0000_0000 + u64::from(word);
        }
    }

    // A data word of a write.
    #[tactic(auto, using(crate::proofs::SentWords::data_word))]
    fn data(&mut self, word: u32)
        requires some { 4 < length self.old.0.sent }
        requires room { length self.old.0.sent < 64 }
        requires none { self.old.0.owed ≡ spec.nothing_owed }
        ensures step { (self.new, None) ≡ sample.one_worded (spec.send_step self.old.0.sent word) self.old.1 }
        ensures room { length self.new.0.sent ≤ length self.old.0.sent + 1 }
    {
        let before = self.sent.len() - 5;
        let at = word_place(joined(self.sent[1], self.sent[2]), before as u64);
        let last = before as u64 == joined(self.sent[3], self.sent[4]);
        let low = self.sent[before + 4];
        self.store(at, before, low, word, last);
        if last {
            self.sent.clear();
        } else {
            self.sent.push(word);
        }
    }

    #[tactic(auto, unfolding(crate::specs::Transfers::word_step), using(crate::proofs::SentWords::first_words))]
    fn send(&mut self, word: u32)
        requires room { length self.old.0.sent < 64 }
        ensures step { (self.new, None) ≡ one_word self.old (SendWord word) }
        ensures room { length self.new.0.sent ≤ length self.old.0.sent + 1 }
    {
        if self.owes {
            return;
        }
        match self.sent.len() {
            0 if word > 1 => (),
            0..=3 => self.sent.push(word),
            4 => self.begin(word),
            _ => self.data(word),
        }
    }

    // The first word that is owed is got, and its doubleword's high word is kept, or none.
    fn pass(&mut self, high: Option<u32>)
        requires { 0 < self.old.0.owed.count }
        ensures { self.new ≡ (spec.transfers_behind self.old.0 high, self.old.1) }
    {
        self.owes = self.more != 0;
        self.at = word_place(self.at, 1);
        self.more = self.more.saturating_sub(1);
        self.high = high;
    }

    #[tactic(auto, unfolding(crate::specs::Transfers::word_step))]
    fn get(&mut self) -> Option<u32>
        ensures step { (self.new, result) ≡ one_word self.old GetWord }
        ensures sent { self.new.0.sent ≡ self.old.0.sent }
    {
        if !self.owes {
            return None;
        }
        if let Some(word) = self.high {
            self.pass(None);
            return Some(word);
        }
        if !is_beat(self.at - self.at % 8) {
            self.pass(None);
            return Some(0);
        }
        let low = (self.value % 0x1_0000_0000) as u32;
        let high = (self.value / 0x1_0000_0000) as u32;
        if self.at % 8 == 0 {
            self.pass(Some(high));
            return Some(low);
        }
        self.pass(None);
        Some(high)
    }
}

// A wire to the target, with so many transactions. It fails at the transaction before which `cut` are left; that one is
// made all the same.
#[derive(Drop)]
struct LinkWire {
    link: Link,
    left: u64,
    cut: u64,
    faults: u64,
}

impl LinkWire {
    // Makes a transaction, whose reply may be lost.
    fn turn(&mut self) -> Result<(), WireStop>
        ensures link { self.new.link ≡ self.old.link }
        ensures left { Lowers self.old.left self.new.left result }
        ensures cause { FailsBy self.old.faults self.new.faults result }
        ensures steady { self.old.left < self.old.cut
            → StaysUnfailed self.old.faults self.new.faults result (self.new.left < self.new.cut) }
    {
        let cut = self.left == self.cut;
        self.left = self.left.checked_sub(1).ok_or(WireStop::Spent)?;
        if cut {
            self.faults = self.faults.saturating_add(1);
            return Err(WireStop::Failed);
        }
        Ok(())
    }
}

impl WordWire for LinkWire {
    ghost State = { Transfers × ℕ };

    ghost View = { ℕ };

    ghost view = { λ s. s.1 };

    ghost told = { λ w. Some w.link };

    ghost valid = { λ _. Unit {0} };

    ghost usable = { λ w. length w.link.0.sent + w.left ≤ 64 };

    ghost kept = { λ _. record { lent = []; capacity = None } };

    ghost left = { λ w. w.left };

    ghost faults = { λ w. w.faults };

    ghost steady = { λ w. w.left < w.cut };

    ghost positive = { λ _. Unit {0} };

    ghost transfers = { λ s. s.0 };

    ghost next = { one_word };

    ghost lost = { one_word };

    ghost ran = { one_ran };

    ghost touched = { one_reached };

    fn send(&mut self, word: u32) -> Result<(), WireStop> {
        match self.turn() {
            Err(WireStop::Spent) => Err(WireStop::Spent),
            answer => {
                self.link.send(word);
                answer
            }
        }
    }

    fn get(&mut self) -> Result<Option<u32>, WireStop> {
        match self.turn() {
            Err(WireStop::Spent) => Err(WireStop::Spent),
            Err(WireStop::Failed) => {
                self.link.get();
                Err(WireStop::Failed)
            }
            Ok(()) => Ok(self.link.get()),
        }
    }

    ghost tells_valid = { λ w u. tt };

    ghost ran_none = { λ v. refl };

    ghost ran_more = { λ a b c m n p q. q ∙ p };

    ghost turns = { one-words };

    ghost turns_lost = { one-words };
}

// Sends these words.
fn send_all<W: WordWire>(wire: &mut W, words: &[u32]) -> Result<(), WireStop>
    requires { W.usable wire.old }
    ensures { W.usable wire.new }
{
    for word in words {
        wire.send(*word)?;
    }
    Ok(())
}

// How many of the words that are got are not the wanted ones.
fn wrong_words<W: WordWire>(wire: &mut W, wanted: &[Option<u32>]) -> Result<usize, WireStop>
    requires { W.usable wire.old }
    ensures { W.usable wire.new }
{
    let mut wrong = wanted.len();
    for word in wanted {
        if wire.get()? == *word {
            wrong = wrong.saturating_sub(1);
        }
    }
    Ok(wrong)
}

// At 0x10000 there is 0x11223344_55667788, and at 0 nothing.
fn wire_of(left: u64, cut: u64) -> LinkWire
    requires { left ≤ 64 }
    ensures { ⟦<LinkWire as WordWire>⟧.usable result }
{
    LinkWire {
        link: Link::new(0x1122_3344_5566_7788),
        left,
        cut,
        faults: 0,
    }
}

// Rows of words, and the doubleword afterwards: two words; a high word alone; a low word alone, at an address whose low
// bits count for nothing; a low word that waits for the high one; three words from a high one on; words to nothing.
#[test]
fn words_are_written(rt: HostRuntime) {
    let rows: [(&[u32], u64); 6] = [
        (&[1, 0x1_0000, 0, 1, 0, 0x99, 0x88], 0x0000_0088_0000_0099),
        (&[1, 0x1_0004, 0, 0, 0, 0x99], 0x0000_0099_5566_7788),
        (&[1, 0x1_0003, 0, 0, 0, 0x99], 0x1122_3344_0000_0099),
        (&[1, 0x1_0000, 0, 1, 0, 0x99], 0x1122_3344_5566_7788),
        (
            &[1, 0x1_0004, 0, 2, 0, 0x99, 0x88, 0x77],
            0x0000_0077_0000_0088,
        ),
        (&[1, 0, 0, 1, 0, 0x99, 0x88], 0x1122_3344_5566_7788),
    ];
    for (words, value) in rows {
        let mut wire = wire_of(64, 65);
        assert_eq!(rt; send_all(&mut wire, words), Ok(()));
        assert_eq!(rt; wire.link.value, value);
    }
}

// Rows of words that are sent, and of those that are got then: a high word; both words of a doubleword; words of
// nothing; a word behind one that begins nothing; a word while two more were sent, which are dropped.
#[test]
fn words_are_read(rt: HostRuntime) {
    let low = Some(0x5566_7788);
    let high = Some(0x1122_3344);
    let rows: [(&[u32], &[Option<u32>]); 5] = [
        (&[0, 0x1_0004, 0, 0, 0], &[high, None]),
        (&[0, 0x1_0000, 0, 1, 0], &[low, high, None]),
        (&[0, 0, 0, 1, 0], &[Some(0), Some(0), None]),
        (&[2, 0, 0x1_0000, 0, 0, 0], &[low, None]),
        (&[0, 0x1_0000, 0, 0, 0, 1, 0x1_0000], &[low, None]),
    ];
    for (words, wanted) in rows {
        let mut wire = wire_of(64, 65);
        assert_eq!(rt; send_all(&mut wire, words), Ok(()));
        assert_eq!(rt; wrong_words(&mut wire, wanted), Ok(0));
        assert_eq!(rt; send_all(&mut wire, &[0, 0x1_0004, 0, 0, 0]), Ok(()));
        assert_eq!(rt; wrong_words(&mut wire, &[high]), Ok(0));
    }
}

// The doubleword is loaded for its low word, and what comes between does not change the high one.
#[test]
fn both_words_come_of_one_load(rt: HostRuntime) {
    let mut wire = wire_of(8, 9);
    assert_eq!(rt; send_all(&mut wire, &[0, 0x1_0000, 0, 1, 0]), Ok(()));
    assert_eq!(rt; wire.get(), Ok(Some(0x5566_7788)));
    wire.link.value = 0;
    assert_eq!(rt; wire.get(), Ok(Some(0x1122_3344)));
    assert_eq!(rt; wire.get(), Ok(None));
    assert_eq!(rt; wire.get(), Err(WireStop::Spent));
}

// The last word is stored though its reply is lost; no more words are sent where none are left.
#[test]
fn a_word_is_lost(rt: HostRuntime) {
    let words = [1, 0x1_0004, 0, 0, 0, 0x99];
    let mut wire = wire_of(6, 1);
    assert_eq!(rt; send_all(&mut wire, &words), Err(WireStop::Failed));
    assert_eq!(rt; wire.link.value, 0x0000_0099_5566_7788);
    assert_eq!(rt; wire.faults, 1);
    let mut wire = wire_of(5, 9);
    assert_eq!(rt; send_all(&mut wire, &words), Err(WireStop::Spent));
    assert_eq!(rt; wire.link.value, 0x1122_3344_5566_7788);
}
