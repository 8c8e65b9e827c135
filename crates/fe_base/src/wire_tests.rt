ghost use Rattle.std.specs.Prelude.{◌≡◌, ◌<◌, ◌^◌, ℕ, [], None, Some};
ghost use Rattle.std.proofs.Common.{refl, ◌∙◌};
ghost use Rattle.fe_base.specs.Wires.{Lowers, FailsBy, StaysUnfailed};
ghost use Rattle.fe_base.specs.DebugModule.{Free, reset_module};
ghost use Rattle.fe_base.specs.SampleWires.{one_turn, one_touched, one_ran, one-turns, one_word, one_reached};
ghost use Rattle.fe_base.specs.SampleWires.{one-words};
ghost use Rattle.fe_base.specs.Transfers.{Transfers};

use super::*;

// A wire to a memory in which each address names the same doubleword, beside a hart that does nothing. It fails at the
// transaction before which `cut` are left; that one is made all the same.
#[derive(Drop)]
struct OneDoubleword {
    value: u64,
    left: u64,
    cut: u64,
    faults: u64,
}

impl OneDoubleword {
    // Makes a transaction, whose reply may be lost.
    fn turn(&mut self) -> Result<(), WireStop>
        ensures value { self.new.value ≡ self.old.value }
        ensures left { Lowers self.old.left self.new.left result }
        ensures cause { FailsBy self.old.faults self.new.faults result }
        ensures steady { self.old.left < self.old.cut
            → StaysUnfailed self.old.faults self.new.faults result (self.new.left < self.new.cut) }
    {
        let cut = self.left == self.cut;
        self.left = self.left.checked_sub(1).ok_or(WireStop::Spent)?;
        if cut {
            self.faults = self.faults.saturating_add(1);
            return Err(WireStop::Failed);
        }
        Ok(())
    }
}

impl BeatWire for OneDoubleword {
    ghost State = { ℕ };

    ghost View = { ℕ };

    ghost view = { λ s. s };

    ghost told = { λ w. Some w.value };

    ghost valid = { λ s. s < 2 ^ 64 };

    ghost usable = { λ w. w.value < 2 ^ 64 };

    ghost kept = { λ _. record { lent = []; capacity = None } };

    ghost left = { λ w. w.left };

    ghost faults = { λ w. w.faults };

    ghost steady = { λ w. w.left < w.cut };

    ghost positive = { λ _. Unit {0} };

    ghost next = { one_turn };

    ghost lost = { one_turn };

    ghost ran = { one_ran };

    ghost touched = { one_touched };

    fn read_beat(&mut self, _at: u64) -> Result<u64, WireStop> {
        self.turn()?;
        Ok(self.value)
    }

    fn write_beat(&mut self, _at: u64, value: u64) -> Result<(), WireStop> {
        match self.turn() {
            Err(WireStop::Spent) => Err(WireStop::Spent),
            answer => {
                self.value = value;
                answer
            }
        }
    }

    ghost tells_valid = { λ w u. u };

    ghost ran_none = { λ v. refl };

    ghost ran_more = { λ a b c m n p q. q ∙ p };

    ghost turns = { one-turns };

    ghost turns_lost = { one-turns };
}

// Wires to nothing: one that owes no word, and one whose debug module reads 0. They tell nothing.
#[derive(Drop)]
struct Nowhere {
    left: u64,
}

impl Nowhere {
    fn turn(&mut self) -> Result<(), WireStop>
        ensures left { Lowers self.old.left self.new.left result }
        ensures cause { FailsBy 0 0 result }
        ensures steady { StaysUnfailed 0 0 result (Unit {0}) }
    {
        self.left = self.left.checked_sub(1).ok_or(WireStop::Spent)?;
        Ok(())
    }
}

impl WordWire for Nowhere {
    ghost State = { Transfers × ℕ };

    ghost View = { ℕ };

    ghost view = { λ s. s.1 };

    ghost told = { λ _. None };

    ghost valid = { λ _. Unit {0} };

    ghost usable = { λ _. Unit {0} };

    ghost kept = { λ _. record { lent = []; capacity = None } };

    ghost left = { λ w. w.left };

    ghost faults = { λ _. 0 };

    ghost steady = { λ _. Unit {0} };

    ghost positive = { λ _. Unit {0} };

    ghost transfers = { λ s. s.0 };

    ghost next = { one_word };

    ghost lost = { one_word };

    ghost ran = { one_ran };

    ghost touched = { one_reached };

    fn send(&mut self, _word: u32) -> Result<(), WireStop> {
        self.turn()
    }

    fn get(&mut self) -> Result<Option<u32>, WireStop> {
        self.turn()?;
        Ok(None)
    }

    ghost tells_valid = { λ w u. tt };

    ghost ran_none = { λ v. refl };

    ghost ran_more = { λ a b c m n p q. q ∙ p };

    ghost turns = { one-words };

    ghost turns_lost = { one-words };
}

impl DmiWire for Nowhere {
    ghost State = { ℕ };

    ghost View = { ℕ };

    ghost Rest = { ℕ };

    ghost resumed = { λ registers rest. rest };

    ghost told = { λ _. None };

    ghost valid = { λ _. ⊥ };

    ghost usable = { λ _. Unit {0} };

    ghost kept = { λ _. record { lent = []; capacity = None } };

    ghost left = { λ w. w.left };

    ghost faults = { λ _. 0 };

    ghost steady = { λ _. Unit {0} };

    ghost positive = { λ _. Unit {0} };

    ghost raised = { λ _ error. 0 };

    ghost module_of = { λ _. reset_module };

    ghost side = { λ s. Free s };

    ghost next = { λ s _. (s, 0) };

    ghost lost = { λ s _. (s, 0) };

    ghost ran = { one_ran };

    ghost touched = { one_reached };

    fn access(&mut self, _op: DmiOp, _address: u8, _value: u32) -> Result<u32, WireStop> {
        self.turn()?;
        Ok(0)
    }

    ghost tells_valid = { λ w u. tt };

    ghost module_fits = { λ s ok. absurd ok };

    ghost side_fits = { λ s ok. absurd ok };

    ghost ran_none = { λ v. refl };

    ghost ran_more = { λ a b c m n p q. q ∙ p };

    ghost turns = { λ s ask ok here. absurd ok };

    ghost turns_lost = { λ s ask ok here. absurd ok };
}

// Reads, writes and reads over any wire.
fn write_and_read<W: BeatWire>(wire: &mut W) -> Result<(u64, u64), WireStop>
    requires { W.usable wire.old }
{
    let first = wire.read_beat(0x1_0000)?;
    wire.write_beat(0x1_0000, 7)?;
    let second = wire.read_beat(0x1_0000)?;
    Ok((first, second))
}

#[test]
fn a_wire_fails_where_it_is_cut(rt: HostRuntime) {
    let rows = [
        (3, 9, Ok((5, 7))),
        (2, 9, Err(WireStop::Spent)),
        (3, 2, Err(WireStop::Failed)),
    ];
    for (left, cut, want) in rows {
        let mut wire = OneDoubleword {
            value: 5,
            left,
            cut,
            faults: 0,
        };
        assert_eq!(rt; write_and_read(&mut wire), want, "of {left} with {cut}");
        assert_eq!(rt; wire.value, 7);
    }
}

#[test]
fn wires_to_nothing_are_spent(rt: HostRuntime) {
    let mut wire = Nowhere { left: 3 };
    assert_eq!(rt; wire.send(1), Ok(()));
    assert_eq!(rt; wire.get(), Ok(None));
    assert_eq!(rt; wire.access(DmiOp::Read, 0x11, 0), Ok(0));
    assert_eq!(rt; wire.access(DmiOp::Nop, 0, 0), Err(WireStop::Spent));
    assert_eq!(rt; wire.get(), Err(WireStop::Spent));
}

#[test]
fn pauses_of_lists_and_seeds(rt: HostRuntime) {
    assert!(rt; Pauses::list(&[]).is_none());
    assert!(rt; Pauses::list(&[0; 65]).is_none());
    assert!(rt; Pauses::list(&[1_000_001]).is_none());
    assert!(rt; Pauses::list(&[1_000_000; 64]).is_some());
    let Some(list) = Pauses::list(&[1, 0, 7]) else {
        return;
    };
    let shuffle = Pauses::shuffle(0);
    for (turn, listed, shuffled) in [(0, 1, 1), (1, 0, 3), (2, 7, 6), (3, 1, 1)] {
        assert_eq!(rt; list.at(turn), listed);
        assert_eq!(rt; shuffle.at(turn), shuffled);
    }
}

#[test]
fn fields_of_host_words(rt: HostRuntime) {
    let word = ToHost(0x0102_0000_0000_0041);
    assert_eq!(rt;
        (word.device(), word.command(), word.payload()),
        (1, 2, 0x41)
    );
    assert_eq!(rt; from_host(1, 2, 0x141), 0x0102_0000_0000_0141);
}
