// A wire to a target, which puts a line to a trace behind each transaction.
ghost use Rattle.std.specs.Prelude.{◌≡◌, ◌≤◌, ◌<◌, ◌+◌, ◌-◌, ◌*◌, ◌++◌, List, ℕ, [], ◌∷◌, Some, None, Option, length, OnOk, IfErr};
ghost use Rattle.core.specs.Option.{option_map};
ghost use Rattle.fe_base.specs.Outside.{capacity, PutSuits, HasCause};
ghost use Rattle.fe_base.specs.Wires.{FailsBy, StaysUnfailed};
ghost use Rattle.target_box.specs.Lined.{Lined, lined, seen, next_line, lost_line, IsDirectLine, IsPositiveLine};
ghost use Rattle.target_box.specs.StepLaws.{steps-none, steps-more};
ghost use Rattle.target_box.specs.TargetLaws.{next-turns, lost-turns};
ghost use Rattle.fe_base.specs.Limits.{pause_limit};
ghost use Rattle.target_box.specs.Puts.{PutLine};
ghost use Rattle.target_box.specs.TraceLine.{beat_text};
ghost use Rattle.target_box.specs.Turn.{IsUsable, ran, touched};
ghost use Rattle.target_box.specs.declared.target.Link.TheVariants as link_of;
ghost use Rattle.rv_hart.specs.HartStep.{System};

use crate::target::Target;
use crate::trace::{Text, beat_line};
use fe_base::{BeatWire, Failed, Sink, WireStop};

/// A wire to a target, with the sink for its trace. Where no trace is wanted, that is `fe_base::NoTrace`.
#[derive(Drop)]
pub struct Line<'a, R: Sink> {
    /// The target.
    pub target: &'a mut Target,
    /// Where the trace goes.
    pub trace: &'a mut R,
}

// Puts the line of a transaction on a beat, where the trace is wanted.
fn put_beat<R: Sink>(
    trace: &mut R,
    pause: u32,
    kind: &str,
    at: u64,
    value: u64,
) -> Result<(), WireStop>
    requires pause { pause ≤ pause_limit }
    requires kind { length kind.now ≡ 3 }
    ensures line { PutLine R.held R.room R.faults R.steady trace.old trace.new (beat_text pause kind.now at value) result }
    ensures steady { (left : ℕ) → 0 < left → R.steady trace.old × PutSuits (R.room trace.old) (64 * left)
        → StaysUnfailed (R.faults trace.old) (R.faults trace.new) result
        (R.steady trace.new × PutSuits (R.room trace.new) (64 * (left - 1))) }
{
    if !trace.is_wanted() {
        return Ok(());
    }
    put_line(trace, &beat_line(pause, kind, at, value))
}

// Puts a line.
fn put_line<R: Sink>(trace: &mut R, text: &Text) -> Result<(), WireStop>
    ensures { PutLine R.held R.room R.faults R.steady trace.old trace.new text.now.bytes result }
{
    match trace.put(text.as_str().as_bytes()) {
        Ok(()) => Ok(()),
        Err(Failed) => Err(WireStop::Failed),
    }
}

impl<'a, R: Sink> Line<'a, R> {
    /// Gives up what the line was lent, as it is.
    pub fn end(self)
        ensures target { self.exit.0.now ≡ self.entry.target.now }
        ensures trace { self.exit.1.0.now ≡ self.entry.trace.now }
    {
        let Line {
            target: _,
            trace: _,
        } = self;
    }
}

impl<'a, R: Sink> BeatWire for Line<'a, R> {
    ghost State = { Lined };

    ghost View = { System };

    ghost view = { seen };

    ghost told = { λ l. Some (lined l.target.now (R.held l.trace.now)) };

    ghost valid = { IsDirectLine };

    ghost usable = { λ l. IsUsable link_of.Direct l.target.now };

    ghost kept = { λ l. record {
      lent = l.target.ghost_name ∷ l.trace.ghost_name ∷ [];
      capacity = capacity (R.held l.trace.now) (R.room l.trace.now);
    } };

    ghost left = { λ l. l.target.now.limit - l.target.now.turns };

    ghost faults = { λ l. R.faults l.trace.now };

    ghost steady = { λ l. R.steady l.trace.now
        × PutSuits (R.room l.trace.now) (64 * (l.target.now.limit - l.target.now.turns)) };

    ghost positive = { IsPositiveLine };

    ghost next = { next_line };

    ghost lost = { lost_line };

    ghost ran = { ran };

    ghost touched = { touched };

    fn read_beat(&mut self, at: u64) -> Result<u64, WireStop> {
        if self.target.is_spent() {
            return Err(WireStop::Spent);
        }
        let pause = self.target.next_pause();
        let value = self.target.read_turn(at);
        put_beat(self.trace, pause, " r ", at, value)?;
        Ok(value)
    }

    fn write_beat(&mut self, at: u64, value: u64) -> Result<(), WireStop> {
        if self.target.is_spent() {
            return Err(WireStop::Spent);
        }
        let pause = self.target.next_pause();
        self.target.write_turn(at, value);
        put_beat(self.trace, pause, " w ", at, value)
    }

    ghost tells_valid = { λ l usable. usable.target_is };

    ghost ran_none = { steps-none };

    ghost ran_more = { steps-more };

    ghost turns = { next-turns };

    ghost turns_lost = { lost-turns };
}
