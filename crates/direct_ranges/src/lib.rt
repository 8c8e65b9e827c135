// Ranges of a target's memory, moved over a line to it that is made anew for each range.
//
// `read_range` and `write_range` make a line over the target and the trace's sink, a port over the line, and guest memory over
// the port, move one range, and give everything back: afterwards the target and the trace are known, as the transactions of
// the range leave them (`chunk_memory/specs/Transactions`), and so is what is seen of the target, by the accesses that spell
// the range (`chunk_memory/specs/Spelling`). So a struct may keep a target as a field and lend it for each range.
//
// `laws` says that the transactions of a range are one list of a trace's lines (`specs/RangeLines`); lists behind one
// another are one list (`target_box::laws::lines_join`).
//
// Nothing here takes memory.
#![tactic(auto)]

ghost use Rattle.std.specs.Prelude.{◌≡◌, ◌≤◌, ◌+◌, ◌-◌, ◌*◌, ◌/◌, ℕ, length, IsErrOf, IsOk};
ghost use Rattle.std.specs.Result.{result_err};
ghost use Rattle.fe_base.specs.Outside.{capacity, PutSuits};
ghost use Rattle.fe_base.specs.PausePlan.{IsPositive};
ghost use Rattle.fe_base.specs.Wires.{OnTold};
ghost use Rattle.chunk_memory.specs.BeatChunks.{DirectOne, DirectRefused, wire_counts};
ghost use Rattle.chunk_memory.specs.Ports.{CostsAtMost, Maps, MemCauses, MemTakes, MemUnfaulted, with_bytes};
ghost use Rattle.chunk_memory.specs.Reached.{Reached};
ghost use Rattle.chunk_memory.specs.Spelling.{ReadSpelled, WriteSpelled};
ghost use Rattle.chunk_memory.specs.Transactions.{ReadsRange, WritesRange};
ghost use Rattle.chunk_memory.specs.Turns.{doublewords_met, open_ends, read_turns, write_turns};
ghost use Rattle.target_box.specs.Lined.{lined, seen, next_line, lost_line, IsPositiveLine};
ghost use Rattle.target_box.specs.Turn.{IsUsable, ran, touched};
ghost use Rattle.target_box.specs.declared.target.Link.TheVariants as link_of;

pub mod laws;
#[cfg(test)]
mod tests;

use chunk_memory::{Chunked, DirectPort, MemStop};
use fe_base::{BeatWire, Sink};
use target_box::{Line, Target};

/// Reads a range over a wire, which is given back. The outcome is left in `outcome`.
pub fn read_over<W: BeatWire>(
    wire: W,
    at: u64,
    into: &mut [u8],
    outcome: &mut Result<(), MemStop>,
) -> W
    requires { W.usable wire }
    ensures usable { W.usable result }
    ensures kept { W.kept result ≡ W.kept wire }
    ensures maps { Maps at (length into.old) (result_err outcome.new) }
    ensures causes { MemCauses (wire_counts (W.left wire) (W.faults wire))
        (wire_counts (W.left result) (W.faults result)) (result_err outcome.new) }
    ensures steady { W.steady wire → MemUnfaulted (wire_counts (W.left wire) (W.faults wire))
        (wire_counts (W.left result) (W.faults result)) (result_err outcome.new) (W.steady result) }
    ensures told { OnTold (W.told wire) (W.told result)
        (ReadsRange (DirectOne W.next) (DirectRefused W.next W.lost) 8 1024 at (length into.old)
        (with_bytes outcome.new into.new)) }
    ensures reached { OnTold (W.told wire) (W.told result)
        (ReadSpelled W.view (λ s v. W.view s ≡ v) (λ _. Unit {0}) W.positive W.ran (Reached W.ran W.touched) 8 at
        (length into.old) (with_bytes outcome.new into.new)) }
    ensures turns { CostsAtMost (W.told wire) (λ _. Unit {0}) W.positive (wire_counts (W.left wire) (W.faults wire))
        (wire_counts (W.left result) (W.faults result)) (read_turns (λ count. count / 8) 8 1024 at (length into.old)) }
    ensures takes { MemTakes (read_turns (λ count. count / 8) 8 1024 at (length into.old))
        (wire_counts (W.left wire) (W.faults wire)) (wire_counts (W.left result) (W.faults result))
        (result_err outcome.new) }
    ensures unmapped { (place : ℕ) → IsErrOf outcome.new (MemStop.Unmapped place) → result ≡ wire }
    ensures empty { length into.old ≡ 0 → result ≡ wire }
    ensures empty_done { length into.old ≡ 0 → IsOk outcome.new }
{
    let mut memory = Chunked::over(DirectPort::over(wire));
    *outcome = memory.read(at, into);
    memory.into_port().into_wire()
}

/// Writes a range over a wire, which is given back. The outcome is left in `outcome`.
pub fn write_over<W: BeatWire>(
    wire: W,
    at: u64,
    from: &[u8],
    outcome: &mut Result<(), MemStop>,
) -> W
    requires { W.usable wire }
    ensures usable { W.usable result }
    ensures kept { W.kept result ≡ W.kept wire }
    ensures maps { Maps at (length from.now) (result_err outcome.new) }
    ensures causes { MemCauses (wire_counts (W.left wire) (W.faults wire))
        (wire_counts (W.left result) (W.faults result)) (result_err outcome.new) }
    ensures steady { W.steady wire → MemUnfaulted (wire_counts (W.left wire) (W.faults wire))
        (wire_counts (W.left result) (W.faults result)) (result_err outcome.new) (W.steady result) }
    ensures told { OnTold (W.told wire) (W.told result)
        (WritesRange (DirectOne W.next) (DirectRefused W.next W.lost) 8 1024 at from.now outcome.new) }
    ensures reached { OnTold (W.told wire) (W.told result)
        (WriteSpelled W.view (λ s v. W.view s ≡ v) (λ _. Unit {0}) W.positive W.ran (Reached W.ran W.touched) 8 at from.now
        outcome.new) }
    ensures turns { CostsAtMost (W.told wire) (λ _. Unit {0}) W.positive (wire_counts (W.left wire) (W.faults wire))
        (wire_counts (W.left result) (W.faults result)) (write_turns (λ count. count / 8) 8 1024 at (length from.now)) }
    ensures takes { MemTakes (write_turns (λ count. count / 8) 8 1024 at (length from.now))
        (wire_counts (W.left wire) (W.faults wire)) (wire_counts (W.left result) (W.faults result))
        (result_err outcome.new) }
    ensures unmapped { (place : ℕ) → IsErrOf outcome.new (MemStop.Unmapped place) → result ≡ wire }
    ensures empty { length from.now ≡ 0 → result ≡ wire }
    ensures empty_done { length from.now ≡ 0 → IsOk outcome.new }
{
    let mut memory = Chunked::over(DirectPort::over(wire));
    *outcome = memory.write(at, from);
    memory.into_port().into_wire()
}

/// Reads a range of a target's memory by transactions, each with its line to the trace.
pub fn read_range<R: Sink>(
    target: &mut Target,
    trace: &mut R,
    at: u64,
    into: &mut [u8],
) -> Result<(), MemStop>
    requires { IsUsable link_of.Direct target.old }
    ensures usable { IsUsable link_of.Direct target.new }
    ensures capacity { capacity (R.held trace.new) (R.room trace.new) ≡ capacity (R.held trace.old) (R.room trace.old) }
    ensures maps { Maps at (length into.old) (result_err result) }
    ensures causes { MemCauses (wire_counts (target.old.limit - target.old.turns) (R.faults trace.old))
        (wire_counts (target.new.limit - target.new.turns) (R.faults trace.new)) (result_err result) }
    ensures steady { R.steady trace.old × PutSuits (R.room trace.old) (64 * (target.old.limit - target.old.turns))
        → MemUnfaulted (wire_counts (target.old.limit - target.old.turns) (R.faults trace.old))
        (wire_counts (target.new.limit - target.new.turns) (R.faults trace.new)) (result_err result)
        (R.steady trace.new × PutSuits (R.room trace.new) (64 * (target.new.limit - target.new.turns))) }
    ensures told { ReadsRange (DirectOne next_line) (DirectRefused next_line lost_line) 8 1024 at (length into.old)
        (with_bytes result into.new) (lined target.old (R.held trace.old)) (lined target.new (R.held trace.new)) }
    ensures reached { ReadSpelled seen (λ s v. seen s ≡ v) (λ _. Unit {0}) IsPositiveLine ran (Reached ran touched) 8 at
        (length into.old) (with_bytes result into.new) (lined target.old (R.held trace.old))
        (lined target.new (R.held trace.new)) }
    ensures turns { IsPositive target.old.pauses → target.old.limit - target.old.turns
        ≤ target.new.limit - target.new.turns + doublewords_met at (length into.old) }
    ensures takes { MemTakes (read_turns (λ count. count / 8) 8 1024 at (length into.old))
        (wire_counts (target.old.limit - target.old.turns) (R.faults trace.old))
        (wire_counts (target.new.limit - target.new.turns) (R.faults trace.new)) (result_err result) }
    ensures unmapped { (place : ℕ) → IsErrOf result (MemStop.Unmapped place)
        → (target.new ≡ target.old) × (trace.new ≡ trace.old) }
    ensures empty { length into.old ≡ 0 → (target.new ≡ target.old) × (trace.new ≡ trace.old) }
    ensures empty_done { length into.old ≡ 0 → IsOk result }
{
    let mut outcome = Ok(());
    let line = Line { target, trace };
    let line = read_over(line, at, into, &mut outcome);
    line.end();
    outcome
}

/// Writes a range of a target's memory by transactions, each with its line to the trace.
pub fn write_range<R: Sink>(
    target: &mut Target,
    trace: &mut R,
    at: u64,
    from: &[u8],
) -> Result<(), MemStop>
    requires { IsUsable link_of.Direct target.old }
    ensures usable { IsUsable link_of.Direct target.new }
    ensures capacity { capacity (R.held trace.new) (R.room trace.new) ≡ capacity (R.held trace.old) (R.room trace.old) }
    ensures maps { Maps at (length from.now) (result_err result) }
    ensures causes { MemCauses (wire_counts (target.old.limit - target.old.turns) (R.faults trace.old))
        (wire_counts (target.new.limit - target.new.turns) (R.faults trace.new)) (result_err result) }
    ensures steady { R.steady trace.old × PutSuits (R.room trace.old) (64 * (target.old.limit - target.old.turns))
        → MemUnfaulted (wire_counts (target.old.limit - target.old.turns) (R.faults trace.old))
        (wire_counts (target.new.limit - target.new.turns) (R.faults trace.new)) (result_err result)
        (R.steady trace.new × PutSuits (R.room trace.new) (64 * (target.new.limit - target.new.turns))) }
    ensures told { WritesRange (DirectOne next_line) (DirectRefused next_line lost_line) 8 1024 at from.now result
        (lined target.old (R.held trace.old)) (lined target.new (R.held trace.new)) }
    ensures reached { WriteSpelled seen (λ s v. seen s ≡ v) (λ _. Unit {0}) IsPositiveLine ran (Reached ran touched) 8 at
        from.now result (lined target.old (R.held trace.old)) (lined target.new (R.held trace.new)) }
    ensures turns { IsPositive target.old.pauses → target.old.limit - target.old.turns
        ≤ target.new.limit - target.new.turns + doublewords_met at (length from.now) + open_ends at (length from.now) }
    ensures takes { MemTakes (write_turns (λ count. count / 8) 8 1024 at (length from.now))
        (wire_counts (target.old.limit - target.old.turns) (R.faults trace.old))
        (wire_counts (target.new.limit - target.new.turns) (R.faults trace.new)) (result_err result) }
    ensures unmapped { (place : ℕ) → IsErrOf result (MemStop.Unmapped place)
        → (target.new ≡ target.old) × (trace.new ≡ trace.old) }
    ensures empty { length from.now ≡ 0 → (target.new ≡ target.old) × (trace.new ≡ trace.old) }
    ensures empty_done { length from.now ≡ 0 → IsOk result }
{
    let mut outcome = Ok(());
    let line = Line { target, trace };
    let line = write_over(line, at, from, &mut outcome);
    line.end();
    outcome
}
