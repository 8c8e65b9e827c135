// A port: what moves chunks of guest memory.
ghost use Rattle.std.specs.Prelude.{◌≡◌, ℕ, List, [], ◌++◌, Option, length};
ghost use Rattle.std.specs.Result.{result_err};
ghost use Rattle.fe_base.specs.Access.{Access};
ghost use Rattle.fe_base.specs.Wires.{IfTold, Kept, OnTold};
ghost use Rattle.chunk_memory.specs.Ports.{ArePortSizes, ChunkRead, ChunkWritten, CostsAtMost, Counts, IfExact};
ghost use Rattle.chunk_memory.specs.Ports.{IsChunk, PortCauses, PortTakes, StaysUnfaulted};
ghost use Rattle.chunk_memory.specs.Reached.{OneReaches, RefusedReaches};
ghost use Rattle.chunk_memory.specs.Transactions.{Chunk};

use crate::PortStop;

/// What moves chunks of guest memory: whole units of 4 or 8 bytes, one after the other.
pub trait ChunkPort {
    ghost use Rattle.chunk_memory.specs.declared.stops.PortStop.{PortStop as Stop};

    /// What it tells: the state of its wire, or of the memory that it was lent.
    ghost State: { Type 0 };

    /// What is seen of the target, in terms of no hart.
    ghost View: { Type 0 };

    /// The bytes of a unit.
    ghost unit: { ℕ };

    /// The most bytes of a chunk.
    ghost most: { ℕ };

    /// How many transactions a chunk of so many bytes takes at most.
    ghost cost: { ℕ → ℕ };

    /// How many transactions a chunk of so many bytes takes that is made, where each that is made takes as many.
    ghost exact: { Option (ℕ → ℕ) };

    /// The port may be called.
    ghost usable: { Self → Type 0 };

    /// The state, where the port tells it.
    ghost told: { Self → Option State };

    /// What no call changes: the names of what the port was lent, and the capacity of a sink beneath it.
    ghost kept: { Self → Kept };

    /// How many transactions are left, how often the wire failed, and how often each command error was read.
    ghost counts: { Self → Counts };

    /// The wire never fails from now on.
    ghost steady: { Self → Type 0 };

    /// What holds of each told state.
    ghost valid: { State → Type 0 };

    /// No transfer is under way, and no command: what a chunk does is then known. A chunk that is made leaves it so.
    ghost ready: { State → Type 0 };

    /// Before each transaction the hart makes a step.
    ghost positive: { State → Type 0 };

    /// What is seen in a state in which the hart is not halted.
    ghost view: { State → View };

    /// The state after a refusal is seen as this view, but for what a hart that was left halted lent to its port.
    ghost stands: { State → View → Type 0 };

    /// What a chunk did to the state that was made.
    ghost one: { State → Chunk → State → Type 0 };

    /// What a chunk did to the state that was refused. Of a chunk to be read the bytes are any.
    ghost refused: { State → Chunk → Stop → State → Type 0 };

    /// So many steps of the hart were made, none of them halted and none a debug job.
    ghost ran: { View → ℕ → View → Type 0 };

    /// These accesses were made, with steps of the hart between them.
    ghost reached: { View → List Access → View → Type 0 };

    /// The bytes of a unit, 4 or 8.
    fn align(&self) -> usize
        ensures value { result ≡ unit }
        ensures sizes { ArePortSizes unit most };

    /// The most bytes of a chunk, a multiple of 8.
    fn largest(&self) -> usize
        ensures value { result ≡ most }
        ensures sizes { ArePortSizes unit most };

    /// Reads one chunk. After a refusal `into` may hold anything.
    fn read_chunk(&mut self, at: u64, into: &mut [u8]) -> Result<(), PortStop>
        requires usable { usable self.old }
        requires chunk { IsChunk unit most at (length into.old) }
        ensures usable { usable self.new }
        ensures kept { kept self.new ≡ kept self.old }
        ensures causes { PortCauses (counts self.old) (counts self.new) (result_err result) }
        ensures steady { steady self.old
            → StaysUnfaulted (counts self.old) (counts self.new) (result_err result) (steady self.new) }
        ensures turns { CostsAtMost (told self.old) ready positive (counts self.old) (counts self.new)
            (cost (length into.old)) }
        ensures takes { IfExact exact (λ turns.
            PortTakes (turns (length into.old)) (counts self.old) (counts self.new) (result_err result)) }
        ensures told { OnTold (told self.old) (told self.new) (ChunkRead one refused at into.new result) };

    /// Writes one chunk.
    fn write_chunk(&mut self, at: u64, from: &[u8]) -> Result<(), PortStop>
        requires usable { usable self.old }
        requires chunk { IsChunk unit most at (length from.now) }
        ensures usable { usable self.new }
        ensures kept { kept self.new ≡ kept self.old }
        ensures causes { PortCauses (counts self.old) (counts self.new) (result_err result) }
        ensures steady { steady self.old
            → StaysUnfaulted (counts self.old) (counts self.new) (result_err result) (steady self.new) }
        ensures turns { CostsAtMost (told self.old) ready positive (counts self.old) (counts self.new)
            (cost (length from.now)) }
        ensures takes { IfExact exact (λ turns.
            PortTakes (turns (length from.now)) (counts self.old) (counts self.new) (result_err result)) }
        ensures told { OnTold (told self.old) (told self.new) (ChunkWritten one refused at from.now result) };

    /// Its units and its greatest chunk are as a port's may be.
    ghost sizes: { ArePortSizes unit most };

    /// A usable port's told state is a valid one.
    ghost tells_valid: { (port : Self) → usable port → IfTold (told port) valid };

    /// Steps are made without an access.
    ghost ran_reaches: { (u v : View) (n : ℕ) → ran u n v → reached u [] v };

    /// No access leads from a view to itself.
    ghost reached_none: { (v : View) → reached v [] v };

    /// Accesses and then accesses are accesses.
    ghost reached_then: { (u v w : View) (xs ys : List Access) → reached u xs v → reached v ys w
        → reached u (xs ++ ys) w };

    /// Accesses can be cut anywhere.
    ghost reached_cut: { (u w : View) (xs ys : List Access) → reached u (xs ++ ys) w
        → (v : View) × reached u xs v × reached v ys w };

    /// A chunk that is made leads from view to view by its accesses, behind a step where every pause is positive.
    ghost one_reaches: { OneReaches unit most view valid ready positive ran reached one };

    /// One that is refused leads there by the first ones of its accesses.
    ghost refused_reaches: { RefusedReaches unit most view stands valid ready reached refused };
}
