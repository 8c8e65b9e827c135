// A port by a wire that moves doublewords.
ghost use Rattle.std.specs.Prelude.{◌≡◌, ◌/◌, Some, length};
ghost use Rattle.std.specs.Result.{result_err};
ghost use Rattle.fe_base.specs.Wires.{OnTold};
ghost use Rattle.chunk_memory.specs.BeatChunks.{DirectOne, DirectRefused, of_wire, wire_counts};
ghost use Rattle.chunk_memory.specs.Ports.{ChunkRead, ChunkWritten, CostsAtMost, IsChunk};
ghost use Rattle.chunk_memory.specs.Ports.{PortCauses, PortTakes, StaysUnfaulted};

use crate::{ChunkPort, PortStop};
use byteorder::{ByteOrder, LittleEndian};
use fe_base::{BeatWire, WireStop};
use std::marker::Model;

impl From<WireStop> for PortStop {
    ghost from_gives = { λ stop result. result ≡ of_wire stop };

    fn from(stop: WireStop) -> PortStop {
        match stop {
            WireStop::Spent => PortStop::Spent,
            WireStop::Failed => PortStop::WireFault,
        }
    }
}

/// A port to a target by a wire that moves doublewords. A chunk is one beat for each of its doublewords, in rising order.
#[derive(Drop)]
pub struct DirectPort<W> {
    wire: W,
}

impl<W> Model for DirectPort<W> {
    ghost Value = { W };

    ghost view = { λ p. p.wire };
}

impl<W: BeatWire> DirectPort<W> {
    /// A port by this wire.
    pub fn over(wire: W) -> DirectPort<W>
        requires { W.usable wire }
        ensures { result ≡ wire }
    {
        DirectPort { wire }
    }

    /// The wire, given back.
    pub fn into_wire(self) -> W
        ensures { result ≡ self }
    {
        let DirectPort { wire } = self;
        wire
    }
}

// Reads the doublewords of a chunk, one beat each.
fn read_beats<W: BeatWire>(wire: &mut W, at: u64, into: &mut [u8]) -> Result<(), PortStop>
    requires usable { W.usable wire.old }
    requires chunk { IsChunk 8 1024 at (length into.old) }
    ensures usable { W.usable wire.new }
    ensures kept { W.kept wire.new ≡ W.kept wire.old }
    ensures causes { PortCauses (wire_counts (W.left wire.old) (W.faults wire.old))
        (wire_counts (W.left wire.new) (W.faults wire.new)) (result_err result) }
    ensures steady { W.steady wire.old
        → StaysUnfaulted (wire_counts (W.left wire.old) (W.faults wire.old))
        (wire_counts (W.left wire.new) (W.faults wire.new)) (result_err result) (W.steady wire.new) }
    ensures turns { CostsAtMost (W.told wire.old) (λ _. Unit {0}) W.positive
        (wire_counts (W.left wire.old) (W.faults wire.old))
        (wire_counts (W.left wire.new) (W.faults wire.new)) (length into.old / 8) }
    ensures told { OnTold (W.told wire.old) (W.told wire.new)
        (ChunkRead (DirectOne W.next) (DirectRefused W.next W.lost) at into.new result) }
    ensures takes { PortTakes (length into.old / 8) (wire_counts (W.left wire.old) (W.faults wire.old))
        (wire_counts (W.left wire.new) (W.faults wire.new)) (result_err result) }
{
    let mut done = 0;
    while done < into.len() {
        let value = wire.read_beat(at + done as u64)?;
        LittleEndian::write_u64(&mut into[done..], value);
        done += 8;
    }
    Ok(())
}

// Writes the doublewords of a chunk, one beat each.
fn write_beats<W: BeatWire>(wire: &mut W, at: u64, from: &[u8]) -> Result<(), PortStop>
    requires usable { W.usable wire.old }
    requires chunk { IsChunk 8 1024 at (length from.now) }
    ensures usable { W.usable wire.new }
    ensures kept { W.kept wire.new ≡ W.kept wire.old }
    ensures causes { PortCauses (wire_counts (W.left wire.old) (W.faults wire.old))
        (wire_counts (W.left wire.new) (W.faults wire.new)) (result_err result) }
    ensures steady { W.steady wire.old
        → StaysUnfaulted (wire_counts (W.left wire.old) (W.faults wire.old))
        (wire_counts (W.left wire.new) (W.faults wire.new)) (result_err result) (W.steady wire.new) }
    ensures turns { CostsAtMost (W.told wire.old) (λ _. Unit {0}) W.positive
        (wire_counts (W.left wire.old) (W.faults wire.old))
        (wire_counts (W.left wire.new) (W.faults wire.new)) (length from.now / 8) }
    ensures told { OnTold (W.told wire.old) (W.told wire.new)
        (ChunkWritten (DirectOne W.next) (DirectRefused W.next W.lost) at from.now result) }
    ensures takes { PortTakes (length from.now / 8) (wire_counts (W.left wire.old) (W.faults wire.old))
        (wire_counts (W.left wire.new) (W.faults wire.new)) (result_err result) }
{
    let mut done = 0;
    while done < from.len() {
        let value = LittleEndian::read_u64(&from[done..]);
        wire.write_beat(at + done as u64, value)?;
        done += 8;
    }
    Ok(())
}

impl<W: BeatWire> ChunkPort for DirectPort<W> {
    ghost use Rattle.chunk_memory.specs.Reached.{Reached};
    ghost use Rattle.chunk_memory.specs.BeatLaws.{direct_sizes, ran-reaches, reached-none, reached-then, reached-cut, direct-one, direct-refused, turns-make};

    ghost State = { W.State };

    ghost View = { W.View };

    ghost unit = { 8 };

    ghost most = { 1024 };

    ghost cost = { λ count. count / 8 };

    ghost exact = { Some (λ count. count / 8) };

    ghost usable = { W.usable };

    ghost told = { W.told };

    ghost kept = { W.kept };

    ghost counts = { λ p. wire_counts (W.left p) (W.faults p) };

    ghost steady = { W.steady };

    ghost valid = { W.valid };

    ghost ready = { λ _. Unit {0} };

    ghost positive = { W.positive };

    ghost view = { W.view };

    ghost stands = { λ s v. W.view s ≡ v };

    ghost one = { DirectOne W.next };

    ghost refused = { DirectRefused W.next W.lost };

    ghost ran = { W.ran };

    ghost reached = { Reached W.ran W.touched };

    fn align(&self) -> usize {
        8
    }

    fn largest(&self) -> usize {
        1_024
    }

    fn read_chunk(&mut self, at: u64, into: &mut [u8]) -> Result<(), PortStop>
        requires usable { W.usable self.old }
        requires chunk { IsChunk 8 1024 at (length into.old) }
        ensures usable { W.usable self.new }
        ensures kept { W.kept self.new ≡ W.kept self.old }
        ensures causes { PortCauses (wire_counts (W.left self.old) (W.faults self.old))
            (wire_counts (W.left self.new) (W.faults self.new)) (result_err result) }
        ensures steady { W.steady self.old
            → StaysUnfaulted (wire_counts (W.left self.old) (W.faults self.old))
            (wire_counts (W.left self.new) (W.faults self.new)) (result_err result) (W.steady self.new) }
        ensures turns { CostsAtMost (W.told self.old) (λ _. Unit {0}) W.positive
            (wire_counts (W.left self.old) (W.faults self.old))
            (wire_counts (W.left self.new) (W.faults self.new)) (length into.old / 8) }
        ensures told { OnTold (W.told self.old) (W.told self.new)
            (ChunkRead (DirectOne W.next) (DirectRefused W.next W.lost) at into.new result) }
        ensures takes { PortTakes (length into.old / 8) (wire_counts (W.left self.old) (W.faults self.old))
            (wire_counts (W.left self.new) (W.faults self.new)) (result_err result) }
    {
        read_beats(&mut self.wire, at, into)
    }

    fn write_chunk(&mut self, at: u64, from: &[u8]) -> Result<(), PortStop>
        requires usable { W.usable self.old }
        requires chunk { IsChunk 8 1024 at (length from.now) }
        ensures usable { W.usable self.new }
        ensures kept { W.kept self.new ≡ W.kept self.old }
        ensures causes { PortCauses (wire_counts (W.left self.old) (W.faults self.old))
            (wire_counts (W.left self.new) (W.faults self.new)) (result_err result) }
        ensures steady { W.steady self.old
            → StaysUnfaulted (wire_counts (W.left self.old) (W.faults self.old))
            (wire_counts (W.left self.new) (W.faults self.new)) (result_err result) (W.steady self.new) }
        ensures turns { CostsAtMost (W.told self.old) (λ _. Unit {0}) W.positive
            (wire_counts (W.left self.old) (W.faults self.old))
            (wire_counts (W.left self.new) (W.faults self.new)) (length from.now / 8) }
        ensures told { OnTold (W.told self.old) (W.told self.new)
            (ChunkWritten (DirectOne W.next) (DirectRefused W.next W.lost) at from.now result) }
        ensures takes { PortTakes (length from.now / 8) (wire_counts (W.left self.old) (W.faults self.old))
            (wire_counts (W.left self.new) (W.faults self.new)) (result_err result) }
    {
        write_beats(&mut self.wire, at, from)
    }

    ghost sizes = { direct_sizes };

    ghost tells_valid = { W.tells_valid };

    ghost ran_reaches = { ran-reaches W.ran W.touched W.ran_none W.ran_more };

    ghost reached_none = { reached-none W.ran W.touched W.ran_none W.ran_more };

    ghost reached_then = { reached-then W.ran W.touched W.ran_none W.ran_more };

    ghost reached_cut = { reached-cut W.ran W.touched W.ran_none W.ran_more };

    ghost one_reaches = { direct-one W.ran W.touched W.ran_none W.ran_more W.view W.valid W.positive W.next
        (turns-make W.ran W.touched W.ran_none W.ran_more W.view W.valid W.positive W.next W.turns) };

    ghost refused_reaches = { direct-refused W.ran W.touched W.ran_none W.ran_more W.view W.valid W.positive W.next
        (turns-make W.ran W.touched W.ran_none W.ran_more W.view W.valid W.positive W.next W.turns) W.lost W.turns_lost };
}
