// The memory of a target by itself: a bus that was lent.
ghost use Rattle.std.specs.Prelude.{◌≡◌, ℕ, List, [], ◌∷◌, None, Some, length};
ghost use Rattle.chunk_memory.specs.BeatChunks.{ReadByBeats, WrittenByBeats};
ghost use Rattle.chunk_memory.specs.Ports.{IsChunk};
ghost use Rattle.chunk_memory.specs.RamTurns.{ram_turn};

use crate::{ChunkPort, PortStop};
use byteorder::{ByteOrder, LittleEndian};
use fe_base::memory_map::START_WORD;
use guest_memory::Bus;

/// A port to a bus. It makes no transaction, and never refuses.
#[derive(Drop)]
pub struct RamPort<'b> {
    bus: &'b mut Bus,
}

impl<'b> RamPort<'b> {
    /// A port to this bus.
    pub fn over(bus: &'b mut Bus) -> RamPort<'b>
        ensures same_reference { result.bus.ghost_name ≡ bus.entry.ghost_name }
        ensures bus { result.bus.now ≡ bus.old }
    {
        RamPort { bus }
    }
}

// Reads a chunk of a bus.
fn read_bus(bus: &Bus, at: u64, into: &mut [u8])
    requires { IsChunk 8 1024 at (length into.old) }
    ensures { ReadByBeats ram_turn at into.new bus.now bus.now }
{
    if at == START_WORD {
        LittleEndian::write_u64(into, bus.read_beat(at).unwrap_or(0));
        return;
    }
    into.copy_from_slice(bus.bytes(at, into.len() as u64));
}

// Writes a chunk of a bus.
fn write_bus(bus: &mut Bus, at: u64, from: &[u8])
    requires { IsChunk 8 1024 at (length from.now) }
    ensures { WrittenByBeats ram_turn at from.now bus.old bus.new }
{
    if at == START_WORD {
        let _written = bus.write_beat(at, LittleEndian::read_u64(from));
        return;
    }
    bus.bytes_mut(at, from.len() as u64).copy_from_slice(from);
}

impl ChunkPort for RamPort<'_> {
    ghost use Rattle.fe_base.specs.Wires.{Kept};
    ghost use Rattle.guest_memory.specs.Bus.{BusState};
    ghost use Rattle.chunk_memory.specs.BeatChunks.{DirectOne};
    ghost use Rattle.chunk_memory.specs.RamTurns.{ram_ran, ram_touched};
    ghost use Rattle.chunk_memory.specs.Reached.{Reached};
    ghost use Rattle.chunk_memory.specs.BeatLaws.{direct_sizes, ran-reaches, reached-none, reached-then, reached-cut};
    ghost use Rattle.chunk_memory.specs.RamLaws.{ram-none, ram-more, ram-one, ram-refused};

    ghost State = { BusState };

    ghost View = { BusState };

    ghost unit = { 8 };

    ghost most = { 1024 };

    ghost cost = { λ _. 0 };

    ghost exact = { Some (λ _. 0) };

    ghost usable = { λ _. Unit {0} };

    ghost told = { λ p. Some p.bus.now };

    ghost kept = { λ p. record { lent = p.bus.ghost_name ∷ []; capacity = None } };

    ghost counts = { λ _. record { left = 0; faults = 0; raised = λ _. 0 } };

    ghost steady = { λ _. Unit {0} };

    ghost valid = { λ _. Unit {0} };

    ghost ready = { λ _. Unit {0} };

    ghost positive = { λ _. ⊥ };

    ghost view = { λ s. s };

    ghost stands = { λ s v. s ≡ v };

    ghost one = { DirectOne ram_turn };

    ghost refused = { λ before chunk stop after. ⊥ };

    ghost ran = { ram_ran };

    ghost reached = { Reached ram_ran ram_touched };

    fn align(&self) -> usize {
        8
    }

    fn largest(&self) -> usize {
        1_024
    }

    fn read_chunk(&mut self, at: u64, into: &mut [u8]) -> Result<(), PortStop> {
        read_bus(self.bus, at, into);
        Ok(())
    }

    fn write_chunk(&mut self, at: u64, from: &[u8]) -> Result<(), PortStop> {
        write_bus(self.bus, at, from);
        Ok(())
    }

    ghost sizes = { direct_sizes };

    ghost tells_valid = { λ port usable. tt };

    ghost ran_reaches = { ran-reaches ram_ran ram_touched ram-none ram-more };

    ghost reached_none = { reached-none ram_ran ram_touched ram-none ram-more };

    ghost reached_then = { reached-then ram_ran ram_touched ram-none ram-more };

    ghost reached_cut = { reached-cut ram_ran ram_touched ram-none ram-more };

    ghost one_reaches = { ram-one };

    ghost refused_reaches = { ram-refused };
}
