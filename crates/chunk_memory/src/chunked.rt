// Guest memory by ranges.
ghost use Rattle.std.specs.Prelude.{◌≡◌, ◌≤◌, ◌<◌, ◌+◌, ◌-◌, ◌%◌, ℕ, true, false, length, IfOk, IsErrOf, IsOk};
ghost use Rattle.std.specs.Int.{to_le_bytes, w64};
ghost use Rattle.std.specs.Result.{result_err};
ghost use Rattle.fe_base.specs.Wires.{OnTold};
ghost use Rattle.guest_memory.specs.Memory.{with_part};
ghost use Rattle.chunk_memory.specs.Ports.{ArePortSizes, CostsAtMost, IfExact, Maps, MemCauses, MemTakes, MemUnfaulted};
ghost use Rattle.chunk_memory.specs.Ports.{PortCauses, PortTakes, StaysUnfaulted, with_bytes, word_bytes};
ghost use Rattle.chunk_memory.specs.Ranges.{IsMappedRange};
ghost use Rattle.chunk_memory.specs.Spelling.{ReadSpelled, WriteSpelled};
ghost use Rattle.chunk_memory.specs.Steps.{ReadNext, WriteNext};
ghost use Rattle.chunk_memory.specs.Transactions.{Reads, Writes, ReadsRange, WritesRange, begins_in_part, step_size};
ghost use Rattle.chunk_memory.specs.Turns.{read_step, read_turns, write_step, write_turns};

use crate::mapped::first_unmapped;
use crate::stops::mem_stop;
use crate::{ChunkPort, MemStop, PortStop};
use std::marker::Model;

/// Guest memory over a port. A range goes by chunks of whole units of the port. Of a unit that the range does not hold
/// whole, a write first reads the other bytes.
#[derive(Drop)]
pub struct Chunked<P> {
    port: P,
}

impl<P> Model for Chunked<P> {
    ghost Value = { P };

    ghost view = { λ c. c.port };
}

// Puts some bytes in the place of others.
fn put_part(whole: &mut [u8], offset: usize, part: &[u8])
    requires { offset + length part.now ≤ length whole.old }
    ensures { whole.new ≡ with_part whole.old offset part.now }
{
    whole[offset..offset + part.len()].copy_from_slice(part);
}

// The number that the bytes of a doubleword spell, the lowest first.
fn number_of(bytes: [u8; 8]) -> u64
    ensures { to_le_bytes w64 result ≡ bytes }
{
    u64::from_le_bytes(bytes)
}

impl<P: ChunkPort> Chunked<P> {
    /// Memory over this port.
    pub fn over(port: P) -> Chunked<P>
        ensures { result ≡ port }
    {
        Chunked { port }
    }

    /// The port, given back.
    pub fn into_port(self) -> P
        ensures { result ≡ self }
    {
        let Chunked { port } = self;
        port
    }

    /// Reads a range. After a refusal `into` may hold anything, but after Unmapped it is as it was.
    pub fn read(&mut self, at: u64, into: &mut [u8]) -> Result<(), MemStop>
        requires { P.usable self.old }
        ensures usable { P.usable self.new }
        ensures kept { P.kept self.new ≡ P.kept self.old }
        ensures maps { Maps at (length into.old) (result_err result) }
        ensures causes { MemCauses (P.counts self.old) (P.counts self.new) (result_err result) }
        ensures steady { P.steady self.old
            → MemUnfaulted (P.counts self.old) (P.counts self.new) (result_err result) (P.steady self.new) }
        ensures turns { CostsAtMost (P.told self.old) P.ready P.positive (P.counts self.old) (P.counts self.new)
            (read_turns P.cost P.unit P.most at (length into.old)) }
        ensures takes { IfExact P.exact (λ turns. MemTakes (read_turns turns P.unit P.most at (length into.old))
            (P.counts self.old) (P.counts self.new) (result_err result)) }
        ensures told { OnTold (P.told self.old) (P.told self.new)
            (ReadsRange P.one P.refused P.unit P.most at (length into.old) (with_bytes result into.new)) }
        ensures reached { OnTold (P.told self.old) (P.told self.new)
            (λ a b. P.ready a → ReadSpelled P.view P.stands P.ready P.positive P.ran P.reached P.unit at (length into.old)
            (with_bytes result into.new) a b) }
        ensures unmapped { (place : ℕ) → IsErrOf result (MemStop.Unmapped place) → self.new ≡ self.old }
        ensures untouched { (place : ℕ) → IsErrOf result (MemStop.Unmapped place) → into.new ≡ into.old }
        ensures empty { length into.old ≡ 0 → self.new ≡ self.old }
        ensures empty_done { length into.old ≡ 0 → IsOk result }
    {
        if let Some(place) = first_unmapped(at, into.len()) {
            return Err(MemStop::Unmapped(place));
        }
        match self.read_mapped(at, into) {
            Ok(()) => Ok(()),
            Err(stop) => Err(mem_stop(stop)),
        }
    }

    /// Writes a range.
    pub fn write(&mut self, at: u64, from: &[u8]) -> Result<(), MemStop>
        requires { P.usable self.old }
        ensures usable { P.usable self.new }
        ensures kept { P.kept self.new ≡ P.kept self.old }
        ensures maps { Maps at (length from.now) (result_err result) }
        ensures causes { MemCauses (P.counts self.old) (P.counts self.new) (result_err result) }
        ensures steady { P.steady self.old
            → MemUnfaulted (P.counts self.old) (P.counts self.new) (result_err result) (P.steady self.new) }
        ensures turns { CostsAtMost (P.told self.old) P.ready P.positive (P.counts self.old) (P.counts self.new)
            (write_turns P.cost P.unit P.most at (length from.now)) }
        ensures takes { IfExact P.exact (λ turns. MemTakes (write_turns turns P.unit P.most at (length from.now))
            (P.counts self.old) (P.counts self.new) (result_err result)) }
        ensures told { OnTold (P.told self.old) (P.told self.new)
            (WritesRange P.one P.refused P.unit P.most at from.now result) }
        ensures reached { OnTold (P.told self.old) (P.told self.new)
            (λ a b. P.ready a → WriteSpelled P.view P.stands P.ready P.positive P.ran P.reached P.unit at from.now result a b) }
        ensures unmapped { (place : ℕ) → IsErrOf result (MemStop.Unmapped place) → self.new ≡ self.old }
        ensures empty { length from.now ≡ 0 → self.new ≡ self.old }
        ensures empty_done { length from.now ≡ 0 → IsOk result }
    {
        if let Some(place) = first_unmapped(at, from.len()) {
            return Err(MemStop::Unmapped(place));
        }
        match self.write_mapped(at, from) {
            Ok(()) => Ok(()),
            Err(stop) => Err(mem_stop(stop)),
        }
    }

    /// Reads the doubleword at any address, its lowest byte first.
    pub fn read_u64(&mut self, at: u64) -> Result<u64, MemStop>
        requires { P.usable self.old }
        ensures usable { P.usable self.new }
        ensures kept { P.kept self.new ≡ P.kept self.old }
        ensures maps { Maps at 8 (result_err result) }
        ensures causes { MemCauses (P.counts self.old) (P.counts self.new) (result_err result) }
        ensures steady { P.steady self.old
            → MemUnfaulted (P.counts self.old) (P.counts self.new) (result_err result) (P.steady self.new) }
        ensures turns { CostsAtMost (P.told self.old) P.ready P.positive (P.counts self.old) (P.counts self.new)
            (read_turns P.cost P.unit P.most at 8) }
        ensures takes { IfExact P.exact (λ turns. MemTakes (read_turns turns P.unit P.most at 8)
            (P.counts self.old) (P.counts self.new) (result_err result)) }
        ensures told { OnTold (P.told self.old) (P.told self.new)
            (ReadsRange P.one P.refused P.unit P.most at 8 (word_bytes result)) }
        ensures reached { OnTold (P.told self.old) (P.told self.new)
            (λ a b. P.ready a → ReadSpelled P.view P.stands P.ready P.positive P.ran P.reached P.unit at 8 (word_bytes result) a b) }
        ensures unmapped { (place : ℕ) → IsErrOf result (MemStop.Unmapped place) → self.new ≡ self.old }
    {
        let mut bytes = [0; 8];
        self.read(at, &mut bytes)?;
        Ok(number_of(bytes))
    }

    /// Writes the doubleword at any address, its lowest byte first.
    pub fn write_u64(&mut self, at: u64, value: u64) -> Result<(), MemStop>
        requires { P.usable self.old }
        ensures usable { P.usable self.new }
        ensures kept { P.kept self.new ≡ P.kept self.old }
        ensures maps { Maps at 8 (result_err result) }
        ensures causes { MemCauses (P.counts self.old) (P.counts self.new) (result_err result) }
        ensures steady { P.steady self.old
            → MemUnfaulted (P.counts self.old) (P.counts self.new) (result_err result) (P.steady self.new) }
        ensures turns { CostsAtMost (P.told self.old) P.ready P.positive (P.counts self.old) (P.counts self.new)
            (write_turns P.cost P.unit P.most at 8) }
        ensures takes { IfExact P.exact (λ turns. MemTakes (write_turns turns P.unit P.most at 8)
            (P.counts self.old) (P.counts self.new) (result_err result)) }
        ensures told { OnTold (P.told self.old) (P.told self.new)
            (WritesRange P.one P.refused P.unit P.most at (to_le_bytes w64 value) result) }
        ensures reached { OnTold (P.told self.old) (P.told self.new)
            (λ a b. P.ready a → WriteSpelled P.view P.stands P.ready P.positive P.ran P.reached P.unit at (to_le_bytes w64 value) result a b) }
        ensures unmapped { (place : ℕ) → IsErrOf result (MemStop.Unmapped place) → self.new ≡ self.old }
    {
        self.write(at, &value.to_le_bytes())
    }

    // Reads a range that is mapped.
    fn read_mapped(&mut self, at: u64, into: &mut [u8]) -> Result<(), PortStop>
        requires usable { P.usable self.old }
        requires mapped { IsMappedRange at (length into.old) }
        ensures usable { P.usable self.new }
        ensures kept { P.kept self.new ≡ P.kept self.old }
        ensures causes { PortCauses (P.counts self.old) (P.counts self.new) (result_err result) }
        ensures steady { P.steady self.old
            → StaysUnfaulted (P.counts self.old) (P.counts self.new) (result_err result) (P.steady self.new) }
        ensures turns { CostsAtMost (P.told self.old) P.ready P.positive (P.counts self.old) (P.counts self.new)
            (read_turns P.cost P.unit P.most at (length into.old)) }
        ensures takes { IfExact P.exact (λ turns. PortTakes (read_turns turns P.unit P.most at (length into.old))
            (P.counts self.old) (P.counts self.new) (result_err result)) }
        ensures told { OnTold (P.told self.old) (P.told self.new)
            (Reads P.one P.refused P.unit P.most at (length into.old) (with_bytes result into.new)) }
        ensures empty { length into.old ≡ 0 → self.new ≡ self.old }
        ensures empty_done { length into.old ≡ 0 → IsOk result }
    {
        let mut done = 0;
        while done < into.len() {
            let size = self.read_next(at + done as u64, &mut into[done..])?;
            done += size;
        }
        Ok(())
    }

    // Writes a range that is mapped.
    fn write_mapped(&mut self, at: u64, from: &[u8]) -> Result<(), PortStop>
        requires usable { P.usable self.old }
        requires mapped { IsMappedRange at (length from.now) }
        ensures usable { P.usable self.new }
        ensures kept { P.kept self.new ≡ P.kept self.old }
        ensures causes { PortCauses (P.counts self.old) (P.counts self.new) (result_err result) }
        ensures steady { P.steady self.old
            → StaysUnfaulted (P.counts self.old) (P.counts self.new) (result_err result) (P.steady self.new) }
        ensures turns { CostsAtMost (P.told self.old) P.ready P.positive (P.counts self.old) (P.counts self.new)
            (write_turns P.cost P.unit P.most at (length from.now)) }
        ensures takes { IfExact P.exact (λ turns. PortTakes (write_turns turns P.unit P.most at (length from.now))
            (P.counts self.old) (P.counts self.new) (result_err result)) }
        ensures told { OnTold (P.told self.old) (P.told self.new)
            (Writes P.one P.refused P.unit P.most at from.now result) }
        ensures empty { length from.now ≡ 0 → self.new ≡ self.old }
        ensures empty_done { length from.now ≡ 0 → IsOk result }
    {
        let mut done = 0;
        while done < from.len() {
            let size = self.write_next(at + done as u64, &from[done..])?;
            done += size;
        }
        Ok(())
    }

    // Reads the first chunk of a range, and answers how many bytes of the range it had.
    fn read_next(&mut self, at: u64, into: &mut [u8]) -> Result<usize, PortStop>
        requires usable { P.usable self.old }
        requires some { 0 < length into.old }
        requires mapped { IsMappedRange at (length into.old) }
        ensures usable { P.usable self.new }
        ensures kept { P.kept self.new ≡ P.kept self.old }
        ensures sizes { ArePortSizes P.unit P.most }
        ensures size { IfOk result (λ size. (size ≡ step_size P.unit P.most at (length into.old)) ×
            (0 < size) × (size ≤ length into.old)) }
        ensures causes { PortCauses (P.counts self.old) (P.counts self.new) (result_err result) }
        ensures steady { P.steady self.old
            → StaysUnfaulted (P.counts self.old) (P.counts self.new) (result_err result) (P.steady self.new) }
        ensures turns { CostsAtMost (P.told self.old) P.ready P.positive (P.counts self.old) (P.counts self.new)
            (read_step P.cost P.unit P.most at (length into.old)) }
        ensures takes { IfExact P.exact (λ turns. PortTakes (read_step turns P.unit P.most at (length into.old))
            (P.counts self.old) (P.counts self.new) (result_err result)) }
        ensures told { OnTold (P.told self.old) (P.told self.new)
            (ReadNext P.one P.refused P.unit P.most at into.new result) }
    {
        let unit = self.port.align();
        if at % unit as u64 != 0 || into.len() < unit {
            self.read_part(at, into)
        } else {
            self.read_whole(at, into)
        }
    }

    // Reads the unit in which a range begins, and of it the bytes of the range.
    fn read_part(&mut self, at: u64, into: &mut [u8]) -> Result<usize, PortStop>
        requires usable { P.usable self.old }
        requires some { 0 < length into.old }
        requires mapped { IsMappedRange at (length into.old) }
        requires part { begins_in_part P.unit at (length into.old) ≡ true }
        ensures usable { P.usable self.new }
        ensures kept { P.kept self.new ≡ P.kept self.old }
        ensures sizes { ArePortSizes P.unit P.most }
        ensures size { IfOk result (λ size. (size ≡ step_size P.unit P.most at (length into.old)) ×
            (0 < size) × (size ≤ length into.old)) }
        ensures causes { PortCauses (P.counts self.old) (P.counts self.new) (result_err result) }
        ensures steady { P.steady self.old
            → StaysUnfaulted (P.counts self.old) (P.counts self.new) (result_err result) (P.steady self.new) }
        ensures turns { CostsAtMost (P.told self.old) P.ready P.positive (P.counts self.old) (P.counts self.new)
            (read_step P.cost P.unit P.most at (length into.old)) }
        ensures takes { IfExact P.exact (λ turns. PortTakes (read_step turns P.unit P.most at (length into.old))
            (P.counts self.old) (P.counts self.new) (result_err result)) }
        ensures told { OnTold (P.told self.old) (P.told self.new)
            (ReadNext P.one P.refused P.unit P.most at into.new result) }
    {
        let unit = self.port.align();
        let offset = (at % unit as u64) as usize;
        let mut bytes = [0; 8];
        let whole = &mut bytes[..unit];
        self.port.read_chunk(at - offset as u64, whole)?;
        let size = into.len().min(unit - offset);
        into[..size].copy_from_slice(&whole[offset..offset + size]);
        Ok(size)
    }

    // Reads the whole units with which a range begins, as many as one chunk takes.
    fn read_whole(&mut self, at: u64, into: &mut [u8]) -> Result<usize, PortStop>
        requires usable { P.usable self.old }
        requires some { 0 < length into.old }
        requires mapped { IsMappedRange at (length into.old) }
        requires whole { begins_in_part P.unit at (length into.old) ≡ false }
        ensures usable { P.usable self.new }
        ensures kept { P.kept self.new ≡ P.kept self.old }
        ensures sizes { ArePortSizes P.unit P.most }
        ensures size { IfOk result (λ size. (size ≡ step_size P.unit P.most at (length into.old)) ×
            (0 < size) × (size ≤ length into.old)) }
        ensures causes { PortCauses (P.counts self.old) (P.counts self.new) (result_err result) }
        ensures steady { P.steady self.old
            → StaysUnfaulted (P.counts self.old) (P.counts self.new) (result_err result) (P.steady self.new) }
        ensures turns { CostsAtMost (P.told self.old) P.ready P.positive (P.counts self.old) (P.counts self.new)
            (read_step P.cost P.unit P.most at (length into.old)) }
        ensures takes { IfExact P.exact (λ turns. PortTakes (read_step turns P.unit P.most at (length into.old))
            (P.counts self.old) (P.counts self.new) (result_err result)) }
        ensures told { OnTold (P.told self.old) (P.told self.new)
            (ReadNext P.one P.refused P.unit P.most at into.new result) }
    {
        let unit = self.port.align();
        let largest = self.port.largest();
        let size = (into.len() / unit * unit).min(largest);
        self.port.read_chunk(at, &mut into[..size])?;
        Ok(size)
    }

    // Writes the first chunk of a range, and answers how many bytes of the range it had.
    fn write_next(&mut self, at: u64, from: &[u8]) -> Result<usize, PortStop>
        requires usable { P.usable self.old }
        requires some { 0 < length from.now }
        requires mapped { IsMappedRange at (length from.now) }
        ensures usable { P.usable self.new }
        ensures kept { P.kept self.new ≡ P.kept self.old }
        ensures sizes { ArePortSizes P.unit P.most }
        ensures size { IfOk result (λ size. (size ≡ step_size P.unit P.most at (length from.now)) ×
            (0 < size) × (size ≤ length from.now)) }
        ensures causes { PortCauses (P.counts self.old) (P.counts self.new) (result_err result) }
        ensures steady { P.steady self.old
            → StaysUnfaulted (P.counts self.old) (P.counts self.new) (result_err result) (P.steady self.new) }
        ensures turns { CostsAtMost (P.told self.old) P.ready P.positive (P.counts self.old) (P.counts self.new)
            (write_step P.cost P.unit P.most at (length from.now)) }
        ensures takes { IfExact P.exact (λ turns. PortTakes (write_step turns P.unit P.most at (length from.now))
            (P.counts self.old) (P.counts self.new) (result_err result)) }
        ensures told { OnTold (P.told self.old) (P.told self.new)
            (WriteNext P.one P.refused P.unit P.most at from.now result) }
    {
        let unit = self.port.align();
        if at % unit as u64 != 0 || from.len() < unit {
            self.write_part(at, from)
        } else {
            self.write_whole(at, from)
        }
    }

    // Reads the unit in which a range begins, and writes it with the bytes of the range in it.
    fn write_part(&mut self, at: u64, from: &[u8]) -> Result<usize, PortStop>
        requires usable { P.usable self.old }
        requires some { 0 < length from.now }
        requires mapped { IsMappedRange at (length from.now) }
        requires part { begins_in_part P.unit at (length from.now) ≡ true }
        ensures usable { P.usable self.new }
        ensures kept { P.kept self.new ≡ P.kept self.old }
        ensures sizes { ArePortSizes P.unit P.most }
        ensures size { IfOk result (λ size. (size ≡ step_size P.unit P.most at (length from.now)) ×
            (0 < size) × (size ≤ length from.now)) }
        ensures causes { PortCauses (P.counts self.old) (P.counts self.new) (result_err result) }
        ensures steady { P.steady self.old
            → StaysUnfaulted (P.counts self.old) (P.counts self.new) (result_err result) (P.steady self.new) }
        ensures turns { CostsAtMost (P.told self.old) P.ready P.positive (P.counts self.old) (P.counts self.new)
            (write_step P.cost P.unit P.most at (length from.now)) }
        ensures takes { IfExact P.exact (λ turns. PortTakes (write_step turns P.unit P.most at (length from.now))
            (P.counts self.old) (P.counts self.new) (result_err result)) }
        ensures told { OnTold (P.told self.old) (P.told self.new)
            (WriteNext P.one P.refused P.unit P.most at from.now result) }
    {
        let unit = self.port.align();
        let offset = (at % unit as u64) as usize;
        let place = at - offset as u64;
        let mut bytes = [0; 8];
        let whole = &mut bytes[..unit];
        self.port.read_chunk(place, whole)?;
        let size = from.len().min(unit - offset);
        put_part(whole, offset, &from[..size]);
        self.port.write_chunk(place, whole)?;
        Ok(size)
    }

    // Writes the whole units with which a range begins, as many as one chunk takes.
    fn write_whole(&mut self, at: u64, from: &[u8]) -> Result<usize, PortStop>
        requires usable { P.usable self.old }
        requires some { 0 < length from.now }
        requires mapped { IsMappedRange at (length from.now) }
        requires whole { begins_in_part P.unit at (length from.now) ≡ false }
        ensures usable { P.usable self.new }
        ensures kept { P.kept self.new ≡ P.kept self.old }
        ensures sizes { ArePortSizes P.unit P.most }
        ensures size { IfOk result (λ size. (size ≡ step_size P.unit P.most at (length from.now)) ×
            (0 < size) × (size ≤ length from.now)) }
        ensures causes { PortCauses (P.counts self.old) (P.counts self.new) (result_err result) }
        ensures steady { P.steady self.old
            → StaysUnfaulted (P.counts self.old) (P.counts self.new) (result_err result) (P.steady self.new) }
        ensures turns { CostsAtMost (P.told self.old) P.ready P.positive (P.counts self.old) (P.counts self.new)
            (write_step P.cost P.unit P.most at (length from.now)) }
        ensures takes { IfExact P.exact (λ turns. PortTakes (write_step turns P.unit P.most at (length from.now))
            (P.counts self.old) (P.counts self.new) (result_err result)) }
        ensures told { OnTold (P.told self.old) (P.told self.new)
            (WriteNext P.one P.refused P.unit P.most at from.now result) }
    {
        let unit = self.port.align();
        let largest = self.port.largest();
        let size = (from.len() / unit * unit).min(largest);
        self.port.write_chunk(at, &from[..size])?;
        Ok(size)
    }
}
