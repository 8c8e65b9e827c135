// The console device: one byte out to a console, and one byte in from the input (device 1 of riscv-isa-sim's HTIF).
//
// What `write_byte` does to a console that tells its bytes, when it fails and what stays steady is said as of one
// `Sink::put` of the byte, and of `read_byte` as of one `Source::take`. That `write_byte` makes one put is told by its
// clause `puts`. How many takes `read_byte` makes is told by no clause: a take of no bytes besides, and a second take
// at the end of the input, are seen by tests alone.
//
// Nothing here takes memory.
#![tactic(auto)]

ghost use Rattle.std.specs.Prelude.{◌≡◌, ℕ, List, [], ◌∷◌, Some, None, option_map};
ghost use Rattle.fe_base.specs.Memory.{counted};
ghost use Rattle.fe_base.specs.Outside.{capacity, HasCause, Puts, PutsRoom, PutSuits, StaysSteady};
ghost use Rattle.console_device.specs.Bytes.{TakesByte};

#[cfg(test)]
mod tests;

use fe_base::{Failed, Sink, Source};

/// Puts one byte on the console.
pub fn write_byte<C: Sink>(byte: u8, console: &mut C) -> Result<(), Failed>
    ensures bytes { Puts (C.held console.old) (C.held console.new) (byte ∷ []) result }
    ensures capacity { capacity (C.held console.new) (C.room console.new) ≡ capacity (C.held console.old) (C.room console.old) }
    ensures room { PutsRoom (C.room console.old) (C.room console.new) 1 result }
    ensures no_room { C.room console.old ≡ None → C.room console.new ≡ None }
    ensures untold { C.held console.old ≡ None → C.held console.new ≡ None }
    ensures puts { C.puts console.new ≡ option_map counted (C.puts console.old) }
    ensures cause { HasCause (C.faults console.old) (C.faults console.new) result }
    ensures steady { C.steady console.old → PutSuits (C.room console.old) 1
        → StaysSteady (C.faults console.old) (C.faults console.new) result (C.steady console.new) }
{
    console.put(&[byte])
}

/// Takes one byte of the input: None where none is left.
pub fn read_byte<I: Source>(input: &mut I) -> Result<Option<u8>, Failed>
    ensures byte { (left : List ℕ) → I.left input.old ≡ Some left → TakesByte left (I.left input.new) result }
    ensures untold { I.left input.old ≡ None → I.left input.new ≡ None }
    ensures cause { HasCause (I.faults input.old) (I.faults input.new) result }
    ensures steady { I.steady input.old → StaysSteady (I.faults input.old) (I.faults input.new) result (I.steady input.new) }
{
    let mut byte = [0];
    let count = input.take(&mut byte)?;
    if count == 0 {
        Ok(None)
    } else {
        Ok(Some(byte[0]))
    }
}
