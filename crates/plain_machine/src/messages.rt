// The last words of a program that a trap ends.
ghost use Rattle.std.specs.Prelude.{◌≡◌, drop};
ghost use Rattle.rv_alu.specs.Causes.{cause_number};
ghost use Rattle.plain_machine.specs.Direct.{dying, after_trap};
ghost use Rattle.plain_machine.specs.Machines.{BeginsWith};
ghost use Rattle.plain_machine.specs.Messages as spec;
ghost use Rattle.plain_machine.specs.Messages.{trap_text, counter_text};

use arrayvec::ArrayString;
use fe_base::push_hexadecimal;
use rv_alu::{Cause, Trap};
use std::marker::Model;

/// The longest of the texts has 55 bytes.
type Text = ArrayString<55>;

const COUNTER_STATUS: u8 = 124;

const TRAP_STATUS: u8 = 128;

/// A text that goes out byte by byte: what is left of it.
#[derive(Drop)]
pub struct Message {
    text: Text,
    put: usize,
}

impl Model for Message {
    ghost use Rattle.std.specs.Prelude.{◌≤◌, ◌≡◌, ℕ, List, drop};
    ghost use Rattle.arrayvec.specs.ArrayString.{array_string_len};

    ghost Value = { List ℕ };

    ghost view = { λ m. drop m.put m.text.bytes };

    ghost invariant = { λ m. m.put ≤ array_string_len m.text };
}

fn trap_message(trap: Trap, pc: u64) -> Message
    ensures { result ≡ trap_text (cause_number trap.cause) pc trap.value }
{
    let mut text = Text::new();
    text.push_str("pk: trap ");
    push_hexadecimal(&mut text, u64::from(trap.cause.number()), 2);
    text.push_str(" at ");
    push_hexadecimal(&mut text, pc, 16);
    text.push_str(" value ");
    push_hexadecimal(&mut text, trap.value, 16);
    text.push_str("\n");
    Message { text, put: 0 }
}

fn counter_message(pc: u64) -> Message
    ensures { result ≡ counter_text pc }
{
    let mut text = Text::new();
    text.push_str("pk: counter read at ");
    push_hexadecimal(&mut text, pc, 16);
    text.push_str("\n");
    Message { text, put: 0 }
}

// The word is a CSR instruction for one of the 32 counters from cycle on.
fn is_counter_access(word: u64) -> bool
    ensures { result ≡ spec.is_counter_access word }
{
    let function = (word >> 12) % 8;
    let csr = (word >> 20) % 4096;
    word % 128 == 0x73 && function != 0 && function != 4 && csr >= 0xc00 && csr <= 0xc1f
}

/// What a program says that this trap ends at `pc`, and its status.
pub fn last_words(trap: Trap, pc: u64) -> (Message, u8)
    ensures { dying result.0 result.1 ≡ after_trap pc trap.cause trap.value }
{
    match trap.cause {
        Cause::Illegal if is_counter_access(trap.value) => (counter_message(pc), COUNTER_STATUS),
        _ => (trap_message(trap, pc), TRAP_STATUS + trap.cause.number()),
    }
}

impl Message {
    /// The next byte of what is left.
    pub fn first(&self) -> Option<u8>
        ensures { BeginsWith self.now (drop 1 self.now) result }
    {
        self.text.as_str().as_bytes().get(self.put).copied()
    }

    /// Goes on behind the next byte, if there is one.
    pub fn advance(&mut self)
        ensures { self.new ≡ drop 1 self.old }
    {
        if self.put < self.text.len() {
            self.put += 1;
        }
    }
}
