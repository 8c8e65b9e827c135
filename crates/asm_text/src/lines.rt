// Numbers of lines.
ghost use Rattle.std.specs.Prelude.{◌≡◌, ◌++◌, [], ◌∷◌, length, OnOk, OnErr};

use std::alloc::{AllocError, Global};
use std::marker::Model;

/// Numbers of lines in order, to which one can be added at a time.
#[derive(Drop)]
pub struct Lines {
    numbers: Vec<u64>,
}

impl Model for Lines {
    ghost use Rattle.std.specs.Prelude.{List, ℕ};

    ghost Value = { List ℕ };

    ghost view = { λ l. l.numbers.items };
}

impl Lines {
    /// No numbers. It takes no memory.
    pub fn new(alloc: Global) -> Lines
        ensures { result ≡ [] }
    {
        Lines {
            numbers: Vec::new(alloc),
        }
    }

    /// Adds the number at the end. It is refused only for want of memory.
    pub fn push(&mut self, number: u64) -> Result<(), AllocError>
        ensures ok { OnOk result (self.new ≡ self.old ++ number ∷ []) }
        ensures err { OnErr result (self.new ≡ self.old) }
    {
        self.numbers.push(number)?;
        Ok(())
    }

    /// How many numbers there are.
    pub fn len(&self) -> usize
        ensures { result ≡ length self.now }
    {
        self.numbers.len()
    }

    /// The numbers.
    pub fn as_slice(&self) -> &[u64]
        ensures { result.now ≡ self.now }
    {
        &self.numbers
    }
}
