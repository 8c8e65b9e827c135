// The open numbers of a program.
ghost use Rattle.std.specs.Prelude.{◌≡◌, ℕ, slice_set, length, position};
ghost use Rattle.host_text.specs.World.{first_numbers};
ghost use Rattle.syscall_proxy.specs.Kept.{open_at};
ghost use Rattle.syscall_proxy.specs.Rows.{is_closed, moved, placed};

use crate::buffer::Buffer;
use arrayvec::ArrayVec;
use fe_base::limits::OPEN_NUMBERS;
use host_text::{Open, OpenFile};
use std::marker::Model;

/// What stands at each open number.
#[derive(Drop)]
pub struct Numbers {
    stands: ArrayVec<Open, OPEN_NUMBERS>,
}

impl Model for Numbers {
    ghost use Rattle.std.specs.Prelude.{◌≡◌, List, length};
    ghost use Rattle.host_text.specs.declared.open_numbers.Open.{Open as Stands};

    ghost Value = { List Stands };

    ghost view = { λ n. n.stands.items };

    ghost invariant = { λ n. length n.stands.items ≡ 64 };
}

impl Numbers {
    /// What stands at each number as a program starts.
    pub fn first() -> Numbers
        ensures { result ≡ first_numbers }
    {
        let mut stands = [Open::Closed; OPEN_NUMBERS];
        stands[0] = Open::Input;
        stands[1] = Open::Console;
        stands[2] = Open::Console;
        Numbers {
            stands: ArrayVec::from(stands),
        }
    }

    /// What stands at a number; nothing does at one that there is not.
    pub fn at(&self, fd: u32) -> Open
        ensures { result ≡ open_at self.now fd }
    {
        self.stands
            .as_slice()
            .get(fd as usize)
            .copied()
            .unwrap_or(Open::Closed)
    }

    /// Puts what stands at a number from now on.
    pub fn set(&mut self, fd: u32, stands: Open)
        ensures { self.new ≡ slice_set self.old fd stands }
    {
        let numbers = self.stands.as_mut_slice();
        if (fd as usize) < numbers.len() {
            numbers[fd as usize] = stands;
        }
    }

    /// Puts a file there, with its place.
    pub fn place(&mut self, fd: u32, file: OpenFile, position: u64)
        ensures { self.new ≡ slice_set self.old fd (placed file position) }
    {
        self.set(fd, Open::File(OpenFile { position, ..file }));
    }

    /// Puts a file there, with its place behind these bytes.
    pub fn advance(&mut self, fd: u32, file: OpenFile, bytes: &Buffer)
        ensures { self.new ≡ slice_set self.old fd (placed file (moved file.position (length bytes.now))) }
    {
        self.place(fd, file, file.position.saturating_add(bytes.len()));
    }

    /// The lowest number at which nothing stands.
    pub fn first_free(&self) -> Option<u32>
        ensures { result ≡ position is_closed self.now }
    {
        match self
            .stands
            .as_slice()
            .iter()
            .position(|stands| is_free(stands))
        {
            Some(fd) => Some(fd as u32),
            None => None,
        }
    }
}

fn is_free(stands: &Open) -> bool
    ensures { result ≡ is_closed stands.now }
{
    match stands {
        Open::Closed => true,
        Open::Input | Open::Console | Open::File(_) => false,
    }
}
