// The calls of a program, and what a host keeps from one to the next.
ghost use Rattle.std.specs.Prelude.{◌≡◌, ◌-◌, ◌^◌, true};
ghost use Rattle.fe_base.specs.ErrorNumbers.{error_number};

use crate::CallAnswer;
use crate::buffer::Buffer;
use crate::numbers::Numbers;
use fe_base::ErrNo;

/// What a host keeps for a program: what stands at its open numbers, room for the bytes of a call, and whether the last
/// call acted. Its methods are the rows of the call table, in files of their own.
#[derive(Drop)]
pub(crate) struct Calls {
    pub numbers: Numbers,
    pub buffer: Buffer,
    pub acted: bool,
}

impl Calls {
    // The call acts by its result.
    pub fn done(&mut self, value: u64) -> CallAnswer
        ensures value { result ≡ CallAnswer.Result value }
        ensures acted { self.new.acted ≡ true }
        ensures numbers { self.new.numbers ≡ self.old.numbers }
    {
        self.acted = true;
        CallAnswer::Result(value)
    }

    // The call is refused by its result.
    pub fn refuse(&mut self, error: ErrNo) -> CallAnswer
        ensures value { result ≡ CallAnswer.Result (2 ^ 64 - error_number error) }
        ensures acted { self.new.acted ≡ true }
        ensures numbers { self.new.numbers ≡ self.old.numbers }
    {
        self.done(error.result())
    }
}
