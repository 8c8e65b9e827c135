// Modes, and what an access does.
ghost use Rattle.std.specs.Prelude.{◌≡◌, ◌<◌};
ghost use Rattle.rv_csr.specs.Fields.{mode_number, kept_mode};

/// The mode in which a hart runs (Privileged Architecture, 1.2).
#[derive(Clone, Copy, Debug, PartialEq, Eq)]
pub enum Mode {
    User,
    Machine,
}

/// What an access does: a load, a store, or the fetch of an instruction.
#[derive(Clone, Copy, Debug, PartialEq, Eq)]
pub enum Access {
    Read,
    Write,
    Execute,
}

impl Mode {
    // The two bits that stand for the mode.
    pub(crate) fn number(self) -> u64
        ensures value { result ≡ mode_number self }
        ensures range { result < 4 }
    {
        match self {
            Mode::User => 0,
            Mode::Machine => 3,
        }
    }

    // The mode that two bits are kept as.
    pub(crate) fn kept(number: u64) -> Mode
        ensures { result ≡ kept_mode number }
    {
        if number == 3 {
            Mode::Machine
        } else {
            Mode::User
        }
    }
}
