// What a host turn comes to.
ghost use Rattle.std.specs.Prelude.{◌≡◌};

use chunk_memory::MemStop;
use syscall_proxy::CallFault;

/// What a turn did.
#[derive(Clone, Copy, Debug, PartialEq, Eq)]
pub enum Turned {
    /// Neither a command was handled nor an answer given.
    Idle,
    /// An answer was given, and no command was handled.
    Answered,
    /// A command was handled.
    Served,
    /// The program has ended with this status.
    Exited(u8),
}

/// Why a turn was cut short.
#[derive(Clone, Copy, Debug, PartialEq, Eq)]
pub enum MailFault {
    /// A system call was not carried out, or the console or the input failed.
    Call(CallFault),
    /// The guest's memory was not read or written.
    Port(MemStop),
    /// This word in tohost asks for what no device does.
    BadCommand(u64),
}

impl From<MemStop> for MailFault {
    ghost use Rattle.htif_mailbox.specs.declared.answers.MailFault.TheVariants.{Port};

    ghost from_gives = { λ why fault. fault ≡ Port why };

    fn from(why: MemStop) -> MailFault {
        MailFault::Port(why)
    }
}
