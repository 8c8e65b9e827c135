// What a word in tohost asks for.
ghost use Rattle.std.specs.Prelude.{◌≡◌};
ghost use Rattle.htif_mailbox.specs.Commands.{command_of as command_in};

use fe_base::ToHost;

/// What a word asks for.
#[derive(Clone, Copy, Debug, PartialEq, Eq)]
pub(crate) enum Command {
    /// The program ends with this status.
    Exit(u8),
    /// A system call, whose request stands at this place.
    Call(u64),
    /// A byte of the input.
    TakeByte,
    /// A byte for the console.
    PutByte(u8),
    /// Nothing that a device does.
    Unknown,
}

/// What a word asks for, by its device, command and payload.
#[tactic(auto, unfolding(crate::specs::Commands::command_of))]
pub(crate) fn command_of(word: u64) -> Command
    ensures { result ≡ command_in word }
{
    let word = ToHost(word);
    let payload = word.payload();
    match (word.device(), word.command()) {
        (0, 0) if payload % 2 == 1 => Command::Exit((payload / 2 % 256) as u8),
        (0, 0) => Command::Call(payload),
        (1, 0) => Command::TakeByte,
        (1, 1) => Command::PutByte((payload % 256) as u8),
        _ => Command::Unknown,
    }
}
