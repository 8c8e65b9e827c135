// Host turns over a target, one part at a time.
ghost use Rattle.std.specs.Prelude.{◌≡◌, List, ℕ};
ghost use Rattle.folder_tree.specs.Tree.{Tree};
ghost use Rattle.host_text.specs.Outside.{acts};
ghost use Rattle.host_text.specs.Played.{Played, at};
ghost use Rattle.htif_mailbox.specs.Alone.{at_memory, memory_alone};
ghost use Rattle.htif_mailbox.specs.Mailboxes.{keeping};
ghost use Rattle.htif_mailbox.specs.Turns.{give_text, serve_text};
ghost use Rattle.target_box.specs.Lined.{lined};
ghost use Rattle.target_box.specs.Turn.{IsUsable};
ghost use Rattle.target_box.specs.declared.target.Link.TheVariants as link_of;
ghost use Rattle.tether_base.specs.ToldActs.{line_acts};
ghost use Rattle.tether_session.specs.RealLines.{IfAllTold};

use chunk_memory::{ChunkPort, Chunked, DirectPort, MemStop};
use fe_base::{BeatWire, Sink, Source};
use folder_tree::Folder;
use htif_mailbox::{MailFault, Mailbox, Turned};
use target_box::{Line, Target};

/// The part on tohost over a wire, which is given back. The outcome is left in `outcome`.
pub fn serve_over<W: BeatWire, F: Folder, I: Source, C: Sink>(
    wire: W,
    mailbox: &mut Mailbox,
    folder: &mut F,
    input: &mut I,
    console: &mut C,
    outcome: &mut Result<Turned, MailFault>,
) -> W
    requires { W.usable wire }
    ensures usable { W.usable result }
    ensures kept { W.kept result ≡ W.kept wire }
    ensures same { mailbox.new ≡ keeping mailbox.old mailbox.new.kept }
    ensures played { Played (acts ⟦<DirectPort<W> as ChunkPort>⟧ F.Folder I.Source C.Sink)
        (serve_text mailbox.old.given mailbox.old.tohost)
        (at wire folder.old input.old console.old mailbox.old.kept) outcome.new
        (at result folder.new input.new console.new mailbox.new.kept) }
{
    let mut memory = Chunked::over(DirectPort::over(wire));
    *outcome = mailbox.serve(&mut memory, folder, input, console);
    memory.into_port().into_wire()
}

/// The part on fromhost over a wire, which is given back. The outcome is left in `outcome`.
pub fn give_over<W: BeatWire>(
    wire: W,
    mailbox: &mut Mailbox,
    outcome: &mut Result<bool, MemStop>,
) -> W
    requires { W.usable wire }
    ensures usable { W.usable result }
    ensures kept { W.kept result ≡ W.kept wire }
    ensures same { mailbox.new ≡ keeping mailbox.old mailbox.new.kept }
    ensures played { Played (memory_alone ⟦<DirectPort<W> as ChunkPort>⟧) (give_text mailbox.old.fromhost)
        (at_memory wire mailbox.old.kept) outcome.new (at_memory result mailbox.new.kept) }
{
    let mut memory = Chunked::over(DirectPort::over(wire));
    *outcome = mailbox.give(&mut memory);
    memory.into_port().into_wire()
}

/// The part of a host turn on tohost, by transactions of the target, each with its line to the trace.
pub fn serve<R: Sink, F: Folder, I: Source, C: Sink>(
    target: &mut Target,
    trace: &mut R,
    mailbox: &mut Mailbox,
    folder: &mut F,
    input: &mut I,
    console: &mut C,
) -> Result<Turned, MailFault>
    requires { IsUsable link_of.Direct target.old }
    ensures usable { IsUsable link_of.Direct target.new }
    ensures same { mailbox.new ≡ keeping mailbox.old mailbox.new.kept }
    ensures played { IfAllTold F.Folder I.Source C.Sink (serve_text mailbox.old.given mailbox.old.tohost)
        (at (lined target.old (R.held trace.old)) folder.old input.old console.old mailbox.old.kept) result
        (at (lined target.new (R.held trace.new)) folder.new input.new console.new mailbox.new.kept) }
{
    let mut outcome = Ok(Turned::Idle);
    let line = Line { target, trace };
    let line = serve_over(line, mailbox, folder, input, console, &mut outcome);
    line.end();
    outcome
}

/// The part of a host turn on fromhost, by transactions of the target, each with its line to the trace.
pub fn give<R: Sink>(
    target: &mut Target,
    trace: &mut R,
    mailbox: &mut Mailbox,
) -> Result<bool, MemStop>
    requires { IsUsable link_of.Direct target.old }
    ensures usable { IsUsable link_of.Direct target.new }
    ensures same { mailbox.new ≡ keeping mailbox.old mailbox.new.kept }
    ensures played { (tree : Tree) (left held : List ℕ) → Played line_acts (give_text mailbox.old.fromhost)
        (at (lined target.old (R.held trace.old)) tree left held mailbox.old.kept) result
        (at (lined target.new (R.held trace.new)) tree left held mailbox.new.kept) }
{
    let mut outcome = Ok(false);
    let line = Line { target, trace };
    let line = give_over(line, mailbox, &mut outcome);
    line.end();
    outcome
}
