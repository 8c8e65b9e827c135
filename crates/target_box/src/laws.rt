// What turns and traces keep to, as laws of the definitions.
ghost use Rattle.target_box.specs.TurnLaws.{HeldTurnsOnlyWrite, TurnsKeep, LinesAreTraced, LostLinesAreCut, LinesJoin};

/// While the start word is 0 and the hart is held, a turn changes nothing but the doubleword that its beat writes.
#[tactic(auto, using(crate::proofs::TurnProofs::held_turns_only_write))]
pub fn held_turns_only_write()
    ensures { HeldTurnsOnlyWrite }
{}

/// A turn keeps limit, pauses and link, is counted, and makes at most a longest pause of user steps.
#[tactic(auto, using(crate::proofs::TurnProofs::turns_keep))]
pub fn turns_keep()
    ensures { TurnsKeep }
{}

/// Transactions from the reset target make a legal trace, with an entry for each, and put its text behind what the sink
/// held before.
#[tactic(auto, using(crate::proofs::TraceProofs::lines_are_traced))]
pub fn lines_are_traced()
    ensures { LinesAreTraced }
{}

/// So do those whose last line is not put, but that the text lacks that line.
#[tactic(auto, using(crate::proofs::TraceProofs::lost_lines_are_cut))]
pub fn lost_lines_are_cut()
    ensures { LostLinesAreCut }
{}

/// Transactions behind others are one list of lines, from any state of a line on. It keeps what a turn keeps, and from
/// the reset target it is that of a legal trace.
#[tactic(auto, using(crate::proofs::JoinProofs::lines_join))]
pub fn lines_join()
    ensures { LinesJoin }
{}
