// What holds from a trap that is no call to its exit, as laws of the definitions: each function does nothing, and its
// contract is the law.
ghost use Rattle.tether_traps.specs.Handling.{BytesAreNoted, ExitsAgree, HandledAgree, TrapsAgree, WordsAreHandled};
ghost use Rattle.tether_traps.specs.Saying.{TrapHandsStay, TrapStepsFollow, WordsStay};

/// Each step of the kernel behind a trap takes its message on, and posts the exit once all of it was put.
pub fn trap_steps_follow()
    ensures { TrapStepsFollow }
{}

/// A hart behind a trap stays so in each step.
pub fn trap_hands_stay()
    ensures { TrapHandsStay }
{}

/// A word that waits in TOHOST stays in each step of the hart, whatever the phase.
pub fn words_stay()
    ensures { WordsStay }
{}

/// What the part of a host turn on tohost does for a word that waits behind a trap: it puts the next byte, which the
/// direct run says too, or handles the exit, with which the direct run ends, or is refused before that.
pub fn words_are_handled()
    ensures { WordsAreHandled }
{}

/// Whatever that part comes to, console, input and files are those of the direct run at the session's place.
pub fn handled_agree()
    ensures { HandledAgree }
{}

/// It answers an exit exactly where the direct run has ended at the place, with its status.
pub fn exits_agree()
    ensures { ExitsAgree }
{}

/// What is noted of a byte that was put is one byte more.
pub fn bytes_are_noted()
    ensures { BytesAreNoted }
{}

/// Behind a trap console, input and files are those of the direct run at the place, where it says its last words.
pub fn traps_agree()
    ensures { TrapsAgree }
{}
