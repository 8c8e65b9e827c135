// What holds while a program runs, calls, and has its call handled, as laws of the definitions: each function does
// nothing, and its contract is the law.
ghost use Rattle.tether_base.specs.Behind.{AnsweredCallsReturn, AnswerStepsFollow};
ghost use Rattle.tether_base.specs.Between.{CallStepsFollow, PostedCallsWait, UserStepsFollow};
ghost use Rattle.tether_base.specs.Loading.{LoadsHold, StartsHart};
ghost use Rattle.tether_base.specs.Own.{OwnAnswersFollow, OwnCallsBegin};
ghost use Rattle.tether_base.specs.Seen.{LinesAreSeen};
ghost use Rattle.tether_base.specs.SeenWords.{StepsNeverFall, WordsAreSeen};
ghost use Rattle.tether_base.specs.Serving.{CallsAgree, GivesAnswers, ServesCalls, ServesWords};
ghost use Rattle.tether_base.specs.Tethered.{MoreTurns, TetheredOnce};
ghost use Rattle.tether_base.specs.Waiting.{StaysWaiting, TakesUserWrites};

/// What is followed over a target behind a line is followed over what is seen of it, and keeps the line one to a target
/// of the direct link, with its limit and its pauses.
pub fn lines_are_seen()
    ensures { LinesAreSeen }
{}

/// The tethered run has one state, and one end, for each number of turns.
pub fn tethered_once()
    ensures { TetheredOnce }
{}

/// A session's text of more host turns goes on from one of fewer.
pub fn more_turns()
    ensures { MoreTurns }
{}

/// Over what is seen of a target, a read only lets the hart run, and a doubleword of the kernel area is read or written
/// at one moment.
pub fn words_are_seen()
    ensures { WordsAreSeen }
{}

/// The count of user steps never falls, whatever the host does, and the numbers of a target fit as before.
pub fn steps_never_fall()
    ensures { StepsNeverFall }
{}

/// A step of the hart in user mode is a step of the direct run, where the count of user steps does not overflow.
pub fn user_steps_follow()
    ensures { UserStepsFollow }
{}

/// Each step of the kernel in a call that was not yet posted leaves the call to be made, or posts it.
pub fn call_steps_follow()
    ensures { CallStepsFollow }
{}

/// A posted call waits to be handled, while the direct run stands before it.
pub fn posted_calls_wait()
    ensures { PostedCallsWait }
{}

/// A waiting hart stays so in each step, and nothing that the host works on changes.
pub fn stays_waiting()
    ensures { StaysWaiting }
{}

/// While the kernel waits the host may write the user area, which leaves all else.
pub fn takes_user_writes()
    ensures { TakesUserWrites }
{}

/// The part of a host turn on tohost, whatever the call: where the kernel waits with a request, the direct run makes
/// the call's step, or the call is refused before it acted.
pub fn serves_calls()
    ensures { ServesCalls }
{}

/// So does what is done once the word of a request was read, whatever answers wait.
pub fn serves_words()
    ensures { ServesWords }
{}

/// Whatever that part comes to, console, input and files are those of the direct run at the session's place.
pub fn calls_agree()
    ensures { CallsAgree }
{}

/// The part of a host turn on fromhost gives the answer while the kernel waits for it, or the port refuses.
pub fn gives_answers()
    ensures { GivesAnswers }
{}

/// A call whose answer was written is on its way back to the program, in the world behind it.
pub fn answered_calls_return()
    ensures { AnsweredCallsReturn }
{}

/// Each step of the kernel takes an answer on, until the program runs again beside the direct run.
pub fn answer_steps_follow()
    ensures { AnswerStepsFollow }
{}

/// A call to which the kernel comes in Local is one that it answers itself.
pub fn own_calls_begin()
    ensures { OwnCallsBegin }
{}

/// Each step of the kernel takes its own answer on, until the program runs again beside the direct run, which makes the
/// call's step at MRET.
pub fn own_answers_follow()
    ensures { OwnAnswersFollow }
{}

/// Ranges that are written while the hart is held stand in memory, and nothing else changes.
pub fn loads_hold()
    ensures { LoadsHold }
{}

/// Behind the write of 1 to the start word the hart is held no more, over the same memory.
pub fn starts_hart()
    ensures { StartsHart }
{}
