// What a session comes to, as laws of the definitions: each function does nothing, and its contract is the law.
ghost use Rattle.tether_run.specs.Hands.{HandSteps, HandsStay};
ghost use Rattle.tether_run.specs.HostTurns.{GivesHands, ServesHands, StandingIsOpen, TurnsAgree};
ghost use Rattle.tether_run.specs.Sessions.{SessionsAgree, SessionsAreSeen, TextsAreSessions};

/// A step of the hart keeps what stands beside the direct run, wherever the kernel is, where the count of user steps
/// does not overflow.
pub fn hand_steps()
    ensures { HandSteps }
{}

/// So does any number of steps.
pub fn hands_stay()
    ensures { HandsStay }
{}

/// A session that stands between two acts of the host agrees with the direct run, which has not ended at its place.
pub fn standing_is_open()
    ensures { StandingIsOpen }
{}

/// The part of a host turn on tohost, from where a session stands: it stands on, or it is over and the direct run has
/// ended, or it was refused and agrees with the direct run, which has not ended.
pub fn serves_hands()
    ensures { ServesHands }
{}

/// The part on fromhost leaves it standing, or was refused, and agrees.
pub fn gives_hands()
    ensures { GivesHands }
{}

/// So do any number of host turns.
pub fn turns_agree()
    ensures { TurnsAgree }
{}

/// What was followed of a session's text is a session: its ranges, the start word, and host turns, each with what is
/// noted of it.
pub fn texts_are_sessions()
    ensures { TextsAreSessions }
{}

/// A session over a target behind a line is one over what is seen of it.
pub fn sessions_are_seen()
    ensures { SessionsAreSeen }
{}

/// Whatever it answers, a session from reset agrees with the direct run at its place: console, input and files, and in
/// user mode pc, registers and user bytes; and it answers an exit exactly where the direct run has ended there.
pub fn sessions_agree()
    ensures { SessionsAgree }
{}
