// Laws of the definitions: each function does nothing, and its contract is the law.
ghost use Rattle.plain_machine.specs.Laws.{PostsInside, UserStepsTrap};

/// A user step never traps by the cause of a call: a call is a step of its own.
#[tactic(auto, using(crate::proofs::TrapLaws::user_steps_trap))]
pub fn user_steps_trap()
    ensures { UserStepsTrap }
{}

/// What a call's kernel part posts names a range of the user area, if any.
pub fn posts_inside()
    ensures { PostsInside }
{}
