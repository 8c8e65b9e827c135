// Laws of the definitions: each function does nothing, and its contract is the law.
ghost use Rattle.rv_alu.specs.Laws.{EffectsInRange};

/// The effect of an instruction whose fields are in range is in range.
#[tactic(auto, using(crate::proofs::RangeLemmas::effects_in_range))]
pub fn effects_in_range()
    ensures { EffectsInRange }
{}
