// What is known of a hart that runs a code in machine mode, and where its steps lead.
//
// A *state* says by terms what is known of a hart at one address of the code: its registers, its control and status
// registers, the doublewords behind the code, and how comparisons came out. From a state the *successors* of a step are
// computed. A code is cut into *blocks*, straight runs of it with what is known where they start; that each block leads
// to blocks is a test that is computed. `steps_are_successors` and `blocks_lead` are the two laws on which a proof of a
// code stands: what was computed holds of the hart step. No code is known here; the crates above have one.
//
// Nothing here takes memory.
#![tactic(auto)]

ghost use Rattle.kernel_steps.specs.Blocks.{StepsAreSuccessors, BlocksLead};

/// From a place of the code at which a state is known, a step leads to one of its successors.
#[tactic(auto, using(crate::proofs::GraphLaws::steps_are_successors))]
pub fn steps_are_successors()
    ensures { StepsAreSuccessors }
{}

/// Where each block goes well, a step from a place of a block stays in its kind, goes into one that may follow it, or
/// is left open.
#[tactic(auto, using(crate::proofs::GraphLaws::blocks_lead))]
pub fn blocks_lead()
    ensures { BlocksLead }
{}
