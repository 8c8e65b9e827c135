// The kernel's code in blocks: straight runs of it, with what is known where each starts.
//
// The lists in `specs/` and the addresses in `places` are written by tools/kernel_blocks.py, from the kernel's rows in
// `proxy_kernel`; nobody has to trust them. `blocks_go_well` says that each step from a place of a block goes on in it,
// leads to a block that may follow, or is left open (the load of a path's byte, MRET, and the load of FROMHOST). What
// holds in the phases stands in `kernel_sim`.
//
// Nothing here takes memory.
#![tactic(auto)]

ghost use Rattle.kernel_code.specs.Kernel.{BlocksGoWell};

pub mod places;

/// Each block leads to blocks that may follow it.
#[tactic(auto, using(crate::proofs::Explored::blocks_well))]
pub fn blocks_go_well()
    ensures { BlocksGoWell }
{}
