//! The laws of loads and stores.
ghost use Rattle.guest_memory.specs.MemoryLaws.{StoresLeave, LoadsGive};

/// A store outside a range leaves what the range loads.
#[tactic(auto, using(crate::proofs::MemoryLemmas::stores_leave))]
pub fn stores_leave()
    ensures { StoresLeave }
{}

/// A load of what was stored gives it, modulo 256 to the power of the width.
#[tactic(auto, using(crate::proofs::MemoryLemmas::loads_give))]
pub fn loads_give()
    ensures { LoadsGive }
{}
