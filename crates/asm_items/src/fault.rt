// Why items cannot be assembled.
ghost use Rattle.std.specs.Prelude.{◌≡◌};

use std::alloc::AllocError;
use thiserror::Error;

/// Why items cannot be assembled, with the index, counted from 0, of the first item that has a fault.
#[derive(Clone, Copy, Debug, PartialEq, Eq, Error)]
pub enum AsmFault {
    /// The item names a label that stands nowhere.
    #[error("item {0} names a label that stands nowhere")]
    UnknownLabel(u64),
    /// The item is a later label of a name that an earlier one has.
    #[error("item {0} is a second label of its name")]
    LabelTwice(u64),
    /// The item's label is too far away for its instruction.
    #[error("the label of item {0} is out of its reach")]
    OutOfReach(u64),
    /// There is no memory.
    #[error("there is no memory")]
    OutOfMemory,
}

impl From<AllocError> for AsmFault {
    ghost use Rattle.asm_items.specs.declared.fault.AsmFault.TheVariants.{OutOfMemory};

    ghost from_gives = { λ _ e. e ≡ OutOfMemory };

    fn from(_: AllocError) -> AsmFault {
        AsmFault::OutOfMemory
    }
}
