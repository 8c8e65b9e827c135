// What ranges come to, as laws of the definitions: each function does nothing, and its contract is the law.
ghost use Rattle.std.specs.Prelude.{ℕ, List};
ghost use Rattle.fe_base.specs.Access.{Access};
ghost use Rattle.chunk_memory.specs.RangeLaws.{KeepsArea, KeepsRanges, DoublewordsLoaded, DoublewordsStored, BusReadsUser, BusReadsKernel, BusWritesUser, BusWritesKernel};

/// An area of memory, as it is seen.
pub trait SeenArea {
    /// What is seen of the target.
    ghost View: { Type 0 };

    /// So many steps of the hart were made.
    ghost ran: { View → ℕ → View → Type 0 };

    /// One access was made.
    ghost touched: { View → Access → View → Type 0 };

    /// Where the area begins.
    ghost start: { ℕ };

    /// How many bytes it has.
    ghost size: { ℕ };

    /// These bytes stand in it.
    ghost has: { List ℕ → View → Type 0 };
}

/// A read of 8 bytes at a multiple of 8 is one load.
#[tactic(auto, using(crate::proofs::BusRanges::doublewords_loaded))]
pub fn doublewords_loaded()
    ensures { DoublewordsLoaded }
{}

/// A write of 8 bytes at a multiple of 8 is one store.
#[tactic(auto, using(crate::proofs::BusRanges::doublewords_stored))]
pub fn doublewords_stored()
    ensures { DoublewordsStored }
{}

/// Where nothing but stores changes an area, a range of it that is read gives the bytes that stand there, and one that is
/// written stands there afterwards.
pub fn areas_keep_ranges<A: SeenArea>()
    requires { KeepsArea A.ran A.touched A.start A.size A.has }
    ensures { KeepsRanges A.ran A.touched A.start A.size A.has }
{}

/// Over a bus, a read of the user area gives the bytes that stand there, and leaves the bus.
pub fn bus_reads_user()
    ensures { BusReadsUser }
{}

/// Over a bus, a read of the kernel area gives the bytes that stand there, and leaves the bus.
pub fn bus_reads_kernel()
    ensures { BusReadsKernel }
{}

/// Over a bus, a write to the user area puts its bytes there, and leaves all else.
pub fn bus_writes_user()
    ensures { BusWritesUser }
{}

/// Over a bus, a write to the kernel area puts its bytes there, and leaves all else.
pub fn bus_writes_kernel()
    ensures { BusWritesKernel }
{}
