// Laws of the call table: each function does nothing, and its contract is the law.
ghost use Rattle.host_text.specs.SurePorts.{NeverRefuses};
ghost use Rattle.syscall_proxy.specs.Laws.{CallsAreRows, ExitsWriteNothing, LeavesUser, PortsAreSure, PortsServe};
ghost use Rattle.syscall_proxy.specs.Laws.{ReadsUser, RefusalsLeave, RefusalsStand, ResultsAreSmall, RowsActOnce};
ghost use Rattle.syscall_proxy.specs.Laws.{RowsEnd, RowsKeepSizes, RowsKeepWorlds, RowsStayInside, WritesUser};

use chunk_memory::{ChunkPort, RamPort};
use fe_base::{Sink, Source};
use folder_tree::Folder;

/// A port to a target whose user area is known.
pub trait UserMemory {
    ghost use Rattle.std.specs.Prelude.{List, ℕ};

    /// These bytes stand in the user area.
    ghost holds: { Self → List ℕ → Type 0 };
}

/// A port of which it is known where a refusal leaves it.
pub trait LeftMemory {
    ghost use Rattle.std.specs.Prelude.{List, ℕ};

    /// So it is left, where these bytes stood in the user area.
    ghost left: { Self → List ℕ → Type 0 };
}

/// Every row of the table acts once, behind its last call of the outside or where its answer is decided.
pub fn rows_act_once()
    ensures { RowsActOnce }
{}

/// A row touches the user area alone, where the range that its request names stands in it.
pub fn rows_stay_inside()
    ensures { RowsStayInside }
{}

/// An exit is the last act of its row: the guest is not written.
pub fn exits_write_nothing()
    ensures { ExitsWriteNothing }
{}

/// In a world every row comes to an end.
pub fn rows_end()
    ensures { RowsEnd }
{}

/// There its result is below 2^64, and its status below 256.
pub fn results_are_small()
    ensures { ResultsAreSmall }
{}

/// There it leads to a world.
pub fn rows_keep_worlds()
    ensures { RowsKeepWorlds }
{}

/// There it leaves the size of the user area.
pub fn rows_keep_sizes()
    ensures { RowsKeepSizes }
{}

/// Over memory that is known and objects that tell a world, a call that is carried out is the host's row.
pub fn calls_are_rows<P: ChunkPort + UserMemory, F: Folder, I: Source, C: Sink>()
    requires reads { ReadsUser P.ChunkPort P.holds }
    requires writes { WritesUser P.ChunkPort P.holds }
    ensures { CallsAreRows P.ChunkPort F.Folder I.Source C.Sink P.holds }
{}

/// Where it is also known how a refusal leaves the port, a call that is not carried out had not acted, and what is told
/// and kept is as it was, but for one open more of a file that openat was to cut; or the port refused a write of the
/// guest behind all else of the row.
pub fn refusals_stand<P: ChunkPort + UserMemory + LeftMemory, F: Folder, I: Source, C: Sink>()
    requires reads { ReadsUser P.ChunkPort P.holds }
    requires writes { WritesUser P.ChunkPort P.holds }
    requires leaves { LeavesUser P.ChunkPort P.holds P.left }
    ensures { RefusalsStand P.ChunkPort F.Folder I.Source C.Sink P.holds P.left }
{}

/// Where the port refuses no chunk, a call that is not carried out leaves all as it was, but for one open more of
/// a file that openat was to cut.
pub fn refusals_leave<P: ChunkPort + UserMemory, F: Folder, I: Source, C: Sink>()
    requires reads { ReadsUser P.ChunkPort P.holds }
    requires writes { WritesUser P.ChunkPort P.holds }
    requires sure { NeverRefuses P.ChunkPort }
    ensures { RefusalsLeave P.ChunkPort F.Folder I.Source C.Sink P.holds }
{}

/// A port to a bus tells its state, and refuses no chunk.
pub fn ram_ports_never_refuse()
    ensures { NeverRefuses ⟦<RamPort<'static> as ChunkPort>⟧ }
{}

/// Over a port that refuses no chunk, a call has no fault of the port but Unmapped, whatever the objects tell.
pub fn sure_ports_are_mapped<P: ChunkPort, F: Folder, I: Source, C: Sink>()
    requires { NeverRefuses P.ChunkPort }
    ensures { PortsAreSure P.ChunkPort F.Folder I.Source C.Sink }
{}

/// And none at all where the range that its request names stands in the user area.
pub fn sure_ports_serve<P: ChunkPort, F: Folder, I: Source, C: Sink>()
    requires { NeverRefuses P.ChunkPort }
    ensures { PortsServe P.ChunkPort F.Folder I.Source C.Sink }
{}
