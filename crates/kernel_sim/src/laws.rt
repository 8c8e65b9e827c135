// The laws of the phases, on which a run of kernel and host stands.
ghost use Rattle.kernel_sim.specs.Begins.{ImageLoads, ResetBegins};
ghost use Rattle.kernel_sim.specs.Advance.{BeginHolds, StepsAdvance, HostWritesHold, StepsLower, WritesLower, StepsBounded};

/// A kernel area that begins with the bytes of `kernel_image` holds the kernel's image.
pub fn image_loads()
    ensures { ImageLoads }
{}

/// Over a start word that is not 0, the first step after reset lets the hart run, as `begin` asks.
pub fn reset_begins()
    ensures { ResetBegins }
{}

/// Over loaded memory, the hart that begins is in Boot.
pub fn begin_holds()
    ensures { BeginHolds }
{}

/// A step of the hart from a phase that holds leads to the next phase, which holds.
pub fn steps_advance()
    ensures { StepsAdvance }
{}

/// A write that the host may make leaves a phase that holds.
pub fn host_writes_hold()
    ensures { HostWritesHold }
{}

/// Each step of the kernel lowers the number of steps left, but for a wait that goes on, a byte that is put or passed,
/// and those behind the exit word.
pub fn steps_lower()
    ensures { StepsLower }
{}

/// A write of the host does not raise the number of steps left.
pub fn writes_lower()
    ensures { WritesLower }
{}

/// How many steps are left from where the hart begins.
pub fn steps_bounded()
    ensures { StepsBounded }
{}
