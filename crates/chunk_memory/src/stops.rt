// Why a chunk or a range was not moved.
ghost use Rattle.std.specs.Prelude.{◌≡◌};
ghost use Rattle.chunk_memory.specs.Ports.{of_port};

/// Why a port did not move a chunk.
#[derive(Clone, Copy, Debug, PartialEq, Eq)]
pub enum PortStop {
    /// No transaction was left as one had to be made.
    Spent,
    /// The wire failed.
    WireFault,
    /// A command of the debug module ended with this error.
    CmdErr(u8),
}

/// Why a range of memory was not moved.
#[derive(Clone, Copy, Debug, PartialEq, Eq)]
pub enum MemStop {
    /// The doubleword at this address is the first of the range that is not mapped.
    Unmapped(u64),
    /// No transaction was left as one had to be made.
    Spent,
    /// The wire failed.
    WireFault,
    /// A command of the debug module ended with this error.
    CmdErr(u8),
}

/// A port's refusal, as memory answers it.
pub(crate) fn mem_stop(stop: PortStop) -> MemStop
    ensures { result ≡ of_port stop }
{
    match stop {
        PortStop::Spent => MemStop::Spent,
        PortStop::WireFault => MemStop::WireFault,
        PortStop::CmdErr(number) => MemStop::CmdErr(number),
    }
}
