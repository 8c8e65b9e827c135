// What a call answers, and why it is not carried out.
use chunk_memory::MemStop;

/// What a call answers.
#[derive(Clone, Copy, Debug, PartialEq, Eq)]
pub enum CallAnswer {
    /// The result, for the program's register a0.
    Result(u64),
    /// The program ends with this status.
    Exit(u8),
}

/// Why a call was not carried out.
#[derive(Clone, Copy, Debug, PartialEq, Eq)]
pub enum CallFault {
    /// The guest's memory was not read or written.
    Port(MemStop),
    /// The folder failed.
    FileFault,
    /// The input failed.
    InputFault,
    /// The console failed.
    ConsoleFault,
    /// The folder found no memory.
    OutOfMemory,
}
