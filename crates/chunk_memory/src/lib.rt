// Ranges of guest memory, moved by chunks over a port.
//
// - `ChunkPort` moves chunks: some whole units of 4 or 8 bytes, one after the other. A port tells its wire's state, what
//   a chunk does to it, made or refused, and which accesses of the target's memory these are.
// - `DirectPort` is a port by a wire of doublewords, one beat for each. `RamPort` is one to a bus that was lent: it makes
//   no transaction, and never refuses.
// - `Chunked` reads and writes ranges of bytes, at any address, over any port. It refuses a range that is not mapped
//   whole before it makes a transaction, and tells its first doubleword that is not; else it cuts the range into chunks
//   (`specs/Transactions`), and of a unit that a write does not fill it first reads the other bytes. Over a port that is
//   told and ready the accesses are those that spell the range (`specs/Spelling`).
// - `laws` says what the accesses of a range come to: of a doubleword, and over a bus.
//
// None of these calls takes memory.
#![tactic(auto)]

mod chunked;
mod direct_port;
pub mod laws;
mod mapped;
mod port;
mod ram_port;
mod stops;
#[cfg(test)]
mod tests;

pub use chunked::Chunked;
pub use direct_port::DirectPort;
pub use port::ChunkPort;
pub use ram_port::RamPort;
pub use stops::{MemStop, PortStop};
