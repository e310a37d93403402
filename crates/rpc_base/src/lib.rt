//! The outside of the client runtime, as traits: where bytes come from and where they go, clocks, wires and nets of them.
//!
//! Each trait has a meaning and a count of faults. Code that is generic over a trait can't raise the count, so a clause
//! "this answer only where the count rose" says that the outside failed, and not that the code gave up. Beside the
//! traits stand versions of them in memory, and the two lists that public types hold.
#![tactic(auto)]

mod bytes;
mod clock;
mod fault;
mod gate;
mod list;
mod mem_clock;
mod mem_net;
mod mem_sink;
mod mem_source;
mod mem_wire;
mod net;
mod pipe;
mod sink;
mod source;
mod wire;

pub use bytes::Bytes;
pub use clock::Clock;
pub use fault::{Failed, NoMemory};
pub use gate::{Gate, OpenGate};
pub use list::List;
pub use mem_clock::MemClock;
pub use mem_net::{EndKind, EndPace, MemEnds, MemNet};
pub use mem_sink::MemSink;
pub use mem_source::MemSource;
pub use mem_wire::{MemIn, MemOut, Pace, mem_pair};
pub use net::{Ends, Net};
pub use sink::Sink;
pub use source::Source;
pub use wire::{WireIn, WireOut};

#[cfg(test)]
mod tests;
