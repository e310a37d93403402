//! Frames of brpc's baidu_std protocol, read from a stream that comes in pieces of any size, and written.
//!
//! `Frames` takes pieces and hands out whole frames. What it hands out depends on the bytes alone and never on how they
//! were cut. `write_frame` appends the one spelling of a frame.
#![tactic(auto)]

mod fault;
mod frame;
mod frames;
mod header;
mod law;
mod reading;
mod taking;
mod writing;

pub use fault::FeedFault;
pub use frame::Frame;
pub use frames::Frames;
pub use law::{any_pieces, begins_with_spelled};
pub use writing::{frame_fits, write_frame, write_parts};

#[cfg(test)]
mod tests;
