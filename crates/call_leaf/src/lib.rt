//! The leaf of a call: its attempts, one backup request, and its end.
#![tactic(auto)]

mod event;
mod leaf;

pub use event::{LeafEvent, LeafStep};
pub use leaf::Leaf;

#[cfg(test)]
mod tests;
