//! The lists of one wire: what went out on it, in order, the ids that still wait for a reply, and what came in and was
//! lost.
//!
//! Contracts see the first as the list of what was sent, the second as the list of the ids with their calls, in the order
//! of adding, and the third as two lists in the order of noting.
#![tactic(auto)]

mod entries;
mod inlog;
mod outlog;
mod outstanding;

pub use inlog::Inlog;
pub use outlog::Outlog;
pub use outstanding::Outstanding;

#[cfg(test)]
mod tests;
