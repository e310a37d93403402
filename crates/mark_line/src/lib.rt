//! The queue of marks to the worker that keeps the timer, shared by threads.
//!
//! Each thread has a pass, which knows the marks that it registered and those that it took. Passes are joined when
//! threads end. A pass that holds all passes of a line and finds the queue empty has taken each mark that was
//! registered, as often as it was.
#![tactic(auto)]

mod line;
mod log;

pub use line::{MarkLine, MarkPass};

#[cfg(test)]
mod tests;
