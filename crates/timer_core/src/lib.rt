//! The marks of a timer: moments at which a call's deadline or backup request is due, handed out in one fixed order.
//!
//! A mark is taken by moment, then by rank, then in the order of adding. Contracts see the marks as the list in which
//! they will be taken, and not how they are kept.
#![tactic(auto)]

mod chains;
mod entry;
mod home;
mod laws;
mod links;
mod mark;
mod marks;
mod wheel;

pub use laws::{equal_marks_keep_their_order, marks_are_kept, marks_are_sorted};
pub use mark::Mark;
pub use marks::Marks;

#[cfg(test)]
mod tests;
