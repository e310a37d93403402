//! The journal of a run on threads as text, both ways.
//!
//! `write_journal` appends the one spelling of a journal.
#![tactic(auto)]

mod draft;
mod fault;
mod kinds;
mod law;
mod lines;
mod numbers;
mod open;
mod reading;
mod said;
mod words;
mod writing;

pub use fault::JournalFault;
pub use law::reads_what_is_written;
pub use reading::read_journal;
pub use writing::write_journal;

#[cfg(test)]
mod tests;
