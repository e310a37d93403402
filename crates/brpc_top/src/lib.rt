//! The top call: the words of the command line, a source and a sink go in, and a status comes out.
#![tactic(auto)]

mod command;
mod generated;
mod input;
mod output;
mod status;
mod summary;
mod top;
mod words;

pub use command::Command;
pub use generated::{run_gen, run_load};
pub use status::Status;
pub use top::{run, run_sim};

#[cfg(test)]
mod tests;
