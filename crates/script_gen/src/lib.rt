//! The generated script: for each number of calls one script over four channels, made from that number alone.
#![tactic(auto)]

mod draw;
mod law;
mod writing;

pub use law::generated_scripts_are_accepted;
pub use writing::generate;

#[cfg(test)]
mod tests;
