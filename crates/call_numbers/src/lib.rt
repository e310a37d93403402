//! The numbers of calls in the order of their lines, each found by itself.
#![tactic(auto)]

mod numbers;

pub use numbers::Numbers;

#[cfg(test)]
mod tests;
