//! A set of numbers below 4096, in 64 words of 64 bits and one word that says which of them have a bit. To put a number
//! in, to take one out and to find the least take constant time and no memory.
#![tactic(auto)]

mod bits;

pub use bits::BitSet;

#[cfg(test)]
mod tests;
