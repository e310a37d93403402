//! Which journals are lawful: what a run of a script on threads wrote down agrees with the script, with the plain machine
//! of each call, and with itself.
//!
//! The rule has ten parts, which stand in `specs/` each as a relation and as a test that computes. The laws say that the
//! tests decide the relations. The machine that the parts speak of is the one of `rpc_model`.
#![tactic(auto)]

mod laws;
mod part;

pub use laws::{
    calls_are_decided, cancels_are_decided, ends_are_decided, first_joins_tell_ends,
    gone_words_are_decided, lawful_is_decided, lawful_is_unbroken, losses_are_decided,
    marks_are_decided, ranges_are_apart, ranges_are_decided, requests_are_decided,
    sources_are_decided, strays_are_decided, the_example_is_lawful,
};
pub use part::Part;

#[cfg(test)]
mod rows;
#[cfg(test)]
mod tests;
