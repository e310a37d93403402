//! Ids that threads share, after brpc's bthread_id: a range of ids names one value, which one pass at a time can lock,
//! whatever the order of the threads' atomic steps.
//!
//! `Ids` is the table, and a `Pass` is one thread's way to it. A Spot is a slot that is reserved, a Hold a range that is
//! locked, an Owner a range whose value will be collected; each has to be spent. Only `open` takes memory, and only the
//! calls with an `rt` wait.
#![tactic(auto)]

mod answers;
mod claims;
mod ending;
pub mod halves;
mod ids;
mod joining;
mod locking;
mod opening;
mod pass;
mod posting;
mod reserving;
mod taking;
mod waiting;

pub use answers::{CollectEnd, LockEnd, PostEnd, Posted, Reserve, TryLock, TryPost, UnlockEnd};
pub use claims::{Hold, Owner, Spot};
pub use id_rule::{Receipt, Tenant};
pub use ids::Ids;
pub use pass::Pass;

#[cfg(test)]
mod crowd_holding_tests;
#[cfg(test)]
mod crowd_posting_tests;
#[cfg(test)]
mod crowd_tests;
#[cfg(test)]
mod ending_race_tests;
#[cfg(test)]
mod meeting_tests;
#[cfg(test)]
mod post_race_tests;
#[cfg(test)]
mod post_tests;
#[cfg(test)]
mod race_tests;
#[cfg(test)]
mod retired_tests;
#[cfg(test)]
mod tests;
#[cfg(test)]
mod thread_tests;
