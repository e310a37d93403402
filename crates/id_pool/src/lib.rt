//! Ids that name one entity each, after brpc's bthread_id: a pool of slots on one thread.
//!
//! An id is a 64-bit number that is never zero. A range of ids that follow each other names one value, which can be
//! locked. An error posted to a locked range waits until the unlock hands it out. A destroyed range keeps its last
//! value until its owner collects it.
#![tactic(auto)]

mod answers;
mod cell;
mod entry;
mod id;
mod law;
mod pool;

pub use answers::{Cancel, Collect, Destroy, Lock, Post, Refused, Unlock};
pub use id::{make_id, slot_of, version_of};
pub use law::gone_stays_gone;
pub use pool::Pool;

#[cfg(test)]
mod tests;
