//! The rule of a table of ids that threads share: what every atomic step on it keeps.
//!
//! A slot's word says in one number whether its range of ids is vacant, reserved, free, locked, ended or retired. What
//! a pass knows and has is its view. The rule ties the words, the values at home and all views together, and each kind of
//! step has a `Play` that says what it tells its pass.
#![tactic(auto)]

pub mod laws;
mod plays;
mod rule;
mod tenant;
mod view;
mod word;

pub use plays::{
    Empty, End, Fork, Free, GiveUp, Install, Lay, LetGo, Lift, Lock, Look, Merge, Pick, Push, Read,
    Reserve, Take, TakeAll, Unlock, WriteFirst, WriteSecond,
};
pub use rule::{IdRule, Sizes};
pub use tenant::Tenant;
pub use view::{Known, Notice, Part, Queued, Receipt, Turn, View};
pub use word::{State, Word, is_live, is_locked, is_vacant, pack, unpack};
