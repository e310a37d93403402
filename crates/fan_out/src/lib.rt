//! The merging of a parallel call's parts.
//!
//! What mappers and mergers are, and how those of a script answer, stands in `rpc_model`, whose words this crate hands on.
//! A mapper or merger of a user's own type works through the same traits.
#![tactic(auto)]

mod asking;
mod folding;

pub use asking::ask_all;
pub use folding::fold_parts;
pub use rpc_model::{MapKind, Mapped, Mapper, MergeKind, Merged, Merger, Part, Verdict};

#[cfg(test)]
mod tests;
