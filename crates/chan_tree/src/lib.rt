//! The plan of a call: the tree of its nodes, and the ids that its nodes and attempts get.
#![tactic(auto)]

mod building;
mod measuring;
mod places;
mod planning;
mod plans;
mod sound;
mod table;
mod tree;
mod walking;

pub use measuring::Measure;
pub use places::last_up_to;
pub use planning::{PlanFault, known_plan, plan};
pub use plans::Plan;
pub use rpc_model::{Chan, ParChan, PartChan, SelChan, Sub, Tag};
pub use sound::are_sound;
pub use tree::{PlanNode, PlanTree, Rule};
pub use walking::{Size, retry_at, size_of};

#[cfg(test)]
mod tests;
