//! A whole call: its nodes, its log, and what each event makes it do. It is the plain machine of its log.
#![tactic(auto)]

mod asking;
mod bare_call;
mod below;
mod call;
mod counts;
mod deciding;
mod effects;
mod folding;
mod following;
mod happening;
mod laws;
mod leaf_node;
mod nodes;
mod outbox;
mod par_node;
mod sel_node;
mod starting;
mod stepping;
mod taking;

pub use bare_call::BareCall;
pub use call::Call;
pub use effects::Effects;
pub use laws::calls_are_the_machines_of_their_logs;
pub use outbox::Spare;
pub use rpc_model::{MarkAt, Send};

#[cfg(test)]
mod tests;
