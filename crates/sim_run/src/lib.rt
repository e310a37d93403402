//! The replay of a script: what its joins tell. Calls stand in a pool of ids, each in a slot from its line to the join
//! that tells its end; requests go out on wires, and replies come back as frames that find their calls by id alone.
#![tactic(auto)]

mod acting;
mod call_table;
mod closing;
mod marking;
mod open_call;
mod planning;
mod replaying;
mod rounds;
mod slots;
mod state;
mod ticket;
mod timer;
mod turn;
mod wait;
mod wire;
mod wires;

pub use replaying::{Replaying, replay};
