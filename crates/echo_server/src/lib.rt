//! An echo server of baidu_std: what it answers to a request, by its directions in turn, and the loop that serves a wire.
//!
//! The service is `rpc.Echo` with the method `Echo`. `Echo::answer` gives the answer to one frame. `serve_loop` reads a
//! wire to its end, writes the answers to the frames that came, in order, and says why it ended. `read_piece` and
//! `write_all` are its two steps on a wire, for other loops too.
#![tactic(auto)]

mod answer;
mod echo;
mod law;
mod piece;
mod served;
mod serving;
mod writing;

pub use answer::Answer;
pub use echo::{Echo, METHOD, SERVICE, are_directions};
pub use law::requests_follow_directions_in_turn;
pub use piece::{Brought, read_piece};
pub use served::Served;
pub use serving::serve_loop;
pub use writing::write_all;

#[cfg(test)]
mod tests;
