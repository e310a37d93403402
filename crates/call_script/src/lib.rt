//! The text of a script, read once, line by line, into typed lines; and what a replay tells, as text.
#![tactic(auto)]

mod calls;
mod channel_words;
mod channels;
mod cut;
mod fault;
mod names;
mod reader;
mod reading;
mod words;
mod writing;

pub use fault::ScriptFault;
pub use reading::read_script;
pub use rpc_model::{Act, Cause, Direction, Mode, Script, Serve, Told};
pub use writing::{write_refusal, write_told};

#[cfg(test)]
mod tests;
