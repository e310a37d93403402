use rpc_base::List;
use rpc_model::{MarkAt, Send};

/// What a step made a call do, in the order in which it came about.
#[derive(Debug, Drop, PartialEq, Eq)]
pub struct Effects {
    /// The requests that go out.
    pub sends: List<Send>,
    /// The marks that are set.
    pub marks: List<MarkAt>,
    /// Whether the call has an end now.
    pub ended: bool,
}
