use crate::entry::{Entry, Fate};
use crate::sent::Sent;
use rpc_base::{Bytes, List};

/// What a run of a script on threads wrote down. It is this project's own choice.
#[derive(Debug, Drop, PartialEq, Eq)]
pub struct Journal {
    /// The calls, in the order of the script's call lines.
    pub calls: List<CallLog>,
    /// The wires by the numbers of their servers.
    pub wires: List<WireLog>,
    /// The marks that fired, in order.
    pub marks: List<Fired>,
    /// The lanes by their numbers.
    pub lanes: List<LaneLog>,
}

/// A call of a run.
#[derive(Debug, Drop, PartialEq, Eq)]
pub struct CallLog {
    /// The call's number in the script.
    pub call: u32,
    /// The first id of its range.
    pub first: u64,
    /// How many ids its range has.
    pub width: u32,
    /// The lane that began it.
    pub lane: u32,
    /// The moment of its start, in milliseconds.
    pub moment: u64,
    /// What was applied to it, in order.
    pub log: List<Entry>,
}

/// How a wire ended.
#[derive(Clone, Copy, Debug, PartialEq, Eq)]
pub enum How {
    /// Its reading met the end.
    End,
    /// Its reading or its writing failed.
    Fault,
    /// A frame that came in was bad.
    Bad,
    /// More bytes came in than a wire may carry.
    Full,
}

/// A wire of a run.
#[derive(Debug, Drop, PartialEq, Eq)]
pub struct WireLog {
    pub how: How,
    /// The requests that were sent on it, in order.
    pub out: List<Sent>,
    /// The frames that came in on it, in order.
    pub came: List<Came>,
    /// The attempts that were lost on it, in order.
    pub losses: List<LossNote>,
}

/// A frame that came in on a wire.
#[derive(Debug, Drop, PartialEq, Eq)]
pub struct Came {
    /// Its correlation id as a number without a sign, 0 where it has none.
    pub id: u64,
    /// The code that its meta tells.
    pub code: u32,
    pub payload: Bytes,
    pub fate: Fate,
}

/// An attempt that was lost on a wire.
#[derive(Clone, Copy, Debug, PartialEq, Eq)]
pub struct LossNote {
    /// The attempt's id.
    pub id: u64,
    pub code: u32,
    /// How many frames had come in on the wire before.
    pub after: u64,
    pub fate: Fate,
}

/// A mark that fired.
#[derive(Clone, Copy, Debug, PartialEq, Eq)]
pub struct Fired {
    /// The mark's moment, in milliseconds.
    pub due: u64,
    /// The clock's moment when it fired.
    pub now: u64,
    /// The node's id.
    pub id: u64,
    pub code: u32,
    pub fate: Fate,
}

/// A lane of a run.
#[derive(Debug, Drop, PartialEq, Eq)]
pub struct LaneLog {
    /// Its cancels, in order.
    pub cancels: List<CancelNote>,
}

/// A cancel, and what became of it.
#[derive(Clone, Copy, Debug, PartialEq, Eq)]
pub struct CancelNote {
    /// The call's first id.
    pub id: u64,
    pub fate: Fate,
}
