use crate::entry::Entry;
use crate::journal::{Came, CancelNote, Fired, How, LossNote};
use crate::sent::Sent;

/// A line of a journal's text. A call and its entries are lines of their own, and so are a wire and its lists, and a lane
/// and its cancels.
#[derive(Debug, Drop, PartialEq, Eq)]
pub enum Line {
    /// A call without its log.
    Call {
        call: u32,
        first: u64,
        width: u32,
        lane: u32,
        moment: u64,
    },
    /// An entry of the call's log.
    Entry(Entry),
    /// The wire of the server of this number, without its lists.
    Wire {
        server: u64,
        how: How,
    },
    /// A request that was sent on the wire.
    Out(Sent),
    /// A frame that came in on the wire.
    In(Came),
    /// A loss of the wire.
    Loss(LossNote),
    /// The fired marks follow.
    Timer,
    /// A mark that fired.
    Mark(Fired),
    /// The lane of this number, without its cancels.
    Lane(u64),
    /// A cancel of the lane.
    Cancel(CancelNote),
}
