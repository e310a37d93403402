//! The plain machine: what a script says, what a call is on channels of all kinds, and what the joins of a script tell, by
//! definitions that compute on lists and numbers and know nothing of slots, versions, locks, frames or timers.
//!
//! The definitions stand in `specs/`; the types that they speak of stand here. Every contract of the crates above cites
//! them.
#![tactic(auto)]

mod chan;
mod codes;
mod direction;
mod effects;
mod entry;
mod event;
mod journal;
mod kinds;
mod limits;
mod line;
mod mapper;
mod meaning;
mod merger;
mod part;
mod script;
mod sent;
mod told;

pub use chan::{Chan, LeafChan, ParChan, PartChan, SelChan, Sub, Tag};
pub use codes::{
    EBACKUPREQUEST, ECANCELED, ECONNREFUSED, ECONNRESET, EFAILEDSOCKET, EHOSTDOWN, EINTERNAL,
    ELIMIT, ELOGOFF, ENOMETHOD, ENOSERVICE, EPCHANFINISH, EPIPE, EREQUEST, ERESPONSE, ERPCTIMEDOUT,
    ETOOMANYFAILS, retriable,
};
pub use direction::Direction;
pub use effects::{MarkAt, Send};
pub use entry::{Entry, Fate, Origin};
pub use event::{End, Event};
pub use journal::{CallLog, Came, CancelNote, Fired, How, Journal, LaneLog, LossNote, WireLog};
pub use kinds::{MapKind, MergeKind};
pub use limits::{
    ATTEMPT_WEIGHT, CALL_NUMBER_LIMIT, CHANNEL_LIMIT, CODE_LIMIT, DEFAULT_SLOTS, DELAY_LIMIT,
    DEPTH_LIMIT, END_LIMIT, EVENT_LIMIT, LINE_LIMIT, LIVE_CALL_LIMIT, LIVE_WEIGHT_LIMIT,
    MOMENT_LIMIT, NAME_LIMIT, PART_LIMIT, RETRY_LIMIT, SCRIPT_LIMIT, SERVER_LIMIT,
    SERVER_NAME_LIMIT, SIM_CALL_LIMIT, SIM_WEIGHT_LIMIT, SLOT_LIMIT, SUB_LIMIT, TAG_LIMIT,
    TEXT_LIMIT, WAIT_LIMIT, WIDTH_LIMIT,
};
pub use line::Line;
pub use mapper::{Mapped, Mapper};
pub use meaning::Meaning;
pub use merger::{Merged, Merger, Verdict};
pub use part::Part;
pub use script::{Act, Cause, Mode, Script, Serve};
pub use sent::Sent;
pub use told::Told;

#[cfg(test)]
mod mapping_tests;
#[cfg(test)]
mod tests;
