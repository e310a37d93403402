use crate::event::Event;

/// Where an entry of a call's log came from.
#[derive(Clone, Copy, Debug, PartialEq, Eq)]
pub enum Origin {
    /// The frame of this place among those that came in on this wire.
    Frame { wire: u32, place: u64 },
    /// The loss of this place on this wire.
    Loss { wire: u32, place: u64 },
    /// The fired mark of this place.
    Mark { place: u64 },
    /// The cancel of this place on this lane.
    Lane { lane: u32, place: u64 },
    /// The queued error of this number of this pass. It stands in logs during a run and never in a journal.
    Queued { pass: u32, number: u64 },
}

/// An entry of a call's log: an event that was applied to the call, with its moment in milliseconds.
#[derive(Debug, Drop, PartialEq, Eq)]
pub struct Entry {
    pub event: Event,
    pub moment: u64,
    pub from: Origin,
}

/// What became of something that came to a call.
#[derive(Clone, Copy, Debug, PartialEq, Eq)]
pub enum Fate {
    /// It stands in this call's log at this place.
    Entry(u32, u32),
    /// Its id was gone, as this word of the table of ids showed.
    Gone(u64),
    /// Its id is no attempt's.
    Stray,
    /// It was still queued when this call ended.
    Dropped(u32),
    /// It is queued, under this number of this pass. It stands in lists during a run and never in a journal.
    Queued(u32, u64),
}
