//! What a pass knows and has, as plain data for contracts. Running code makes values of `Receipt` alone.
use std::collections::LinkedList;

/// The number that a pass gave to an error which it queued. A pass numbers from 0.
#[derive(Clone, Copy, PartialEq, Eq, Debug)]
pub struct Receipt {
    pub pass: u32,
    pub number: u64,
}

/// An error as it was queued: to the id at this offset in the slot's range with this first version, with this code, under
/// this receipt.
pub struct Notice {
    pub slot: u64,
    pub first: u64,
    pub offset: u64,
    pub code: u64,
    pub receipt: Receipt,
}

/// What a holder's pass knows of its lock.
pub struct Turn<E> {
    /// The log at the lock.
    pub log: LinkedList<E>,
    /// Whether the slot is out with the pass, as it is within a call alone.
    pub out: bool,
    /// Whether the pass has seen that errors wait, and hasn't taken them yet.
    pub waits: bool,
}

/// A log of the range with this first version.
pub struct Known<E> {
    pub first: u64,
    pub log: LinkedList<E>,
}

/// What a pass knows and has of one slot. A range is its first version and its size.
pub struct Part<E> {
    pub spot: Option<(u64, u64)>,
    pub hold: Option<(u64, u64)>,
    pub owner: Option<(u64, u64)>,
    /// The logs that it has seen or written.
    pub logs: LinkedList<Known<E>>,
    /// The range whose ended slot it took as Owner, and hasn't given back yet.
    pub taking: Option<(u64, u64)>,
    /// Each version below this one is of a range that it has seen end.
    pub ended_below: u64,
    /// The receipts of the errors that it queued, each with its range's first version.
    pub receipts: LinkedList<(u64, Receipt)>,
    /// The receipts that it dropped when it destroyed ranges.
    pub dropped: LinkedList<(u64, Receipt)>,
    /// The receipts that left the chain since its lock, oldest first.
    pub got: LinkedList<Receipt>,
    /// What it knows of its lock, while it has the Hold.
    pub turn: Option<Turn<E>>,
    /// The last logs of the ranges that it collected.
    pub last: LinkedList<Known<E>>,
    /// The first versions of the ranges that it destroyed.
    pub destroyed: LinkedList<u64>,
}

/// What a pass knows and has.
pub struct View<E> {
    /// Its own number, then those of the passes that were joined into it.
    pub numbers: LinkedList<u64>,
    /// How many nodes each pass has.
    pub width: u64,
    /// How many nodes all passes have together.
    pub total: u64,
    /// How many receipts it numbered under its own number.
    pub sent: u64,
    /// The number of the next new pass, where this is the first one.
    pub next: Option<u64>,
    /// All words that it loaded, each with its place in the table.
    pub seen: LinkedList<(u64, u64)>,
    /// What it knows and has of slots, the last change first.
    pub parts: LinkedList<(u64, Part<E>)>,
    /// The node that its running call has in hand, with its two words.
    pub hand: Option<(u64, u64, u64)>,
    /// The nodes that its running call took, last pushed first.
    pub taken: LinkedList<Queued>,
    /// The errors that it queued, and those that it took.
    pub notices: LinkedList<Notice>,
}

/// An error that waits in a node.
pub struct Queued {
    pub node: u64,
    pub offset: u64,
    pub code: u64,
    pub receipt: Receipt,
}
