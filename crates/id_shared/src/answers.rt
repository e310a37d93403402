//! What the calls answer. An answer that has a token has to be matched, since the token has to be spent.
use crate::claims::{Hold, Owner, Spot};
use id_rule::Receipt;

/// What `reserve` answers.
pub enum Reserve {
    /// A slot is reserved for the range.
    Spot(Spot),
    /// Each slot's word, loaded in this call, wasn't vacant. `Pass::seen` has the words.
    Full,
    /// Another pass was faster: the vacant word as it was loaded, and the word that the exchange found.
    Again(u64, u64),
    /// The range isn't 1 to 1,024.
    BadRange,
}

/// What `try_lock` answers.
pub enum TryLock<T> {
    /// The range is locked, and this is its value.
    Locked(Hold, T),
    /// Another pass has it: the locked word, which has the id's version.
    Held(u64),
    /// The id isn't live: the word that shows it.
    Gone(u64),
    /// The id names no slot of this table.
    NoSlot,
    /// Another pass was faster: the free word as it was loaded, and the word that the exchange found.
    Again(u64, u64),
}

/// What `lock` answers.
pub enum LockEnd<T> {
    /// The range is locked, and this is its value.
    Locked(Hold, T),
    /// The id isn't live: the word that shows it.
    Gone(u64),
    /// The id names no slot of this table.
    NoSlot,
}

/// What `post` answers.
pub enum PostEnd<T> {
    /// The range was free. It is locked now, to handle the error at once, and this is its value.
    Locked(Hold, T),
    /// Another pass has the range, and the error waits for it.
    Queued(Receipt),
    /// The id isn't live: the word that shows it.
    Gone(u64),
    /// The id names no slot of this table.
    NoSlot,
    /// Another pass has the range, and each of this pass's nodes was loaded as not free (`Pass::seen` has the words), or this
    /// pass has numbered 2^64 - 1 receipts.
    NoNode,
}

/// What `unlock` answers.
pub enum UnlockEnd<T> {
    /// The range is unlocked, with its value.
    Unlocked,
    /// So many errors were queued, at least one. The range stays locked, and `next_pending` hands them out.
    Pending(Hold, T, u32),
}

/// What `collect` answers.
pub enum CollectEnd<T> {
    /// The value that the end of the range left.
    Value(T),
    /// The range hasn't ended: the word that shows it, which isn't this range's ended word.
    NotYet(Owner, u64),
}

/// An error that was queued to a held id.
#[derive(Clone, Copy, PartialEq, Eq, Debug)]
pub struct Posted {
    /// The offset of the id in its range.
    pub offset: u32,
    /// The code of the error, below 65,536.
    pub code: u32,
    /// The receipt that its poster was given.
    pub receipt: Receipt,
}

/// What `try_post` answers.
pub enum TryPost<T> {
    /// The range was free. It is locked now, to handle the error at once, and this is its value.
    Locked(Hold, T),
    /// Another pass has the range, and the error waits for it.
    Queued(Receipt),
    /// The id isn't live: the word that shows it.
    Gone(u64),
    /// The id names no slot of this table.
    NoSlot,
    /// Another pass has the range, and each of this pass's nodes was loaded as not free (`Pass::seen` has the words), or this
    /// pass has numbered 2^64 - 1 receipts.
    NoNode,
    /// Another pass was faster: the word as it was loaded, and the word that the exchange found.
    Again(u64, u64),
}
