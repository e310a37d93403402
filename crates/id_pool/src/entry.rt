ghost use Rattle.std.specs.Option.{option_map};
ghost use Rattle.std.specs.Prelude.{◌≡◌, ◌-◌, ◌^◌, ◌<◌, ◌≤◌, IfSome, IfNone, IfOk, OnOk, OnErr, ◌+◌, true, false};
ghost use Rattle.id_pool.specs.Ranges as ranges;
ghost use Rattle.id_pool.specs.Answers as answers;

use crate::answers::{Cancel, Destroy, Lock, Post, Unlock};
use rpc_base::NoMemory;
use std::alloc::Global;
use std::collections::VecDeque;
use std::marker::Model;

/// The most versions of a range.
pub(crate) const MOST_VERSIONS: u32 = 1024;

/// The greatest first version of a range: a slot whose next range would begin above it is never used again.
pub(crate) const LAST_FIRST: u32 = u32::MAX - 1023;

/// How a range stands.
#[derive(Drop)]
enum State {
    /// It is unlocked.
    Free,
    /// It is locked, and these errors wait, as (offset, code), oldest first.
    Held(VecDeque<(u32, u32)>),
    /// It is destroyed, and its value waits for its owner.
    Ended,
}

/// One range of versions with the value that they name.
#[derive(Drop)]
pub(crate) struct Entry<T> {
    first: u32,
    size: u32,
    value: T,
    used: bool,
    state: State,
}

impl<T> Model for Entry<T> {
    ghost use Rattle.id_pool.specs.Ranges.{Range};

    ghost Value = { Range T };

    ghost use Rattle.id_pool.specs.View.{standing_of};

    ghost view = { λ e. record { first = e.first; size = e.size; value = e.value; used = e.used; standing = standing_of e.state } };

    ghost use Rattle.std.specs.Prelude.{◌≤◌, ◌-◌, ◌^◌};

    ghost invariant = { λ e. (1 ≤ e.first) × (e.first ≤ 2 ^ 32 - 1024) × (1 ≤ e.size) × (e.size ≤ 1024) };
}

impl<T: Drop> Entry<T> {
    ghost use Rattle.std.specs.Borrow.{sem};
    ghost use Rattle.id_pool.specs.CellLends.{lends_entry};

    /// The version's place in this range.
    fn offset(&self, version: u32) -> Option<u32>
        ensures { result ≡ ranges.offset self.now version }
    {
        let offset = version.checked_sub(self.first)?;
        if offset < self.size {
            Some(offset)
        } else {
            None
        }
    }

    /// Locks the range that holds this version.
    pub(crate) fn lock(&mut self, alloc: Global, version: u32) -> Lock
        ensures answer { result ≡ answers.lock_says (ranges.seen version (ranges.Taken self.old)) }
        ensures after { ranges.Taken self.new ≡ ranges.locked version (ranges.Taken self.old) }
    {
        let Some(offset) = self.offset(version) else {
            return Lock::Gone;
        };
        match &self.state {
            State::Free => {
                self.used = true;
                self.state = State::Held(VecDeque::new(alloc));
                Lock::Yes(offset)
            }
            State::Held(_) => Lock::Held,
            State::Ended => Lock::Gone,
        }
    }

    /// A range that was just created.
    pub(crate) fn new(first: u32, size: u32, value: T) -> Entry<T>
        requires begins { 1 ≤ first }
        requires low { first ≤ 2 ^ 32 - 1024 }
        requires some { 1 ≤ size }
        requires few { size ≤ 1024 }
        ensures { result ≡ ranges.fresh first size value }
    {
        Entry {
            first,
            size,
            value,
            used: false,
            state: State::Free,
        }
    }

    /// The version's place in this range, unless it has ended.
    pub(crate) fn find(&self, version: u32) -> Option<u32>
        ensures answer { result ≡ answers.find_says (ranges.seen version (ranges.Taken self.now)) }
        ensures bound { IfSome result (λ k. k < 1024) }
    {
        let offset = self.offset(version)?;
        match self.state {
            State::Ended => None,
            _ => Some(offset),
        }
    }

    /// Its value, where it holds the version and hasn't ended.
    pub(crate) fn peek(&self, version: u32) -> Option<&T>
        ensures { option_map (λ v. v.now) result ≡ answers.value_says (ranges.seen version (ranges.Taken self.now)) }
    {
        self.find(version)?;
        Some(&self.value)
    }

    /// Makes a locked range so wide, unless that is narrower than before or too wide.
    pub(crate) fn reset_range(&mut self, version: u32, size: u32) -> bool
        ensures answer { result ≡ answers.reset_says (ranges.seen version (ranges.Taken self.old)) size }
        ensures after { ranges.Taken self.new ≡ ranges.resized version size (ranges.Taken self.old) }
    {
        let State::Held(_) = self.state else {
            return false;
        };
        if self.offset(version).is_none() || size < self.size || size > MOST_VERSIONS {
            return false;
        }
        self.size = size;
        true
    }

    /// Locks the range for the caller, or queues the error of a locked one.
    pub(crate) fn post(&mut self, alloc: Global, version: u32, code: u32) -> Result<Post, NoMemory>
        ensures answer { IfOk result (λ post. post ≡ answers.post_says (ranges.seen version (ranges.Taken self.old))) }
        ensures after { OnOk result (ranges.Taken self.new ≡ ranges.posted version code (ranges.Taken self.old)) }
        ensures failed { OnErr result (self.new ≡ self.old) }
        ensures memory { OnErr result (answers.post_says (ranges.seen version (ranges.Taken self.old)) ≡ Post.Queued) }
    {
        let Some(offset) = self.offset(version) else {
            return Ok(Post::Gone);
        };
        match &mut self.state {
            State::Free => {
                self.used = true;
                self.state = State::Held(VecDeque::new(alloc));
                Ok(Post::Now(offset))
            }
            State::Held(waiting) => {
                waiting.push_back((offset, code))?;
                Ok(Post::Queued)
            }
            State::Ended => Ok(Post::Gone),
        }
    }

    /// Hands out the error queued first, or unlocks the range where none waits.
    pub(crate) fn unlock(&mut self, version: u32) -> Unlock
        ensures answer { result ≡ answers.unlock_says (ranges.seen version (ranges.Taken self.old)) }
        ensures after { ranges.Taken self.new ≡ ranges.unlocked version (ranges.Taken self.old) }
    {
        if self.offset(version).is_none() {
            return Unlock::Gone;
        }
        match &mut self.state {
            State::Free => Unlock::NotLocked,
            State::Held(waiting) => match waiting.pop_front() {
                Some((offset, code)) => Unlock::Pending(offset, code),
                None => {
                    self.state = State::Free;
                    Unlock::Free
                }
            },
            State::Ended => Unlock::Gone,
        }
    }

    /// Ends a locked range. The errors that wait are dropped and counted.
    pub(crate) fn destroy(&mut self, version: u32) -> Destroy
        ensures answer { result ≡ answers.destroy_says (ranges.seen version (ranges.Taken self.old)) }
        ensures after { ranges.Taken self.new ≡ ranges.destroyed version (ranges.Taken self.old) }
    {
        if self.offset(version).is_none() {
            return Destroy::Gone;
        }
        match &self.state {
            State::Free => Destroy::NotLocked,
            State::Held(waiting) => {
                let dropped = waiting.len() as u64;
                self.state = State::Ended;
                Destroy::Ended(dropped)
            }
            State::Ended => Destroy::Gone,
        }
    }

    /// Whether it was ever locked or posted to.
    pub(crate) fn is_used(&self) -> bool
        ensures { result ≡ self.now.used }
    {
        self.used
    }

    /// Whether it has ended.
    pub(crate) fn has_ended(&self) -> bool
        ensures { result ≡ ranges.has_ended self.now.standing }
    {
        matches!(self.state, State::Ended)
    }

    /// Its first version.
    pub(crate) fn first(&self) -> u32
        ensures { result ≡ self.now.first }
    {
        self.first
    }

    /// The first version of the slot's next range, or `None` where that range might pass the last version.
    pub(crate) fn next(&self) -> Option<u32>
        ensures some { IfSome result (λ n. (n ≡ self.now.first + self.now.size) × (1 ≤ n) × (n ≤ 2 ^ 32 - 1024)) }
        ensures none { IfNone result (2 ^ 32 - 1024 < self.now.first + self.now.size) }
    {
        let next = self.first.checked_add(self.size)?;
        if next <= LAST_FIRST { Some(next) } else { None }
    }

    /// Lends its value.
    pub(crate) fn value_mut(&mut self) -> &mut T
        ensures* writes_back { sem 𝓛 (lends_entry T.row self.entry result) }
        ensures value { result.now ≡ self.old.value }
    {
        &mut self.value
    }

    /// Gives its value back.
    pub(crate) fn into_value(self) -> T
        ensures { result ≡ self.value }
    {
        self.value
    }
}
