ghost use Rattle.std.specs.Option.{option_map};
ghost use Rattle.std.specs.Prelude.{◌≡◌, ◌-◌, ◌^◌, ◌<◌, ◌≤◌, IsSome, IfSome, IfOk, OnOk, OnErr, Some, true};
ghost use Rattle.id_pool.specs.Ranges as ranges;
ghost use Rattle.id_pool.specs.Answers as answers;
ghost use Rattle.id_pool.specs.Vacancies.{is_vacant};

use crate::answers::{Cancel, Collect, Destroy, Lock, Post, Unlock};
use crate::entry::Entry;
use rpc_base::NoMemory;
use std::alloc::Global;
use std::marker::Model;
use std::mem;

/// What a slot holds.
#[derive(Drop)]
enum Content<T> {
    /// Nothing. The number is the first version of its next range.
    Vacant(u32),
    /// Nothing, for good.
    Retired,
    /// One range.
    Taken(Entry<T>),
}

impl<T: Drop> Content<T> {
    ghost use Rattle.std.specs.Borrow.{sem};
    ghost use Rattle.id_pool.specs.CellLends.{lends_content};
    ghost use Rattle.id_pool.specs.CellView.{slot_of};

    /// Lends the value of the range.
    fn value_mut(&mut self) -> &mut T
        requires { IsSome (ranges.value_in (slot_of self.old)) }
        ensures* writes_back { sem 𝓛 (lends_content T.row self.entry result) }
        ensures value { ranges.value_in (slot_of self.old) ≡ Some result.now }
    {
        match self {
            Content::Taken(entry) => entry.value_mut(),
            _ => unreachable!(),
        }
    }
}

/// One slot of a pool.
#[derive(Drop)]
pub(crate) struct Cell<T> {
    content: Content<T>,
}

impl<T> Model for Cell<T> {
    ghost use Rattle.id_pool.specs.Ranges.{Slot};

    ghost Value = { Slot T };

    ghost use Rattle.id_pool.specs.CellView.{slot_of, IsSound};

    ghost view = { λ c. slot_of c.content };

    ghost invariant = { λ c. IsSound c.content };
}

impl<T: Drop> Cell<T> {
    ghost use Rattle.std.specs.Borrow.{sem};
    ghost use Rattle.id_pool.specs.CellLends.{lends_cell};

    /// A slot that was never used.
    pub(crate) fn new() -> Cell<T>
        ensures { result ≡ ranges.Vacant 1 }
    {
        Cell {
            content: Content::Vacant(1),
        }
    }

    /// Whether a range may be put in.
    pub(crate) fn is_vacant(&self) -> bool
        ensures { result ≡ is_vacant self.now }
    {
        matches!(self.content, Content::Vacant(_))
    }

    /// Puts a range into a vacant slot and answers its first version.
    pub(crate) fn take(&mut self, size: u32, value: T) -> u32
        requires vacant { is_vacant self.old ≡ true }
        requires some { 1 ≤ size }
        requires few { size ≤ 1024 }
        ensures first { self.old ≡ ranges.Vacant result }
        ensures begins { 1 ≤ result }
        ensures low { result ≤ 2 ^ 32 - 1024 }
        ensures after { self.new ≡ ranges.Taken (ranges.fresh result size value) }
    {
        let Content::Vacant(first) = self.content else {
            unreachable!()
        };
        self.content = Content::Taken(Entry::new(first, size, value));
        first
    }

    /// The version's place in the range, if one that hasn't ended holds it.
    pub(crate) fn find(&self, version: u32) -> Option<u32>
        ensures answer { result ≡ answers.find_says (ranges.seen version self.now) }
        ensures bound { IfSome result (λ k. k < 1024) }
    {
        match &self.content {
            Content::Taken(entry) => entry.find(version),
            _ => None,
        }
    }

    /// The value of the range that holds this version, unless it has ended.
    pub(crate) fn peek(&self, version: u32) -> Option<&T>
        ensures { option_map (λ v. v.now) result ≡ answers.value_says (ranges.seen version self.now) }
    {
        match &self.content {
            Content::Taken(entry) => entry.peek(version),
            _ => None,
        }
    }

    /// Locks the range that holds this version.
    pub(crate) fn lock(&mut self, alloc: Global, version: u32) -> Lock
        ensures answer { result ≡ answers.lock_says (ranges.seen version self.old) }
        ensures after { self.new ≡ ranges.locked version self.old }
    {
        match &mut self.content {
            Content::Taken(entry) => entry.lock(alloc, version),
            _ => Lock::Gone,
        }
    }

    /// Makes a locked range so wide.
    pub(crate) fn reset_range(&mut self, version: u32, size: u32) -> bool
        ensures answer { result ≡ answers.reset_says (ranges.seen version self.old) size }
        ensures after { self.new ≡ ranges.resized version size self.old }
    {
        match &mut self.content {
            Content::Taken(entry) => entry.reset_range(version, size),
            _ => false,
        }
    }

    /// Posts an error to the range that holds this version.
    pub(crate) fn post(&mut self, alloc: Global, version: u32, code: u32) -> Result<Post, NoMemory>
        ensures answer { IfOk result (λ post. post ≡ answers.post_says (ranges.seen version self.old)) }
        ensures after { OnOk result (self.new ≡ ranges.posted version code self.old) }
        ensures failed { OnErr result (self.new ≡ self.old) }
        ensures memory { OnErr result (answers.post_says (ranges.seen version self.old) ≡ Post.Queued) }
    {
        match &mut self.content {
            Content::Taken(entry) => entry.post(alloc, version, code),
            _ => Ok(Post::Gone),
        }
    }

    /// Hands out the error queued first, or unlocks the range where none waits.
    pub(crate) fn unlock(&mut self, version: u32) -> Unlock
        ensures answer { result ≡ answers.unlock_says (ranges.seen version self.old) }
        ensures after { self.new ≡ ranges.unlocked version self.old }
    {
        match &mut self.content {
            Content::Taken(entry) => entry.unlock(version),
            _ => Unlock::Gone,
        }
    }

    /// Ends a locked range, which keeps its value.
    pub(crate) fn destroy(&mut self, version: u32) -> Destroy
        ensures answer { result ≡ answers.destroy_says (ranges.seen version self.old) }
        ensures after { self.new ≡ ranges.destroyed version self.old }
    {
        match &mut self.content {
            Content::Taken(entry) => entry.destroy(version),
            _ => Destroy::Gone,
        }
    }

    /// Lends the value of the range.
    pub(crate) fn value_mut(&mut self) -> &mut T
        requires { IsSome (ranges.value_in self.old) }
        ensures* writes_back { sem 𝓛 (lends_cell T.row self.entry result) }
        ensures value { ranges.value_in self.old ≡ Some result.now }
    {
        self.content.value_mut()
    }

    /// Gives back the value of a range that was never used, which leaves the slot.
    pub(crate) fn cancel(&mut self, version: u32) -> Cancel<T>
        ensures answer { result ≡ answers.cancel_says (ranges.seen version self.old) }
        ensures after { self.new ≡ ranges.cancelled version self.old }
    {
        match &self.content {
            Content::Taken(entry) => {
                if entry.find(version).is_none() {
                    return Cancel::Gone;
                }
                if entry.is_used() {
                    return Cancel::Used;
                }
            }
            _ => return Cancel::Gone,
        }
        Cancel::Value(self.vacate())
    }

    /// Gives back the value of an ended range with this first version, which leaves the slot.
    pub(crate) fn collect(&mut self, version: u32) -> Collect<T>
        ensures answer { result ≡ answers.collect_says (ranges.owned version self.old) }
        ensures after { self.new ≡ ranges.collected version self.old }
    {
        match &self.content {
            Content::Taken(entry) => {
                if entry.first() != version {
                    return Collect::Gone;
                }
                if !entry.has_ended() {
                    return Collect::NotYet;
                }
            }
            _ => return Collect::Gone,
        }
        Collect::Value(self.vacate())
    }

    /// Takes the range out and hands out its value. The next range of the slot begins behind it.
    fn vacate(&mut self) -> T
        requires { IsSome (ranges.value_in self.old) }
        ensures value { ranges.value_in self.old ≡ Some result }
        ensures after { self.new ≡ ranges.emptied self.old }
    {
        let Content::Taken(entry) = mem::replace(&mut self.content, Content::Retired) else {
            unreachable!()
        };
        if let Some(next) = entry.next() {
            self.content = Content::Vacant(next);
        }
        entry.into_value()
    }
}
