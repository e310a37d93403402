ghost use Rattle.std.specs.Option.{option_map};
ghost use Rattle.std.specs.Prelude.{◌≡◌, ℕ, ◌+◌, ◌-◌, ◌^◌, ◌<◌, ◌≤◌, IfOk, IfSome, IsSome, Some, OnOk, OnErr, length};
ghost use Rattle.id_pool.specs.Ids as ids;
ghost use Rattle.id_pool.specs.Ranges as ranges;
ghost use Rattle.id_pool.specs.Answers as answers;
ghost use Rattle.id_pool.specs.Places.{place};
ghost use Rattle.id_pool.specs.Vacancies.{IsFilled, IsRelisted};

use crate::answers::{Cancel, Collect, Destroy, Lock, Post, Refused, Unlock};
use crate::cell::Cell;
use crate::entry::MOST_VERSIONS;
use crate::id::{make_id, slot_of, version_of};
use bit_set::BitSet;
use rpc_base::NoMemory;
use std::alloc::Global;
use std::marker::Model;

/// Slots on one thread, each of which holds at most one range of ids with its value. A contract sees the list of slots.
#[derive(Drop)]
pub struct Pool<T> {
    alloc: Global,
    slots: Vec<Cell<T>>,
    // The numbers of the vacant slots.
    vacant: BitSet,
}

impl<T> Model for Pool<T> {
    ghost use Rattle.std.specs.Prelude.{List};
    ghost use Rattle.id_pool.specs.Ranges.{Slot};
    ghost use Rattle.id_pool.specs.Vacancies.{IsListed};

    ghost Value = { List (Slot T) };

    ghost view = { λ p. p.slots.items };

    ghost invariant = { λ p. IsListed p.slots.items p.vacant };
}

impl<T: Drop> Pool<T> {
    ghost use Rattle.std.specs.Borrow.{sem};
    ghost use Rattle.std.specs.Option.{option_copied_mut};
    ghost use Rattle.id_pool.specs.ValueLends.{lends_value, lends_held};

    /// A pool of so many slots, 1 to 4096, all vacant.
    pub fn open(alloc: Global, slots: u32) -> Result<Pool<T>, NoMemory>
        requires some { 1 ≤ slots }
        requires few { slots ≤ 4096 }
        ensures { IfOk result (λ pool. pool ≡ ranges.opened slots) }
    {
        let mut cells = Vec::with_capacity(alloc, slots as usize)?;
        while cells.len() < slots as usize {
            cells.push(Cell::new())?;
        }
        Ok(Pool {
            alloc,
            slots: cells,
            vacant: filled(slots),
        })
    }

    /// Creates a range of so many versions for this value, unlocked, in the lowest vacant slot, and answers its first id.
    ///
    /// `BadRange` exactly where the range isn't 1 to 1024 wide, else `Full` exactly where no slot is vacant. Both hand
    /// the value back and change nothing. It takes no memory.
    pub fn create(&mut self, range: u32, value: T) -> Result<u64, Refused<T>>
        ensures answer { result ≡ answers.create_says range value self.old }
        ensures after { self.new ≡ ranges.created range value self.old }

        // The ids of the range follow each other, from the first on, and each finds its offset.
        ensures begins { IfOk result (λ id. 1 ≤ ids.version_of id) }
        ensures fits { IfOk result (λ id. ids.version_of id + range ≤ 2 ^ 32) }
        ensures offsets { IfOk result (λ id. (k : ℕ) → k < range → answers.find_says (ranges.look (id + k) self.new) ≡ Some k) }
    {
        if range < 1 || range > MOST_VERSIONS {
            return Err(Refused::BadRange(value));
        }
        let Some(slot) = self.vacant.first() else {
            return Err(Refused::Full(value));
        };
        self.vacant.remove(slot);
        let cell = &mut self.slots[slot as usize];
        let first = cell.take(range, value);
        Ok(make_id(slot, first))
    }

    /// The offset of an id in its range. `None` exactly where no range that isn't ended holds the id: it is gone.
    pub fn find(&self, id: u64) -> Option<u32>
        ensures answer { result ≡ answers.find_says (ranges.look id self.now) }
        ensures bound { IfSome result (λ k. k < 1024) }
    {
        self.slots[self.place(id)?].find(version_of(id))
    }

    /// The value of the range that holds the id. `None` exactly where the id is gone.
    pub fn peek(&self, id: u64) -> Option<&T>
        ensures { option_map (λ v. v.now) result ≡ answers.value_says (ranges.look id self.now) }
    {
        self.slots[self.place(id)?].peek(version_of(id))
    }

    /// Lends the value of the range that holds the id. `None` exactly where the id is gone.
    pub fn value(&mut self, id: u64) -> Option<&mut T>
        ensures* writes_back { sem 𝓛 (lends_value T.row self.entry id result) }
        ensures value { option_copied_mut result ≡ answers.value_says (ranges.look id self.old) }
    {
        if self.find(id).is_some() {
            Some(self.held_value(id))
        } else {
            None
        }
    }

    /// Lends the value of the range that holds an id which isn't gone.
    fn held_value(&mut self, id: u64) -> &mut T
        requires { IsSome (answers.value_says (ranges.look id self.old)) }
        ensures* writes_back { sem 𝓛 (lends_held T.row self.entry id result) }
        ensures value { answers.value_says (ranges.look id self.old) ≡ Some result.now }
    {
        let Some(slot) = slot_of(id) else {
            unreachable!()
        };
        self.slots[slot as usize].value_mut()
    }

    /// Locks the range that holds the id, if it is unlocked.
    pub fn lock(&mut self, id: u64) -> Lock
        ensures answer { result ≡ answers.lock_says (ranges.look id self.old) }
        ensures after { self.new ≡ ranges.changed (ranges.locked (ids.version_of id)) id self.old }
    {
        let Some(at) = self.place(id) else {
            return Lock::Gone;
        };
        let cell = &mut self.slots[at];
        cell.lock(self.alloc, version_of(id))
    }

    /// Makes the locked range that holds the id so wide.
    ///
    /// `false`, with nothing changed, exactly where the id is gone, the range isn't locked, or the number is above 1024
    /// or below the present width.
    pub fn reset_range(&mut self, id: u64, range: u32) -> bool
        ensures answer { result ≡ answers.reset_says (ranges.look id self.old) range }
        ensures after { self.new ≡ ranges.changed (ranges.resized (ids.version_of id) range) id self.old }
    {
        let Some(at) = self.place(id) else {
            return false;
        };
        let cell = &mut self.slots[at];
        cell.reset_range(version_of(id), range)
    }

    /// Posts an error to the range that holds the id: it locks the range for the caller, or queues the error of a
    /// locked one. Only a queued error takes memory, and where there is none nothing changes.
    pub fn post(&mut self, id: u64, code: u32) -> Result<Post, NoMemory>
        ensures answer { IfOk result (λ post. post ≡ answers.post_says (ranges.look id self.old)) }
        ensures after { OnOk result (self.new ≡ ranges.changed (ranges.posted (ids.version_of id) code) id self.old) }
        ensures failed { OnErr result (self.new ≡ self.old) }
        ensures memory { OnErr result (answers.post_says (ranges.look id self.old) ≡ Post.Queued) }
    {
        let Some(at) = self.place(id) else {
            return Ok(Post::Gone);
        };
        let cell = &mut self.slots[at];
        cell.post(self.alloc, version_of(id), code)
    }

    /// Hands out the error of a locked range that was queued first and keeps the range locked, or unlocks it where none
    /// waits.
    pub fn unlock(&mut self, id: u64) -> Unlock
        ensures answer { result ≡ answers.unlock_says (ranges.look id self.old) }
        ensures after { self.new ≡ ranges.changed (ranges.unlocked (ids.version_of id)) id self.old }
    {
        let Some(at) = self.place(id) else {
            return Unlock::Gone;
        };
        let cell = &mut self.slots[at];
        cell.unlock(version_of(id))
    }

    /// Ends the locked range that holds the id. Its ids are gone, its queued errors are dropped and counted, and its
    /// value waits until its owner collects it.
    pub fn destroy(&mut self, id: u64) -> Destroy
        ensures answer { result ≡ answers.destroy_says (ranges.look id self.old) }
        ensures after { self.new ≡ ranges.changed (ranges.destroyed (ids.version_of id)) id self.old }
    {
        let Some(at) = self.place(id) else {
            return Destroy::Gone;
        };
        let cell = &mut self.slots[at];
        cell.destroy(version_of(id))
    }

    /// Takes back a range that was created and never used, and hands out its value. The slot is vacant then, or retired.
    /// `Used` exactly where the range was ever locked or posted to.
    pub fn cancel(&mut self, id: u64) -> Cancel<T>
        ensures answer { result ≡ answers.cancel_says (ranges.look id self.old) }
        ensures after { self.new ≡ ranges.changed (ranges.cancelled (ids.version_of id)) id self.old }
    {
        let Some(at) = self.place(id) else {
            return Cancel::Gone;
        };
        let cell = &mut self.slots[at];
        let answer = cell.cancel(version_of(id));
        relist(&mut self.vacant, cell.is_vacant(), at as u32);
        answer
    }

    /// Hands the value of an ended range to its owner, by its first id. The slot is vacant then, or retired. `NotYet`
    /// exactly where the range hasn't ended, and `Gone` exactly where no range has this first id.
    pub fn collect(&mut self, first: u64) -> Collect<T>
        ensures answer { result ≡ answers.collect_says (ranges.own first self.old) }
        ensures after { self.new ≡ ranges.changed (ranges.collected (ids.version_of first)) first self.old }
    {
        let Some(at) = self.place(first) else {
            return Collect::Gone;
        };
        let cell = &mut self.slots[at];
        let answer = cell.collect(version_of(first));
        relist(&mut self.vacant, cell.is_vacant(), at as u32);
        answer
    }

    /// Where the slot that an id names stands, if there is one.
    fn place(&self, id: u64) -> Option<usize>
        ensures { result ≡ place (length self.now) id }
    {
        let at = slot_of(id)? as usize;
        if at < self.slots.len() {
            Some(at)
        } else {
            None
        }
    }
}

/// The numbers below `count`.
fn filled(count: u32) -> BitSet
    requires { count ≤ 4096 }
    ensures { IsFilled count result }
{
    let mut numbers = BitSet::new();
    for number in 0..count {
        numbers.insert(number);
    }
    numbers
}

/// Puts the number of a slot into the set of vacant slots, if it is vacant.
fn relist(vacant: &mut BitSet, is_vacant: bool, slot: u32)
    requires { slot < 4096 }
    ensures { IsRelisted is_vacant slot vacant.old vacant.new }
{
    if is_vacant {
        vacant.insert(slot);
    }
}
