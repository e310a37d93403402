//! Unlocking a range, destroying it, and collecting its last value.
ghost use Rattle.std.specs.Prelude.{◌≡◌, ◌<◌, ◌≤◌, ◌+◌, ◌*◌, ◌^◌, [], length, vec_capacity, List};
ghost use Rattle.id_rule.specs.declared.view.Receipt.{Receipt};
ghost use Rattle.id_rule.specs.Accounts.{IsAccounted};
ghost use Rattle.id_rule.specs.Words.{packed_word};
ghost use Rattle.id_shared.specs.Answers.{HasGrown, HasLeftOut, IsCollected, IsDestroyed, IsUnlocked};
ghost use Rattle.id_shared.specs.Claims.{KeepsCollected, KeepsErrors, KeepsHolding, KeepsOthers, KeepsOwners};
ghost use Rattle.id_shared.specs.Lifted.{HasLifted, IsDestroyedFrom, IsGrownSince, IsLeftOutSince, IsUnlockedFrom};
ghost use Rattle.id_shared.specs.Standing.{IsPassOf, HasErrorsOf, HasHold, HasOwner, first_id_of};

use crate::answers::{CollectEnd, Posted, UnlockEnd};
use crate::claims::{Hold, Owner};
use crate::ids::Ids;
use crate::pass::Pass;
use atomic_table::Seat;
use id_rule::{Empty, End, State, Take, Tenant, Unlock, View, pack};

impl<T: Tenant> Ids<T> {
    /// Unlocks a range, and puts its value home. The value's first id has to be the range's. Its log has to begin with
    /// the log at the lock, and to have each receipt handed out since, once; the range's log is this log from then on. No
    /// error may be left to hand out.
    ///
    /// `Pending` comes only where errors were queued: it took so many, at least one, and the range stays locked by the pass,
    /// with its value as it was. `next_pending` hands these errors out, each of them queued to an id of the range since the
    /// lock, the errors of one poster in its order.
    pub fn unlock(&self, pass: &mut Pass<T>, hold: Hold, value: T) -> UnlockEnd<T>
        requires own { IsPassOf self.now pass.old }
        requires hold { HasHold pass.old hold }
        requires errors { pass.old.scratch ≡ [] }
        requires value { T.first_id value ≡ first_id_of hold }
        requires log { HasGrown T.receipt pass.old hold (T.log value) }
        ensures own { IsPassOf self.now pass.new }
        ensures answer { IsUnlocked T.log T.receipt hold value pass.old result pass.new }
        ensures still { KeepsHolding hold pass.old result pass.new }
        ensures owners { KeepsOwners pass.old pass.new }
        ensures others { KeepsOthers hold.slot pass.old pass.new }
    {
        self.unlock_once(pass, hold, value)
    }

    // Takes the slot again, and unlocks it.
    fn unlock_once(&self, pass: &mut Pass<T>, hold: Hold, value: T) -> UnlockEnd<T>
        requires own { IsPassOf self.now pass.old }
        requires hold { HasHold pass.old hold }
        requires errors { pass.old.scratch ≡ [] }
        requires value { T.first_id value ≡ first_id_of hold }
        requires log { HasGrown T.receipt pass.old hold (T.log value) }
        ensures own { IsPassOf self.now pass.new }
        ensures answer { IsUnlocked T.log T.receipt hold value pass.old result pass.new }
    {
        // Opens the table for the proof, which needs its invariant: this body names no field of it.
        let _ = &self.table;
        let slot = hold.slot;
        self.lift(&mut pass.seat, slot);
        match self.unlock_from(&mut pass.seat, &mut pass.pending, hold, value) {
            UnlockEnd::Unlocked => UnlockEnd::Unlocked,
            UnlockEnd::Pending(hold, value, count) => {
                pass.holder = Some(slot);
                UnlockEnd::Pending(hold, value, count)
            }
        }
    }

    // The rest of `unlock`, after the load that took the slot again: puts the value home, or takes the errors that wait.
    pub(crate) fn unlock_from(
        &self,
        seat: &mut Seat<Option<T>, View<T::Entry>>,
        pending: &mut Vec<Posted>,
        hold: Hold,
        value: T,
    ) -> UnlockEnd<T>
        requires lifted { HasLifted self.now hold seat.old.table_id seat.old.me }
        requires value { T.first_id value ≡ first_id_of hold }
        requires log { IsGrownSince T.receipt seat.old.me.0 hold (T.log value) }
        requires list { (pending.old.items ≡ []) × (self.now.sizes.passes * self.now.sizes.nodes ≤ vec_capacity pending.old) }
        ensures same { (seat.new.table_id ≡ seat.old.table_id) × (seat.new.id ≡ seat.old.id) × (vec_capacity pending.new ≡ vec_capacity pending.old) }
        ensures answer { IsUnlockedFrom T.log T.receipt hold value seat.old.me result seat.new.me pending.new.items }
    {
        let slot = hold.slot;
        self.put(seat, slot, value);
        let old = pack(hold.first, hold.size, State::Locked, 0);
        let new = pack(hold.first, hold.size, State::Free, 0);
        let found = self
            .table
            .shared
            .compare_exchange::<Unlock>(seat, slot as usize, old, new);
        if found == old {
            hold.spend();
            return UnlockEnd::Unlocked;
        }
        self.take(seat, pending, &hold);
        let value = self.take_out(seat, slot);
        let count = pending.len() as u32;
        UnlockEnd::Pending(hold, value, count)
    }

    /// Destroys a range, and leaves its value for the owner. Answers how many errors are dropped that weren't handed out
    /// before; `next_dropped` hands them out.
    ///
    /// The value's first id has to be the range's. Its log, which is the range's last one, has to begin with the log at
    /// the lock, and the receipts in the rest have to be among those handed out since, none twice. What it leaves out of
    /// them is dropped by this pass, and isn't handed out again. Errors that are left to hand out have to be this Hold's.
    #[inline(always)]
    pub fn destroy(&self, pass: &mut Pass<T>, hold: Hold, value: T) -> u32
        requires own { IsPassOf self.now pass.old }
        requires hold { HasHold pass.old hold }
        requires errors { HasErrorsOf pass.old hold }
        requires value { T.first_id value ≡ first_id_of hold }
        requires log { (out : List Receipt) × HasLeftOut T.receipt pass.old hold (T.log value) out }
        ensures own { IsPassOf self.now pass.new }
        ensures count { result ≡ length pass.new.scratch }
        ensures answer { IsDestroyed T.log T.receipt hold value pass.old pass.new }
        ensures owners { KeepsOwners pass.old pass.new }
        ensures others { KeepsOthers hold.slot pass.old pass.new }
    {
        self.destroy_once(pass, hold, value)
    }

    // Takes the slot again, and ends its range.
    #[inline(always)]
    fn destroy_once(&self, pass: &mut Pass<T>, hold: Hold, value: T) -> u32
        requires own { IsPassOf self.now pass.old }
        requires hold { HasHold pass.old hold }
        requires errors { HasErrorsOf pass.old hold }
        requires value { T.first_id value ≡ first_id_of hold }
        requires log { (out : List Receipt) × HasLeftOut T.receipt pass.old hold (T.log value) out }
        ensures own { IsPassOf self.now pass.new }
        ensures count { result ≡ length pass.new.scratch }
        ensures answer { IsDestroyed T.log T.receipt hold value pass.old pass.new }
    {
        // Opens the table for the proof, which needs its invariant: this body names no field of it.
        let _ = &self.table;
        self.lift(&mut pass.seat, hold.slot);
        self.destroy_from(&mut pass.seat, &mut pass.dropped, hold, value);
        pass.holder = None;
        (pass.pending.len() + pass.dropped.len()) as u32
    }

    // The rest of `destroy`, after the load that took the slot again: puts the value home, and takes the errors that wait.
    #[inline(always)]
    pub(crate) fn destroy_from(
        &self,
        seat: &mut Seat<Option<T>, View<T::Entry>>,
        dropped: &mut Vec<Posted>,
        hold: Hold,
        value: T,
    )
        requires lifted { HasLifted self.now hold seat.old.table_id seat.old.me }
        requires value { T.first_id value ≡ first_id_of hold }
        requires log { (out : List Receipt) × IsLeftOutSince T.receipt seat.old.me.0 hold (T.log value) out }
        requires list { (dropped.old.items ≡ []) × (self.now.sizes.passes * self.now.sizes.nodes ≤ vec_capacity dropped.old) }
        ensures same { (seat.new.table_id ≡ seat.old.table_id) × (seat.new.id ≡ seat.old.id) × (vec_capacity dropped.new ≡ vec_capacity dropped.old) }
        ensures answer { IsDestroyedFrom T.log T.receipt hold value seat.old.me seat.new.me dropped.new.items }
    {
        let Hold { slot, first, size } = hold;
        self.put(seat, slot, value);
        let new = pack(first, size, State::Ended, 0);
        let taken = self.table.shared.swap::<End>(seat, slot as usize, new);
        self.drain(seat, dropped, (taken % 65536) as u32);
    }

    /// Collects the value that the end of the range left. The slot is then vacant for the next range, or retired where
    /// its versions come near their end.
    ///
    /// `NotYet` comes only where the word loaded in this call isn't this range's ended word; the owner comes back. A pass that
    /// destroyed a range and collected it, or into which the one that destroyed it was joined, knows that its receipts for it
    /// are, each once, those in the collected log and those that were dropped.
    pub fn collect(&self, pass: &mut Pass<T>, owner: Owner) -> CollectEnd<T>
        requires own { IsPassOf self.now pass.old }
        requires owner { HasOwner pass.old owner }
        ensures own { IsPassOf self.now pass.new }
        ensures answer { IsCollected T.log T.first_id owner pass.old result pass.new }
        ensures accounted { IsAccounted T.receipt pass.new.view }
        ensures claims { KeepsCollected owner pass.old result pass.new }
        ensures errors { KeepsErrors pass.old pass.new }
    {
        self.collect_once(pass, owner)
    }

    // Loads the word, and takes the value out where the range has ended.
    fn collect_once(&self, pass: &mut Pass<T>, owner: Owner) -> CollectEnd<T>
        requires own { IsPassOf self.now pass.old }
        requires owner { HasOwner pass.old owner }
        ensures own { IsPassOf self.now pass.new }
        ensures answer { IsCollected T.log T.first_id owner pass.old result pass.new }
        ensures accounted { IsAccounted T.receipt pass.new.view }
    {
        let slot = owner.slot;
        let first = owner.first;
        let size = owner.size;
        let word = self
            .table
            .shared
            .load::<Take>(&mut pass.seat, slot as usize);
        if word != pack(first, size, State::Ended, 0) {
            return CollectEnd::NotYet(owner, word);
        }
        let Owner {
            slot: _,
            first: _,
            size: _,
        } = owner;
        let item = self
            .table
            .shared
            .exchange(&mut pass.seat, slot as usize, None);
        let new = next_word(first, size);
        self.table
            .shared
            .store::<Empty>(&mut pass.seat, slot as usize, new);
        CollectEnd::Value(item.unwrap())
    }
}

// The greatest first version of a range: 2^32 - 1,024.
const LAST: u64 = 4294966272;

// The word of a slot whose range was collected: vacant, or retired where the next first version would be past the last.
pub(crate) fn next_word(first: u32, size: u32) -> u64
    requires size { size < 2 ^ 11 }
    ensures vacant { first + size ≤ LAST → result ≡ packed_word (first + size) 0 0 0 }
    ensures retired { LAST < first + size → result ≡ packed_word first 0 5 0 }
{
    let next = u64::from(first) + u64::from(size);
    if next <= LAST {
        pack(next as u32, 0, State::Vacant, 0)
    } else {
        pack(first, 0, State::Retired, 0)
    }
}
