//! Beginning a range and locking it.
ghost use Rattle.std.specs.Prelude.{◌≡◌, ◌<◌, ◌^◌, ◌∷◌, ℕ, false, [], None, Some};
ghost use Rattle.atomic_table.specs.Table.{rest};
ghost use Rattle.rpc_model.specs.Gone.{code_in};
ghost use Rattle.id_rule.specs.Parts.{part_of};
ghost use Rattle.id_rule.specs.Receipts.{receipts_in};
ghost use Rattle.id_rule.specs.declared.view.Turn.{Turn};
ghost use Rattle.id_shared.specs.Answers.{IsLockedFrom, IsTried, IsGone, HasSeenEnd};
ghost use Rattle.id_shared.specs.Claims.{HasTried, IsHolding, KeepsClaims, KeepsErrors, KeepsOthers};
ghost use Rattle.id_shared.specs.Standing.{IsPassOf, HasSpot, HasHold, HasOwner, first_id_of};
ghost use Rattle.id_shared.specs.Views.{with_view, view_with_range, view_lifted, view_laid};

use crate::answers::TryLock;
use crate::claims::{Hold, Owner, Spot};
use crate::ids::Ids;
use crate::pass::Pass;
use atomic_table::Seat;
use id_pool::{slot_of, version_of};
use id_rule::{Install, Lay, Lift, Lock, State, Tenant, View, is_live, is_locked, pack, unpack};

impl<T: Tenant> Ids<T> {
    /// Begins the range of a spot, locked, and hands the value back for the `unlock` or `destroy` that follows. The
    /// value's first id has to be the spot's, and its log, which is the range's opening log, has no receipt.
    pub fn install(&self, pass: &mut Pass<T>, spot: Spot, value: T) -> (Owner, Hold, T)
        requires own { IsPassOf self.now pass.old }
        requires spot { HasSpot pass.old spot }
        requires value { T.first_id value ≡ first_id_of spot }
        requires log { receipts_in T.receipt (T.log value) ≡ [] }
        ensures own { IsPassOf self.now pass.new }
        ensures tokens { (result.0 ≡ spot) × (result.1 ≡ spot) }
        ensures value { result.2 ≡ value }
        ensures view { pass.new ≡ with_view pass.old (view_with_range pass.old.view spot (T.log value)) }
        ensures holding { IsHolding pass.new result.1 (T.log value) }
        ensures owner { HasOwner pass.new result.0 }
        ensures others { KeepsOthers spot.slot pass.old pass.new }
    {
        let Spot { slot, first, size } = spot;
        let old = pack(first, size, State::Reserved, 0);
        let new = pack(first, size, State::Locked, 0);
        let item = Some(value);
        self.table
            .shared
            .compare_exchange_with::<Install>(&mut pass.seat, slot as usize, old, new, &item);
        let owner = Owner { slot, first, size };
        let hold = Hold { slot, first, size };
        (owner, hold, item.unwrap())
    }

    // Locks a slot whose word was seen free.
    #[inline(always)]
    pub(crate) fn lock_from(&self, pass: &mut Pass<T>, slot: u32, word: u64) -> TryLock<T>
        requires own { IsPassOf self.now pass.old }
        requires slot { slot < self.now.sizes.slots }
        requires word { (word < 2 ^ 62) × (code_in word ≡ 2) }
        ensures own { IsPassOf self.now pass.new }
        ensures answer { IsLockedFrom T.log T.first_id T.receipt slot word pass.old result pass.new }
    {
        let parts = unpack(word);
        let new = pack(parts.first, parts.range, State::Locked, 0);
        let found = self
            .table
            .shared
            .compare_exchange::<Lock>(&mut pass.seat, slot as usize, word, new);
        if found != word {
            return TryLock::Again(word, found);
        }
        let value = self.take_out(&mut pass.seat, slot);
        let hold = Hold {
            slot,
            first: parts.first,
            size: parts.range,
        };
        TryLock::Locked(hold, value)
    }

    /// Locks the range that has the id, if it is free.
    ///
    /// `Locked` gives the value of the very range, whose log begins with every log of that range that this pass knows, and
    /// has each receipt that the pass was given for the range, once.
    /// `Held` and `Gone` come only where the word loaded in this call shows it, `NoSlot` exactly where the id names no
    /// slot of this table, and `Again` exactly where the exchange found another word than the free one. After each of
    /// these the pass has what it had. Once a pass has seen a range end, each of its ids is `Gone` for it.
    #[inline(always)]
    pub fn try_lock(&self, pass: &mut Pass<T>, id: u64) -> TryLock<T>
        requires own { IsPassOf self.now pass.old }
        ensures own { IsPassOf self.now pass.new }
        ensures answer { IsTried T.log T.first_id T.receipt self.now.sizes.slots id pass.old result pass.new }
        ensures stays_gone { HasSeenEnd self.now.sizes.slots id pass.old → IsGone result }
        ensures holding { HasTried T.log pass.new result }
        ensures claims { KeepsClaims pass.old pass.new }
        ensures errors { KeepsErrors pass.old pass.new }
    {
        self.try_once(pass, id)
    }

    // Loads the word, and locks the range if it is free.
    #[inline(always)]
    fn try_once(&self, pass: &mut Pass<T>, id: u64) -> TryLock<T>
        requires own { IsPassOf self.now pass.old }
        ensures own { IsPassOf self.now pass.new }
        ensures answer { IsTried T.log T.first_id T.receipt self.now.sizes.slots id pass.old result pass.new }
        ensures stays_gone { HasSeenEnd self.now.sizes.slots id pass.old → IsGone result }
    {
        let Some(slot) = slot_of(id) else {
            return TryLock::NoSlot;
        };
        if slot >= self.sizes.slots {
            return TryLock::NoSlot;
        }
        let word = self.load(pass, slot);
        if !is_live(word, version_of(id)) {
            return TryLock::Gone(word);
        }
        if is_locked(word) {
            return TryLock::Held(word);
        }
        self.lock_from(pass, slot, word)
    }

    // Takes a held slot again, which is empty.
    pub(crate) fn lift(&self, seat: &mut Seat<Option<T>, View<T::Entry>>, slot: u32)
        requires table { seat.old.table_id ≡ self.now.table }
        requires slot { slot < seat.old.table_id.slots }
        requires hold { (f r : ℕ) × ((part_of seat.old.me.0 slot).hold ≡ Some (f, r)) }
        requires home { (t : Turn T.Entry) → (part_of seat.old.me.0 slot).turn ≡ Some t → t.out ≡ false }
        ensures same { (seat.new.table_id ≡ seat.old.table_id) × (seat.new.id ≡ seat.old.id) }
        ensures me { seat.new.me ≡ (view_lifted seat.old.me.0 slot, (slot, None) ∷ seat.old.me.1) }
    {
        self.table.shared.load::<Lift>(seat, slot as usize);
    }

    // Puts a value into the empty slot that the seat took last.
    pub(crate) fn put(&self, seat: &mut Seat<Option<T>, View<T::Entry>>, slot: u32, value: T)
        requires table { seat.old.table_id ≡ self.now.table }
        requires empty { seat.old.me.1 ≡ (slot, None) ∷ rest seat.old.me.1 }
        ensures same { (seat.new.table_id ≡ seat.old.table_id) × (seat.new.id ≡ seat.old.id) }
        ensures me { seat.new.me ≡ (seat.old.me.0, (slot, Some value) ∷ rest seat.old.me.1) }
    {
        match self.table.shared.exchange(seat, slot as usize, Some(value)) {
            None => {}
            Some(_) => unreachable!(),
        }
    }

    // Takes the value out of the slot that the seat took last, and gives the slot back, empty.
    pub(crate) fn take_out(&self, seat: &mut Seat<Option<T>, View<T::Entry>>, slot: u32) -> T
        requires table { seat.old.table_id ≡ self.now.table }
        requires slot { slot < seat.old.table_id.slots }
        requires hold { (f r : ℕ) × ((part_of seat.old.me.0 slot).hold ≡ Some (f, r)) }
        requires value { (x : T) × (seat.old.me.1 ≡ (slot, Some x) ∷ rest seat.old.me.1) }
        ensures same { (seat.new.table_id ≡ seat.old.table_id) × (seat.new.id ≡ seat.old.id) }
        ensures value { seat.old.me.1 ≡ (slot, Some result) ∷ rest seat.old.me.1 }
        ensures me { seat.new.me ≡ (view_laid seat.old.me.0 slot, rest seat.old.me.1) }
    {
        let item = self.table.shared.exchange(seat, slot as usize, None);
        self.table.shared.load::<Lay>(seat, slot as usize);
        item.unwrap()
    }
}
