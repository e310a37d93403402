//! Loading words, reserving a slot and giving it up.
ghost use Rattle.std.specs.Prelude.{◌≡◌, ◌<◌, ◌≤◌, ◌^◌, ◌++◌, ◌∷◌, [], ℕ, length, true};
ghost use Rattle.rpc_model.specs.Gone.{code_in, is_live_in};
ghost use Rattle.id_rule.specs.Accounts.{IsAccounted};
ghost use Rattle.id_rule.specs.Changes.{view_after_load};
ghost use Rattle.id_rule.specs.Parts.{part_of};
ghost use Rattle.id_shared.specs.Claims.{HasReserved, KeepsClaims, KeepsErrors, KeepsOthers};
ghost use Rattle.id_shared.specs.Standing.{IsPassOf, HasSpot};
ghost use Rattle.id_shared.specs.Views.{with_view, view_without_spot};
ghost use Rattle.id_shared.specs.Answers.{IsSize, IsReservedFrom, IsReserved, start_of};

use crate::answers::Reserve;
use crate::claims::Spot;
use crate::ids::Ids;
use crate::pass::Pass;
use id_rule::{GiveUp, Look, Reserve as Reserving, State, Tenant, is_vacant, pack, unpack};

impl<T: Tenant> Ids<T> {
    // Loads the word of a slot.
    pub(crate) fn load(&self, pass: &mut Pass<T>, slot: u32) -> u64
        requires own { IsPassOf self.now pass.old }
        requires slot { slot < self.now.sizes.slots }
        ensures own { IsPassOf self.now pass.new }
        ensures view { pass.new ≡ with_view pass.old (view_after_load pass.old.view slot result) }
        ensures small { result < 2 ^ 62 }
        ensures ended { (version : ℕ) → is_live_in result version ≡ true → (part_of pass.old.view slot).ended_below ≤ version }
        ensures accounted { IsAccounted T.receipt pass.new.view }
    {
        self.table
            .shared
            .load::<Look>(&mut pass.seat, slot as usize)
    }

    // Loads the word of a slot, and notes it.
    fn look(&self, pass: &mut Pass<T>, slot: u32) -> u64
        requires own { IsPassOf self.now pass.old }
        requires slot { slot < self.now.sizes.slots }
        requires room { length pass.old.words < pass.old.table.slots }
        ensures own { IsPassOf self.now pass.new }
        ensures view { pass.new.view ≡ view_after_load pass.old.view slot result }
        ensures words { pass.new.words ≡ pass.old.words ++ result ∷ [] }
        ensures errors { KeepsErrors pass.old pass.new }
        ensures small { result < 2 ^ 62 }
    {
        let word = self.load(pass, slot);
        pass.words.push_reserved(word);
        word
    }

    // Reserves a slot whose word was seen vacant.
    pub(crate) fn reserve_from(
        &self,
        pass: &mut Pass<T>,
        slot: u32,
        word: u64,
        range: u32,
    ) -> Reserve
        requires own { IsPassOf self.now pass.old }
        requires slot { slot < self.now.sizes.slots }
        requires word { (word < 2 ^ 62) × (code_in word ≡ 0) }
        requires range { IsSize range }
        ensures own { IsPassOf self.now pass.new }
        ensures answer { IsReservedFrom slot word range pass.old result pass.new }
    {
        let first = unpack(word).first;
        let new = pack(first, range, State::Reserved, 0);
        let found = self
            .table
            .shared
            .compare_exchange::<Reserving>(&mut pass.seat, slot as usize, word, new);
        if found != word {
            return Reserve::Again(word, found);
        }
        Reserve::Spot(Spot {
            slot,
            first,
            size: range,
        })
    }

    /// Makes a reserved slot vacant without a use. The next range that is reserved there has the same first id.
    pub fn give_up(&self, pass: &mut Pass<T>, spot: Spot)
        requires own { IsPassOf self.now pass.old }
        requires spot { HasSpot pass.old spot }
        ensures own { IsPassOf self.now pass.new }
        ensures view { pass.new ≡ with_view pass.old (view_without_spot pass.old.view spot.slot) }
        ensures others { KeepsOthers spot.slot pass.old pass.new }
    {
        let Spot {
            slot,
            first,
            size: _,
        } = spot;
        let new = pack(first, 0, State::Vacant, 0);
        self.table
            .shared
            .store::<GiveUp>(&mut pass.seat, slot as usize, new);
    }

    // The slot that a pass looks at first.
    fn first_slot(&self, pass: &Pass<T>) -> u32
        requires own { IsPassOf self.now pass.now }
        ensures slot { result ≡ start_of self.now.sizes pass.now }
        ensures low { result < 4096 }
    {
        pass.number * self.sizes.slots / self.sizes.passes
    }

    /// Reserves a slot for a range of this many ids: looks at the slots one after the other, counted round, and takes the first
    /// vacant one. Of `n` passes, pass `p` begins at slot `p * slots / n`, which for pass 0 is slot 0, so that passes of several
    /// threads don't all meet at the same words. Where there are fewer slots than passes, some begin at one slot.
    ///
    /// `BadRange` comes exactly for a range outside 1 to 1,024, `Full` only where each slot's word loaded in this call
    /// wasn't vacant (`Pass::seen` has the words), and `Again` exactly where the exchange found another word than the
    /// vacant one. After each of these the pass has what it had.
    pub fn reserve(&self, pass: &mut Pass<T>, range: u32) -> Reserve
        requires own { IsPassOf self.now pass.old }
        ensures own { IsPassOf self.now pass.new }
        ensures answer { IsReserved self.now.sizes range pass.old result pass.new }
        ensures spot { HasReserved pass.new result }
        ensures claims { KeepsClaims pass.old pass.new }
        ensures errors { KeepsErrors pass.old pass.new }
    {
        self.reserve_first(pass, range)
    }

    // Reserves the first vacant slot.
    fn reserve_first(&self, pass: &mut Pass<T>, range: u32) -> Reserve
        requires own { IsPassOf self.now pass.old }
        ensures own { IsPassOf self.now pass.new }
        ensures answer { IsReserved self.now.sizes range pass.old result pass.new }
        ensures errors { KeepsErrors pass.old pass.new }
    {
        if range < 1 || range > 1024 {
            return Reserve::BadRange;
        }
        let start = self.first_slot(pass);
        pass.words.clear();
        let mut count = 0;
        while count < self.sizes.slots {
            let slot = (start + count) % self.sizes.slots;
            let word = self.look(pass, slot);
            if is_vacant(word) {
                return self.reserve_from(pass, slot, word, range);
            }
            count += 1;
        }
        Reserve::Full
    }
}
