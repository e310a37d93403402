//! Joining a pass away.
ghost use Rattle.std.specs.Prelude.{◌≡◌, [], ℕ};
ghost use Rattle.id_rule.specs.Accounts.{IsAccounted};
ghost use Rattle.id_rule.specs.Changes.{joined_view, view_after_load};
ghost use Rattle.id_shared.specs.Claims.{JoinsClaims};
ghost use Rattle.id_shared.specs.Standing.{IsPassOf};
ghost use Rattle.id_shared.specs.Views.{with_view};

use crate::ids::Ids;
use crate::pass::Pass;
use id_rule::{Look, Merge, Tenant};

impl<T: Tenant> Ids<T> {
    /// Joins another pass into this one, which then has the other's Spots, Holds and Owners, what it knew and had seen, its
    /// receipts and what it had dropped. The other's nodes aren't used again. No error may be left to hand out by either.
    ///
    /// This pass then knows of each range that it collected, and that one of both destroyed, that its receipts for it are,
    /// each once, those in the collected log and those that were dropped. It learns so by a load of the first slot's word.
    pub fn join_pass(&self, pass: &mut Pass<T>, other: Pass<T>)
        requires own { IsPassOf self.now pass.old × IsPassOf self.now other }
        requires errors { (pass.old.scratch ≡ []) × (other.scratch ≡ []) }
        ensures own { IsPassOf self.now pass.new }
        ensures view { (word : ℕ) × (pass.new ≡ with_view pass.old (view_after_load (joined_view pass.old.view other.view) 0 word)) }
        ensures claims { JoinsClaims pass.old other pass.new }
        ensures accounted { IsAccounted T.receipt pass.new.view }
    {
        let Pass {
            seat,
            words: _,
            number: _,
            sent: _,
            holder: _,
            pending: _,
            dropped: _,
        } = other;
        self.table.shared.join_seat::<Merge>(&mut pass.seat, seat);
        self.table.shared.load::<Look>(&mut pass.seat, 0);
    }
}
