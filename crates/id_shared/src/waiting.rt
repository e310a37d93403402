//! The calls that may wait. Each tries again and yields in between, as long as it takes; nothing is promised about when a
//! call that waits returns.
ghost use Rattle.std.specs.Prelude.{◌≡◌, ◌<◌};
ghost use Rattle.id_rule.specs.Accounts.{IsAccounted};
ghost use Rattle.id_shared.specs.Answers.{IsLockEnd, IsGoneEnd, HasSeenEnd, IsJoined, IsJoinSeen};
ghost use Rattle.id_shared.specs.Claims.{HasLockEnd, HasPostEnd, KeepsClaims, KeepsErrors, KeepsOthers};
ghost use Rattle.id_shared.specs.Posts.{IsPostEnd, IsGonePostEnd};
ghost use Rattle.id_shared.specs.Standing.{IsPassOf, HasOwner};

use crate::answers::{CollectEnd, LockEnd, PostEnd, TryLock, TryPost};
use crate::claims::Owner;
use crate::ids::Ids;
use crate::pass::Pass;
use id_pool::{slot_of, version_of};
use id_rule::{Tenant, is_live};
use std::sync::Wait;
use std::thread;

impl<T: Tenant> Ids<T> {
    /// Locks the range that has the id, and waits until it is free.
    ///
    /// The answers are those of `try_lock`, but for the two that make it try again. Once a pass has seen a range end, each
    /// of its ids is `Gone` for it.
    pub fn lock<R: Wait>(&self, rt: &R, pass: &mut Pass<T>, id: u64) -> LockEnd<T>
        requires own { IsPassOf self.now pass.old }
        ensures own { IsPassOf self.now pass.new }
        ensures answer { IsLockEnd T.log T.first_id T.receipt self.now.sizes.slots id pass.old result pass.new }
        ensures stays_gone { HasSeenEnd self.now.sizes.slots id pass.old → IsGoneEnd result }
        ensures holding { HasLockEnd T.log pass.new result }
        ensures claims { KeepsClaims pass.old pass.new }
        ensures errors { KeepsErrors pass.old pass.new }
    {
        for _ in rt.forever() {
            match self.try_lock(pass, id) {
                TryLock::Locked(hold, value) => return LockEnd::Locked(hold, value),
                TryLock::Gone(word) => return LockEnd::Gone(word),
                TryLock::NoSlot => return LockEnd::NoSlot,
                TryLock::Held(_) => {}
                TryLock::Again(_, _) => {}
            }
            thread::yield_now();
        }
        unreachable!()
    }

    /// Posts an error with a code below 65,536 to an id, and tries again for as long as other passes are faster. The answers
    /// are those of `try_post`, but for `Again`.
    pub fn post<R: Wait>(&self, rt: &R, pass: &mut Pass<T>, id: u64, code: u32) -> PostEnd<T>
        requires own { IsPassOf self.now pass.old }
        requires code { code < 65536 }
        ensures own { IsPassOf self.now pass.new }
        ensures answer { IsPostEnd T.log T.first_id T.receipt self.now.sizes.slots id code pass.old result pass.new }
        ensures stays_gone { HasSeenEnd self.now.sizes.slots id pass.old → IsGonePostEnd result }
        ensures holding { HasPostEnd T.log pass.new result }
        ensures claims { KeepsClaims pass.old pass.new }
        ensures errors { KeepsErrors pass.old pass.new }
    {
        for _ in rt.forever() {
            match self.try_post(pass, id, code) {
                TryPost::Locked(hold, value) => return PostEnd::Locked(hold, value),
                TryPost::Queued(receipt) => return PostEnd::Queued(receipt),
                TryPost::Gone(word) => return PostEnd::Gone(word),
                TryPost::NoSlot => return PostEnd::NoSlot,
                TryPost::NoNode => return PostEnd::NoNode,
                TryPost::Again(_, _) => {}
            }
            thread::yield_now();
        }
        unreachable!()
    }

    /// Waits until the owner's range was destroyed, and collects its value.
    pub fn join<R: Wait>(&self, rt: &R, pass: &mut Pass<T>, owner: Owner) -> T
        requires own { IsPassOf self.now pass.old }
        requires owner { HasOwner pass.old owner }
        ensures own { IsPassOf self.now pass.new }
        ensures answer { IsJoined T.log T.first_id owner pass.old result pass.new }
        ensures accounted { IsAccounted T.receipt pass.new.view }
        ensures others { KeepsOthers owner.slot pass.old pass.new }
        ensures errors { KeepsErrors pass.old pass.new }
    {
        let mut waits = owner;
        for _ in rt.forever() {
            match self.collect(pass, waits) {
                CollectEnd::Value(value) => return value,
                CollectEnd::NotYet(same, _) => waits = same,
            }
            thread::yield_now();
        }
        unreachable!()
    }

    /// Waits until the id is gone, and answers the word that shows it. `None` comes exactly where the id names no slot of
    /// this table.
    pub fn join_seen<R: Wait>(&self, rt: &R, pass: &mut Pass<T>, id: u64) -> Option<u64>
        requires own { IsPassOf self.now pass.old }
        ensures own { IsPassOf self.now pass.new }
        ensures answer { IsJoinSeen self.now.sizes.slots id pass.old result pass.new }
        ensures claims { KeepsClaims pass.old pass.new }
        ensures errors { KeepsErrors pass.old pass.new }
    {
        let Some(slot) = slot_of(id) else {
            return None;
        };
        if slot >= self.sizes.slots {
            return None;
        }
        for _ in rt.forever() {
            let word = self.load(pass, slot);
            if !is_live(word, version_of(id)) {
                return Some(word);
            }
            thread::yield_now();
        }
        unreachable!()
    }
}
