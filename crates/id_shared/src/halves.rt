//! The halves of calls, for a caller that steps by hand: a load of a slot's word, and what follows on the word that it
//! found, whatever other passes did in between.
ghost use Rattle.std.specs.Prelude.{◌≡◌, ◌<◌, ◌≤◌, ◌-◌, ◌^◌, ℕ, true};
ghost use Rattle.rpc_model.specs.Gone.{code_in, first_in, is_live_in};
ghost use Rattle.id_rule.specs.Changes.{view_after_load};
ghost use Rattle.id_rule.specs.Parts.{part_of};
ghost use Rattle.id_shared.specs.Answers.{IsSize, IsReservedFrom, IsLockedFrom};
ghost use Rattle.id_shared.specs.Posts.{IsPostedFrom};
ghost use Rattle.id_shared.specs.Standing.{IsPassOf};
ghost use Rattle.id_shared.specs.Views.{with_view};

use crate::answers::{Reserve, TryLock, TryPost};
use crate::ids::Ids;
use crate::pass::Pass;
use id_rule::Tenant;

/// Loads the word of a slot, numbered from 0.
pub fn load<T: Tenant>(ids: &Ids<T>, pass: &mut Pass<T>, slot: u32) -> u64
    requires own { IsPassOf ids.now pass.old }
    requires slot { slot < ids.now.sizes.slots }
    ensures own { IsPassOf ids.now pass.new }
    ensures view { pass.new ≡ with_view pass.old (view_after_load pass.old.view slot result) }
    ensures small { result < 2 ^ 62 }
    ensures ended { (version : ℕ) → is_live_in result version ≡ true → (part_of pass.old.view slot).ended_below ≤ version }
{
    ids.load(pass, slot)
}

/// The rest of `reserve`, after a load that found the slot vacant: a Spot, or `Again`.
pub fn reserve_from<T: Tenant>(
    ids: &Ids<T>,
    pass: &mut Pass<T>,
    slot: u32,
    word: u64,
    range: u32,
) -> Reserve
    requires own { IsPassOf ids.now pass.old }
    requires slot { slot < ids.now.sizes.slots }
    requires word { (word < 2 ^ 62) × (code_in word ≡ 0) }
    requires range { IsSize range }
    ensures own { IsPassOf ids.now pass.new }
    ensures answer { IsReservedFrom slot word range pass.old result pass.new }
{
    ids.reserve_from(pass, slot, word, range)
}

/// The rest of `try_lock`, after a load that found the slot free: a Hold with its value, or `Again`.
pub fn lock_from<T: Tenant>(ids: &Ids<T>, pass: &mut Pass<T>, slot: u32, word: u64) -> TryLock<T>
    requires own { IsPassOf ids.now pass.old }
    requires slot { slot < ids.now.sizes.slots }
    requires word { (word < 2 ^ 62) × (code_in word ≡ 2) }
    ensures own { IsPassOf ids.now pass.new }
    ensures answer { IsLockedFrom T.log T.first_id T.receipt slot word pass.old result pass.new }
{
    ids.lock_from(pass, slot, word)
}

/// The rest of `try_post`, after a load that found the version live: a Hold with the value, a receipt, `NoNode` or `Again`.
pub fn post_from<T: Tenant>(
    ids: &Ids<T>,
    pass: &mut Pass<T>,
    slot: u32,
    word: u64,
    version: u32,
    code: u32,
) -> TryPost<T>
    requires own { IsPassOf ids.now pass.old }
    requires slot { slot < ids.now.sizes.slots }
    requires word { (word < 2 ^ 62) × (is_live_in word version ≡ true) }
    requires code { code < 65536 }
    ensures own { IsPassOf ids.now pass.new }
    ensures answer { IsPostedFrom T.log T.first_id T.receipt ids.now.sizes.slots slot word (version - first_in word) code pass.old result pass.new }
{
    ids.post_from(pass, slot, word, version, code)
}
