//! Races of two passes, stepped by hand.
ghost use Rattle.std.specs.Prelude.{◌≡◌, ◌<◌, ◌^◌};
ghost use Rattle.rpc_model.specs.Gone.{code_in};
ghost use Rattle.id_shared.specs.Standing.{IsAtRest};

use crate::tests::{
    FIRST, Tally, Told, add, begun, next, reserved, tells_destroy, tells_lock, tells_reserve,
};
use crate::{Ids, Pass, Reserve, TryLock, halves};
use id_rule::{is_live, is_locked, is_vacant};
use std::sync::Wait;
use std::test::Fail;

/// What another pass does between the load and the exchange of a call.
#[derive(Clone, Copy, Debug)]
enum Between {
    Nothing,
    /// Reserves, and keeps the Spot.
    Reserve,
    /// Reserves, and gives up.
    GiveUp,
    /// Reserves, begins, destroys and collects.
    Live,
    /// Locks, and keeps the Hold.
    Lock,
    /// Locks, adds one and unlocks.
    Add,
    /// Locks and destroys.
    Destroy,
}

// The whole life of a range of five ids, in the hands of one pass.
fn live<R: Wait>(rt: &R, ids: &Ids<Tally>, pass: &mut Pass<Tally>)
    requires own { IsAtRest ids.now pass.old }
    ensures own { IsAtRest ids.now pass.new }
{
    if let Some(owner) = begun(ids, pass, 5) {
        tells_destroy(ids, pass, FIRST);
        ids.join(rt, pass, owner);
    }
}

// The rest of `reserve` in the first slot.
fn tells_reserve_from(ids: &Ids<Tally>, pass: &mut Pass<Tally>, word: u64) -> Told
    requires own { IsAtRest ids.now pass.old }
    requires slot { 0 < ids.now.sizes.slots }
    requires word { (word < 2 ^ 62) × (code_in word ≡ 0) }
    ensures own { IsAtRest ids.now pass.new }
{
    match halves::reserve_from(ids, pass, 0, word, 3) {
        Reserve::Spot(spot) => {
            let id = spot.first_id();
            ids.give_up(pass, spot);
            Told::Spot(id)
        }
        Reserve::Full => Told::Full,
        Reserve::Again(word, found) => Told::Again(word, found),
        Reserve::BadRange => Told::BadRange,
    }
}

// A `reserve` by one pass, with something by another between its load and its exchange.
fn reserve_races<R: Wait>(
    rt: &R,
    ids: &Ids<Tally>,
    a: &mut Pass<Tally>,
    b: &mut Pass<Tally>,
    between: Between,
) -> Option<Told>
    requires own { IsAtRest ids.now a.old × IsAtRest ids.now b.old }
    requires slot { 0 < ids.now.sizes.slots }
{
    let word = halves::load(ids, a, 0);
    if !is_vacant(word) {
        return None;
    }
    match between {
        Between::Reserve => {
            let spot = reserved(ids, b, 5)?;
            let told = tells_reserve_from(ids, a, word);
            ids.give_up(b, spot);
            return Some(told);
        }
        Between::GiveUp => {
            tells_reserve(ids, b, 5);
        }
        Between::Live => live(rt, ids, b),
        _ => {}
    }
    Some(tells_reserve_from(ids, a, word))
}

// The rest of `try_lock` in the first slot.
pub(crate) fn tells_lock_from(ids: &Ids<Tally>, pass: &mut Pass<Tally>, word: u64) -> Told
    requires own { IsAtRest ids.now pass.old }
    requires slot { 0 < ids.now.sizes.slots }
    requires word { (word < 2 ^ 62) × (code_in word ≡ 2) }
    ensures own { IsAtRest ids.now pass.new }
{
    match halves::lock_from(ids, pass, 0, word) {
        TryLock::Locked(hold, tally) => Told::Locked(add(ids, pass, hold, tally)),
        TryLock::Held(word) => Told::Held(word),
        TryLock::Gone(word) => Told::Gone(word),
        TryLock::NoSlot => Told::NoSlot,
        TryLock::Again(word, found) => Told::Again(word, found),
    }
}

// A `try_lock` of the first range by one pass, with something by another between its load and its exchange.
fn lock_races(
    ids: &Ids<Tally>,
    a: &mut Pass<Tally>,
    b: &mut Pass<Tally>,
    between: Between,
) -> Option<Told>
    requires own { IsAtRest ids.now a.old × IsAtRest ids.now b.old }
    requires slot { 0 < ids.now.sizes.slots }
    ensures own { IsAtRest ids.now a.new × IsAtRest ids.now b.new }
{
    let word = halves::load(ids, a, 0);
    if !is_live(word, 1) {
        return None;
    }
    if is_locked(word) {
        return None;
    }
    match between {
        Between::Lock => match ids.try_lock(b, FIRST) {
            TryLock::Locked(hold, tally) => {
                let told = tells_lock_from(ids, a, word);
                add(ids, b, hold, tally);
                return Some(told);
            }
            TryLock::Held(_) => {}
            TryLock::Gone(_) => {}
            TryLock::NoSlot => {}
            TryLock::Again(_, _) => {}
        },
        Between::Add => {
            tells_lock(ids, b, FIRST);
        }
        Between::Destroy => {
            tells_destroy(ids, b, FIRST);
        }
        _ => {}
    }
    Some(tells_lock_from(ids, a, word))
}

#[test]
fn races_end_as_the_words_say(rt: HostRuntime) -> Result<(), Fail> {
    // Vacant for the version 1, reserved for 5 ids, vacant for the version 6.
    let reserves = [
        (Between::Nothing, Told::Spot(FIRST)),
        (Between::Reserve, Told::Again(1073741824, 1076428800)),
        (Between::GiveUp, Told::Spot(FIRST)),
        (Between::Live, Told::Again(1073741824, 6442450944)),
    ];
    for (between, wanted) in reserves {
        let Ok((ids, mut passes)) = Ids::<Tally>::open(rt.alloc(), 1, 2, 1) else {
            panic!(rt; "no memory")
        };
        let (Some(mut b), Some(mut a)) = (next(&ids, &mut passes), next(&ids, &mut passes)) else {
            panic!(rt; "no pass")
        };
        assert_eq!(rt;
            reserve_races(&rt, &ids, &mut a, &mut b, between),
            Some(wanted)
        );
    }
    // Free, locked and ended words of the range of 2 ids from the version 1 on.
    let locks = [
        (Between::Nothing, Told::Locked(1)),
        (Between::Lock, Told::Again(1074921472, 1074987008)),
        (Between::Add, Told::Locked(2)),
        (Between::Destroy, Told::Again(1074921472, 1075052544)),
    ];
    for (between, wanted) in locks {
        let Ok((ids, mut passes)) = Ids::<Tally>::open(rt.alloc(), 1, 3, 1) else {
            panic!(rt; "no memory")
        };
        let (Some(mut c), Some(mut b)) = (next(&ids, &mut passes), next(&ids, &mut passes)) else {
            panic!(rt; "no pass")
        };
        let Some(mut a) = next(&ids, &mut passes) else {
            panic!(rt; "no pass")
        };
        match begun(&ids, &mut c, 2) {
            Some(owner) => {
                assert_eq!(rt; lock_races(&ids, &mut a, &mut b, between), Some(wanted));
                tells_destroy(&ids, &mut a, FIRST);
                ids.join(&rt, &mut c, owner);
            }
            None => panic!(rt; "no range"),
        }
    }
    Ok(())
}
