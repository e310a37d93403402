//! The answers in a table of stages, and helpers for the other tests.
ghost use Rattle.std.specs.Prelude.{◌≡◌, ◌<◌, [], List, ℕ, All, IfSome, vec_len};
ghost use Rattle.id_shared.specs.Claims.{KeepsOwners, IsHolding};
ghost use Rattle.id_shared.specs.Standing.{IsAtRest, IsPassOf, HasDropped, HasSpot, HasOwner, first_id_of};

use crate::ending::next_word;
use crate::{CollectEnd, Hold, Ids, Owner, Pass, Reserve, Spot, TryLock, UnlockEnd};
use id_rule::{State, Tenant, unpack};
use std::process::Abort;
use std::test::Fail;

/// A number under a range of ids, whose log stays empty.
#[derive(Drop)]
pub(crate) struct Tally {
    pub(crate) first: u64,
    pub(crate) count: u64,
}

impl Tenant for Tally {
    type Entry = u64;

    ghost log = { λ t. [] };

    ghost use Rattle.std.specs.Prelude.{None};

    ghost receipt = { λ e. None };

    ghost first_id = { λ t. t.first };

    fn first(&self) -> u64 {
        self.first
    }
}

/// What a call answered, in plain words and numbers.
#[derive(Clone, Copy, Debug, PartialEq, Eq)]
pub(crate) enum Told {
    Spot(u64),
    Full,
    BadRange,
    Locked(u64),
    Held(u64),
    Gone(u64),
    NoSlot,
    Again(u64, u64),
    Value(u64),
    NotYet(u64),
}

// The last of the passes.
pub(crate) fn next<T: Tenant>(ids: &Ids<T>, passes: &mut Vec<Pass<T>>) -> Option<Pass<T>>
    requires own { All (IsAtRest ids.now) passes.old.items }
    ensures own { All (IsAtRest ids.now) passes.new.items }
    ensures fewer { IfSome result (λ _. vec_len passes.new < vec_len passes.old) }
    ensures pass { IfSome result (IsAtRest ids.now) }
{
    passes.pop()
}

// Reserves, and gives up what was reserved.
pub(crate) fn tells_reserve(ids: &Ids<Tally>, pass: &mut Pass<Tally>, range: u32) -> Told
    requires own { IsAtRest ids.now pass.old }
    ensures own { IsAtRest ids.now pass.new }
{
    match ids.reserve(pass, range) {
        Reserve::Spot(spot) => {
            let id = spot.first_id();
            ids.give_up(pass, spot);
            Told::Spot(id)
        }
        Reserve::Full => Told::Full,
        Reserve::Again(word, found) => Told::Again(word, found),
        Reserve::BadRange => Told::BadRange,
    }
}

// Takes all dropped errors.
pub(crate) fn forgets<T: Tenant>(ids: &Ids<T>, pass: &mut Pass<T>)
    requires own { IsPassOf ids.now pass.old }
    requires dropped { HasDropped pass.old }
    ensures own { IsAtRest ids.now pass.new }
    ensures same { pass.new.view ≡ pass.old.view }
{
    while let Some(_) = ids.next_dropped(pass) {}
}

// Adds one to the tally, and unlocks it. Tells the tally as it was.
pub(crate) fn add(ids: &Ids<Tally>, pass: &mut Pass<Tally>, hold: Hold, mut tally: Tally) -> u64
    requires own { IsAtRest ids.now pass.old }
    requires holding { IsHolding pass.old hold [] }
    requires first { tally.first ≡ first_id_of hold }
    ensures own { IsAtRest ids.now pass.new }
    ensures owners { KeepsOwners pass.old pass.new }
{
    let count = tally.count;
    tally.count = count.wrapping_add(1);
    match ids.unlock(pass, hold, tally) {
        UnlockEnd::Unlocked => {}
        UnlockEnd::Pending(hold, tally, _) => {
            ids.destroy(pass, hold, tally);
            forgets(ids, pass);
        }
    }
    count
}

// Locks, adds one, and unlocks.
pub(crate) fn tells_lock(ids: &Ids<Tally>, pass: &mut Pass<Tally>, id: u64) -> Told
    requires own { IsAtRest ids.now pass.old }
    ensures own { IsAtRest ids.now pass.new }
    ensures owners { KeepsOwners pass.old pass.new }
{
    match ids.try_lock(pass, id) {
        TryLock::Locked(hold, tally) => Told::Locked(add(ids, pass, hold, tally)),
        TryLock::Held(word) => Told::Held(word),
        TryLock::Gone(word) => Told::Gone(word),
        TryLock::NoSlot => Told::NoSlot,
        TryLock::Again(word, found) => Told::Again(word, found),
    }
}

// Reserves a range, and keeps the Spot.
pub(crate) fn reserved(ids: &Ids<Tally>, pass: &mut Pass<Tally>, range: u32) -> Option<Spot>
    requires own { IsAtRest ids.now pass.old }
    ensures own { IsAtRest ids.now pass.new }
    ensures spot { IfSome result (λ c. HasSpot pass.new c) }
{
    match ids.reserve(pass, range) {
        Reserve::Spot(spot) => Some(spot),
        Reserve::Full => None,
        Reserve::Again(_, _) => None,
        Reserve::BadRange => None,
    }
}

// Begins a range, and unlocks it.
pub(crate) fn begun(ids: &Ids<Tally>, pass: &mut Pass<Tally>, range: u32) -> Option<Owner>
    requires own { IsAtRest ids.now pass.old }
    ensures own { IsAtRest ids.now pass.new }
    ensures owner { IfSome result (λ c. HasOwner pass.new c) }
{
    let spot = reserved(ids, pass, range)?;
    let first = spot.first_id();
    let (owner, hold, tally) = ids.install(pass, spot, Tally { first, count: 0 });
    add(ids, pass, hold, tally);
    Some(owner)
}

// Destroys a held range.
pub(crate) fn destroys(ids: &Ids<Tally>, pass: &mut Pass<Tally>, hold: Hold, tally: Tally) -> u32
    requires own { IsAtRest ids.now pass.old }
    requires holding { IsHolding pass.old hold [] }
    requires first { tally.first ≡ first_id_of hold }
    ensures own { IsAtRest ids.now pass.new }
    ensures owners { KeepsOwners pass.old pass.new }
{
    let count = ids.destroy(pass, hold, tally);
    forgets(ids, pass);
    count
}

// Locks the range and destroys it.
pub(crate) fn tells_destroy(ids: &Ids<Tally>, pass: &mut Pass<Tally>, id: u64) -> Told
    requires own { IsAtRest ids.now pass.old }
    ensures own { IsAtRest ids.now pass.new }
    ensures owners { KeepsOwners pass.old pass.new }
{
    match ids.try_lock(pass, id) {
        TryLock::Locked(hold, tally) => Told::Locked(u64::from(destroys(ids, pass, hold, tally))),
        TryLock::Held(word) => Told::Held(word),
        TryLock::Gone(word) => Told::Gone(word),
        TryLock::NoSlot => Told::NoSlot,
        TryLock::Again(word, found) => Told::Again(word, found),
    }
}

/// A call of another pass.
#[derive(Clone, Copy, Debug)]
enum Probe {
    Reserve(u32),
    Lock(u64),
}

// Each call gives the answer that is wanted.
fn check(rt: &impl Abort, ids: &Ids<Tally>, pass: &mut Pass<Tally>, rows: &[(Probe, Told)])
    requires own { IsAtRest ids.now pass.old }
    ensures own { IsAtRest ids.now pass.new }
{
    for (call, wanted) in rows {
        let told = match *call {
            Probe::Reserve(range) => tells_reserve(ids, pass, range),
            Probe::Lock(id) => tells_lock(ids, pass, id),
        };
        assert_eq!(rt; told, *wanted);
    }
}

pub(crate) const FIRST: u64 = 4294967297;

// What another pass is answered while a range of two ids is begun, unlocked, destroyed and collected.
fn lives(rt: &impl Abort, ids: &Ids<Tally>, a: &mut Pass<Tally>, b: &mut Pass<Tally>, spot: Spot)
    requires own { IsAtRest ids.now a.old × IsAtRest ids.now b.old }
    requires spot { HasSpot a.old spot }
    ensures own { IsAtRest ids.now a.new × IsAtRest ids.now b.new }
{
    assert_eq!(rt; spot.first_id(), FIRST);
    check(
        rt,
        ids,
        b,
        &[
            (Probe::Reserve(1), Told::Full),
            (Probe::Lock(FIRST), Told::Gone(1074855936)),
        ],
    );
    assert_eq!(rt; b.seen().len(), 1);
    let first = spot.first_id();
    let (owner, hold, tally) = ids.install(a, spot, Tally { first, count: 0 });
    check(
        rt,
        ids,
        b,
        &[
            (Probe::Reserve(1), Told::Full),
            (Probe::Lock(FIRST), Told::Held(1074987008)),
            (Probe::Lock(FIRST + 1), Told::Held(1074987008)),
            (Probe::Lock(FIRST + 2), Told::Gone(1074987008)),
        ],
    );
    assert_eq!(rt; add(ids, a, hold, tally), 0);
    check(
        rt,
        ids,
        b,
        &[
            (Probe::Lock(FIRST + 2), Told::Gone(1074921472)),
            (Probe::Lock(FIRST + 1), Told::Locked(1)),
            (Probe::Lock(FIRST), Told::Locked(2)),
            (Probe::Reserve(1), Told::Full),
        ],
    );
    match ids.collect(a, owner) {
        CollectEnd::NotYet(owner, word) => {
            assert_eq!(rt; word, 1074921472);
            assert_eq!(rt; owner.first_id(), FIRST);
            assert_eq!(rt; tells_destroy(ids, b, FIRST + 1), Told::Locked(0));
            check(
                rt,
                ids,
                b,
                &[
                    (Probe::Lock(FIRST), Told::Gone(1075052544)),
                    (Probe::Reserve(1), Told::Full),
                ],
            );
            match ids.collect(a, owner) {
                CollectEnd::Value(tally) => assert_eq!(rt; tally.count, 3),
                _ => panic!(rt; "the range has ended"),
            }
        }
        _ => panic!(rt; "the range goes on"),
    }
    check(
        rt,
        ids,
        b,
        &[
            (Probe::Lock(FIRST), Told::Gone(3221225472)),
            (Probe::Lock(FIRST + 2), Told::Gone(3221225472)),
            (Probe::Reserve(1), Told::Spot(FIRST + 2)),
        ],
    );
}

#[test]
fn answers_follow_the_life_of_a_range(rt: HostRuntime) -> Result<(), Fail> {
    let Ok((ids, mut passes)) = Ids::<Tally>::open(rt.alloc(), 1, 2, 1) else {
        panic!(rt; "no memory")
    };
    let (Some(mut b), Some(mut a)) = (next(&ids, &mut passes), next(&ids, &mut passes)) else {
        panic!(rt; "no pass")
    };
    check(
        &rt,
        &ids,
        &mut a,
        &[
            (Probe::Reserve(0), Told::BadRange),
            (Probe::Reserve(1025), Told::BadRange),
            (Probe::Reserve(2), Told::Spot(FIRST)),
            (Probe::Reserve(1024), Told::Spot(FIRST)),
            (Probe::Lock(FIRST), Told::Gone(1073741824)),
            (Probe::Lock(8589934593), Told::NoSlot),
            (Probe::Lock(4294967295), Told::NoSlot),
        ],
    );
    match reserved(&ids, &mut a, 2) {
        Some(spot) => lives(&rt, &ids, &mut a, &mut b, spot),
        None => panic!(rt; "no spot"),
    }
    Ok(())
}

#[test]
fn the_next_range_begins_behind_or_the_slot_is_retired(rt: HostRuntime) -> Result<(), Fail> {
    // First version and size of a range that was collected, and the first version and state of the word after it.
    let rows = [
        (1, 2, 3, State::Vacant),
        (4294964225, 1024, 4294965249, State::Vacant),
        (4294966271, 1, 4294966272, State::Vacant),
        (4294965249, 1024, 4294965249, State::Retired),
        (4294966272, 1, 4294966272, State::Retired),
    ];
    for (first, size, next, state) in rows {
        let word = unpack(next_word(first, size));
        assert_eq!(rt;
            (word.first, word.range, word.state, word.head),
            (next, 0, state, 0)
        );
    }
    Ok(())
}
