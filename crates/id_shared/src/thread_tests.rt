//! Four threads on one table.
ghost use Rattle.std.specs.Prelude.{◌≡◌, ◌<◌, All};
ghost use Rattle.id_shared.specs.Claims.{KeepsOwners};
ghost use Rattle.id_shared.specs.Standing.{IsAtRest, HasOwner};

use crate::tests::{Tally, Told, begun, destroys, next, tells_lock};
use crate::{Ids, LockEnd, Owner, Pass, halves};
use id_pool::make_id;
use id_rule::unpack;
use std::alloc::Global;
use std::sync::Wait;
use std::test::Fail;
use std::thread;
use std::thread::Threads;

/// A pass with the Owner of its present range.
struct Desk {
    pass: Pass<Tally>,
    owner: Owner,
    ghost owned: { HasOwner pass owner },
}

/// How often a tally was changed, and what the collected tallies say.
#[derive(Clone, Copy, Debug, PartialEq, Eq)]
struct Sums {
    changed: u64,
    collected: u64,
}

// Begins a range of a size, with the first change of its tally, as soon as a slot is vacant.
fn begins<R: Wait>(rt: &R, ids: &Ids<Tally>, mut pass: Pass<Tally>, range: u32) -> Desk
    requires own { IsAtRest ids.now pass }
    ensures own { IsAtRest ids.now result.pass }
{
    for _ in rt.forever() {
        if let Some(owner) = begun(ids, &mut pass, range) {
            return Desk { pass, owner };
        }
        thread::yield_now();
    }
    unreachable!()
}

// Waits for the Hold of the range, and destroys it.
fn destroys_at_last<R: Wait>(rt: &R, ids: &Ids<Tally>, pass: &mut Pass<Tally>, id: u64)
    requires own { IsAtRest ids.now pass.old }
    ensures own { IsAtRest ids.now pass.new }
    ensures owners { KeepsOwners pass.old pass.new }
{
    match ids.lock(rt, pass, id) {
        LockEnd::Locked(hold, tally) => {
            destroys(ids, pass, hold, tally);
        }
        LockEnd::Gone(_) => {}
        LockEnd::NoSlot => {}
    }
}

// Destroys the desk's range and collects its tally.
fn ends<R: Wait>(rt: &R, ids: &Ids<Tally>, desk: Desk) -> (Pass<Tally>, u64)
    requires own { IsAtRest ids.now desk.pass }
    ensures own { IsAtRest ids.now result.0 }
{
    let Desk { mut pass, owner } = desk;
    destroys_at_last(rt, ids, &mut pass, owner.first_id());
    let tally = ids.join(rt, &mut pass, owner);
    (pass, tally.count)
}

const SLOTS: u32 = 64;

// Tries to change the tally of the range that is in the slot now. Answers 1 where it did, else 0.
fn changes(ids: &Ids<Tally>, pass: &mut Pass<Tally>, slot: u32) -> u64
    requires own { IsAtRest ids.now pass.old }
    requires slot { (slot < ids.now.sizes.slots) × (slot < 64) }
    ensures own { IsAtRest ids.now pass.new }
    ensures owners { KeepsOwners pass.old pass.new }
{
    let first = unpack(halves::load(ids, pass, slot)).first;
    match tells_lock(ids, pass, make_id(slot, first)) {
        Told::Locked(_) => 1,
        _ => 0,
    }
}

// Changes the tally of the range in a slot, from this desk.
fn strolls(ids: &Ids<Tally>, desk: Desk, slot: u32) -> (Desk, u64)
    requires own { IsAtRest ids.now desk.pass }
    requires slot { (slot < ids.now.sizes.slots) × (slot < 64) }
    ensures own { IsAtRest ids.now result.0.pass }
{
    let Desk { mut pass, owner } = desk;
    let changed = changes(ids, &mut pass, slot);
    (Desk { pass, owner }, changed)
}

// Changes tallies all over the table a hundred times. Answers how many it changed.
fn travels(ids: &Ids<Tally>, desk: Desk, seed: u32) -> (Desk, u64)
    requires own { IsAtRest ids.now desk.pass }
    requires slots { ids.now.sizes.slots ≡ 64 }
    ensures own { IsAtRest ids.now result.0.pass }
{
    let mut now = desk;
    let mut place = seed;
    let mut changed = 0u64;
    for _ in 0..100u32 {
        place = place.wrapping_mul(1664525).wrapping_add(1013904223);
        let (next, count) = strolls(ids, now, place / 65536 % SLOTS);
        now = next;
        changed = changed.wrapping_add(count);
    }
    (now, changed)
}

// Travels, ends its own range and begins the next one, again and again; at last it ends.
fn works<R: Wait>(rt: &R, ids: &Ids<Tally>, desk: Desk, seed: u32) -> Sums
    requires own { IsAtRest ids.now desk.pass }
    requires slots { ids.now.sizes.slots ≡ 64 }
{
    let mut now = desk;
    let mut sums = Sums {
        changed: 1,
        collected: 0,
    };
    for round in 0..16u32 {
        let (travelled, changed) = travels(ids, now, seed.wrapping_mul(31).wrapping_add(round));
        let (pass, count) = ends(rt, ids, travelled);
        now = begins(rt, ids, pass, 1 + round % 3);
        sums = both(
            sums,
            Sums {
                changed: changed.wrapping_add(1),
                collected: count,
            },
        );
    }
    let (_, count) = ends(rt, ids, now);
    both(
        sums,
        Sums {
            changed: 0,
            collected: count,
        },
    )
}

fn both(a: Sums, b: Sums) -> Sums {
    Sums {
        changed: a.changed.wrapping_add(b.changed),
        collected: a.collected.wrapping_add(b.collected),
    }
}

// A desk for each of the passes. Where memory runs out the other passes stay without one.
fn opens<R: Wait>(
    rt: &R,
    ids: &Ids<Tally>,
    alloc: Global,
    mut passes: Vec<Pass<Tally>>,
) -> Vec<Desk>
    requires own { All (IsAtRest ids.now) passes.items }
    ensures own { All (λ d. IsAtRest ids.now d.pass) result.items }
{
    let mut desks = Vec::new(alloc);
    while let Some(pass) = next(ids, &mut passes) {
        match desks.push(begins(rt, ids, pass, 1)) {
            Ok(()) => {}
            Err(refused) => {
                ends(rt, ids, refused.value);
            }
        }
    }
    desks
}

// All desks work, one after the other, while those that wait have their ranges too.
fn all_work<R: Wait>(rt: &R, ids: &Ids<Tally>, alloc: Global, passes: Vec<Pass<Tally>>) -> Sums
    requires own { All (IsAtRest ids.now) passes.items }
    requires slots { ids.now.sizes.slots ≡ 64 }
{
    let mut desks = opens(rt, ids, alloc, passes);
    let mut sums = Sums {
        changed: 0,
        collected: 0,
    };
    let mut seed = 1u32;
    while let Some(desk) = desks.pop() {
        seed = seed.wrapping_add(7);
        sums = both(sums, works(rt, ids, desk, seed));
    }
    desks.destroy_empty();
    sums
}

// So many of the passes, at most.
fn share(
    ids: &Ids<Tally>,
    alloc: Global,
    passes: &mut Vec<Pass<Tally>>,
    count: u32,
) -> Vec<Pass<Tally>>
    requires own { All (IsAtRest ids.now) passes.old.items }
    ensures own { All (IsAtRest ids.now) passes.new.items × All (IsAtRest ids.now) result.items }
{
    let mut some = Vec::new(alloc);
    for _ in 0..count {
        if let Some(pass) = next(ids, passes) {
            let _ = some.push(pass);
        }
    }
    some
}

// Two shares of the passes at once.
fn two<R: Threads + Wait + Sync>(
    rt: &R,
    ids: &Ids<Tally>,
    alloc: Global,
    a: Vec<Pass<Tally>>,
    b: Vec<Pass<Tally>>,
) -> Sums
    requires own { All (IsAtRest ids.now) a.items × All (IsAtRest ids.now) b.items }
    requires slots { ids.now.sizes.slots ≡ 64 }
{
    let (a, b) = thread::join(
        rt,
        move || -> Sums
            requires { All (IsAtRest ids.now) a.items × (ids.now.sizes.slots ≡ 64) }
        { all_work(rt, ids, alloc, a) },
        move || -> Sums
            requires { All (IsAtRest ids.now) b.items × (ids.now.sizes.slots ≡ 64) }
        { all_work(rt, ids, alloc, b) },
    );
    both(a, b)
}

// Four shares at once.
fn four<R: Threads + Wait + Sync>(
    rt: &R,
    ids: &Ids<Tally>,
    alloc: Global,
    mut passes: Vec<Pass<Tally>>,
) -> Sums
    requires own { All (IsAtRest ids.now) passes.items }
    requires slots { ids.now.sizes.slots ≡ 64 }
{
    let a = share(ids, alloc, &mut passes, 16);
    let b = share(ids, alloc, &mut passes, 16);
    let c = share(ids, alloc, &mut passes, 16);
    let (x, y) = thread::join(
        rt,
        move || -> Sums
            requires { All (IsAtRest ids.now) a.items × All (IsAtRest ids.now) b.items × (ids.now.sizes.slots ≡ 64) }
        { two(rt, ids, alloc, a, b) },
        move || -> Sums
            requires { All (IsAtRest ids.now) c.items × All (IsAtRest ids.now) passes.items × (ids.now.sizes.slots ≡ 64) }
        { two(rt, ids, alloc, c, passes) },
    );
    both(x, y)
}

#[test]
fn four_threads_lose_no_change(rt: HostRuntime) -> Result<(), Fail> {
    let Ok((ids, passes)) = Ids::<Tally>::open(rt.alloc(), SLOTS, 64, 1) else {
        panic!(rt; "no memory")
    };
    let sums = four(&rt, &ids, rt.alloc(), passes);
    // 64 desks with 17 ranges each, and 102,400 tries in between.
    assert!(rt; sums.changed > 64 * 17);
    assert_eq!(rt; sums.collected, sums.changed);
    Ok(())
}
