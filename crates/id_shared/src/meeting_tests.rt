//! Calls of one pass between the calls of another that ends its range: a lock and a reserve that meet a collect.
ghost use Rattle.std.specs.Prelude.{◌≡◌, ◌<◌, ◌^◌};
ghost use Rattle.rpc_model.specs.Gone.{code_in};
ghost use Rattle.id_shared.specs.Standing.{IsAtRest, HasOwner};

use crate::race_tests::tells_lock_from;
use crate::tests::{FIRST, Tally, Told, begun, next, tells_destroy, tells_reserve};
use crate::{CollectEnd, Ids, Owner, Pass, halves};
use id_rule::{is_live, is_locked};
use std::process::Abort;
use std::test::Fail;

// A range of two ids, unlocked.
fn begins(rt: &impl Abort, ids: &Ids<Tally>, pass: &mut Pass<Tally>) -> Owner
    requires own { IsAtRest ids.now pass.old }
    ensures own { IsAtRest ids.now pass.new }
    ensures owner { HasOwner pass.new result }
{
    let Some(owner) = begun(ids, pass, 2) else {
        panic!(rt; "a slot is vacant");
    };
    owner
}

// Collects a range that has ended.
fn collects(rt: &impl Abort, ids: &Ids<Tally>, pass: &mut Pass<Tally>, owner: Owner)
    requires own { IsAtRest ids.now pass.old }
    requires owner { HasOwner pass.old owner }
    ensures own { IsAtRest ids.now pass.new }
{
    match ids.collect(pass, owner) {
        CollectEnd::Value(_) => {}
        _ => panic!(rt; "the range has ended"),
    }
}

// The word of the slot, free with the version 1.
fn seen_free(rt: &impl Abort, ids: &Ids<Tally>, pass: &mut Pass<Tally>) -> u64
    requires own { IsAtRest ids.now pass.old }
    requires slot { 0 < ids.now.sizes.slots }
    ensures own { IsAtRest ids.now pass.new }
    ensures word { (result < 2 ^ 62) × (code_in result ≡ 2) }
{
    let word = halves::load(ids, pass, 0);
    if !is_live(word, 1) {
        panic!(rt; "the version is live");
    }
    if is_locked(word) {
        panic!(rt; "nobody holds the range");
    }
    word
}

// A lock whose range ends and is collected between its load and its exchange, and whose slot maybe has the next range then.
fn lock_meets_a_collect(
    rt: &impl Abort,
    ids: &Ids<Tally>,
    a: &mut Pass<Tally>,
    b: &mut Pass<Tally>,
    anew: bool,
) -> Told
    requires own { IsAtRest ids.now a.old × IsAtRest ids.now b.old }
    requires slot { 0 < ids.now.sizes.slots }
    ensures own { IsAtRest ids.now a.new × IsAtRest ids.now b.new }
{
    let owner = begins(rt, ids, b);
    let word = seen_free(rt, ids, a);
    tells_destroy(ids, b, FIRST);
    collects(rt, ids, b, owner);
    if !anew {
        return tells_lock_from(ids, a, word);
    }
    let owner = begins(rt, ids, b);
    let told = tells_lock_from(ids, a, word);
    tells_destroy(ids, b, FIRST + 2);
    collects(rt, ids, b, owner);
    told
}

// What a reserve answers before a range is collected, and after it.
fn reserve_meets_a_collect(
    rt: &impl Abort,
    ids: &Ids<Tally>,
    a: &mut Pass<Tally>,
    b: &mut Pass<Tally>,
) -> (Told, Option<u64>, Told)
    requires own { IsAtRest ids.now a.old × IsAtRest ids.now b.old }
{
    let owner = begins(rt, ids, b);
    tells_destroy(ids, b, FIRST);
    let before = tells_reserve(ids, a, 1);
    let seen = a.seen().first().copied();
    collects(rt, ids, b, owner);
    (before, seen, tells_reserve(ids, a, 1))
}

#[test]
fn a_lock_and_a_reserve_meet_a_collect(rt: HostRuntime) -> Result<(), Fail> {
    // The free word of the versions 1 and 2, its ended one, the vacant one for the version 3, and the free one of 3 and 4.
    let (free, ended, vacant, next_free) = (1074921472, 1075052544, 3221225472, 3222405120);
    for (anew, found) in [(false, vacant), (true, next_free)] {
        let Ok((ids, mut passes)) = Ids::<Tally>::open(rt.alloc(), 1, 2, 1) else {
            panic!(rt; "no memory")
        };
        let (Some(mut b), Some(mut a)) = (next(&ids, &mut passes), next(&ids, &mut passes)) else {
            panic!(rt; "no pass")
        };
        assert_eq!(rt;
            lock_meets_a_collect(&rt, &ids, &mut a, &mut b, anew),
            Told::Again(free, found)
        );
    }
    let Ok((ids, mut passes)) = Ids::<Tally>::open(rt.alloc(), 1, 2, 1) else {
        panic!(rt; "no memory")
    };
    let (Some(mut b), Some(mut a)) = (next(&ids, &mut passes), next(&ids, &mut passes)) else {
        panic!(rt; "no pass")
    };
    assert_eq!(rt;
        reserve_meets_a_collect(&rt, &ids, &mut a, &mut b),
        (Told::Full, Some(ended), Told::Spot(FIRST + 2))
    );
    Ok(())
}
