//! Eight threads on one table: four passes post errors to the ranges that four others begin, hold and end.
ghost use Rattle.std.specs.Prelude.{◌≡◌, ◌<◌, All};
ghost use Rattle.id_shared.specs.Standing.{IsAtRest};

use crate::crowd_holding_tests::{Line, Notes, Signs, holds};
use crate::crowd_posting_tests::{ERRORS, Sent, queues};
use crate::post_tests::Book;
use crate::tests::next;
use crate::{Ids, Pass};
use std::alloc::Global;
use std::process::Abort;
use std::sync::Wait;
use std::sync::atomic::AtomicU64;
use std::test::Fail;
use std::thread;
use std::thread::Threads;

// Two posters at once.
fn two_posters<R: Threads + Wait + Abort + Sync>(
    rt: &R,
    ids: &Ids<Book>,
    alloc: Global,
    signs: &Signs,
    a: Pass<Book>,
    b: Pass<Book>,
) -> (Sent, Sent)
    requires own { IsAtRest ids.now a × IsAtRest ids.now b }
    requires slots { ids.now.sizes.slots ≡ 64 }
{
    thread::join(
        rt,
        move || -> Sent
            requires { IsAtRest ids.now a × (ids.now.sizes.slots ≡ 64) }
        { queues(rt, ids, alloc, signs, a) },
        move || -> Sent
            requires { IsAtRest ids.now b × (ids.now.sizes.slots ≡ 64) }
        { queues(rt, ids, alloc, signs, b) },
    )
}

// Two holders at once, with the 32 slots from this one on.
fn two_holders<R: Threads + Wait + Abort + Sync>(
    rt: &R,
    ids: &Ids<Book>,
    alloc: Global,
    signs: &Signs,
    a: Pass<Book>,
    b: Pass<Book>,
    slot: u32,
) -> (Notes, Notes)
    requires own { IsAtRest ids.now a × IsAtRest ids.now b }
    requires slots { ids.now.sizes.slots ≡ 64 }
    requires slot { slot < 33 }
{
    thread::join(
        rt,
        move || -> Notes
            requires { IsAtRest ids.now a × (ids.now.sizes.slots ≡ 64) × (slot < 33) }
        { holds(rt, ids, alloc, signs, a, slot) },
        move || -> Notes
            requires { IsAtRest ids.now b × (ids.now.sizes.slots ≡ 64) × (slot < 33) }
        { holds(rt, ids, alloc, signs, b, slot + 16) },
    )
}

// Two posters and two holders at once.
fn four<R: Threads + Wait + Abort + Sync>(
    rt: &R,
    ids: &Ids<Book>,
    alloc: Global,
    signs: &Signs,
    a: Pass<Book>,
    b: Pass<Book>,
    c: Pass<Book>,
    d: Pass<Book>,
    slot: u32,
) -> ((Sent, Sent), (Notes, Notes))
    requires own { IsAtRest ids.now a × IsAtRest ids.now b × IsAtRest ids.now c × IsAtRest ids.now d }
    requires slots { ids.now.sizes.slots ≡ 64 }
    requires slot { slot < 33 }
{
    thread::join(
        rt,
        move || -> (Sent, Sent)
            requires { IsAtRest ids.now a × IsAtRest ids.now b × (ids.now.sizes.slots ≡ 64) }
        { two_posters(rt, ids, alloc, signs, a, b) },
        move || -> (Notes, Notes)
            requires { IsAtRest ids.now c × IsAtRest ids.now d × (ids.now.sizes.slots ≡ 64) × (slot < 33) }
        { two_holders(rt, ids, alloc, signs, c, d, slot) },
    )
}

// How many of the lines have an error of the poster. Each is of the range that the poster noted, and in each range they
// come in the poster's order. The lines of one range stand together.
fn counts(rt: &impl Abort, sent: &Sent, lines: &[Line]) -> usize {
    let (mut first, mut least, mut count) = (0u64, 0u64, 0usize);
    for line in lines {
        if line.receipt.pass != sent.number {
            continue;
        }
        if line.first != first {
            first = line.first;
            least = 0;
        }
        let number = line.receipt.number;
        assert!(rt; number >= least);
        assert_eq!(rt; sent.firsts.get(number as usize).copied(), Some(first));
        least = number.wrapping_add(1);
        count = count.wrapping_add(1);
    }
    count
}

// Each error of the poster stands in one line.
fn checks(rt: &impl Abort, sent: &Sent, a: &(Notes, Notes), b: &(Notes, Notes)) {
    let mut count = 0usize;
    for notes in [&a.0, &a.1, &b.0, &b.1] {
        count = count.wrapping_add(counts(rt, sent, notes.lines.as_slice()));
    }
    assert_eq!(rt; (count, sent.firsts.len()), (ERRORS, ERRORS));
}

// Four threads beside four others.
fn eight<R: Threads + Wait + Abort + Sync>(
    rt: &R,
    ids: &Ids<Book>,
    alloc: Global,
    signs: &Signs,
    mut passes: Vec<Pass<Book>>,
) -> Option<
    (
        ((Sent, Sent), (Notes, Notes)),
        ((Sent, Sent), (Notes, Notes)),
    ),
>
    requires own { All (IsAtRest ids.now) passes.items }
    requires slots { ids.now.sizes.slots ≡ 64 }
{
    let (a, b) = (next(ids, &mut passes)?, next(ids, &mut passes)?);
    let (c, d) = (next(ids, &mut passes)?, next(ids, &mut passes)?);
    let (e, f) = (next(ids, &mut passes)?, next(ids, &mut passes)?);
    let (g, h) = (next(ids, &mut passes)?, next(ids, &mut passes)?);
    Some(thread::join(
        rt,
        move || -> ((Sent, Sent), (Notes, Notes))
            requires { IsAtRest ids.now a × IsAtRest ids.now b × IsAtRest ids.now c × IsAtRest ids.now d × (ids.now.sizes.slots ≡ 64) }
        { four(rt, ids, alloc, signs, a, b, c, d, 0) },
        move || -> ((Sent, Sent), (Notes, Notes))
            requires { IsAtRest ids.now e × IsAtRest ids.now f × IsAtRest ids.now g × IsAtRest ids.now h × (ids.now.sizes.slots ≡ 64) }
        { four(rt, ids, alloc, signs, e, f, g, h, 32) },
    ))
}

#[test]
fn eight_threads_account_for_each_error(rt: HostRuntime) -> Result<(), Fail> {
    let Ok((ids, passes)) = Ids::<Book>::open(rt.alloc(), 64, 8, 64) else {
        panic!(rt; "no memory")
    };
    let signs = Signs {
        done: AtomicU64::new(0),
        stuck: AtomicU64::new(0),
    };
    let Some(((first, mine), (second, others))) = eight(&rt, &ids, rt.alloc(), &signs, passes)
    else {
        panic!(rt; "no pass")
    };
    for sent in [&first.0, &first.1, &second.0, &second.1] {
        checks(&rt, sent, &mine, &others);
    }
    let (mut pendings, mut dropped) = (0u64, 0u64);
    for notes in [&mine.0, &mine.1, &others.0, &others.1] {
        pendings = pendings.wrapping_add(notes.pendings);
        dropped = dropped.wrapping_add(notes.dropped);
    }
    assert!(rt; pendings > 0);
    assert!(rt; dropped > 0);
    Ok(())
}
