//! Errors that are queued to a range while it is held.
ghost use Rattle.std.specs.Prelude.{◌≡◌, ◌++◌, [], ◌<◌, ◌≤◌, List, IfSome};
ghost use Rattle.id_rule.specs.declared.view.Receipt.{Receipt};
ghost use Rattle.id_shared.specs.Claims.{IsHolding, IsHoldingWith, KeepsOwners};
ghost use Rattle.id_shared.specs.Standing.{IsAtRest, IsPassOf, HasErrorsOf, HasHold, HasOwner, HasSpot, first_id_of};
ghost use Rattle.id_shared.specs.Views.{receipts_in_errors};

use crate::tests::{FIRST, forgets, next};
use crate::{
    CollectEnd, Hold, Ids, Owner, Pass, Posted, Reserve, Spot, TryLock, TryPost, UnlockEnd,
};
use id_rule::{Receipt, Tenant};
use std::alloc::Global;
use std::process::Abort;
use std::test::Fail;

/// The receipts of the errors that were handed out under a range of ids.
#[derive(Drop)]
pub(crate) struct Book {
    pub(crate) first: u64,
    pub(crate) taken: Vec<Receipt>,
}

impl Tenant for Book {
    type Entry = Receipt;

    ghost log = { λ t. t.taken.items };

    ghost use Rattle.std.specs.Prelude.{Some};

    ghost receipt = { λ e. Some e };

    ghost first_id = { λ t. t.first };

    fn first(&self) -> u64 {
        self.first
    }
}

/// What a call answered, in plain words and numbers.
#[derive(Clone, Copy, Debug, PartialEq, Eq)]
pub(crate) enum Told {
    Locked,
    Held(u64),
    Queued(u32, u64),
    Gone(u64),
    NoSlot,
    NoNode,
    Again(u64, u64),
}

/// The count of a `Pending`, and the last of its errors.
#[derive(Clone, Copy, Debug, PartialEq, Eq)]
pub(crate) struct Taken {
    count: u32,
    last: Option<Posted>,
}

// Unlocks; where errors came, it destroys the range instead.
pub(crate) fn releases(ids: &Ids<Book>, pass: &mut Pass<Book>, hold: Hold, book: Book)
    requires own { IsAtRest ids.now pass.old }
    requires holding { IsHolding pass.old hold book.taken.items }
    requires first { book.first ≡ first_id_of hold }
    ensures own { IsAtRest ids.now pass.new }
    ensures owners { KeepsOwners pass.old pass.new }
{
    match ids.unlock(pass, hold, book) {
        UnlockEnd::Unlocked => {}
        UnlockEnd::Pending(hold, book, _) => {
            ids.destroy(pass, hold, book);
            forgets(ids, pass);
        }
    }
}

// Posts an error, and unlocks what it locks.
pub(crate) fn tells_post(ids: &Ids<Book>, pass: &mut Pass<Book>, id: u64, code: u32) -> Told
    requires own { IsAtRest ids.now pass.old }
    requires code { code < 65536 }
    ensures own { IsAtRest ids.now pass.new }
{
    match ids.try_post(pass, id, code) {
        TryPost::Locked(hold, book) => {
            releases(ids, pass, hold, book);
            Told::Locked
        }
        TryPost::Queued(receipt) => Told::Queued(receipt.pass, receipt.number),
        TryPost::Gone(word) => Told::Gone(word),
        TryPost::NoSlot => Told::NoSlot,
        TryPost::NoNode => Told::NoNode,
        TryPost::Again(word, found) => Told::Again(word, found),
    }
}

// Locks, and unlocks again.
pub(crate) fn tells_lock(ids: &Ids<Book>, pass: &mut Pass<Book>, id: u64) -> Told
    requires own { IsAtRest ids.now pass.old }
    ensures own { IsAtRest ids.now pass.new }
{
    match ids.try_lock(pass, id) {
        TryLock::Locked(hold, book) => {
            releases(ids, pass, hold, book);
            Told::Locked
        }
        TryLock::Held(word) => Told::Held(word),
        TryLock::Gone(word) => Told::Gone(word),
        TryLock::NoSlot => Told::NoSlot,
        TryLock::Again(word, found) => Told::Again(word, found),
    }
}

// Notes the receipt of each error of the last Pending. Answers the last of them.
fn notes(
    rt: &impl Abort,
    ids: &Ids<Book>,
    pass: &mut Pass<Book>,
    hold: &mut Hold,
    book: &mut Book,
) -> Option<Posted>
    requires own { IsPassOf ids.now pass.old }
    requires hold { HasHold pass.old hold.old }
    requires errors { HasErrorsOf pass.old hold.old }
    ensures pass { pass.new ≡ record pass.old { scratch = [] } }
    ensures same { (hold.new ≡ hold.old) × (book.new.first ≡ book.old.first) }
    ensures noted { book.new.taken.items ≡ book.old.taken.items ++ receipts_in_errors pass.old.scratch }
{
    let mut last = None;
    while let Some(error) = ids.next_pending(pass, hold) {
        let Ok(()) = book.taken.push(error.receipt) else {
            panic!(rt; "no memory")
        };
        last = Some(error);
    }
    last
}

// Tries to unlock, and notes the errors that came. Answers nothing where the range is unlocked.
pub(crate) fn takes(
    rt: &impl Abort,
    ids: &Ids<Book>,
    pass: &mut Pass<Book>,
    hold: Hold,
    book: Book,
) -> Option<(Hold, Book, Taken)>
    requires own { IsAtRest ids.now pass.old }
    requires first { book.first ≡ first_id_of hold }
    requires noted { (old : List Receipt) × ((got : List Receipt) × IsHoldingWith pass.old hold old got × (book.taken.items ≡ old ++ got)) }
    ensures own { IsAtRest ids.now pass.new }
    ensures owners { KeepsOwners pass.old pass.new }
    ensures first { IfSome result (λ r. r.1.first ≡ first_id_of r.0) }
    ensures noted { IfSome result (λ r. (old : List Receipt) × ((got : List Receipt) × IsHoldingWith pass.new r.0 old got × (r.1.taken.items ≡ old ++ got))) }
{
    match ids.unlock(pass, hold, book) {
        UnlockEnd::Unlocked => None,
        UnlockEnd::Pending(mut hold, mut book, count) => {
            let last = notes(rt, ids, pass, &mut hold, &mut book);
            Some((hold, book, Taken { count, last }))
        }
    }
}

// Reserves a range.
fn reserves(ids: &Ids<Book>, pass: &mut Pass<Book>, range: u32) -> Option<Spot>
    requires own { IsAtRest ids.now pass.old }
    ensures own { IsAtRest ids.now pass.new }
    ensures spot { IfSome result (λ c. HasSpot pass.new c) }
{
    match ids.reserve(pass, range) {
        Reserve::Spot(spot) => Some(spot),
        Reserve::Full => None,
        Reserve::Again(_, _) => None,
        Reserve::BadRange => None,
    }
}

// Reserves a range and begins it, with an empty book that is unlocked.
fn begins(ids: &Ids<Book>, pass: &mut Pass<Book>, range: u32, taken: Vec<Receipt>) -> Option<Owner>
    requires own { IsAtRest ids.now pass.old }
    requires taken { taken.items ≡ [] }
    ensures own { IsAtRest ids.now pass.new }
    ensures owner { IfSome result (λ c. HasOwner pass.new c) }
{
    let spot = reserves(ids, pass, range)?;
    let first = spot.first_id();
    let (owner, hold, book) = ids.install(pass, spot, Book { first, taken });
    releases(ids, pass, hold, book);
    Some(owner)
}

// The error with this code and number, as pass 1 posted it to the id with this offset.
fn only(offset: u32, code: u32, number: u64) -> Taken {
    Taken {
        count: 1,
        last: Some(Posted {
            offset,
            code,
            receipt: Receipt { pass: 1, number },
        }),
    }
}

// The rest of what `queues` does, after one error was noted.
fn unlocks(
    rt: &impl Abort,
    ids: &Ids<Book>,
    a: &mut Pass<Book>,
    b: &mut Pass<Book>,
    hold: Hold,
    book: Book,
    second: bool,
)
    requires own { IsAtRest ids.now a.old × IsAtRest ids.now b.old }
    requires first { book.first ≡ first_id_of hold }
    requires noted { (old : List Receipt) × ((got : List Receipt) × IsHoldingWith a.old hold old got × (book.taken.items ≡ old ++ got)) }
    ensures own { IsAtRest ids.now a.new × IsAtRest ids.now b.new }
    ensures owners { KeepsOwners a.old a.new }
{
    if second {
        assert_eq!(rt; tells_post(ids, b, FIRST + 2, 9), Told::Queued(1, 1));
    }
    match takes(rt, ids, a, hold, book) {
        Some((hold, book, taken)) => {
            assert!(rt; second);
            assert_eq!(rt; taken, only(2, 9, 1));
            match takes(rt, ids, a, hold, book) {
                Some((hold, book, _)) => panic!(rt; "two errors were queued"),
                None => {}
            }
        }
        None => assert!(rt; !second),
    }
}

// What pass `b` posts to a range of three ids that pass `a` holds.
fn posts(
    rt: &impl Abort,
    ids: &Ids<Book>,
    a: &mut Pass<Book>,
    b: &mut Pass<Book>,
    hold: Hold,
    book: Book,
    few: bool,
)
    requires own { IsAtRest ids.now a.old × IsAtRest ids.now b.old }
    requires holding { IsHolding a.old hold book.taken.items }
    requires first { book.first ≡ first_id_of hold }
    ensures own { IsAtRest ids.now a.new × IsAtRest ids.now b.new }
    ensures owners { KeepsOwners a.old a.new }
{
    // The locked word of a range of 3 ids from version 1 on, with the first node of pass 1 as its head.
    let word = if few { 1075511298 } else { 1075511361 };
    assert_eq!(rt; tells_post(ids, b, FIRST, 1008), Told::Queued(1, 0));
    if few {
        assert_eq!(rt; tells_post(ids, b, FIRST + 2, 9), Told::NoNode);
    }
    assert_eq!(rt; tells_lock(ids, b, FIRST), Told::Held(word));
    assert_eq!(rt; tells_post(ids, b, FIRST + 3, 9), Told::Gone(word));
    match takes(rt, ids, a, hold, book) {
        Some((hold, book, taken)) => {
            assert_eq!(rt; taken, only(0, 1008, 0));
            unlocks(rt, ids, a, b, hold, book, few);
        }
        None => panic!(rt; "an error was queued"),
    }
}

// Pass `b` posts errors to a range of three ids that pass `a` holds: one, and with a single node a second one only after the
// first was taken.
fn queues(rt: &impl Abort, ids: &Ids<Book>, a: &mut Pass<Book>, b: &mut Pass<Book>, few: bool)
    requires own { IsAtRest ids.now a.old × IsAtRest ids.now b.old }
    ensures own { IsAtRest ids.now a.new × IsAtRest ids.now b.new }
    ensures owners { KeepsOwners a.old a.new }
{
    match ids.try_lock(a, FIRST + 1) {
        TryLock::Locked(hold, book) => posts(rt, ids, a, b, hold, book, few),
        _ => panic!(rt; "the range is free"),
    }
}

// Pass `b` destroys the range, whose log has this many receipts, and posts to it once more.
fn ends(rt: &impl Abort, ids: &Ids<Book>, b: &mut Pass<Book>, count: usize)
    requires own { IsAtRest ids.now b.old }
    ensures own { IsAtRest ids.now b.new }
{
    match ids.try_lock(b, FIRST) {
        TryLock::Locked(hold, book) => {
            assert_eq!(rt; book.taken.len(), count);
            assert_eq!(rt;
                book.taken.as_slice().first().copied(),
                Some(Receipt { pass: 1, number: 0 })
            );
            assert_eq!(rt; ids.destroy(b, hold, book), 0);
            forgets(ids, b);
        }
        _ => panic!(rt; "the range is free"),
    }
    assert_eq!(rt; tells_post(ids, b, FIRST, 1008), Told::Gone(1075576832));
}

// Two passes with so many nodes each, and one slot.
fn follows(rt: &impl Abort, alloc: Global, nodes: u32, count: usize)
    requires nodes { (1 ≤ nodes) × (nodes ≤ 64) }
{
    let Ok((ids, mut passes)) = Ids::<Book>::open(alloc, 1, 2, nodes) else {
        panic!(rt; "no memory")
    };
    let (Some(mut b), Some(mut a)) = (next(&ids, &mut passes), next(&ids, &mut passes)) else {
        panic!(rt; "no pass")
    };
    let Some(owner) = begins(&ids, &mut a, 3, Vec::new(alloc)) else {
        panic!(rt; "no range")
    };
    queues(rt, &ids, &mut a, &mut b, nodes == 1);
    ends(rt, &ids, &mut b, count);
    match ids.collect(&mut a, owner) {
        CollectEnd::Value(book) => assert_eq!(rt; book.taken.len(), count),
        _ => panic!(rt; "the range has ended"),
    }
}

#[test]
fn an_error_stands_in_the_log(rt: HostRuntime) -> Result<(), Fail> {
    follows(&rt, rt.alloc(), 64, 1);
    follows(&rt, rt.alloc(), 1, 2);
    Ok(())
}
