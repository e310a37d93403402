//! Races of a post, stepped by hand: what comes between its load and its exchange.
ghost use Rattle.std.specs.Prelude.{◌≡◌, ◌<◌, ◌^◌, true, []};
ghost use Rattle.rpc_model.specs.Gone.{is_live_in};
ghost use Rattle.id_shared.specs.Claims.{IsHolding, KeepsOwners};
ghost use Rattle.id_shared.specs.Standing.{IsAtRest, HasOwner, first_id_of};

use crate::post_tests::{Book, Told, releases, tells_post};
use crate::tests::{FIRST, forgets, next};
use crate::{CollectEnd, Hold, Ids, Owner, Pass, Receipt, Reserve, TryLock, TryPost, halves};
use id_rule::is_live;
use std::alloc::Global;
use std::process::Abort;
use std::test::Fail;

/// What comes between the load and the exchange of a post to a range.
#[derive(Clone, Copy, Debug, PartialEq, Eq)]
enum Between {
    /// Nothing, while the range is held.
    Held,
    /// Another pass posts to the held range.
    Post,
    /// The holder unlocks the range.
    Unlock,
    /// The holder destroys the range.
    Destroy,
    /// The holder destroys the range, its owner collects it, and the next one is begun in its slot and held.
    Anew,
    /// Nothing, while the range is free.
    Free,
    /// Another pass locks the free range.
    Lock,
}

// Destroys a range that was locked just now. Answers how many errors were dropped.
fn destroys(ids: &Ids<Book>, pass: &mut Pass<Book>, hold: Hold, book: Book) -> u32
    requires own { IsAtRest ids.now pass.old }
    requires holding { IsHolding pass.old hold book.taken.items }
    requires first { book.first ≡ first_id_of hold }
    ensures own { IsAtRest ids.now pass.new }
    ensures owners { KeepsOwners pass.old pass.new }
{
    let count = ids.destroy(pass, hold, book);
    forgets(ids, pass);
    count
}

// Collects a range that has ended.
fn collects(rt: &impl Abort, ids: &Ids<Book>, pass: &mut Pass<Book>, owner: Owner)
    requires own { IsAtRest ids.now pass.old }
    requires owner { HasOwner pass.old owner }
    ensures own { IsAtRest ids.now pass.new }
{
    match ids.collect(pass, owner) {
        CollectEnd::Value(_) => {}
        _ => panic!(rt; "the range has ended"),
    }
}

// The rest of a post to the id with version 1, after a load that found it live.
fn tells_post_from(ids: &Ids<Book>, pass: &mut Pass<Book>, word: u64) -> Told
    requires own { IsAtRest ids.now pass.old }
    requires slot { 0 < ids.now.sizes.slots }
    requires word { (word < 2 ^ 62) × (is_live_in word 1 ≡ true) }
    ensures own { IsAtRest ids.now pass.new }
{
    match halves::post_from(ids, pass, 0, word, 1, 1008) {
        TryPost::Locked(hold, book) => {
            releases(ids, pass, hold, book);
            Told::Locked
        }
        TryPost::Queued(receipt) => Told::Queued(receipt.pass, receipt.number),
        TryPost::Gone(word) => Told::Gone(word),
        TryPost::NoSlot => Told::NoSlot,
        TryPost::NoNode => Told::NoNode,
        TryPost::Again(word, found) => Told::Again(word, found),
    }
}

// Begins a range of three ids, which the pass holds.
pub(crate) fn opens(
    rt: &impl Abort,
    ids: &Ids<Book>,
    pass: &mut Pass<Book>,
    taken: Vec<Receipt>,
) -> (Owner, Hold, Book)
    requires own { IsAtRest ids.now pass.old }
    requires taken { taken.items ≡ [] }
    ensures own { IsAtRest ids.now pass.new }
    ensures owner { HasOwner pass.new result.0 }
    ensures holding { IsHolding pass.new result.1 result.2.taken.items }
    ensures first { result.2.first ≡ first_id_of result.1 }
{
    match ids.reserve(pass, 3) {
        Reserve::Spot(spot) => {
            let first = spot.first_id();
            ids.install(pass, spot, Book { first, taken })
        }
        _ => panic!(rt; "the slot is vacant"),
    }
}

// Destroys the range that the pass holds, and collects it. Answers how many errors were dropped.
fn ends(
    rt: &impl Abort,
    ids: &Ids<Book>,
    pass: &mut Pass<Book>,
    owner: Owner,
    hold: Hold,
    book: Book,
) -> u32
    requires own { IsAtRest ids.now pass.old }
    requires owner { HasOwner pass.old owner }
    requires holding { IsHolding pass.old hold book.taken.items }
    requires first { book.first ≡ first_id_of hold }
    ensures own { IsAtRest ids.now pass.new }
{
    let count = destroys(ids, pass, hold, book);
    collects(rt, ids, pass, owner);
    count
}

// Locks the pass's range, which is free, and ends it.
fn ends_free(rt: &impl Abort, ids: &Ids<Book>, pass: &mut Pass<Book>, owner: Owner) -> u32
    requires own { IsAtRest ids.now pass.old }
    requires owner { HasOwner pass.old owner }
    ensures own { IsAtRest ids.now pass.new }
{
    match ids.try_lock(pass, FIRST) {
        TryLock::Locked(hold, book) => ends(rt, ids, pass, owner, hold, book),
        _ => panic!(rt; "the range is free"),
    }
}

// The word of the slot, which has the version 1 live.
fn seen(rt: &impl Abort, ids: &Ids<Book>, pass: &mut Pass<Book>) -> u64
    requires own { IsAtRest ids.now pass.old }
    requires slot { 0 < ids.now.sizes.slots }
    ensures own { IsAtRest ids.now pass.new }
    ensures word { (result < 2 ^ 62) × (is_live_in result 1 ≡ true) }
{
    let word = halves::load(ids, pass, 0);
    if !is_live(word, 1) {
        panic!(rt; "the version is live");
    }
    word
}

// The rest of a post by pass `b`, while pass `c` holds the range that was free.
fn posts_past_a_lock(
    rt: &impl Abort,
    ids: &Ids<Book>,
    b: &mut Pass<Book>,
    c: &mut Pass<Book>,
    word: u64,
) -> Told
    requires own { IsAtRest ids.now b.old × IsAtRest ids.now c.old }
    requires slot { 0 < ids.now.sizes.slots }
    requires word { (word < 2 ^ 62) × (is_live_in word 1 ≡ true) }
    ensures own { IsAtRest ids.now b.new × IsAtRest ids.now c.new }
{
    match ids.try_lock(c, FIRST) {
        TryLock::Locked(hold, book) => {
            let told = tells_post_from(ids, b, word);
            releases(ids, c, hold, book);
            told
        }
        _ => panic!(rt; "the range is free"),
    }
}

// A post by pass `b` to a range that pass `a` owns. Answers too how many errors the range's end dropped.
fn races(
    rt: &impl Abort,
    alloc: Global,
    ids: &Ids<Book>,
    a: &mut Pass<Book>,
    b: &mut Pass<Book>,
    c: &mut Pass<Book>,
    between: Between,
) -> (Told, u32)
    requires own { IsAtRest ids.now a.old × IsAtRest ids.now b.old × IsAtRest ids.now c.old }
    requires slot { 0 < ids.now.sizes.slots }
{
    let (owner, hold, book) = opens(rt, ids, a, Vec::new(alloc));
    match between {
        Between::Held => {
            let word = seen(rt, ids, b);
            let told = tells_post_from(ids, b, word);
            (told, ends(rt, ids, a, owner, hold, book))
        }
        Between::Post => {
            let word = seen(rt, ids, b);
            tells_post(ids, c, FIRST + 2, 9);
            let told = tells_post_from(ids, b, word);
            (told, ends(rt, ids, a, owner, hold, book))
        }
        Between::Unlock => {
            let word = seen(rt, ids, b);
            releases(ids, a, hold, book);
            let told = tells_post_from(ids, b, word);
            (told, ends_free(rt, ids, a, owner))
        }
        Between::Destroy => {
            let word = seen(rt, ids, b);
            let count = destroys(ids, a, hold, book);
            let told = tells_post_from(ids, b, word);
            collects(rt, ids, a, owner);
            (told, count)
        }
        Between::Anew => {
            let word = seen(rt, ids, b);
            ends(rt, ids, a, owner, hold, book);
            let (owner, hold, book) = opens(rt, ids, a, Vec::new(alloc));
            let told = tells_post_from(ids, b, word);
            (told, ends(rt, ids, a, owner, hold, book))
        }
        Between::Free => {
            releases(ids, a, hold, book);
            let word = seen(rt, ids, b);
            let told = tells_post_from(ids, b, word);
            (told, ends_free(rt, ids, a, owner))
        }
        Between::Lock => {
            releases(ids, a, hold, book);
            let word = seen(rt, ids, b);
            let told = posts_past_a_lock(rt, ids, b, c, word);
            (told, ends_free(rt, ids, a, owner))
        }
    }
}

#[test]
fn a_post_meets_what_the_exchange_finds(rt: HostRuntime) -> Result<(), Fail> {
    // The words of the range of 3 ids from version 1 on: locked without a head, locked with a node of pass 2, free, ended; and
    // that of the next range, locked.
    let (locked, headed, free, ended, next_locked) = (
        1075511296, 1075511425, 1075445760, 1075576832, 4296736768,
    );
    let rows = [
        (Between::Held, Told::Queued(1, 0), 1),
        (Between::Post, Told::Again(locked, headed), 1),
        (Between::Unlock, Told::Again(locked, free), 0),
        (Between::Destroy, Told::Again(locked, ended), 0),
        (Between::Anew, Told::Again(locked, next_locked), 0),
        (Between::Free, Told::Locked, 0),
        (Between::Lock, Told::Again(free, locked), 0),
    ];
    for (between, wanted, dropped) in rows {
        let Ok((ids, mut passes)) = Ids::<Book>::open(rt.alloc(), 1, 3, 64) else {
            panic!(rt; "no memory")
        };
        let (Some(mut c), Some(mut b)) = (next(&ids, &mut passes), next(&ids, &mut passes)) else {
            panic!(rt; "no pass")
        };
        let Some(mut a) = next(&ids, &mut passes) else {
            panic!(rt; "no pass")
        };
        assert_eq!(rt;
            races(&rt, rt.alloc(), &ids, &mut a, &mut b, &mut c, between),
            (wanted, dropped),
            "{between:?}"
        );
    }
    Ok(())
}
