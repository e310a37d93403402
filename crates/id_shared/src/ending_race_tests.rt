//! Races of an unlock and of a destroy, stepped by hand: what comes between the load that takes the slot again and the
//! exchange.
ghost use Rattle.std.specs.Prelude.{◌≡◌, []};
ghost use Rattle.id_shared.specs.Claims.{IsHolding};
ghost use Rattle.id_shared.specs.Standing.{IsAtRest, IsPassOf, HasDropped, first_id_of};

use crate::post_race_tests::opens;
use crate::post_tests::{Book, Told, tells_lock, tells_post};
use crate::tests::{FIRST, next};
use crate::{Hold, Ids, Owner, Pass, Posted, Receipt, UnlockEnd};
use std::process::Abort;
use std::test::Fail;

/// What other passes do between the load and the exchange.
#[derive(Clone, Copy, Debug)]
enum Between {
    /// Nothing.
    Nothing,
    /// Pass 1 posts an error.
    Post,
    /// Pass 2 posts an error, and then pass 1.
    Posts,
    /// Pass 1 tries to lock the range.
    Lock,
}

// The error that pass 1 posts.
const ONE: Posted = Posted {
    offset: 0,
    code: 1008,
    receipt: Receipt { pass: 1, number: 0 },
};

// The error that pass 2 posts.
const TWO: Posted = Posted {
    offset: 2,
    code: 9,
    receipt: Receipt { pass: 2, number: 0 },
};

// What pass `b` is told.
fn meanwhile(
    ids: &Ids<Book>,
    b: &mut Pass<Book>,
    c: &mut Pass<Book>,
    between: Between,
) -> Option<Told>
    requires own { IsAtRest ids.now b.old × IsAtRest ids.now c.old }
    ensures own { IsAtRest ids.now b.new × IsAtRest ids.now c.new }
{
    match between {
        Between::Nothing => None,
        Between::Post => Some(tells_post(ids, b, FIRST, 1008)),
        Between::Posts => {
            tells_post(ids, c, FIRST + 2, 9);
            Some(tells_post(ids, b, FIRST, 1008))
        }
        Between::Lock => Some(tells_lock(ids, b, FIRST)),
    }
}

// Unlocks a range that pass `a` locked just now. Answers too the first two errors that it took.
fn unlocks_past(
    ids: &Ids<Book>,
    a: Pass<Book>,
    b: &mut Pass<Book>,
    c: &mut Pass<Book>,
    hold: Hold,
    book: Book,
    between: Between,
) -> (Option<Told>, Option<Posted>, Option<Posted>)
    requires own { IsAtRest ids.now a × IsAtRest ids.now b.old × IsAtRest ids.now c.old }
    requires holding { IsHolding a hold book.taken.items }
    requires first { book.first ≡ first_id_of hold }
    ensures own { IsAtRest ids.now b.new × IsAtRest ids.now c.new }
{
    let Pass {
        mut seat,
        words: _,
        number: _,
        sent: _,
        holder: _,
        mut pending,
        dropped: _,
    } = a;
    ids.lift(&mut seat, hold.slot);
    let told = meanwhile(ids, b, c, between);
    match ids.unlock_from(&mut seat, &mut pending, hold, book) {
        UnlockEnd::Unlocked => {}
        UnlockEnd::Pending(hold, _, _) => hold.spend(),
    }
    (told, pending.pop(), pending.pop())
}

// Destroys a range that pass `a` locked just now.
fn destroys_past(
    ids: &Ids<Book>,
    a: &mut Pass<Book>,
    b: &mut Pass<Book>,
    c: &mut Pass<Book>,
    hold: Hold,
    book: Book,
    between: Between,
) -> Option<Told>
    requires own { IsAtRest ids.now a.old × IsAtRest ids.now b.old × IsAtRest ids.now c.old }
    requires holding { IsHolding a.old hold book.taken.items }
    requires first { book.first ≡ first_id_of hold }
    ensures own { IsPassOf ids.now a.new × IsAtRest ids.now b.new × IsAtRest ids.now c.new }
    ensures dropped { HasDropped a.new }
{
    // Opens the table for the proof, which needs its invariant: this body names no field of it.
    let _ = &ids.table;
    ids.lift(&mut a.seat, hold.slot);
    let told = meanwhile(ids, b, c, between);
    ids.destroy_from(&mut a.seat, &mut a.dropped, hold, book);
    a.holder = None;
    told
}

// Begins a range of three ids, which the pass holds and nobody will collect.
fn holds(
    rt: &impl Abort,
    ids: &Ids<Book>,
    pass: &mut Pass<Book>,
    taken: Vec<Receipt>,
) -> (Hold, Book)
    requires own { IsAtRest ids.now pass.old }
    requires taken { taken.items ≡ [] }
    ensures own { IsAtRest ids.now pass.new }
    ensures holding { IsHolding pass.new result.0 result.1.taken.items }
    ensures first { result.1.first ≡ first_id_of result.0 }
{
    let (owner, hold, book) = opens(rt, ids, pass, taken);
    let Owner {
        slot: _,
        first: _,
        size: _,
    } = owner;
    (hold, book)
}

#[test]
fn an_unlock_and_a_destroy_meet_what_came_meanwhile(rt: HostRuntime) -> Result<(), Fail> {
    // The words of the range of 3 ids from version 1 on: locked without a head, and ended.
    let (locked, ended) = (1075511296, 1075576832);
    let rows = [
        (Between::Nothing, (None, None, None)),
        (Between::Post, (Some(Told::Queued(1, 0)), Some(ONE), None)),
        (
            Between::Posts,
            (Some(Told::Queued(1, 0)), Some(TWO), Some(ONE)),
        ),
        (Between::Lock, (Some(Told::Held(locked)), None, None)),
    ];
    for (between, wanted) in rows {
        for destroyed in [false, true] {
            let Ok((ids, mut passes)) = Ids::<Book>::open(rt.alloc(), 1, 3, 1) else {
                panic!(rt; "no memory")
            };
            let (Some(mut c), Some(mut b)) = (next(&ids, &mut passes), next(&ids, &mut passes))
            else {
                panic!(rt; "no pass")
            };
            let Some(mut a) = next(&ids, &mut passes) else {
                panic!(rt; "no pass")
            };
            let (hold, book) = holds(&rt, &ids, &mut a, Vec::new(rt.alloc()));
            if !destroyed {
                assert_eq!(rt;
                    unlocks_past(&ids, a, &mut b, &mut c, hold, book, between),
                    wanted,
                    "{between:?}"
                );
                continue;
            }
            let told = destroys_past(&ids, &mut a, &mut b, &mut c, hold, book, between);
            let (first, second) = (ids.next_dropped(&mut a), ids.next_dropped(&mut a));
            assert_eq!(rt; (told, first, second), wanted, "{between:?}");
            assert_eq!(rt; ids.next_dropped(&mut a), None);
            assert_eq!(rt; tells_lock(&ids, &mut b, FIRST), Told::Gone(ended));
        }
    }
    Ok(())
}
