//! The works that are measured.
ghost use Rattle.std.specs.Prelude.{◌≡◌, ◌<◌, ◌≤◌, []};
ghost use Rattle.id_shared.specs.Claims.{KeepsOwners};
ghost use Rattle.id_shared.specs.Standing.{IsAtRest};

use crate::book::{Book, begins, ends, settles};
use id_shared::{Ids, Pass, Receipt, TryLock, TryPost};
use std::sync::Wait;
use std::thread;

/// The code of the errors that are posted: a deadline's.
const CODE: u32 = 1008;

/// Posts to an id. Answers whether the error was queued, or handled at once.
fn posts<R: Wait>(
    rt: &R,
    ids: &Ids<Book>,
    pass: &mut Pass<Book>,
    id: u64,
    dropped: &mut Vec<Receipt>,
) -> bool
    requires own { IsAtRest ids.now pass.old }
    ensures own { IsAtRest ids.now pass.new }
    ensures owners { KeepsOwners pass.old pass.new }
{
    match ids.try_post(pass, id, CODE) {
        TryPost::Locked(hold, book) => {
            settles(rt, ids, pass, hold, book, dropped);
            true
        }
        TryPost::Queued(_) => true,
        TryPost::Gone(_) => false,
        TryPost::NoSlot => false,
        TryPost::NoNode => false,
        TryPost::Again(_, _) => false,
    }
}

/// Pass `a` locks the range, pass `b` posts to it, and `a` notes the error and unlocks.
fn visits<R: Wait>(
    rt: &R,
    ids: &Ids<Book>,
    a: &mut Pass<Book>,
    b: &mut Pass<Book>,
    id: u64,
    dropped: &mut Vec<Receipt>,
)
    requires own { IsAtRest ids.now a.old × IsAtRest ids.now b.old }
    ensures own { IsAtRest ids.now a.new × IsAtRest ids.now b.new }
    ensures owners { KeepsOwners a.old a.new }
{
    match ids.try_lock(a, id.wrapping_add(1)) {
        TryLock::Locked(hold, book) => {
            posts(rt, ids, b, id, dropped);
            settles(rt, ids, a, hold, book, dropped);
        }
        TryLock::Held(_) => {}
        TryLock::Gone(_) => {}
        TryLock::NoSlot => {}
        TryLock::Again(_, _) => {}
    }
}

/// One whole life of a range of three ids: reserve, install, unlock, lock, post an error, unlock (which takes it), unlock,
/// lock, destroy, collect. The receipts' list is used again.
pub fn lives<R: Wait>(
    rt: &R,
    ids: &Ids<Book>,
    a: &mut Pass<Book>,
    b: &mut Pass<Book>,
    mut taken: Vec<Receipt>,
    dropped: &mut Vec<Receipt>,
) -> Vec<Receipt>
    requires own { IsAtRest ids.now a.old × IsAtRest ids.now b.old }
    ensures own { IsAtRest ids.now a.new × IsAtRest ids.now b.new }
{
    taken.clear();
    let owner = begins(rt, ids, a, 3, taken, dropped);
    let id = owner.first_id();
    visits(rt, ids, a, b, id, dropped);
    let Book { first: _, taken } = ends(rt, ids, a, owner, id.wrapping_add(2), 0, dropped);
    taken
}

/// The same without an error: reserve, install, unlock, lock, destroy, collect.
pub fn lives_quietly<R: Wait>(
    rt: &R,
    ids: &Ids<Book>,
    pass: &mut Pass<Book>,
    mut taken: Vec<Receipt>,
    dropped: &mut Vec<Receipt>,
) -> Vec<Receipt>
    requires own { IsAtRest ids.now pass.old }
    ensures own { IsAtRest ids.now pass.new }
{
    taken.clear();
    let owner = begins(rt, ids, pass, 3, taken, dropped);
    let id = owner.first_id();
    let Book { first: _, taken } = ends(rt, ids, pass, owner, id.wrapping_add(1), 0, dropped);
    taken
}

/// Posts to one id until the error is queued, or handled at once.
pub fn crowds<R: Wait>(
    rt: &R,
    ids: &Ids<Book>,
    pass: &mut Pass<Book>,
    id: u64,
    dropped: &mut Vec<Receipt>,
)
    requires own { IsAtRest ids.now pass.old }
    ensures own { IsAtRest ids.now pass.new }
{
    for _ in rt.forever() {
        if posts(rt, ids, pass, id, dropped) {
            return;
        }
        thread::yield_now();
    }
}
