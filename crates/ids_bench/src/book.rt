//! A value whose log is the receipts of the errors that were handed out under it, and what is done with its range.
ghost use Rattle.std.specs.Prelude.{◌≡◌, ◌++◌, [], List, IsTrue, IfSome};
ghost use Rattle.id_rule.specs.declared.view.Receipt.{Receipt};
ghost use Rattle.id_shared.specs.Claims.{KeepsOwners};
ghost use Rattle.id_shared.specs.Standing.{IsAtRest, IsPassOf, HasDropped, HasErrorsOf, HasHold, HasOwner, HasSpot};
ghost use Rattle.ids_bench.specs.Books.{IsOpen, IsNoted, KeepsOwnersBut};

use id_shared::{Hold, Ids, LockEnd, Owner, Pass, Receipt, Reserve, Spot, Tenant, UnlockEnd};
use std::sync::Wait;
use std::thread;

/// The receipts of the errors that were handed out under a range of ids.
#[derive(Drop)]
pub struct Book {
    pub first: u64,
    pub taken: Vec<Receipt>,
}

impl Tenant for Book {
    type Entry = Receipt;

    ghost log = { λ t. t.taken.items };

    ghost use Rattle.std.specs.Prelude.{Some};

    ghost receipt = { λ e. Some e };

    ghost first_id = { λ t. t.first };

    fn first(&self) -> u64 {
        self.first
    }
}

// Hands out all dropped errors. Their receipts go into the list, as far as there is memory.
fn forgets(ids: &Ids<Book>, pass: &mut Pass<Book>, dropped: &mut Vec<Receipt>)
    requires own { IsPassOf ids.now pass.old }
    requires dropped { HasDropped pass.old }
    ensures own { IsAtRest ids.now pass.new }
    ensures same { pass.new.view ≡ pass.old.view }
{
    while let Some(error) = ids.next_dropped(pass) {
        let _ = dropped.push(error.receipt);
    }
}

// Notes the receipt of each error of the last Pending, as far as there is memory.
fn notes(ids: &Ids<Book>, pass: &mut Pass<Book>, hold: &mut Hold, book: &mut Book) -> bool
    requires own { IsPassOf ids.now pass.old }
    requires hold { HasHold pass.old hold.old }
    requires errors { HasErrorsOf pass.old hold.old }
    ensures pass { pass.new ≡ record pass.old { scratch = pass.new.scratch } }
    ensures errors { HasErrorsOf pass.new hold.new }
    ensures same { (hold.new ≡ hold.old) × (book.new.first ≡ book.old.first) }
    ensures noted { IsNoted pass.old book.old.taken.items pass.new book.new.taken.items }
    ensures all { IsTrue result → pass.new.scratch ≡ [] }
{
    while let Ok(()) = book.taken.reserve(1) {
        let Some(error) = ids.next_pending(pass, hold) else {
            return true;
        };
        book.taken.push_reserved(error.receipt);
    }
    false
}

// Tries to unlock, and notes the errors that came. Answers nothing where the range is unlocked, or where memory ran out and
// it was destroyed.
fn takes(
    ids: &Ids<Book>,
    pass: &mut Pass<Book>,
    kept: (Hold, Book),
    dropped: &mut Vec<Receipt>,
) -> Option<(Hold, Book)>
    requires own { IsAtRest ids.now pass.old }
    requires kept { IsOpen pass.old kept.0 kept.1 }
    ensures own { IsAtRest ids.now pass.new }
    ensures owners { KeepsOwners pass.old pass.new }
    ensures kept { IfSome result (λ r. IsOpen pass.new r.0 r.1) }
{
    let (hold, book) = kept;
    match ids.unlock(pass, hold, book) {
        UnlockEnd::Unlocked => None,
        UnlockEnd::Pending(mut hold, mut book, _) => {
            if notes(ids, pass, &mut hold, &mut book) {
                return Some((hold, book));
            }
            ids.destroy(pass, hold, book);
            forgets(ids, pass, dropped);
            None
        }
    }
}

/// Unlocks a range, after all errors were noted that came meanwhile. Where memory runs out it destroys the range.
pub fn settles<R: Wait>(
    rt: &R,
    ids: &Ids<Book>,
    pass: &mut Pass<Book>,
    hold: Hold,
    book: Book,
    dropped: &mut Vec<Receipt>,
)
    requires own { IsAtRest ids.now pass.old }
    requires kept { IsOpen pass.old hold book }
    ensures own { IsAtRest ids.now pass.new }
    ensures owners { KeepsOwners pass.old pass.new }
{
    let mut kept = (hold, book);
    for _ in rt.forever() {
        match takes(ids, pass, kept, dropped) {
            Some(next) => kept = next,
            None => return,
        }
    }
    unreachable!()
}

/// Reserves a slot, as soon as one is vacant.
pub fn reserves<R: Wait>(rt: &R, ids: &Ids<Book>, pass: &mut Pass<Book>, range: u32) -> Spot
    requires own { IsAtRest ids.now pass.old }
    ensures own { IsAtRest ids.now pass.new }
    ensures spot { HasSpot pass.new result }
    ensures owners { KeepsOwners pass.old pass.new }
{
    for _ in rt.forever() {
        match ids.reserve(pass, range) {
            Reserve::Spot(spot) => return spot,
            Reserve::Full => thread::yield_now(),
            Reserve::Again(_, _) => {}
            Reserve::BadRange => {}
        }
    }
    unreachable!()
}

/// Begins a range, and unlocks it.
pub fn begins<R: Wait>(
    rt: &R,
    ids: &Ids<Book>,
    pass: &mut Pass<Book>,
    range: u32,
    taken: Vec<Receipt>,
    dropped: &mut Vec<Receipt>,
) -> Owner
    requires own { IsAtRest ids.now pass.old }
    requires taken { taken.items ≡ [] }
    ensures own { IsAtRest ids.now pass.new }
    ensures owner { HasOwner pass.new result }
{
    let spot = reserves(rt, ids, pass, range);
    installs(rt, ids, pass, spot, taken, dropped)
}

/// Begins the range of a Spot, and unlocks it.
pub fn installs<R: Wait>(
    rt: &R,
    ids: &Ids<Book>,
    pass: &mut Pass<Book>,
    spot: Spot,
    taken: Vec<Receipt>,
    dropped: &mut Vec<Receipt>,
) -> Owner
    requires own { IsAtRest ids.now pass.old }
    requires spot { HasSpot pass.old spot }
    requires taken { taken.items ≡ [] }
    ensures own { IsAtRest ids.now pass.new }
    ensures owner { HasOwner pass.new result }
    ensures same { result ≡ spot }
    ensures owners { KeepsOwnersBut spot.slot pass.old pass.new }
{
    let first = spot.first_id();
    let (owner, hold, book) = ids.install(pass, spot, Book { first, taken });
    settles(rt, ids, pass, hold, book, dropped);
    owner
}

// Waits for the Hold of the range, holds it for some turns of the other threads, and destroys it. The receipts of the errors
// that are dropped go into the list, as far as there is memory.
fn destroys<R: Wait>(
    rt: &R,
    ids: &Ids<Book>,
    pass: &mut Pass<Book>,
    id: u64,
    turns: u32,
    dropped: &mut Vec<Receipt>,
)
    requires own { IsAtRest ids.now pass.old }
    ensures own { IsAtRest ids.now pass.new }
    ensures owners { KeepsOwners pass.old pass.new }
{
    match ids.lock(rt, pass, id) {
        LockEnd::Locked(hold, book) => {
            waits(turns);
            ids.destroy(pass, hold, book);
            forgets(ids, pass, dropped);
        }
        LockEnd::Gone(_) => {}
        LockEnd::NoSlot => {}
    }
}

/// Lets other threads have some turns.
pub fn waits(turns: u32) {
    for _ in 0..turns {
        thread::yield_now();
    }
}

/// Destroys the range, by one of its ids, and collects its book.
pub fn ends<R: Wait>(
    rt: &R,
    ids: &Ids<Book>,
    pass: &mut Pass<Book>,
    owner: Owner,
    id: u64,
    turns: u32,
    dropped: &mut Vec<Receipt>,
) -> Book
    requires own { IsAtRest ids.now pass.old }
    requires owner { HasOwner pass.old owner }
    ensures own { IsAtRest ids.now pass.new }
    ensures owners { KeepsOwnersBut owner.slot pass.old pass.new }
{
    destroys(rt, ids, pass, id, turns, dropped);
    ids.join(rt, pass, owner)
}
