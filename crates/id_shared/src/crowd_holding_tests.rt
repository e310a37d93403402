//! The holders of the crowd: passes that begin ranges, hold them while errors come, and end them.
ghost use Rattle.std.specs.Prelude.{◌≡◌, ◌≢◌, ◌<◌, ◌≤◌, ◌+◌, ◌++◌, [], List, ℕ, Some, IfSome};
ghost use Rattle.id_rule.specs.declared.view.Receipt.{Receipt};
ghost use Rattle.id_rule.specs.Parts.{part_of};
ghost use Rattle.id_shared.specs.Claims.{IsHolding, IsHoldingWith, KeepsOwners};
ghost use Rattle.id_shared.specs.Standing.{IsAtRest, IsPassOf, HasDropped, HasOwner, HasSpot, first_id_of};

use crate::post_tests::{Book, takes};
use crate::{Hold, Ids, LockEnd, Owner, Pass, Receipt, Reserve, Spot, TryLock, halves};
use id_pool::make_id;
use id_rule::{is_vacant, unpack};
use std::alloc::Global;
use std::process::Abort;
use std::sync::Wait;
use std::sync::atomic::{AtomicU64, Ordering};
use std::thread;

/// An error that was taken from the range with this first id.
#[derive(Clone, Copy, Debug)]
pub(crate) struct Line {
    pub(crate) first: u64,
    pub(crate) receipt: Receipt,
}

/// The errors of each range that a pass ended, in the order in which they were taken; how often an unlock found errors, and
/// how many errors were dropped.
#[derive(Drop)]
pub(crate) struct Notes {
    pub(crate) lines: Vec<Line>,
    pub(crate) pendings: u64,
    pub(crate) dropped: u64,
}

impl Notes {
    // Notes an error.
    fn note(&mut self, rt: &impl Abort, first: u64, receipt: Receipt) {
        let Ok(()) = self.lines.push(Line { first, receipt }) else {
            panic!(rt; "no memory")
        };
    }

    // Notes the errors of a log.
    fn note_all(&mut self, rt: &impl Abort, first: u64, taken: &[Receipt]) {
        for receipt in taken {
            self.note(rt, first, *receipt);
        }
    }
}

/// How many posters there are.
const POSTERS: u64 = 4;

/// What the posters tell the holders: how many of them have queued all their errors, and how often one found no free node.
#[derive(Drop)]
pub(crate) struct Signs {
    pub(crate) done: AtomicU64,
    pub(crate) stuck: AtomicU64,
}

/// The place that comes after this one in a long walk.
pub(crate) fn after(place: u32) -> u32 {
    place.wrapping_mul(1664525).wrapping_add(1013904223)
}

// Tries to unlock, and notes the errors that came.
fn turns(
    rt: &impl Abort,
    ids: &Ids<Book>,
    pass: &mut Pass<Book>,
    kept: (Hold, Book),
) -> Option<(Hold, Book)>
    requires own { IsAtRest ids.now pass.old }
    requires first { kept.1.first ≡ first_id_of kept.0 }
    requires noted { (old : List Receipt) × ((got : List Receipt) × IsHoldingWith pass.old kept.0 old got × (kept.1.taken.items ≡ old ++ got)) }
    ensures own { IsAtRest ids.now pass.new }
    ensures owners { KeepsOwners pass.old pass.new }
    ensures first { IfSome result (λ r. r.1.first ≡ first_id_of r.0) }
    ensures noted { IfSome result (λ r. (old : List Receipt) × ((got : List Receipt) × IsHoldingWith pass.new r.0 old got × (r.1.taken.items ≡ old ++ got))) }
{
    let (hold, book) = kept;
    match takes(rt, ids, pass, hold, book) {
        Some((hold, book, _)) => Some((hold, book)),
        None => None,
    }
}

/// Unlocks a range, after all errors were noted that came meanwhile. Answers how often some came.
pub(crate) fn settles<R: Wait + Abort>(
    rt: &R,
    ids: &Ids<Book>,
    pass: &mut Pass<Book>,
    hold: Hold,
    book: Book,
) -> u64
    requires own { IsAtRest ids.now pass.old }
    requires holding { IsHolding pass.old hold book.taken.items }
    requires first { book.first ≡ first_id_of hold }
    ensures own { IsAtRest ids.now pass.new }
    ensures owners { KeepsOwners pass.old pass.new }
{
    let mut kept = (hold, book);
    let mut count = 0u64;
    for _ in rt.forever() {
        match turns(rt, ids, pass, kept) {
            Some(next) => kept = next,
            None => return count,
        }
        count = count.wrapping_add(1);
    }
    unreachable!()
}

// Lets other threads have some turns.
fn waits(count: u32) {
    for _ in 0..count {
        thread::yield_now();
    }
}

// Lets other threads have turns until this is more than 0.
fn waits_for<R: Wait>(rt: &R, count: &AtomicU64) {
    for _ in rt.forever() {
        if count.load(Ordering::SeqCst) > 0 {
            return;
        }
        thread::yield_now();
    }
}

// Holds the range that is in the slot now, if it is free, for some turns of the other threads.
fn visits<R: Wait + Abort>(
    rt: &R,
    ids: &Ids<Book>,
    pass: &mut Pass<Book>,
    slot: u32,
    notes: &mut Notes,
)
    requires own { IsAtRest ids.now pass.old }
    requires slot { (slot < ids.now.sizes.slots) × (slot < 64) }
    ensures own { IsAtRest ids.now pass.new }
    ensures owners { KeepsOwners pass.old pass.new }
{
    let first = unpack(halves::load(ids, pass, slot)).first;
    match ids.try_lock(pass, make_id(slot, first)) {
        TryLock::Locked(hold, book) => {
            waits(2);
            let count = settles(rt, ids, pass, hold, book);
            notes.pendings = notes.pendings.wrapping_add(count);
        }
        TryLock::Held(_) => {}
        TryLock::Gone(_) => {}
        TryLock::NoSlot => {}
        TryLock::Again(_, _) => {}
    }
}

// Reserves a slot where nobody else reserves.
fn reserves(rt: &impl Abort, ids: &Ids<Book>, pass: &mut Pass<Book>, slot: u32) -> Spot
    requires own { IsAtRest ids.now pass.old }
    requires slot { slot < ids.now.sizes.slots }
    ensures own { IsAtRest ids.now pass.new }
    ensures spot { HasSpot pass.new result × (result.slot ≡ slot) }
    ensures owners { KeepsOwners pass.old pass.new }
{
    let word = halves::load(ids, pass, slot);
    if !is_vacant(word) {
        panic!(rt; "nobody else reserves the slot");
    }
    match halves::reserve_from(ids, pass, slot, word, 3) {
        Reserve::Spot(spot) => spot,
        _ => panic!(rt; "nobody else reserves the slot"),
    }
}

// Begins a range of three ids in a slot, and unlocks it.
fn begins<R: Wait + Abort>(
    rt: &R,
    ids: &Ids<Book>,
    pass: &mut Pass<Book>,
    slot: u32,
    taken: Vec<Receipt>,
) -> Owner
    requires own { IsAtRest ids.now pass.old }
    requires slot { slot < ids.now.sizes.slots }
    requires taken { taken.items ≡ [] }
    ensures own { IsAtRest ids.now pass.new }
    ensures owner { HasOwner pass.new result × (result.slot ≡ slot) }
    ensures others { (s : ℕ) (r : ℕ × ℕ) → s ≢ slot → (part_of pass.old.view s).owner ≡ Some r → (part_of pass.new.view s).owner ≡ Some r }
{
    let spot = reserves(rt, ids, pass, slot);
    let first = spot.first_id();
    let (owner, hold, book) = ids.install(pass, spot, Book { first, taken });
    settles(rt, ids, pass, hold, book);
    owner
}

// Notes the errors that were dropped.
fn drops(rt: &impl Abort, ids: &Ids<Book>, pass: &mut Pass<Book>, first: u64, notes: &mut Notes)
    requires own { IsPassOf ids.now pass.old }
    requires dropped { HasDropped pass.old }
    ensures own { IsAtRest ids.now pass.new }
    ensures same { pass.new.view ≡ pass.old.view }
{
    while let Some(error) = ids.next_dropped(pass) {
        notes.note(rt, first, error.receipt);
        notes.dropped = notes.dropped.wrapping_add(1);
    }
}

// Holds the range for some turns of the other threads, and destroys it. Notes the errors of its log, and those dropped.
fn destroys<R: Wait + Abort>(
    rt: &R,
    ids: &Ids<Book>,
    pass: &mut Pass<Book>,
    id: u64,
    notes: &mut Notes,
)
    requires own { IsAtRest ids.now pass.old }
    ensures own { IsAtRest ids.now pass.new }
    ensures owners { KeepsOwners pass.old pass.new }
{
    match ids.lock(rt, pass, id) {
        LockEnd::Locked(hold, book) => {
            waits(2);
            notes.note_all(rt, id, book.taken.as_slice());
            ids.destroy(pass, hold, book);
            drops(rt, ids, pass, id, notes);
        }
        _ => panic!(rt; "its owner ends the range"),
    }
}

// Destroys the range and collects it.
fn ends<R: Wait + Abort>(
    rt: &R,
    ids: &Ids<Book>,
    pass: &mut Pass<Book>,
    owner: Owner,
    notes: &mut Notes,
)
    requires own { IsAtRest ids.now pass.old }
    requires owner { HasOwner pass.old owner }
    ensures own { IsAtRest ids.now pass.new }
    ensures others { (s : ℕ) (r : ℕ × ℕ) → s ≢ owner.slot → (part_of pass.old.view s).owner ≡ Some r → (part_of pass.new.view s).owner ≡ Some r }
{
    let id = owner.first_id();
    destroys(rt, ids, pass, id, notes);
    ids.join(rt, pass, owner);
}

// Begins a range in each slot from this one to the last, holds ranges here and there, and ends its own ones.
fn tends<R: Wait + Abort>(
    rt: &R,
    ids: &Ids<Book>,
    alloc: Global,
    pass: &mut Pass<Book>,
    slot: u32,
    last: u32,
    place: u32,
    notes: &mut Notes,
)
    requires own { IsAtRest ids.now pass.old }
    requires slots { ids.now.sizes.slots ≡ 64 }
    requires slot { (slot ≤ last + 1) × (last < 64) }
    ensures own { IsAtRest ids.now pass.new }
    ensures below { (s : ℕ) (r : ℕ × ℕ) → s < slot → (part_of pass.old.view s).owner ≡ Some r → (part_of pass.new.view s).owner ≡ Some r }
{
    if slot > last {
        return;
    }
    let owner = begins(rt, ids, pass, slot, Vec::new(alloc));
    visits(rt, ids, pass, place / 65536 % 64, notes);
    tends(rt, ids, alloc, pass, slot + 1, last, after(place), notes);
    visits(rt, ids, pass, slot, notes);
    ends(rt, ids, pass, owner, notes);
}

// Holds a range until a poster has found no free node.
fn holds_long<R: Wait + Abort>(
    rt: &R,
    ids: &Ids<Book>,
    pass: &mut Pass<Book>,
    id: u64,
    stuck: &AtomicU64,
    notes: &mut Notes,
)
    requires own { IsAtRest ids.now pass.old }
    ensures own { IsAtRest ids.now pass.new }
    ensures owners { KeepsOwners pass.old pass.new }
{
    match ids.lock(rt, pass, id) {
        LockEnd::Locked(hold, book) => {
            waits_for(rt, stuck);
            let count = settles(rt, ids, pass, hold, book);
            notes.pendings = notes.pendings.wrapping_add(count);
        }
        _ => panic!(rt; "its owner ends the range"),
    }
}

// Begins a range, which is held long, and ends it.
fn starts<R: Wait + Abort>(
    rt: &R,
    ids: &Ids<Book>,
    alloc: Global,
    pass: &mut Pass<Book>,
    slot: u32,
    stuck: &AtomicU64,
    notes: &mut Notes,
)
    requires own { IsAtRest ids.now pass.old }
    requires slot { slot < ids.now.sizes.slots }
    ensures own { IsAtRest ids.now pass.new }
{
    let owner = begins(rt, ids, pass, slot, Vec::new(alloc));
    let id = owner.first_id();
    holds_long(rt, ids, pass, id, stuck, notes);
    ends(rt, ids, pass, owner, notes);
}

/// Tends the 16 slots from this one on, again and again, until all posters are done.
pub(crate) fn holds<R: Wait + Abort>(
    rt: &R,
    ids: &Ids<Book>,
    alloc: Global,
    signs: &Signs,
    mut pass: Pass<Book>,
    slot: u32,
) -> Notes
    requires own { IsAtRest ids.now pass }
    requires slots { ids.now.sizes.slots ≡ 64 }
    requires slot { slot < 49 }
{
    let mut notes = Notes {
        lines: Vec::new(alloc),
        pendings: 0,
        dropped: 0,
    };
    starts(rt, ids, alloc, &mut pass, slot, &signs.stuck, &mut notes);
    let mut place = slot;
    for _ in rt.forever() {
        tends(
            rt,
            ids,
            alloc,
            &mut pass,
            slot,
            slot + 15,
            place,
            &mut notes,
        );
        if signs.done.load(Ordering::SeqCst) >= POSTERS {
            return notes;
        }
        place = after(place).wrapping_add(7);
    }
    unreachable!()
}
