ghost use Rattle.std.specs.Prelude.{◌≡◌, ℕ, ◌+◌, ◌*◌, ◌≤◌, nat_eq, filter, length, slice_get, is_some, None, Some, IfSome, IfNone};
ghost use Rattle.std.specs.Option.{option_map};
ghost use Rattle.indexmap.specs.IndexMap.{get, IsUnique};
ghost use Rattle.link_core.specs.Outstanding.{call_of, without};
ghost use Rattle.link_core.specs.Kept.{waits, waiting, AreGone};

use indexmap::IndexMap;

/// Ids in the order of adding, each with its call, or with `None` once it doesn't wait any more.
pub type Entries = IndexMap<u64, Option<u32>>;

/// Forgets the ids that don't wait any more, in time in proportion to all entries. It takes no memory.
pub fn clear_out(entries: &mut Entries)
    ensures left { entries.new.entries ≡ filter waits entries.old.entries }
    ensures once { IsUnique nat_eq entries.new }
{
    entries.retain(
        |_id: &u64, call: &mut Option<u32>| -> bool
            ensures { (result ≡ is_some call.old) × (call.new ≡ call.old) }
        { call.is_some() },
    );
}

/// The call of an id, where it waits.
#[tactic(auto, using(crate::proofs::Waiting::found, crate::proofs::Waiting::gone, crate::proofs::Waiting::unknown))]
pub fn call_at(entries: &Entries, id: u64) -> Option<u32>
    requires once { IsUnique nat_eq entries.now }
    ensures answer { result ≡ call_of id (waiting entries.now.entries) }
    ensures stands { IfSome result (λ call. get nat_eq entries.now id ≡ Some (Some call)) }
{
    match entries.get(&id) {
        Some(call) => *call,
        None => None,
    }
}

/// Takes out the call of an id, where it waits; else nothing changes. It takes no memory.
pub fn take_call(entries: &mut Entries, id: u64) -> Option<u32>
    requires once { IsUnique nat_eq entries.old }
    ensures answer { result ≡ call_of id (waiting entries.old.entries) }
    ensures kept { IfNone result (entries.new ≡ entries.old) }
    ensures after { IfSome result (λ _. waiting entries.new.entries ≡ without id (waiting entries.old.entries)) }
    ensures gone { (front : ℕ) → AreGone front entries.old.entries → AreGone front entries.new.entries }
    ensures once { IsUnique nat_eq entries.new }
    ensures count { length entries.new.entries ≡ length entries.old.entries }
{
    let at = entries.get_index_of(&id)?;
    entries.get_index_mut(at)?.take()
}

/// Makes sure that an id that doesn't wait stands nowhere, and answers up to which place no id waits. It takes time in
/// proportion to all entries where the id stands, and else none.
#[tactic(auto, using(crate::proofs::Waiting::fewer_left))]
pub fn forget(entries: &mut Entries, front: usize, id: u64) -> usize
    requires unknown { call_of id (waiting entries.old.entries) ≡ None }
    requires before { AreGone front entries.old.entries }
    ensures same { waiting entries.new.entries ≡ waiting entries.old.entries }
    ensures absent { get nat_eq entries.new id ≡ None }
    ensures gone { AreGone result entries.new.entries }
    ensures once { IsUnique nat_eq entries.new }
    ensures fewer { length entries.new.entries ≤ length entries.old.entries }
{
    if entries.get_index_of(&id).is_none() {
        return front;
    }
    clear_out(entries);
    0
}

/// Forgets the ids that don't wait any more, where they are more than half, and answers up to which place no id waits.
#[tactic(auto, using(crate::proofs::Waiting::same, crate::proofs::Waiting::all_wait))]
pub fn tidy(entries: &mut Entries, live: usize, front: usize) -> usize
    requires before { AreGone front entries.old.entries }
    requires count { live ≡ length (waiting entries.old.entries) }
    ensures same { waiting entries.new.entries ≡ waiting entries.old.entries }
    ensures gone { AreGone result entries.new.entries }
    ensures once { IsUnique nat_eq entries.new }
    ensures few { length entries.new.entries ≤ 2 * live + 1 }
{
    if live < entries.len() / 2 {
        clear_out(entries);
        return 0;
    }
    front
}

/// The place of the first id that waits, where no id before `front` does; the number of the entries where none waits.
#[tactic(auto, using(crate::proofs::Waiting::gone_next, crate::proofs::Waiting::none_waits, crate::proofs::Waiting::first_waits))]
pub fn first_waiting(entries: &Entries, front: usize) -> usize
    requires before { AreGone front entries.now.entries }
    ensures gone { AreGone result entries.now.entries }
    ensures first { option_map (λ e. e.0) (slice_get entries.now.entries result) ≡ option_map (λ e. e.0) (slice_get (waiting entries.now.entries) 0) }
{
    // The length is what says that a place fits.
    let _length = entries.len();
    let mut at = front;
    while let Some((_, None)) = entries.get_index(at) {
        at += 1;
    }
    at
}
