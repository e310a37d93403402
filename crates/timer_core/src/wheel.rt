//! The steps of a timer's wheel, over its heap and its lists.

ghost use Rattle.std.specs.Prelude.{◌≡◌, ℕ, ◌≢◌, ◌+◌, ◌<◌, ◌≤◌, [], ◌∷◌, length, OnOk, OnErr, MatchOption};
ghost use Rattle.std.specs.BinaryHeap.{heap_items, heap_len, heap_capacity, IsHeap};
ghost use Rattle.timer_core.specs.Chains.{list_at, rest_of};
ghost use Rattle.timer_core.specs.Wheel.{waiting_of, heap_entries, IsSettled, IsSpreading, AreAlike, IsLeast, AreLater, IsFirstMoment, HoldTheSame, by_entry};

use crate::chains::Chains;
use crate::entry::Entry;
use crate::home::{LISTS, home};
use rpc_base::NoMemory;
use std::cmp::Reverse;
use std::collections::BinaryHeap;

/// Makes the lists, where they aren't made yet. Where memory runs out they hold what they held.
pub fn lay_out(chains: &mut Chains) -> Result<(), NoMemory>
    ensures same { HoldTheSame chains.old chains.new }
    ensures made { OnOk result (2049 ≤ length chains.new) }
{
    while chains.count() < LISTS {
        chains.push_list()?;
    }
    Ok(())
}

/// Adds an entry to the heap where the base has reached its moment, else to the list of its moment.
pub fn place(
    chains: &mut Chains,
    heap: &mut BinaryHeap<Reverse<Entry>>,
    base: u64,
    entry: Entry,
) -> Result<(), NoMemory>
    requires settled { IsSettled base (heap_items heap.old) chains.old }
    requires made { 2049 ≤ length chains.old }
    ensures settled { IsSettled base (heap_items heap.new) chains.new }
    ensures after { OnOk result (AreAlike (entry ∷ waiting_of (heap_items heap.old) chains.old) (waiting_of (heap_items heap.new) chains.new)) }
    ensures failed { OnErr result (waiting_of (heap_items heap.new) chains.new ≡ waiting_of (heap_items heap.old) chains.old) }
    ensures room { heap_capacity heap.old ≤ heap_capacity heap.new }
{
    if entry.moment <= base {
        heap.push(Reverse(entry))?;
        return Ok(());
    }
    chains.insert(home(base, entry.moment), entry)?;
    Ok(())
}

/// Adds an entry, after which there are `count`, and makes room in the heap for all of them. Where memory runs out the
/// entries are those that there were.
pub fn enter(
    chains: &mut Chains,
    heap: &mut BinaryHeap<Reverse<Entry>>,
    base: u64,
    count: usize,
    entry: Entry,
) -> Result<(), NoMemory>
    requires settled { IsSettled base (heap_items heap.old) chains.old }
    requires count { length (waiting_of (heap_items heap.old) chains.old) < count }
    ensures settled { IsSettled base (heap_items heap.new) chains.new }
    ensures after { OnOk result (AreAlike (entry ∷ waiting_of (heap_items heap.old) chains.old) (waiting_of (heap_items heap.new) chains.new)) }
    ensures room { OnOk result (count ≤ heap_capacity heap.new) }
    ensures failed { OnErr result (waiting_of (heap_items heap.new) chains.new ≡ waiting_of (heap_items heap.old) chains.old) }
    ensures kept_room { heap_capacity heap.old ≤ heap_capacity heap.new }
{
    lay_out(chains)?;
    heap.reserve(count - heap.len())?;
    place(chains, heap, base, entry)?;
    Ok(())
}

/// The first entry of a list goes where it stands by the base.
fn settle(
    chains: &mut Chains,
    heap: &mut BinaryHeap<Reverse<Entry>>,
    list: usize,
    base: u64,
    entry: Entry,
)
    requires used { 0 < list }
    requires list_in { list < length chains.old }
    requires front { list_at chains.old list ≡ entry ∷ rest_of (list_at chains.old list) }
    requires spreading { IsSpreading base list (heap_items heap.old) chains.old }
    requires room { length (waiting_of (heap_items heap.old) chains.old) ≤ heap_capacity heap.old }
    ensures spreading { IsSpreading base list (heap_items heap.new) chains.new }
    ensures alike { AreAlike (waiting_of (heap_items heap.old) chains.old) (waiting_of (heap_items heap.new) chains.new) }
    ensures rest { list_at chains.new list ≡ rest_of (list_at chains.old list) }
    ensures count { length chains.new ≡ length chains.old }
    ensures room { heap_capacity heap.old ≤ heap_capacity heap.new }
{
    if entry.moment > base {
        let to = home(base, entry.moment);
        chains.shift(list, to);
        return;
    }
    heap.push(Reverse(entry)).unwrap();
    chains.shift(list, 0);
}

/// Each entry of a list goes where it stands by the base. It takes no memory.
fn spread(chains: &mut Chains, heap: &mut BinaryHeap<Reverse<Entry>>, list: usize, base: u64)
    requires used { 0 < list }
    requires list_in { list < length chains.old }
    requires spreading { IsSpreading base list (heap_items heap.old) chains.old }
    requires room { length (waiting_of (heap_items heap.old) chains.old) ≤ heap_capacity heap.old }
    ensures settled { IsSettled base (heap_items heap.new) chains.new }
    ensures alike { AreAlike (waiting_of (heap_items heap.old) chains.old) (waiting_of (heap_items heap.new) chains.new) }
    ensures room { heap_capacity heap.old ≤ heap_capacity heap.new }
{
    while let Some(entry) = chains.front(list) {
        settle(chains, heap, list, base, entry);
    }
}

/// The moment of a heap's first entry.
fn top_moment(heap: &BinaryHeap<Reverse<Entry>>) -> Option<u64>
    requires { IsHeap by_entry (heap_items heap.now) }
    ensures { MatchOption result (heap_items heap.now ≡ []) (λ m. IsFirstMoment (heap_entries (heap_items heap.now)) m) }
{
    let Reverse(entry) = heap.peek()?;
    Some(entry.moment)
}

/// The first moment of all entries.
pub fn first_moment(chains: &Chains, heap: &BinaryHeap<Reverse<Entry>>, base: u64) -> Option<u64>
    requires { IsSettled base (heap_items heap.now) chains.now }
    ensures { MatchOption result (waiting_of (heap_items heap.now) chains.now ≡ []) (λ m. IsFirstMoment (waiting_of (heap_items heap.now) chains.now) m) }
{
    if let Some(moment) = top_moment(heap) {
        return Some(moment);
    }
    let Some(list) = chains.first_list() else {
        return None;
    };
    Some(chains.least(list))
}

/// Moves the base to the first moment of the lists, where no entry is in the heap and that moment is at most `now`.
fn advance(chains: &mut Chains, heap: &mut BinaryHeap<Reverse<Entry>>, base: &mut u64, now: u64)
    requires settled { IsSettled base.old (heap_items heap.old) chains.old }
    requires room { length (waiting_of (heap_items heap.old) chains.old) ≤ heap_capacity heap.old }
    requires empty { heap_items heap.old ≡ [] }
    ensures settled { IsSettled base.new (heap_items heap.new) chains.new }
    ensures alike { AreAlike (waiting_of (heap_items heap.old) chains.old) (waiting_of (heap_items heap.new) chains.new) }
    ensures none { heap_items heap.new ≡ [] → AreLater now (waiting_of (heap_items heap.new) chains.new) }
    ensures room { heap_capacity heap.old ≤ heap_capacity heap.new }
{
    let Some(list) = chains.first_list() else {
        return;
    };
    let moment = chains.least(list);
    if moment <= now {
        *base = moment;
        spread(chains, heap, list, moment);
    }
}

/// Takes out the first entry, where its moment is at most `now`. It takes no memory.
pub fn take(
    chains: &mut Chains,
    heap: &mut BinaryHeap<Reverse<Entry>>,
    base: &mut u64,
    now: u64,
) -> Option<Entry>
    requires settled { IsSettled base.old (heap_items heap.old) chains.old }
    requires room { length (waiting_of (heap_items heap.old) chains.old) ≤ heap_capacity heap.old }
    ensures settled { IsSettled base.new (heap_items heap.new) chains.new }
    ensures due { MatchOption result (AreLater now (waiting_of (heap_items heap.new) chains.new)) (λ e. (e.moment ≤ now) × IsLeast e (waiting_of (heap_items heap.new) chains.new)) }
    ensures kept { MatchOption result (AreAlike (waiting_of (heap_items heap.old) chains.old) (waiting_of (heap_items heap.new) chains.new))
        (λ e. AreAlike (waiting_of (heap_items heap.old) chains.old) (e ∷ waiting_of (heap_items heap.new) chains.new)) }
    ensures room { heap_capacity heap.old ≤ heap_capacity heap.new }
{
    if heap.is_empty() {
        advance(chains, heap, base, now);
    }
    take_top(chains, heap, *base, now)
}

/// The same, where an entry that is due is in the heap.
fn take_top(
    chains: &Chains,
    heap: &mut BinaryHeap<Reverse<Entry>>,
    base: u64,
    now: u64,
) -> Option<Entry>
    requires settled { IsSettled base (heap_items heap.old) chains.now }
    requires none { heap_items heap.old ≡ [] → AreLater now (waiting_of (heap_items heap.old) chains.now) }
    ensures settled { IsSettled base (heap_items heap.new) chains.now }
    ensures due { MatchOption result (AreLater now (waiting_of (heap_items heap.new) chains.now)) (λ e. (e.moment ≤ now) × IsLeast e (waiting_of (heap_items heap.new) chains.now)) }
    ensures kept { MatchOption result (AreAlike (waiting_of (heap_items heap.old) chains.now) (waiting_of (heap_items heap.new) chains.now))
        (λ e. AreAlike (waiting_of (heap_items heap.old) chains.now) (e ∷ waiting_of (heap_items heap.new) chains.now)) }
    ensures room { heap_capacity heap.old ≤ heap_capacity heap.new }
{
    if top_moment(heap)? > now {
        return None;
    }
    let Reverse(entry) = heap.pop()?;
    Some(entry)
}
