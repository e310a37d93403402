//! What follows the end of a try of a selective node.

ghost use Rattle.std.specs.Prelude.{◌≡◌, ℕ, ◌+◌, ◌^◌, ◌<◌, ◌≤◌, ◌∷◌, [], MatchOption, length, suc, drop, IfOk, OnOk};
ghost use Rattle.std.specs.Option.{option_map};
ghost use Rattle.std.specs.Vec.Iter.{into_iter_items};
ghost use Rattle.rpc_model.specs.Machine as spec;
ghost use Rattle.rpc_model.specs.State.{size, size_of};
ghost use Rattle.call_tree.specs.Brought.{behind_try, started_tries, followed, put_from};
ghost use Rattle.call_tree.specs.Growing.{IsGrown};
ghost use Rattle.call_tree.specs.Places.{firsts};
ghost use Rattle.call_tree.specs.Running.{kinds_of};
ghost use Rattle.call_tree.specs.Shown.{states_of, IsSelNode};
ghost use Rattle.call_tree.specs.Timed.{timed_out};

use crate::happening::is_deadline;
use crate::nodes::{SelNode, Tree};
use crate::outbox::Outbox;
use crate::sel_node::{after_try, end_copy, ends_node};
use crate::starting::start;
use rpc_base::{Bytes, NoMemory};
use rpc_model::{ERPCTIMEDOUT, End, Event, Mapper, Merger};
use std::alloc::Global;
use std::vec;

/// The end that an event at a selective node itself brings it, where it has none.
pub(crate) fn timed_out(event: &Event) -> Option<End>
    ensures { result ≡ timed_out event.now }
{
    if is_deadline(event) {
        return Some(End::Bad(ERPCTIMEDOUT));
    }
    None
}

/// The end that this end of the try at this place, or none, brings a selective node; the tries behind it, the first of which
/// has this number, start as far as they do.
pub(crate) fn follow<M: Mapper + Copy, G: Merger + Copy>(
    alloc: Global,
    sel: &SelNode<M, G>,
    at: usize,
    end: Option<&End>,
    first: u32,
    call: u32,
    moment: u64,
    started: &mut Vec<Tree<M, G>>,
    out: &mut Outbox,
) -> Result<Option<End>, NoMemory>
    requires there { at < length sel.now.kids.items }
    requires few { first + size_of (states_of (drop (suc at) sel.now.kids.items)) < 2 ^ 31 }
    requires early { moment < 2 ^ 60 }
    requires none { started.old.items ≡ [] }
    ensures end { IfOk result (λ o. (n c m : ℕ) → let rest = states_of (drop (suc at) sel.now.kids.items) in
        o ≡ (followed (option_map (λ e. e.now) end.entry) rest (spec.start_waiting (kinds_of M.answer G.answer) n rest c sel.now.request m)).end) }
    ensures started { OnOk result ((n c m : ℕ) → let rest = states_of (drop (suc at) sel.now.kids.items) in
        started.new.items ≡ behind_try (kinds_of M.answer G.answer) rest (option_map (λ e. e.now) end.entry) (started_tries (kinds_of M.answer G.answer) n rest c sel.now.request m)) }
    ensures grown { OnOk result (let rest = states_of (drop (suc at) sel.now.kids.items) in
        let next = followed (option_map (λ e. e.now) end.entry) rest (spec.start_waiting (kinds_of M.answer G.answer) first rest call sel.now.request moment)
        in IsGrown out.old out.new next.sends next.marks) }
{
    let Some(end) = end else {
        return Ok(None);
    };
    let others = behind(sel.kids.as_slice(), at);
    if ends_node(any_left(others), end) {
        let copy = end_copy(alloc, end)?;
        return Ok(Some(copy));
    }
    let up = next_tries(
        alloc,
        others,
        sel.request.list(),
        first,
        call,
        moment,
        started,
        out,
    )?;
    Ok(up)
}

/// The tries behind the one at this place.
fn behind<M, G>(kids: &[Tree<M, G>], at: usize) -> &[Tree<M, G>]
    requires { at < length kids.now }
    ensures { result.now ≡ drop (suc at) kids.now }
{
    &kids[at + 1..]
}

/// Whether there is one.
fn any_left<M, G>(others: &[Tree<M, G>]) -> bool
    ensures { result ≡ spec.is_left (states_of others.now) }
{
    match others.split_first() {
        Some(_) => true,
        None => false,
    }
}

/// The tries that wait start, from the first on, until one is left open or the node has an end: that end.
fn next_tries<M: Mapper + Copy, G: Merger + Copy>(
    alloc: Global,
    kids: &[Tree<M, G>],
    request: &[u8],
    first: u32,
    call: u32,
    moment: u64,
    started: &mut Vec<Tree<M, G>>,
    out: &mut Outbox,
) -> Result<Option<End>, NoMemory>
    requires few { first + size_of (states_of kids.now) < 2 ^ 31 }
    requires early { moment < 2 ^ 60 }
    requires none { started.old.items ≡ [] }
    ensures end { IfOk result (λ o. o ≡ (spec.start_waiting (kinds_of M.answer G.answer) first (states_of kids.now) call request.now moment).end) }
    ensures started { OnOk result (started.new.items ≡ started_tries (kinds_of M.answer G.answer) first (states_of kids.now) call request.now moment) }
    ensures grown { OnOk result (let next = spec.start_waiting (kinds_of M.answer G.answer) first (states_of kids.now) call request.now moment in IsGrown out.old out.new next.sends next.marks) }
{
    let mut number = first;
    let mut left = kids.len();
    for kid in kids {
        left -= 1;
        let Some(plan) = kid.plan() else {
            return Ok(None);
        };
        let copy = Bytes::of(Vec::from_slice(alloc, request)?);
        let tree = start(alloc, plan, copy, number, call, moment, out)?;
        let (goes, over) = after_try(alloc, left > 0, tree.end())?;
        started.push(tree)?;
        if !goes {
            return Ok(over);
        }
        number += plan.nodes();
    }
    Ok(None)
}

/// Writes these nodes over those from this place on.
pub(crate) fn put<M: Drop, G: Drop>(kids: &mut Vec<Tree<M, G>>, at: usize, trees: Vec<Tree<M, G>>)
    requires there { at + length trees.items ≤ length kids.old.items }
    ensures { kids.new.items ≡ put_from at trees.items kids.old.items }
{
    let mut at = at;
    let mut trees = trees.into_iter();
    while let Some(tree) = next_of(&mut trees) {
        kids[at] = tree;
        at += 1;
    }
}

/// The next one, if there is one.
fn next_of<T>(items: &mut vec::IntoIter<T>) -> Option<T>
    ensures { MatchOption result (into_iter_items items.old ≡ []) (λ x. into_iter_items items.old ≡ x ∷ into_iter_items items.new) }
{
    items.next()
}
