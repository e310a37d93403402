//! The selective nodes of a call.

ghost use Rattle.std.specs.Prelude.{◌≡◌, ◌+◌, ◌∷◌, ◌++◌, ◌^◌, ◌<◌, [], length, get_or, suc, drop, cond, None, Some, IfOk, OnOk};
ghost use Rattle.std.specs.Option.{option_map};
ghost use Rattle.rpc_model.specs.Selective.{next_try};
ghost use Rattle.rpc_model.specs.State as spec;
ghost use Rattle.call_tree.specs.Places.{IsAt};
ghost use Rattle.call_tree.specs.Shown.{states_of, IsSelNode};
ghost use Rattle.call_tree.specs.Starting.{after_try, tried, ask_while};

use crate::nodes::{SelNode, Tree};
use chan_tree::last_up_to;
use rpc_base::{Bytes, NoMemory};
use rpc_model::{EREQUEST, End};
use std::alloc::Global;

impl<M: Drop, G: Drop> SelNode<M, G> {
    /// One more try comes behind the others, at this place from the node on.
    pub(crate) fn add(&mut self, tree: Tree<M, G>, place: u32) -> Result<(), NoMemory>
        requires sound { IsSelNode self.old }
        requires place { place ≡ 1 + spec.size_of (states_of self.old.kids.items) }
        ensures sound { OnOk result (IsSelNode self.new) }
        ensures kids { OnOk result (self.new.kids.items ≡ self.old.kids.items ++ tree ∷ []) }
        ensures end { OnOk result (self.new.end ≡ self.old.end) }
        ensures request { OnOk result (self.new.request ≡ self.old.request) }
    {
        self.firsts.push(place)?;
        self.kids.push(tree)?;
        Ok(())
    }
}

impl<M, G> SelNode<M, G> {
    /// The place of the try that a number is of, or of a node below it, and the try's own number.
    pub(crate) fn try_at(&self, node: u32, to: u32) -> (usize, u32)
        requires sound { IsSelNode self.now }
        requires low { node < to }
        requires high { to < node + (1 + spec.size_of (states_of self.now.kids.items)) }
        ensures at { IsAt node to (states_of self.now.kids.items) result.0 result.1 }
        ensures there { result.0 < length self.now.kids.items }
    {
        let firsts = self.firsts.as_slice();
        let at = last_up_to(firsts, to - node);
        (at, node + firsts[at])
    }
}

impl<M, G> SelNode<M, G> {
    /// The number of the try behind the one at this place, if there is one.
    pub(crate) fn number_behind(&self, node: u32, at: usize) -> u32
        requires sound { IsSelNode self.now }
        requires there { at < length self.now.kids.items }
        requires few { node + (1 + spec.size_of (states_of self.now.kids.items)) < 2 ^ 31 }
        ensures { (at + 1 < length self.now.kids.items → result ≡ node + get_or self.now.firsts.items (at + 1) 0) × (result + spec.size_of (states_of (drop (suc at) self.now.kids.items)) < 2 ^ 31) }
    {
        if at + 1 < self.firsts.len() {
            return node + self.firsts[at + 1];
        }
        0
    }
}

/// Whether this end of a try ends the node, where others are left or not.
pub(crate) fn ends_node(is_left: bool, end: &End) -> bool
    ensures { next_try is_left end.now ≡ cond result (Some end.now) None }
{
    match end {
        End::Good(_) => return true,
        End::Bad(code) => {
            if !is_left {
                return true;
            }
            return *code == EREQUEST;
        }
    }
}

/// A copy of an end.
pub(crate) fn end_copy(alloc: Global, end: &End) -> Result<End, NoMemory>
    ensures { IfOk result (λ copy. copy ≡ end.now) }
{
    match end {
        End::Good(text) => {
            let text = Vec::from_slice(alloc, text.list())?;
            Ok(End::Good(Bytes::of(text)))
        }
        End::Bad(code) => Ok(End::Bad(*code)),
    }
}

/// Whether the next try starts, and the node's end, where this is the last one's end, and others are left or not.
pub(crate) fn after_try(
    alloc: Global,
    is_left: bool,
    end: Option<&End>,
) -> Result<(bool, Option<End>), NoMemory>
    ensures { IfOk result (λ r. r ≡ after_try is_left (option_map (λ e. e.now) end.entry)) }
{
    let Some(end) = end else {
        return Ok((false, None));
    };
    if ends_node(is_left, end) {
        let copy = end_copy(alloc, end)?;
        return Ok((false, Some(copy)));
    }
    Ok((true, None))
}

/// The same, where tries start no more if `going` isn't true, and the node has this end or none.
pub(crate) fn tried(
    alloc: Global,
    going: bool,
    over: Option<End>,
    is_left: bool,
    end: Option<&End>,
) -> Result<(bool, Option<End>), NoMemory>
    ensures { IfOk result (λ r. r ≡ tried going over is_left (option_map (λ e. e.now) end.entry)) }
{
    if !going {
        return Ok((false, over));
    }
    let after = after_try(alloc, is_left, end)?;
    Ok(after)
}

/// A copy of the request for the next try, if there is one.
pub(crate) fn ask_while(
    alloc: Global,
    going: bool,
    request: &[u8],
) -> Result<Option<Bytes>, NoMemory>
    ensures { IfOk result (λ r. r ≡ ask_while going request.now) }
{
    if !going {
        return Ok(None);
    }
    let copy = Vec::from_slice(alloc, request)?;
    Ok(Some(Bytes::of(copy)))
}
