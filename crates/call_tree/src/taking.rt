//! What an event changes, once it is decided.

ghost use Rattle.std.specs.Prelude.{◌≡◌, ℕ, ◌+◌, ◌^◌, ◌<◌, ◌≤◌};
ghost use Rattle.rpc_model.specs.State.{size, end_of};
ghost use Rattle.rpc_model.specs.Machine as spec;
ghost use Rattle.call_tree.specs.Brought.{brought_at};
ghost use Rattle.call_tree.specs.Running.{kinds_of};

use crate::below::{Below, pop_below};
use crate::following::put;
use crate::happening::node_of;
use crate::nodes::{Node, Tree};
use rpc_model::{ECANCELED, End, Event, Mapper, Merger};

impl<M: Mapper + Copy, G: Merger + Copy> Tree<M, G> {
    /// An event that brings this node this end, or none, and the nodes on its way what `belows` has, changes them. It takes
    /// no memory.
    #[cycle(take)]
    pub(crate) fn take(
        &mut self,
        node: u32,
        event: &Event,
        end: Option<End>,
        belows: &mut Vec<Below<M, G>>,
    )
        requires low { node ≤ spec.node_of event.now }
        requires high { spec.node_of event.now < node + size self.old }
        requires few { node + size self.old < 2 ^ 31 }
        requires decided { (c m : ℕ) → end ≡ spec.new_end (end_of self.old) (end_of (spec.step_at (kinds_of M.answer G.answer) node self.old c event.now m).state) }
        requires brought { (c m : ℕ) → belows.old.items ≡ brought_at (kinds_of M.answer G.answer) node self.old c event.now m }
        ensures after { (c m : ℕ) → self.new ≡ (spec.step_at (kinds_of M.answer G.answer) node self.old c event.now m).state }
    {
        match &mut self.node {
            Node::Waits(_) => return,
            Node::Leaf(leaf) => {
                if node_of(event) != node || leaf.end.is_some() {
                    return;
                }
                leaf.take(event, end);
                return;
            }
            Node::Par(par) => {
                if par.end.is_some() {
                    return;
                }
                if node_of(event) == node {
                    par.end = end;
                    return;
                }
                let (at, first) = par.sub_at(node, node_of(event));
                let below = pop_below(belows);
                par.counts = par.counts.with_some(below.end.as_ref());
                par.kids[at].take(first, event, below.end, belows);
                par.end = end;
                return;
            }
            Node::Sel(sel) => {
                if sel.end.is_some() {
                    return;
                }
                if node_of(event) == node {
                    sel.end = end;
                    return;
                }
                let (place, begin) = sel.try_at(node, node_of(event));
                let last = pop_below(belows);
                sel.kids[place].take(begin, event, last.end, belows);
                put(&mut sel.kids, place + 1, last.started);
                sel.end = end;
                return;
            }
        }
    }
}

impl<M: Drop, G: Drop> Tree<M, G> {
    /// The call whose root this is, is cancelled.
    pub(crate) fn cancel(&mut self)
        ensures { self.new ≡ spec.cancelled self.old }
    {
        match &mut self.node {
            Node::Waits(_) => {}
            Node::Leaf(leaf) => {
                if leaf.end.is_none() {
                    leaf.end = Some(End::Bad(ECANCELED));
                }
            }
            Node::Par(par) => {
                if par.end.is_none() {
                    par.end = Some(End::Bad(ECANCELED));
                }
            }
            Node::Sel(sel) => {
                if sel.end.is_none() {
                    sel.end = Some(End::Bad(ECANCELED));
                }
            }
        }
    }
}
