//! What an event brings a node, before anything changes.

ghost use Rattle.std.specs.Prelude.{◌≡◌, ℕ, ◌+◌, ◌^◌, ◌<◌, ◌≤◌, [], IfOk, OnOk};
ghost use Rattle.rpc_model.specs.State.{size, end_of};
ghost use Rattle.rpc_model.specs.Machine as spec;
ghost use Rattle.call_tree.specs.Brought.{brought_at};
ghost use Rattle.call_tree.specs.Growing.{IsGrown};
ghost use Rattle.call_tree.specs.Running.{kinds_of};

use crate::below::Below;
use crate::following::{follow, timed_out};
use crate::happening::{is_deadline, node_of};
use crate::nodes::{Node, Tree};
use crate::outbox::Outbox;
use rpc_base::NoMemory;
use rpc_model::{End, Event, Mapper, Merger};
use std::alloc::Global;

impl<M: Mapper + Copy, G: Merger + Copy> Tree<M, G> {
    /// The end that an event brings this node, whose number this is. What it brings the nodes on its way goes into `belows`,
    /// the lowest first, and what it makes go out into the outbox.
    #[cycle(decide)]
    pub(crate) fn decide(
        &self,
        alloc: Global,
        node: u32,
        call: u32,
        event: &Event,
        moment: u64,
        belows: &mut Vec<Below<M, G>>,
        out: &mut Outbox,
    ) -> Result<Option<End>, NoMemory>
        requires low { node ≤ spec.node_of event.now }
        requires high { spec.node_of event.now < node + size self.now }
        requires few { node + size self.now < 2 ^ 31 }
        requires early { moment < 2 ^ 60 }
        requires none { belows.old.items ≡ [] }
        ensures end { IfOk result (λ end. (c m : ℕ) → end ≡ spec.new_end (end_of self.now) (end_of (spec.step_at (kinds_of M.answer G.answer) node self.now c event.now m).state)) }
        ensures brought { OnOk result ((c m : ℕ) → belows.new.items ≡ brought_at (kinds_of M.answer G.answer) node self.now c event.now m) }
        ensures grown { OnOk result (let run = spec.step_at (kinds_of M.answer G.answer) node self.now call event.now moment in IsGrown out.old out.new run.sends run.marks) }
    {
        match &self.node {
            Node::Waits(_) => return Ok(None),
            Node::Leaf(leaf) => {
                if node_of(event) != node || leaf.end.is_some() {
                    return Ok(None);
                }
                let end = leaf.decide(alloc, node, call, event, out)?;
                return Ok(end);
            }
            Node::Par(par) => {
                if par.end.is_some() {
                    return Ok(None);
                }
                if node_of(event) == node {
                    if !is_deadline(event) {
                        return Ok(None);
                    }
                    let end = par.expire(alloc)?;
                    return Ok(Some(end));
                }
                let (at, first) = par.sub_at(node, node_of(event));
                let risen = par.kids[at].decide(alloc, first, call, event, moment, belows, out)?;
                let over = par.over(alloc, at, risen.as_ref())?;
                belows.push(Below {
                    end: risen,
                    started: Vec::new(alloc),
                })?;
                return Ok(over);
            }
            Node::Sel(sel) => {
                if sel.end.is_some() {
                    return Ok(None);
                }
                if node_of(event) == node {
                    return Ok(timed_out(event));
                }
                let (place, begin) = sel.try_at(node, node_of(event));
                let brought = sel.kids[place].decide(
                    alloc, begin, call, event, moment, belows, out,
                )?;
                let next = sel.number_behind(node, place);
                let mut started = Vec::new(alloc);
                let up = follow(
                    alloc,
                    sel,
                    place,
                    brought.as_ref(),
                    next,
                    call,
                    moment,
                    &mut started,
                    out,
                )?;
                belows.push(Below {
                    end: brought,
                    started,
                })?;
                return Ok(up);
            }
        }
    }
}
