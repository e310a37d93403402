//! What comes to a whole call.

ghost use Rattle.std.specs.Prelude.{◌≡◌, ℕ, ◌^◌, ◌<◌, ◌≤◌, OnOk, OnErr, true, false, IsTrue, IsFalse};
ghost use Rattle.rpc_model.specs.State.{size, attempts, attempts_of};
ghost use Rattle.rpc_model.specs.Machine as spec;
ghost use Rattle.call_tree.specs.Growing.{IsGrown};
ghost use Rattle.call_tree.specs.Running.{kinds_of};
ghost use Rattle.call_tree.specs.Weights.{possible, possible_of};
ghost use Rattle.call_tree.specs.Shown.{states_of};
ghost use Rattle.rpc_model.specs.declared.event.Event.TheVariants.{Cancel};

use crate::happening::node_of;
use crate::nodes::{Node, Tree};
use crate::outbox::Outbox;
use rpc_base::NoMemory;
use rpc_model::{Event, Mapper, Merger};
use std::alloc::Global;

impl<M: Mapper + Copy, G: Merger + Copy> Tree<M, G> {
    /// An event comes to the call whose root this is, and which has so many nodes. Where the root is a leaf, a text that it
    /// wins with is the event's own.
    #[tactic(auto, using(crate::proofs::Outside::step_is))]
    pub(crate) fn step(
        &mut self,
        alloc: Global,
        nodes: u32,
        call: u32,
        event: Event,
        moment: u64,
        out: &mut Outbox,
    ) -> Result<(), NoMemory>
        requires nodes { nodes ≡ size self.old }
        requires few { nodes < 2 ^ 31 }
        requires early { moment < 2 ^ 60 }
        ensures after { OnOk result (self.new ≡ (spec.step (kinds_of M.answer G.answer) call self.old event moment).state) }
        ensures grown { OnOk result (let run = spec.step (kinds_of M.answer G.answer) call self.old event moment in IsGrown out.old out.new run.sends run.marks) }
        ensures kept { OnErr result (self.new ≡ self.old) }
    {
        if let Event::Cancel = event {
            self.cancel();
            return Ok(());
        }
        if node_of(&event) >= nodes {
            return Ok(());
        }
        if let Node::Leaf(leaf) = &mut self.node {
            return leaf.happen(alloc, 0, call, event, out);
        }
        let mut belows = Vec::new(alloc);
        let end = self.decide(alloc, 0, call, &event, moment, &mut belows, out)?;
        self.take(0, &event, end, &mut belows);
        Ok(())
    }
}

impl<M, G> Tree<M, G> {
    /// How many attempts its leaves have issued.
    #[cycle(attempts)]
    pub(crate) fn attempts(&self) -> u32
        requires few { possible self.now < 2 ^ 32 }
        ensures value { result ≡ attempts self.now }
        ensures bound { result ≤ possible self.now }
    {
        match &self.node {
            Node::Waits(_) => 0,
            Node::Leaf(leaf) => leaf.leaf.issued() as u32,
            Node::Par(par) => attempts_of(par.kids.as_slice()),
            Node::Sel(sel) => attempts_of(sel.kids.as_slice()),
        }
    }
}

/// How many attempts the leaves of nodes have issued together.
#[cycle(attempts)]
fn attempts_of<M, G>(nodes: &[Tree<M, G>]) -> u32
    requires few { possible_of (states_of nodes.now) < 2 ^ 32 }
    ensures value { result ≡ attempts_of (states_of nodes.now) }
    ensures bound { result ≤ possible_of (states_of nodes.now) }
{
    let mut sum = 0u32;
    for node in nodes {
        sum += node.attempts();
    }
    sum
}
