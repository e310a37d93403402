//! The nodes of a call, nested as its channels are.

ghost use Rattle.std.specs.Prelude.{◌≡◌, ℕ, None};
ghost use Rattle.std.specs.Option.{option_map};
ghost use Rattle.rpc_model.specs.State as spec;
ghost use Rattle.call_tree.specs.Brought.{plan_waiting};

use crate::counts::Counts;
use call_leaf::Leaf;
use chan_tree::PlanTree;
use rpc_base::{Bytes, List};
use rpc_model::{End, LeafChan};
use std::marker::Model;
use std::sync::Arc;

/// A node of a call, with what is below it. It is seen as the state that the plain machine has there.
#[cycle(tree)]
#[derive(Drop)]
pub(crate) struct Tree<M, G> {
    pub(crate) node: Node<M, G>,
}

#[cycle(tree)]
#[derive(Drop)]
pub(crate) enum Node<M, G> {
    /// It wasn't started.
    Waits(PlanTree<M, G>),
    Leaf(LeafNode),
    Par(ParNode<M, G>),
    Sel(SelNode<M, G>),
}

/// A plain channel's node. The text of the reply that won stands in its end.
#[derive(Drop)]
pub(crate) struct LeafNode {
    pub(crate) chan: Arc<LeafChan>,
    pub(crate) request: Bytes,
    pub(crate) leaf: Leaf,
    pub(crate) end: Option<End>,
}

/// A parallel node. `firsts` has the numbers of its subs, counted from its own.
#[cycle(tree)]
#[derive(Drop)]
pub(crate) struct ParNode<M, G> {
    pub(crate) counts: Counts,
    pub(crate) merges: List<G>,
    pub(crate) end: Option<End>,
    pub(crate) firsts: Vec<u32>,
    pub(crate) kids: Vec<Tree<M, G>>,
}

/// A selective node. `firsts` has the numbers of its tries, counted from its own.
#[cycle(tree)]
#[derive(Drop)]
pub(crate) struct SelNode<M, G> {
    pub(crate) request: Bytes,
    pub(crate) end: Option<End>,
    pub(crate) firsts: Vec<u32>,
    pub(crate) kids: Vec<Tree<M, G>>,
}

impl<M, G> Model for Tree<M, G> {
    ghost use Rattle.rpc_model.specs.State as spec;

    ghost Value = { spec.State M G };

    ghost use Rattle.std.specs.Coded.{codes};
    ghost use Rattle.chan_tree.specs.Code.{plan_code};
    ghost use Rattle.call_tree.specs.Code.{state_code};

    ghost coded = { state_code (Prim.hlevel (codes, plan_code {M = M} {G = G} (Prim.hlevel (codes)))) };

    ghost use Rattle.call_tree.specs.Shown.{state_of, IsSound};

    ghost view = { λ a. state_of a.node };

    ghost invariant = { λ a. IsSound a.node };

    ghost size = { spec.size };

    ghost use Rattle.call_tree.specs.Falls.{falls};

    ghost size_decreases = { λ a h. falls a.node };
}

impl<M, G> Tree<M, G> {
    /// Its end.
    pub(crate) fn end(&self) -> Option<&End>
        ensures { option_map (λ e. e.now) result ≡ spec.end_of self.now }
    {
        match &self.node {
            Node::Waits(_) => None,
            Node::Leaf(leaf) => leaf.end.as_ref(),
            Node::Par(par) => par.end.as_ref(),
            Node::Sel(sel) => sel.end.as_ref(),
        }
    }
}

impl<M, G> Tree<M, G> {
    /// Its plan, where it wasn't started.
    pub(crate) fn plan(&self) -> Option<&PlanTree<M, G>>
        ensures { option_map (λ p. p.now) result ≡ plan_waiting self.now }
    {
        match &self.node {
            Node::Waits(plan) => Some(plan),
            Node::Leaf(_) => None,
            Node::Par(_) => None,
            Node::Sel(_) => None,
        }
    }
}

impl<M: Drop, G: Drop> Tree<M, G> {
    /// Its end, taken out of it.
    pub(crate) fn into_end(self) -> Option<End>
        ensures { result ≡ spec.end_of self }
    {
        match self.node {
            Node::Waits(_) => None,
            Node::Leaf(leaf) => leaf.end,
            Node::Par(par) => par.end,
            Node::Sel(sel) => sel.end,
        }
    }
}
