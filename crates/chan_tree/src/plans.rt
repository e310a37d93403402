ghost use Rattle.std.specs.Option.{option_map};
ghost use Rattle.std.specs.Prelude.{◌≡◌, ℕ, ◌<◌, ◌≤◌, Option, None, Some, IfOk, IfSome};
ghost use Rattle.rpc_model.specs.Versions as versions;
ghost use Rattle.rpc_model.specs.declared.meaning.Meaning.TheVariants as meaning;

use crate::table::{PlanLeaf, Table, add_tree, leaf_at, meaning_at};
use crate::tree::PlanTree;
use rpc_base::NoMemory;
use rpc_model::{LeafChan, Meaning};
use std::alloc::Global;
use std::marker::Model;

/// The plan of a call. Its range of ids has one version for each node and one for each attempt that a leaf may issue.
#[derive(Drop)]
pub struct Plan<M, G> {
    tree: PlanTree<M, G>,
    nodes: u32,
    width: u32,
    leaves: Vec<Option<PlanLeaf>>,
    meanings: Vec<Meaning>,
}

impl<M, G> Model for Plan<M, G> {
    ghost use Rattle.rpc_model.specs.Plan as spec;

    ghost Value = { spec.Plan M G };

    ghost use Rattle.std.specs.Coded.{codes};
    ghost use Rattle.chan_tree.specs.Code.{plan_code};

    ghost coded = { plan_code (Prim.hlevel (codes)) };

    ghost view = { λ a. a.tree };

    ghost use Rattle.chan_tree.specs.Tabled.{IsTabled};

    ghost invariant = { IsTabled };
}

/// A tree with the table of its leaves.
pub(crate) fn tabled<M: Drop, G: Drop>(
    alloc: Global,
    tree: PlanTree<M, G>,
) -> Result<Plan<M, G>, NoMemory>
    requires few { versions.width tree ≤ 1024 }
    ensures { IfOk result (λ p. p ≡ tree) }
{
    let mut table = Table {
        nodes: 0,
        attempts: 0,
        leaves: Vec::new(alloc),
        meanings: Vec::new(alloc),
    };
    add_tree(&tree, &mut table)?;
    let Table {
        nodes,
        attempts,
        leaves,
        meanings,
    } = table;
    Ok(Plan {
        tree,
        nodes,
        width: nodes + attempts,
        leaves,
        meanings,
    })
}

impl<M, G> Plan<M, G> {
    /// The tree of its nodes.
    pub fn tree(&self) -> &PlanTree<M, G>
        ensures value { result.now ≡ self.now }
        ensures narrow { versions.width self.now ≤ 1024 }
    {
        &self.tree
    }

    /// How many ids the range of a call has.
    pub fn width(&self) -> u32
        ensures { result ≡ versions.width self.now }
    {
        self.width
    }

    /// How many nodes there are.
    pub fn nodes(&self) -> u32
        ensures { result ≡ versions.nodes self.now }
    {
        self.nodes
    }

    /// The offset of a node's version in the range.
    #[tactic(auto, using(crate::proofs::Offsets::node_offset))]
    pub fn offset_of_node(&self, node: u32) -> u32
        requires there { node < versions.nodes self.now }
        ensures { Some result ≡ versions.offset_of self.now (meaning.Node node) }
    {
        node
    }

    /// An attempt: the offset of its version in the range, and its leaf. None exactly where the node isn't a leaf or has no
    /// such attempt.
    #[tactic(auto, using(crate::proofs::Offsets::attempt_offset, crate::proofs::Leaves::leaf_is))]
    pub fn attempt(&self, node: u32, attempt: u32) -> Option<(u32, &LeafChan)>
        ensures offset { option_map (λ a. a.0) result ≡ versions.offset_of self.now (meaning.Attempt node attempt) }
        ensures leaf { IfSome result (λ a. Some a.1.now ≡ versions.leaf_at 0 self.now node) }
    {
        let leaf = leaf_at(self.leaves.as_slice(), node)?;
        if attempt >= leaf.count {
            return None;
        }
        let place = leaf.first + attempt;
        Some((self.nodes + place, &*leaf.chan))
    }

    /// The offset of an attempt's version in the range: none exactly where the node isn't a leaf or has no such attempt.
    pub fn offset_of_attempt(&self, node: u32, attempt: u32) -> Option<u32>
        ensures { result ≡ versions.offset_of self.now (meaning.Attempt node attempt) }
    {
        let (offset, _leaf) = self.attempt(node, attempt)?;
        Some(offset)
    }

    /// The leaf of this number. None exactly where the node of this number isn't a leaf.
    #[tactic(auto, using(crate::proofs::Leaves::leaf_is))]
    pub fn leaf(&self, node: u32) -> Option<&LeafChan>
        ensures { option_map (λ l. l.now) result ≡ versions.leaf_at 0 self.now node }
    {
        let leaf = leaf_at(self.leaves.as_slice(), node)?;
        Some(&*leaf.chan)
    }

    /// What the version at an offset is of: none exactly where the offset isn't below the width.
    #[tactic(auto, using(crate::proofs::Offsets::node_meaning, crate::proofs::Offsets::attempt_meaning))]
    pub fn meaning_of(&self, offset: u32) -> Option<Meaning>
        ensures { result ≡ versions.meaning_of self.now offset }
    {
        if offset < self.nodes {
            return Some(Meaning::Node(offset));
        }
        let place = offset - self.nodes;
        meaning_at(self.meanings.as_slice(), place as usize)
    }
}
