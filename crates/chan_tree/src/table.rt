//! The leaves of a plan in a table, by which offsets are found without a walk over the tree.

ghost use Rattle.std.specs.Prelude.{◌≡◌, ℕ, ◌+◌, ◌≤◌, ◌++◌, OnOk};
ghost use Rattle.rpc_model.specs.Versions as versions;
ghost use Rattle.chan_tree.specs.Table as table;
ghost use Rattle.chan_tree.specs.Shown.{plans_of};

use crate::tree::{PlanNode, PlanTree};
use rpc_base::NoMemory;
use rpc_model::{LeafChan, Meaning};
use std::sync::Arc;

/// A leaf of a plan.
#[derive(Drop)]
pub struct PlanLeaf {
    /// The place of its first attempt among all attempts.
    pub first: u32,
    /// How many attempts it may issue.
    pub count: u32,
    /// Its channel, which the tree shares.
    pub chan: Arc<LeafChan>,
}

/// The leaves of a plan, and all that they may issue.
#[derive(Drop)]
pub struct Table {
    /// How many nodes were counted.
    pub nodes: u32,
    /// How many attempts were counted.
    pub attempts: u32,
    /// For each node by its number, the leaf that it is, or none where it has nodes below it.
    pub leaves: Vec<Option<PlanLeaf>>,
    /// The attempts that the leaves may issue, one after the other.
    pub meanings: Vec<Meaning>,
}

/// Adds the attempts that a leaf may issue.
fn add_attempts(meanings: &mut Vec<Meaning>, leaf: u32, count: u32) -> Result<(), NoMemory>
    ensures { OnOk result (meanings.new.items ≡ meanings.old.items ++ versions.leaf_versions leaf 0 count) }
{
    for attempt in 0..count {
        meanings.push(Meaning::Attempt(leaf, attempt))?;
    }
    Ok(())
}

/// Adds the leaves of a tree behind those that were counted.
#[cycle(table)]
pub fn add_tree<M, G>(tree: &PlanTree<M, G>, to: &mut Table) -> Result<(), NoMemory>
    requires nodes { to.old.nodes + versions.nodes tree.now ≤ 4096 }
    requires attempts { to.old.attempts + versions.possible_attempts tree.now ≤ 4096 }
    ensures nodes { OnOk result (to.new.nodes ≡ to.old.nodes + versions.nodes tree.now) }
    ensures attempts { OnOk result (to.new.attempts ≡ to.old.attempts + versions.possible_attempts tree.now) }
    ensures leaves { OnOk result (table.entries_of to.new.leaves.items ≡ table.entries_of to.old.leaves.items ++ table.entries to.old.attempts tree.now) }
    ensures meanings { OnOk result (to.new.meanings.items ≡ to.old.meanings.items ++ versions.attempt_versions to.old.nodes tree.now) }
{
    match tree.node() {
        PlanNode::Leaf(leaf) => {
            let count = leaf.retry + 1;
            let chan = leaf.clone()?;
            to.leaves.push(Some(PlanLeaf {
                first: to.attempts,
                count,
                chan,
            }))?;
            add_attempts(&mut to.meanings, to.nodes, count)?;
            to.nodes += 1;
            to.attempts += count;
            Ok(())
        }
        PlanNode::Par(_, plans) => {
            to.leaves.push(None)?;
            to.nodes += 1;
            add_trees(plans.as_slice(), to)?;
            Ok(())
        }
        PlanNode::Sel(_, plans) => {
            to.leaves.push(None)?;
            to.nodes += 1;
            add_trees(plans.as_slice(), to)?;
            Ok(())
        }
    }
}

/// Adds the leaves of trees that follow each other.
#[cycle(table)]
fn add_trees<M, G>(trees: &[PlanTree<M, G>], to: &mut Table) -> Result<(), NoMemory>
    requires nodes { to.old.nodes + versions.nodes_of (plans_of trees.now) ≤ 4096 }
    requires attempts { to.old.attempts + versions.possible_attempts_of (plans_of trees.now) ≤ 4096 }
    ensures nodes { OnOk result (to.new.nodes ≡ to.old.nodes + versions.nodes_of (plans_of trees.now)) }
    ensures attempts { OnOk result (to.new.attempts ≡ to.old.attempts + versions.possible_attempts_of (plans_of trees.now)) }
    ensures leaves { OnOk result (table.entries_of to.new.leaves.items ≡ table.entries_of to.old.leaves.items ++ table.entries_below to.old.attempts (plans_of trees.now)) }
    ensures meanings { OnOk result (to.new.meanings.items ≡ to.old.meanings.items ++ versions.attempt_versions_of to.old.nodes (plans_of trees.now)) }
{
    let Some((tree, rest)) = trees.split_first() else {
        return Ok(());
    };
    add_tree(tree, to)?;
    add_trees(rest, to)?;
    Ok(())
}

ghost use Rattle.std.specs.Prelude.{slice_get};
ghost use Rattle.std.specs.Option.{option_map};

/// The leaf of this number. None exactly where the node of this number isn't a leaf.
pub fn leaf_at(leaves: &[Option<PlanLeaf>], node: u32) -> Option<&PlanLeaf>
    ensures { option_map (λ l. table.entry_of l.now) result ≡ table.entry_at (table.entries_of leaves.now) node }
{
    leaves.get(node as usize)?.as_ref()
}

/// The attempt at this place among all attempts.
pub fn meaning_at(meanings: &[Meaning], place: usize) -> Option<Meaning>
    ensures { result ≡ slice_get meanings.now place }
{
    meanings.get(place).copied()
}
