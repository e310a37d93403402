ghost use Rattle.std.specs.Prelude.{◌≡◌, ◌^◌, ◌<◌, IfOk};
ghost use Rattle.rpc_model.specs.Versions as versions;
ghost use Rattle.chan_tree.specs.Shown.{plan_of, plans_of};

use rpc_base::{List, NoMemory};
use rpc_model::LeafChan;
use std::marker::Model;
use std::sync::Arc;

/// The tree of a plan's nodes, which its copies share. It is seen as the plan itself.
#[cycle(plan)]
#[derive(Drop)]
pub struct PlanTree<M, G> {
    pub(crate) node: Arc<PlanNode<M, G>>,
}

/// A node of a plan.
#[cycle(plan)]
#[derive(Drop)]
pub enum PlanNode<M, G> {
    /// A plain channel. Copies of a plan and the calls that run it share it.
    Leaf(Arc<LeafChan>),
    /// A parallel node over its subs.
    Par(Rule<M, G>, Vec<PlanTree<M, G>>),
    /// A selective node, with the milliseconds to its deadline, over its tries.
    Sel(Option<u32>, Vec<PlanTree<M, G>>),
}

/// What a parallel node asks of its subs, and where it ends.
#[derive(Drop)]
pub struct Rule<M, G> {
    /// The mappers of its subs, in their order.
    pub maps: List<M>,
    /// Their mergers.
    pub merges: List<G>,
    /// How many failed subs end it; 0 stands for the number of those that are asked.
    pub fail: u32,
    /// How many subs that succeeded end it; 0 stands for the number of those that are asked.
    pub ok: u32,
    /// The milliseconds to its deadline, or none.
    pub timeout: Option<u32>,
}

impl<M, G> Model for PlanTree<M, G> {
    ghost use Rattle.rpc_model.specs.Plan as spec;
    ghost use Rattle.rpc_model.specs.Versions.{nodes};

    ghost Value = { spec.Plan M G };

    ghost use Rattle.std.specs.Coded.{codes};
    ghost use Rattle.chan_tree.specs.Code.{plan_code};

    ghost coded = { plan_code (Prim.hlevel (codes)) };

    ghost use Rattle.chan_tree.specs.Shown.{plan_of};
    ghost use Rattle.std.specs.Arc.{arc_value};

    ghost view = { λ a. plan_of (arc_value a.node) };

    ghost size = { nodes };

    ghost use Rattle.chan_tree.specs.Falls.{falls};

    ghost size_decreases = { λ a h. falls (arc_value a.node) };
}

impl<M, G> PlanTree<M, G> {
    /// Its root, with the trees below it.
    pub fn node(&self) -> &PlanNode<M, G>
        ensures { plan_of result.now ≡ self.now }
    {
        &*self.node
    }

    /// How many nodes there are.
    #[cycle(count)]
    pub fn nodes(&self) -> u32
        requires few { versions.nodes self.now < 2 ^ 31 }
        ensures { result ≡ versions.nodes self.now }
    {
        match self.node() {
            PlanNode::Leaf(_) => 1,
            PlanNode::Par(_, plans) => 1 + nodes_of(plans.as_slice()),
            PlanNode::Sel(_, plans) => 1 + nodes_of(plans.as_slice()),
        }
    }
}

/// How many nodes trees have together.
#[cycle(count)]
fn nodes_of<M, G>(trees: &[PlanTree<M, G>]) -> u32
    requires few { versions.nodes_of (plans_of trees.now) < 2 ^ 31 }
    ensures { result ≡ versions.nodes_of (plans_of trees.now) }
{
    let mut count = 0u32;
    for tree in trees {
        count += tree.nodes();
    }
    count
}

impl<M: Copy, G: Copy> PlanTree<M, G> {
    /// A copy of the whole tree. It shares the nodes.
    pub fn copy(&self) -> Result<PlanTree<M, G>, NoMemory>
        ensures { IfOk result (λ copy. copy ≡ self.now) }
    {
        Ok(PlanTree {
            node: self.node.clone()?,
        })
    }
}
