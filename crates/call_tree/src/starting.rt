//! Nodes that start.

ghost use Rattle.std.specs.Prelude.{◌≡◌, ℕ, ◌+◌, ◌^◌, ◌<◌, length, [], true, None, IfOk, OnOk};
ghost use Rattle.chan_tree.specs.Shown.{rule_of, plans_of};
ghost use Rattle.rpc_model.specs.Plan.{par_plan, sel_plan};
ghost use Rattle.rpc_model.specs.Versions as versions;
ghost use Rattle.rpc_model.specs.Parallel.{limits, refused};
ghost use Rattle.rpc_model.specs.State as state;
ghost use Rattle.rpc_model.specs.Machine as spec;
ghost use Rattle.call_tree.specs.Counts.{limits_of};
ghost use Rattle.call_tree.specs.Growing.{IsGrown};
ghost use Rattle.call_tree.specs.Running.{kinds_of};
ghost use Rattle.call_tree.specs.Shown.{state_of, states_of, IsParNode, IsSelNode};
ghost use Rattle.call_tree.specs.Starting.{sub_run, subs_left, tries_left, IsStarted, AreStarted};
ghost use Rattle.call_tree.specs.declared.nodes.Node.TheVariants as node_word;

use crate::asking::{counts_of, next_ask, refusal};
use crate::nodes::{LeafNode, Node, ParNode, SelNode, Tree};
use crate::outbox::Outbox;
use crate::sel_node::{ask_while, tried};
use chan_tree::{PlanNode, PlanTree, Rule};
use fan_out::ask_all;
use rpc_base::{Bytes, List, NoMemory};
use rpc_model::{Mapped, Mapper, Merger};
use std::alloc::Global;

/// The node of a plan starts with this request, under this number.
#[cycle(start)]
pub(crate) fn start<M: Mapper + Copy, G: Merger + Copy>(
    alloc: Global,
    plan: &PlanTree<M, G>,
    request: Bytes,
    node: u32,
    call: u32,
    moment: u64,
    out: &mut Outbox,
) -> Result<Tree<M, G>, NoMemory>
    requires few { node + versions.nodes plan.now < 2 ^ 31 }
    requires early { moment < 2 ^ 60 }
    ensures tree { IfOk result (λ tree. (n c m : ℕ) → tree ≡ (spec.start_at (kinds_of M.answer G.answer) n plan.now c request m).state) }
    ensures grown { OnOk result (let run = spec.start_at (kinds_of M.answer G.answer) node plan.now call request moment in IsGrown out.old out.new run.sends run.marks) }
{
    match plan.node() {
        PlanNode::Leaf(chan) => {
            let leaf = LeafNode::begin(alloc, chan, request, node, call, moment, out)?;
            Ok(Tree {
                node: Node::Leaf(leaf),
            })
        }
        PlanNode::Par(rule, plans) => {
            let par = start_par(
                alloc,
                rule,
                plans.as_slice(),
                request,
                node,
                call,
                moment,
                out,
            )?;
            Ok(Tree {
                node: Node::Par(par),
            })
        }
        PlanNode::Sel(timeout, plans) => {
            let sel = start_sel(
                alloc,
                *timeout,
                plans.as_slice(),
                request,
                node,
                call,
                moment,
                out,
            )?;
            Ok(Tree {
                node: Node::Sel(sel),
            })
        }
    }
}

/// A parallel node starts with this request, under this number: its mappers are asked, and its subs start in order.
#[cycle(start)]
fn start_par<M: Mapper + Copy, G: Merger + Copy>(
    alloc: Global,
    rule: &Rule<M, G>,
    plans: &[PlanTree<M, G>],
    request: Bytes,
    node: u32,
    call: u32,
    moment: u64,
    out: &mut Outbox,
) -> Result<ParNode<M, G>, NoMemory>
    requires few { node + (1 + versions.nodes_of (plans_of plans.now)) < 2 ^ 31 }
    requires early { moment < 2 ^ 60 }
    ensures sound { IfOk result (λ par. IsParNode par) }
    ensures node { IfOk result (λ par. state_of (node_word.Par par) ≡ (spec.start_at (kinds_of M.answer G.answer) node (par_plan (rule_of rule.now) (plans_of plans.now)) call request moment).state) }
    ensures grown { OnOk result (let run = spec.start_at (kinds_of M.answer G.answer) node (par_plan (rule_of rule.now) (plans_of plans.now)) call request moment
        in IsGrown out.old out.new run.sends run.marks) }
{
    // A channel's plan has fewer mappers than nodes (`parallel_nodes_are_even` of model_laws), and so never as many.
    if rule.maps.list().len() >= 0x8000_0000 {
        return Err(NoMemory);
    }
    out.mark(rule.timeout, node, moment, false)?;
    let asked = ask_all(alloc, rule.maps.list(), request.list())?;
    let mut par = begun(alloc, rule, asked.as_slice())?;
    start_subs(alloc, plans, asked, &mut par, node, call, moment, out)?;
    Ok(par)
}

/// A parallel node before any sub started.
fn begun<M: Copy, G: Copy>(
    alloc: Global,
    rule: &Rule<M, G>,
    asked: &[Mapped],
) -> Result<ParNode<M, G>, NoMemory>
    requires few { length asked.now < 2 ^ 31 }
    ensures sound { IfOk result (λ par. IsParNode par) }
    ensures kids { IfOk result (λ par. par.kids.items ≡ []) }
    ensures merges { IfOk result (λ par. par.merges ≡ rule.now.merges) }
    ensures limits { IfOk result (λ par. limits_of par.counts ≡ limits (rule_of rule.now) asked.now) }
    ensures end { IfOk result (λ par. par.end ≡ refused asked.now) }
{
    Ok(ParNode {
        counts: counts_of(rule, asked),
        merges: List::of(Vec::from_slice(alloc, rule.merges.list())?),
        end: refusal(asked),
        firsts: Vec::with_capacity(alloc, asked.len())?,
        kids: Vec::with_capacity(alloc, asked.len())?,
    })
}

/// The subs of a parallel node start in order, those that are asked and until the node has an end; the others wait.
#[cycle(start)]
fn start_subs<M: Mapper + Copy, G: Merger + Copy>(
    alloc: Global,
    plans: &[PlanTree<M, G>],
    asked: Vec<Mapped>,
    par: &mut ParNode<M, G>,
    node: u32,
    call: u32,
    moment: u64,
    out: &mut Outbox,
) -> Result<(), NoMemory>
    requires sound { IsParNode par.old }
    requires none { par.old.kids.items ≡ [] }
    requires few { node + (1 + versions.nodes_of (plans_of plans.now)) < 2 ^ 31 }
    requires early { moment < 2 ^ 60 }
    ensures sound { OnOk result (IsParNode par.new) }
    ensures limits { OnOk result (limits_of par.new.counts ≡ limits_of par.old.counts) }
    ensures merges { OnOk result (par.new.merges ≡ par.old.merges) }
    ensures started { OnOk result (IsStarted par.new out.old out.new (subs_left (kinds_of M.answer G.answer) par.old.end (node + 1) (plans_of plans.now) call asked.items
        (limits_of par.old.counts) par.old.merges moment [])) }
{
    let mut asked = asked.into_iter();
    let mut number = node + 1;
    for plan in plans {
        let request = next_ask(&mut asked);
        let tree = start_sub(
            alloc,
            plan,
            par.end.is_none(),
            request,
            number,
            call,
            moment,
            out,
        )?;
        par.add(tree, number - node, alloc)?;
        number += plan.nodes();
    }
    Ok(())
}

/// A selective node starts with this request, under this number: its first try starts, and the next one where that ends at
/// its start and doesn't end the node; the others wait.
#[cycle(start)]
fn start_sel<M: Mapper + Copy, G: Merger + Copy>(
    alloc: Global,
    timeout: Option<u32>,
    plans: &[PlanTree<M, G>],
    request: Bytes,
    node: u32,
    call: u32,
    moment: u64,
    out: &mut Outbox,
) -> Result<SelNode<M, G>, NoMemory>
    requires few { node + (1 + versions.nodes_of (plans_of plans.now)) < 2 ^ 31 }
    requires early { moment < 2 ^ 60 }
    ensures sound { IfOk result (λ sel. IsSelNode sel) }
    ensures node { IfOk result (λ sel. state_of (node_word.Sel sel) ≡ (spec.start_at (kinds_of M.answer G.answer) node (sel_plan timeout (plans_of plans.now)) call request moment).state) }
    ensures grown { OnOk result (let run = spec.start_at (kinds_of M.answer G.answer) node (sel_plan timeout (plans_of plans.now)) call request moment in IsGrown out.old out.new run.sends run.marks) }
{
    out.mark(timeout, node, moment, false)?;
    let mut sel = SelNode {
        request,
        end: None,
        firsts: Vec::with_capacity(alloc, plans.len())?,
        kids: Vec::with_capacity(alloc, plans.len())?,
    };
    start_tries(alloc, plans, &mut sel, node, call, moment, out)?;
    Ok(sel)
}

/// The tries of a selective node start in order, as far as they do, and the others wait.
#[cycle(start)]
fn start_tries<M: Mapper + Copy, G: Merger + Copy>(
    alloc: Global,
    plans: &[PlanTree<M, G>],
    sel: &mut SelNode<M, G>,
    node: u32,
    call: u32,
    moment: u64,
    out: &mut Outbox,
) -> Result<(), NoMemory>
    requires sound { IsSelNode sel.old }
    requires open { sel.old.end ≡ None }
    requires none { sel.old.kids.items ≡ [] }
    requires few { node + (1 + versions.nodes_of (plans_of plans.now)) < 2 ^ 31 }
    requires early { moment < 2 ^ 60 }
    ensures sound { OnOk result (IsSelNode sel.new) }
    ensures request { OnOk result (sel.new.request ≡ sel.old.request) }
    ensures started { OnOk result (AreStarted sel.new out.old out.new (tries_left (kinds_of M.answer G.answer) true sel.old.end (node + 1) (plans_of plans.now) call sel.old.request moment)) }
{
    let mut going = true;
    let mut number = node + 1;
    let mut left = plans.len();
    for plan in plans {
        left -= 1;
        let request = ask_while(alloc, going, sel.request.list())?;
        let tree = start_sub(alloc, plan, true, request, number, call, moment, out)?;
        let (goes, over) = tried(alloc, going, sel.end.take(), left > 0, tree.end())?;
        sel.add(tree, number - node)?;
        going = goes;
        sel.end = over;
        number += plan.nodes();
    }
    Ok(())
}

/// A sub starts with the request that it is asked with, if there is one and its node has no end, and else it waits.
#[cycle(start)]
fn start_sub<M: Mapper + Copy, G: Merger + Copy>(
    alloc: Global,
    plan: &PlanTree<M, G>,
    is_open: bool,
    request: Option<Bytes>,
    number: u32,
    call: u32,
    moment: u64,
    out: &mut Outbox,
) -> Result<Tree<M, G>, NoMemory>
    requires few { number + versions.nodes plan.now < 2 ^ 31 }
    requires early { moment < 2 ^ 60 }
    ensures tree { IfOk result (λ tree. tree ≡ (sub_run (kinds_of M.answer G.answer) is_open number plan.now call request moment).state) }
    ensures grown { OnOk result (let run = sub_run (kinds_of M.answer G.answer) is_open number plan.now call request moment in IsGrown out.old out.new run.sends run.marks) }
{
    let Some(request) = request else {
        let tree = waiting(plan)?;
        return Ok(tree);
    };
    if !is_open {
        let tree = waiting(plan)?;
        return Ok(tree);
    }
    let tree = start(alloc, plan, request, number, call, moment, out)?;
    Ok(tree)
}

/// A node that waits.
fn waiting<M: Copy, G: Copy>(plan: &PlanTree<M, G>) -> Result<Tree<M, G>, NoMemory>
    ensures { IfOk result (λ tree. tree ≡ state.waits plan.now) }
{
    Ok(Tree {
        node: Node::Waits(plan.copy()?),
    })
}
