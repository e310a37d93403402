//! Plans as trees, built from a list of channels.

ghost use Rattle.std.specs.Prelude.{◌≡◌, ℕ, ◌+◌, ◌<◌, ◌≤◌, ◌++◌, List, length, map, Some, IfOk, OnOk};
ghost use Rattle.std.specs.Arc.{arc_value};
ghost use Rattle.rpc_model.specs.Plan as spec;
ghost use Rattle.rpc_model.specs.Plan.{subs_of, tries, copies, servers_of};
ghost use Rattle.chan_tree.specs.Sound.{AreBefore, IsSound, AreSound};
ghost use Rattle.chan_tree.specs.Measures.{numbers_of};
ghost use Rattle.chan_tree.specs.Shown.{append_plans, plan_of as plan_shown, rule_of as rule_shown, IsPlanOf, ArePlansOf};

use crate::measuring::try_at;
use crate::tree::{PlanNode, PlanTree, Rule};
use rpc_base::{List, NoMemory};
use rpc_model::{Chan, LeafChan, ParChan, PartChan, SelChan, Sub, Tag};
use std::alloc::Global;
use std::sync::Arc;

/// The plan of the channel of this number, as a tree.
#[cycle(build)]
pub fn build<M: Copy, G: Copy>(
    alloc: Global,
    chans: &[Chan<M, G>],
    number: u32,
    call: u32,
) -> Result<PlanTree<M, G>, NoMemory>
    requires sound { AreSound 0 chans.now }
    requires there { number < length chans.now }
    ensures tree { IfOk result (λ tree. IsPlanOf chans.now number call tree) }
{
    match &chans[number as usize] {
        Chan::Leaf(leaf) => {
            let leaf = shared_leaf(alloc, leaf)?;
            Ok(tree_of(alloc, PlanNode::Leaf(leaf))?)
        }
        Chan::Par(par) => {
            let rule = rule_of(alloc, par)?;
            let kids = build_subs(alloc, chans, number, par.subs.list(), call)?;
            Ok(tree_of(alloc, PlanNode::Par(rule, kids))?)
        }
        Chan::Sel(sel) => {
            let kids = build_tries(alloc, chans, number, sel, call)?;
            Ok(tree_of(alloc, PlanNode::Sel(sel.timeout, kids))?)
        }
        Chan::Part(part) => {
            let rule = part_rule(alloc, part)?;
            let kids = build_parts(alloc, part)?;
            Ok(tree_of(alloc, PlanNode::Par(rule, kids))?)
        }
    }
}

/// The plans of the subs of a channel of this number.
#[cycle(build)]
fn build_subs<M: Copy, G: Copy>(
    alloc: Global,
    chans: &[Chan<M, G>],
    number: u32,
    subs: &[Sub<M, G>],
    call: u32,
) -> Result<Vec<PlanTree<M, G>>, NoMemory>
    requires sound { AreSound 0 chans.now }
    requires there { number < length chans.now }
    requires before { AreBefore number (numbers_of subs.now) }
    ensures kids { IfOk result (λ kids. ArePlansOf chans.now call (numbers_of subs.now) (plans_shown kids.items)) }
{
    let mut kids = Vec::with_capacity(alloc, subs.len())?;
    for sub in subs {
        kids.push(build(alloc, chans, sub.chan, call)?)?;
    }
    Ok(kids)
}

ghost use Rattle.chan_tree.specs.Shown.{plans_of as plans_shown};

/// The plans of the tries of a selective channel of this number.
#[cycle(build)]
fn build_tries<M: Copy, G: Copy>(
    alloc: Global,
    chans: &[Chan<M, G>],
    number: u32,
    sel: &SelChan,
    call: u32,
) -> Result<Vec<PlanTree<M, G>>, NoMemory>
    requires sound { AreSound 0 chans.now }
    requires there { number < length chans.now }
    requires some { 1 ≤ length sel.now.subs }
    requires before { AreBefore number sel.now.subs }
    ensures kids { IfOk result (λ kids. ArePlansOf chans.now call (tries sel.now call) (plans_shown kids.items)) }
{
    let subs = sel.subs.list();
    let count = u64::from(sel.retry) + 1;
    let mut kids = Vec::with_capacity(alloc, count as usize)?;
    let mut at = 0u64;
    while at < count {
        let number = try_at(subs, call, at);
        kids.push(build(alloc, chans, number, call)?)?;
        at += 1;
    }
    Ok(kids)
}

/// The tree of a node.
fn tree_of<M: Drop, G: Drop>(
    alloc: Global,
    node: PlanNode<M, G>,
) -> Result<PlanTree<M, G>, NoMemory>
    ensures { IfOk result (λ tree. tree ≡ plan_shown node) }
{
    Ok(PlanTree {
        node: Arc::new(alloc, node)?,
    })
}

/// A copy of a plain channel, which the copies of a plan share.
fn shared_leaf(alloc: Global, leaf: &LeafChan) -> Result<Arc<LeafChan>, NoMemory>
    ensures { IfOk result (λ copy. arc_value copy ≡ leaf.now) }
{
    let copy = LeafChan {
        servers: List::of(Vec::from_slice(alloc, leaf.servers.list())?),
        retry: leaf.retry,
        backup: leaf.backup,
        timeout: leaf.timeout,
    };
    Ok(Arc::new(alloc, copy)?)
}

fn rule_of<M: Copy, G: Copy>(alloc: Global, par: &ParChan<M, G>) -> Result<Rule<M, G>, NoMemory>
    ensures { IfOk result (λ rule. rule_shown rule ≡ spec.rule_of par.now) }
{
    let count = par.subs.list().len();
    let mut maps = Vec::with_capacity(alloc, count)?;
    let mut merges = Vec::with_capacity(alloc, count)?;
    for sub in par.subs.list() {
        maps.push(sub.map)?;
        merges.push(sub.merge)?;
    }
    Ok(Rule {
        maps: List::of(maps),
        merges: List::of(merges),
        fail: par.fail,
        ok: par.ok,
        timeout: par.timeout,
    })
}

fn part_rule<M: Copy, G: Copy>(alloc: Global, part: &PartChan<M, G>) -> Result<Rule<M, G>, NoMemory>
    ensures { IfOk result (λ rule. rule_shown rule ≡ spec.part_rule part.now) }
{
    Ok(Rule {
        maps: List::of(copied(alloc, part.parts, part.map)?),
        merges: List::of(copied(alloc, part.parts, part.merge)?),
        fail: part.fail,
        ok: part.ok,
        timeout: part.timeout,
    })
}

/// So many times the same.
fn copied<X: Copy>(alloc: Global, count: u32, x: X) -> Result<Vec<X>, NoMemory>
    ensures { IfOk result (λ xs. xs.items ≡ copies count x) }
{
    let mut xs = Vec::with_capacity(alloc, count as usize)?;
    let mut left = count;
    while left > 0 {
        xs.push(x)?;
        left -= 1;
    }
    Ok(xs)
}

/// The leaves of the parts of a partition channel.
#[tactic(auto, using(crate::proofs::Kids::append_push, crate::proofs::Kids::append_end, crate::proofs::Turns::leaves_next, crate::proofs::Turns::leaves_end))]
fn build_parts<M: Copy, G: Copy>(
    alloc: Global,
    part: &PartChan<M, G>,
) -> Result<Vec<PlanTree<M, G>>, NoMemory>
    ensures { IfOk result (λ kids. plans_shown kids.items ≡ spec.part_plans part.now 0 part.now.parts) }
{
    let parts = part.parts;
    let mut kids = Vec::with_capacity(alloc, parts as usize)?;
    let mut at = 0u32;
    while at < parts {
        let leaf = Arc::new(alloc, part_leaf(alloc, part, at)?)?;
        kids.push(tree_of(alloc, PlanNode::Leaf(leaf))?)?;
        at += 1;
    }
    Ok(kids)
}

fn part_leaf<M: Copy, G: Copy>(
    alloc: Global,
    part: &PartChan<M, G>,
    at: u32,
) -> Result<LeafChan, NoMemory>
    ensures { IfOk result (λ leaf. leaf ≡ spec.part_leaf part.now at) }
{
    Ok(LeafChan {
        servers: List::of(servers(alloc, part.tags.list(), part.parts, at)?),
        retry: part.retry,
        backup: part.backup,
        timeout: None,
    })
}

/// The servers that have this part of so many, in the order of their tags.
fn servers(alloc: Global, tags: &[Tag], parts: u32, part: u32) -> Result<Vec<u32>, NoMemory>
    ensures { IfOk result (λ servers. servers.items ≡ servers_of tags.now parts part) }
{
    let mut servers = Vec::new(alloc);
    for tag in tags {
        if tag.part == part && tag.of == parts {
            servers.push(tag.server)?;
        }
    }
    Ok(servers)
}
