ghost use Rattle.std.specs.Prelude.{◌≡◌, ℕ, ◌<◌, ◌≤◌, length, Option, None, Some, IfOk, IfErr};
ghost use Rattle.rpc_model.specs.Fits.{IsNarrow};
ghost use Rattle.rpc_model.specs.Plan as spec;
ghost use Rattle.chan_tree.specs.Sound.{AreSound};
ghost use Rattle.chan_tree.specs.Asked.{IsRefused, IsGranted};
ghost use Rattle.chan_tree.specs.Measures.{IsMeasureOf};

use crate::building::build;
use crate::measuring::{Measure, measure_chan};
use crate::plans::{Plan, tabled};
use rpc_base::NoMemory;
use rpc_model::Chan;
use std::alloc::Global;

/// Why a channel has no plan that a call may run. They are looked at in this order. The rules are this project's own.
#[derive(Clone, Copy, Debug, PartialEq, Eq)]
pub enum PlanFault {
    /// Channels nest more than 8 deep; it holds 9, where the count stops.
    TooDeep(u32),
    /// No server has this part of a partition channel in the plan: the first such part in preorder.
    MissingPart(u32),
    /// The plan has more than 1,024 versions; it holds 1,025, where the count stops.
    TooWide(u32),
    /// Memory was wanting.
    Memory,
}

/// The plan of the channel of this number for a call of this number.
///
/// Each channel names only channels before it, each plain one has a server, and each selective one a sub. Depth, parts and
/// width are counted from the channels, before anything is built. After a refusal nothing is left behind.
#[tactic(auto, using(crate::proofs::Judged::too_wide, crate::proofs::Judged::narrow, crate::proofs::Judged::granted))]
pub fn plan<M: Copy, G: Copy>(
    alloc: Global,
    chans: &[Chan<M, G>],
    number: u32,
    call: u32,
) -> Result<Plan<M, G>, PlanFault>
    requires there { number < length chans.now }
    requires sound { AreSound 0 chans.now }
    ensures granted { IfOk result (λ p. IsGranted chans.now number call p) }
    ensures refused { IfErr result (λ fault. IsRefused chans.now number call fault) }
{
    let Ok(measure) = measure_of(alloc, chans, number, call) else {
        return Err(PlanFault::Memory);
    };
    if measure.depth > 8 {
        return Err(PlanFault::TooDeep(9));
    }
    if let Some(part) = measure.missing {
        return Err(PlanFault::MissingPart(part));
    }
    if measure.width > 1024 {
        return Err(PlanFault::TooWide(1025));
    }
    let Ok(tree) = build(alloc, chans, number, call) else {
        return Err(PlanFault::Memory);
    };
    let Ok(plan) = tabled(alloc, tree) else {
        return Err(PlanFault::Memory);
    };
    Ok(plan)
}

/// The plan of the channel of this number for a call of this number, where it is known to be no wider than 1,024. It
/// takes a time that grows with the nodes of the plan, and looks at no other channel.
#[tactic(auto, using(crate::proofs::Judged::known_narrow, crate::proofs::Judged::known_is))]
pub fn known_plan<M: Copy, G: Copy>(
    alloc: Global,
    chans: &[Chan<M, G>],
    number: u32,
    call: u32,
) -> Result<Plan<M, G>, NoMemory>
    requires there { number < length chans.now }
    requires sound { AreSound 0 chans.now }
    requires narrow { IsNarrow (spec.plan chans.now number call) }
    ensures plan { IfOk result (λ p. spec.plan chans.now number call ≡ Some p) }
{
    let tree = build(alloc, chans, number, call)?;
    let plan = tabled(alloc, tree)?;
    Ok(plan)
}

/// The measure of the channel of this number.
fn measure_of<M, G>(
    alloc: Global,
    chans: &[Chan<M, G>],
    number: u32,
    call: u32,
) -> Result<Measure, NoMemory>
    requires there { number < length chans.now }
    requires sound { AreSound 0 chans.now }
    ensures { IfOk result (λ m. IsMeasureOf chans.now call number m) }
{
    let mut before = Vec::new(alloc);
    let chan = &chans[number as usize];
    if let Chan::Leaf(_) = chan {
        // A plain channel is measured by itself.
        return Ok(measure_chan(chan, call, before.as_slice()));
    }
    let mut at = 0u32;
    while at < number {
        let measure = measure_chan(&chans[at as usize], call, before.as_slice());
        before.push(measure)?;
        at += 1;
    }
    Ok(measure_chan(chan, call, before.as_slice()))
}
