//! The plans of calls.

ghost use Rattle.std.specs.Prelude.{◌≡◌, ◌≢◌, ℕ, ◌+◌, ◌*◌, ◌<◌, ◌≤◌, length, slice_get, set, Some, None, IfOk, IfSome, OnOk};
ghost use Rattle.std.specs.Arc.{arc_value};
ghost use Rattle.rpc_model.specs.Fits.{Fits, IsNarrow};
ghost use Rattle.rpc_model.specs.Plan.{plan};
ghost use Rattle.rpc_model.specs.Served.{AreServed};
ghost use Rattle.rpc_model.specs.Versions.{width};
ghost use Rattle.sim_run.specs.Rounds.{IsPlanned};
ghost use Rattle.sim_run.specs.declared.planning.Shared.{Shared};

use crate::rounds::{MOST, round_at, rounds_of};
use chan_tree::{Plan, known_plan};
use rpc_base::NoMemory;
use rpc_model::{MapKind, MergeKind, Script};
use std::alloc::Global;
use std::sync::Arc;

/// A plan that calls share.
#[derive(Drop)]
pub(crate) struct Shared {
    pub(crate) plan: Arc<Plan<MapKind, MergeKind>>,
}

/// The plans of a script's calls. Those of a channel that come round after at most `MOST` calls are made once: each stands
/// at its channel's place and the rest that its calls' numbers leave.
#[derive(Drop)]
pub(crate) struct Plans {
    pub(crate) rounds: Vec<u32>,
    pub(crate) kept: Vec<Option<Shared>>,
}

impl Plans {
    /// None was made yet.
    pub(crate) fn open(alloc: Global, script: &Script) -> Result<Plans, NoMemory>
        requires { Fits script.now }
        ensures { IfOk result (IsPlanned script.now.chans) }
    {
        let chans = script.chans.list();
        let rounds = rounds_of(alloc, chans)?;
        let kept = nothing_kept(alloc, chans.len().saturating_mul(MOST as usize))?;
        Ok(Plans { rounds, kept })
    }

    /// The plan of a call on a channel of an accepted script.
    pub(crate) fn of_call(
        &mut self,
        alloc: Global,
        script: &Script,
        chan: u32,
        call: u32,
    ) -> Result<Arc<Plan<MapKind, MergeKind>>, NoMemory>
        requires fits { Fits script.now }
        requires chan { chan < length script.now.chans }
        requires narrow { IsNarrow (plan script.now.chans chan call) }
        requires planned { IsPlanned script.now.chans self.old }
        ensures plan { IfOk result (λ p. plan script.now.chans chan call ≡ Some (arc_value p)) }
        ensures narrow { IfOk result (λ p. width (arc_value p) ≤ 1024) }
        ensures served { IfOk result (λ p. AreServed script.now.servers (arc_value p)) }
        ensures planned { OnOk result (IsPlanned script.now.chans self.new) }
    {
        let round = round_at(self.rounds.as_slice(), chan);
        if round == 0 || round > MOST {
            let plan = planned(alloc, script, chan, call)?;
            return Ok(plan);
        }
        let place = place_of(chan, call % round);
        if let Some(shared) = kept_at(self.kept.as_slice(), place) {
            let plan = shared.plan.clone()?;
            return Ok(plan);
        }
        let plan = planned(alloc, script, chan, call)?;
        let shared = Shared {
            plan: plan.clone()?,
        };
        keep(&mut self.kept, place, shared);
        Ok(plan)
    }
}

/// Where the plan of the calls that leave this rest stands.
fn place_of(chan: u32, rest: u32) -> usize
    ensures { result ≡ 16 * chan + rest }
{
    (16 * u64::from(chan) + u64::from(rest)) as usize
}

/// So many places where no plan stands.
fn nothing_kept(alloc: Global, places: usize) -> Result<Vec<Option<Shared>>, NoMemory>
    ensures { IfOk result (λ kept. (place : ℕ) (shared : Shared) → slice_get kept.items place ≢ Some (Some shared)) }
{
    let mut kept = Vec::new(alloc);
    for _place in 0..places {
        kept.push(None)?;
    }
    Ok(kept)
}

/// The plan that stands at a place.
fn kept_at(kept: &[Option<Shared>], place: usize) -> Option<&Shared>
    ensures { IfSome result (λ shared. slice_get kept.now place ≡ Some (Some shared.now)) }
{
    kept.get(place)?.as_ref()
}

/// Puts a plan at a place, if there is room.
fn keep(kept: &mut Vec<Option<Shared>>, place: usize, shared: Shared)
    ensures { kept.new.items ≡ set kept.old.items place (Some shared) }
{
    if place < kept.len() {
        kept[place] = Some(shared);
    }
}

/// The plan of a call on a channel of an accepted script, made anew.
fn planned(
    alloc: Global,
    script: &Script,
    chan: u32,
    call: u32,
) -> Result<Arc<Plan<MapKind, MergeKind>>, NoMemory>
    requires fits { Fits script.now }
    requires chan { chan < length script.now.chans }
    requires narrow { IsNarrow (plan script.now.chans chan call) }
    ensures plan { IfOk result (λ p. plan script.now.chans chan call ≡ Some (arc_value p)) }
    ensures narrow { IfOk result (λ p. width (arc_value p) ≤ 1024) }
    ensures served { IfOk result (λ p. AreServed script.now.servers (arc_value p)) }
{
    let plan = known_plan(alloc, script.chans.list(), chan, call)?;
    Ok(Arc::new(alloc, plan)?)
}
