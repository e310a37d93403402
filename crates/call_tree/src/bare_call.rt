ghost use Rattle.std.specs.Prelude.{◌≡◌, ℕ, ◌^◌, ◌<◌, is_some, IfOk, OnOk, OnErr};
ghost use Rattle.std.specs.Option.{option_map};
ghost use Rattle.std.specs.Arc.{arc_value};
ghost use Rattle.rpc_model.specs.State.{end_of, attempts};
ghost use Rattle.rpc_model.specs.Machine.{start, step};
ghost use Rattle.call_tree.specs.Running.{kinds_of, bare_by, IsEffects};

use crate::effects::Effects;
use crate::nodes::Tree;
use crate::outbox::{Outbox, Spare};
use crate::starting::start;
use chan_tree::Plan;
use rpc_base::{Bytes, List, NoMemory};
use rpc_model::{End, Event, Mapper, Merger};
use std::alloc::Global;
use std::marker::Model;
use std::sync::Arc;

/// A call that keeps no log of the events that were applied to it.
///
/// Its state is the one that the plain machine has after the call's start and these events, each at its moment.
#[derive(Drop)]
pub struct BareCall<M, G> {
    plan: Arc<Plan<M, G>>,
    call: u32,
    tree: Tree<M, G>,
}

impl<M, G> Model for BareCall<M, G> {
    ghost use Rattle.std.specs.Arc.{arc_value};
    ghost use Rattle.call_tree.specs.Running.{Bare};

    ghost Value = { Bare M G };

    ghost use Rattle.std.specs.Coded.{codes};
    ghost use Rattle.chan_tree.specs.Code.{plan_code};
    ghost use Rattle.call_tree.specs.Code.{state_code};

    ghost coded = { Prim.hlevel (codes, plan_code {M = M} {G = G} (Prim.hlevel (codes)), state_code {M = M} {G = G} (Prim.hlevel (codes, plan_code {M = M} {G = G} (Prim.hlevel (codes))))) };

    ghost view = { λ c. record { plan = arc_value c.plan; call = c.call; state = c.tree } };

    ghost use Rattle.call_tree.specs.Bounds.{IsWithin};

    ghost invariant = { λ c. IsWithin (arc_value c.plan) c.tree };
}

impl<M: Mapper + Copy, G: Merger + Copy> BareCall<M, G> {
    /// Begins a call of this number with this request, at a moment in milliseconds.
    ///
    /// It answers the call and what goes out at once: the first requests, and the marks of deadlines and backup requests.
    /// A call may have an end already, as where a mapper refuses its request. What a start does is in brpc's documents on
    /// the client and on combination channels. What goes out is put into the room of `spare`. After want of memory nothing
    /// is left behind.
    pub fn begin(
        alloc: Global,
        plan: Arc<Plan<M, G>>,
        call: u32,
        request: Bytes,
        moment: u64,
        spare: Spare,
    ) -> Result<(BareCall<M, G>, Effects), NoMemory>
        requires early { moment < 2 ^ 60 }
        ensures begun { IfOk result (λ r. let run = start (kinds_of M.answer G.answer) (arc_value plan) call request moment in (r.0 ≡ bare_by (arc_value plan) call run) × IsEffects run r.1) }
    {
        let mut out = Outbox::new(spare);
        let tree = start(alloc, plan.tree(), request, 0, call, moment, &mut out)?;
        let effects = effects_of(out, &tree);
        let begun = BareCall { plan, call, tree };
        Ok((begun, effects))
    }

    /// Applies an event at a moment in milliseconds.
    ///
    /// It answers what this made the call do. An event that names no node or no attempt of the plan, or one that has an end
    /// or was replaced, does nothing. What goes out is put into the room of `spare`. After want of memory the call is as it
    /// was before.
    pub fn apply(
        &mut self,
        alloc: Global,
        event: Event,
        moment: u64,
        spare: Spare,
    ) -> Result<Effects, NoMemory>
        requires early { moment < 2 ^ 60 }
        ensures applied { OnOk result (self.new ≡ record self.old { state = (step (kinds_of M.answer G.answer) self.old.call self.old.state event moment).state }) }
        ensures effects { IfOk result (λ effects. IsEffects (step (kinds_of M.answer G.answer) self.old.call self.old.state event moment) effects) }
        ensures kept { OnErr result (self.new ≡ self.old) }
    {
        let mut out = Outbox::new(spare);
        self.tree.step(alloc, self.plan.nodes(), self.call, event, moment, &mut out)?;
        Ok(effects_of(out, &self.tree))
    }
}

/// What went out, where this is the call's root now.
fn effects_of<M, G>(out: Outbox, root: &Tree<M, G>) -> Effects
    ensures sends { result.sends ≡ out.sends.items }
    ensures marks { result.marks ≡ out.marks.items }
    ensures ended { result.ended ≡ is_some (end_of root.now) }
{
    Effects {
        sends: List::of(out.sends),
        marks: List::of(out.marks),
        ended: root.end().is_some(),
    }
}

impl<M, G> BareCall<M, G> {
    /// The call's plan.
    pub fn plan(&self) -> &Plan<M, G>
        ensures { result.now ≡ self.now.plan }
    {
        &*self.plan
    }

    /// The call's number.
    pub fn number(&self) -> u32
        ensures { result ≡ self.now.call }
    {
        self.call
    }

    /// How many attempts its leaves have issued.
    pub fn attempts(&self) -> u32
        ensures { result ≡ attempts self.now.state }
    {
        self.tree.attempts()
    }

    /// How the call ended, or none while it has no end.
    pub fn end(&self) -> Option<&End>
        ensures { option_map (λ e. e.now) result ≡ end_of self.now.state }
    {
        self.tree.end()
    }
}

impl<M: Drop, G: Drop> BareCall<M, G> {
    /// How the call ended, taken out of it.
    pub fn into_end(self) -> Option<End>
        ensures { result ≡ end_of self.state }
    {
        self.tree.into_end()
    }
}
