ghost use Rattle.std.specs.Prelude.{◌≡◌, ℕ, ◌^◌, ◌<◌, IfOk, OnOk, OnErr};
ghost use Rattle.std.specs.Option.{option_map};
ghost use Rattle.std.specs.Arc.{arc_value};
ghost use Rattle.rpc_model.specs.State.{end_of, attempts};
ghost use Rattle.rpc_model.specs.Machine.{start, step};
ghost use Rattle.call_tree.specs.Running.{kinds_of, entry_of, begun_by, stepped_by, IsEffects};

use crate::bare_call::BareCall;
use crate::effects::Effects;
use crate::happening::event_copy;
use crate::outbox::Spare;
use chan_tree::Plan;
use rpc_base::{Bytes, NoMemory};
use rpc_model::{End, Entry, Event, Mapper, Merger, Origin};
use std::alloc::Global;
use std::marker::Model;
use std::sync::Arc;

/// A call, with the events that were applied to it.
///
/// Its state is the one that the plain machine has after the call's start and the events of its log, each at its moment.
#[derive(Drop)]
pub struct Call<M, G> {
    bare: BareCall<M, G>,
    log: Vec<Entry>,
}

impl<M, G> Model for Call<M, G> {
    ghost use Rattle.call_tree.specs.Running.{Running};

    ghost Value = { Running M G };

    ghost use Rattle.std.specs.Coded.{codes};
    ghost use Rattle.chan_tree.specs.Code.{plan_code};
    ghost use Rattle.call_tree.specs.Code.{state_code};

    ghost coded = { Prim.hlevel (codes, plan_code {M = M} {G = G} (Prim.hlevel (codes)), state_code {M = M} {G = G} (Prim.hlevel (codes, plan_code {M = M} {G = G} (Prim.hlevel (codes))))) };

    ghost view = { λ c. record { plan = c.bare.plan; call = c.bare.call; state = c.bare.state; log = c.log.items } };
}

impl<M: Mapper + Copy, G: Merger + Copy> Call<M, G> {
    /// Begins a call of this number with this request, at a moment in milliseconds.
    ///
    /// It answers the call and what goes out at once: the first requests, and the marks of deadlines and backup requests.
    /// A call may have an end already, as where a mapper refuses its request. What a start does is in brpc's documents on
    /// the client and on combination channels. After want of memory nothing is left behind.
    pub fn begin(
        alloc: Global,
        plan: Arc<Plan<M, G>>,
        call: u32,
        request: Bytes,
        moment: u64,
    ) -> Result<(Call<M, G>, Effects), NoMemory>
        requires early { moment < 2 ^ 60 }
        ensures begun { IfOk result (λ r. let run = start (kinds_of M.answer G.answer) (arc_value plan) call request moment in (r.0 ≡ begun_by (arc_value plan) call run) × IsEffects run r.1) }
    {
        let (bare, effects) = BareCall::begin(
            alloc,
            plan,
            call,
            request,
            moment,
            Spare::new(alloc),
        )?;
        let begun = Call {
            bare,
            log: Vec::new(alloc),
        };
        Ok((begun, effects))
    }

    /// Applies an event at a moment in milliseconds, and puts it last in the log with where it came from.
    ///
    /// It answers what this made the call do. An event that names no node or no attempt of the plan, or one that has an end
    /// or was replaced, does nothing but stand in the log. After want of memory the call is as it was before.
    pub fn apply(
        &mut self,
        alloc: Global,
        event: Event,
        moment: u64,
        from: Origin,
    ) -> Result<Effects, NoMemory>
        requires early { moment < 2 ^ 60 }
        ensures applied { OnOk result (self.new ≡ stepped_by self.old (step (kinds_of M.answer G.answer) self.old.call self.old.state event moment) (entry_of event moment from)) }
        ensures effects { IfOk result (λ effects. IsEffects (step (kinds_of M.answer G.answer) self.old.call self.old.state event moment) effects) }
        ensures kept { OnErr result (self.new ≡ self.old) }
    {
        self.log.reserve(1)?;
        let again = event_copy(alloc, &event)?;
        let effects = self.bare.apply(alloc, again, moment, Spare::new(alloc))?;
        self.log.push_reserved(Entry {
            event,
            moment,
            from,
        });
        Ok(effects)
    }
}

impl<M, G> Call<M, G> {
    /// The call's plan.
    pub fn plan(&self) -> &Plan<M, G>
        ensures { result.now ≡ self.now.plan }
    {
        self.bare.plan()
    }

    /// The call's number.
    pub fn number(&self) -> u32
        ensures { result ≡ self.now.call }
    {
        self.bare.number()
    }

    /// How many attempts its leaves have issued.
    pub fn attempts(&self) -> u32
        ensures { result ≡ attempts self.now.state }
    {
        self.bare.attempts()
    }

    /// The events that were applied to it, in their order.
    pub fn log(&self) -> &[Entry]
        ensures { result.now ≡ self.now.log }
    {
        self.log.as_slice()
    }

    /// How the call ended, or none while it has no end.
    pub fn end(&self) -> Option<&End>
        ensures { option_map (λ e. e.now) result ≡ end_of self.now.state }
    {
        self.bare.end()
    }
}

impl<M: Drop, G: Drop> Call<M, G> {
    /// How the call ended, taken out of it.
    pub fn into_end(self) -> Option<End>
        ensures { result ≡ end_of self.state }
    {
        self.bare.into_end()
    }
}
