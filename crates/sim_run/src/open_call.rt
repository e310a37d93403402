//! A call that has begun and was not told.

ghost use Rattle.std.specs.Prelude.{◌≡◌, ◌^◌, ◌<◌, ◌≤◌, ◌∷◌, ◌++◌, take, drop, length, is_some, IfOk, OnOk};
ghost use Rattle.std.specs.Arc.{arc_value};
ghost use Rattle.rpc_model.specs.Kinds.{script_kinds};
ghost use Rattle.rpc_model.specs.Machine.{start, step};
ghost use Rattle.rpc_model.specs.State.{end_of};
ghost use Rattle.rpc_model.specs.Told.{join_end};
ghost use Rattle.rpc_model.specs.Marks.{begin, apply, set_mark, set_all, is_before as before_test, rank as rank_of, mark_event};
ghost use Rattle.call_tree.specs.Running.{IsEffects};
ghost use Rattle.sim_run.specs.Calls.{due_taken, open_taken};

use crate::wait::Wait;
use call_tree::{BareCall, Effects, Spare};
use chan_tree::Plan;
use rpc_base::{Bytes, NoMemory};
use rpc_model::{Event, MapKind, MarkAt, MergeKind, Told};
use smallvec::SmallVec;
use std::alloc::Global;
use std::marker::Model;
use std::sync::Arc;

/// A plain channel sets two marks, a deadline and that of a backup request, and so many take no memory.
type Waiting = SmallVec<Wait, 2>;

/// A call on a channel of any kind, and its marks that weren't taken, in the order in which they come.
#[derive(Drop)]
pub(crate) struct OpenCall {
    alloc: Global,
    call: BareCall<MapKind, MergeKind>,
    waiting: Waiting,
}

impl Model for OpenCall {
    ghost use Rattle.rpc_model.specs.Marks.{Begun};
    ghost use Rattle.sim_run.specs.Calls.{begun_of};

    ghost Value = { Begun };

    ghost use Rattle.std.specs.Coded.{codes};
    ghost use Rattle.chan_tree.specs.Code.{plan_code};
    ghost use Rattle.call_tree.specs.Code.{state_code};
    ghost use Rattle.rpc_model.specs.declared.kinds.MapKind.{MapKind};
    ghost use Rattle.rpc_model.specs.declared.kinds.MergeKind.{MergeKind};

    ghost coded = { Prim.hlevel (
      codes,
      plan_code {M = MapKind} {G = MergeKind} (Prim.hlevel (codes)),
      state_code {M = MapKind} {G = MergeKind} (Prim.hlevel (codes, plan_code {M = MapKind} {G = MergeKind} (Prim.hlevel (codes)))),
    ) };

    ghost view = { λ c. begun_of c.call c.waiting.items };
}

impl OpenCall {
    /// Begins a call. What goes out is put into the room that is given.
    pub(crate) fn begin(
        alloc: Global,
        call: u32,
        plan: Arc<Plan<MapKind, MergeKind>>,
        request: Bytes,
        moment: u64,
        spare: Spare,
    ) -> Result<(OpenCall, Effects), NoMemory>
        requires early { moment < 2 ^ 60 }
        ensures begun { IfOk result (λ r. r.0 ≡ begin call (arc_value plan) request moment) }
        ensures effects { IfOk result (λ r. IsEffects (start script_kinds (arc_value plan) call request moment) r.1) }
    {
        let (call, effects) = BareCall::begin(alloc, plan, call, request, moment, spare)?;
        let mut waiting = SmallVec::new(alloc);
        set_marks(&mut waiting, effects.marks.list())?;
        Ok((
            OpenCall {
                alloc,
                call,
                waiting,
            },
            effects,
        ))
    }

    pub(crate) fn number(&self) -> u32
        ensures { result ≡ self.now.call }
    {
        self.call.number()
    }

    pub(crate) fn plan(&self) -> &Plan<MapKind, MergeKind>
        ensures { result.now ≡ self.now.plan }
    {
        self.call.plan()
    }

    /// Whether it has an end.
    pub(crate) fn is_over(&self) -> bool
        ensures { result ≡ is_some (end_of self.now.state) }
    {
        self.call.end().is_some()
    }

    /// What a join of it tells.
    pub(crate) fn into_told(self) -> Told
        ensures { result ≡ join_end self (end_of self.state) }
    {
        let call = self.call.number();
        let attempts = self.call.attempts();
        match self.call.into_end() {
            None => Told::Unended(call),
            Some(end) => Told::Ended(call, end, attempts),
        }
    }

    /// Applies an event at a moment. What goes out is put into the room that is given.
    pub(crate) fn apply(
        &mut self,
        event: Event,
        moment: u64,
        spare: Spare,
    ) -> Result<Effects, NoMemory>
        requires early { moment < 2 ^ 60 }
        ensures applied { OnOk result (self.new ≡ apply self.old event moment) }
        ensures effects { IfOk result (λ effects. IsEffects (step script_kinds self.old.call self.old.state event moment) effects) }
    {
        let effects = self.call.apply(self.alloc, event, moment, spare)?;
        set_marks(&mut self.waiting, effects.marks.list())?;
        Ok(effects)
    }

    /// Takes out the mark that comes first, where it is due.
    pub(crate) fn take_due(&mut self, moment: u64) -> Option<MarkAt>
        ensures { (result, self.new) ≡ due_taken moment self.old }
    {
        let first = self.waiting.as_slice().first()?.mark();
        if first.moment > moment {
            return None;
        }
        self.waiting.remove(0);
        Some(first)
    }

    /// Takes out the mark that comes first, where the call has no end.
    pub(crate) fn take_open(&mut self) -> Option<MarkAt>
        ensures { (result, self.new) ≡ open_taken self.old }
    {
        if self.is_over() {
            return None;
        }
        let first = self.waiting.as_slice().first()?.mark();
        self.waiting.remove(0);
        Some(first)
    }
}

/// What a mark brings its call.
pub(crate) fn mark_event(mark: MarkAt) -> Event
    ensures { result ≡ mark_event mark.node mark.backup }
{
    if mark.backup {
        Event::Backup { node: mark.node }
    } else {
        Event::Deadline { node: mark.node }
    }
}

/// Sets marks, one after the other.
fn set_marks(waiting: &mut Waiting, marks: &[MarkAt]) -> Result<(), NoMemory>
    ensures { OnOk result (waiting.new.items ≡ set_all marks.now waiting.old.items) }
{
    for mark in marks {
        set_mark(waiting, mark)?;
    }
    Ok(())
}

/// Sets a mark behind those that it doesn't come before.
fn set_mark(waiting: &mut Waiting, mark: &MarkAt) -> Result<(), NoMemory>
    ensures { OnOk result (waiting.new.items ≡ set_mark mark.now waiting.old.items) }
{
    let at = place_of(waiting.as_slice(), *mark);
    waiting.insert(at, Wait::of(*mark))?;
    Ok(())
}

/// How many marks of a list stand before a mark that is set.
fn place_of(waiting: &[Wait], mark: MarkAt) -> usize
    ensures place { set_mark mark waiting.now ≡ take result waiting.now ++ mark ∷ drop result waiting.now }
    ensures within { result ≤ length waiting.now }
{
    let mut at = 0;
    for other in waiting {
        if is_before(mark, other.mark()) {
            return at;
        }
        at += 1;
    }
    at
}

/// Whether a mark comes before another one: by its moment, and at one moment by its node, where the deadline comes first.
fn is_before(mark: MarkAt, other: MarkAt) -> bool
    ensures { result ≡ before_test mark other }
{
    mark.moment < other.moment || (mark.moment == other.moment && rank(mark) < rank(other))
}

fn rank(mark: MarkAt) -> u64
    ensures { result ≡ rank_of mark }
{
    2 * u64::from(mark.node) + u64::from(mark.backup)
}
