//! A call that acts: what comes to it, what it sends on the wires, and the marks that it sets.

ghost use Rattle.std.specs.Prelude.{◌≡◌, ◌^◌, ◌<◌, [], ◌∷◌, ◌++◌, length, MatchOption, IfOk, OnOk};
ghost use Rattle.rpc_model.specs.Marks.{finish as finish_of};
ghost use Rattle.sim_run.specs.Acting.{acting, acted, woven, finished_by, turned_by};
ghost use Rattle.sim_run.specs.Marked.{marked};
ghost use Rattle.sim_run.specs.Sends.{posted, posted_one};
ghost use Rattle.sim_run.specs.Slots.{IsEarly};

use crate::marking::set_marks;
use crate::open_call::{OpenCall, mark_event};
use crate::timer::Timer;
use crate::turn::Turn;
use crate::wire::Wire;
use crate::wires::send;
use call_tree::{Effects, Spare};
use chan_tree::Plan;
use rpc_base::NoMemory;
use rpc_model::{Event, MapKind, MergeKind, Send};

/// Gives a call what comes to it. The first id is the call's own.
pub(crate) fn turn_call(
    call: &mut OpenCall,
    wires: &mut Vec<Wire>,
    marks: &mut Timer,
    first: u64,
    turn: Turn,
) -> Result<(), NoMemory>
    requires low { first < 2 ^ 63 }
    requires early { IsEarly turn }
    ensures { OnOk result (acting call.new wires.new.items marks.new ≡ turned_by turn first (acting call.old wires.old.items marks.old)) }
{
    match turn {
        Turn::Event(event, moment) => act(call, wires, marks, first, event, moment),
        Turn::Due(moment) => weave(call, wires, marks, first, moment),
    }
}

/// An event comes to a call: the requests that it sends go out, and the marks that it sets are added.
fn act(
    call: &mut OpenCall,
    wires: &mut Vec<Wire>,
    marks: &mut Timer,
    first: u64,
    event: Event,
    moment: u64,
) -> Result<(), NoMemory>
    requires low { first < 2 ^ 63 }
    requires early { moment < 2 ^ 60 }
    ensures { OnOk result (acting call.new wires.new.items marks.new ≡ acted first event moment (acting call.old wires.old.items marks.old)) }
{
    let effects = call.apply(event, moment, marks.take_spare())?;
    go_out(wires, marks, call.plan(), call.number(), first, effects)
}

/// What a step of a call with this plan made it do: the requests go out, and the marks are set. The lists' room is kept.
pub(crate) fn go_out(
    wires: &mut Vec<Wire>,
    marks: &mut Timer,
    plan: &Plan<MapKind, MergeKind>,
    call: u32,
    first: u64,
    effects: Effects,
) -> Result<(), NoMemory>
    requires { first < 2 ^ 63 }
    ensures sent { OnOk result (wires.new.items ≡ posted first plan.now call effects.sends wires.old.items) }
    ensures marks { OnOk result (marks.new ≡ marked first effects.marks marks.old) }
{
    set_marks(marks, first, effects.marks.list())?;
    let sends = post(wires, plan, call, first, effects.sends.into_vec())?;
    marks.keep_spare(Spare {
        sends,
        marks: effects.marks.into_vec(),
    });
    Ok(())
}

/// A call takes its marks that are due.
fn weave(
    call: &mut OpenCall,
    wires: &mut Vec<Wire>,
    marks: &mut Timer,
    first: u64,
    moment: u64,
) -> Result<(), NoMemory>
    requires low { first < 2 ^ 63 }
    requires early { moment < 2 ^ 60 }
    ensures { OnOk result (acting call.new wires.new.items marks.new ≡ woven first moment (acting call.old wires.old.items marks.old)) }
{
    'taken: while let Some(mark) = call.take_due(moment) {
        act(call, wires, marks, first, mark_event(mark), mark.moment)?;
    }
    Ok(())
}

/// A call takes its marks until it has an end or none is left; the moment reached.
pub(crate) fn finish_call(
    call: &mut OpenCall,
    wires: &mut Vec<Wire>,
    marks: &mut Timer,
    first: u64,
    reached: u64,
) -> Result<u64, NoMemory>
    requires low { first < 2 ^ 63 }
    requires early { (finish_of reached call.old).0 < 2 ^ 60 }
    ensures moment { IfOk result (λ moment. moment ≡ (finished_by first reached (acting call.old wires.old.items marks.old)).0) }
    ensures call { OnOk result (acting call.new wires.new.items marks.new ≡ (finished_by first reached (acting call.old wires.old.items marks.old)).1) }
{
    let mut reached = reached;
    'taken: while let Some(mark) = call.take_open() {
        reached = reached.max(mark.moment);
        act(call, wires, marks, first, mark_event(mark), mark.moment)?;
    }
    Ok(reached)
}

/// Sends the requests of a call with this plan: each under the id of its attempt, to its own server. The list comes back
/// empty.
fn post(
    wires: &mut Vec<Wire>,
    plan: &Plan<MapKind, MergeKind>,
    call: u32,
    first: u64,
    mut sends: Vec<Send>,
) -> Result<Vec<Send>, NoMemory>
    requires { first < 2 ^ 63 }
    ensures { OnOk result (wires.new.items ≡ posted first plan.now call sends.items wires.old.items) }
{
    sends.reverse();
    'requests: while let Some(request) = last_of(&mut sends) {
        post_one(wires, plan, call, first, request)?;
    }
    Ok(sends)
}

/// The last request, taken out, if there is one.
fn last_of(sends: &mut Vec<Send>) -> Option<Send>
    ensures last { MatchOption result (sends.old.items ≡ []) (λ last. sends.old.items ≡ sends.new.items ++ last ∷ []) }
    ensures fewer { MatchOption result (sends.new.items ≡ []) (λ _. length sends.new.items < length sends.old.items) }
{
    sends.pop()
}

/// Sends a request under the id of its attempt, to its server.
fn post_one(
    wires: &mut Vec<Wire>,
    plan: &Plan<MapKind, MergeKind>,
    call: u32,
    first: u64,
    request: Send,
) -> Result<(), NoMemory>
    requires { first < 2 ^ 63 }
    ensures { OnOk result (wires.new.items ≡ posted_one first plan.now call request wires.old.items) }
{
    let Some(offset) = plan.offset_of_attempt(request.node, request.attempt) else {
        return Ok(());
    };
    let id = first + u64::from(offset);
    send(wires, request.server, id, call, request.payload)
}
