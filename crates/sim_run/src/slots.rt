//! What an event and a join do to the slots of the pool.

ghost use Rattle.std.specs.Prelude.{◌≡◌, ◌-◌, ◌^◌, ◌<◌, ◌≤◌, length, Some, IfOk, OnOk};
ghost use Rattle.std.specs.Option.{option_map};
ghost use Rattle.id_pool.specs.Ids as ids;
ghost use Rattle.id_pool.specs.Answers.{value_says};
ghost use Rattle.id_pool.specs.Ranges.{changed, created, look, lowest};
ghost use Rattle.rpc_model.specs.Marks.{Begun, finish as finish_of};
ghost use Rattle.sim_run.specs.Acting.{turned_by, joined_by};
ghost use Rattle.sim_run.specs.Slots.{IsFirst, IsEarly, IsJoinedEarly, visit, touch, turned, meant, brought, brought_wires};
ghost use Rattle.sim_run.specs.Slots.{acts_found, acts_by, reply_event, loss_event, finished, finished_of, join, join_says};

use crate::acting::{finish_call, turn_call};
use crate::open_call::OpenCall;
use crate::timer::Timer;
use crate::turn::Turn;
use crate::wire::{Reply, Wire};
use id_pool::{Collect, Lock, Pool, Refused};
use rpc_base::NoMemory;
use rpc_model::{Event, Meaning, Told};

/// A call takes the lowest vacant slot, with ids for so many versions; its first id. None where no slot is vacant.
pub(crate) fn take_slot(pool: &mut Pool<OpenCall>, width: u32, call: OpenCall) -> Option<u64>
    requires some { 1 ≤ width }
    requires most { width ≤ 1024 }
    ensures first { result ≡ option_map (λ p. ids.make_id p.0 p.1) (lowest pool.old) }
    ensures after { pool.new ≡ created width call pool.old }
{
    match pool.create(width, call) {
        Ok(first) => Some(first),
        Err(Refused::Full(_)) => None,
        Err(Refused::BadRange(_)) => unreachable!(),
    }
}

/// Brings what comes to the call whose range holds the id. The range is locked meanwhile; the requests that the call sends
/// go out, and the marks that it sets are added. Where the id is gone nothing happens.
pub(crate) fn bring(
    pool: &mut Pool<OpenCall>,
    wires: &mut Vec<Wire>,
    marks: &mut Timer,
    id: u64,
    turn: Turn,
) -> Result<(), NoMemory>
    requires few { length pool.old ≤ 4096 }
    requires early { IsEarly turn }
    ensures after { OnOk result (pool.new ≡ changed (visit (turned turn) (ids.version_of id)) id pool.old) }
    ensures acts { OnOk result ((wires.new.items, marks.new) ≡ acts_by id (turned_by turn) (look id pool.old) wires.old.items marks.old) }
{
    let Lock::Yes(offset) = pool.lock(id) else {
        return Ok(());
    };
    let first = id.saturating_sub(u64::from(offset));
    take(pool, wires, marks, id, first, turn)?;
    pool.unlock(id);
    Ok(())
}

/// What the version of an id is of, in the plan of the call that the id finds.
fn meaning(pool: &Pool<OpenCall>, id: u64) -> Option<Meaning>
    ensures { result ≡ meant (look id pool.now) }
{
    let offset = pool.find(id)?;
    pool.peek(id)?.plan().meaning_of(offset)
}

/// Brings a reply to the attempt whose id it names, by that id alone. Where the id is gone, or is a node's own, nothing
/// happens.
pub(crate) fn deliver(
    pool: &mut Pool<OpenCall>,
    wires: &mut Vec<Wire>,
    marks: &mut Timer,
    reply: Reply,
    moment: u64,
) -> Result<(), NoMemory>
    requires few { length pool.old ≤ 4096 }
    requires early { moment < 2 ^ 60 }
    ensures after { OnOk result (pool.new ≡ brought (reply_event reply) moment reply.id pool.old) }
    ensures acts { OnOk result ((wires.new.items, marks.new) ≡ brought_wires (reply_event reply) moment reply.id pool.old wires.old.items marks.old) }
{
    let Some(Meaning::Attempt(node, attempt)) = meaning(pool, reply.id) else {
        return Ok(());
    };
    let Reply { id, code, text } = reply;
    let event = Event::Reply {
        node,
        attempt,
        code,
        text,
    };
    bring(pool, wires, marks, id, Turn::Event(event, moment))
}

/// Tells the attempt whose id this is that it was lost. Where the id is gone, or is a node's own, nothing happens.
pub(crate) fn lose(
    pool: &mut Pool<OpenCall>,
    wires: &mut Vec<Wire>,
    marks: &mut Timer,
    id: u64,
    code: u32,
    moment: u64,
) -> Result<(), NoMemory>
    requires few { length pool.old ≤ 4096 }
    requires early { moment < 2 ^ 60 }
    ensures after { OnOk result (pool.new ≡ brought (loss_event code) moment id pool.old) }
    ensures acts { OnOk result ((wires.new.items, marks.new) ≡ brought_wires (loss_event code) moment id pool.old wires.old.items marks.old) }
{
    let Some(Meaning::Attempt(node, attempt)) = meaning(pool, id) else {
        return Ok(());
    };
    let event = Event::Lost {
        node,
        attempt,
        code,
    };
    bring(pool, wires, marks, id, Turn::Event(event, moment))
}

/// Gives what comes to the call whose range holds the id. The first id is the call's own.
fn take(
    pool: &mut Pool<OpenCall>,
    wires: &mut Vec<Wire>,
    marks: &mut Timer,
    id: u64,
    first: u64,
    turn: Turn,
) -> Result<(), NoMemory>
    requires low { first < 2 ^ 63 }
    requires early { IsEarly turn }
    ensures after { OnOk result (pool.new ≡ changed (touch (turned turn) (ids.version_of id)) id pool.old) }
    ensures acts { OnOk result ((wires.new.items, marks.new) ≡ acts_found first (turned_by turn) (value_says (look id pool.old)) wires.old.items marks.old) }
{
    let Some(call) = pool.value(id) else {
        return Ok(());
    };
    turn_call(call, wires, marks, first, turn)?;
    Ok(())
}

/// Joins the call of this first id: the moment reached, and what the join tells. Requests that it sends meanwhile go out.
/// A call whose end it tells leaves its slot. None where the id is gone.
pub(crate) fn join(
    pool: &mut Pool<OpenCall>,
    wires: &mut Vec<Wire>,
    marks: &mut Timer,
    first: u64,
    reached: u64,
) -> Result<Option<(u64, Told)>, NoMemory>
    requires few { length pool.old ≤ 4096 }
    requires first { IsFirst first pool.old }
    requires early { IsJoinedEarly reached (value_says (look first pool.old)) }
    ensures says { IfOk result (λ said. said ≡ join_says reached (look first pool.old)) }
    ensures after { OnOk result (pool.new ≡ changed (join reached (ids.version_of first)) first pool.old) }
    ensures acts { OnOk result ((wires.new.items, marks.new) ≡ acts_by first (joined_by reached) (look first pool.old) wires.old.items marks.old) }
{
    let Lock::Yes(offset) = pool.lock(first) else {
        return Ok(None);
    };
    let own = first.saturating_sub(u64::from(offset));
    let done = finish(pool, wires, marks, first, own, reached)?;
    let Some(finished) = done else {
        return Ok(None);
    };
    if !finished.over {
        pool.unlock(first);
        return Ok(Some((finished.reached, Told::Unended(finished.call))));
    }
    pool.destroy(first);
    let Collect::Value(call) = pool.collect(first) else {
        return Ok(None);
    };
    Ok(Some((finished.reached, call.into_told())))
}

/// How a call stands once a join took its marks.
#[derive(Clone, Copy)]
struct Finished {
    call: u32,
    reached: u64,
    over: bool,
}

/// Takes the marks of the call whose range holds the id until it has an end or none is left. The first id is the call's
/// own.
fn finish(
    pool: &mut Pool<OpenCall>,
    wires: &mut Vec<Wire>,
    marks: &mut Timer,
    id: u64,
    first: u64,
    reached: u64,
) -> Result<Option<Finished>, NoMemory>
    requires low { first < 2 ^ 63 }
    requires early { IsJoinedEarly reached (value_says (look id pool.old)) }
    ensures says { IfOk result (λ said. said ≡ option_map (finished_of reached) (value_says (look id pool.old))) }
    ensures after { OnOk result (pool.new ≡ changed (touch (finished reached) (ids.version_of id)) id pool.old) }
    ensures acts { OnOk result ((wires.new.items, marks.new) ≡ acts_found first (joined_by reached) (value_says (look id pool.old)) wires.old.items marks.old) }
{
    let Some(call) = pool.value(id) else {
        return Ok(None);
    };
    let reached = finish_call(call, wires, marks, first, reached)?;
    Ok(Some(Finished {
        call: call.number(),
        reached,
        over: call.is_over(),
    }))
}
