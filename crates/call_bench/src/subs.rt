//! Calls on a parallel channel over many subs, each of which answers once.

use call_tree::Call;
use chan_tree::{Plan, are_sound, plan};
use rpc_base::{Bytes, List, NoMemory};
use rpc_model::{Chan, Event, LeafChan, MapKind, MergeKind, Origin, ParChan, Sub};
use std::alloc::Global;
use std::sync::Arc;

/// In which order the subs answer.
#[derive(Clone, Copy, Debug, PartialEq, Eq)]
pub enum Order {
    Rising,
    Falling,
    /// Each 17th, round and round.
    Mixed,
}

/// The order's name.
pub fn turn(order: Order) -> &'static str {
    match order {
        Order::Rising => "rising",
        Order::Falling => "falling",
        Order::Mixed => "mixed",
    }
}

/// The plan of a parallel channel that asks one plain channel so many times. None where it is refused.
pub fn plan_of(
    alloc: Global,
    subs: u32,
) -> Result<Option<Arc<Plan<MapKind, MergeKind>>>, NoMemory> {
    let mut list = Vec::new(alloc);
    for _ in 0..subs {
        list.push(Sub {
            map: MapKind::Same,
            merge: MergeKind::Cat,
            chan: 0,
        })?;
    }
    let mut chans = Vec::new(alloc);
    chans.push(Chan::Leaf(LeafChan {
        servers: List::of(Vec::from_slice(alloc, &[0, 1])?),
        retry: 0,
        backup: None,
        timeout: None,
    }))?;
    chans.push(Chan::Par(ParChan {
        subs: List::of(list),
        fail: 0,
        ok: 0,
        timeout: None,
    }))?;
    if !are_sound(&chans) || chans.len() < 2 {
        return Ok(None);
    }
    match plan(alloc, &chans, 1, 1) {
        Ok(plan) => Ok(Some(Arc::new(alloc, plan)?)),
        Err(_) => Ok(None),
    }
}

/// The sub that answers at this place, counted from 0, among so many, by its node.
fn node_at(order: Order, subs: u32, place: u32) -> u32 {
    if subs == 0 {
        return 0;
    }
    let index = match order {
        Order::Rising => place % subs,
        Order::Falling => subs - 1 - place % subs,
        Order::Mixed => (u64::from(place) * 17 % u64::from(subs)) as u32,
    };
    index.wrapping_add(1)
}

/// A call whose subs all answer with one byte. It tells how many replies it took until it ended.
pub fn answered(
    alloc: Global,
    plan: Arc<Plan<MapKind, MergeKind>>,
    subs: u32,
    order: Order,
) -> Result<u32, NoMemory> {
    let request = Bytes::of(Vec::from_slice(alloc, b"request")?);
    let (mut call, _begun) = Call::begin(alloc, plan, 1, request, 10)?;
    for place in 0..subs {
        let event = Event::Reply {
            node: node_at(order, subs, place),
            attempt: 0,
            code: 0,
            text: Bytes::of(Vec::from_slice(alloc, b"t")?),
        };
        let effects = call.apply(alloc, event, 20, Origin::Mark { place: 0 })?;
        if effects.ended {
            return Ok(place.wrapping_add(1));
        }
    }
    Ok(0)
}
