//! What is found of a plan without building it, from the channels: how large it is, and what its leaves may issue.

ghost use Rattle.std.specs.Prelude.{◌≡◌, ◌+◌, ◌*◌, ◌%◌, ◌<◌, ◌≤◌, ◌^◌, length, None};
ghost use Rattle.rpc_model.specs.Plan.{tries};
ghost use Rattle.chan_tree.specs.Sound.{AreBefore, AreSound};
ghost use Rattle.chan_tree.specs.Measures.{numbers_of};
ghost use Rattle.chan_tree.specs.Sizes.{IsSize, IsSizeOf, IsSizeOver, nodes_at, node_behind, part_retry, retry_in, retry_among};

use crate::measuring::try_at;
use rpc_model::{Chan, SelChan, Sub};

/// How many nodes a plan has, and how many attempts its leaves may issue together.
#[derive(Clone, Copy, Debug, PartialEq, Eq)]
pub struct Size {
    pub nodes: u32,
    pub attempts: u32,
}

/// The size where it is no wider than 1,024.
fn narrow(nodes: u64, attempts: u64) -> Option<Size>
    requires nodes { nodes < 2 ^ 63 }
    requires attempts { attempts < 2 ^ 63 }
    ensures { IsSize result nodes attempts }
{
    if nodes + attempts > 1024 {
        return None;
    }
    Some(Size {
        nodes: nodes as u32,
        attempts: attempts as u32,
    })
}

impl Size {
    /// Both together, where that is no wider than 1,024.
    fn and(self, other: Size) -> Option<Size>
        requires here { self.nodes + self.attempts ≤ 1024 }
        requires other { other.nodes + other.attempts ≤ 1024 }
        ensures { IsSize result (self.nodes + other.nodes) (self.attempts + other.attempts) }
    {
        narrow(
            u64::from(self.nodes) + u64::from(other.nodes),
            u64::from(self.attempts) + u64::from(other.attempts),
        )
    }
}

/// The size of the plan of the channel of this number for a call of this number, or none where it is wider than 1,024.
/// The walk ends at the first node that is too much, so that it takes a time that doesn't grow with the width.
#[cycle(size)]
pub fn size_of<M, G>(chans: &[Chan<M, G>], number: u32, call: u32) -> Option<Size>
    requires sound { AreSound 0 chans.now }
    requires there { number < length chans.now }
    ensures { IsSizeOf chans.now number call result }
{
    match &chans[number as usize] {
        Chan::Leaf(leaf) => narrow(1, u64::from(leaf.retry) + 1),
        Chan::Par(par) => size_of_subs(chans, number, par.subs.list(), call),
        Chan::Sel(sel) => size_of_tries(chans, number, sel, call),
        Chan::Part(part) => size_of_parts(part.parts, part.retry),
    }
}

/// The size of a node over so many leaves, each with so many attempts after the first.
#[tactic(auto, using(crate::proofs::Sizes::counted_far))]
fn size_of_parts(parts: u32, retry: u32) -> Option<Size>
    ensures { IsSize result (parts + 1) (parts * (retry + 1)) }
{
    let attempts = u64::from(parts).saturating_mul(u64::from(retry) + 1);
    narrow(u64::from(parts) + 1, attempts.min(1025))
}

/// The size of a node over the subs of the channel of this number.
#[cycle(size)]
fn size_of_subs<M, G>(
    chans: &[Chan<M, G>],
    number: u32,
    subs: &[Sub<M, G>],
    call: u32,
) -> Option<Size>
    requires sound { AreSound 0 chans.now }
    requires there { number < length chans.now }
    requires before { AreBefore number (numbers_of subs.now) }
    ensures { IsSizeOver chans.now (numbers_of subs.now) call result }
{
    let mut size = Size {
        nodes: 1,
        attempts: 0,
    };
    for sub in subs {
        let Some(more) = size_of(chans, sub.chan, call) else {
            return None;
        };
        let Some(sum) = size.and(more) else {
            return None;
        };
        size = sum;
    }
    Some(size)
}

/// The size of a node over the tries of the selective channel of this number.
#[cycle(size)]
fn size_of_tries<M, G>(chans: &[Chan<M, G>], number: u32, sel: &SelChan, call: u32) -> Option<Size>
    requires sound { AreSound 0 chans.now }
    requires there { number < length chans.now }
    requires some { 1 ≤ length sel.now.subs }
    requires before { AreBefore number sel.now.subs }
    ensures { IsSizeOver chans.now (tries sel.now call) call result }
{
    let subs = sel.subs.list();
    let count = u64::from(sel.retry) + 1;
    let mut size = Size {
        nodes: 1,
        attempts: 0,
    };
    let mut at = 0u64;
    while at < count {
        let Some(more) = size_of(chans, try_at(subs, call, at), call) else {
            return None;
        };
        let Some(sum) = size.and(more) else {
            return None;
        };
        size = sum;
        at += 1;
    }
    Some(size)
}

/// How many attempts may follow the first at the leaf of the number `wanted` in the plan of the channel of this number for
/// a call of this number, where the root has the number `node`. Where there is none, `node` is the number behind the plan.
#[cycle(retry)]
pub fn retry_at<M, G>(
    chans: &[Chan<M, G>],
    number: u32,
    call: u32,
    node: &mut u32,
    wanted: u32,
) -> Option<u32>
    requires sound { AreSound 0 chans.now }
    requires there { number < length chans.now }
    requires few { node.old + nodes_at chans.now call number ≤ 2 ^ 31 }
    ensures retry { result ≡ retry_in chans.now number call node.old wanted }
    ensures behind { result ≡ None → node.new ≡ node.old + nodes_at chans.now call number }
{
    match &chans[number as usize] {
        Chan::Leaf(leaf) => {
            let here = *node == wanted;
            *node += 1;
            if here { Some(leaf.retry) } else { None }
        }
        Chan::Par(par) => {
            *node += 1;
            retry_among_subs(chans, number, par.subs.list(), call, node, wanted)
        }
        Chan::Sel(sel) => {
            *node += 1;
            retry_among_tries(chans, number, sel, call, node, wanted)
        }
        Chan::Part(part) => {
            let first = *node + 1;
            *node = first + part.parts;
            retry_of_part(first, part.parts, part.retry, wanted)
        }
    }
}

/// How many attempts may follow the first at one of so many leaves from the number `first` on.
fn retry_of_part(first: u32, parts: u32, retry: u32, wanted: u32) -> Option<u32>
    requires { first + parts < 2 ^ 32 }
    ensures { result ≡ part_retry first parts retry wanted }
{
    let is_part = first <= wanted && wanted < first + parts;
    if is_part { Some(retry) } else { None }
}

/// The same over the subs of the channel of this number.
#[cycle(retry)]
fn retry_among_subs<M, G>(
    chans: &[Chan<M, G>],
    number: u32,
    subs: &[Sub<M, G>],
    call: u32,
    node: &mut u32,
    wanted: u32,
) -> Option<u32>
    requires sound { AreSound 0 chans.now }
    requires there { number < length chans.now }
    requires before { AreBefore number (numbers_of subs.now) }
    requires few { node_behind chans.now (numbers_of subs.now) call node.old ≤ 2 ^ 31 }
    ensures retry { result ≡ retry_among chans.now (numbers_of subs.now) call node.old wanted }
    ensures behind { result ≡ None → node.new ≡ node_behind chans.now (numbers_of subs.now) call node.old }
{
    let mut next = *node;
    for sub in subs {
        if let Chan::Leaf(leaf) = &chans[sub.chan as usize] {
            // A plain channel is one node.
            if next == wanted {
                return Some(leaf.retry);
            }
            next += 1;
            continue;
        }
        *node = next;
        let found = retry_at(chans, sub.chan, call, node, wanted);
        if found.is_some() {
            return found;
        }
        next = *node;
    }
    *node = next;
    None
}

/// The same over the tries of the selective channel of this number.
#[cycle(retry)]
fn retry_among_tries<M, G>(
    chans: &[Chan<M, G>],
    number: u32,
    sel: &SelChan,
    call: u32,
    node: &mut u32,
    wanted: u32,
) -> Option<u32>
    requires sound { AreSound 0 chans.now }
    requires there { number < length chans.now }
    requires some { 1 ≤ length sel.now.subs }
    requires before { AreBefore number sel.now.subs }
    requires few { node_behind chans.now (tries sel.now call) call node.old ≤ 2 ^ 31 }
    ensures retry { result ≡ retry_among chans.now (tries sel.now call) call node.old wanted }
    ensures behind { result ≡ None → node.new ≡ node_behind chans.now (tries sel.now call) call node.old }
{
    let subs = sel.subs.list();
    let count = u64::from(sel.retry) + 1;
    let mut next = *node;
    let mut at = 0u64;
    // The place of the try's sub: the number (call + try), counted round the subs.
    let mut place = call as usize % subs.len();
    while at < count {
        let chan = subs[place];
        place = place_behind(place, subs.len());
        at += 1;
        if let Chan::Leaf(leaf) = &chans[chan as usize] {
            // A plain channel is one node.
            if next == wanted {
                return Some(leaf.retry);
            }
            next += 1;
            continue;
        }
        *node = next;
        let found = retry_at(chans, chan, call, node, wanted);
        if found.is_some() {
            return found;
        }
        next = *node;
    }
    *node = next;
    None
}

/// The place behind this one, counted round so many places.
#[tactic(auto, using(crate::proofs::Turns::round_next, crate::proofs::Turns::round_end))]
fn place_behind(place: usize, count: usize) -> usize
    requires { place < count }
    ensures { result ≡ (place + 1) % count }
{
    if place + 1 < count { place + 1 } else { 0 }
}
