//! What is known of a channel before its plan is built.

ghost use Rattle.std.specs.Prelude.{◌≡◌, ℕ, ◌+◌, ◌*◌, ◌<◌, ◌≤◌, min, map, length, Option, None, Some, is_some, IfOk};
ghost use Rattle.rpc_model.specs.Plan.{servers_of, tries, tries_from, subs_of};
ghost use Rattle.rpc_model.specs.Faults as faults;
ghost use Rattle.chan_tree.specs.Counting.{total, chan_width};
ghost use Rattle.chan_tree.specs.Sound.{IsSound};
ghost use Rattle.chan_tree.specs.Measures.{depth_in, missing_in, width_in, numbers_of};

use rpc_model::{Chan, PartChan, SelChan, Sub, Tag};

/// The greatest depth that is counted: one more than a channel may have.
pub const DEPTH_END: u32 = 9;

/// The greatest width that is counted: one more than a range of ids may have.
pub const WIDTH_END: u32 = 1025;

/// How deep a channel nests, which part of it no server has, and how wide its plan is. Depth and width are counted up to
/// their ends.
#[derive(Clone, Copy, Debug, PartialEq, Eq)]
pub struct Measure {
    pub depth: u32,
    pub missing: Option<u32>,
    pub width: u32,
}

/// The measure of a channel for a call of this number, from those of the channels before it.
pub fn measure_chan<M, G>(chan: &Chan<M, G>, call: u32, before: &[Measure]) -> Measure
    requires sound { IsSound (length before.now) chan.now }
    ensures depth { result.depth ≡ min 9 (faults.chan_depth (depth_in before.now) (Some chan.now)) }
    ensures missing { result.missing ≡ faults.chan_missing (missing_in before.now) call (Some chan.now) }
    ensures width { result.width ≡ min 1025 (chan_width (width_in before.now) call (Some chan.now)) }
{
    Measure {
        depth: depth(chan, before),
        missing: missing(chan, call, before),
        width: width(chan, call, before),
    }
}

fn depth<M, G>(chan: &Chan<M, G>, before: &[Measure]) -> u32
    ensures { result ≡ min 9 (faults.chan_depth (depth_in before.now) (Some chan.now)) }
{
    match chan {
        Chan::Leaf(_) => 1,
        Chan::Par(par) => deepest_sub(par.subs.list(), before)
            .saturating_add(1)
            .min(9),
        Chan::Sel(sel) => deepest(sel.subs.list(), before).saturating_add(1).min(9),
        Chan::Part(_) => 2,
    }
}

fn depth_at(before: &[Measure], number: u32) -> u32
    ensures { result ≡ depth_in before.now number }
{
    match before.get(number as usize) {
        None => 0,
        Some(measure) => measure.depth,
    }
}

fn deepest_sub<M, G>(subs: &[Sub<M, G>], before: &[Measure]) -> u32
    ensures { result ≡ faults.deepest (depth_in before.now) (numbers_of subs.now) }
{
    let mut deepest = 0;
    for sub in subs {
        deepest = deepest.max(depth_at(before, sub.chan));
    }
    deepest
}

fn deepest(subs: &[u32], before: &[Measure]) -> u32
    ensures { result ≡ faults.deepest (depth_in before.now) subs.now }
{
    let mut deepest = 0;
    for sub in subs {
        deepest = deepest.max(depth_at(before, *sub));
    }
    deepest
}

fn missing<M, G>(chan: &Chan<M, G>, call: u32, before: &[Measure]) -> Option<u32>
    requires sound { IsSound (length before.now) chan.now }
    ensures { result ≡ faults.chan_missing (missing_in before.now) call (Some chan.now) }
{
    match chan {
        Chan::Leaf(_) => None,
        Chan::Par(par) => missing_sub(par.subs.list(), before),
        Chan::Sel(sel) => missing_try(sel, call, before),
        Chan::Part(part) => missing_part(part),
    }
}

fn missing_at(before: &[Measure], number: u32) -> Option<u32>
    ensures { result ≡ missing_in before.now number }
{
    match before.get(number as usize) {
        None => None,
        Some(measure) => measure.missing,
    }
}

fn missing_sub<M, G>(subs: &[Sub<M, G>], before: &[Measure]) -> Option<u32>
    ensures { result ≡ faults.first_missing (missing_in before.now) (numbers_of subs.now) }
{
    for sub in subs {
        let part = missing_at(before, sub.chan);
        if part.is_some() {
            return part;
        }
    }
    None
}

/// The first missing part among the tries of a selective channel.
#[tactic(auto, using(crate::proofs::Turns::tries_next, crate::proofs::Turns::tries_end))]
fn missing_try(sel: &SelChan, call: u32, before: &[Measure]) -> Option<u32>
    requires some { 1 ≤ length sel.now.subs }
    ensures { result ≡ faults.first_missing (missing_in before.now) (tries sel.now call) }
{
    let subs = sel.subs.list();
    let count = u64::from(sel.retry) + 1;
    let mut at = 0u64;
    while at < count {
        let part = missing_at(before, try_at(subs, call, at));
        if part.is_some() {
            return part;
        }
        at += 1;
    }
    None
}

/// The sub of this try: the number (call + try), counted round the subs.
pub fn try_at(subs: &[u32], call: u32, at: u64) -> u32
    requires some { 1 ≤ length subs.now }
    requires few { at < 2 ^ 33 }
    ensures { result ≡ slice_index subs.now ((call + at) % length subs.now) }
{
    let at = (u64::from(call) + at) % subs.len() as u64;
    subs[at as usize]
}

ghost use Rattle.std.specs.Prelude.{◌%◌, ◌^◌, slice_index};

/// The first part that no server has.
#[tactic(auto, using(crate::proofs::Turns::parts_next, crate::proofs::Turns::parts_end))]
fn missing_part<M, G>(chan: &PartChan<M, G>) -> Option<u32>
    ensures { result ≡ faults.missing_from chan.now 0 chan.now.parts }
{
    let mut part = 0;
    while part < chan.parts {
        if !has_server(chan.tags.list(), chan.parts, part) {
            return Some(part);
        }
        part += 1;
    }
    None
}

/// Whether a server has this part of so many.
fn has_server(tags: &[Tag], parts: u32, part: u32) -> bool
    ensures { result ≡ is_some_server (servers_of tags.now parts part) }
{
    for tag in tags {
        if tag.part == part && tag.of == parts {
            return true;
        }
    }
    false
}

ghost use Rattle.chan_tree.specs.Measures.{is_some_server};

fn width<M, G>(chan: &Chan<M, G>, call: u32, before: &[Measure]) -> u32
    requires sound { IsSound (length before.now) chan.now }
    ensures { result ≡ min 1025 (chan_width (width_in before.now) call (Some chan.now)) }
{
    match chan {
        Chan::Leaf(leaf) => (u64::from(leaf.retry) + 2).min(1025) as u32,
        Chan::Par(par) => 1 + width_subs(par.subs.list(), before),
        Chan::Sel(sel) => 1 + width_tries(sel, call, before),
        Chan::Part(part) => {
            let each = u64::from(part.retry) + 2;
            1 + u64::from(part.parts).saturating_mul(each).min(1024) as u32
        }
    }
}

fn width_at(before: &[Measure], number: u32) -> u32
    ensures { result ≡ width_in before.now number }
{
    match before.get(number as usize) {
        None => 0,
        Some(measure) => measure.width,
    }
}

/// The widths of the subs together, counted up to 1,024.
fn width_subs<M, G>(subs: &[Sub<M, G>], before: &[Measure]) -> u32
    ensures { result ≡ min 1024 (total (width_in before.now) (numbers_of subs.now)) }
{
    let mut width = 0u32;
    for sub in subs {
        width = width.saturating_add(width_at(before, sub.chan)).min(1024);
    }
    width
}

/// The widths of the tries together, counted up to 1,024.
#[tactic(auto, using(crate::proofs::Turns::tries_next, crate::proofs::Turns::tries_end))]
fn width_tries(sel: &SelChan, call: u32, before: &[Measure]) -> u32
    requires some { 1 ≤ length sel.now.subs }
    ensures { result ≡ min 1024 (total (width_in before.now) (tries sel.now call)) }
{
    let subs = sel.subs.list();
    let count = u64::from(sel.retry) + 1;
    let mut width = 0u32;
    let mut at = 0u64;
    while at < count {
        if width == 1024 {
            return 1024;
        }
        width = width
            .saturating_add(width_at(before, try_at(subs, call, at)))
            .min(1024);
        at += 1;
    }
    width
}
