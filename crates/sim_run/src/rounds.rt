//! After how many calls the plans of a channel come round again: a selective channel turns over its subs by the call's
//! number.

ghost use Rattle.std.specs.Prelude.{◌≡◌, ◌%◌, get_or, length, IfOk};
ghost use Rattle.rpc_model.specs.Plan.{subs_of};
ghost use Rattle.chan_tree.specs.Measures.{numbers_of};
ghost use Rattle.chan_tree.specs.Sound.{AreSound};
ghost use Rattle.sim_run.specs.Rounds.{ComeRound, IsOver, IsRound};

use rpc_base::NoMemory;
use rpc_model::{Chan, MapKind, MergeKind, Sub};
use std::alloc::Global;

/// The most calls after which the plans of a channel may come round, if they are to be kept.
pub(crate) const MOST: u32 = 16;

/// For each channel a number after which its plans come round: calls whose numbers leave the same rest by it have the same
/// plan. It is 0 where that may take more than `MOST` calls.
pub(crate) fn rounds_of(
    alloc: Global,
    chans: &[Chan<MapKind, MergeKind>],
) -> Result<Vec<u32>, NoMemory>
    requires { AreSound 0 chans.now }
    ensures { IfOk result (λ rounds. ComeRound chans.now rounds.items) }
{
    let mut rounds = Vec::with_capacity(alloc, chans.len())?;
    for chan in chans {
        let round = round_of(rounds.as_slice(), chan);
        rounds.push(round)?;
    }
    Ok(rounds)
}

/// A number after which the plans of a channel come round, from those of the channels before it.
fn round_of(rounds: &[u32], chan: &Chan<MapKind, MergeKind>) -> u32
    ensures { IsRound rounds.now chan.now result }
{
    match chan {
        Chan::Leaf(_) => 1,
        Chan::Par(par) => over_subs(rounds, par.subs.list()),
        Chan::Sel(sel) => over_tries(rounds, sel.subs.list()),
        Chan::Part(_) => 1,
    }
}

/// A common multiple of the numbers of these subs.
fn over_subs(rounds: &[u32], subs: &[Sub<MapKind, MergeKind>]) -> u32
    ensures { IsOver rounds.now (numbers_of subs.now) result }
{
    let mut round = 1;
    for sub in subs {
        round = common(round, round_at(rounds, sub.chan));
    }
    round
}

/// A common multiple of the numbers of these subs and of their count.
fn over_tries(rounds: &[u32], subs: &[u32]) -> u32
    ensures turns { result % length subs.now ≡ 0 }
    ensures subs { IsOver rounds.now subs.now result }
{
    let mut round = turn_of(subs.len());
    for sub in subs {
        round = common(round, round_at(rounds, *sub));
    }
    round
}

/// A multiple of this count: 0 where it is too large.
fn turn_of(count: usize) -> u32
    ensures { result % count ≡ 0 }
{
    if count > MOST as usize {
        return 0;
    }
    count as u32
}

/// The number of a channel, 0 where there is none.
pub(crate) fn round_at(rounds: &[u32], number: u32) -> u32
    ensures { result ≡ get_or rounds.now number 0 }
{
    if number as usize >= rounds.len() {
        return 0;
    }
    rounds[number as usize]
}

/// A common multiple: 0 where it is too large.
fn common(a: u32, b: u32) -> u32
    ensures first { result % a ≡ 0 }
    ensures second { result % b ≡ 0 }
{
    if a == 0 || b == 0 {
        return 0;
    }
    if a % b == 0 {
        return a;
    }
    if b % a == 0 {
        return b;
    }
    let both = u64::from(a) * u64::from(b);
    if both > u64::from(MOST) {
        return 0;
    }
    both as u32
}
