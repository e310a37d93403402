ghost use Rattle.std.specs.Prelude.{◌≡◌, ◌<◌, ◌+◌, ◌^◌, ◌↔◌, IsTrue, length, map};
ghost use Rattle.std.specs.List.{AllByRecursion};
ghost use Rattle.chan_tree.specs.Sound.{AreBefore, AreSound, IsSound};

use rpc_model::{Chan, Sub};

/// Whether each channel names only channels before it, each plain one has a server, and each selective one a sub: what
/// `plan` asks of a list of fewer than 2^32 channels. A longer list may be answered with no.
pub fn are_sound<M: Copy, G: Copy>(chans: &[Chan<M, G>]) -> bool
    ensures sound { IsTrue result → AreSound 0 chans.now }
    ensures all { length chans.now < 2 ^ 32 → AreSound 0 chans.now → IsTrue result }
{
    are_sound_from(0, chans)
}

/// The channels from this number on.
fn are_sound_from<M: Copy, G: Copy>(number: u32, chans: &[Chan<M, G>]) -> bool
    ensures sound { IsTrue result → AreSound number chans.now }
    ensures all { number + length chans.now < 2 ^ 32 → AreSound number chans.now → IsTrue result }
{
    let Some((first, rest)) = chans.split_first() else {
        return true;
    };
    if number == u32::MAX {
        return false;
    }
    is_sound(number, first) && are_sound_from(number + 1, rest)
}

fn is_sound<M: Copy, G: Copy>(number: u32, chan: &Chan<M, G>) -> bool
    ensures { IsTrue result ↔ IsSound number chan.now }
{
    match chan {
        Chan::Leaf(leaf) => !leaf.servers.list().is_empty(),
        Chan::Par(par) => are_subs_before(number, par.subs.list()),
        Chan::Sel(sel) => !sel.subs.list().is_empty() && are_before(number, sel.subs.list()),
        Chan::Part(_) => true,
    }
}

fn are_before(number: u32, subs: &[u32]) -> bool
    ensures { IsTrue result ↔ AreBefore number subs.now }
{
    let Some((first, rest)) = subs.split_first() else {
        return true;
    };
    *first < number && are_before(number, rest)
}

fn are_subs_before<M: Copy, G: Copy>(number: u32, subs: &[Sub<M, G>]) -> bool
    ensures { IsTrue result ↔ AreBefore number (map (λ s. s.chan) subs.now) }
{
    let Some((first, rest)) = subs.split_first() else {
        return true;
    };
    first.chan < number && are_subs_before(number, rest)
}
