//! What the mappers of a parallel node ask, and how the node begins by it.

ghost use Rattle.std.specs.Prelude.{◌≡◌, ◌^◌, ◌<◌, length, IfOk};
ghost use Rattle.std.specs.List.{list_any};
ghost use Rattle.std.specs.Vec.Iter.{into_iter_items};
ghost use Rattle.chan_tree.specs.Shown.{rule_of};
ghost use Rattle.rpc_model.specs.Parallel as spec;
ghost use Rattle.call_tree.specs.Counts.{limits_of};
ghost use Rattle.call_tree.specs.Starting.{first_ask, rest_of};

use crate::counts::Counts;
use chan_tree::Rule;
use rpc_base::Bytes;
use rpc_model::{ECANCELED, EREQUEST, End, Mapped};
use std::vec;

/// The next request, if the next sub is asked.
pub(crate) fn next_ask(asked: &mut vec::IntoIter<Mapped>) -> Option<Bytes>
    ensures request { result ≡ first_ask (into_iter_items asked.old) }
    ensures rest { into_iter_items asked.new ≡ rest_of (into_iter_items asked.old) }
{
    match asked.next() {
        Some(Mapped::Send(request)) => Some(request),
        Some(Mapped::Skip) => None,
        Some(Mapped::Bad) => None,
        None => None,
    }
}

/// The end of a node that starts no sub.
pub(crate) fn refusal(asked: &[Mapped]) -> Option<End>
    ensures { result ≡ spec.refused asked.now }
{
    if some_bad(asked) {
        return Some(End::Bad(EREQUEST));
    }
    if some_asked(asked) {
        return None;
    }
    Some(End::Bad(ECANCELED))
}

fn some_bad(asked: &[Mapped]) -> bool
    ensures { result ≡ list_any spec.is_bad asked.now }
{
    asked.iter().any(|a| is_bad(a))
}

fn some_asked(asked: &[Mapped]) -> bool
    ensures { result ≡ list_any spec.is_asked asked.now }
{
    asked.iter().any(|a| is_asked(a))
}

fn is_bad(asked: &Mapped) -> bool
    ensures { result ≡ spec.is_bad asked.now }
{
    match asked {
        Mapped::Bad => true,
        _ => false,
    }
}

fn is_asked(asked: &Mapped) -> bool
    ensures { result ≡ spec.is_asked asked.now }
{
    match asked {
        Mapped::Send(_) => true,
        _ => false,
    }
}

/// The counts of a node at its start.
pub(crate) fn counts_of<M, G>(rule: &Rule<M, G>, asked: &[Mapped]) -> Counts
    requires few { length asked.now < 2 ^ 31 }
    ensures limits { limits_of result ≡ spec.limits (rule_of rule.now) asked.now }
    ensures goods { result.goods ≡ 0 }
    ensures bads { result.bads ≡ 0 }
{
    let count = asked.iter().filter(|a| is_asked(a)).count() as u32;
    Counts {
        count,
        fail: limit(rule.fail, count),
        ok: limit(rule.ok, count),
        goods: 0,
        bads: 0,
    }
}

/// A limit among so many subs, where 0 stands for all of them.
fn limit(limit: u32, count: u32) -> u32
    ensures { result ≡ spec.limit limit count }
{
    if limit == 0 {
        return count;
    }
    limit.min(count)
}
