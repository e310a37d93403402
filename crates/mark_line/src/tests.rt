ghost use Rattle.mark_line.specs.Line.{IsPassOf};

use super::*;
use rpc_base::NoMemory;
use std::process::Abort;
use std::sync::Wait;
use std::test::Fail;
use std::thread;
use std::thread::Threads;
use timer_core::Mark;

fn mark(moment: u64, id: u64) -> Mark {
    Mark {
        moment,
        rank: 0,
        id,
        code: 1008,
    }
}

#[test]
fn in_order_of_adding(rt: HostRuntime) -> Result<(), Fail> {
    let (line, mut passes) = MarkLine::open(rt.alloc(), 2)?;
    let (Some(mut second), Some(mut first)) = (passes.pop(), passes.pop()) else {
        line.close();
        return Err("two passes".into());
    };
    let answers = (
        line.register(&rt, &mut first, mark(5, 1)),
        line.register(&rt, &mut second, mark(3, 2)),
        line.take(&rt, &mut second),
    );
    line.join_pass(&mut first, second);
    let rest = (line.take(&rt, &mut first), line.take(&rt, &mut first));
    line.close();
    assert_eq!(rt; answers, (Ok(()), Ok(()), Some(mark(5, 1))));
    assert_eq!(rt; rest, (Some(mark(3, 2)), None));
    Ok(())
}

const EACH: u64 = 500;

/// Registers marks and takes what it finds, and tells the sum of the ids that it took.
fn work<R: Wait>(rt: &R, line: &MarkLine, mut pass: MarkPass, from: u64) -> (MarkPass, u64)
    requires { IsPassOf line.now pass }
    ensures { IsPassOf line.now result.0 }
{
    let mut sum = 0_u64;
    for i in 0..EACH {
        let id = from.wrapping_add(i);
        if line.register(rt, &mut pass, mark(i, id)).is_err() {
            return (pass, u64::MAX);
        }
        if let Some(mark) = line.take(rt, &mut pass) {
            sum = sum.wrapping_add(mark.id);
        }
    }
    (pass, sum)
}

/// Two threads, whose passes are joined then.
fn pair<R: Threads + Wait + Sync>(
    rt: &R,
    line: &MarkLine,
    first: MarkPass,
    second: MarkPass,
    from: u64,
) -> (MarkPass, u64)
    requires first { IsPassOf line.now first }
    requires second { IsPassOf line.now second }
    ensures { IsPassOf line.now result.0 }
{
    let ((mut first, sum), (second, more)) = thread::join(
        rt,
        move ||
            requires { IsPassOf line.now first }
            ensures { IsPassOf line.entry.now result.0 }
        { work(rt, line, first, from) },
        move ||
            requires { IsPassOf line.now second }
            ensures { IsPassOf line.entry.now result.0 }
        { work(rt, line, second, from.wrapping_add(EACH)) },
    );
    line.join_pass(&mut first, second);
    (first, sum.wrapping_add(more))
}

/// Takes what is left.
fn drain<R: Wait>(rt: &R, line: &MarkLine, mut pass: MarkPass) -> (MarkPass, u64)
    requires { IsPassOf line.now pass }
    ensures { IsPassOf line.now result.0 }
{
    let mut sum = 0_u64;
    for _i in 0..4 * EACH {
        if let Some(mark) = line.take(rt, &mut pass) {
            sum = sum.wrapping_add(mark.id);
        }
    }
    (pass, sum)
}

/// Four threads, and the sum of the ids of all marks that were taken.
fn four<R: Threads + Wait + Sync>(
    rt: &R,
    line: &MarkLine,
    a: MarkPass,
    b: MarkPass,
    c: MarkPass,
    d: MarkPass,
) -> u64
    requires a { IsPassOf line.now a }
    requires b { IsPassOf line.now b }
    requires c { IsPassOf line.now c }
    requires d { IsPassOf line.now d }
{
    let ((mut pass, sum), (other, more)) = thread::join(
        rt,
        move ||
            requires { IsPassOf line.now a × IsPassOf line.now b }
            ensures { IsPassOf line.entry.now result.0 }
        { pair(rt, line, a, b, 0) },
        move ||
            requires { IsPassOf line.now c × IsPassOf line.now d }
            ensures { IsPassOf line.entry.now result.0 }
        { pair(rt, line, c, d, 2 * EACH) },
    );
    line.join_pass(&mut pass, other);
    let (_pass, rest) = drain(rt, line, pass);
    sum.wrapping_add(more).wrapping_add(rest)
}

#[test]
fn four_threads(rt: HostRuntime) -> Result<(), Fail> {
    let (line, mut passes) = MarkLine::open(rt.alloc(), 4)?;
    let (Some(d), Some(c), Some(b), Some(a)) = (
        passes.pop(),
        passes.pop(),
        passes.pop(),
        passes.pop(),
    ) else {
        line.close();
        return Err("four passes".into());
    };
    let sum = four(&rt, &line, a, b, c, d);
    line.close();
    assert_eq!(rt; sum, 4 * EACH * (4 * EACH - 1) / 2);
    Ok(())
}
