//! The works on one, two or four threads.
ghost use Rattle.std.specs.Prelude.{◌≡◌, ◌<◌, ◌≤◌, All, IfSome};
ghost use Rattle.id_shared.specs.Standing.{IsAtRest};

use crate::book::{Book, begins, ends};
use crate::raw::Words;
use crate::works::{crowds, lives, lives_quietly};
use id_shared::{Ids, Pass};
use std::alloc::Global;
use std::sync::Wait;
use std::thread;
use std::thread::Threads;

/// What each thread does again and again.
#[derive(Clone, Copy, Debug, PartialEq, Eq)]
pub enum Work {
    /// The whole life of a range, with an error that is queued.
    Life,
    /// As many raw atomics.
    RawLife,
    /// The life of a range without an error.
    QuietLife,
    /// As many raw atomics.
    RawQuietLife,
    /// A post to one range, the same for all threads.
    Crowd,
}

/// The two passes of a thread.
#[derive(Drop)]
struct Pair {
    a: Pass<Book>,
    b: Pass<Book>,
}

// The next pass.
pub fn next(ids: &Ids<Book>, passes: &mut Vec<Pass<Book>>) -> Option<Pass<Book>>
    requires own { All (IsAtRest ids.now) passes.old.items }
    ensures own { All (IsAtRest ids.now) passes.new.items }
    ensures pass { IfSome result (IsAtRest ids.now) }
{
    passes.pop()
}

// The next two passes.
fn take_pair(ids: &Ids<Book>, passes: &mut Vec<Pass<Book>>) -> Option<Pair>
    requires own { All (IsAtRest ids.now) passes.old.items }
    ensures own { All (IsAtRest ids.now) passes.new.items }
    ensures pair { IfSome result (λ p. IsAtRest ids.now p.a × IsAtRest ids.now p.b) }
{
    let b = next(ids, passes)?;
    let a = next(ids, passes)?;
    Some(Pair { a, b })
}

// What one thread does.
fn one<R: Wait>(rt: &R, alloc: Global, ids: &Ids<Book>, id: u64, work: Work, times: u32, pair: Pair)
    requires own { IsAtRest ids.now pair.a × IsAtRest ids.now pair.b }
{
    let Pair { mut a, mut b } = pair;
    let words = Words::new();
    let (mut taken, mut dropped) = (Vec::new(alloc), Vec::new(alloc));
    for _ in 0..times {
        match work {
            Work::Life => taken = lives(rt, ids, &mut a, &mut b, taken, &mut dropped),
            Work::RawLife => words.lives(true),
            Work::QuietLife => taken = lives_quietly(rt, ids, &mut a, taken, &mut dropped),
            Work::RawQuietLife => words.lives(false),
            Work::Crowd => crowds(rt, ids, &mut a, id, &mut dropped),
        }
    }
}

// What two threads do.
fn two<R: Threads + Wait + Sync>(
    rt: &R,
    alloc: Global,
    ids: &Ids<Book>,
    id: u64,
    work: Work,
    times: u32,
    c: Pair,
    d: Pair,
)
    requires own { IsAtRest ids.now c.a × IsAtRest ids.now c.b × IsAtRest ids.now d.a × IsAtRest ids.now d.b }
{
    thread::join(
        rt,
        move ||
            requires { IsAtRest ids.now c.a × IsAtRest ids.now c.b }
        { one(rt, alloc, ids, id, work, times, c) },
        move ||
            requires { IsAtRest ids.now d.a × IsAtRest ids.now d.b }
        { one(rt, alloc, ids, id, work, times, d) },
    );
}

// What four threads do.
fn four<R: Threads + Wait + Sync>(
    rt: &R,
    alloc: Global,
    ids: &Ids<Book>,
    id: u64,
    work: Work,
    times: u32,
    c: Pair,
    d: Pair,
    e: Pair,
    f: Pair,
)
    requires own { IsAtRest ids.now c.a × IsAtRest ids.now c.b × IsAtRest ids.now d.a × IsAtRest ids.now d.b }
    requires more { IsAtRest ids.now e.a × IsAtRest ids.now e.b × IsAtRest ids.now f.a × IsAtRest ids.now f.b }
{
    thread::join(
        rt,
        move ||
            requires { IsAtRest ids.now c.a × IsAtRest ids.now c.b × IsAtRest ids.now d.a × IsAtRest ids.now d.b }
        { two(rt, alloc, ids, id, work, times, c, d) },
        move ||
            requires { IsAtRest ids.now e.a × IsAtRest ids.now e.b × IsAtRest ids.now f.a × IsAtRest ids.now f.b }
        { two(rt, alloc, ids, id, work, times, e, f) },
    );
}

// What one, two or four threads do.
fn all<R: Threads + Wait + Sync>(
    rt: &R,
    alloc: Global,
    ids: &Ids<Book>,
    id: u64,
    work: Work,
    threads: u32,
    times: u32,
    mut passes: Vec<Pass<Book>>,
)
    requires own { All (IsAtRest ids.now) passes.items }
{
    let Some(c) = take_pair(ids, &mut passes) else {
        return;
    };
    if threads == 1 {
        one(rt, alloc, ids, id, work, times, c);
        return;
    }
    let Some(d) = take_pair(ids, &mut passes) else {
        return;
    };
    if threads == 2 {
        two(rt, alloc, ids, id, work, times, c, d);
        return;
    }
    let Some(e) = take_pair(ids, &mut passes) else {
        return;
    };
    let Some(f) = take_pair(ids, &mut passes) else {
        return;
    };
    four(rt, alloc, ids, id, work, times, c, d, e, f);
}

/// A table with two passes for each thread and one more, which begins a range for all of them. Each thread does the work so
/// many times.
pub fn run_on<R: Threads + Wait + Sync>(
    rt: &R,
    alloc: Global,
    work: Work,
    threads: u32,
    times: u32,
) {
    let slots = if work == Work::Crowd { 1 } else { 1024 };
    let Ok((ids, mut passes)) = Ids::<Book>::open(alloc, slots, 10, 1024) else {
        return;
    };
    let Some(Pair { a: mut host, b: _ }) = take_pair(&ids, &mut passes) else {
        return;
    };
    let mut dropped = Vec::new(alloc);
    let owner = begins(rt, &ids, &mut host, 2, Vec::new(alloc), &mut dropped);
    let id = owner.first_id();
    all(rt, alloc, &ids, id, work, threads, times, passes);
    ends(rt, &ids, &mut host, owner, id, 0, &mut dropped);
}
