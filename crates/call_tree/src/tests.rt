use super::*;
use chan_tree::{are_sound, plan};
use rpc_base::{Bytes, List};
use rpc_model::{Chan, End, Event, LeafChan, MapKind, MergeKind, Origin, ParChan, SelChan, Sub};
use std::alloc::{AllocError, Global};
use std::process::Abort;
use std::sync::Arc;
use std::test::Fail;

type Kinds = Chan<MapKind, MergeKind>;

/// A request that goes out: node, attempt and server, and the byte behind the call's request, if there is one.
type Sent = (u32, u32, u32, Option<u8>);

/// A mark that is set: moment, node, and whether it is of a backup request.
type Set = (u64, u32, bool);

/// An event, where the text of a reply is one byte.
#[derive(Clone, Copy)]
enum What {
    Reply(u32, u32, u32, u8),
    Lost(u32, u32, u32),
    Backup(u32),
    Deadline(u32),
    Cancel,
}

/// A moment, an event, what it sends, and whether the call has an end then.
type Row = (u64, What, Option<Sent>, bool);

fn bytes(alloc: Global, text: &str) -> Result<Bytes, AllocError> {
    Ok(Bytes::of(Vec::from_slice(alloc, text.as_bytes())?))
}

fn event(alloc: Global, what: What) -> Result<Event, AllocError> {
    Ok(match what {
        What::Reply(node, attempt, code, text) => Event::Reply {
            node,
            attempt,
            code,
            text: Bytes::of(Vec::from_slice(alloc, &[text])?),
        },
        What::Lost(node, attempt, code) => Event::Lost {
            node,
            attempt,
            code,
        },
        What::Backup(node) => Event::Backup { node },
        What::Deadline(node) => Event::Deadline { node },
        What::Cancel => Event::Cancel,
    })
}

fn leaf(alloc: Global, retry: u32) -> Result<Kinds, AllocError> {
    Ok(Chan::Leaf(LeafChan {
        servers: List::of(Vec::from_slice(alloc, &[7, 8])?),
        retry,
        backup: Some(100),
        timeout: Some(500),
    }))
}

fn par(alloc: Global, subs: &[(MapKind, u32)], fail: u32) -> Result<Kinds, AllocError> {
    let mut list = Vec::new(alloc);
    for (map, chan) in subs {
        list.push(Sub {
            map: *map,
            merge: MergeKind::Cat,
            chan: *chan,
        })?;
    }
    Ok(Chan::Par(ParChan {
        subs: List::of(list),
        fail,
        ok: 0,
        timeout: Some(400),
    }))
}

fn sel(alloc: Global, retry: u32) -> Result<Kinds, AllocError> {
    Ok(Chan::Sel(SelChan {
        subs: List::of(Vec::from_slice(alloc, &[0])?),
        retry,
        timeout: Some(300),
    }))
}

fn expect_send(rt: &impl Abort, send: &Send, wanted: Sent) {
    let (node, attempt, server, last) = wanted;
    assert_eq!(rt; send.node, node);
    assert_eq!(rt; send.attempt, attempt);
    assert_eq!(rt; send.server, server);
    assert_eq!(rt; send.payload.list().first().copied(), Some(b'q'));
    assert_eq!(rt; send.payload.list().get(1).copied(), last);
}

fn expect_sends(rt: &impl Abort, effects: &Effects, sends: &[Sent]) {
    assert_eq!(rt; effects.sends.list().len(), sends.len());
    for (send, wanted) in effects.sends.list().iter().zip(sends) {
        expect_send(rt, send, *wanted);
    }
}

fn expect_marks(rt: &impl Abort, effects: &Effects, marks: &[Set]) {
    assert_eq!(rt; effects.marks.list().len(), marks.len());
    for (mark, (moment, node, backup)) in effects.marks.list().iter().zip(marks) {
        assert_eq!(rt; mark.moment, *moment);
        assert_eq!(rt; mark.node, *node);
        assert_eq!(rt; mark.backup, *backup);
    }
}

/// A call on the last channel begins at moment 10 with this number and the request `q`, and takes these events.
fn expect(
    rt: &impl Abort,
    alloc: Global,
    chans: &[Kinds],
    call: u32,
    sends: &[Sent],
    marks: &[Set],
    rows: &[Row],
    end: End,
    attempts: u32,
) -> Result<(), Fail> {
    assert!(rt; are_sound(chans));
    let last = u32::try_from(chans.len().wrapping_sub(1)).unwrap_or(0);
    assert!(rt; (last as usize) < chans.len());
    let Ok(plan) = plan(alloc, chans, last, call) else {
        assert!(rt; false, "the plan is refused");
        return Ok(());
    };
    let plan = Arc::new(alloc, plan)?;
    let (mut running, begun) = Call::begin(alloc, plan, call, bytes(alloc, "q")?, 10)?;
    expect_sends(rt, &begun, sends);
    expect_marks(rt, &begun, marks);
    for (moment, what, sent, ended) in rows {
        assert!(rt; *moment < 1_000_000);
        let from = Origin::Mark { place: 3 };
        let effects = running.apply(alloc, event(alloc, *what)?, *moment, from)?;
        match sent {
            None => expect_sends(rt, &effects, &[]),
            Some(sent) => expect_sends(rt, &effects, &[*sent]),
        }
        match sent {
            // A leaf that starts sets its marks.
            Some((node, 0, _, _)) => expect_marks(
                rt,
                &effects,
                &[(*moment + 500, *node, false), (*moment + 100, *node, true)],
            ),
            _ => expect_marks(rt, &effects, &[]),
        }
        assert_eq!(rt; effects.ended, *ended);
        assert_eq!(rt; running.end().is_some(), *ended);
    }
    assert_eq!(rt; running.log().len(), rows.len());
    assert_eq!(rt; running.attempts(), attempts);
    assert_eq!(rt; running.number(), call);
    assert_eq!(rt; running.into_end(), Some(end));
    Ok(())
}

#[test]
fn a_plain_call(rt: HostRuntime) -> Result<(), Fail> {
    let alloc = rt.alloc();
    let mut chans = Vec::new(alloc);
    chans.push(leaf(alloc, 2)?)?;
    let rows = [
        (20, What::Reply(1, 0, 0, b'n'), None, false),
        (30, What::Reply(0, 1, 0, b'n'), None, false),
        (110, What::Backup(0), Some((0, 1, 7, None)), false),
        (120, What::Lost(0, 1, 1009), Some((0, 2, 8, None)), false),
        (130, What::Reply(0, 1, 0, b'r'), None, false),
        (140, What::Reply(0, 0, 0, b'o'), None, true),
        (150, What::Cancel, None, true),
        (510, What::Deadline(0), None, true),
    ];
    let end = End::Good(bytes(alloc, "o")?);
    expect(
        &rt,
        alloc,
        &chans,
        1,
        &[(0, 0, 8, None)],
        &[(510, 0, false), (110, 0, true)],
        &rows,
        end,
        3,
    )
}

/// A parallel node below another one, whose first sub is skipped.
fn expect_nested(
    rt: &impl Abort,
    alloc: Global,
    fail: u32,
    rows: &[Row],
    end: End,
    attempts: u32,
) -> Result<(), Fail> {
    let mut chans = Vec::new(alloc);
    chans.push(leaf(alloc, 1)?)?;
    chans.push(par(alloc, &[(MapKind::Index, 0), (MapKind::Index, 0)], 1)?)?;
    let subs = [(MapKind::Skip, 0), (MapKind::Same, 1), (MapKind::Index, 0)];
    chans.push(par(alloc, &subs, fail)?)?;
    let sends = [
        (3, 0, 7, Some(b'0')),
        (4, 0, 7, Some(b'1')),
        (5, 0, 7, Some(b'2')),
    ];
    let marks = [
        (410, 0, false),
        (410, 2, false),
        (510, 3, false),
        (110, 3, true),
        (510, 4, false),
        (110, 4, true),
        (510, 5, false),
        (110, 5, true),
    ];
    expect(rt, alloc, &chans, 2, &sends, &marks, rows, end, attempts)
}

#[test]
fn parallel_calls(rt: HostRuntime) -> Result<(), Fail> {
    let alloc = rt.alloc();
    let merged = [
        (20, What::Reply(5, 0, 0, b'c'), None, false),
        (30, What::Reply(1, 0, 0, b'w'), None, false),
        (40, What::Reply(4, 0, 0, b'b'), None, false),
        (
            50,
            What::Lost(3, 0, 1009),
            Some((3, 1, 8, Some(b'0'))),
            false,
        ),
        (60, What::Reply(3, 1, 0, b'a'), None, true),
        (70, What::Reply(5, 0, 0, b'l'), None, true),
    ];
    let abc = End::Good(bytes(alloc, "abc")?);
    expect_nested(&rt, alloc, 1, &merged, abc, 4)?;
    let failed = [
        (
            20,
            What::Lost(4, 0, 1009),
            Some((4, 1, 8, Some(b'1'))),
            false,
        ),
        (30, What::Reply(4, 1, 1001, b'b'), None, true),
        (40, What::Reply(5, 0, 0, b'l'), None, true),
        (410, What::Deadline(2), None, true),
    ];
    expect_nested(&rt, alloc, 1, &failed, End::Bad(1005), 4)?;
    let late = [
        (20, What::Reply(5, 0, 0, b'c'), None, false),
        (410, What::Deadline(0), None, true),
        (411, What::Deadline(2), None, true),
    ];
    let one = End::Good(bytes(alloc, "c")?);
    expect_nested(&rt, alloc, 2, &late, one, 3)
}

/// A mapper that refuses the call ends it at its start, and a cancel ends it at once.
#[test]
fn calls_that_end_early(rt: HostRuntime) -> Result<(), Fail> {
    let alloc = rt.alloc();
    let rows = [
        (20, What::Cancel, None, true),
        (30, What::Reply(1, 0, 0, b'l'), None, true),
    ];
    for (map, code) in [(MapKind::Bad, 1003), (MapKind::Skip, 125)] {
        let mut chans = Vec::new(alloc);
        chans.push(leaf(alloc, 0)?)?;
        chans.push(par(alloc, &[(map, 0)], 0)?)?;
        let marks = [(410, 0, false)];
        expect(&rt, alloc, &chans, 2, &[], &marks, &rows, End::Bad(code), 0)?;
    }
    let mut chans = Vec::new(alloc);
    chans.push(leaf(alloc, 0)?)?;
    chans.push(par(alloc, &[(MapKind::Same, 0)], 0)?)?;
    let sends = [(1, 0, 7, None)];
    let marks = [(410, 0, false), (510, 1, false), (110, 1, true)];
    expect(
        &rt,
        alloc,
        &chans,
        2,
        &sends,
        &marks,
        &rows,
        End::Bad(125),
        1,
    )
}

/// A selective call with this many tries behind the first.
fn expect_tries(
    rt: &impl Abort,
    alloc: Global,
    retry: u32,
    rows: &[Row],
    end: End,
    attempts: u32,
) -> Result<(), Fail> {
    let mut chans = Vec::new(alloc);
    chans.push(leaf(alloc, 0)?)?;
    chans.push(sel(alloc, retry)?)?;
    let sends = [(1, 0, 7, None)];
    let marks = [(310, 0, false), (510, 1, false), (110, 1, true)];
    expect(rt, alloc, &chans, 2, &sends, &marks, rows, end, attempts)
}

#[test]
fn selective_calls(rt: HostRuntime) -> Result<(), Fail> {
    let alloc = rt.alloc();
    let tried = [
        (20, What::Lost(2, 0, 1009), None, false),
        (30, What::Lost(1, 0, 1009), Some((2, 0, 7, None)), false),
        (40, What::Reply(1, 0, 0, b'l'), None, false),
        (50, What::Reply(2, 0, 0, b'o'), None, true),
        (310, What::Deadline(0), None, true),
    ];
    let second = End::Good(bytes(alloc, "o")?);
    expect_tries(&rt, alloc, 1, &tried, second, 2)?;
    let last = [
        (30, What::Lost(1, 0, 1009), Some((2, 0, 7, None)), false),
        (40, What::Lost(2, 0, 1009), None, true),
    ];
    expect_tries(&rt, alloc, 1, &last, End::Bad(1009), 2)?;
    let refused = [(30, What::Reply(1, 0, 1003, b'r'), None, true)];
    expect_tries(&rt, alloc, 1, &refused, End::Bad(1003), 1)?;
    let late = [(310, What::Deadline(0), None, true)];
    expect_tries(&rt, alloc, 1, &late, End::Bad(1008), 1)
}
