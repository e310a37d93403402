use super::*;
use rpc_base::{Bytes, NoMemory};
use rpc_model::Fate;
use std::process::Abort;
use std::test::Fail;

/// One call of the ids that wait.
#[derive(Clone, Copy, Debug)]
enum Call {
    Add(u64, u32),
    Renew(u64, u32),
    IsOutstanding(u64),
    Remove(u64),
    TakeFirst,
}

/// What a call answers.
#[derive(Debug, PartialEq, Eq, Drop)]
enum Answer {
    /// The id waits already, and so it isn't added.
    Waits,
    Added(Result<(), NoMemory>),
    Outstanding(bool),
    Removed(Option<u32>),
    Taken(Option<(u64, u32)>),
}

fn add(waiting: &mut Outstanding, id: u64, call: u32) -> Answer {
    if waiting.is_outstanding(id) {
        return Answer::Waits;
    }
    Answer::Added(waiting.add(id, call))
}

fn apply(waiting: &mut Outstanding, call: Call) -> Answer {
    match call {
        Call::Add(id, call) => add(waiting, id, call),
        Call::Renew(id, call) => Answer::Added(waiting.renew(id, call)),
        Call::IsOutstanding(id) => Answer::Outstanding(waiting.is_outstanding(id)),
        Call::Remove(id) => Answer::Removed(waiting.remove(id)),
        Call::TakeFirst => Answer::Taken(waiting.take_first()),
    }
}

fn run(rt: &impl Abort, waiting: &mut Outstanding, rows: &[(Call, Answer)]) {
    for (call, wanted) in rows {
        assert_eq!(rt; &apply(waiting, *call), wanted, "{call:?}");
    }
}

#[test]
fn in_the_order_of_adding(rt: HostRuntime) -> Result<(), Fail> {
    let mut waiting = Outstanding::open(rt.alloc())?;
    let rows = [
        (Call::TakeFirst, Answer::Taken(None)),
        (Call::Remove(5), Answer::Removed(None)),
        (Call::Add(5, 50), Answer::Added(Ok(()))),
        (Call::Add(3, 30), Answer::Added(Ok(()))),
        (Call::Add(4, 30), Answer::Added(Ok(()))),
        (Call::Add(3, 31), Answer::Waits),
        (Call::IsOutstanding(3), Answer::Outstanding(true)),
        (Call::Remove(6), Answer::Removed(None)),
        (Call::Remove(3), Answer::Removed(Some(30))),
        (Call::IsOutstanding(3), Answer::Outstanding(false)),
        (Call::Remove(3), Answer::Removed(None)),
        (Call::TakeFirst, Answer::Taken(Some((5, 50)))),
        (Call::TakeFirst, Answer::Taken(Some((4, 30)))),
        (Call::TakeFirst, Answer::Taken(None)),
    ];
    run(&rt, &mut waiting, &rows);
    Ok(())
}

#[test]
fn an_id_added_again_goes_last(rt: HostRuntime) -> Result<(), Fail> {
    let mut waiting = Outstanding::open(rt.alloc())?;
    let rows = [
        (Call::Add(u64::MAX, 1), Answer::Added(Ok(()))),
        (Call::Add(0, 2), Answer::Added(Ok(()))),
        (Call::Add(7, 3), Answer::Added(Ok(()))),
        (Call::Remove(u64::MAX), Answer::Removed(Some(1))),
        (Call::Add(u64::MAX, u32::MAX), Answer::Added(Ok(()))),
        (Call::TakeFirst, Answer::Taken(Some((0, 2)))),
        (Call::Add(0, 4), Answer::Added(Ok(()))),
        (Call::TakeFirst, Answer::Taken(Some((7, 3)))),
        (Call::Renew(u64::MAX, 5), Answer::Added(Ok(()))),
        (Call::Renew(8, 6), Answer::Added(Ok(()))),
        (Call::TakeFirst, Answer::Taken(Some((0, 4)))),
        (Call::TakeFirst, Answer::Taken(Some((u64::MAX, 5)))),
        (Call::TakeFirst, Answer::Taken(Some((8, 6)))),
        (Call::TakeFirst, Answer::Taken(None)),
    ];
    run(&rt, &mut waiting, &rows);
    Ok(())
}

#[test]
fn ten_thousand_ids(rt: HostRuntime) -> Result<(), Fail> {
    let mut waiting = Outstanding::open(rt.alloc())?;
    for id in 0..10_000u32 {
        assert_eq!(rt; add(&mut waiting, u64::from(id), id), Answer::Added(Ok(())));
    }
    for id in 2_500..7_500u32 {
        assert_eq!(rt; waiting.remove(u64::from(id)), Some(id));
    }
    for id in 0..2_500u32 {
        assert_eq!(rt; waiting.take_first(), Some((u64::from(id), id)));
    }
    for id in 7_500..10_000u32 {
        assert_eq!(rt; waiting.take_first(), Some((u64::from(id), id)));
    }
    assert_eq!(rt; waiting.take_first(), None);
    Ok(())
}

#[test]
fn requests_in_the_order_of_sending(rt: HostRuntime) -> Result<(), Fail> {
    let mut log = Outlog::open(rt.alloc());
    assert_eq!(rt; log.list().len(), 0);
    let first = Bytes::of(vec![in rt.alloc(); 1u8, 2]?);
    assert_eq!(rt; log.send(9, first), Ok(0));
    assert_eq!(rt; log.send(9, Bytes::of(Vec::new(rt.alloc()))), Ok(1));
    match log.list() {
        [first, second] => {
            assert_eq!(rt; first.id, 9);
            assert_eq!(rt; first.payload.list(), [1u8, 2].as_slice());
            assert_eq!(rt; second.payload.list().len(), 0);
        }
        _ => rt.abort(),
    }
    Ok(())
}

#[test]
fn an_inlog_keeps_frames_and_losses_in_order(rt: HostRuntime) -> Result<(), Fail> {
    let alloc = rt.alloc();
    let mut log = Inlog::open(alloc);
    assert!(rt; log.came().is_empty() && log.losses().is_empty());
    assert_eq!(rt;
        log.note(8, 0, Bytes::of(Vec::from_slice(alloc, b"hi")?), Fate::Stray)?,
        0
    );
    for (frames, place) in [(1u64, 0u64), (2, 1), (3, 2)] {
        assert_eq!(rt; log.note_loss(7 + place, 1009, Fate::Dropped(1))?, place);
        assert_eq!(rt;
            log.note(
                8 + frames,
                0,
                Bytes::of(Vec::from_slice(alloc, b"hi")?),
                Fate::Stray
            )?,
            frames
        );
    }
    for (place, came) in log.came().iter().enumerate() {
        assert_eq!(rt; (came.id, came.fate), (8 + place as u64, Fate::Stray));
        assert_eq!(rt; came.payload.list(), b"hi".as_slice());
    }
    for (place, loss) in log.losses().iter().enumerate() {
        assert_eq!(rt; (loss.id, loss.after), (7 + place as u64, 1 + place as u64));
    }
    Ok(())
}
