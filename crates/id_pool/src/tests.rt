use super::*;
use rpc_base::NoMemory;
use std::process::Abort;
use std::test::Fail;

/// One call of a pool of numbers.
#[derive(Clone, Copy, Debug)]
enum Call {
    Create(u32, u32),
    Find(u64),
    /// Reads the value and leaves another one.
    Value(u64, u32),
    Lock(u64),
    Reset(u64, u32),
    Post(u64, u32),
    Unlock(u64),
    Destroy(u64),
    Cancel(u64),
    Collect(u64),
}

/// What a call answers.
#[derive(Debug, PartialEq, Eq, Drop)]
enum Answer {
    Created(Result<u64, Refused<u32>>),
    Found(Option<u32>),
    Held(Option<u32>),
    Locked(Lock),
    Reset(bool),
    Posted(Result<Post, NoMemory>),
    Unlocked(Unlock),
    Destroyed(Destroy),
    Cancelled(Cancel<u32>),
    Collected(Collect<u32>),
}

fn swapped(pool: &mut Pool<u32>, id: u64, next: u32) -> Option<u32> {
    let value = pool.value(id)?;
    let last = *value;
    *value = next;
    Some(last)
}

fn apply(pool: &mut Pool<u32>, call: Call) -> Answer {
    match call {
        Call::Create(range, value) => Answer::Created(pool.create(range, value)),
        Call::Find(id) => Answer::Found(pool.find(id)),
        Call::Value(id, next) => Answer::Held(swapped(pool, id, next)),
        Call::Lock(id) => Answer::Locked(pool.lock(id)),
        Call::Reset(id, range) => Answer::Reset(pool.reset_range(id, range)),
        Call::Post(id, code) => Answer::Posted(pool.post(id, code)),
        Call::Unlock(id) => Answer::Unlocked(pool.unlock(id)),
        Call::Destroy(id) => Answer::Destroyed(pool.destroy(id)),
        Call::Cancel(id) => Answer::Cancelled(pool.cancel(id)),
        Call::Collect(first) => Answer::Collected(pool.collect(first)),
    }
}

fn run(rt: &impl Abort, pool: &mut Pool<u32>, rows: &[(Call, Answer)]) {
    for (call, wanted) in rows {
        assert_eq!(rt; &apply(pool, *call), wanted, "{call:?}");
    }
}

#[test]
fn one_range_from_create_to_collect(rt: HostRuntime) -> Result<(), Fail> {
    let mut pool = Pool::open(rt.alloc(), 1)?;
    let rows = [
        (
            Call::Create(0, 7),
            Answer::Created(Err(Refused::BadRange(7))),
        ),
        (Call::Create(3, 7), Answer::Created(Ok(4_294_967_297))),
        (Call::Find(4_294_967_299), Answer::Found(Some(2))),
        (Call::Find(4_294_967_300), Answer::Found(None)),
        (Call::Lock(4_294_967_298), Answer::Locked(Lock::Yes(1))),
        (
            Call::Post(4_294_967_297, 1008),
            Answer::Posted(Ok(Post::Queued)),
        ),
        (
            Call::Unlock(4_294_967_297),
            Answer::Unlocked(Unlock::Pending(0, 1008)),
        ),
        (Call::Unlock(4_294_967_297), Answer::Unlocked(Unlock::Free)),
        (Call::Cancel(4_294_967_297), Answer::Cancelled(Cancel::Used)),
        (Call::Create(1, 8), Answer::Created(Err(Refused::Full(8)))),
        (
            Call::Post(4_294_967_298, 1009),
            Answer::Posted(Ok(Post::Now(1))),
        ),
        (
            Call::Destroy(4_294_967_297),
            Answer::Destroyed(Destroy::Ended(0)),
        ),
        (
            Call::Post(4_294_967_297, 1009),
            Answer::Posted(Ok(Post::Gone)),
        ),
        (
            Call::Collect(4_294_967_297),
            Answer::Collected(Collect::Value(7)),
        ),
        (Call::Create(1, 8), Answer::Created(Ok(4_294_967_300))),
        (Call::Find(4_294_967_297), Answer::Found(None)),
        (
            Call::Cancel(4_294_967_300),
            Answer::Cancelled(Cancel::Value(8)),
        ),
    ];
    run(&rt, &mut pool, &rows);
    Ok(())
}

// The id of slot 0 and version 1, and that of slot 1 and version 1.
const FIRST: u64 = 0x1_0000_0001;

const SECOND: u64 = 0x2_0000_0001;

#[test]
fn each_call_at_an_unlocked_range(rt: HostRuntime) -> Result<(), Fail> {
    let mut pool = Pool::open(rt.alloc(), 2)?;
    let rows = [
        (
            Call::Create(1025, 5),
            Answer::Created(Err(Refused::BadRange(5))),
        ),
        (Call::Create(2, 5), Answer::Created(Ok(FIRST))),
        (Call::Find(FIRST + 1), Answer::Found(Some(1))),
        (Call::Value(FIRST + 1, 6), Answer::Held(Some(5))),
        (Call::Value(FIRST, 6), Answer::Held(Some(6))),
        (Call::Reset(FIRST, 3), Answer::Reset(false)),
        (Call::Unlock(FIRST), Answer::Unlocked(Unlock::NotLocked)),
        (Call::Destroy(FIRST), Answer::Destroyed(Destroy::NotLocked)),
        (Call::Collect(FIRST), Answer::Collected(Collect::NotYet)),
        (Call::Collect(FIRST + 1), Answer::Collected(Collect::Gone)),
        (Call::Cancel(FIRST + 1), Answer::Cancelled(Cancel::Value(6))),
        (Call::Find(FIRST), Answer::Found(None)),
    ];
    run(&rt, &mut pool, &rows);
    Ok(())
}

#[test]
fn each_call_at_an_id_that_is_gone(rt: HostRuntime) -> Result<(), Fail> {
    let mut pool = Pool::open(rt.alloc(), 2)?;
    assert_eq!(rt; pool.create(2, 5), Ok(FIRST));
    // Zero, the version before the range and the one behind it, a vacant slot, no slot, and the greatest id.
    let gone = [0, 1, FIRST - 1, FIRST + 2, SECOND, 0x3_0000_0001, u64::MAX];
    for id in gone {
        let rows = [
            (Call::Find(id), Answer::Found(None)),
            (Call::Value(id, 6), Answer::Held(None)),
            (Call::Lock(id), Answer::Locked(Lock::Gone)),
            (Call::Reset(id, 3), Answer::Reset(false)),
            (Call::Post(id, 1008), Answer::Posted(Ok(Post::Gone))),
            (Call::Unlock(id), Answer::Unlocked(Unlock::Gone)),
            (Call::Destroy(id), Answer::Destroyed(Destroy::Gone)),
            (Call::Cancel(id), Answer::Cancelled(Cancel::Gone)),
            (Call::Collect(id), Answer::Collected(Collect::Gone)),
        ];
        run(&rt, &mut pool, &rows);
    }
    assert_eq!(rt; pool.cancel(FIRST), Cancel::Value(5));
    Ok(())
}

#[test]
fn errors_are_handed_out_in_order(rt: HostRuntime) -> Result<(), Fail> {
    let mut pool = Pool::open(rt.alloc(), 1)?;
    let rows = [
        (Call::Create(4, 5), Answer::Created(Ok(FIRST))),
        (Call::Post(FIRST + 3, 112), Answer::Posted(Ok(Post::Now(3)))),
        (Call::Lock(FIRST), Answer::Locked(Lock::Held)),
        (
            Call::Post(FIRST + 2, 1008),
            Answer::Posted(Ok(Post::Queued)),
        ),
        (Call::Post(FIRST, 1009), Answer::Posted(Ok(Post::Queued))),
        (
            Call::Post(FIRST + 2, 1007),
            Answer::Posted(Ok(Post::Queued)),
        ),
        (
            Call::Unlock(FIRST),
            Answer::Unlocked(Unlock::Pending(2, 1008)),
        ),
        (
            Call::Unlock(FIRST),
            Answer::Unlocked(Unlock::Pending(0, 1009)),
        ),
        (Call::Post(FIRST + 1, 104), Answer::Posted(Ok(Post::Queued))),
        (Call::Destroy(FIRST), Answer::Destroyed(Destroy::Ended(2))),
        (Call::Value(FIRST, 6), Answer::Held(None)),
        (Call::Unlock(FIRST), Answer::Unlocked(Unlock::Gone)),
        (Call::Create(1, 6), Answer::Created(Err(Refused::Full(6)))),
        (Call::Cancel(FIRST), Answer::Cancelled(Cancel::Gone)),
        (Call::Collect(FIRST + 1), Answer::Collected(Collect::Gone)),
        (Call::Collect(FIRST), Answer::Collected(Collect::Value(5))),
        (Call::Collect(FIRST), Answer::Collected(Collect::Gone)),
    ];
    run(&rt, &mut pool, &rows);
    Ok(())
}

#[test]
fn a_locked_range_widens(rt: HostRuntime) -> Result<(), Fail> {
    let mut pool = Pool::open(rt.alloc(), 1)?;
    let rows = [
        (Call::Create(2, 5), Answer::Created(Ok(FIRST))),
        (Call::Lock(FIRST), Answer::Locked(Lock::Yes(0))),
        (Call::Reset(FIRST, 1), Answer::Reset(false)),
        (Call::Reset(FIRST, 1025), Answer::Reset(false)),
        (Call::Reset(FIRST + 2, 3), Answer::Reset(false)),
        (Call::Reset(FIRST, 2), Answer::Reset(true)),
        (Call::Reset(FIRST + 1, 1024), Answer::Reset(true)),
        (Call::Find(FIRST + 1023), Answer::Found(Some(1023))),
        (Call::Find(FIRST + 1024), Answer::Found(None)),
        (
            Call::Destroy(FIRST + 1023),
            Answer::Destroyed(Destroy::Ended(0)),
        ),
        (Call::Collect(FIRST), Answer::Collected(Collect::Value(5))),
        (Call::Create(1, 6), Answer::Created(Ok(FIRST + 1024))),
    ];
    run(&rt, &mut pool, &rows);
    Ok(())
}

#[test]
fn the_lowest_vacant_slot_is_taken(rt: HostRuntime) -> Result<(), Fail> {
    let mut pool = Pool::open(rt.alloc(), 3)?;
    let rows = [
        (Call::Create(1024, 1), Answer::Created(Ok(FIRST))),
        (Call::Create(1, 2), Answer::Created(Ok(SECOND))),
        (Call::Create(1, 3), Answer::Created(Ok(0x3_0000_0001))),
        (Call::Create(1, 4), Answer::Created(Err(Refused::Full(4)))),
        (
            Call::Cancel(0x3_0000_0001),
            Answer::Cancelled(Cancel::Value(3)),
        ),
        (
            Call::Cancel(FIRST + 1023),
            Answer::Cancelled(Cancel::Value(1)),
        ),
        (Call::Lock(SECOND), Answer::Locked(Lock::Yes(0))),
        (Call::Create(1, 5), Answer::Created(Ok(FIRST + 1024))),
        (Call::Create(1, 6), Answer::Created(Ok(0x3_0000_0002))),
        (Call::Value(SECOND, 7), Answer::Held(Some(2))),
        (Call::Value(FIRST + 1024, 8), Answer::Held(Some(5))),
    ];
    run(&rt, &mut pool, &rows);
    Ok(())
}

#[test]
fn a_slot_is_retired_at_its_last_version(rt: HostRuntime) -> Result<(), Fail> {
    let mut pool = Pool::open(rt.alloc(), 1)?;
    // Each of these ranges has 1024 versions, and the last begins at 1 + 1024 * 4,194,301.
    for _ in 0..4_194_302 {
        let Ok(id) = pool.create(1024, 5) else {
            break;
        };
        assert_eq!(rt; pool.cancel(id), Cancel::Value(5));
    }
    let last = 0x1_0000_0000 + 4_294_965_249;
    let rows = [
        (Call::Create(1024, 6), Answer::Created(Ok(last))),
        (Call::Find(last + 1023), Answer::Found(Some(1023))),
        (Call::Cancel(last), Answer::Cancelled(Cancel::Value(6))),
        (Call::Create(1, 7), Answer::Created(Err(Refused::Full(7)))),
        (Call::Find(last + 1024), Answer::Found(None)),
        (Call::Collect(last), Answer::Collected(Collect::Gone)),
    ];
    run(&rt, &mut pool, &rows);
    Ok(())
}

#[test]
fn ids_are_taken_apart(rt: HostRuntime) {
    let rows = [
        (0, None, 0),
        (0xffff_ffff, None, 0xffff_ffff),
        (0x1_0000_0000, Some(0), 0),
        (0x3_0000_0007, Some(2), 7),
        (u64::MAX, Some(0xffff_fffe), 0xffff_ffff),
    ];
    for (id, slot, version) in rows {
        assert_eq!(rt; slot_of(id), slot);
        assert_eq!(rt; version_of(id), version);
    }
    assert_eq!(rt; make_id(2, 7), 0x3_0000_0007);
}
