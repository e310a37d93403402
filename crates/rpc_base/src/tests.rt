use super::*;
use std::alloc::{AllocError, Global};
use std::sync::Wait;
use std::test::Fail;
use std::thread::join;

fn bytes(alloc: Global, text: &str) -> Result<Vec<u8>, AllocError> {
    Vec::from_slice(alloc, text.as_bytes())
}

/// The bytes of one read, or none where it failed.
fn one_read<S: Source>(
    alloc: Global,
    source: &mut S,
    room: usize,
) -> Result<Option<Vec<u8>>, AllocError> {
    let mut to = vec![in alloc; 0u8; room]?;
    match source.read(&mut to) {
        Ok(count) => Ok(Some(Vec::from_slice(alloc, &to[..count])?)),
        Err(Failed) => Ok(None),
    }
}

#[test]
fn a_source_gives_pieces_and_fails_where_it_is_to(rt: HostRuntime) -> Result<(), Fail> {
    let alloc = rt.alloc();
    let mut failing = Vec::new(alloc);
    failing.push(1u64)?;
    let mut source = MemSource::new(bytes(alloc, "abcdefg")?, 3, failing);
    for wanted in [
        Some("ab"),
        None,
        Some("cde"),
        Some("fg"),
        Some(""),
        Some(""),
    ] {
        let room = if wanted == Some("ab") { 2 } else { 5 };
        let got = one_read(alloc, &mut source, room)?;
        match (got, wanted) {
            (Some(got), Some(wanted)) => assert_eq!(rt; got.as_slice(), wanted.as_bytes()),
            (None, None) => {}
            _ => assert!(rt; false, "at {wanted:?}"),
        }
    }
    assert_eq!(rt; source.faults(), 1);
    Ok(())
}

#[test]
fn a_sink_takes_pieces_and_fails_where_it_is_to(rt: HostRuntime) -> Result<(), Fail> {
    let alloc = rt.alloc();
    let mut failing = Vec::new(alloc);
    failing.push(1u64)?;
    let mut sink = MemSink::new(alloc, 3, failing);
    for (from, wanted) in [
        ("abcd", Ok(3)),
        ("de", Err(Failed)),
        ("de", Ok(2)),
        ("", Ok(0)),
    ] {
        assert_eq!(rt; sink.write(from.as_bytes()), wanted, "at {from}");
    }
    assert_eq!(rt; sink.bytes(), b"abcde".as_slice());
    assert_eq!(rt; sink.faults(), 1);
    Ok(())
}

#[test]
fn lists_are_compared_by_their_items(rt: HostRuntime) -> Result<(), Fail> {
    let alloc = rt.alloc();
    let one = Bytes::of(bytes(alloc, "abc")?);
    let two = Bytes::of(bytes(alloc, "abd")?);
    assert!(rt; one == Bytes::of(bytes(alloc, "abc")?));
    assert!(rt; one != two);
    assert_eq!(rt; one.into_vec().as_slice(), b"abc".as_slice());
    let mut items = Vec::new(alloc);
    items.push(two)?;
    let list = List::of(items);
    assert_eq!(rt; list.list().len(), 1);
    assert!(rt; list == List::of(list_of(alloc, "abd")?));
    assert!(rt; list != List::of(list_of(alloc, "abc")?));
    assert_eq!(rt; list.into_vec().len(), 1);
    Ok(())
}

fn list_of(alloc: Global, text: &str) -> Result<Vec<Bytes>, AllocError> {
    let mut items = Vec::new(alloc);
    items.push(Bytes::of(bytes(alloc, text)?))?;
    Ok(items)
}

fn pace(alloc: Global, piece: usize, failing: &[u64]) -> Result<Pace, AllocError> {
    Ok(Pace {
        piece,
        failing: Vec::from_slice(alloc, failing)?,
    })
}

/// The bytes of one read of a wire, or none where it failed.
fn one_got<R: Wait, W: WireIn>(
    rt: &R,
    alloc: Global,
    wire: &mut W,
    room: usize,
) -> Result<Option<Vec<u8>>, AllocError> {
    let mut to = vec![in alloc; 0u8; room]?;
    match wire.read(rt, &mut to) {
        Ok(count) => Ok(Some(Vec::from_slice(alloc, &to[..count])?)),
        Err(Failed) => Ok(None),
    }
}

#[test]
fn a_clock_tells_rising_moments_below_its_bound(rt: HostRuntime) {
    let most = (1 << 53) - 1;
    for (first, step, moments) in [
        (5, 3, [5, 8, 11]),
        (0, 0, [0, 0, 0]),
        (most - 1, 1, [most - 1, most, most]),
        (u64::MAX, u64::MAX, [most, most, most]),
    ] {
        let mut clock = MemClock::new(first, step);
        assert_eq!(rt; clock.high(), 0);
        for moment in moments {
            clock.nap(&rt, 60_000);
            assert_eq!(rt; clock.now(), moment);
            assert_eq!(rt; clock.high(), moment);
        }
        let mut twin = clock.twin();
        assert_eq!(rt; twin.high(), 0);
        let _ = twin.now();
        clock.back(twin);
        assert_eq!(rt; clock.high(), moments[2]);
    }
}

#[test]
fn a_twin_that_comes_back_raises_the_greatest_moment(rt: HostRuntime) {
    let mut clock = MemClock::new(10, 10);
    let mut twin = clock.twin();
    for moment in [10, 20, 30] {
        assert_eq!(rt; twin.now(), moment);
    }
    assert_eq!(rt; clock.now(), 10);
    clock.back(twin);
    assert_eq!(rt; clock.high(), 30);
    assert_eq!(rt; clock.now(), 20);
    assert_eq!(rt; clock.high(), 30);
}

#[test]
fn a_wire_moves_pieces_and_fails_where_it_is_to(rt: HostRuntime) -> Result<(), Fail> {
    let alloc = rt.alloc();
    let (mut from, mut to) = mem_pair(alloc, pace(alloc, 3, &[1, 4])?, pace(alloc, 2, &[1])?)?;
    for (text, wanted) in [
        ("abcd", Ok(3)),
        ("de", Err(Failed)),
        ("de", Ok(2)),
        ("", Ok(0)),
    ] {
        assert_eq!(rt; from.write(&rt, text.as_bytes()), wanted, "at {text}");
    }
    assert!(rt; !from.is_closed());
    assert_eq!(rt; from.close(&rt), Err(Failed));
    assert!(rt; from.is_closed());
    assert_eq!(rt; from.write(&rt, b"x"), Err(Failed));
    assert_eq!(rt; from.close(&rt), Ok(()));
    assert_eq!(rt; from.given(), b"abcde".as_slice());
    assert_eq!(rt; from.faults(), 3);
    for wanted in [Some("ab"), None, Some("cd"), Some("e")] {
        let got = one_got(&rt, alloc, &mut to, 5)?;
        match (got, wanted) {
            (Some(got), Some(wanted)) => assert_eq!(rt; got.as_slice(), wanted.as_bytes()),
            (None, None) => {}
            _ => assert!(rt; false, "at {wanted:?}"),
        }
    }
    for (room, met) in [(0, false), (1, true), (0, true)] {
        assert!(rt; one_got(&rt, alloc, &mut to, room)?.is_some_and(|got| got.is_empty()));
        assert_eq!(rt; to.has_met_end(), met);
    }
    assert_eq!(rt; to.got(), b"abcde".as_slice());
    assert_eq!(rt; to.faults(), 1);
    Ok(())
}

#[test]
fn a_read_waits_for_bytes_and_for_the_end(rt: HostRuntime) -> Result<(), Fail> {
    let alloc = rt.alloc();
    let (mut from, mut to) = mem_pair(alloc, pace(alloc, 8, &[])?, pace(alloc, 8, &[])?)?;
    let (first, written) = join(
        &rt,
        move || -> (Result<Option<Vec<u8>>, AllocError>, MemIn) {
            let first = one_got(&rt, alloc, &mut to, 8);
            let _rest = one_got(&rt, alloc, &mut to, 8);
            (first, to)
        },
        move || -> Result<usize, Failed> {
            let written = from.write(&rt, b"hello");
            let _closed = from.close(&rt);
            written
        },
    );
    let (first, to) = first;
    assert_eq!(rt; written, Ok(5));
    assert!(rt; first?.is_some_and(|got| got.as_slice() == b"hello".as_slice()));
    assert!(rt; to.has_met_end());
    Ok(())
}

#[test]
fn a_net_joins_both_ends_and_takes_them_back(rt: HostRuntime) -> Result<(), Fail> {
    let alloc = rt.alloc();
    let mut paces = Vec::new(alloc);
    paces.push(EndPace {
        server: 7,
        kind: EndKind::ServerOut,
        pace: pace(alloc, 2, &[])?,
    })?;
    let mut net = MemNet::new(alloc, Vec::from_slice(alloc, &[0u64])?, paces);
    assert!(rt; net.open(&rt, alloc, 7).is_err());
    for (server, taken) in [(7, 2), (7, 3)] {
        let Ok(mut ends) = net.open(&rt, alloc, server) else {
            continue;
        };
        assert_eq!(rt; net.opened(), 1);
        assert_eq!(rt; ends.client_out.write(&rt, b"up"), Ok(2));
        assert_eq!(rt; ends.server_out.write(&rt, b"off"), Ok(taken));
        assert!(rt;
            one_got(&rt, alloc, &mut ends.server_in, 9)?.is_some_and(|got| got.as_slice()
                == b"up".as_slice())
        );
        assert!(rt;
            one_got(&rt, alloc, &mut ends.client_in, 9)?.is_some_and(|got| got.len() == taken)
        );
        net.shut(&rt, server, ends);
        assert_eq!(rt; net.opened(), 0);
    }
    assert_eq!(rt; net.back().len(), 2);
    assert_eq!(rt; net.faults(), 1);
    Ok(())
}
