use super::*;
use prpc_frames::{FeedFault, Frame, Frames, frame_fits, write_frame};
use rpc_base::{MemClock, Pace, mem_pair};
use rpc_model::Direction;
use std::alloc::Global;
use std::process::Abort;
use std::sync::Wait;
use std::test::Fail;

/// A request of `rpc.Echo`, method `Echo`, with correlation id 9 and payload `hi`.
const ASKED: &[u8] =
    b"PRPC\x00\x00\x00\x16\x00\x00\x00\x14\x0a\x10\x0a\x08rpc.Echo\x12\x04Echo\x20\x09hi";

/// The same with the attachment `AB`.
const ATTACHED: &[u8] =
    b"PRPC\x00\x00\x00\x1a\x00\x00\x00\x16\x0a\x10\x0a\x08rpc.Echo\x12\x04Echo\x20\x09\x28\x02hiAB";

/// The same of the service `rpc.Other`.
const OTHER_SERVICE: &[u8] =
    b"PRPC\x00\x00\x00\x17\x00\x00\x00\x15\x0a\x11\x0a\x09rpc.Other\x12\x04Echo\x20\x09hi";

/// The same of the method `Other`.
const OTHER_METHOD: &[u8] =
    b"PRPC\x00\x00\x00\x17\x00\x00\x00\x15\x0a\x11\x0a\x08rpc.Echo\x12\x05Other\x20\x09hi";

/// The same without an id.
const NO_ID: &[u8] = b"PRPC\x00\x00\x00\x14\x00\x00\x00\x12\x0a\x10\x0a\x08rpc.Echo\x12\x04Echohi";

/// The reply with code 0.
const REPLY: &[u8] = b"PRPC\x00\x00\x00\x08\x00\x00\x00\x06\x12\x02\x08\x00\x20\x09hi";

/// The reply with code 0 and no id.
const REPLY_NO_ID: &[u8] = b"PRPC\x00\x00\x00\x06\x00\x00\x00\x04\x12\x02\x08\x00hi";

/// The reply with code 7.
const REPLY_7: &[u8] = b"PRPC\x00\x00\x00\x06\x00\x00\x00\x06\x12\x02\x08\x07\x20\x09";

/// The replies with the codes 1001 and 1002.
const REPLY_1001: &[u8] = b"PRPC\x00\x00\x00\x07\x00\x00\x00\x07\x12\x03\x08\xe9\x07\x20\x09";

const REPLY_1002: &[u8] = b"PRPC\x00\x00\x00\x07\x00\x00\x00\x07\x12\x03\x08\xea\x07\x20\x09";

fn echo_of<R: Abort>(rt: &R, alloc: Global, words: &[Direction]) -> Result<Echo, Fail> {
    let words = Vec::from_slice(alloc, words)?;
    assert!(rt; are_directions(&words));
    Ok(Echo::open(words))
}

fn frame_of<R: Abort>(rt: &R, alloc: Global, bytes: &[u8]) -> Result<Frame, Fail> {
    let mut frames = Frames::open(alloc);
    frames.feed(bytes)?;
    Ok(frames.next().expect(rt, "a whole frame"))
}

fn spelled(alloc: Global, frame: &Option<Frame>) -> Result<Vec<u8>, Fail> {
    let mut bytes = Vec::new(alloc);
    if let Some(frame) = frame {
        if frame_fits(frame) {
            write_frame(frame, &mut bytes)?;
        }
    }
    Ok(bytes)
}

/// So many copies of these bytes, one after the other.
fn many(alloc: Global, count: usize, bytes: &[u8]) -> Result<Vec<u8>, Fail> {
    let mut all = Vec::new(alloc);
    for _ in 0..count {
        all.extend_from_slice(bytes)?;
    }
    Ok(all)
}

fn pace(alloc: Global, piece: usize, failing: &[u64]) -> Result<Pace, Fail> {
    Ok(Pace {
        piece,
        failing: Vec::from_slice(alloc, failing)?,
    })
}

/// Serves these bytes, and answers why the loop ended and what it wrote.
fn served<R: Wait + Abort>(
    rt: &R,
    alloc: Global,
    words: &[Direction],
    input: &[u8],
    reading: Pace,
    writing: Pace,
) -> Result<(Served, Vec<u8>), Fail> {
    let mut echo = echo_of(rt, alloc, words)?;
    let (mut to_server, mut wire_in) = mem_pair(alloc, pace(alloc, 1 << 20, &[])?, reading)?;
    let (mut wire_out, _to_client) = mem_pair(alloc, writing, pace(alloc, 1, &[])?)?;
    let mut clock = MemClock::new(0, 0);
    write_all(rt, &mut to_server, input)?;
    rpc_base::WireOut::close(&mut to_server, rt)?;
    let why = serve_loop(
        rt,
        alloc,
        &mut echo,
        &mut wire_in,
        &mut wire_out,
        &mut clock,
    );
    Ok((why, Vec::from_slice(alloc, wire_out.given())?))
}

#[test]
fn requests_follow_the_directions_in_turn(rt: HostRuntime) -> Result<(), Fail> {
    let alloc = rt.alloc();
    let words = [
        Direction::Twice,
        Direction::Err(7),
        Direction::Drop,
        Direction::Close,
        Direction::Delay(5),
    ];
    let mut echo = echo_of(&rt, alloc, &words)?;
    for (asked, reply, times, nap, close) in [
        (REPLY, b"".as_slice(), 0, 0, false),
        (ASKED, REPLY, 2, 0, false),
        (ASKED, REPLY_7, 1, 0, false),
        (ASKED, b"", 0, 0, false),
        (REPLY, b"", 0, 0, false),
        (ASKED, b"", 0, 0, true),
        (ASKED, REPLY, 1, 5, false),
        (OTHER_SERVICE, REPLY_1001, 1, 0, false),
        (OTHER_METHOD, REPLY_1002, 1, 0, false),
        (OTHER_METHOD, REPLY_1002, 1, 0, false),
        (OTHER_SERVICE, REPLY_1001, 1, 0, false),
        (NO_ID, REPLY_NO_ID, 1, 5, false),
    ] {
        let answer = echo.answer(alloc, &frame_of(&rt, alloc, asked)?)?;
        assert_eq!(rt; spelled(alloc, &answer.reply)?.as_slice(), reply);
        assert_eq!(rt;
            (answer.times, answer.nap, answer.close),
            (times, nap, close)
        );
    }
    Ok(())
}

#[test]
fn each_direction_alone_answers_every_request(rt: HostRuntime) -> Result<(), Fail> {
    let alloc = rt.alloc();
    for (words, wanted, count, why) in [
        ([].as_slice(), REPLY, 2, Served::End),
        ([Direction::Plain].as_slice(), REPLY, 2, Served::End),
        ([Direction::Err(7)].as_slice(), REPLY_7, 2, Served::End),
        ([Direction::Drop].as_slice(), REPLY, 0, Served::End),
        ([Direction::Twice].as_slice(), REPLY, 4, Served::End),
        ([Direction::Delay(60_000)].as_slice(), REPLY, 2, Served::End),
        ([Direction::Close].as_slice(), REPLY, 0, Served::Closed),
        (
            [Direction::Plain, Direction::Close].as_slice(),
            REPLY,
            1,
            Served::Closed,
        ),
    ] {
        let input = many(alloc, 2, ASKED)?;
        let (ended, written) = served(
            &rt,
            alloc,
            words,
            &input,
            pace(alloc, 9, &[])?,
            pace(alloc, 3, &[])?,
        )?;
        assert_eq!(rt; ended, why);
        assert_eq!(rt; written, many(alloc, count, wanted)?);
    }
    Ok(())
}

#[test]
fn a_stream_is_answered_frame_by_frame(rt: HostRuntime) -> Result<(), Fail> {
    let alloc = rt.alloc();
    for (parts, wanted, why) in [
        (
            [b"".as_slice(), b"", b""],
            [b"".as_slice(), b""],
            Served::End,
        ),
        ([ASKED, REPLY, ASKED], [REPLY, REPLY], Served::End),
        (
            [ATTACHED, OTHER_METHOD, b"PRP"],
            [REPLY, REPLY_1002],
            Served::End,
        ),
        (
            [ASKED, ASKED, b"PRPX"],
            [REPLY, REPLY],
            Served::BadFrame(FeedFault::Magic(71)),
        ),
        (
            [b"x", ASKED, ASKED],
            [b"", b""],
            Served::BadFrame(FeedFault::Magic(0)),
        ),
    ] {
        let mut input = Vec::new(alloc);
        for part in parts {
            input.extend_from_slice(part)?;
        }
        let mut replies = Vec::new(alloc);
        for reply in wanted {
            replies.extend_from_slice(reply)?;
        }
        for piece in [1, 5, 1024] {
            let (ended, written) = served(
                &rt,
                alloc,
                &[],
                &input,
                pace(alloc, piece, &[])?,
                pace(alloc, piece, &[])?,
            )?;
            assert_eq!(rt; ended, why);
            assert_eq!(rt; written, replies);
        }
    }
    Ok(())
}

#[test]
fn a_stream_cut_anywhere_answers_its_whole_frames(rt: HostRuntime) -> Result<(), Fail> {
    let alloc = rt.alloc();
    let input = many(alloc, 2, ASKED)?;
    for cut in 0..=input.len() {
        let (ended, written) = served(
            &rt,
            alloc,
            &[],
            &input[..cut],
            pace(alloc, 7, &[])?,
            pace(alloc, 7, &[])?,
        )?;
        assert_eq!(rt; ended, Served::End);
        assert_eq!(rt; written, many(alloc, cut / ASKED.len(), REPLY)?);
    }
    Ok(())
}

#[test]
fn a_fault_hides_no_answer_to_an_earlier_frame(rt: HostRuntime) -> Result<(), Fail> {
    let alloc = rt.alloc();
    let input = many(alloc, 2, ASKED)?;
    let replies = many(alloc, 2, REPLY)?;
    for call in 0..8u64 {
        let (ended, written) = served(
            &rt,
            alloc,
            &[],
            &input,
            pace(alloc, 10, &[call])?,
            pace(alloc, 99, &[])?,
        )?;
        assert_eq!(rt; ended, Served::ReadFault);
        assert_eq!(rt;
            written,
            many(alloc, call as usize * 10 / ASKED.len(), REPLY)?
        );
        let (ended, written) = served(
            &rt,
            alloc,
            &[],
            &input,
            pace(alloc, 99, &[])?,
            pace(alloc, 4, &[call])?,
        )?;
        assert_eq!(rt; ended, Served::WriteFault);
        let front = call as usize * 4;
        assert!(rt; front <= replies.len());
        assert_eq!(rt; written.as_slice(), &replies[..front]);
    }
    Ok(())
}

#[test]
fn ten_thousand_requests_are_answered(rt: HostRuntime) -> Result<(), Fail> {
    let alloc = rt.alloc();
    let input = many(alloc, 10_000, ASKED)?;
    let (ended, written) = served(
        &rt,
        alloc,
        &[Direction::Twice],
        &input,
        pace(alloc, 4096, &[])?,
        pace(alloc, 4096, &[])?,
    )?;
    assert_eq!(rt; ended, Served::End);
    assert!(rt; written == many(alloc, 20_000, REPLY)?);
    Ok(())
}
