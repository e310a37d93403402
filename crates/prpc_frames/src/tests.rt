ghost use Rattle.std.specs.Prelude.{◌≡◌, ◌≤◌, length, IfOk};

use super::*;
use rpc_base::Bytes;
use rpc_meta::{Meta, MetaFault, RequestMeta, ResponseMeta};
use std::alloc::Global;
use std::process::Abort;
use std::test::*;

/// The reply frame with code 0, correlation id 4294967298 and payload `abc`.
const REPLY: &[u8] =
    b"PRPC\x00\x00\x00\x0d\x00\x00\x00\x0a\x12\x02\x08\x00\x20\x82\x80\x80\x80\x10abc";

/// The same with an unknown field 99 and the fields in falling order.
const FALLING: &[u8] =
    b"PRPC\x00\x00\x00\x10\x00\x00\x00\x0d\x98\x06\x01\x20\x82\x80\x80\x80\x10\x12\x02\x08\x00abc";

/// The request frame of `rpc.Echo`, method `Echo`, with payload `hi`.
const ASKED: &[u8] =
    b"PRPC\x00\x00\x00\x1a\x00\x00\x00\x18\x0a\x10\x0a\x08rpc.Echo\x12\x04Echo\x20\x82\x80\x80\x80\x10hi";

/// A reply with the attachment `XY`.
const ATTACHED: &[u8] =
    b"PRPC\x00\x00\x00\x11\x00\x00\x00\x0c\x12\x02\x08\x00\x20\x82\x80\x80\x80\x10\x28\x02abcXY";

fn bytes(alloc: Global, text: &[u8]) -> Result<Bytes, Fail> {
    Ok(Bytes::of(Vec::from_slice(alloc, text)?))
}

/// A reply of code 0 with this payload and attachment.
fn reply(
    alloc: Global,
    payload: &[u8],
    attachment: &[u8],
    size: Option<i32>,
) -> Result<Frame, Fail> {
    Ok(Frame {
        meta: Meta {
            request: None,
            response: Some(ResponseMeta {
                code: Some(0),
                text: None,
            }),
            compress: None,
            correlation: Some(4294967298),
            attachment: size,
        },
        payload: bytes(alloc, payload)?,
        attachment: bytes(alloc, attachment)?,
    })
}

/// The request of `rpc.Echo`, method `Echo`, with payload `hi`.
fn request(alloc: Global) -> Result<Frame, Fail> {
    Ok(Frame {
        meta: Meta {
            request: Some(RequestMeta {
                service: bytes(alloc, b"rpc.Echo")?,
                method: bytes(alloc, b"Echo")?,
                log_id: None,
            }),
            response: None,
            compress: None,
            correlation: Some(4294967298),
            attachment: None,
        },
        payload: bytes(alloc, b"hi")?,
        attachment: bytes(alloc, b"")?,
    })
}

/// Feeds the bytes in pieces of so many bytes, and gives the first fault.
fn feed_all(frames: &mut Frames, stream: &[u8], piece: usize) -> Result<(), FeedFault> {
    for part in stream.chunks(piece.max(1)) {
        frames.feed(part)?;
    }
    Ok(())
}

/// The frames of the bytes, fed in one piece and byte by byte.
#[test]
fn whole_frames(rt: HostRuntime) -> Result<(), Fail> {
    let alloc = rt.alloc();
    let rows: [(&[u8], Frame); 4] = [
        (REPLY, reply(alloc, b"abc", b"", None)?),
        (FALLING, reply(alloc, b"abc", b"", None)?),
        (ASKED, request(alloc)?),
        (ATTACHED, reply(alloc, b"abc", b"XY", Some(2))?),
    ];
    for (stream, frame) in rows {
        let mut whole = Frames::open(alloc);
        assert_eq!(&rt; feed_all(&mut whole, stream, 100), Ok(()));
        let mut single = Frames::open(alloc);
        assert_eq!(&rt; feed_all(&mut single, stream, 1), Ok(()));
        let first = whole.next();
        assert!(&rt; first == single.next());
        assert!(&rt; first == Some(frame), "{stream:?}");
        assert!(&rt; whole.next().is_none());
        assert!(&rt; single.next().is_none());
    }
    Ok(())
}

/// A frame with an attachment, then a second frame, cut in two at each place.
#[test]
fn cuts(rt: HostRuntime) -> Result<(), Fail> {
    let alloc = rt.alloc();
    let mut stream = Vec::from_slice(alloc, ATTACHED)?;
    stream.extend_from_slice(REPLY)?;
    for cut in 0..=stream.len() {
        let (front, back) = stream.as_slice().split_at(cut);
        let mut frames = Frames::open(alloc);
        assert_eq!(&rt; frames.feed(front), Ok(()));
        assert_eq!(&rt; frames.feed(back), Ok(()));
        assert!(&rt;
            frames.next() == Some(reply(alloc, b"abc", b"XY", Some(2))?),
            "{cut}"
        );
        assert!(&rt;
            frames.next() == Some(reply(alloc, b"abc", b"", None)?),
            "{cut}"
        );
        assert!(&rt; frames.next().is_none());
    }
    Ok(())
}

/// Streams with a fault, in one piece and byte by byte, and how many frames come before it.
#[test]
fn faults(rt: HostRuntime) -> Result<(), Fail> {
    let alloc = rt.alloc();
    let mut late = Vec::from_slice(alloc, REPLY)?;
    late.extend_from_slice(b"PRPX")?;
    let mut later = Vec::from_slice(alloc, REPLY)?;
    later.extend_from_slice(&late)?;
    let rows: [(&[u8], usize, FeedFault); 15] = [
        (b"PRPD", 0, FeedFault::Magic(3)),
        (b"Q", 0, FeedFault::Magic(0)),
        (b"PR\x00", 0, FeedFault::Magic(2)),
        // A body of 16,777,217 bytes.
        (
            b"PRPC\x01\x00\x00\x01\x00\x00\x00\x00",
            0,
            FeedFault::TooLarge(0),
        ),
        (
            b"PRPC\x00\x00\x00\x02\x00\x00\x00\x03",
            0,
            FeedFault::MetaPastBody(0),
        ),
        (
            b"PRPC\x00\x00\x00\x02\x00\x00\x00\x02\x18\x01",
            0,
            FeedFault::Compressed(0),
        ),
        (
            b"PRPC\x00\x00\x00\x03\x00\x00\x00\x02\x28\x05a",
            0,
            FeedFault::Attachment(0),
        ),
        (
            b"PRPC\x00\x00\x00\x02\x00\x00\x00\x02\x0b\x00",
            0,
            FeedFault::Meta(0, MetaFault::WireType(0)),
        ),
        (
            b"PRPC\x00\x00\x00\x02\x00\x00\x00\x02\x20\x82",
            0,
            FeedFault::Meta(0, MetaFault::Cut(0)),
        ),
        (
            b"PRPC\x00\x00\x00\x0b\x00\x00\x00\x0b\x20\xff\xff\xff\xff\xff\xff\xff\xff\xff\xff",
            0,
            FeedFault::Meta(0, MetaFault::LongVarint(0)),
        ),
        (
            b"PRPC\x00\x00\x00\x05\x00\x00\x00\x05\x0a\x03\x0a\x01\xff",
            0,
            FeedFault::Meta(0, MetaFault::BadText(2)),
        ),
        (
            b"PRPC\x00\x00\x00\x0b\x00\x00\x00\x0b\x28\xff\xff\xff\xff\xff\xff\xff\xff\xff\x01",
            0,
            FeedFault::Meta(0, MetaFault::Range(0)),
        ),
        (
            b"PRPC\x00\x00\x00\x00\x00\x00\x00\x00PRPC\x00\x00\x00\x00\x00\x00\x00\x01",
            1,
            FeedFault::MetaPastBody(12),
        ),
        (late.as_slice(), 1, FeedFault::Magic(28)),
        (later.as_slice(), 2, FeedFault::Magic(53)),
    ];
    for (stream, count, fault) in rows {
        for piece in [1, 1000] {
            let mut frames = Frames::open(alloc);
            assert_eq!(&rt;
                feed_all(&mut frames, stream, piece),
                Err(fault),
                "{stream:?}"
            );
            // The fault is final, and the frames before it can still be taken.
            assert_eq!(&rt; frames.feed(REPLY), Err(fault));
            for _ in 0..count {
                assert!(&rt; frames.next().is_some());
            }
            assert!(&rt; frames.next().is_none());
            assert_eq!(&rt; frames.feed(b""), Err(fault));
        }
    }
    Ok(())
}

/// A header alone, which says that so many bytes follow, is no frame and no fault; nor are the first 24 bytes of a reply.
#[test]
fn parts(rt: HostRuntime) -> Result<(), Fail> {
    let rows: [&[u8]; 4] = [
        b"",
        b"PRPC\x01\x00\x00\x00\x00\x00\x00",
        b"PRPC\x01\x00\x00\x00\x00\x00\x00\x00",
        b"PRPC\x00\x00\x00\x0d\x00\x00\x00\x0a\x12\x02\x08\x00\x20\x82\x80\x80\x80\x10ab",
    ];
    for stream in rows {
        let mut frames = Frames::open(rt.alloc());
        assert_eq!(&rt; frames.feed(stream), Ok(()));
        assert!(&rt; frames.next().is_none());
    }
    Ok(())
}

/// Feeds so many kilobytes of zeros.
fn feed_zeros(frames: &mut Frames, kilobytes: u32) -> Result<(), FeedFault> {
    let zeros = [0u8; 1024];
    for _ in 0..kilobytes {
        frames.feed(&zeros)?;
    }
    Ok(())
}

/// So many kilobytes of zeros, and then these bytes.
fn zeros(alloc: Global, kilobytes: u32, end: &[u8]) -> Result<Bytes, Fail> {
    let zeros = [0u8; 1024];
    let mut bytes = Vec::new(alloc);
    for _ in 0..kilobytes {
        bytes.extend_from_slice(&zeros)?;
    }
    bytes.extend_from_slice(end)?;
    Ok(Bytes::of(bytes))
}

/// A body of 16,777,216 bytes is read and may be written; one more byte is too many.
#[test]
fn largest(rt: HostRuntime) -> Result<(), Fail> {
    let alloc = rt.alloc();
    let mut frames = Frames::open(alloc);
    assert_eq!(&rt;
        frames.feed(b"PRPC\x01\x00\x00\x00\x00\x00\x00\x00"),
        Ok(())
    );
    assert_eq!(&rt; feed_zeros(&mut frames, 16384), Ok(()));
    let Some(mut frame) = frames.next() else {
        panic!(&rt; "no frame");
    };
    assert_eq!(&rt; frame.payload.list().len(), 16777216);
    assert!(&rt; frame_fits(&frame));
    frame.payload = zeros(alloc, 16384, b"x")?;
    assert!(&rt; !frame_fits(&frame));
    Ok(())
}

/// Frames that fit, and what is written for them.
#[test]
fn spellings(rt: HostRuntime) -> Result<(), Fail> {
    let alloc = rt.alloc();
    let rows: [(Frame, &[u8]); 3] = [
        (request(alloc)?, ASKED),
        (reply(alloc, b"abc", b"", None)?, REPLY),
        (reply(alloc, b"abc", b"XY", Some(2))?, ATTACHED),
    ];
    for (frame, spelled) in rows {
        let mut to = Vec::new(alloc);
        assert!(&rt; frame_fits(&frame));
        write_frame(&frame, &mut to)?;
        assert_eq!(&rt; to.as_slice(), spelled);
    }
    Ok(())
}

/// Frames that don't fit.
#[test]
fn misfits(rt: HostRuntime) -> Result<(), Fail> {
    let alloc = rt.alloc();
    assert!(&rt; !frame_fits(&reply(alloc, b"abc", b"XY", None)?));
    assert!(&rt; !frame_fits(&reply(alloc, b"abc", b"XY", Some(1))?));
    assert!(&rt; !frame_fits(&reply(alloc, b"abc", b"", Some(-1))?));
    assert!(&rt; frame_fits(&reply(alloc, b"abc", b"", Some(0))?));
    let mut packed = reply(alloc, b"abc", b"", None)?;
    packed.meta.compress = Some(1);
    assert!(&rt; !frame_fits(&packed));
    Ok(())
}

/// The laws are called once.
#[test]
fn laws() {
    any_pieces();
    begins_with_spelled();
}
