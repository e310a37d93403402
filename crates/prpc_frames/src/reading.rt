ghost use Rattle.std.specs.Prelude.{◌≡◌, ◌<◌, ◌≤◌, ◌+◌, ◌^◌, length, Some, IfOk, IfErr, IfSome};
ghost use Rattle.rpc_meta.specs.Meta.{meta as meta_of};
ghost use Rattle.prpc_frames.specs.Stream.Reading.{named, attached, is_compressed, content, body as body_of, whole, frame as frame_of};
ghost use Rattle.prpc_frames.specs.Seen.{Gives, NamesNoMemory, IsFinal};

use crate::fault::FeedFault;
use crate::frame::Frame;
use crate::header::{HEADER, Sizes, read_header};
use rpc_base::{Bytes, NoMemory};
use rpc_meta::{Meta, MetaFault, read_meta};
use std::alloc::{AllocError, Global};

/// A whole frame, and how many bytes it has.
#[derive(Debug, Drop)]
pub(crate) struct Whole {
    pub(crate) frame: Frame,
    pub(crate) size: usize,
}

/// The meta of a frame that begins at the place `at`.
fn read_named(alloc: Global, at: u64, bytes: &[u8]) -> Result<Meta, FeedFault>
    requires { length bytes.now < 2 ^ 32 }
    ensures read { Gives result (named at (meta_of bytes.now)) }
    ensures named { IfErr result NamesNoMemory }
{
    match read_meta(alloc, bytes) {
        Ok(meta) => Ok(meta),
        Err(MetaFault::Memory) => Err(FeedFault::Memory),
        Err(fault) => Err(FeedFault::Meta(at, fault)),
    }
}

/// Whether a compress type is there and isn't 0.
fn has_compression(meta: &Meta) -> bool
    ensures { result ≡ is_compressed meta.now.compress }
{
    match meta.compress {
        None => false,
        Some(kind) => kind != 0,
    }
}

/// The attachment size, 0 where it isn't there. No meta that is read has a negative one.
fn attachment_size(meta: &Meta) -> usize
    ensures { result ≡ attached meta.now.attachment }
{
    match meta.attachment {
        Some(size) if size > 0 => size as usize,
        _ => 0,
    }
}

/// A list of bytes with these. It takes no memory where there are none.
fn bytes_of(alloc: Global, bytes: &[u8]) -> Result<Bytes, AllocError>
    ensures { IfOk result (λ b. b ≡ bytes.now) }
{
    if bytes.is_empty() {
        return Ok(Bytes::of(Vec::new(alloc)));
    }
    Ok(Bytes::of(Vec::from_slice(alloc, bytes)?))
}

/// Parts what is behind the meta into payload and attachment.
#[tactic(auto, unfolding(crate::specs::Stream::Reading::content))]
fn read_content(alloc: Global, at: u64, meta: Meta, bytes: &[u8]) -> Result<Frame, FeedFault>
    ensures read { Gives result (content at meta bytes.now) }
    ensures named { IfErr result NamesNoMemory }
{
    if has_compression(&meta) {
        return Err(FeedFault::Compressed(at));
    }
    let size = attachment_size(&meta);
    if bytes.len() < size {
        return Err(FeedFault::Attachment(at));
    }
    let (payload, attachment) = bytes.split_at(bytes.len() - size);
    Ok(Frame {
        meta,
        payload: bytes_of(alloc, payload)?,
        attachment: bytes_of(alloc, attachment)?,
    })
}

/// The frame of a body whose meta has so many bytes.
#[tactic(auto, unfolding(crate::specs::Stream::Reading::body))]
fn read_body(alloc: Global, at: u64, size: usize, bytes: &[u8]) -> Result<Frame, FeedFault>
    requires within { size ≤ length bytes.now }
    requires small { size < 2 ^ 32 }
    ensures read { Gives result (body_of at size bytes.now) }
    ensures named { IfErr result NamesNoMemory }
{
    let (meta, content) = bytes.split_at(size);
    let meta = read_named(alloc, at, meta)?;
    read_content(alloc, at, meta, content)
}

/// The frame with these sizes, of which the bytes behind the header are given; none where it isn't there whole.
#[tactic(auto, unfolding(crate::specs::Stream::Reading::whole))]
fn read_whole(
    alloc: Global,
    at: u64,
    sizes: Sizes,
    behind: &[u8],
) -> Result<Option<Whole>, FeedFault>
    requires { sizes.meta ≤ sizes.body }
    ensures read { Gives result (whole at (Some sizes) behind.now) }
    ensures named { IfErr result NamesNoMemory }
    ensures within { IfOk result (λ o. IfSome o (λ w. (12 ≤ w.size) × (w.size ≤ 12 + length behind.now))) }
{
    let size = sizes.body as usize;
    if behind.len() < size {
        return Ok(None);
    }
    let frame = read_body(alloc, at, sizes.meta as usize, behind.split_at(size).0)?;
    Ok(Some(Whole {
        frame,
        size: HEADER + size,
    }))
}

/// The frame at the front of these bytes, which begin at the place `at` of the stream; none where it isn't there whole.
#[tactic(auto, using(crate::proofs::Steps::frame_none), unfolding(crate::specs::Stream::Reading::frame, crate::specs::Stream::Reading::whole))]
fn read_frame(alloc: Global, at: u64, bytes: &[u8]) -> Result<Option<Whole>, FeedFault>
    ensures read { Gives result (frame_of at bytes.now) }
    ensures named { IfErr result NamesNoMemory }
    ensures within { IfOk result (λ o. IfSome o (λ w. (12 ≤ w.size) × (w.size ≤ length bytes.now))) }
{
    if bytes.is_empty() {
        return Ok(None);
    }
    let Some(sizes) = read_header(at, bytes)? else {
        return Ok(None);
    };
    read_whole(alloc, at, sizes, bytes.split_at(HEADER).1)
}

/// What stands at the front of these bytes, with want of memory kept apart from the faults of the stream.
pub(crate) fn read_front(
    alloc: Global,
    at: u64,
    bytes: &[u8],
) -> Result<Result<Option<Whole>, FeedFault>, NoMemory>
    ensures read { IfOk result (λ r. r ≡ frame_of at bytes.now) }
    ensures lasting { IfOk result (λ r. IfErr r IsFinal) }
    ensures within { IfOk result (λ r. IfOk r (λ o. IfSome o (λ w. (12 ≤ w.size) × (w.size ≤ length bytes.now)))) }
{
    match read_frame(alloc, at, bytes) {
        Ok(whole) => Ok(Ok(whole)),
        Err(FeedFault::Memory) => Err(NoMemory),
        Err(fault) => Ok(Err(fault)),
    }
}
