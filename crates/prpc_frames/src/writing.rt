ghost use Rattle.std.specs.Prelude.{◌≡◌, ◌++◌, ◌↔◌, ◌≤◌, ◌-◌, ◌^◌, min, length, pos, IfOk, IfSome, OnOk, OnErr, IsTrue};
ghost use Rattle.rpc_meta.specs.Meta.{meta_bytes};
ghost use Rattle.rpc_meta.specs.Appending.{Begins};
ghost use Rattle.prpc_frames.specs.Stream.Spelling.{number_bytes, header_bytes, body_bytes, frame_bytes, frame_of, IsTold, IsFitting};

use crate::frame::Frame;
use crate::header::{HEADER, MAGIC, MOST, Sizes};
use byteorder::{BigEndian, ByteOrder};
use rpc_base::NoMemory;
use rpc_meta::{Meta, is_writable, spelled_len, write_meta};

/// Whether the meta tells the size of an attachment of so many bytes. It may be silent where there is none.
fn tells_attachment(meta: &Meta, len: usize) -> bool
    ensures { IsTrue result ↔ IsTold meta.now.attachment len }
{
    match meta.attachment {
        None => len == 0,
        Some(size) => size >= 0 && size as u64 == len as u64,
    }
}

/// Whether no compress type is there, or 0.
fn is_plain(meta: &Meta) -> bool
    ensures { IsTrue result ↔ IfSome meta.now.compress (λ z. z ≡ pos 0) }
{
    match meta.compress {
        None => true,
        Some(kind) => kind == 0,
    }
}

/// How many bytes the body has, or 2^64 - 1 where they are more.
#[tactic(auto, unfolding(crate::specs::Stream::Spelling::body_bytes))]
fn body_len(meta: &Meta, payload: &[u8], attachment: &[u8]) -> u64
    ensures { result ≡ min (length (body_bytes (frame_of meta.now payload.now attachment.now))) (2 ^ 64 - 1) }
{
    spelled_len(meta)
        .saturating_add(payload.len() as u64)
        .saturating_add(attachment.len() as u64)
}

/// Whether `write_frame` may be called: the body has at most 16,777,216 bytes, the meta tells the size of the attachment
/// or is silent where there is none, the compress type is absent or 0, and the meta may be written.
pub fn frame_fits(frame: &Frame) -> bool
    ensures { IsTrue result ↔ IsFitting frame.now }
{
    let attachment = frame.attachment.list();
    body_len(&frame.meta, frame.payload.list(), attachment) <= MOST as u64
        && tells_attachment(&frame.meta, attachment.len())
        && is_plain(&frame.meta)
        && is_writable(&frame.meta)
}

/// How many bytes the body and its meta have, where the frame fits.
#[tactic(auto, unfolding(crate::specs::Stream::Spelling::body_bytes))]
fn sizes_of(meta: &Meta, payload: &[u8], attachment: &[u8]) -> Sizes
    requires { IsFitting (frame_of meta.now payload.now attachment.now) }
    ensures body { result.body ≡ length (body_bytes (frame_of meta.now payload.now attachment.now)) }
    ensures meta { result.meta ≡ length (meta_bytes meta.now) }
    ensures most { result.body ≤ 16777216 }
{
    let size = spelled_len(meta) as u32;
    Sizes {
        body: size + payload.len() as u32 + attachment.len() as u32,
        meta: size,
    }
}

/// A number of 32 bits in network order.
#[inline(always)]
#[tactic(auto, unfolding(crate::specs::Stream::Spelling::number_bytes))]
fn spelled(number: u32) -> [u8; 4]
    ensures { result ≡ number_bytes number }
{
    let mut bytes = [0u8; 4];
    BigEndian::write_u32(&mut bytes, number);
    bytes
}

/// The header: the magic, and how many bytes the body and the meta have, in network order.
#[tactic(auto, unfolding(crate::specs::Stream::Spelling::number_bytes))]
fn header_of(body: u32, meta: u32) -> [u8; HEADER]
    ensures { result ≡ header_bytes body meta }
{
    let body = spelled(body);
    let meta = spelled(meta);
    [
        MAGIC[0], MAGIC[1], MAGIC[2], MAGIC[3], body[0], body[1], body[2], body[3], meta[0],
        meta[1], meta[2], meta[3],
    ]
}

/// The meta, the payload and the attachment.
#[tactic(auto, using(crate::proofs::Begun::begun_past), unfolding(crate::specs::Stream::Spelling::body_bytes))]
fn put_body(
    to: &mut Vec<u8>,
    meta: &Meta,
    payload: &[u8],
    attachment: &[u8],
) -> Result<(), NoMemory>
    requires { IsFitting (frame_of meta.now payload.now attachment.now) }
    ensures written { OnOk result (to.new.items ≡ to.old.items ++ body_bytes (frame_of meta.now payload.now attachment.now)) }
    ensures begun { OnErr result (Begins to.old.items to.new.items) }
{
    write_meta(meta, to)?;
    to.extend_from_slice(payload)?;
    if attachment.is_empty() {
        return Ok(());
    }
    to.extend_from_slice(attachment)?;
    Ok(())
}

/// The header and the body.
#[tactic(auto, using(crate::proofs::Begun::begun_past), unfolding(crate::specs::Stream::Spelling::frame_bytes))]
fn put_frame(
    to: &mut Vec<u8>,
    meta: &Meta,
    payload: &[u8],
    attachment: &[u8],
) -> Result<(), NoMemory>
    requires { IsFitting (frame_of meta.now payload.now attachment.now) }
    ensures written { OnOk result (to.new.items ≡ to.old.items ++ frame_bytes (frame_of meta.now payload.now attachment.now)) }
    ensures begun { OnErr result (Begins to.old.items to.new.items) }
{
    let sizes = sizes_of(meta, payload, attachment);
    to.reserve(HEADER + sizes.body as usize)?;
    to.extend_from_slice(&header_of(sizes.body, sizes.meta))?;
    put_body(to, meta, payload, attachment)?;
    Ok(())
}

/// Appends the one spelling of this frame. It makes room for all of it at once. After want of memory `to` is as before.
///
/// The condition, which `frame_fits` tests, is what makes the spelling one that `Frames` hands out as that frame.
pub fn write_frame(frame: &Frame, to: &mut Vec<u8>) -> Result<(), NoMemory>
    requires { IsFitting frame.now }
    ensures written { OnOk result (to.new.items ≡ to.old.items ++ frame_bytes frame.now) }
    ensures kept { OnErr result (to.new.items ≡ to.old.items) }
{
    write_parts(
        &frame.meta,
        frame.payload.list(),
        frame.attachment.list(),
        to,
    )
}

/// Appends the one spelling of the frame of a meta, a payload and an attachment, which need not be copied into a frame
/// first. All else is as with `write_frame`.
pub fn write_parts(
    meta: &Meta,
    payload: &[u8],
    attachment: &[u8],
    to: &mut Vec<u8>,
) -> Result<(), NoMemory>
    requires { IsFitting (frame_of meta.now payload.now attachment.now) }
    ensures written { OnOk result (to.new.items ≡ to.old.items ++ frame_bytes (frame_of meta.now payload.now attachment.now)) }
    ensures kept { OnErr result (to.new.items ≡ to.old.items) }
{
    let before = to.len();
    match put_frame(to, meta, payload, attachment) {
        Ok(()) => Ok(()),
        Err(NoMemory) => {
            to.truncate(before);
            Err(NoMemory)
        }
    }
}
