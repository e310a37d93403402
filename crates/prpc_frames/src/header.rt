ghost use Rattle.std.specs.Prelude.{◌≡◌, ◌≤◌, ◌+◌, ℕ, length, Ok, IfOk, IfErr, IfSome, IsTrue};
ghost use Rattle.prpc_frames.specs.Stream.Reading.{magic, begins, number_at, sizes as sizes_of, header};
ghost use Rattle.prpc_frames.specs.Seen.{IsFinal};

use crate::fault::FeedFault;
use byteorder::{BigEndian, ByteOrder};

/// The first four bytes of a frame.
pub(crate) const MAGIC: [u8; 4] = *b"PRPC";

/// How many bytes a header has.
pub(crate) const HEADER: usize = 12;

/// The most bytes that a body has.
pub(crate) const MOST: u32 = 16_777_216;

/// What a header says.
#[derive(Clone, Copy, Debug)]
pub(crate) struct Sizes {
    /// How many bytes the body has.
    pub(crate) body: u32,
    /// How many of these are the meta, at the front.
    pub(crate) meta: u32,
}

/// Whether the bytes begin with the whole magic.
#[tactic(auto, using(crate::proofs::Magic::begins_whole))]
fn has_magic(bytes: &[u8]) -> bool
    ensures { IsTrue result → ((at : ℕ) → begins at magic bytes.now ≡ Ok tt) }
{
    bytes.len() >= 4 && bytes[0] == b'P' && bytes[1] == b'R' && bytes[2] == b'P' && bytes[3] == b'C'
}

/// Refuses the first of the bytes that differs from the magic. Most frames begin with all of it, so that is asked first.
fn check_start(at: u64, bytes: &[u8]) -> Result<(), FeedFault>
    ensures read { result ≡ begins at magic bytes.now }
    ensures named { IfErr result IsFinal }
{
    if has_magic(bytes) {
        return Ok(());
    }
    check_magic(at, &MAGIC, bytes)
}

/// The same byte by byte, for any magic.
#[tactic(auto, unfolding(crate::specs::Stream::Reading::begins))]
fn check_magic(at: u64, magic: &[u8], bytes: &[u8]) -> Result<(), FeedFault>
    ensures read { result ≡ begins at magic.now bytes.now }
    ensures named { IfErr result IsFinal }
{
    let Some((wanted, magic)) = magic.split_first() else {
        return Ok(());
    };
    let Some((byte, bytes)) = bytes.split_first() else {
        return Ok(());
    };
    if *byte != *wanted {
        return Err(FeedFault::Magic(at));
    }
    check_magic(at.saturating_add(1), magic, bytes)
}

/// The number of 32 bits in network order at this place.
#[inline(always)]
#[tactic(auto, unfolding(crate::specs::Stream::Reading::number_at))]
fn read_number(bytes: &[u8], at: usize) -> u32
    requires { at + 4 ≤ length bytes.now }
    ensures { result ≡ number_at at bytes.now }
{
    BigEndian::read_u32(bytes.split_at(at).1)
}

#[tactic(auto, unfolding(crate::specs::Stream::Reading::sizes))]
fn check_sizes(at: u64, body: u32, meta: u32) -> Result<Option<Sizes>, FeedFault>
    ensures read { result ≡ sizes_of at body meta }
    ensures named { IfErr result IsFinal }
    ensures within { IfOk result (λ o. IfSome o (λ s. s.meta ≤ s.body)) }
{
    if body > MOST {
        return Err(FeedFault::TooLarge(at));
    }
    if meta > body {
        return Err(FeedFault::MetaPastBody(at));
    }
    Ok(Some(Sizes { body, meta }))
}

/// Reads the header of a frame that begins at the place `at`; none where it isn't there whole.
#[tactic(auto, unfolding(crate::specs::Stream::Reading::header))]
pub(crate) fn read_header(at: u64, bytes: &[u8]) -> Result<Option<Sizes>, FeedFault>
    ensures read { result ≡ header at bytes.now }
    ensures named { IfErr result IsFinal }
    ensures within { IfOk result (λ o. IfSome o (λ s. (s.meta ≤ s.body) × (12 ≤ length bytes.now))) }
{
    check_start(at, bytes)?;
    if bytes.len() < HEADER {
        return Ok(None);
    }
    check_sizes(at, read_number(bytes, 4), read_number(bytes, 8))
}
