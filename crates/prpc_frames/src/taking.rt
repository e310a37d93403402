ghost use Rattle.std.specs.Prelude.{◌≡◌, ◌++◌, ◌≤◌, [], length, drop, IfOk, IfSome, OnErr};
ghost use Rattle.std.specs.Vec.{vec_len};
ghost use Rattle.prpc_frames.specs.Stream.Reading.{frames as frames_of, joined};
ghost use Rattle.prpc_frames.specs.Seen.{answer_of, stream_seen, IsFinal, IsPrefix};

use crate::fault::FeedFault;
use crate::frame::Frame;
use crate::reading::read_front;
use rpc_base::NoMemory;
use std::alloc::Global;
use std::collections::VecDeque;

/// How far bytes were read: how many were used up, the place behind the last whole frame, and the fault there.
#[derive(Clone, Copy, Debug)]
pub(crate) struct Reached {
    pub(crate) used: usize,
    pub(crate) at: u64,
    pub(crate) fault: Option<FeedFault>,
}

impl Reached {
    /// The fault, if there is one.
    pub(crate) fn answer(&self) -> Result<(), FeedFault>
        ensures { result ≡ answer_of self.now.fault }
    {
        match self.fault {
            None => Ok(()),
            Some(fault) => Err(fault),
        }
    }
}

/// Reads the whole frames at the front of bytes that begin at the place `at` of the stream, and puts each behind those
/// that wait. After want of memory some may stand there.
fn read_frames(
    alloc: Global,
    at: u64,
    bytes: &[u8],
    waiting: &mut VecDeque<Frame>,
) -> Result<Reached, NoMemory>
    ensures read { IfOk result (λ r. stream_seen waiting.new.items r bytes.now ≡ joined waiting.old.items (frames_of at bytes.now)) }
    ensures within { IfOk result (λ r. r.used ≤ length bytes.now) }
    ensures lasting { IfOk result (λ r. IfSome r.fault IsFinal) }
    ensures begun { OnErr result (IsPrefix waiting.old.items waiting.new.items) }
{
    let mut used = 0;
    let mut place = at;
    'frames: loop {
        match read_front(alloc, place, bytes.split_at(used).1)? {
            Ok(Some(whole)) => {
                waiting.reserve(1)?;
                waiting.push_back_reserved(whole.frame);
                place = place.saturating_add(whole.size as u64);
                used += whole.size;
            }
            Ok(None) => {
                return Ok(Reached {
                    used,
                    at: place,
                    fault: None,
                });
            }
            Err(fault) => {
                return Ok(Reached {
                    used: bytes.len(),
                    at: place,
                    fault: Some(fault),
                });
            }
        }
    }
}

/// Room for so many frames is kept where none waits.
const KEPT_FRAMES: usize = 256;

/// Puts the whole frames at the front of the bytes behind those that wait. Where none waits, much of the room of the
/// frames before is given back.
fn move_frames(
    alloc: Global,
    at: u64,
    bytes: &[u8],
    waiting: &mut VecDeque<Frame>,
) -> Result<Reached, NoMemory>
    ensures read { IfOk result (λ r. stream_seen waiting.new.items r bytes.now ≡ joined waiting.old.items (frames_of at bytes.now)) }
    ensures within { IfOk result (λ r. r.used ≤ length bytes.now) }
    ensures lasting { IfOk result (λ r. IfSome r.fault IsFinal) }
    ensures kept { OnErr result (waiting.new.items ≡ waiting.old.items) }
{
    let before = waiting.len();
    if before == 0 {
        waiting.shrink_to(KEPT_FRAMES);
    }
    match read_frames(alloc, at, bytes, waiting) {
        Ok(reached) => Ok(reached),
        Err(NoMemory) => {
            waiting.truncate(before);
            Err(NoMemory)
        }
    }
}

/// So many bytes of room are kept, however few bytes there are.
const KEPT: usize = 65_536;

/// Takes out the first bytes, and gives memory back where the room is more than four times what is left.
fn drop_front(bytes: &mut Vec<u8>, count: usize)
    requires { count ≤ vec_len bytes.old }
    ensures { bytes.new.items ≡ drop count bytes.old.items }
{
    drop(bytes.drain(..count));
    if bytes.capacity() > KEPT && bytes.len() < bytes.capacity() / 4 {
        bytes.shrink_to(KEPT);
    }
}

/// Appends the piece to the rest of the stream, which begins at the place `at`, and moves the whole frames out of it.
/// After want of memory both lists are as before.
pub(crate) fn take_piece(
    alloc: Global,
    at: u64,
    rest: &mut Vec<u8>,
    waiting: &mut VecDeque<Frame>,
    piece: &[u8],
) -> Result<Reached, NoMemory>
    ensures read { IfOk result (λ r. record { frames = waiting.new.items; rest = rest.new.items; at = r.at; fault = r.fault } ≡ joined waiting.old.items (frames_of at (rest.old.items ++ piece.now))) }
    ensures lasting { IfOk result (λ r. IfSome r.fault IsFinal) }
    ensures rest_kept { OnErr result (rest.new.items ≡ rest.old.items) }
    ensures waiting_kept { OnErr result (waiting.new.items ≡ waiting.old.items) }
{
    if rest.is_empty() {
        return take_whole(alloc, at, rest, waiting, piece);
    }
    take_behind(alloc, at, rest, waiting, piece)
}

/// Takes a piece where something is left of the stream, which is copied behind that.
fn take_behind(
    alloc: Global,
    at: u64,
    rest: &mut Vec<u8>,
    waiting: &mut VecDeque<Frame>,
    piece: &[u8],
) -> Result<Reached, NoMemory>
    ensures read { IfOk result (λ r. record { frames = waiting.new.items; rest = rest.new.items; at = r.at; fault = r.fault } ≡ joined waiting.old.items (frames_of at (rest.old.items ++ piece.now))) }
    ensures lasting { IfOk result (λ r. IfSome r.fault IsFinal) }
    ensures rest_kept { OnErr result (rest.new.items ≡ rest.old.items) }
    ensures waiting_kept { OnErr result (waiting.new.items ≡ waiting.old.items) }
{
    let before = rest.len();
    rest.extend_from_slice(piece)?;
    match move_frames(alloc, at, rest, waiting) {
        Ok(reached) => {
            drop_front(rest, reached.used);
            Ok(reached)
        }
        Err(NoMemory) => {
            rest.truncate(before);
            Err(NoMemory)
        }
    }
}

/// Takes a piece where nothing is left of the stream. Its frames are read where it lies, and only the bytes behind them
/// are copied.
fn take_whole(
    alloc: Global,
    at: u64,
    rest: &mut Vec<u8>,
    waiting: &mut VecDeque<Frame>,
    piece: &[u8],
) -> Result<Reached, NoMemory>
    requires { rest.old.items ≡ [] }
    ensures read { IfOk result (λ r. record { frames = waiting.new.items; rest = rest.new.items; at = r.at; fault = r.fault } ≡ joined waiting.old.items (frames_of at piece.now)) }
    ensures lasting { IfOk result (λ r. IfSome r.fault IsFinal) }
    ensures rest_kept { OnErr result (rest.new.items ≡ rest.old.items) }
    ensures waiting_kept { OnErr result (waiting.new.items ≡ waiting.old.items) }
{
    let before = waiting.len();
    let reached = move_frames(alloc, at, piece, waiting)?;
    let left = piece.split_at(reached.used).1;
    if left.is_empty() {
        return Ok(reached);
    }
    match rest.extend_from_slice(left) {
        Ok(()) => Ok(reached),
        Err(_) => {
            waiting.truncate(before);
            Err(NoMemory)
        }
    }
}
