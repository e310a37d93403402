ghost use Rattle.std.specs.Prelude.{◌≡◌, ◌≤◌, ◌<◌, [], ◌++◌, false, None, Some, length, vec_len, IfOk, IfErr, IfSome, OnOk, OnErr};
ghost use Rattle.std.specs.Io.KnownBytes.{append_known};
ghost use Rattle.echo_server.specs.Answers.{after};
ghost use Rattle.echo_server.specs.Serving.{replies, text_for, closes, texts, closes_in, after_all};
ghost use Rattle.echo_server.specs.Ends.{Halts, HasServed};

use crate::answer::Answer;
use crate::echo::Echo;
use crate::piece::{Brought, read_piece};
use crate::served::{Halt, Served};
use crate::writing::write_all;
use prpc_frames::{Frame, Frames, frame_fits, write_frame};
use rpc_base::{Clock, NoMemory, WireIn, WireOut};
use std::alloc::{AllocError, Global};
use std::sync::Wait;

/// How many bytes one read asks for.
const PIECE: usize = 65_536;

/// Serves a wire until its end, until an answer says close, or until something fails. Each whole frame that was read is
/// answered before it ends by `End`, `ReadFault` or `BadFrame`. It may wait, and it naps where an answer says so. It
/// closes nothing.
pub fn serve_loop<R: Wait, I: WireIn, O: WireOut, C: Clock>(
    rt: &R,
    alloc: Global,
    echo: &mut Echo,
    wire_in: &mut I,
    wire_out: &mut O,
    clock: &mut C,
) -> Served
    ensures served { HasServed echo.old echo.new (I.got wire_in.old) (I.got wire_in.new) (O.given wire_out.old) (O.given wire_out.new)
        (I.met wire_in.new) (I.faults wire_in.old) (I.faults wire_in.new) (O.faults wire_out.old) (O.faults wire_out.new) result }
    ensures reads { I.faults wire_in.old ≤ I.faults wire_in.new }
    ensures writes { O.faults wire_out.old ≤ O.faults wire_out.new }
    ensures open { O.closed wire_out.new ≡ O.closed wire_out.old }
    ensures told { C.told clock.new ≡ C.told clock.old }
    ensures high { C.high clock.new ≡ C.high clock.old }
{
    let mut frames = Frames::open(alloc);
    let Ok(mut room) = zeros(alloc, PIECE) else {
        return Served::Memory;
    };
    for _ in rt.forever() {
        let Ok(brought) = read_piece(rt, &mut frames, &mut room, wire_in) else {
            return Served::Memory;
        };
        if let Err(halt) = answer_waiting(rt, alloc, echo, &mut frames, wire_out, clock) {
            return halt.served();
        }
        match brought {
            Brought::More => {}
            Brought::End => return Served::End,
            Brought::Fault => return Served::ReadFault,
            Brought::Bad(fault) => return Served::BadFrame(fault),
        }
    }
    unreachable!()
}

/// Answers the frames that wait, until one says close.
#[tactic(auto, using(crate::proofs::Answered::begun, crate::proofs::Answered::step, crate::proofs::Answered::stays, crate::proofs::Answered::halts, crate::proofs::Answered::all, crate::proofs::Answered::none_closes, crate::proofs::Answered::turn_is, crate::proofs::Answered::left))]
fn answer_waiting<R: Wait, O: WireOut, C: Clock>(
    rt: &R,
    alloc: Global,
    echo: &mut Echo,
    frames: &mut Frames,
    wire: &mut O,
    clock: &mut C,
) -> Result<(), Halt>
    ensures all { OnOk result (O.given wire.new ≡ append_known (O.given wire.old) (texts echo.old frames.old.frames)) }
    ensures goes_on { OnOk result (closes_in echo.old frames.old.frames ≡ false) }
    ensures turn { OnOk result (echo.new ≡ after_all echo.old frames.old.frames) }
    ensures none { OnOk result (frames.new ≡ record frames.old { frames = [] }) }
    ensures halted { IfErr result (Halts (O.given wire.old) (O.given wire.new) (texts echo.old frames.old.frames) (closes_in echo.old frames.old.frames) (O.faults wire.old) (O.faults wire.new)) }
    ensures later { O.faults wire.old ≤ O.faults wire.new }
    ensures open { O.closed wire.new ≡ O.closed wire.old }
    ensures told { C.told clock.new ≡ C.told clock.old }
    ensures high { C.high clock.new ≡ C.high clock.old }
{
    let mut text = Vec::new(alloc);
    while let Some(frame) = frames.next() {
        if let Err(halt) = answer_one(rt, alloc, echo, &frame, &mut text, wire, clock) {
            return Err(halt);
        }
    }
    Ok(())
}

/// Answers one frame. `text` is room for its spelling.
fn answer_one<R: Wait, O: WireOut, C: Clock>(
    rt: &R,
    alloc: Global,
    echo: &mut Echo,
    frame: &Frame,
    text: &mut Vec<u8>,
    wire: &mut O,
    clock: &mut C,
) -> Result<(), Halt>
    ensures text { OnOk result (O.given wire.new ≡ append_known (O.given wire.old) (text_for echo.old frame.now)) }
    ensures goes_on { OnOk result (closes echo.old frame.now ≡ false) }
    ensures turn { OnOk result (echo.new ≡ after echo.old frame.now) }
    ensures halted { IfErr result (Halts (O.given wire.old) (O.given wire.new) (text_for echo.old frame.now) (closes echo.old frame.now) (O.faults wire.old) (O.faults wire.new)) }
    ensures later { O.faults wire.old ≤ O.faults wire.new }
    ensures open { O.closed wire.new ≡ O.closed wire.old }
    ensures told { C.told clock.new ≡ C.told clock.old }
    ensures high { C.high clock.new ≡ C.high clock.old }
{
    let Ok(answer) = echo.answer(alloc, frame) else {
        return Err(Halt::Memory);
    };
    let Ok(()) = spell_answer(&answer, text) else {
        return Err(Halt::Memory);
    };
    if answer.nap > 0 {
        clock.nap(rt, answer.nap);
    }
    let Ok(()) = write_all(rt, wire, text) else {
        return Err(Halt::WriteFault);
    };
    if answer.close {
        return Err(Halt::Closed);
    }
    Ok(())
}

/// Puts what is to be written for an answer into `text`.
fn spell_answer(answer: &Answer, text: &mut Vec<u8>) -> Result<(), NoMemory>
    ensures { OnOk result (text.new.items ≡ replies answer.now.reply answer.now.times) }
{
    text.clear();
    match &answer.reply {
        Some(reply) => put_replies(reply, answer.times, text),
        None => Ok(()),
    }
}

/// Appends a reply so many times.
#[tactic(auto, unfolding(crate::specs::Serving::repeated))]
fn put_replies(reply: &Frame, times: u32, text: &mut Vec<u8>) -> Result<(), NoMemory>
    ensures { OnOk result (text.new.items ≡ text.old.items ++ replies (Some reply.now) times) }
{
    // A reply to a frame that was read always fits.
    if !frame_fits(reply) {
        return Err(NoMemory);
    }
    for _time in 0..times {
        write_frame(reply, text)?;
    }
    Ok(())
}

/// So many zero bytes.
fn zeros(alloc: Global, count: usize) -> Result<Vec<u8>, AllocError>
    ensures { IfOk result (λ bytes. vec_len bytes ≡ count) }
{
    vec![in alloc; 0u8; count]
}
