ghost use Rattle.std.specs.Prelude.{◌≡◌, ◌≤◌, ◌<◌, None, length, IfOk, OnErr};
ghost use Rattle.echo_server.specs.Ends.{Brings, LosesOne};

use prpc_frames::{FeedFault, Frames};
use rpc_base::{NoMemory, WireIn};
use std::sync::Wait;

/// What one read of a wire brought.
#[derive(Clone, Copy, Debug, PartialEq, Eq)]
pub enum Brought {
    /// A piece, which the stream took.
    More,
    /// Nothing: the wire's end.
    End,
    /// Nothing: the reading failed.
    Fault,
    /// A piece in which the stream has this fault, which is never want of memory.
    Bad(FeedFault),
}

/// Reads once and feeds what came. It may wait. Where memory runs out a piece may have been read that the stream didn't
/// take.
pub fn read_piece<R: Wait, I: WireIn>(
    rt: &R,
    frames: &mut Frames,
    room: &mut [u8],
    wire: &mut I,
) -> Result<Brought, NoMemory>
    requires room { 0 < length room.old }
    requires plain { frames.old.fault ≡ None }
    ensures brings { IfOk result (Brings (I.got wire.old) (I.got wire.new) frames.old frames.new (I.faults wire.old) (I.faults wire.new) (I.met wire.new)) }
    ensures lost { OnErr result (LosesOne (I.got wire.old) (I.got wire.new)) }
    ensures same { OnErr result (frames.new ≡ frames.old) }
    ensures later { I.faults wire.old ≤ I.faults wire.new }
{
    let Ok(count) = wire.read(rt, room) else {
        return Ok(Brought::Fault);
    };
    match frames.feed(&room[..count]) {
        Ok(()) if count == 0 => Ok(Brought::End),
        Ok(()) => Ok(Brought::More),
        Err(FeedFault::Memory) => Err(NoMemory),
        Err(fault) => Ok(Brought::Bad(fault)),
    }
}
