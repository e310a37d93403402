ghost use Rattle.std.specs.Prelude.{◌≡◌, IfErr, Err, None};
ghost use Rattle.prpc_frames.specs.Stream.Reading.{begun};
ghost use Rattle.prpc_frames.specs.Seen.{Takes, NamesNoMemory, HandsOut};

use crate::fault::FeedFault;
use crate::frame::Frame;
use crate::taking::take_piece;
use std::alloc::Global;
use std::collections::VecDeque;
use std::marker::Model;

/// Reads a stream of frames that comes in pieces of any size. The frames that it hands out, and the fault, depend on the
/// bytes alone and never on how they were cut.
#[derive(Drop)]
pub struct Frames {
    alloc: Global,
    waiting: VecDeque<Frame>,
    rest: Vec<u8>,
    at: u64,
    fault: Option<FeedFault>,
}

impl Model for Frames {
    ghost use Rattle.std.specs.Prelude.{IfSome};
    ghost use Rattle.prpc_frames.specs.Stream.Reading.{Stream};
    ghost use Rattle.prpc_frames.specs.Seen.{IsFinal};

    ghost Value = { Stream };

    ghost view = { λ f. record { frames = f.waiting.items; rest = f.rest.items; at = f.at; fault = f.fault } };

    ghost invariant = { λ f. IfSome f.fault IsFinal };
}

impl Frames {
    /// A stream of which nothing came yet. It takes no memory.
    pub fn open(alloc: Global) -> Frames
        ensures { result ≡ begun }
    {
        Frames {
            alloc,
            waiting: VecDeque::new(alloc),
            rest: Vec::new(alloc),
            at: 0,
            fault: None,
        }
    }

    /// Adds a piece of any size to the stream. The frames that it makes whole can be taken by `next`.
    ///
    /// A fault is told by the piece that brings it and by each one after it, which adds nothing. Frames before it can
    /// still be taken. After want of memory the piece was not taken, and the stream is as before; it is never told in the
    /// place of a fault that came already.
    pub fn feed(&mut self, piece: &[u8]) -> Result<(), FeedFault>
        ensures taken { Takes self.old piece.now result self.new }
        ensures named { IfErr result NamesNoMemory }

        // A fault that came is told again, and not want of memory.
        ensures again { result ≡ Err FeedFault.Memory → self.old.fault ≡ None }
    {
        if let Some(fault) = self.fault {
            return Err(fault);
        }
        let Ok(reached) = take_piece(
            self.alloc,
            self.at,
            &mut self.rest,
            &mut self.waiting,
            piece,
        ) else {
            return Err(FeedFault::Memory);
        };
        self.at = reached.at;
        self.fault = reached.fault;
        reached.answer()
    }

    /// Hands out the next whole frame, none where every whole frame was handed out. It takes no memory.
    pub fn next(&mut self) -> Option<Frame>
        ensures { HandsOut self.old result self.new }
    {
        self.waiting.pop_front()
    }
}
