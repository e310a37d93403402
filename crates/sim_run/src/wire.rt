ghost use Rattle.std.specs.Prelude.{◌≡◌, ◌^◌, ◌<◌, ◌≤◌, length, IfOk, IfSome, OnOk, OnErr};
ghost use Rattle.sim_run.specs.Wires.{idle_wire, sent, received, lost};
ghost use Rattle.sim_run.specs.Link.{reply_meta, plain_frame, reply_in};
ghost use Rattle.prpc_frames.specs.Stream.Reading.{later};
ghost use Rattle.prpc_frames.specs.Stream.Spelling.{frame_bytes, IsFitting, IsTyped};

use link_core::{Outlog, Outstanding};
use prpc_frames::{Frame, Frames, begins_with_spelled, write_parts};
use rpc_base::{Bytes, NoMemory};
use rpc_meta::{Meta, ResponseMeta, reply_code};
use std::alloc::Global;
use std::marker::Model;

/// What a reply says: the id of its attempt, a code, 0 for success, and a text.
#[derive(Drop)]
pub(crate) struct Reply {
    pub(crate) id: u64,
    pub(crate) code: u32,
    pub(crate) text: Bytes,
}

/// The client's end of the connection to a server: requests go out on it, and replies come in as frames.
#[derive(Drop)]
pub(crate) struct Wire {
    alloc: Global,
    out: Outlog,
    outstanding: Outstanding,
    frames: Frames,
    /// The bytes of the frame that came in last.
    bytes: Vec<u8>,
}

impl Model for Wire {
    ghost use Rattle.sim_run.specs.Link.{Link, IsIdle};

    ghost Value = { Link };

    ghost view = { λ w. record { out = w.out; waiting = w.outstanding; read = w.frames.at } };

    ghost invariant = { λ w. IsIdle w.frames };
}

impl Wire {
    pub(crate) fn open(alloc: Global) -> Result<Wire, NoMemory>
        ensures { IfOk result (λ w. w ≡ idle_wire) }
    {
        Ok(Wire {
            alloc,
            out: Outlog::open(alloc),
            outstanding: Outstanding::open(alloc)?,
            frames: Frames::open(alloc),
            bytes: Vec::new(alloc),
        })
    }

    /// Sends a request under the id of its attempt, which waits for a reply from then on, behind all others.
    pub(crate) fn send(&mut self, id: u64, call: u32, payload: Bytes) -> Result<(), NoMemory>
        ensures { OnOk result (self.new ≡ sent id call payload self.old) }
    {
        self.out.send(id, payload)?;
        self.outstanding.renew(id, call)?;
        Ok(())
    }

    /// A reply comes in as a frame, and is what the frame says. Its id doesn't wait any more.
    pub(crate) fn receive(&mut self, id: u64, code: u32, text: &Bytes) -> Result<Reply, NoMemory>
        requires id { id < 2 ^ 63 }
        requires code { code ≤ 65535 }
        requires text { length text.now ≤ 60000 }
        ensures reply { IfOk result (λ r. r ≡ record { id = id; code = code; text = text.now }) }
        ensures wire { OnOk result (self.new ≡ received (record { id = id; code = code; text = text.now }) self.old) }
    {
        let meta = meta_of(id, code);
        let Some(reply) = reply_of(self.pass(&meta, text.list())?) else {
            unreachable!()
        };
        self.outstanding.remove(reply.id);
        Ok(reply)
    }

    /// An attempt is lost: its id doesn't wait any more.
    pub(crate) fn forget(&mut self, id: u64)
        ensures { self.new ≡ lost id self.old }
    {
        self.outstanding.remove(id);
    }

    /// The frame that comes in where that of this meta and this payload is written, read from its bytes.
    fn pass(&mut self, meta: &Meta, payload: &[u8]) -> Result<Frame, NoMemory>
        requires fitting { IsFitting (plain_frame meta.now payload.now) }
        requires typed { IsTyped meta.now }
        ensures frame { IfOk result (λ f. f ≡ plain_frame meta.now payload.now) }
        ensures wire { OnOk result (self.new ≡ record self.old { read = later self.old.read (length (frame_bytes (plain_frame meta.now payload.now))) }) }
    {
        begins_with_spelled();
        self.bytes.clear();
        write_parts(meta, payload, &[], &mut self.bytes)?;
        // The bytes of a frame that fits have no fault, so that only memory can be wanting.
        let Ok(()) = self.frames.feed(&self.bytes) else {
            return Err(NoMemory);
        };
        let Some(frame) = self.frames.next() else {
            unreachable!()
        };
        Ok(frame)
    }
}

/// The meta of a reply to the attempt of this id, with this code.
fn meta_of(id: u64, code: u32) -> Meta
    requires id { id < 2 ^ 63 }
    requires code { code ≤ 65535 }
    ensures { result ≡ reply_meta id code }
{
    Meta {
        request: None,
        response: Some(ResponseMeta {
            code: Some(code as i32),
            text: None,
        }),
        compress: None,
        correlation: Some(id as i64),
        attachment: None,
    }
}

/// The reply that a frame says. None where it has no correlation id, or a negative one.
fn reply_of(frame: Frame) -> Option<Reply>
    ensures { result ≡ reply_in frame }
{
    let correlation = frame.meta.correlation?;
    if correlation < 0 {
        return None;
    }
    Some(Reply {
        id: correlation as u64,
        code: reply_code(&frame.meta),
        text: frame.payload,
    })
}

/// The same bytes once more.
pub(crate) fn clone_bytes(alloc: Global, bytes: &Bytes) -> Result<Bytes, NoMemory>
    ensures { IfOk result (λ b. b ≡ bytes.now) }
{
    Ok(Bytes::of(Vec::from_slice(alloc, bytes.list())?))
}
