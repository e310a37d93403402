ghost use Rattle.std.specs.Prelude.{◌≡◌, ◌^◌, ◌<◌, [], ◌∷◌, ◌++◌, OnOk};
ghost use Rattle.rpc_model.specs.Effects.{mark_after, server_of};

use rpc_base::{Bytes, NoMemory};
use rpc_model::{LeafChan, MarkAt, Send};
use std::alloc::Global;

/// Room for what goes out on a step: two lists whose own items are dropped, so that many steps may use them in turn.
#[derive(Drop)]
pub struct Spare {
    /// Room for the requests.
    pub sends: Vec<Send>,
    /// Room for the marks.
    pub marks: Vec<MarkAt>,
}

impl Spare {
    /// No room yet. It takes no memory.
    pub fn new(alloc: Global) -> Spare
        ensures sends { result.sends.items ≡ [] }
        ensures marks { result.marks.items ≡ [] }
    {
        Spare {
            sends: Vec::new(alloc),
            marks: Vec::new(alloc),
        }
    }
}

/// What goes out on a step so far, in order.
#[derive(Drop)]
pub(crate) struct Outbox {
    pub(crate) sends: Vec<Send>,
    pub(crate) marks: Vec<MarkAt>,
}

impl Outbox {
    /// Nothing went out yet. What goes out comes into the room that is given.
    pub(crate) fn new(spare: Spare) -> Outbox
        ensures sends { result.sends.items ≡ [] }
        ensures marks { result.marks.items ≡ [] }
    {
        let Spare {
            mut sends,
            mut marks,
        } = spare;
        sends.clear();
        marks.clear();
        Outbox { sends, marks }
    }

    /// A leaf's attempt sends its request.
    pub(crate) fn send(
        &mut self,
        alloc: Global,
        chan: &LeafChan,
        call: u32,
        node: u32,
        attempt: u32,
        request: &[u8],
    ) -> Result<(), NoMemory>
        ensures sends { OnOk result (self.new.sends.items ≡ self.old.sends.items ++ record { node = node; attempt = attempt; server = server_of chan.now call attempt; payload = request.now } ∷ []) }
        ensures marks { OnOk result (self.new.marks.items ≡ self.old.marks.items) }
    {
        let payload = Bytes::of(Vec::from_slice(alloc, request)?);
        let server = server_of(chan, call, attempt);
        self.sends.push(Send {
            node,
            attempt,
            server,
            payload,
        })?;
        Ok(())
    }

    /// A node sets the mark of this wait in milliseconds, if it has one.
    pub(crate) fn mark(
        &mut self,
        wait: Option<u32>,
        node: u32,
        moment: u64,
        backup: bool,
    ) -> Result<(), NoMemory>
        requires early { moment < 2 ^ 60 }
        ensures marks { OnOk result (self.new.marks.items ≡ self.old.marks.items ++ mark_after wait node moment backup) }
        ensures sends { OnOk result (self.new.sends.items ≡ self.old.sends.items) }
    {
        if let Some(wait) = wait {
            self.marks.push(MarkAt {
                moment: moment + u64::from(wait),
                node,
                backup,
            })?;
        }
        Ok(())
    }
}

/// The server of an attempt of a call: attempts go round the channel's servers, from the one that the call's number names.
fn server_of(chan: &LeafChan, call: u32, attempt: u32) -> u32
    ensures { result ≡ server_of chan.now call attempt }
{
    let servers = chan.servers.list();
    if servers.is_empty() {
        return 0;
    }
    let at = (u64::from(call) + u64::from(attempt)) % servers.len() as u64;
    servers[at as usize]
}
