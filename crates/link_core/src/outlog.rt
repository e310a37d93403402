ghost use Rattle.std.specs.Prelude.{◌≡◌, [], ◌∷◌, ◌++◌, length, IfOk, OnOk, OnErr};

use rpc_base::{Bytes, NoMemory};
use rpc_model::Sent;
use std::alloc::Global;
use std::marker::Model;

/// What went out on a wire. A contract sees it as the list of the requests, in the order of sending.
#[derive(Drop)]
pub struct Outlog {
    sent: Vec<Sent>,
}

impl Model for Outlog {
    ghost use Rattle.std.specs.Prelude.{List};
    ghost use Rattle.rpc_model.specs.declared.sent.Sent.{Sent as ASent};

    ghost Value = { List ASent };

    ghost view = { λ o. o.sent.items };
}

impl Outlog {
    /// Nothing sent yet. It takes no memory.
    pub fn open(alloc: Global) -> Outlog
        ensures { result ≡ [] }
    {
        Outlog {
            sent: Vec::new(alloc),
        }
    }

    /// Sends these bytes under this id, behind all that went out, and answers their place: how many requests went out
    /// before. Where memory runs out nothing is sent.
    pub fn send(&mut self, id: u64, payload: Bytes) -> Result<u64, NoMemory>
        ensures sent { OnOk result (self.new ≡ self.old ++ record { id = id; payload = payload } ∷ []) }
        ensures place { IfOk result (λ at. at ≡ length self.old) }
        ensures kept { OnErr result (self.new ≡ self.old) }
    {
        let at = self.sent.len() as u64;
        self.sent.push(Sent { id, payload })?;
        Ok(at)
    }

    /// Lends what went out, in the order of sending.
    pub fn list(&self) -> &[Sent]
        ensures { result.now ≡ self.now }
    {
        self.sent.as_slice()
    }
}
