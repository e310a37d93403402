ghost use Rattle.std.specs.Prelude.{◌≡◌, [], ◌∷◌, ◌++◌, length, IfOk, OnOk, OnErr};

use rpc_base::{Bytes, NoMemory};
use rpc_model::{Came, Fate, LossNote};
use std::alloc::Global;
use std::marker::Model;

/// What came in on a wire and what was lost on it. A contract sees it as these two lists, each in the order of noting.
#[derive(Drop)]
pub struct Inlog {
    came: Vec<Came>,
    losses: Vec<LossNote>,
}

impl Model for Inlog {
    ghost use Rattle.link_core.specs.Noted.{Noted};

    ghost Value = { Noted };

    ghost view = { λ l. record { came = l.came.items; losses = l.losses.items } };
}

impl Inlog {
    /// Nothing noted yet. It takes no memory.
    pub fn open(alloc: Global) -> Inlog
        ensures { result ≡ record { came = []; losses = [] } }
    {
        Inlog {
            came: Vec::new(alloc),
            losses: Vec::new(alloc),
        }
    }

    /// Notes a frame behind all that came in, and answers its place: how many frames came in before. Where memory runs
    /// out nothing is noted.
    pub fn note(&mut self, id: u64, code: u32, payload: Bytes, fate: Fate) -> Result<u64, NoMemory>
        ensures noted { OnOk result (self.new ≡ record self.old { came = self.old.came ++ record { id = id; code = code; payload = payload; fate = fate } ∷ [] }) }
        ensures place { IfOk result (λ at. at ≡ length self.old.came) }
        ensures kept { OnErr result (self.new ≡ self.old) }
    {
        let at = self.came.len() as u64;
        self.came.push(Came {
            id,
            code,
            payload,
            fate,
        })?;
        Ok(at)
    }

    /// Notes a loss behind all that were noted, with the number of frames noted before it, and answers its place: how many
    /// losses were noted before. Where memory runs out nothing is noted.
    pub fn note_loss(&mut self, id: u64, code: u32, fate: Fate) -> Result<u64, NoMemory>
        ensures noted { OnOk result (self.new ≡ record self.old { losses = self.old.losses ++ record { id = id; code = code; after = length self.old.came; fate = fate } ∷ [] }) }
        ensures place { IfOk result (λ at. at ≡ length self.old.losses) }
        ensures kept { OnErr result (self.new ≡ self.old) }
    {
        let at = self.losses.len() as u64;
        self.losses.push(LossNote {
            id,
            code,
            after: self.came.len() as u64,
            fate,
        })?;
        Ok(at)
    }

    /// Lends the frames, in the order of noting.
    pub fn came(&self) -> &[Came]
        ensures { result.now ≡ self.now.came }
    {
        self.came.as_slice()
    }

    /// Lends the losses, in the order of noting.
    pub fn losses(&self) -> &[LossNote]
        ensures { result.now ≡ self.now.losses }
    {
        self.losses.as_slice()
    }
}
