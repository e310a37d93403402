//! A call, a wire and a lane of which more lines may come.

ghost use Rattle.std.specs.Prelude.{◌≡◌, ◌++◌, ◌∷◌, [], not, OnOk};
ghost use Rattle.journal_text.specs.Empty.{is_empty};

use rpc_base::{List, NoMemory};
use rpc_model::{CallLog, Came, CancelNote, Entry, How, LaneLog, LossNote, Sent, WireLog};
use std::marker::Model;

/// A call whose entries come.
#[derive(Drop)]
pub(crate) struct OpenCall {
    pub(crate) call: u32,
    pub(crate) first: u64,
    pub(crate) width: u32,
    pub(crate) lane: u32,
    pub(crate) moment: u64,
    pub(crate) log: Vec<Entry>,
}

impl Model for OpenCall {
    ghost use Rattle.rpc_model.specs.declared.journal.CallLog.{CallLog as ACall};

    ghost Value = { ACall };

    ghost view = { λ c. record { call = c.call; first = c.first; width = c.width; lane = c.lane; moment = c.moment; log = c.log.items } };
}

impl OpenCall {
    pub(crate) fn push(&mut self, entry: Entry) -> Result<(), NoMemory>
        ensures { OnOk result (self.new ≡ record self.old { log = self.old.log ++ entry ∷ [] }) }
    {
        self.log.push(entry)?;
        Ok(())
    }

    pub(crate) fn close(self) -> CallLog
        ensures { result ≡ self }
    {
        CallLog {
            call: self.call,
            first: self.first,
            width: self.width,
            lane: self.lane,
            moment: self.moment,
            log: List::of(self.log),
        }
    }
}

/// A wire whose lists come.
#[derive(Drop)]
pub(crate) struct OpenWire {
    pub(crate) how: How,
    pub(crate) out: Vec<Sent>,
    pub(crate) came: Vec<Came>,
    pub(crate) losses: Vec<LossNote>,
}

impl Model for OpenWire {
    ghost use Rattle.rpc_model.specs.declared.journal.WireLog.{WireLog as AWire};

    ghost Value = { AWire };

    ghost view = { λ w. record { how = w.how; out = w.out.items; came = w.came.items; losses = w.losses.items } };
}

impl OpenWire {
    pub(crate) fn push_out(&mut self, sent: Sent) -> Result<(), NoMemory>
        ensures { OnOk result (self.new ≡ record self.old { out = self.old.out ++ sent ∷ [] }) }
    {
        self.out.push(sent)?;
        Ok(())
    }

    pub(crate) fn push_came(&mut self, came: Came) -> Result<(), NoMemory>
        ensures { OnOk result (self.new ≡ record self.old { came = self.old.came ++ came ∷ [] }) }
    {
        self.came.push(came)?;
        Ok(())
    }

    pub(crate) fn push_loss(&mut self, loss: LossNote) -> Result<(), NoMemory>
        ensures { OnOk result (self.new ≡ record self.old { losses = self.old.losses ++ loss ∷ [] }) }
    {
        self.losses.push(loss)?;
        Ok(())
    }

    pub(crate) fn has_came(&self) -> bool
        ensures { result ≡ not (is_empty self.now.came) }
    {
        !self.came.is_empty()
    }

    pub(crate) fn has_losses(&self) -> bool
        ensures { result ≡ not (is_empty self.now.losses) }
    {
        !self.losses.is_empty()
    }

    pub(crate) fn close(self) -> WireLog
        ensures { result ≡ self }
    {
        WireLog {
            how: self.how,
            out: List::of(self.out),
            came: List::of(self.came),
            losses: List::of(self.losses),
        }
    }
}

/// A lane whose cancels come.
#[derive(Drop)]
pub(crate) struct OpenLane {
    pub(crate) cancels: Vec<CancelNote>,
}

impl Model for OpenLane {
    ghost use Rattle.rpc_model.specs.declared.journal.LaneLog.{LaneLog as ALane};

    ghost Value = { ALane };

    ghost view = { λ l. record { cancels = l.cancels.items } };
}

impl OpenLane {
    pub(crate) fn push(&mut self, cancel: CancelNote) -> Result<(), NoMemory>
        ensures { OnOk result (self.new ≡ record self.old { cancels = self.old.cancels ++ cancel ∷ [] }) }
    {
        self.cancels.push(cancel)?;
        Ok(())
    }

    pub(crate) fn close(self) -> LaneLog
        ensures { result ≡ self }
    {
        LaneLog {
            cancels: List::of(self.cancels),
        }
    }
}
