ghost use Rattle.std.specs.Prelude.{◌≡◌, ◌+◌, ◌++◌, ◌∷◌, [], None, Some, length, OnOk, IfOk};
ghost use Rattle.journal_text.specs.Drafts as spec;
ghost use Rattle.journal_text.specs.Judging.{Judged};
ghost use Rattle.journal_text.specs.declared.draft.Stage.TheVariants.{Wires, Lanes};

use crate::fault::LineFault;
use crate::open::{OpenCall, OpenLane, OpenWire};
use crate::said::line_of;
use rpc_base::{List, NoMemory};
use rpc_model::{
    CallLog, Came, CancelNote, Entry, Fired, How, Journal, LaneLog, Line, LossNote, Sent, WireLog,
};
use std::alloc::Global;
use std::marker::Model;

/// Which part of a journal its last line belongs to.
#[derive(Clone, Copy, Debug, PartialEq, Eq)]
pub(crate) enum Stage {
    Calls,
    Wires,
    Marks,
    Lanes,
}

/// A journal that is being read. The call, the wire and the lane whose lines come now stand apart.
#[derive(Drop)]
pub(crate) struct Draft {
    alloc: Global,
    stage: Stage,
    calls: Vec<CallLog>,
    call: Option<OpenCall>,
    wires: Vec<WireLog>,
    wire: Option<OpenWire>,
    marks: Vec<Fired>,
    lanes: Vec<LaneLog>,
    lane: Option<OpenLane>,
}

impl Model for Draft {
    ghost use Rattle.journal_text.specs.Drafts.{Draft as ADraft};

    ghost Value = { ADraft };

    ghost view = { λ d. record { stage = d.stage; calls = d.calls.items; call = d.call; wires = d.wires.items; wire = d.wire; marks = d.marks.items; lanes = d.lanes.items; lane = d.lane } };
}

impl Draft {
    /// A journal of which no line came.
    pub(crate) fn new(alloc: Global) -> Draft
        ensures { result ≡ spec.begun }
    {
        Draft {
            alloc,
            stage: Stage::Calls,
            calls: Vec::new(alloc),
            call: None,
            wires: Vec::new(alloc),
            wire: None,
            marks: Vec::new(alloc),
            lanes: Vec::new(alloc),
            lane: None,
        }
    }

    /// Begins a call, behind those before.
    fn open_call(&mut self, call: OpenCall) -> Result<(), NoMemory>
        ensures { OnOk result (self.new ≡ record self.old { calls = spec.with_last self.old.calls self.old.call; call = Some call }) }
    {
        if let Some(before) = self.call.take() {
            self.calls.push(before.close())?;
        }
        self.call = Some(call);
        Ok(())
    }

    /// Begins a wire, behind those before.
    fn open_wire(&mut self, wire: OpenWire) -> Result<(), NoMemory>
        ensures { OnOk result (self.new ≡ record self.old { stage = Wires; wires = spec.with_last self.old.wires self.old.wire; wire = Some wire }) }
    {
        if let Some(before) = self.wire.take() {
            self.wires.push(before.close())?;
        }
        self.wire = Some(wire);
        self.stage = Stage::Wires;
        Ok(())
    }

    /// Begins a lane, behind those before.
    fn open_lane(&mut self, lane: OpenLane) -> Result<(), NoMemory>
        ensures { OnOk result (self.new ≡ record self.old { stage = Lanes; lanes = spec.with_last self.old.lanes self.old.lane; lane = Some lane }) }
    {
        if let Some(before) = self.lane.take() {
            self.lanes.push(before.close())?;
        }
        self.lane = Some(lane);
        self.stage = Stage::Lanes;
        Ok(())
    }

    /// How many wires came.
    fn wire_count(&self) -> usize
        ensures { result ≡ length (spec.with_last self.now.wires self.now.wire) }
    {
        match self.wire {
            Some(_) => self.wires.len() + 1,
            None => self.wires.len(),
        }
    }

    /// How many lanes came.
    fn lane_count(&self) -> usize
        ensures { result ≡ length (spec.with_last self.now.lanes self.now.lane) }
    {
        match self.lane {
            Some(_) => self.lanes.len() + 1,
            None => self.lanes.len(),
        }
    }

    fn call_line(
        &mut self,
        call: u32,
        first: u64,
        width: u32,
        lane: u32,
        moment: u64,
    ) -> Result<(), LineFault>
        ensures { Judged result self.new (spec.with_call self.old call first width lane moment) }
    {
        if self.stage != Stage::Calls {
            return Err(LineFault::Refused);
        }
        self.open_call(OpenCall {
            call,
            first,
            width,
            lane,
            moment,
            log: Vec::new(self.alloc),
        })?;
        Ok(())
    }

    fn entry_line(&mut self, entry: Entry) -> Result<(), LineFault>
        ensures { Judged result self.new (spec.with_entry self.old entry) }
    {
        if self.stage != Stage::Calls {
            return Err(LineFault::Refused);
        }
        let Some(call) = &mut self.call else {
            return Err(LineFault::Refused);
        };
        call.push(entry)?;
        Ok(())
    }

    fn wire_line(&mut self, server: u64, how: How) -> Result<(), LineFault>
        ensures { Judged result self.new (spec.with_wire self.old server how) }
    {
        if self.stage != Stage::Calls && self.stage != Stage::Wires {
            return Err(LineFault::Refused);
        }
        if server != self.wire_count() as u64 {
            return Err(LineFault::Refused);
        }
        self.open_wire(OpenWire {
            how,
            out: Vec::new(self.alloc),
            came: Vec::new(self.alloc),
            losses: Vec::new(self.alloc),
        })?;
        Ok(())
    }

    fn out_line(&mut self, sent: Sent) -> Result<(), LineFault>
        ensures { Judged result self.new (spec.with_out self.old sent) }
    {
        if self.stage != Stage::Wires {
            return Err(LineFault::Refused);
        }
        let Some(wire) = &mut self.wire else {
            return Err(LineFault::Refused);
        };
        if wire.has_came() || wire.has_losses() {
            return Err(LineFault::Refused);
        }
        wire.push_out(sent)?;
        Ok(())
    }

    fn in_line(&mut self, came: Came) -> Result<(), LineFault>
        ensures { Judged result self.new (spec.with_came self.old came) }
    {
        if self.stage != Stage::Wires {
            return Err(LineFault::Refused);
        }
        let Some(wire) = &mut self.wire else {
            return Err(LineFault::Refused);
        };
        if wire.has_losses() {
            return Err(LineFault::Refused);
        }
        wire.push_came(came)?;
        Ok(())
    }

    fn loss_line(&mut self, loss: LossNote) -> Result<(), LineFault>
        ensures { Judged result self.new (spec.with_loss self.old loss) }
    {
        if self.stage != Stage::Wires {
            return Err(LineFault::Refused);
        }
        let Some(wire) = &mut self.wire else {
            return Err(LineFault::Refused);
        };
        wire.push_loss(loss)?;
        Ok(())
    }

    fn timer_line(&mut self) -> Result<(), LineFault>
        ensures { Judged result self.new (spec.with_timer self.old) }
    {
        if self.stage != Stage::Calls && self.stage != Stage::Wires {
            return Err(LineFault::Refused);
        }
        self.stage = Stage::Marks;
        Ok(())
    }

    fn mark_line(&mut self, mark: Fired) -> Result<(), LineFault>
        ensures { Judged result self.new (spec.with_mark self.old mark) }
    {
        if self.stage != Stage::Marks {
            return Err(LineFault::Refused);
        }
        self.marks.push(mark)?;
        Ok(())
    }

    fn lane_line(&mut self, number: u64) -> Result<(), LineFault>
        ensures { Judged result self.new (spec.with_lane self.old number) }
    {
        if self.stage != Stage::Marks && self.stage != Stage::Lanes {
            return Err(LineFault::Refused);
        }
        if number != self.lane_count() as u64 || number >= 16 {
            return Err(LineFault::Refused);
        }
        self.open_lane(OpenLane {
            cancels: Vec::new(self.alloc),
        })?;
        Ok(())
    }

    fn cancel_line(&mut self, cancel: CancelNote) -> Result<(), LineFault>
        ensures { Judged result self.new (spec.with_cancel self.old cancel) }
    {
        if self.stage != Stage::Lanes {
            return Err(LineFault::Refused);
        }
        let Some(lane) = &mut self.lane else {
            return Err(LineFault::Refused);
        };
        lane.push(cancel)?;
        Ok(())
    }

    /// One more line, where it may come next.
    #[tactic(auto, unfolding(crate::specs::Drafts::with_line))]
    fn line(&mut self, line: Line) -> Result<(), LineFault>
        ensures { Judged result self.new (spec.with_line self.old line) }
    {
        match line {
            Line::Call {
                call,
                first,
                width,
                lane,
                moment,
            } => self.call_line(call, first, width, lane, moment),
            Line::Entry(entry) => self.entry_line(entry),
            Line::Wire { server, how } => self.wire_line(server, how),
            Line::Out(sent) => self.out_line(sent),
            Line::In(came) => self.in_line(came),
            Line::Loss(loss) => self.loss_line(loss),
            Line::Timer => self.timer_line(),
            Line::Mark(mark) => self.mark_line(mark),
            Line::Lane(number) => self.lane_line(number),
            Line::Cancel(cancel) => self.cancel_line(cancel),
        }
    }

    /// One more line of text.
    pub(crate) fn text(&mut self, bytes: &[u8]) -> Result<(), LineFault>
        ensures { Judged result self.new (spec.with_text self.old bytes.now) }
    {
        let Some(line) = line_of(self.alloc, bytes)? else {
            return Err(LineFault::Refused);
        };
        self.line(line)
    }

    /// Whether its last line may be a journal's last.
    pub(crate) fn may_end(&self) -> bool
        ensures { result ≡ spec.is_lanes self.now.stage }
    {
        self.stage == Stage::Lanes
    }

    /// The journal of the lines that came.
    pub(crate) fn into_journal(self) -> Result<Journal, NoMemory>
        ensures { IfOk result (λ j. j ≡ spec.journal_of_draft self) }
    {
        let Draft {
            mut calls,
            call,
            mut wires,
            wire,
            marks,
            mut lanes,
            lane,
            ..
        } = self;
        if let Some(call) = call {
            calls.push(call.close())?;
        }
        if let Some(wire) = wire {
            wires.push(wire.close())?;
        }
        if let Some(lane) = lane {
            lanes.push(lane.close())?;
        }
        Ok(Journal {
            calls: List::of(calls),
            wires: List::of(wires),
            marks: List::of(marks),
            lanes: List::of(lanes),
        })
    }
}
