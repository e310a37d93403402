//! The leaves of a call.

ghost use Rattle.std.specs.Prelude.{◌≡◌, ◌^◌, ◌<◌, [], None, IfOk, OnOk, OnErr};
ghost use Rattle.std.specs.Arc.{arc_value};
ghost use Rattle.rpc_model.specs.Leaf.{started, leaf_step};
ghost use Rattle.rpc_model.specs.Effects.{sent, leaf_marks};
ghost use Rattle.call_tree.specs.Growing.{IsGrown};
ghost use Rattle.call_tree.specs.Shown.{leaf_with, IsLeafNode};

use crate::happening::{into_text, leaf_event, text_of};
use crate::nodes::LeafNode;
use crate::outbox::Outbox;
use call_leaf::{Leaf, LeafStep};
use rpc_base::{Bytes, NoMemory};
use rpc_model::{End, Event, LeafChan};
use std::alloc::Global;
use std::sync::Arc;

impl LeafNode {
    /// The leaf of a channel begins, with its first attempt.
    pub(crate) fn begin(
        alloc: Global,
        chan: &Arc<LeafChan>,
        request: Bytes,
        node: u32,
        call: u32,
        moment: u64,
        out: &mut Outbox,
    ) -> Result<LeafNode, NoMemory>
        requires early { moment < 2 ^ 60 }
        ensures sound { IfOk result (λ l. IsLeafNode l) }
        ensures chan { IfOk result (λ l. arc_value l.chan ≡ arc_value chan.now) }
        ensures request { IfOk result (λ l. l.request ≡ request) }
        ensures leaf { IfOk result (λ l. leaf_with l.leaf l.end ≡ started) }
        ensures grown { OnOk result (IsGrown out.old out.new (sent (arc_value chan.now) call node request 0 1) (leaf_marks (arc_value chan.now) node moment)) }
    {
        let chan = chan.clone()?;
        out.send(alloc, &*chan, call, node, 0, request.list())?;
        out.mark(chan.timeout, node, moment, false)?;
        out.mark(chan.backup, node, moment, true)?;
        let leaf = Leaf::begin(chan.retry);
        Ok(LeafNode {
            chan,
            request,
            leaf,
            end: None,
        })
    }

    /// The end that an event at the leaf brings it; an attempt that it issues sends its request.
    pub(crate) fn decide(
        &self,
        alloc: Global,
        node: u32,
        call: u32,
        event: &Event,
        out: &mut Outbox,
    ) -> Result<Option<End>, NoMemory>
        requires sound { IsLeafNode self.now }
        requires open { self.now.end ≡ None }
        ensures end { IfOk result (λ end. end ≡ (leaf_step (arc_value self.now.chan).retry (leaf_with self.now.leaf self.now.end) event.now).end) }
        ensures grown { OnOk result (IsGrown out.old out.new (sent (arc_value self.now.chan) call node self.now.request self.now.leaf.issued
            (leaf_step (arc_value self.now.chan).retry (leaf_with self.now.leaf self.now.end) event.now).issued) []) }
    {
        let Some(coming) = leaf_event(event) else {
            return Ok(None);
        };
        let mut leaf = self.leaf.copy();
        match leaf.apply(coming) {
            LeafStep::Nothing => Ok(None),
            LeafStep::Issue(attempt) => {
                out.send(alloc, &*self.chan, call, node, attempt, self.request.list())?;
                Ok(None)
            }
            LeafStep::Won(_) => {
                let text = Vec::from_slice(alloc, text_of(event))?;
                Ok(Some(End::Good(Bytes::of(text))))
            }
            LeafStep::Ended(code) => Ok(Some(End::Bad(code))),
        }
    }

    /// An event comes to the leaf: an attempt that it issues sends its request. A text that it wins with is the event's.
    pub(crate) fn happen(
        &mut self,
        alloc: Global,
        node: u32,
        call: u32,
        event: Event,
        out: &mut Outbox,
    ) -> Result<(), NoMemory>
        requires sound { IsLeafNode self.old }
        ensures sound { OnOk result (IsLeafNode self.new) }
        ensures same { OnOk result ((self.new.chan ≡ self.old.chan) × (self.new.request ≡ self.old.request)) }
        ensures leaf { OnOk result (leaf_with self.new.leaf self.new.end ≡ leaf_step (arc_value self.old.chan).retry (leaf_with self.old.leaf self.old.end) event) }
        ensures grown { OnOk result (IsGrown out.old out.new (sent (arc_value self.old.chan) call node self.old.request self.old.leaf.issued
            (leaf_step (arc_value self.old.chan).retry (leaf_with self.old.leaf self.old.end) event).issued) []) }
        ensures kept { OnErr result (self.new ≡ self.old) }
    {
        if self.end.is_some() {
            return Ok(());
        }
        let Some(coming) = leaf_event(&event) else {
            return Ok(());
        };
        let mut leaf = self.leaf.copy();
        let end = match leaf.apply(coming) {
            LeafStep::Nothing => None,
            LeafStep::Issue(attempt) => {
                out.send(alloc, &*self.chan, call, node, attempt, self.request.list())?;
                None
            }
            LeafStep::Won(_) => Some(End::Good(into_text(alloc, event))),
            LeafStep::Ended(code) => Some(End::Bad(code)),
        };
        self.leaf = leaf;
        self.end = end;
        Ok(())
    }

    /// An event comes to the leaf, which brings it this end or none.
    pub(crate) fn take(&mut self, event: &Event, end: Option<End>)
        requires sound { IsLeafNode self.old }
        requires open { self.old.end ≡ None }
        requires decided { end ≡ (leaf_step (arc_value self.old.chan).retry (leaf_with self.old.leaf self.old.end) event.now).end }
        ensures sound { IsLeafNode self.new }
        ensures same { (self.new.chan ≡ self.old.chan) × (self.new.request ≡ self.old.request) }
        ensures leaf { leaf_with self.new.leaf self.new.end ≡ leaf_step (arc_value self.old.chan).retry (leaf_with self.old.leaf self.old.end) event.now }
    {
        if let Some(coming) = leaf_event(event) {
            self.leaf.apply(coming);
        }
        self.end = end;
    }
}
