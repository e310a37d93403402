//! Events as a leaf takes them.

ghost use Rattle.std.specs.Prelude.{◌≡◌, ℕ, Some, MatchOption, IfOk};
ghost use Rattle.rpc_model.specs.declared.event.Event.TheVariants.{Cancel};
ghost use Rattle.rpc_model.specs.Leaf.{Leaf, leaf_step};
ghost use Rattle.rpc_model.specs.Machine as spec;
ghost use Rattle.call_leaf.specs.Keeps.{event_of};
ghost use Rattle.call_tree.specs.Happening.{text_of};

use call_leaf::LeafEvent;
use rpc_base::{Bytes, NoMemory};
use rpc_model::Event;
use std::alloc::Global;

/// The node that an event names.
pub(crate) fn node_of(event: &Event) -> u32
    ensures { result ≡ spec.node_of event.now }
{
    match event {
        Event::Reply { node, .. } => *node,
        Event::Lost { node, .. } => *node,
        Event::Backup { node } => *node,
        Event::Deadline { node } => *node,
        Event::Cancel => 0,
    }
}

pub(crate) fn is_deadline(event: &Event) -> bool
    ensures { result ≡ spec.is_deadline event.now }
{
    match event {
        Event::Deadline { .. } => true,
        _ => false,
    }
}

/// The event at the leaf that it names: none for a cancel, which is the whole call's.
pub(crate) fn leaf_event(event: &Event) -> Option<LeafEvent>
    ensures { MatchOption result (event.now ≡ Cancel) (λ e. (retry : ℕ) (leaf : Leaf) → leaf_step retry leaf event.now ≡ leaf_step retry leaf (event_of e (text_of event.now))) }
{
    match event {
        Event::Reply { attempt, code, .. } => {
            if *code == 0 {
                return Some(LeafEvent::Good(*attempt));
            }
            return Some(LeafEvent::Fail(*attempt, *code));
        }
        Event::Lost { attempt, code, .. } => Some(LeafEvent::Fail(*attempt, *code)),
        Event::Backup { .. } => Some(LeafEvent::Backup),
        Event::Deadline { .. } => Some(LeafEvent::Deadline),
        Event::Cancel => None,
    }
}

/// The text of a reply; nothing where the event is none.
pub(crate) fn text_of(event: &Event) -> &[u8]
    ensures { result.now ≡ text_of event.now }
{
    match event {
        Event::Reply { text, .. } => text.list(),
        _ => &[],
    }
}

/// The text of a reply, taken out of the event; nothing where the event is none.
pub(crate) fn into_text(alloc: Global, event: Event) -> Bytes
    ensures { result ≡ text_of event }
{
    match event {
        Event::Reply { text, .. } => text,
        _ => Bytes::of(Vec::new(alloc)),
    }
}

/// A copy of an event.
pub(crate) fn event_copy(alloc: Global, event: &Event) -> Result<Event, NoMemory>
    ensures { IfOk result (λ copy. copy ≡ event.now) }
{
    match event {
        Event::Reply {
            node,
            attempt,
            code,
            text,
        } => Ok(Event::Reply {
            node: *node,
            attempt: *attempt,
            code: *code,
            text: Bytes::of(Vec::from_slice(alloc, text.list())?),
        }),
        Event::Lost {
            node,
            attempt,
            code,
        } => Ok(Event::Lost {
            node: *node,
            attempt: *attempt,
            code: *code,
        }),
        Event::Backup { node } => Ok(Event::Backup { node: *node }),
        Event::Deadline { node } => Ok(Event::Deadline { node: *node }),
        Event::Cancel => Ok(Event::Cancel),
    }
}
