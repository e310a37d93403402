ghost use Rattle.std.specs.Prelude.{◌≡◌, ◌+◌, ◌^◌, ◌<◌, Some, None, IfSome, IfNone};
ghost use Rattle.sim_run.specs.Desk.{plan_of, attempt_id, IsServed};
ghost use Rattle.sim_run.specs.Sends.{server_to};

use crate::wires::server_of;
use chan_tree::Plan;
use rpc_model::{MapKind, MergeKind};
use std::sync::Arc;

/// What the replay keeps of a call that took a slot, also once it was told: its ids, which follow each other, by the first
/// one, and its plan, which says what each of them names.
#[derive(Drop)]
pub(crate) struct Ticket {
    pub(crate) first: u64,
    pub(crate) plan: Arc<Plan<MapKind, MergeKind>>,
}

/// An attempt of a call that took a slot: its id, and the server to which it goes.
#[derive(Clone, Copy)]
pub(crate) struct Aim {
    pub(crate) id: u64,
    pub(crate) server: u32,
}

impl Ticket {
    /// Where an attempt of a leaf goes. None where the call's plan has no such attempt.
    pub(crate) fn aim(&self, call: u32, node: u32, attempt: u32, servers: u32) -> Option<Aim>
        requires low { self.now.first < 2 ^ 63 }
        requires served { IsServed servers self.now }
        ensures id { IfSome result (λ aim. Some aim.id ≡ attempt_id self.now node attempt) }
        ensures server { IfSome result (λ aim. aim.server ≡ server_to (plan_of self.now) call node attempt) }
        ensures bound { IfSome result (λ aim. aim.server < servers) }
        ensures none { IfNone result (attempt_id self.now node attempt ≡ None) }
        ensures near { IfSome result (λ aim. aim.id < self.now.first + 2 ^ 32) }
    {
        let (offset, leaf) = self.plan.attempt(node, attempt)?;
        Some(Aim {
            id: self.first + u64::from(offset),
            server: server_of(leaf, call, attempt),
        })
    }
}
