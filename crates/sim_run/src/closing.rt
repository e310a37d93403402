//! The ids of a call whose end a join told.

ghost use Rattle.std.specs.Prelude.{◌≡◌, ◌^◌, ◌<◌};
ghost use Rattle.rpc_model.specs.Versions.{meaning_of};
ghost use Rattle.sim_run.specs.Desk.{plan_of, width_of, IsServed};
ghost use Rattle.sim_run.specs.Closing.{closed, closed_one, closed_by};

use crate::ticket::Ticket;
use crate::wire::Wire;
use crate::wires::{forget, server_of};
use rpc_model::{Meaning, Told};

/// What a join told: where that is the call's end, none of its ids waits any more, so that the wires keep those alone that
/// can still be answered.
pub(crate) fn close_told(
    wires: &mut Vec<Wire>,
    told: &Told,
    ticket: &Ticket,
    call: u32,
    servers: u32,
)
    requires low { ticket.now.first < 2 ^ 63 }
    requires served { IsServed servers ticket.now }
    ensures { wires.new.items ≡ closed_by told.now ticket.now call wires.old.items }
{
    match told {
        Told::Ended(..) => close(wires, ticket, call, servers),
        Told::Unended(_) | Told::Full(_) | Told::Gone(_) => {}
    }
}

/// No id of the call waits any more. The ids of its nodes never do.
fn close(wires: &mut Vec<Wire>, ticket: &Ticket, call: u32, servers: u32)
    requires low { ticket.now.first < 2 ^ 63 }
    requires served { IsServed servers ticket.now }
    ensures { wires.new.items ≡ closed ticket.now call (width_of ticket.now) wires.old.items }
{
    for offset in ticket.plan.nodes()..ticket.plan.width() {
        close_one(wires, ticket, call, servers, offset);
    }
}

/// The id at an offset waits no more, if it is that of an attempt.
fn close_one(wires: &mut Vec<Wire>, ticket: &Ticket, call: u32, servers: u32, offset: u32)
    requires low { ticket.now.first < 2 ^ 63 }
    requires served { IsServed servers ticket.now }
    ensures { wires.new.items ≡ closed_one ticket.now call (meaning_of (plan_of ticket.now) offset) wires.old.items }
{
    let Some(Meaning::Attempt(node, attempt)) = ticket.plan.meaning_of(offset) else {
        return;
    };
    let Some(leaf) = ticket.plan.leaf(node) else {
        unreachable!()
    };
    let server = server_of(leaf, call, attempt);
    forget(wires, server, ticket.first + u64::from(offset));
}
