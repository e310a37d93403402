//! The wires of a replay: one for each server.

ghost use Rattle.std.specs.Prelude.{◌≡◌, ◌^◌, ◌<◌, ◌≤◌, length, IfOk, OnOk};
ghost use Rattle.rpc_model.specs.Effects.{server_of};
ghost use Rattle.sim_run.specs.Wires.{idle_wires, on_wire, sent, received, lost};

use crate::wire::{Reply, Wire};
use rpc_base::{Bytes, NoMemory};
use rpc_model::LeafChan;
use std::alloc::Global;

/// A wire for each server.
pub(crate) fn open_wires(alloc: Global, servers: u32) -> Result<Vec<Wire>, NoMemory>
    ensures { IfOk result (λ wires. wires.items ≡ idle_wires servers) }
{
    let mut wires = Vec::with_capacity(alloc, servers as usize)?;
    for _server in 0..servers {
        wires.push(Wire::open(alloc)?)?;
    }
    Ok(wires)
}

/// The server of an attempt of a call: the attempts go round the channel's servers, from the one that the call's number
/// names.
pub(crate) fn server_of(leaf: &LeafChan, call: u32, attempt: u32) -> u32
    requires { 1 ≤ length leaf.now.servers }
    ensures { result ≡ server_of leaf.now call attempt }
{
    let servers = leaf.servers.list();
    let at = (u64::from(call) + u64::from(attempt)) % servers.len() as u64;
    servers[at as usize]
}

/// Sends a request to a server.
pub(crate) fn send(
    wires: &mut Vec<Wire>,
    server: u32,
    id: u64,
    call: u32,
    payload: Bytes,
) -> Result<(), NoMemory>
    ensures { OnOk result (wires.new.items ≡ on_wire server (sent id call payload) wires.old.items) }
{
    if server as usize >= wires.len() {
        return Ok(());
    }
    wires[server as usize].send(id, call, payload)
}

/// A reply comes in from a server.
pub(crate) fn receive(
    wires: &mut Vec<Wire>,
    server: u32,
    id: u64,
    code: u32,
    text: &Bytes,
) -> Result<Reply, NoMemory>
    requires server { server < length wires.old.items }
    requires id { id < 2 ^ 63 }
    requires code { code ≤ 65535 }
    requires text { length text.now ≤ 60000 }
    ensures reply { IfOk result (λ r. r ≡ record { id = id; code = code; text = text.now }) }
    ensures wire { OnOk result (wires.new.items ≡ on_wire server (received (record { id = id; code = code; text = text.now })) wires.old.items) }
{
    wires[server as usize].receive(id, code, text)
}

/// An attempt at a server is lost.
pub(crate) fn forget(wires: &mut Vec<Wire>, server: u32, id: u64)
    ensures { wires.new.items ≡ on_wire server (lost id) wires.old.items }
{
    if (server as usize) < wires.len() {
        wires[server as usize].forget(id);
    }
}
