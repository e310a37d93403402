ghost use Rattle.std.specs.Prelude.{◌≡◌, ◌<◌, ◌++◌, ◌∷◌, ◌+◌, ◌-◌, ◌^◌, min, [], false, IfOk};
ghost use Rattle.rpc_base.specs.Memory.{counted};

use crate::fault::{Failed, NoMemory};
use crate::mem_wire::{MemIn, MemOut, Pace, mem_pair};
use crate::net::{Ends, Net};
use std::alloc::Global;
use std::marker::Model;
use std::sync::Wait;

/// The ends of a connection in memory.
pub type MemEnds = Ends<MemIn, MemOut>;

/// Which of the four ends of a connection.
#[derive(Clone, Copy, Debug, PartialEq, Eq)]
pub enum EndKind {
    ClientIn,
    ClientOut,
    ServerIn,
    ServerOut,
}

/// How the calls of this end of a server's connection go.
#[derive(Debug, Drop)]
pub struct EndPace {
    pub server: u32,
    pub kind: EndKind,
    pub pace: Pace,
}

/// A net in memory. The opens of given numbers, counted from 0, fail, and so does one that finds no memory of its own.
/// An end for which nothing else is said moves up to 64 KiB a call and doesn't fail.
#[derive(Drop)]
pub struct MemNet {
    back: Vec<(u32, MemEnds)>,
    opened: usize,
    failing: Vec<u64>,
    paces: Vec<EndPace>,
    calls: u64,
    faults: u64,
}

impl Model for MemNet {
    ghost use Rattle.std.specs.Prelude.{◌≤◌, ◌+◌, vec_len, vec_capacity};
    ghost use Rattle.rpc_base.specs.Hub.{Hub};

    ghost Value = { Hub };

    ghost view = { λ n. record { back = n.back.items; opened = n.opened; failing = n.failing.items; calls = n.calls; faults = n.faults } };

    ghost invariant = { λ n. vec_len n.back + n.opened ≤ vec_capacity n.back };
}

impl MemNet {
    /// A net with no connections. The opens that `failing` numbers fail, and the ends that `paces` names go by these;
    /// of two for one end the first is used for the first connection to that server.
    pub fn new(alloc: Global, failing: Vec<u64>, paces: Vec<EndPace>) -> MemNet
        ensures { result ≡ record { back = []; opened = 0; failing = failing.items; calls = 0; faults = 0 } }
    {
        MemNet {
            back: Vec::new(alloc),
            opened: 0,
            failing,
            paces,
            calls: 0,
            faults: 0,
        }
    }

    /// Lends the connections that came back, each with its server.
    pub fn back(&self) -> &[(u32, MemEnds)]
        ensures { result.now ≡ self.now.back }
    {
        self.back.as_slice()
    }

    /// How many connections are out.
    pub fn opened(&self) -> usize
        ensures { result ≡ self.now.opened }
    {
        self.opened
    }

    /// How many opens have failed.
    pub fn faults(&self) -> u64
        ensures { result ≡ self.now.faults }
    {
        self.faults
    }

    fn count_fault(&mut self) -> Failed
        ensures { self.new ≡ record self.old { faults = counted self.old.faults } }
    {
        self.faults = self.faults.saturating_add(1);
        Failed
    }
}

impl Net for MemNet {
    type In = MemIn;

    type Out = MemOut;

    ghost wires = { λ n. n.back };

    ghost opened = { λ n. n.opened };

    ghost faults = { λ n. n.faults };

    fn open<R: Wait>(&mut self, _rt: &R, alloc: Global, server: u32) -> Result<MemEnds, Failed> {
        let fails = self.failing.contains(&self.calls);
        self.calls = self.calls.saturating_add(1);
        let Some(opened) = self.opened.checked_add(1) else {
            return Err(self.count_fault());
        };
        if fails || self.back.reserve(opened).is_err() {
            return Err(self.count_fault());
        }
        let Ok(ends) = connected(alloc, &mut self.paces, server) else {
            return Err(self.count_fault());
        };
        self.opened = opened;
        Ok(ends)
    }

    fn shut<R: Wait>(&mut self, _rt: &R, server: u32, ends: MemEnds)
        requires { 0 < self.old.opened }
        ensures wires { self.new.back ≡ self.old.back ++ (server, ends) ∷ [] }
        ensures opened { self.new.opened ≡ self.old.opened - 1 }
        ensures faults { self.new.faults ≡ self.old.faults }
    {
        self.back.push_reserved((server, ends));
        self.opened -= 1;
    }
}

/// Takes out how the calls of this end are to go.
fn take_pace(alloc: Global, paces: &mut Vec<EndPace>, server: u32, kind: EndKind) -> Pace {
    match paces
        .iter()
        .position(|p| p.server == server && p.kind == kind)
    {
        Some(place) => paces.remove(place).pace,
        None => Pace {
            piece: 65_536,
            failing: Vec::new(alloc),
        },
    }
}

/// Both ends of a new connection to this server.
fn connected(alloc: Global, paces: &mut Vec<EndPace>, server: u32) -> Result<MemEnds, NoMemory>
    ensures client_in { IfOk result (λ e. (e.client_in.moved ≡ []) × (e.client_in.over ≡ false) × (e.client_in.faults ≡ 0)) }
    ensures client_out { IfOk result (λ e. (e.client_out.moved ≡ []) × (e.client_out.over ≡ false) × (e.client_out.faults ≡ 0)) }
    ensures server_in { IfOk result (λ e. (e.server_in.moved ≡ []) × (e.server_in.over ≡ false) × (e.server_in.faults ≡ 0)) }
    ensures server_out { IfOk result (λ e. (e.server_out.moved ≡ []) × (e.server_out.over ≡ false) × (e.server_out.faults ≡ 0)) }
{
    let up_write = take_pace(alloc, paces, server, EndKind::ClientOut);
    let up_read = take_pace(alloc, paces, server, EndKind::ServerIn);
    let down_write = take_pace(alloc, paces, server, EndKind::ServerOut);
    let down_read = take_pace(alloc, paces, server, EndKind::ClientIn);
    let (client_out, server_in) = mem_pair(alloc, up_write, up_read)?;
    let (server_out, client_in) = mem_pair(alloc, down_write, down_read)?;
    Ok(Ends {
        client_in,
        client_out,
        server_in,
        server_out,
    })
}
