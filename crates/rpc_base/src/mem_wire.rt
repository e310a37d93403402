ghost use Rattle.std.specs.Prelude.{◌≡◌, ◌<◌, ◌≤◌, [], true, false, length, min, Contains, IfOk, OnOk, OnErr, IsErr};
ghost use Rattle.std.specs.Io.{ReadsAtMost};
ghost use Rattle.rpc_base.specs.Causes.{HasCause, TakesSome};
ghost use Rattle.rpc_base.specs.Memory.{after_got, after_given, after_close, failed_move};
ghost use Rattle.rpc_base.specs.Moved.{Moves, Meets};

use crate::fault::{Failed, NoMemory};
use crate::pipe::Pipe;
use crate::wire::{WireIn, WireOut};
use std::alloc::Global;
use std::marker::Model;
use std::sync::{Arc, Wait};

/// The end of a wire in memory that is read. A call gives at most a fixed number of bytes, and the calls of given
/// numbers, counted from 0, fail. A read waits where no bytes are there and the other end isn't closed. Where it finds
/// no memory of its own it fails too, and then no bytes are lost.
#[derive(Drop)]
pub struct MemIn {
    pipe: Arc<Pipe, Global>,
    got: Vec<u8>,
    piece: usize,
    failing: Vec<u64>,
    calls: u64,
    faults: u64,
    met: bool,
}

impl Model for MemIn {
    ghost use Rattle.std.specs.Prelude.{◌<◌};
    ghost use Rattle.rpc_base.specs.Memory.{Tap};

    ghost Value = { Tap };

    ghost view = { λ s. record { moved = s.got.items; piece = s.piece; failing = s.failing.items; calls = s.calls; faults = s.faults; over = s.met } };

    ghost invariant = { λ s. 0 < s.piece };
}

/// The end of a wire in memory that is written. A call takes at most a fixed number of bytes, and the calls of given
/// numbers, counted from 0, fail; a `close` counts as a call. A write to a closed end fails, and so does one that finds
/// no memory of its own.
#[derive(Drop)]
pub struct MemOut {
    pipe: Arc<Pipe, Global>,
    given: Vec<u8>,
    piece: usize,
    failing: Vec<u64>,
    calls: u64,
    faults: u64,
    closed: bool,
}

impl Model for MemOut {
    ghost use Rattle.std.specs.Prelude.{◌<◌};
    ghost use Rattle.rpc_base.specs.Memory.{Tap};

    ghost Value = { Tap };

    ghost view = { λ s. record { moved = s.given.items; piece = s.piece; failing = s.failing.items; calls = s.calls; faults = s.faults; over = s.closed } };

    ghost invariant = { λ s. 0 < s.piece };
}

/// How the calls of one end of a wire in memory go: each moves at most `piece` bytes, and at least 1, and those that
/// `failing` numbers, counted from 0, fail.
#[derive(Debug, Drop)]
pub struct Pace {
    pub piece: usize,
    pub failing: Vec<u64>,
}

/// A wire in memory: what its first end takes, its second end gives.
pub fn mem_pair(alloc: Global, write: Pace, read: Pace) -> Result<(MemOut, MemIn), NoMemory>
    ensures given { IfOk result (λ ends. ends.0.moved ≡ []) }
    ensures given_by { IfOk result (λ ends. (ends.0.failing ≡ write.failing.items) × (ends.0.calls ≡ 0) × (ends.0.faults ≡ 0) × (ends.0.over ≡ false)) }
    ensures got { IfOk result (λ ends. ends.1.moved ≡ []) }
    ensures got_by { IfOk result (λ ends. (ends.1.failing ≡ read.failing.items) × (ends.1.calls ≡ 0) × (ends.1.faults ≡ 0) × (ends.1.over ≡ false)) }
{
    let Ok(pipe) = Pipe::new(alloc) else {
        return Err(NoMemory);
    };
    let Ok(shared) = pipe.clone() else {
        return Err(NoMemory);
    };
    let written = MemOut::new(alloc, shared, write);
    Ok((written, MemIn::new(alloc, pipe, read)))
}

impl MemIn {
    fn new(alloc: Global, pipe: Arc<Pipe, Global>, pace: Pace) -> MemIn
        ensures moved { result.moved ≡ [] }
        ensures rest { (result.failing ≡ pace.failing.items) × (result.calls ≡ 0) × (result.faults ≡ 0) × (result.over ≡ false) }
    {
        MemIn {
            pipe,
            got: Vec::new(alloc),
            piece: pace.piece.max(1),
            failing: pace.failing,
            calls: 0,
            faults: 0,
            met: false,
        }
    }

    /// Lends the bytes that it gave.
    pub fn got(&self) -> &[u8]
        ensures { result.now ≡ self.now.moved }
    {
        self.got.as_slice()
    }

    /// Whether a read met the end.
    pub fn has_met_end(&self) -> bool
        ensures { result ≡ self.now.over }
    {
        self.met
    }

    /// How many calls have failed.
    pub fn faults(&self) -> u64
        ensures { result ≡ self.now.faults }
    {
        self.faults
    }
}

impl MemOut {
    fn new(alloc: Global, pipe: Arc<Pipe, Global>, pace: Pace) -> MemOut
        ensures moved { result.moved ≡ [] }
        ensures rest { (result.failing ≡ pace.failing.items) × (result.calls ≡ 0) × (result.faults ≡ 0) × (result.over ≡ false) }
    {
        MemOut {
            pipe,
            given: Vec::new(alloc),
            piece: pace.piece.max(1),
            failing: pace.failing,
            calls: 0,
            faults: 0,
            closed: false,
        }
    }

    /// Lends the bytes that it took.
    pub fn given(&self) -> &[u8]
        ensures { result.now ≡ self.now.moved }
    {
        self.given.as_slice()
    }

    /// Whether it was closed.
    pub fn is_closed(&self) -> bool
        ensures { result ≡ self.now.over }
    {
        self.closed
    }

    /// How many calls have failed.
    pub fn faults(&self) -> u64
        ensures { result ≡ self.now.faults }
    {
        self.faults
    }
}

impl WireIn for MemIn {
    ghost use Rattle.std.specs.Prelude.{Some};

    ghost got = { λ s. Some s.moved };

    ghost met = { λ s. s.over };

    ghost faults = { λ s. s.faults };

    fn read<R: Wait>(&mut self, rt: &R, to: &mut [u8]) -> Result<usize, Failed>
        ensures bound { ReadsAtMost result to.new }
        ensures bytes { Moves (Some self.old.moved) (Some self.new.moved) result to.new }
        ensures end { Meets self.old.over self.new.over result to.new }
        ensures cause { HasCause self.old.faults self.new.faults result }

        // It fails in the calls that it is to fail in, and changes nothing else by what it answers.
        ensures fails { Contains self.old.failing self.old.calls → IsErr result }
        ensures failed { OnErr result (self.new ≡ failed_move self.old) }
        ensures gives { IfOk result (λ n. n ≤ self.old.piece) }
        ensures after { IfOk result (λ n. self.new ≡ after_got self.old to.new n) }
    {
        let fails = self.failing.contains(&self.calls);
        self.calls = self.calls.saturating_add(1);
        if fails || self.got.reserve(to.len()).is_err() {
            self.faults = self.faults.saturating_add(1);
            return Err(Failed);
        }
        if to.is_empty() {
            return Ok(0);
        }
        let room = to.len().min(self.piece);
        let count = self.pipe.take(rt, &mut to[..room]);
        if self.got.extend_from_slice(&to[..count]).is_err() {
            self.faults = self.faults.saturating_add(1);
            return Err(Failed);
        }
        self.met = self.met || count == 0;
        Ok(count)
    }
}

impl WireOut for MemOut {
    ghost use Rattle.std.specs.Prelude.{Some};

    ghost given = { λ s. Some s.moved };

    ghost closed = { λ s. s.over };

    ghost faults = { λ s. s.faults };

    fn write<R: Wait>(&mut self, rt: &R, from: &[u8]) -> Result<usize, Failed>
        ensures some { TakesSome result from.now }
        ensures bytes { Moves (Some self.old.moved) (Some self.new.moved) result from.now }
        ensures closed { self.new.over ≡ self.old.over }
        ensures cause { HasCause self.old.faults self.new.faults result }

        // It fails in the calls that it is to fail in and after a close, and takes as much as it may in the others.
        ensures fails { Contains self.old.failing self.old.calls → IsErr result }
        ensures shut { self.old.over ≡ true → IsErr result }
        ensures failed { OnErr result (self.new ≡ failed_move self.old) }
        ensures takes { IfOk result (λ n. n ≡ min (length from.now) self.old.piece) }
        ensures after { IfOk result (λ n. self.new ≡ after_given self.old from.now n) }
    {
        let fails = self.failing.contains(&self.calls);
        self.calls = self.calls.saturating_add(1);
        let count = from.len().min(self.piece);
        if fails
            || self.closed
            || self.given.reserve(count).is_err()
            || self.pipe.put(rt, &from[..count]).is_err()
            || self.given.extend_from_slice(&from[..count]).is_err()
        {
            self.faults = self.faults.saturating_add(1);
            return Err(Failed);
        }
        Ok(count)
    }

    fn close<R: Wait>(&mut self, rt: &R) -> Result<(), Failed>
        ensures bytes { Some self.new.moved ≡ Some self.old.moved }
        ensures closed { self.new.over ≡ true }
        ensures cause { HasCause self.old.faults self.new.faults result }
        ensures fails { Contains self.old.failing self.old.calls → IsErr result }
        ensures after { OnOk result (self.new ≡ after_close self.old) }
        ensures failed { OnErr result (self.new ≡ record (failed_move self.old) { over = true }) }
    {
        let fails = self.failing.contains(&self.calls);
        self.calls = self.calls.saturating_add(1);
        self.closed = true;
        self.pipe.end(rt);
        if fails {
            self.faults = self.faults.saturating_add(1);
            return Err(Failed);
        }
        Ok(())
    }
}
