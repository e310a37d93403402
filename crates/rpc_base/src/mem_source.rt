ghost use Rattle.std.specs.Prelude.{◌≡◌, ◌<◌, ◌≤◌, ◌↔◌, ℕ, List, length, min, take, Contains, IfOk, OnErr, IsErr};
ghost use Rattle.std.specs.Io.{ReadsAtMost};
ghost use Rattle.std.specs.Io.KnownBytes.{ReadConsumes};
ghost use Rattle.rpc_base.specs.Causes.{HasCause, IsToldAlike};
ghost use Rattle.rpc_base.specs.Memory.{after_read, failed_read};

use crate::fault::Failed;
use crate::source::Source;
use std::marker::Model;

/// A source in memory. A call gives at most a fixed number of bytes, and the calls of given numbers, counted from 0,
/// fail.
#[derive(Debug, Drop)]
pub struct MemSource {
    bytes: Vec<u8>,
    at: usize,
    piece: usize,
    failing: Vec<u64>,
    calls: u64,
    faults: u64,
}

impl Model for MemSource {
    ghost use Rattle.std.specs.Prelude.{◌≤◌, ◌<◌, drop, vec_len};
    ghost use Rattle.rpc_base.specs.Memory.{Tape};

    ghost Value = { Tape };

    ghost view = { λ s. record { left = drop s.at s.bytes.items; piece = s.piece; failing = s.failing.items; calls = s.calls; faults = s.faults } };

    ghost invariant = { λ s. (s.at ≤ vec_len s.bytes) × (0 < s.piece) };
}

impl MemSource {
    /// A source of these bytes that gives at most `piece` of them a call and fails in the calls that `failing` numbers.
    pub fn new(bytes: Vec<u8>, piece: usize, failing: Vec<u64>) -> MemSource
        requires { 0 < piece }
        ensures { result ≡ record { left = bytes.items; piece = piece; failing = failing.items; calls = 0; faults = 0 } }
    {
        MemSource {
            bytes,
            at: 0,
            piece,
            failing,
            calls: 0,
            faults: 0,
        }
    }

    /// How many calls have failed.
    pub fn faults(&self) -> u64
        ensures { result ≡ self.now.faults }
    {
        self.faults
    }
}

impl Source for MemSource {
    ghost use Rattle.std.specs.Prelude.{Some};

    ghost left = { λ s. Some s.left };

    ghost faults = { λ s. s.faults };

    fn read(&mut self, to: &mut [u8]) -> Result<usize, Failed>
        ensures bound { ReadsAtMost result to.new }
        ensures bytes { ReadConsumes (Some self.old.left) (Some self.new.left) result to.new }
        ensures told { IsToldAlike (Some self.old.left) (Some self.new.left) }
        ensures cause { HasCause self.old.faults self.new.faults result }

        // It fails in the calls that it is to fail in, and gives as much as it may in the others.
        ensures fails { IsErr result ↔ Contains self.old.failing self.old.calls }
        ensures failed { OnErr result (self.new ≡ failed_read self.old) }
        ensures gives { IfOk result (λ n. n ≡ min (min (length to.old) self.old.piece) (length self.old.left)) }
        ensures given { IfOk result (λ n. take n to.new ≡ take n self.old.left) }
        ensures after { IfOk result (λ n. self.new ≡ after_read self.old n) }
    {
        let fails = self.failing.contains(&self.calls);
        self.calls = self.calls.saturating_add(1);
        if fails {
            self.faults = self.faults.saturating_add(1);
            return Err(Failed);
        }
        let left = &self.bytes[self.at..];
        let count = to.len().min(self.piece).min(left.len());
        copy_to_front(to, &left[..count]);
        self.at += count;
        Ok(count)
    }
}

/// Puts the bytes of `from` first into `to`.
fn copy_to_front(to: &mut [u8], from: &[u8])
    requires { length from.now ≤ length to.old }
    ensures { take (length from.now) to.new ≡ from.now }
{
    to[..from.len()].copy_from_slice(from);
}
