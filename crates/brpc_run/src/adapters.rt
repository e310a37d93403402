//! Standard input and output as a source and a sink. Of their bytes nothing is told, so nothing is claimed of these; what
//! an adapter does with them is claimed for every reader and writer that tells its bytes.

ghost use Rattle.std.specs.Prelude.{◌≡◌, ◌<◌, ◌↔◌, None, Ok, IfOk, IsErr, OnErr};
ghost use Rattle.std.specs.Io.{ReadsAtMost};
ghost use Rattle.std.specs.Io.KnownBytes.{ReadConsumes, WriteAppends};
ghost use Rattle.rpc_base.specs.Causes.{HasCause, IsToldAlike, TakesSome};
ghost use Rattle.rpc_base.specs.Memory.{counted};

use rpc_base::{Failed, Sink, Source};
use std::io::{self, Read, Write};

/// A reader as a source.
#[derive(Drop)]
pub(crate) struct Reading<R> {
    inner: R,
    faults: u64,
}

impl<R: Read> Reading<R> {
    pub(crate) fn new(inner: R) -> Reading<R> {
        Reading { inner, faults: 0 }
    }
}

impl<R: Read> Source for Reading<R> {
    ghost left = { λ _. None };

    ghost faults = { λ s. s.faults };

    fn read(&mut self, to: &mut [u8]) -> Result<usize, Failed>
        ensures bound { ReadsAtMost result to.new }
        ensures bytes { ReadConsumes None None result to.new }
        ensures told { IsToldAlike None None }
        ensures cause { HasCause self.old.faults self.new.faults result }

        // The bytes are the reader's next ones, and a fault takes none.
        ensures reader { ReadConsumes (R.remaining self.old.inner) (R.remaining self.new.inner) result to.new }
    {
        let answer = self.inner.read(to);
        judged(answer, 0, &mut self.faults)
    }
}

/// A writer as a sink. One that takes nothing has failed.
#[derive(Drop)]
pub(crate) struct Writing<W> {
    inner: W,
    faults: u64,
}

impl<W: Write> Writing<W> {
    pub(crate) fn new(inner: W) -> Writing<W> {
        Writing { inner, faults: 0 }
    }
}

impl<W: Write> Sink for Writing<W> {
    ghost held = { λ _. None };

    ghost faults = { λ s. s.faults };

    fn write(&mut self, from: &[u8]) -> Result<usize, Failed>
        ensures some { TakesSome result from.now }
        ensures bytes { WriteAppends None None result from.now }
        ensures told { IsToldAlike None None }
        ensures cause { HasCause self.old.faults self.new.faults result }

        // The writer holds the bytes that were taken behind those before, and a fault adds none.
        ensures writer { WriteAppends (W.contents self.old.inner) (W.contents self.new.inner) result from.now }
    {
        if from.is_empty() {
            return Ok(0);
        }
        let answer = self.inner.write(from);
        judged(answer, 1, &mut self.faults)
    }
}

/// What a call of the outside answered. Fewer than `least` bytes are a failure too, and a failure counts one fault.
fn judged(answer: io::Result<usize>, least: usize, faults: &mut u64) -> Result<usize, Failed>
    ensures moved { IfOk result (λ n. (answer ≡ Ok n) × (faults.new ≡ faults.old)) }
    ensures failed { OnErr result (faults.new ≡ counted faults.old) }
    ensures fails { IsErr result ↔ IfOk answer (λ n. n < least) }
    ensures cause { HasCause faults.old faults.new result }
{
    match answer {
        Ok(count) if count >= least => Ok(count),
        _ => {
            *faults = faults.saturating_add(1);
            Err(Failed)
        }
    }
}
