ghost use Rattle.std.specs.Prelude.{◌≡◌, ◌<◌, ◌+◌, ◌-◌, ◌^◌, min, max};
ghost use Rattle.rpc_base.specs.Moments.{moment_of, high_of, list_of};

use crate::clock::Clock;
use std::marker::Model;
use std::sync::Wait;

/// A clock in memory. It tells a first moment and then a step more each time, and 2^53 - 1 for all moments that aren't
/// below that. After 2^64 - 1 moments it repeats the last one. Its naps take no time.
#[derive(Debug, Drop)]
pub struct MemClock {
    first: u64,
    step: u64,
    told: u64,
    twins: u64,
}

impl Model for MemClock {
    ghost use Rattle.rpc_base.specs.Moments.{Dial};

    ghost Value = { Dial };

    ghost view = { λ c. record { first = c.first; step = c.step; told = c.told; twins = c.twins } };
}

impl MemClock {
    /// A clock that has told nothing. Both numbers are milliseconds.
    pub fn new(first: u64, step: u64) -> MemClock
        ensures { result ≡ record { first = first; step = step; told = 0; twins = 0 } }
    {
        MemClock {
            first,
            step,
            told: 0,
            twins: 0,
        }
    }

    /// The moment of so many before it.
    fn moment(&self, number: u64) -> u64
        ensures { result ≡ moment_of self.now.first self.now.step number }
    {
        self.first
            .saturating_add(self.step.saturating_mul(number))
            .min((1 << 53) - 1)
    }

    /// The greatest moment that it or a twin that came back told, 0 before any.
    pub fn high(&self) -> u64
        ensures { result ≡ high_of self.now }
    {
        if self.told == 0 {
            return self.twins;
        }
        self.twins.max(self.moment(self.told - 1))
    }
}

impl Clock for MemClock {
    ghost use Rattle.std.specs.Prelude.{Some};

    ghost told = { λ c. list_of c };

    ghost high = { λ c. Some (high_of c) };

    fn now(&mut self) -> u64 {
        let last = self.told == u64::MAX;
        let moment = self.moment(if last { self.told - 1 } else { self.told });
        if !last {
            self.told += 1;
        }
        moment
    }

    fn twin(&self) -> MemClock {
        MemClock::new(self.first, self.step)
    }

    fn back(&mut self, twin: MemClock) {
        self.twins = self.twins.max(twin.high());
    }

    fn nap<R: Wait>(&mut self, _rt: &R, _ms: u64) {}
}
