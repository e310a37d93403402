//! The calls that the lines begin.

ghost use Rattle.std.specs.Prelude.{◌≡◌, ◌==◌, ◌↔◌, IsTrue, [], ◌∷◌, ◌++◌, length, find, Option, None, Some, Err, OnOk, OnErr};
ghost use Rattle.std.specs.Option.{option_map};

use crate::fault::LineFault;
use call_numbers::Numbers;
use std::alloc::Global;
use std::marker::Model;

/// Each call's number with its channel, in the order of their lines. A call is found by its number at once where the
/// numbers follow each other, and else in a time that grows with the logarithm of their count.
#[derive(Drop)]
pub(crate) struct Calls {
    calls: Vec<(u32, u32)>,
    numbers: Numbers,
}

impl Model for Calls {
    ghost use Rattle.std.specs.Prelude.{ℕ, List};
    ghost use Rattle.call_script.specs.Places.{AreNumbers};

    ghost Value = { List (ℕ × ℕ) };

    ghost view = { λ c. c.calls.items };

    ghost invariant = { λ c. AreNumbers c.numbers c.calls.items };
}

impl Calls {
    pub(crate) fn new(alloc: Global) -> Calls
        ensures { result ≡ [] }
    {
        Calls {
            calls: Vec::new(alloc),
            numbers: Numbers::new(alloc),
        }
    }

    pub(crate) fn len(&self) -> usize
        ensures { result ≡ length self.now }
    {
        self.calls.len()
    }

    pub(crate) fn is_empty(&self) -> bool
        ensures { IsTrue result ↔ (length self.now ≡ 0) }
    {
        self.calls.is_empty()
    }

    /// The channel of the call of this number.
    pub(crate) fn chan_of(&self, number: u32) -> Option<u32>
        ensures { result ≡ option_map (λ c. c.1) (find (λ c. c.0 == number) self.now) }
    {
        let place = self.numbers.place_of(number)?;
        Some(self.calls[place].1)
    }

    /// One more call. After want of memory the calls are as before.
    pub(crate) fn push(&mut self, number: u32, chan: u32) -> Result<(), LineFault>
        requires { option_map (λ c. c.1) (find (λ c. c.0 == number) self.old) ≡ None }
        ensures call { OnOk result (self.new ≡ self.old ++ (number, chan) ∷ []) }
        ensures same { OnErr result (self.new ≡ self.old) }
        ensures cause { OnErr result (result ≡ Err LineFault.Memory) }
    {
        self.calls.push((number, chan))?;
        match self.numbers.push(number) {
            Ok(()) => Ok(()),
            Err(_) => {
                self.calls.pop();
                Err(LineFault::Memory)
            }
        }
    }
}
