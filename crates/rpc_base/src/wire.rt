ghost use Rattle.std.specs.Prelude.{◌≡◌, ℕ, List, Bool, true};
ghost use Rattle.std.specs.declared.option.Option.{Option};
ghost use Rattle.std.specs.Io.{ReadsAtMost};
ghost use Rattle.rpc_base.specs.Causes.{HasCause, TakesSome};
ghost use Rattle.rpc_base.specs.Moved.{Moves, Meets};

use crate::fault::Failed;
use std::sync::Wait;

/// The end of a wire that is read. `got` is the bytes that it gave, where it tells them, `met` says whether its end was
/// met, and `faults` counts how often it failed. This trait is this project's own choice.
pub trait WireIn: Send + Drop {
    ghost got: { Self → Option (List ℕ) };

    ghost met: { Self → Bool };

    ghost faults: { Self → ℕ };

    /// Puts bytes first into `to` and answers how many; 0 for a `to` that isn't empty is the end. It may wait. `Failed`
    /// moves no bytes.
    fn read<R: Wait>(&mut self, rt: &R, to: &mut [u8]) -> Result<usize, Failed>
        ensures bound { ReadsAtMost result to.new }
        ensures bytes { Moves (got self.old) (got self.new) result to.new }
        ensures end { Meets (met self.old) (met self.new) result to.new }
        ensures cause { HasCause (faults self.old) (faults self.new) result };
}

/// The end of a wire that is written. `given` is the bytes that it took, where it tells them, `closed` says whether
/// `close` was called, and `faults` counts how often it failed. This trait is this project's own choice.
pub trait WireOut: Send + Drop {
    ghost given: { Self → Option (List ℕ) };

    ghost closed: { Self → Bool };

    ghost faults: { Self → ℕ };

    /// Takes bytes from the front of `from` and answers how many, at least 1 where `from` isn't empty. It may wait.
    /// `Failed` takes none.
    fn write<R: Wait>(&mut self, rt: &R, from: &[u8]) -> Result<usize, Failed>
        ensures some { TakesSome result from.now }
        ensures bytes { Moves (given self.old) (given self.new) result from.now }
        ensures closed { closed self.new ≡ closed self.old }
        ensures cause { HasCause (faults self.old) (faults self.new) result };

    /// Ends the writing, whatever it answers. It moves no bytes.
    fn close<R: Wait>(&mut self, rt: &R) -> Result<(), Failed>
        ensures bytes { given self.new ≡ given self.old }
        ensures closed { closed self.new ≡ true }
        ensures cause { HasCause (faults self.old) (faults self.new) result };
}
