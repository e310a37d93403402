ghost use Rattle.std.specs.Prelude.{ℕ, List};
ghost use Rattle.std.specs.declared.option.Option.{Option};
ghost use Rattle.std.specs.Io.KnownBytes.{WriteAppends};
ghost use Rattle.rpc_base.specs.Causes.{HasCause, IsToldAlike, TakesSome};

use crate::fault::Failed;

/// Where bytes go. `held` is the bytes that it took, where it tells them, and `faults` counts how often it failed. This
/// trait is this project's own choice.
pub trait Sink {
    ghost held: { Self → Option (List ℕ) };

    ghost faults: { Self → ℕ };

    /// Takes bytes from the front of `from` and answers how many, at least 1 where `from` isn't empty. `Failed` takes
    /// none.
    fn write(&mut self, from: &[u8]) -> Result<usize, Failed>
        ensures some { TakesSome result from.now }
        ensures bytes { WriteAppends (held self.old) (held self.new) result from.now }
        ensures told { IsToldAlike (held self.old) (held self.new) }
        ensures cause { HasCause (faults self.old) (faults self.new) result };
}
