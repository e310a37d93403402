ghost use Rattle.std.specs.Prelude.{ℕ, List};
ghost use Rattle.std.specs.declared.option.Option.{Option};
ghost use Rattle.std.specs.Io.{ReadsAtMost};
ghost use Rattle.std.specs.Io.KnownBytes.{ReadConsumes};
ghost use Rattle.rpc_base.specs.Causes.{HasCause, IsToldAlike};

use crate::fault::Failed;

/// Where bytes come from. `left` is the bytes that it still has, where it tells them, and `faults` counts how often it
/// failed. This trait is this project's own choice.
pub trait Source {
    ghost left: { Self → Option (List ℕ) };

    ghost faults: { Self → ℕ };

    /// Puts bytes first into `to` and answers how many; 0 for a `to` that isn't empty is the end. `Failed` moves no
    /// bytes.
    fn read(&mut self, to: &mut [u8]) -> Result<usize, Failed>
        ensures bound { ReadsAtMost result to.new }
        ensures bytes { ReadConsumes (left self.old) (left self.new) result to.new }
        ensures told { IsToldAlike (left self.old) (left self.new) }
        ensures cause { HasCause (faults self.old) (faults self.new) result };
}
