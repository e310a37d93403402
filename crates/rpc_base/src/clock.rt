ghost use Rattle.std.specs.Prelude.{◌≡◌, ◌<◌, ◌^◌, [], ℕ, List, IfSome};
ghost use Rattle.std.specs.Option.{option_map};
ghost use Rattle.std.specs.declared.option.Option.{Option};
ghost use Rattle.rpc_base.specs.Moments.{Tells, TakesBack, raised};

use std::sync::Wait;

/// A clock, in milliseconds. `told` is the moments that it told, where it tells them, and `high` is the greatest moment
/// told by it or by a twin that came back, 0 before any. No call fails. This trait is this project's own choice.
pub trait Clock: Send + Drop {
    ghost told: { Self → Option (List ℕ) };

    ghost high: { Self → Option ℕ };

    /// The moment, below 2^53. A clock may cease to tell its list of moments here.
    fn now(&mut self) -> u64
        ensures bound { result < 2 ^ 53 }
        ensures told { Tells (told self.old) (told self.new) result }
        ensures high { high self.new ≡ raised (high self.old) result };

    /// A clock for another thread. It has told nothing, and tells `high` exactly where this clock does.
    fn twin(&self) -> Self
        ensures told { IfSome (told result) (λ moments. moments ≡ []) }
        ensures high { high result ≡ option_map (λ _. 0) (high self.now) };

    /// Takes a twin back.
    fn back(&mut self, twin: Self)
        ensures told { told self.new ≡ told self.old }
        ensures high { TakesBack (high self.old) (high self.new) (high twin) };

    /// Waits for about so many milliseconds.
    fn nap<R: Wait>(&mut self, rt: &R, ms: u64)
        ensures told { told self.new ≡ told self.old }
        ensures high { high self.new ≡ high self.old };
}
