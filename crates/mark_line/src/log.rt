//! What a pass of a line knows, and the rule of the queue. None of it is in the program.

use crossbeam_queue::protocol::{Join, Lesson, Outcome, Protocol, Split};
use std::collections::LinkedList;
use timer_core::Mark;

/// What a pass knows. No value of it is made.
pub struct Log {
    /// The marks that it registered.
    pub registered: LinkedList<Mark>,
    /// The marks that it took.
    pub taken: LinkedList<Mark>,
    /// How many passes it holds.
    pub passes: u64,
    /// How many passes the line has.
    pub all: u64,
}

/// The marks that were registered are those that were taken and those in the queue.
pub struct Balance;

impl Protocol<Mark, Log> for Balance {
    ghost use Rattle.std.specs.Prelude.{[]};
    ghost use Rattle.mark_line.specs.Log.{log, IsBalanced};

    ghost holds = { IsBalanced };

    ghost first = { log [] [] 1 1 };
}

/// A mark was registered.
pub struct Registered;

impl Outcome<Mark, Log> for Registered {
    ghost use Rattle.std.specs.Prelude.{◌≡◌, [], ◌∷◌, ◌++◌};
    ghost use Rattle.mark_line.specs.Log.{log};

    ghost then = { λ v mark w. w ≡ log (v.registered ++ mark ∷ []) v.taken v.passes v.all };
}

/// A mark was taken, or the queue was empty.
pub struct Taken;

impl Outcome<Mark, Log> for Taken {
    ghost use Rattle.std.specs.Prelude.{◌≡◌, [], ◌∷◌, ◌++◌};
    ghost use Rattle.mark_line.specs.Log.{log};

    ghost then = { λ v mark w. w ≡ log v.registered (v.taken ++ mark ∷ []) v.passes v.all };
}

impl Lesson<Mark, Log> for Taken {
    ghost use Rattle.mark_line.specs.Log.{SawQueue};

    ghost fact = { SawQueue };
}

/// A line of one pass has one pass more, while no mark is known.
pub struct Grown;

impl Split<Log> for Grown {
    ghost use Rattle.std.specs.Prelude.{[], ◌+◌};
    ghost use Rattle.mark_line.specs.Log.{log};

    ghost left = { λ v. log v.registered v.taken (v.passes + 1) (v.all + 1) };

    ghost right = { λ v. log [] [] 0 0 };
}

/// A pass gives one of its passes away.
pub struct Shared;

impl Split<Log> for Shared {
    ghost use Rattle.std.specs.Prelude.{[], ◌-◌};
    ghost use Rattle.mark_line.specs.Log.{log};

    ghost left = { λ v. log v.registered v.taken (v.passes - 1) v.all };

    ghost right = { λ v. log [] [] 1 v.all };
}

/// Two passes are one.
pub struct Joined;

impl Join<Log> for Joined {
    ghost use Rattle.std.specs.Prelude.{[], ◌+◌, ◌++◌};
    ghost use Rattle.mark_line.specs.Log.{log};

    ghost both = { λ v w. log (v.registered ++ w.registered) (v.taken ++ w.taken) (v.passes + w.passes) v.all };

    ghost spent = { log [] [] 0 0 };
}
