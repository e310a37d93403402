ghost use Rattle.std.specs.Prelude.{◌≡◌};

use rpc_model::MarkAt;
use std::marker::Model;

/// A mark of a call that wasn't taken. It is seen as the mark.
// A type of its own, since a `SmallVec` fills its places by `Default`.
#[derive(Default, Drop)]
pub(crate) struct Wait {
    moment: u64,
    node: u32,
    backup: bool,
}

impl Model for Wait {
    ghost use Rattle.rpc_model.specs.Effects.{Mark};

    ghost Value = { Mark };

    ghost view = { λ w. record { moment = w.moment; node = w.node; backup = w.backup } };
}

impl Wait {
    pub(crate) fn of(mark: MarkAt) -> Wait
        ensures { result ≡ mark }
    {
        Wait {
            moment: mark.moment,
            node: mark.node,
            backup: mark.backup,
        }
    }

    pub(crate) fn mark(&self) -> MarkAt
        ensures { result ≡ self.now }
    {
        MarkAt {
            moment: self.moment,
            node: self.node,
            backup: self.backup,
        }
    }
}
