ghost use Rattle.std.specs.Prelude.{◌≡◌, ◌∷◌, ◌++◌, ◌<◌, [], length};

use crate::nodes::Tree;
use rpc_model::End;
use std::marker::Model;

/// What an event brings a node below another one: its end, and the tries behind it that start then.
#[derive(Drop)]
pub(crate) struct Below<M, G> {
    pub(crate) end: Option<End>,
    pub(crate) started: Vec<Tree<M, G>>,
}

impl<M, G> Model for Below<M, G> {
    ghost use Rattle.call_tree.specs.Brought.{Brought};

    ghost Value = { Brought M G };

    ghost use Rattle.std.specs.Coded.{codes};
    ghost use Rattle.chan_tree.specs.Code.{plan_code};
    ghost use Rattle.call_tree.specs.Code.{state_code};

    ghost coded = { Prim.hlevel (codes, state_code {M = M} {G = G} (Prim.hlevel (codes, plan_code {M = M} {G = G} (Prim.hlevel (codes))))) };

    ghost view = { λ b. record { end = b.end; started = b.started.items } };
}

/// Takes out the last one.
pub(crate) fn pop_below<M, G>(belows: &mut Vec<Below<M, G>>) -> Below<M, G>
    requires some { 0 < length belows.old.items }
    ensures { belows.old.items ≡ belows.new.items ++ result ∷ [] }
{
    let Some(below) = belows.pop() else {
        unreachable!()
    };
    below
}
