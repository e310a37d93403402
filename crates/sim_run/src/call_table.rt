ghost use Rattle.std.specs.Prelude.{◌≡◌, [], ◌∷◌, ◌++◌, nat_eq, None, OnOk};
ghost use Rattle.std.specs.List.{IsDistinct};
ghost use Rattle.std.specs.Map.{keys_of, lookup};
ghost use Rattle.std.specs.Option.{option_copied};

use crate::ticket::Ticket;
use call_numbers::Numbers;
use rpc_base::NoMemory;
use std::alloc::Global;
use std::marker::Model;

/// The calls of a replay by their numbers, in the order of their lines: each with its ticket, `None` where it found no slot.
///
/// A call is found at once where the numbers follow each other, and else in a time that grows with the logarithm of their
/// count, whatever numbers a script gives its calls.
#[derive(Drop)]
pub(crate) struct CallTable {
    calls: Vec<(u32, Option<Ticket>)>,
    numbers: Numbers,
}

impl Model for CallTable {
    ghost use Rattle.sim_run.specs.Called.{Called, AreNumbers};

    ghost Value = { Called };

    ghost use Rattle.std.specs.Coded.{codes};
    ghost use Rattle.chan_tree.specs.Code.{plan_code};
    ghost use Rattle.rpc_model.specs.declared.kinds.MapKind.{MapKind};
    ghost use Rattle.rpc_model.specs.declared.kinds.MergeKind.{MergeKind};

    ghost coded = { Prim.hlevel (codes, plan_code {M = MapKind} {G = MergeKind} (Prim.hlevel (codes))) };

    ghost view = { λ t. record { entries = t.calls.items } };

    ghost invariant = { λ t. AreNumbers t.numbers t.calls.items };
}

impl CallTable {
    /// No call yet.
    pub(crate) fn new(alloc: Global) -> CallTable
        ensures empty { result.entries ≡ [] }
    {
        CallTable {
            calls: Vec::new(alloc),
            numbers: Numbers::new(alloc),
        }
    }

    /// The call of this number.
    pub(crate) fn get(&self, call: u32) -> Option<&Option<Ticket>>
        ensures value { option_copied result ≡ lookup (nat_eq call) self.now.entries }
    {
        let place = self.numbers.place_of(call)?;
        Some(&self.calls[place].1)
    }

    /// One more call.
    pub(crate) fn push(&mut self, call: u32, ticket: Option<Ticket>) -> Result<(), NoMemory>
        requires new { lookup (nat_eq call) self.old.entries ≡ None }
        ensures entries { OnOk result (self.new.entries ≡ self.old.entries ++ (call, ticket) ∷ []) }
        ensures once { OnOk result (IsDistinct nat_eq (keys_of self.new.entries)) }
    {
        self.calls.push((call, ticket))?;
        match self.numbers.push(call) {
            Ok(()) => Ok(()),
            Err(_) => {
                self.calls.pop();
                Err(NoMemory)
            }
        }
    }
}
