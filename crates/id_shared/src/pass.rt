//! One thread's way to the table.
ghost use Rattle.std.specs.Prelude.{◌≡◌, ◌++◌, [], reverse, vec_capacity, None};
ghost use Rattle.id_shared.specs.Standing.{Standing};
ghost use Rattle.id_shared.specs.Steady.{IsSteady, IsScratch};

use crate::answers::Posted;
use atomic_table::Seat;
use id_rule::{Tenant, View};
use std::marker::Model;

/// One thread's way to a table: what it knows and has, the words that its last call noted, and the errors that it took from
/// its slots and has still to hand out.
#[derive(Drop)]
pub struct Pass<T: Tenant> {
    pub(crate) seat: Seat<Option<T>, View<T::Entry>>,
    pub(crate) words: Vec<u64>,
    pub(crate) number: u32,
    // How many receipts it has numbered.
    pub(crate) sent: u64,
    // The slot of the Hold whose errors are in `pending`. With none, all errors were dropped.
    pub(crate) holder: Option<u32>,
    // The errors to hand out, last queued first: those of a Pending, and behind them those that `destroy` took.
    pub(crate) pending: Vec<Posted>,
    pub(crate) dropped: Vec<Posted>,
}

impl<T: Tenant> Model for Pass<T> {
    ghost Value = { Standing T.Entry };

    ghost view = { λ p. record { table = p.seat.table_id; view = p.seat.me.0; words = p.words.items; scratch = reverse p.pending.items ++ reverse p.dropped.items; holder = p.holder } };

    ghost invariant = { λ p. IsSteady p.seat.table_id.slots p.seat.me p.number p.sent record { words = vec_capacity p.words; pending = vec_capacity p.pending; dropped = vec_capacity p.dropped }
        × IsScratch p.holder p.pending.items p.dropped.items };
}

impl<T: Tenant> Pass<T> {
    /// The words that the last call noted: after `reserve` those of the slots in the order of its looks, after a `try_post`
    /// that looked at the pass's nodes those of the nodes, from its first one on. A node's word is 0 where it is free.
    pub fn seen(&self) -> &[u64]
        ensures words { result.now ≡ self.now.words }
    {
        self.words.as_slice()
    }

    /// Between two calls a pass has no node in hand and none that it took: the nodes that a call took are free again when it
    /// returns. This call does nothing, and is a law.
    pub fn rests(&self)
        ensures nodes { (self.now.view.hand ≡ None) × (self.now.view.taken ≡ []) }
    {
        // Opens the pass, so that its invariant is known here: that is the law.
        let _ = &self.seat;
    }
}
