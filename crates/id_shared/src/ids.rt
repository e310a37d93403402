//! The table.
ghost use Rattle.id_shared.specs.Standing.{IdTable, IsIdTable};

use atomic_table::Table;
use id_rule::{IdRule, Sizes, Tenant, View};
use std::alloc::Global;
use std::marker::Model;

/// Ids in slots, which threads share.
#[derive(Drop)]
pub struct Ids<T: Tenant> {
    pub(crate) table: Table<Option<T>, View<T::Entry>, Sizes, IdRule, Global>,
    pub(crate) sizes: Sizes,
}

impl<T: Tenant> Model for Ids<T> {
    ghost Value = { IdTable };

    ghost view = { λ t. record { table = t.table.shared.table_id; sizes = t.sizes } };

    ghost invariant = { λ t. IsIdTable t.table.shared.table_id t.table.shared.key t.sizes };
}
