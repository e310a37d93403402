//! The rule of the table.
use crate::tenant::Tenant;
use crate::view::View;
use atomic_table::TableRule;

/// How many slots and passes a table has, and how many nodes each pass has.
#[derive(Clone, Copy)]
pub struct Sizes {
    pub slots: u32,
    pub passes: u32,
    pub nodes: u32,
}

/// The rule. A table begins with one pass, from which the others are split.
pub struct IdRule;

impl<T: Tenant> TableRule<Option<T>, View<T::Entry>, Sizes> for IdRule {
    ghost use Rattle.id_rule.specs.Rule.{IsKept};
    ghost use Rattle.id_rule.specs.Parts.{opening_view};
    ghost use Rattle.std.specs.Prelude.{◌*◌};

    ghost holds = { λ sizes. IsKept T.log T.first_id T.receipt sizes };

    ghost first = { λ sizes. opening_view sizes.nodes (sizes.passes * sizes.nodes) };
}
