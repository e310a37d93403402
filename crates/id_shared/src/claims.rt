//! The tokens that have to be spent. None can be copied, dropped or made outside this crate.
ghost use Rattle.std.specs.Prelude.{◌≡◌};
ghost use Rattle.id_shared.specs.Standing.{Claim, IsClaim, first_id_of};

use id_pool::make_id;
use std::marker::Model;

/// A slot that is reserved for a range. It has to be spent, by `install` or `give_up`.
pub struct Spot {
    pub(crate) slot: u32,
    pub(crate) first: u32,
    pub(crate) size: u32,
}

impl Model for Spot {
    ghost Value = { Claim };

    ghost view = { λ c. record { slot = c.slot; first = c.first; size = c.size } };

    ghost invariant = { λ c. IsClaim record { slot = c.slot; first = c.first; size = c.size } };
}

impl Spot {
    /// The first id of the range that is reserved.
    pub fn first_id(&self) -> u64
        ensures first { result ≡ first_id_of self.now }
    {
        make_id(self.slot, self.first)
    }
}

/// A range that is locked. It has to be spent, by `unlock` or `destroy`.
pub struct Hold {
    pub(crate) slot: u32,
    pub(crate) first: u32,
    pub(crate) size: u32,
}

impl Model for Hold {
    ghost Value = { Claim };

    ghost view = { λ c. record { slot = c.slot; first = c.first; size = c.size } };

    ghost invariant = { λ c. IsClaim record { slot = c.slot; first = c.first; size = c.size } };
}

impl Hold {
    // The range isn't locked any more.
    pub(crate) fn spend(self) {
        let Hold {
            slot: _,
            first: _,
            size: _,
        } = self;
    }
}

/// A range whose last value will be collected. It has to be spent, by `collect` or `join`.
pub struct Owner {
    pub(crate) slot: u32,
    pub(crate) first: u32,
    pub(crate) size: u32,
}

impl Model for Owner {
    ghost Value = { Claim };

    ghost view = { λ c. record { slot = c.slot; first = c.first; size = c.size } };

    ghost invariant = { λ c. IsClaim record { slot = c.slot; first = c.first; size = c.size } };
}

impl Owner {
    /// The first id of the range.
    pub fn first_id(&self) -> u64
        ensures first { result ≡ first_id_of self.now }
    {
        make_id(self.slot, self.first)
    }
}
