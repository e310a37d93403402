//! What each kind of step tells its pass. These types are for proofs alone: no value of them is made.
use crate::tenant::Tenant;
use crate::view::View;
use atomic_table::{Join, Play, Split};

/// A load of a slot's word.
pub struct Look;

impl<T: Tenant> Play<Option<T>, View<T::Entry>> for Look {
    ghost use Rattle.id_rule.specs.Steps.{IsLook};

    ghost then = { IsLook T.receipt };
}

/// A vacant slot is reserved, or the word is another.
pub struct Reserve;

impl<T: Tenant> Play<Option<T>, View<T::Entry>> for Reserve {
    ghost use Rattle.id_rule.specs.Steps.{IsReserving};

    ghost then = { IsReserving };
}

/// A reserved slot is vacant again.
pub struct GiveUp;

impl<T: Tenant> Play<Option<T>, View<T::Entry>> for GiveUp {
    ghost use Rattle.id_rule.specs.Steps.{IsGivingUp};

    ghost then = { IsGivingUp };
}

/// A reserved slot is locked, and its range begins.
pub struct Install;

impl<T: Tenant> Play<Option<T>, View<T::Entry>> for Install {
    ghost use Rattle.id_rule.specs.Steps.{IsInstalling};

    ghost then = { IsInstalling T.log };
}

/// A free slot is locked, or the word is another.
pub struct Lock;

impl<T: Tenant> Play<Option<T>, View<T::Entry>> for Lock {
    ghost use Rattle.id_rule.specs.Steps.{IsLocking};

    ghost then = { IsLocking T.log T.first_id T.receipt };
}

/// A load that gives a held slot back, empty.
pub struct Lay;

impl<T: Tenant> Play<Option<T>, View<T::Entry>> for Lay {
    ghost use Rattle.id_rule.specs.Steps.{IsLaying};

    ghost then = { IsLaying };
}

/// A load that takes a held slot again.
pub struct Lift;

impl<T: Tenant> Play<Option<T>, View<T::Entry>> for Lift {
    ghost use Rattle.id_rule.specs.Steps.{IsLifting};

    ghost then = { IsLifting };
}

/// A locked slot without a head is free, or errors wait.
pub struct Unlock;

impl<T: Tenant> Play<Option<T>, View<T::Entry>> for Unlock {
    ghost use Rattle.id_rule.specs.Steps.{IsUnlocking};

    ghost then = { IsUnlocking T.log };
}

/// A locked slot is ended, and its chain is the pass's list.
pub struct End;

impl<T: Tenant> Play<Option<T>, View<T::Entry>> for End {
    ghost use Rattle.id_rule.specs.Steps.{IsEnding};

    ghost then = { IsEnding T.log T.receipt };
}

/// A load by the Owner's pass, which takes the slot where its range has ended.
pub struct Take;

impl<T: Tenant> Play<Option<T>, View<T::Entry>> for Take {
    ghost use Rattle.id_rule.specs.Steps.{IsTaking};

    ghost then = { IsTaking T.log T.first_id T.receipt };
}

/// An ended slot is vacant or retired.
pub struct Empty;

impl<T: Tenant> Play<Option<T>, View<T::Entry>> for Empty {
    ghost use Rattle.id_rule.specs.Steps.{IsEmptying};

    ghost then = { IsEmptying T.receipt };
}

/// The first word of the node in hand is written.
pub struct WriteFirst;

impl<T: Tenant> Play<Option<T>, View<T::Entry>> for WriteFirst {
    ghost use Rattle.id_rule.specs.Steps.{IsFirstWrite};

    ghost then = { IsFirstWrite };
}

/// The second word of the node in hand is written.
pub struct WriteSecond;

impl<T: Tenant> Play<Option<T>, View<T::Entry>> for WriteSecond {
    ghost use Rattle.id_rule.specs.Steps.{IsSecondWrite};

    ghost then = { IsSecondWrite };
}

/// The node in hand is free again.
pub struct LetGo;

impl<T: Tenant> Play<Option<T>, View<T::Entry>> for LetGo {
    ghost use Rattle.id_rule.specs.Steps.{IsLettingGo};

    ghost then = { IsLettingGo };
}

/// A load of the pass's own node, which is in hand where it was free.
pub struct Pick;

impl<T: Tenant> Play<Option<T>, View<T::Entry>> for Pick {
    ghost use Rattle.id_rule.specs.Steps.{IsPick};

    ghost then = { IsPick };
}

/// The node in hand is pushed onto the chain of a locked slot, or the word is another.
pub struct Push;

impl<T: Tenant> Play<Option<T>, View<T::Entry>> for Push {
    ghost use Rattle.id_rule.specs.Steps.{IsPush};

    ghost then = { IsPush };
}

/// The holder takes the chain of its slot.
pub struct TakeAll;

impl<T: Tenant> Play<Option<T>, View<T::Entry>> for TakeAll {
    ghost use Rattle.id_rule.specs.Steps.{IsTakingAll};

    ghost then = { IsTakingAll T.receipt };
}

/// A load of a word of the first taken node.
pub struct Read;

impl<T: Tenant> Play<Option<T>, View<T::Entry>> for Read {
    ghost use Rattle.id_rule.specs.Steps.{IsRead};

    ghost then = { IsRead };
}

/// The first taken node is free.
pub struct Free;

impl<T: Tenant> Play<Option<T>, View<T::Entry>> for Free {
    ghost use Rattle.id_rule.specs.Steps.{IsFreeing};

    ghost then = { IsFreeing };
}

/// A new pass takes the first pass's next number.
pub struct Fork;

impl<E> Split<View<E>> for Fork {
    ghost use Rattle.id_rule.specs.Parts.{giving_view, given_view};

    ghost left = { giving_view };

    ghost right = { given_view };
}

/// A pass takes in another, which is spent.
pub struct Merge;

impl<E> Join<View<E>> for Merge {
    ghost use Rattle.id_rule.specs.Parts.{spent_view};
    ghost use Rattle.id_rule.specs.Changes.{joined_view};

    ghost both = { joined_view };

    ghost spent = { spent_view };
}
