//! Laws of the rule, each as the contract of a function that does nothing.
ghost use Rattle.id_rule.specs.Laws.{ErrorsAreAsQueued, JoinsKeep, OneHolder, OwnedSlotsStay, StepsAreNoted};

use crate::tenant::Tenant;

/// A slot has at most one Hold, at most one Spot and at most one Owner, each with one pass, whatever the order of the steps
/// so far.
pub fn one_holder<T: Tenant>()
    ensures one_holder { OneHolder T.log T.first_id T.receipt }
{}

/// While a pass has the Owner of a range, no other range is reserved in its slot.
pub fn owned_slots_stay<T: Tenant>()
    ensures owned_slots_stay { OwnedSlotsStay T.log T.first_id T.receipt }
{}

/// An error that a pass took is the one that its poster queued under this receipt: to the same slot and range, to the id with
/// the same offset, with the same code.
pub fn errors_are_as_queued<T: Tenant>()
    ensures as_queued { ErrorsAreAsQueued T.log T.first_id T.receipt }
{}

/// A pass that took in another knows what both knew: words seen, errors, and of each slot the logs, the receipts and what has
/// ended.
pub fn joins_keep<T: Tenant>()
    ensures joins_keep { JoinsKeep T.Entry }
{}

/// What a step tells its pass stands in the view after it: the word of a load and what it shows ended, a range's log and its
/// end, an error that was queued or taken.
pub fn steps_are_noted<T: Tenant>()
    ensures noted { StepsAreNoted T.Entry }
{}
