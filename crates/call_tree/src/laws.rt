//! Laws of calls, each as the contract of a function that does nothing.

ghost use Rattle.rpc_model.specs.Kinds.{Kinds};
ghost use Rattle.call_tree.specs.Logs.{CallsAreTheMachinesOfTheirLogs};

/// A call that began, and then applied the entries of its log, is in the state that the plain machine has after its start
/// and their events, each at its moment.
#[tactic(auto, using(crate::proofs::Logs::calls_are_machines))]
pub fn calls_are_the_machines_of_their_logs<M, G>()
    ensures { (kinds : Kinds M G) → CallsAreTheMachinesOfTheirLogs kinds }
{}
