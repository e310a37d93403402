//! The laws of every run over channels of all kinds, each as the contract of a function that does nothing: that an end
//! stays, that attempts are few, that no attempt is sent twice, that each end told is the plain machine's.
//!
//! The statements stand in `specs/`, and rest on the definitions of `rpc_model` alone. Those that are said over kinds hold
//! whatever mappers and mergers of two types answer.
#![tactic(auto)]

mod laws;
mod leaf_laws;

pub use laws::{
    due_marks_may_be_taken_at_once, ends_stay, good_ends_need_a_live_reply,
    good_nodes_have_a_good_leaf, late_lines_tell_nothing, leaves_issue_few, moments_are_early,
    nodes_are_of_the_plan, nodes_stay, nothing_is_sent_twice, offsets_and_meanings_are_inverse,
    parallel_nodes_are_even, parallel_nodes_stand_by_completions, sends_are_attempts,
    sends_are_of_the_state, taken_marks_were_set, told_attempts_are_few,
    told_ends_are_the_machines, told_once, told_texts_need_a_reply, tries_are_few, weaves_join,
};
pub use leaf_laws::{
    attempts_are_few, leaf_sends_are_attempts, one_attempt, replaced_attempts_do_nothing,
    success_needs_a_live_reply,
};
