//! Laws of plain channels, each as the contract of a function that does nothing. Those that are said over kinds hold
//! whatever mappers and mergers of two types answer.

ghost use Rattle.rpc_model.specs.Kinds.{Kinds};
ghost use Rattle.model_laws.specs.LeafLaws.{AttemptsAreFew, OneAttempt, ReplacedAttemptsDoNothing, LeafSendsAreAttempts, SuccessNeedsALiveReply};

/// A plain channel's call issues one attempt at its start, and at most as many more as its retry limit.
pub fn attempts_are_few<M, G>()
    ensures { (kinds : Kinds M G) → AttemptsAreFew kinds }
{}

/// A call on a plain channel without retry issues exactly one attempt.
pub fn one_attempt<M, G>()
    ensures { (kinds : Kinds M G) → OneAttempt kinds }
{}

/// A plain channel's call sends each attempt that it issues once, in their order: attempt k with the request to the server
/// number (call + k), counted round.
pub fn leaf_sends_are_attempts<M, G>()
    ensures { (kinds : Kinds M G) → LeafSendsAreAttempts kinds }
{}

/// An attempt that was replaced never ends its leaf: neither its reply nor its loss does anything.
pub fn replaced_attempts_do_nothing()
    ensures { ReplacedAttemptsDoNothing }
{}

/// A success comes only from a reply of code 0 to an attempt that is live at that moment.
pub fn success_needs_a_live_reply()
    ensures { SuccessNeedsALiveReply }
{}
