//! Laws of the plain machine, each as the contract of a function that does nothing. Those that are said over kinds hold
//! whatever mappers and mergers of two types answer.

ghost use Rattle.rpc_model.specs.Kinds.{Kinds};
ghost use Rattle.model_laws.specs.Completions.{ParallelNodesStandByCompletions};
ghost use Rattle.model_laws.specs.Early.{DueMarksMayBeTakenAtOnce};
ghost use Rattle.model_laws.specs.Earned.{GoodEndsNeedALiveReply, GoodNodesHaveAGoodLeaf};
ghost use Rattle.model_laws.specs.Heard.{TextsNeedAReply, ToldAttemptsAreFew, ToldOnce};
ghost use Rattle.model_laws.specs.Late.{LateLinesTellNothing};
ghost use Rattle.model_laws.specs.Laws.{EndsStay, NodesStay, LeavesIssueFew, NodesAreOfThePlan, ParallelNodesAreEven, TriesAreFew};
ghost use Rattle.model_laws.specs.Laws.{SendsAreOfTheState, SendsAreAttempts, NothingIsSentTwice, OffsetsAndMeaningsAreInverse, WeavesJoin};
ghost use Rattle.model_laws.specs.Logs.{EndsAreTheMachines, TakenMarksWereSet};
ghost use Rattle.model_laws.specs.Moments.{MomentsAreEarly};

/// Each end that is told is the one that the machine gives for that call's own events: those of the lines that name it, in
/// their order, woven with its own marks.
pub fn told_ends_are_the_machines()
    ensures { EndsAreTheMachines }
{}

/// A mark that a call takes among its events is one that a node of this call set, for this node and at this very moment.
pub fn taken_marks_were_set()
    ensures { TakenMarksWereSet }
{}

/// A text is told only of a call that has a reply line of code 0, and that reply came to an attempt that was live then.
pub fn told_texts_need_a_reply()
    ensures { TextsNeedAReply }
{}

/// A call is told to have issued no more attempts than the leaves of its plan may: on a plain channel one and its retry
/// limit.
pub fn told_attempts_are_few()
    ensures { ToldAttemptsAreFew }
{}

/// The joins of a script tell the end of a call at most once.
pub fn told_once()
    ensures { ToldOnce }
{}

/// What comes after the end of a call changes nothing that is told: a reply, a loss or a cancel of a call that is over by
/// then tells the same as a tick in its place.
pub fn late_lines_tell_nothing()
    ensures { LateLinesTellNothing }
{}

/// Every moment that an accepted script reaches stays below 2^60, and so does every mark that waits then.
pub fn moments_are_early()
    ensures { MomentsAreEarly }
{}

/// Calls may take their marks as soon as these are due, or only before their next event: the joins tell the same.
pub fn due_marks_may_be_taken_at_once()
    ensures { DueMarksMayBeTakenAtOnce }
{}

/// Taking the marks up to one moment and then those up to a later one is taking all of them at once.
pub fn weaves_join()
    ensures { WeavesJoin }
{}

/// A call that has an end stays as it is, whatever comes to it.
pub fn ends_stay<M, G>()
    ensures { (kinds : Kinds M G) → EndsStay kinds }
{}

/// A node that has an end stays as it is, with all that is below it.
pub fn nodes_stay<M, G>()
    ensures { (kinds : Kinds M G) → NodesStay kinds }
{}

/// A leaf issues at most one attempt more than its retry limit.
pub fn leaves_issue_few<M, G>()
    ensures { (kinds : Kinds M G) → LeavesIssueFew kinds }
{}

/// The plan of a selective channel has one try more than its own retry limit.
pub fn tries_are_few<M, G>()
    ensures { TriesAreFew M G }
{}

/// A parallel node of a channel's plan has as many mappers and as many mergers as subs, and fewer than the plan has nodes.
pub fn parallel_nodes_are_even<M, G>()
    ensures { ParallelNodesAreEven M G }
{}

/// Each node has the channel of the plan at its place, and the request that the mappers above it made of the call's.
pub fn nodes_are_of_the_plan<M, G>()
    ensures { (kinds : Kinds M G) → NodesAreOfThePlan kinds }
{}

/// A call ends with a text only if a reply of code 0 came to an attempt that was live then.
pub fn good_ends_need_a_live_reply<M, G>()
    ensures { (kinds : Kinds M G) → GoodEndsNeedALiveReply kinds }
{}

/// A node that has a text as its end, wherever it is in the tree, has a leaf at it or below it that has one; and a leaf has
/// one only by a reply of code 0 to a live attempt.
pub fn good_nodes_have_a_good_leaf<M, G>()
    ensures { (kinds : Kinds M G) → GoodNodesHaveAGoodLeaf kinds }
{}

/// The end of a parallel node, wherever it is in the tree, is that of its completions in the order in which they came, or
/// that of its deadline, and then its own deadline came to it while it was open. Only where no sub was started, or a cancel
/// came to the whole call while it was open, is it another.
pub fn parallel_nodes_stand_by_completions<M, G>()
    ensures { (kinds : Kinds M G) → ParallelNodesStandByCompletions kinds }
{}

/// What a call sent is, in some order, the first attempts of each leaf that was started, one for each that it issued, each
/// to its own server and with the leaf's request.
pub fn sends_are_of_the_state<M, G>()
    ensures { (kinds : Kinds M G) → SendsAreOfTheState kinds }
{}

/// A call sends as often as it issues attempts.
pub fn sends_are_attempts<M, G>()
    ensures { (kinds : Kinds M G) → SendsAreAttempts kinds }
{}

/// No attempt of a node is sent twice.
pub fn nothing_is_sent_twice<M, G>()
    ensures { (kinds : Kinds M G) → NothingIsSentTwice kinds }
{}

/// No two versions of a range are of the same, and offsets and meanings are inverse.
pub fn offsets_and_meanings_are_inverse<M, G>()
    ensures { OffsetsAndMeaningsAreInverse M G }
{}
