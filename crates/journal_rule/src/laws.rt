//! Laws of the rule, each as the contract of a function that does nothing: the tests that compute decide what the parts say.

ghost use Rattle.std.specs.Prelude.{◌≡◌, ℕ, [], Some};
ghost use Rattle.std.specs.Bool.{Decides};
ghost use Rattle.rpc_model.specs.declared.script.Script.{Script};
ghost use Rattle.rpc_model.specs.declared.journal.Journal.{Journal};
ghost use Rattle.journal_rule.specs.Calls.{HasCalls, has_calls};
ghost use Rattle.journal_rule.specs.Ranges.{HasRanges, has_ranges};
ghost use Rattle.journal_rule.specs.Ends.{HasEnds, has_ends};
ghost use Rattle.journal_rule.specs.Requests.{HasRequests, has_requests};
ghost use Rattle.journal_rule.specs.Sources.{HasSources, has_sources};
ghost use Rattle.journal_rule.specs.Words.{HasGoneWords, has_gone_words};
ghost use Rattle.journal_rule.specs.Strays.{HasStrays, has_strays};
ghost use Rattle.journal_rule.specs.Fired.{HasMarks, has_marks};
ghost use Rattle.journal_rule.specs.Losses.{HasLosses, has_losses};
ghost use Rattle.journal_rule.specs.Cancels.{HasCancels, has_cancels};
ghost use Rattle.journal_rule.specs.Apart.{RangesAreApart};
ghost use Rattle.journal_rule.specs.JoinsTell.{FirstJoinsTellEnds};
ghost use Rattle.journal_rule.specs.Judged.{texts_break, texts_tell};
ghost use Rattle.journal_rule.specs.Example.{example_script, example_journal, example_ends};
ghost use Rattle.journal_rule.specs.Lawful.{IsLawful, is_lawful, broken_parts};

/// A journal is lawful exactly where the test of the whole is true.
#[tactic(auto, using(crate::proofs::Lawful::lawful_decided))]
pub fn lawful_is_decided()
    ensures { (script : Script) (lanes : ℕ) (journal : Journal) → Decides (is_lawful script lanes journal) (IsLawful script lanes journal) }
{}

/// A journal is lawful exactly where it breaks no part.
#[tactic(auto, using(crate::proofs::Lawful::none_broken))]
pub fn lawful_is_unbroken()
    ensures lawful { (script : Script) (lanes : ℕ) (journal : Journal) → broken_parts script lanes journal ≡ [] → IsLawful script lanes journal }
    ensures unbroken { (script : Script) (lanes : ℕ) (journal : Journal) → IsLawful script lanes journal → broken_parts script lanes journal ≡ [] }
{}

/// The texts of a run of one call: its journal breaks no part, and its join tells the reply.
#[tactic(auto, using(crate::proofs::Computed::example_breaks, crate::proofs::Computed::example_tells))]
pub fn the_example_is_lawful()
    ensures lawful { texts_break example_script 1 example_journal ≡ Some [] }
    ensures ends { texts_tell example_script example_journal ≡ Some example_ends }
{}

/// Whether the calls are the script's is decided by its test.
#[tactic(auto, using(crate::proofs::Calls::calls_decided))]
pub fn calls_are_decided()
    ensures { (script : Script) (lanes : ℕ) (journal : Journal) → Decides (has_calls script lanes journal) (HasCalls script lanes journal) }
{}

/// Whether the ranges of each slot follow each other is decided by its test.
#[tactic(auto, using(crate::proofs::Ranges::ranges_decided))]
pub fn ranges_are_decided()
    ensures { (script : Script) (lanes : ℕ) (journal : Journal) → Decides (has_ranges script lanes journal) (HasRanges script lanes journal) }
{}

/// Where the ranges of each slot follow each other, no two calls of a slot have an id in common.
pub fn ranges_are_apart()
    ensures { RangesAreApart }
{}

/// Whether each call ends with its last entry is decided by its test.
#[tactic(auto, using(crate::proofs::Ends::ends_decided))]
pub fn ends_are_decided()
    ensures { (script : Script) (journal : Journal) → Decides (has_ends script journal) (HasEnds script journal) }
{}

/// Where the calls are the script's and each has its end, the first join of a call tells an end.
pub fn first_joins_tell_ends()
    ensures { FirstJoinsTellEnds }
{}

/// Whether what went out is what the calls send is decided by its test.
pub fn requests_are_decided()
    ensures { (script : Script) (journal : Journal) → Decides (has_requests script journal) (HasRequests script journal) }
{}

/// Whether entries and sources name each other is decided by its test.
#[tactic(auto, using(crate::proofs::Sources::sources_decided))]
pub fn sources_are_decided()
    ensures { (script : Script) (journal : Journal) → Decides (has_sources script journal) (HasSources script journal) }
{}

/// Whether the words show what was gone is decided by its test.
#[tactic(auto, using(crate::proofs::Words::gone_words_decided))]
pub fn gone_words_are_decided()
    ensures { (script : Script) (lanes : ℕ) (journal : Journal) → Decides (has_gone_words script lanes journal) (HasGoneWords script lanes journal) }
{}

/// Whether strays and what was dropped were rightly so is decided by its test.
#[tactic(auto, using(crate::proofs::Strays::strays_decided))]
pub fn strays_are_decided()
    ensures { (script : Script) (lanes : ℕ) (journal : Journal) → Decides (has_strays script lanes journal) (HasStrays script lanes journal) }
{}

/// Whether the marks that fired were set is decided by its test.
pub fn marks_are_decided()
    ensures { (script : Script) (journal : Journal) → Decides (has_marks script journal) (HasMarks script journal) }
{}

/// Whether the losses are those of their wires is decided by its test.
pub fn losses_are_decided()
    ensures { (journal : Journal) → Decides (has_losses journal) (HasLosses journal) }
{}

/// Whether the cancels are the script's is decided by its test.
#[tactic(auto, using(crate::proofs::Cancels::cancels_decided))]
pub fn cancels_are_decided()
    ensures { (script : Script) (journal : Journal) → Decides (has_cancels script journal) (HasCancels script journal) }
{}
