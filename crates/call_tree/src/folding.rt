//! The merging of what the subs of a parallel node answered.

ghost use Rattle.std.specs.Prelude.{◌≡◌, ◌^◌, ◌<◌, length, cond, unwrap_or, slice_get, [], None, IfOk};
ghost use Rattle.std.specs.Option.{option_map};
ghost use Rattle.rpc_model.specs.State as spec;
ghost use Rattle.rpc_model.specs.Parallel.{fold_parts, parts_of};
ghost use Rattle.rpc_model.specs.declared.event.End.TheVariants as end_word;
ghost use Rattle.call_tree.specs.Shown.{states_of};
ghost use Rattle.call_tree.specs.Folding.{with_last, or_end, text_in, merged_with};

use crate::nodes::Tree;
use rpc_base::{Bytes, NoMemory};
use rpc_model::{ERESPONSE, ETOOMANYFAILS, End, Merger, Verdict};
use std::alloc::Global;

/// The parts of the subs that ended well are merged, by rising index and without a copy of them, where the sub of this
/// index is to end so, if that is given. So many subs failed, and so many failures end the node.
pub(crate) fn fold<M, G: Merger>(
    alloc: Global,
    merges: &[G],
    kids: &[Tree<M, G>],
    at: usize,
    end: Option<&End>,
    fails: u32,
    limit: u32,
) -> Result<End, NoMemory>
    requires few { length kids.now < 2 ^ 31 }
    requires open { fails < limit }
    ensures { IfOk result (λ e. e ≡ fold_parts G.answer (parts_of merges.now (with_last (spec.ends_of (states_of kids.now)) at (option_map (λ e. e.now) end.entry))) fails limit) }
{
    let mut so_far = None;
    let mut failed = fails;
    let mut index = 0u32;
    for kid in kids {
        let Some(merge) = merger_at(merges, index as usize) else {
            return Ok(merged_end(alloc, so_far));
        };
        let text = text_of(kid, index as usize == at, end);
        match merge_into(alloc, merge, &mut so_far, index, text)? {
            Verdict::Taken => {}
            Verdict::Fail => {
                failed += 1;
                if failed == limit {
                    return Ok(End::Bad(ETOOMANYFAILS));
                }
            }
            Verdict::FailAll => return Ok(End::Bad(ERESPONSE)),
        }
        index += 1;
    }
    Ok(merged_end(alloc, so_far))
}

/// The merger of the sub of this index.
fn merger_at<G>(merges: &[G], index: usize) -> Option<&G>
    ensures { option_map (λ m. m.now) result ≡ slice_get merges.now index }
{
    merges.get(index)
}

/// The end with all that was merged.
fn merged_end(alloc: Global, so_far: Option<Bytes>) -> End
    ensures { result ≡ end_word.Good (unwrap_or so_far []) }
{
    match so_far {
        None => End::Good(Bytes::of(Vec::new(alloc))),
        Some(value) => End::Good(value),
    }
}

/// The text that a sub brings by its end, or, where it is the one that this end is given of, by that.
fn text_of<'a, M, G>(kid: &'a Tree<M, G>, here: bool, end: Option<&'a End>) -> Option<&'a Bytes>
    ensures { option_map (λ b. b.now) result ≡ text_in (or_end (cond here (option_map (λ e. e.now) end.entry) None) (spec.end_of kid.now)) }
{
    if here {
        if let Some(end) = end {
            return good_text(Some(end));
        }
    }
    good_text(kid.end())
}

/// The text of a good end.
fn good_text(end: Option<&End>) -> Option<&Bytes>
    ensures { option_map (λ b. b.now) result ≡ text_in (option_map (λ e. e.now) end.entry) }
{
    match end {
        Some(End::Good(text)) => Some(text),
        _ => None,
    }
}

/// Merges the text of a sub, if there is one, into the value so far.
fn merge_into<G: Merger>(
    alloc: Global,
    merge: &G,
    so_far: &mut Option<Bytes>,
    index: u32,
    text: Option<&Bytes>,
) -> Result<Verdict, NoMemory>
    ensures { IfOk result (λ verdict. (so_far.new, verdict) ≡ merged_with G.answer merge.now so_far.old index (option_map (λ b. b.now) text.entry)) }
{
    match text {
        None => Ok(Verdict::Taken),
        Some(text) => {
            let verdict = merge.merge_into(alloc, so_far, index, text.list())?;
            Ok(verdict)
        }
    }
}
