//! The parallel nodes of a call.

ghost use Rattle.std.specs.Prelude.{◌≡◌, ◌+◌, ◌∷◌, ◌++◌, ◌^◌, ◌<◌, ◌≤◌, [], length, get_or, set, is_some, true, None, Some, IfOk, OnOk};
ghost use Rattle.std.specs.Option.{option_map};
ghost use Rattle.rpc_model.specs.State as spec;
ghost use Rattle.rpc_model.specs.Parallel.{judged, par_deadline};
ghost use Rattle.call_tree.specs.Counts.{limits_of, IsOpen, AreCounts};
ghost use Rattle.call_tree.specs.Judging.{brought_up};
ghost use Rattle.call_tree.specs.Places.{IsAt};
ghost use Rattle.call_tree.specs.Running.{kinds_of};
ghost use Rattle.call_tree.specs.Shown.{states_of, IsParNode};
ghost use Rattle.call_tree.specs.Starting.{end_with};

use crate::counts::Counts;
use crate::folding::fold;
use crate::nodes::{ParNode, Tree};
use chan_tree::last_up_to;
use rpc_base::NoMemory;
use rpc_model::{ERPCTIMEDOUT, ETOOMANYFAILS, End, Mapper, Merger};
use std::alloc::Global;

/// The end that this end of the sub of this index brings a node, where these are the counts with it.
pub(crate) fn judge<M: Mapper, G: Merger>(
    alloc: Global,
    counts: Counts,
    merges: &[G],
    kids: &[Tree<M, G>],
    at: usize,
    end: &End,
) -> Result<Option<End>, NoMemory>
    requires few { length kids.now < 2 ^ 31 }
    requires counted { AreCounts counts (set (spec.ends_of (states_of kids.now)) at (Some end.now)) }
    ensures end { IfOk result (λ o. o ≡ judged (kinds_of M.answer G.answer) (limits_of counts) merges.now (set (spec.ends_of (states_of kids.now)) at (Some end.now))) }
    ensures open { IfOk result (λ o. IsOpen counts o) }
{
    if counts.has_failed() {
        return Ok(Some(End::Bad(ETOOMANYFAILS)));
    }
    if counts.is_complete() {
        let over = fold(alloc, merges, kids, at, Some(end), counts.bads, counts.fail)?;
        return Ok(Some(over));
    }
    Ok(None)
}

impl<M: Mapper + Drop, G: Merger + Drop> ParNode<M, G> {
    /// The end that the deadline brings a node without one.
    pub(crate) fn expire(&self, alloc: Global) -> Result<End, NoMemory>
        requires few { length self.now.kids.items < 2 ^ 31 }
        requires sound { IsParNode self.now }
        requires open { self.now.end ≡ None }
        ensures { IfOk result (λ end. end ≡ par_deadline (kinds_of M.answer G.answer) (limits_of self.now.counts) self.now.merges (spec.ends_of (states_of self.now.kids.items))) }
    {
        let fails = self.counts.late();
        if self.counts.fail <= fails {
            return Ok(End::Bad(ERPCTIMEDOUT));
        }
        let kids = self.kids.as_slice();
        let end = fold(
            alloc,
            self.merges.list(),
            kids,
            kids.len(),
            None,
            fails,
            self.counts.fail,
        )?;
        Ok(end)
    }

    /// One more sub comes behind the others, at this place from the node on. Where the node has an end, it only waits.
    pub(crate) fn add(
        &mut self,
        tree: Tree<M, G>,
        place: u32,
        alloc: Global,
    ) -> Result<(), NoMemory>
        requires sound { IsParNode self.old }
        requires place { place ≡ 1 + spec.size_of (states_of self.old.kids.items) }
        requires waits { is_some self.old.end ≡ true → spec.end_of tree ≡ None }
        requires few { length self.old.kids.items + 1 < 2 ^ 31 }
        ensures sound { OnOk result (IsParNode self.new) }
        ensures kids { OnOk result (self.new.kids.items ≡ self.old.kids.items ++ tree ∷ []) }
        ensures end { OnOk result (self.new.end ≡ end_with (kinds_of M.answer G.answer) self.old.end
            (limits_of self.old.counts) self.old.merges (spec.ends_of (states_of self.old.kids.items)) (spec.end_of tree)) }
        ensures limits { OnOk result (limits_of self.new.counts ≡ limits_of self.old.counts) }
        ensures merges { OnOk result (self.new.merges ≡ self.old.merges) }
    {
        let at = self.kids.len();
        self.firsts.push(place)?;
        self.kids.push(tree)?;
        if self.end.is_some() {
            return Ok(());
        }
        let Some(end) = self.kids[at].end() else {
            return Ok(());
        };
        let counts = self.counts.with(end);
        let over = judge(
            alloc,
            counts,
            self.merges.list(),
            self.kids.as_slice(),
            at,
            end,
        )?;
        self.counts = counts;
        self.end = over;
        Ok(())
    }
}

impl<M, G> ParNode<M, G> {
    /// The place of the sub that a number is of, or of a node below it, and the sub's own number.
    pub(crate) fn sub_at(&self, node: u32, to: u32) -> (usize, u32)
        requires sound { IsParNode self.now }
        requires low { node < to }
        requires high { to < node + (1 + spec.size_of (states_of self.now.kids.items)) }
        ensures at { IsAt node to (states_of self.now.kids.items) result.0 result.1 }
        ensures there { result.0 < length self.now.kids.items }
    {
        let firsts = self.firsts.as_slice();
        let at = last_up_to(firsts, to - node);
        (at, node + firsts[at])
    }
}

impl<M: Mapper, G: Merger> ParNode<M, G> {
    /// The end that this end of the sub of this index, or none, brings a node without one.
    pub(crate) fn over(
        &self,
        alloc: Global,
        at: usize,
        end: Option<&End>,
    ) -> Result<Option<End>, NoMemory>
        requires few { length self.now.kids.items < 2 ^ 31 }
        requires sound { IsParNode self.now }
        requires open { self.now.end ≡ None }
        requires there { at < length self.now.kids.items }
        requires fresh { is_some (option_map (λ e. e.now) end) ≡ true → get_or (spec.ends_of (states_of self.now.kids.items)) at None ≡ None }
        ensures { IfOk result (λ o. o ≡ brought_up (kinds_of M.answer G.answer)
            (limits_of self.now.counts) self.now.merges (spec.ends_of (states_of self.now.kids.items)) at (option_map (λ e. e.now) end.entry)) }
    {
        let Some(end) = end else {
            return Ok(None);
        };
        let counts = self.counts.with(end);
        let kids = self.kids.as_slice();
        let over = judge(alloc, counts, self.merges.list(), kids, at, end)?;
        Ok(over)
    }
}
