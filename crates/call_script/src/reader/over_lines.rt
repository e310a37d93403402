//! The lines of channels over others: parallel and selective ones.

ghost use Rattle.std.specs.Prelude.{◌≡◌, ◌<◌, ◌≤◌, All, map, length, IfOk};
ghost use Rattle.rpc_model.specs.ChannelLines as spec;
ghost use Rattle.rpc_model.specs.ChannelWords as words_spec;
ghost use Rattle.rpc_model.specs.Fits.{IsChan};
ghost use Rattle.rpc_model.specs.Words as known_spec;
ghost use Rattle.call_script.specs.Judged.{Gives, Judged};

use super::Reader;
use crate::channel_words::{map_word, merge_word};
use crate::cut::cut;
use crate::fault::LineFault;
use crate::words::{number_option, wait_option};
use rpc_base::List;
use rpc_model::{
    CHANNEL_LIMIT, Cause, Chan, DEPTH_LIMIT, END_LIMIT, MapKind, MergeKind, ParChan, RETRY_LIMIT,
    SelChan, Sub,
};

impl Reader {
    /// The sub of a word `SUB:MAP:MERGE`.
    #[tactic(auto, unfolding(rpc_model::specs::ChannelWords::sub_word))]
    fn sub_word(&self, word: &[u8]) -> Result<Sub<MapKind, MergeKind>, LineFault>
        ensures sub { Gives (λ sub. sub) result (words_spec.sub_word self.now.names word.now) }
        ensures known { IfOk result (λ sub. sub.chan < length self.now.chans) }
    {
        let pieces = cut(self.alloc, word, b':')?;
        let [name, mapper, merger] = pieces.as_slice() else {
            return Err(LineFault::Refused(Cause::BadSub));
        };
        let map = map_word(mapper)?;
        let merge = merge_word(merger)?;
        let chan = self.known_channel(name)?;
        Ok(Sub { map, merge, chan })
    }

    /// Subs, or the cause of the first bad one.
    fn sub_words(&self, words: &[&[u8]]) -> Result<Vec<Sub<MapKind, MergeKind>>, LineFault>
        ensures subs { Gives (λ subs. subs.items) result (words_spec.sub_words self.now.names (map (λ w. w.now) words.now)) }
        ensures known { IfOk result (λ subs. All (λ sub. sub.chan < length self.now.chans) subs.items) }
        ensures many { IfOk result (λ subs. length subs.items ≡ length words.now) }
    {
        let mut subs = Vec::new(self.alloc);
        for word in words {
            let sub = self.sub_word(word)?;
            subs.push(sub)?;
        }
        Ok(subs)
    }

    /// The numbers of channels of these names, or the cause of the first bad one.
    fn known_channels(&self, words: &[&[u8]]) -> Result<Vec<u32>, LineFault>
        ensures numbers { Gives (λ numbers. numbers.items) result (words_spec.known_names self.now.names (map (λ w. w.now) words.now)) }
        ensures known { IfOk result (λ numbers. All (λ n. n < length self.now.chans) numbers.items) }
        ensures many { IfOk result (λ numbers. length numbers.items ≡ length words.now) }
    {
        let mut numbers = Vec::new(self.alloc);
        for word in words {
            let number = self.known_channel(word)?;
            numbers.push(number)?;
        }
        Ok(numbers)
    }

    /// One more channel over others, where it isn't too deep and there is room.
    fn push_over(&mut self, name: &[u8], chan: Chan<MapKind, MergeKind>) -> Result<(), LineFault>
        requires fresh { known_spec.index_of self.old.names name.now ≡ None }
        requires chan { IsChan (length self.old.servers) (length self.old.chans) chan }
        ensures { Judged result self.new (spec.with_over self.old name.now chan) }
    {
        let depth = self.chans.depth_of(&chan);
        if depth > u64::from(DEPTH_LIMIT) {
            return Err(LineFault::Refused(Cause::TooDeep));
        }
        if self.names.len() >= CHANNEL_LIMIT {
            return Err(LineFault::Refused(Cause::TooMany));
        }
        self.push_channel(name, chan, depth as u32)
    }

    /// `par NAME fail=F ok=K timeout=T SUB:MAP:MERGE ..`
    #[tactic(auto, unfolding(rpc_model::specs::ChannelLines::par_line))]
    pub(super) fn par_line(
        &mut self,
        name: &[u8],
        fail: &[u8],
        ok: &[u8],
        timeout: &[u8],
        words: &[&[u8]],
    ) -> Result<(), LineFault>
        requires some { 1 ≤ length words.now }
        requires few { length words.now ≤ 1000 }
        ensures { Judged result self.new (spec.par_line self.old name.now fail.now ok.now timeout.now (map (λ w. w.now) words.now)) }
    {
        self.check_new_name(name)?;
        let fail = number_option(fail, b"fail=", 0, END_LIMIT)?;
        let ok = number_option(ok, b"ok=", 0, END_LIMIT)?;
        let timeout = wait_option(timeout, b"timeout=")?;
        let subs = self.sub_words(words)?;
        self.push_over(
            name,
            Chan::Par(ParChan {
                subs: List::of(subs),
                fail: fail as u32,
                ok: ok as u32,
                timeout,
            }),
        )
    }

    /// `sel NAME retry=R timeout=T SUB ..`
    #[tactic(auto, unfolding(rpc_model::specs::ChannelLines::sel_line))]
    pub(super) fn sel_line(
        &mut self,
        name: &[u8],
        retry: &[u8],
        timeout: &[u8],
        words: &[&[u8]],
    ) -> Result<(), LineFault>
        requires some { 1 ≤ length words.now }
        requires few { length words.now ≤ 1000 }
        ensures { Judged result self.new (spec.sel_line self.old name.now retry.now timeout.now (map (λ w. w.now) words.now)) }
    {
        self.check_new_name(name)?;
        let retry = number_option(retry, b"retry=", 0, RETRY_LIMIT)?;
        let timeout = wait_option(timeout, b"timeout=")?;
        let subs = self.known_channels(words)?;
        self.push_over(
            name,
            Chan::Sel(SelChan {
                subs: List::of(subs),
                retry: retry as u32,
                timeout,
            }),
        )
    }
}
