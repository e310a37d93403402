//! The lines of channels.

ghost use Rattle.std.specs.Prelude.{◌≡◌, ◌<◌, ◌≤◌, nat_le, IsTrue, All, map, [], ◌∷◌, ◌++◌, length, Option, None, Some, OnOk, OnErr, IfOk, Err};
ghost use Rattle.std.specs.List.{slice_split, list_all};
ghost use Rattle.rpc_model.specs.ChannelLines as spec;
ghost use Rattle.rpc_model.specs.Words as words_spec;
ghost use Rattle.rpc_model.specs.Faults as faults;
ghost use Rattle.rpc_model.specs.Fits.{IsChan};
ghost use Rattle.rpc_model.specs.Limits.{IsWait};
ghost use Rattle.rpc_model.specs.declared.chan.Chan.TheVariants as chan;
ghost use Rattle.call_script.specs.Judged.{Judged, Gives};

use super::Reader;
use crate::cut::{Pieces, cut};
use crate::fault::LineFault;
use crate::words::{is_name, number_option, wait_option};
use rpc_base::List;
use rpc_model::{
    CHANNEL_LIMIT, Cause, Chan, LeafChan, MapKind, MergeKind, RETRY_LIMIT, SERVER_LIMIT,
    SERVER_NAME_LIMIT,
};
use std::alloc::Global;

impl Reader {
    /// Refuses a name of no channel's form, and one that an earlier channel has.
    #[tactic(auto, unfolding(rpc_model::specs::Words::new_name))]
    pub(super) fn check_new_name(&self, name: &[u8]) -> Result<(), LineFault>
        ensures name { Gives (λ done. name.now) result (words_spec.new_name self.now.names name.now) }
        ensures fresh { OnOk result (words_spec.index_of self.now.names name.now ≡ None) }
    {
        if !is_name(name) {
            return Err(LineFault::Refused(Cause::BadName));
        }
        if self.names.find(name).is_some() {
            return Err(LineFault::Refused(Cause::DupName));
        }
        Ok(())
    }

    /// A server of this name, which comes last where no line has mentioned it. Whether there was room for it.
    pub(super) fn mention(&mut self, name: &[u8]) -> Result<bool, LineFault>
        ensures room { IfOk result (λ room. room ≡ nat_le (length (spec.mention self.old.servers name.now)) 16) }
        ensures servers { IfOk result (λ room. IsTrue room → self.new ≡ record self.old { servers = spec.mention self.old.servers name.now }) }
        ensures cause { OnErr result (result ≡ Err LineFault.Memory) }
    {
        if self.servers.find(name).is_some() {
            return Ok(true);
        }
        if self.servers.len() >= SERVER_LIMIT {
            return Ok(false);
        }
        self.servers.push(name)?;
        Ok(true)
    }

    /// Each of these servers, in their order. Whether there was room for all.
    fn mention_all(&mut self, names: &[&[u8]]) -> Result<bool, LineFault>
        requires few { length self.old.servers ≤ 16 }
        requires some { 1 ≤ length names.now }
        ensures room { IfOk result (λ room. room ≡ nat_le (length (spec.mention_all self.old.servers (map (λ n. n.now) names.now))) 16) }
        ensures servers { IfOk result (λ room. IsTrue room → self.new ≡ record self.old { servers = spec.mention_all self.old.servers (map (λ n. n.now) names.now) }) }
        ensures known { IfOk result (λ room. IsTrue room → 1 ≤ length self.new.servers) }
        ensures cause { OnErr result (result ≡ Err LineFault.Memory) }
    {
        for name in names {
            if !self.mention(name)? {
                return Ok(false);
            }
        }
        Ok(true)
    }

    /// The numbers of these servers, which lines have mentioned.
    fn server_numbers(&self, names: &[&[u8]]) -> Result<Vec<u32>, LineFault>
        requires { 1 ≤ length self.now.servers }
        ensures numbers { IfOk result (λ numbers. numbers.items ≡ spec.numbers_of self.now.servers (map (λ n. n.now) names.now)) }
        ensures known { IfOk result (λ numbers. All (λ n. n < length self.now.servers) numbers.items) }
        ensures cause { OnErr result (result ≡ Err LineFault.Memory) }
    {
        let mut numbers = Vec::new(self.alloc);
        for name in names {
            numbers.push(self.servers.find(name).unwrap_or(0) as u32)?;
        }
        Ok(numbers)
    }

    /// One more channel, of this depth, which names no server that lines haven't mentioned.
    pub(super) fn push_channel(
        &mut self,
        name: &[u8],
        chan: Chan<MapKind, MergeKind>,
        depth: u32,
    ) -> Result<(), LineFault>
        requires fresh { words_spec.index_of self.old.names name.now ≡ None }
        requires room { length self.old.names < 1000 }
        requires chan { IsChan (length self.old.servers) (length self.old.chans) chan }
        requires depth { depth ≡ faults.chan_depth (faults.depth self.old.chans) (Some chan) }
        requires shallow { depth ≤ 8 }
        ensures channel { OnOk result (self.new ≡ spec.with_chan self.old name.now chan) }
        ensures cause { OnErr result (result ≡ Err LineFault.Memory) }
    {
        self.chans.push(chan, depth)?;
        self.names.push(name)?;
        Ok(())
    }

    /// One more plain channel, over servers that lines have mentioned.
    fn push_leaf(
        &mut self,
        name: &[u8],
        names: &[&[u8]],
        retry: u32,
        backup: Option<u32>,
        timeout: Option<u32>,
    ) -> Result<(), LineFault>
        requires fresh { words_spec.index_of self.old.names name.now ≡ None }
        requires room { length self.old.names < 1000 }
        requires some_name { 1 ≤ length names.now }
        requires some_server { 1 ≤ length self.old.servers }
        requires few_retries { retry ≤ 100 }
        requires backup { IsWait backup }
        requires timeout { IsWait timeout }
        ensures leaf { OnOk result (self.new ≡ record self.old {
          names = self.old.names ++ name.now ∷ [];
          chans = self.old.chans ++ chan.Leaf (record { servers = spec.numbers_of self.old.servers (map (λ n. n.now) names.now); retry = retry; backup = backup; timeout = timeout }) ∷ [];
        }) }
        ensures cause { OnErr result (result ≡ Err LineFault.Memory) }
    {
        let servers = self.server_numbers(names)?;
        self.push_channel(
            name,
            Chan::Leaf(LeafChan {
                servers: List::of(servers),
                retry,
                backup,
                timeout,
            }),
            1,
        )
    }

    /// `leaf NAME SERVERS retry=R backup=B timeout=T`
    #[tactic(auto, unfolding(rpc_model::specs::ChannelLines::leaf_line))]
    pub(super) fn leaf_line(
        &mut self,
        name: &[u8],
        servers: &[u8],
        retry: &[u8],
        backup: &[u8],
        timeout: &[u8],
    ) -> Result<(), LineFault>
        ensures { Judged result self.new (spec.leaf_line self.old name.now servers.now retry.now backup.now timeout.now) }
    {
        self.check_new_name(name)?;
        let names = server_names(self.alloc, servers)?;
        let retry = number_option(retry, b"retry=", 0, RETRY_LIMIT)?;
        let backup = wait_option(backup, b"backup=")?;
        let timeout = wait_option(timeout, b"timeout=")?;
        if self.names.len() >= CHANNEL_LIMIT {
            return Err(LineFault::Refused(Cause::TooMany));
        }
        // A refusal ends the reading, so that it doesn't matter which servers it leaves mentioned.
        if !self.mention_all(&names)? {
            return Err(LineFault::Refused(Cause::TooMany));
        }
        self.push_leaf(name, &names, retry as u32, backup, timeout)?;
        Ok(())
    }
}

/// 1 to 16 names with commas between them.
#[tactic(auto, unfolding(rpc_model::specs::Words::server_names))]
fn server_names<'a>(alloc: Global, word: &'a [u8]) -> Result<Pieces<'a>, LineFault>
    ensures names { Gives (λ v. map (λ n. n.now) v.items) result (words_spec.server_names word.now) }
    ensures some { IfOk result (λ v. 1 ≤ length v.items) }
{
    let names = cut(alloc, word, b',')?;
    if names.len() > SERVER_NAME_LIMIT || !all_names(&names) {
        return Err(LineFault::Refused(Cause::BadName));
    }
    Ok(names)
}

/// Whether each word is a name.
fn all_names(words: &[&[u8]]) -> bool
    ensures { result ≡ list_all words_spec.is_name (map (λ w. w.now) words.now) }
{
    words.iter().all(|word| is_name(word))
}
