//! The lines of partition channels.

ghost use Rattle.std.specs.Prelude.{◌≡◌, ◌<◌, ◌≤◌, ◌==◌, ◌&&◌, nat_le, IsTrue, All, map, length, OnErr, IfOk, Err};
ghost use Rattle.rpc_model.specs.ChannelLines as spec;
ghost use Rattle.rpc_model.specs.ChannelWords as words_spec;
ghost use Rattle.rpc_model.specs.Words as known_spec;
ghost use Rattle.call_script.specs.Judged.{Gives, Judged};
ghost use Rattle.call_script.specs.Named.{named_all, IsTag};

use super::Reader;
use crate::channel_words::{NamedTag, kinds_word, tag_word};
use crate::fault::LineFault;
use crate::words::{number, number_option, wait_option};
use rpc_base::List;
use rpc_model::{
    CHANNEL_LIMIT, Cause, Chan, END_LIMIT, MapKind, MergeKind, PART_LIMIT, PartChan, RETRY_LIMIT,
    Tag,
};
use std::alloc::Global;

/// The words `key=value` of a partition channel.
#[derive(Clone, Copy)]
pub(super) struct PartOptions<'a> {
    pub(super) retry: &'a [u8],
    pub(super) backup: &'a [u8],
    pub(super) fail: &'a [u8],
    pub(super) ok: &'a [u8],
    pub(super) timeout: &'a [u8],
}

impl Reader {
    /// The servers of these tags, in their order, those of another count too. Whether there was room for all.
    fn mention_tagged(&mut self, named: &[NamedTag<'_>]) -> Result<bool, LineFault>
        requires few { length self.old.servers ≤ 16 }
        requires some { 1 ≤ length named.now }
        ensures room { IfOk result (λ room. room ≡ nat_le (length (spec.mention_all self.old.servers (spec.names_of (named_all named.now)))) 16) }
        ensures servers { IfOk result (λ room. IsTrue room → self.new ≡ record self.old { servers = spec.mention_all self.old.servers (spec.names_of (named_all named.now)) }) }
        ensures known { IfOk result (λ room. IsTrue room → 1 ≤ length self.new.servers) }
        ensures cause { OnErr result (result ≡ Err LineFault.Memory) }
    {
        for tag in named {
            if !self.mention(tag.name)? {
                return Ok(false);
            }
        }
        Ok(true)
    }

    /// The tags with the numbers of their servers, which lines have mentioned.
    fn numbered_tags(&self, named: &[NamedTag<'_>]) -> Result<Vec<Tag>, LineFault>
        requires some { 1 ≤ length self.now.servers }
        requires tags { All IsTag named.now }
        ensures tags { IfOk result (λ tags. tags.items ≡ spec.tags_of self.now.servers (named_all named.now)) }
        ensures known { IfOk result (λ tags. All (λ tag. (tag.server < length self.now.servers) × (tag.part < tag.of) × (tag.of ≤ 1000)) tags.items) }
        ensures cause { OnErr result (result ≡ Err LineFault.Memory) }
    {
        let mut tags = Vec::new(self.alloc);
        for tag in named {
            tags.push(Tag {
                server: self.servers.find(tag.name).unwrap_or(0) as u32,
                part: tag.part,
                of: tag.of,
            })?;
        }
        Ok(tags)
    }

    /// `part NAME M retry=R backup=B fail=F ok=K timeout=T MAP:MERGE SERVER:N/COUNT ..`
    #[tactic(auto, unfolding(rpc_model::specs::ChannelLines::part_line))]
    pub(super) fn part_line(
        &mut self,
        name: &[u8],
        parts: &[u8],
        options: PartOptions<'_>,
        kinds: &[u8],
        words: &[&[u8]],
    ) -> Result<(), LineFault>
        requires some { 1 ≤ length words.now }
        requires few { length words.now ≤ 1000 }
        ensures { Judged result self.new (spec.part_line self.old name.now parts.now options.entry.retry.now options.entry.backup.now
            options.entry.fail.now options.entry.ok.now options.entry.timeout.now kinds.now (map (λ w. w.now) words.now)) }
    {
        self.check_new_name(name)?;
        let parts = number(parts, 1, PART_LIMIT)?;
        let retry = number_option(options.retry, b"retry=", 0, RETRY_LIMIT)?;
        let backup = wait_option(options.backup, b"backup=")?;
        let fail = number_option(options.fail, b"fail=", 0, END_LIMIT)?;
        let ok = number_option(options.ok, b"ok=", 0, END_LIMIT)?;
        let timeout = wait_option(options.timeout, b"timeout=")?;
        let (map, merge) = kinds_word(self.alloc, kinds)?;
        let named = tag_words(self.alloc, words)?;
        let bare = PartChan {
            parts: parts as u32,
            tags: List::of(Vec::new(self.alloc)),
            map,
            merge,
            retry: retry as u32,
            backup,
            fail: fail as u32,
            ok: ok as u32,
            timeout,
        };
        self.push_part(name, &named, bare)
    }

    /// One more partition channel, whose tags are these, where each part has a server and there is room.
    fn push_part(
        &mut self,
        name: &[u8],
        named: &[NamedTag<'_>],
        bare: PartChan<MapKind, MergeKind>,
    ) -> Result<(), LineFault>
        requires fresh { known_spec.index_of self.old.names name.now ≡ None }
        requires some { 1 ≤ length named.now }
        requires few { length named.now ≤ 1000 }
        requires tags { All IsTag named.now }
        requires part { IsBarePart bare }
        ensures { Judged result self.new (spec.with_part self.old name.now (named_all named.now)
            (record bare { tags = spec.tags_of (spec.mention_all self.old.servers (spec.names_of (named_all named.now))) (named_all named.now) })) }
    {
        if !has_all_parts(named, bare.parts) {
            return Err(LineFault::Refused(Cause::MissingPart));
        }
        if self.names.len() >= CHANNEL_LIMIT {
            return Err(LineFault::Refused(Cause::TooMany));
        }
        // A refusal ends the reading, so that it doesn't matter which servers it leaves mentioned.
        if !self.mention_tagged(named)? {
            return Err(LineFault::Refused(Cause::TooMany));
        }
        let tags = self.numbered_tags(named)?;
        let mut part = bare;
        part.tags = List::of(tags);
        self.push_channel(name, Chan::Part(part), 2)?;
        Ok(())
    }
}

ghost use Rattle.call_script.specs.Named.{IsBarePart};

/// Tags, or the cause of the first bad one.
fn tag_words<'a>(alloc: Global, words: &[&'a [u8]]) -> Result<Vec<NamedTag<'a>>, LineFault>
    ensures tags { Gives (λ tags. named_all tags.items) result (words_spec.tag_words (map (λ w. w.now) words.now)) }
    ensures right { IfOk result (λ tags. All IsTag tags.items) }
    ensures many { IfOk result (λ tags. length tags.items ≡ length words.now) }
{
    let mut tags = Vec::new(alloc);
    for word in words {
        let tag = tag_word(alloc, word)?;
        tags.push(tag)?;
    }
    Ok(tags)
}

/// Whether each part has a server.
fn has_all_parts(named: &[NamedTag<'_>], parts: u32) -> bool
    ensures { result ≡ lacks_none (named_all named.now) 0 parts parts }
{
    let mut part = 0;
    while part < parts {
        if !has_part(named, parts, part) {
            return false;
        }
        part += 1;
    }
    true
}

/// Whether a tag names this part of so many.
fn has_part(named: &[NamedTag<'_>], parts: u32, part: u32) -> bool
    ensures { result ≡ has_tag (named_all named.now) parts part }
{
    for tag in named {
        if names_part(tag, parts, part) {
            return true;
        }
    }
    false
}

fn names_part(tag: &NamedTag<'_>, parts: u32, part: u32) -> bool
    ensures { result ≡ (tag.now.part == part && tag.now.of == parts) }
{
    tag.part == part && tag.of == parts
}

ghost use Rattle.call_script.specs.Named.{has_tag, lacks_none};
