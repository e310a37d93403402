//! The words of channels that stand over others: mappers and mergers, and servers with their tags.

ghost use Rattle.std.specs.Prelude.{◌≡◌, ◌<◌, ◌≤◌, IfOk};
ghost use Rattle.rpc_model.specs.ChannelWords as spec;
ghost use Rattle.rpc_model.specs.Words as words_spec;
ghost use Rattle.call_script.specs.Judged.{Gives};

use crate::cut::cut;
use crate::fault::LineFault;
use crate::words::{is_name, is_text, number_or, position_of};
use rpc_model::{Cause, MapKind, MergeKind, TAG_LIMIT};
use std::alloc::Global;

/// A mapper.
#[tactic(auto, unfolding(rpc_model::specs::ChannelWords::map_word))]
pub(crate) fn map_word(word: &[u8]) -> Result<MapKind, Cause>
    ensures { result ≡ spec.map_word word.now }
{
    if is_text(word, b"same") {
        return Ok(MapKind::Same);
    }
    if is_text(word, b"index") {
        return Ok(MapKind::Index);
    }
    if is_text(word, b"split") {
        return Ok(MapKind::Split);
    }
    if is_text(word, b"skip") {
        return Ok(MapKind::Skip);
    }
    if is_text(word, b"bad") {
        return Ok(MapKind::Bad);
    }
    Err(Cause::BadSub)
}

/// A merger.
#[tactic(auto, unfolding(rpc_model::specs::ChannelWords::merge_word))]
pub(crate) fn merge_word(word: &[u8]) -> Result<MergeKind, Cause>
    ensures { result ≡ spec.merge_word word.now }
{
    if is_text(word, b"cat") {
        return Ok(MergeKind::Cat);
    }
    if is_text(word, b"sum") {
        return Ok(MergeKind::Sum);
    }
    if is_text(word, b"same") {
        return Ok(MergeKind::Same);
    }
    if is_text(word, b"drop") {
        return Ok(MergeKind::Drop);
    }
    Err(Cause::BadSub)
}

/// The mapper and the merger of a word `MAP:MERGE`.
#[tactic(auto, unfolding(rpc_model::specs::ChannelWords::kinds_word))]
pub(crate) fn kinds_word(alloc: Global, word: &[u8]) -> Result<(MapKind, MergeKind), LineFault>
    ensures { Gives (λ kinds. kinds) result (spec.kinds_word word.now) }
{
    let pieces = cut(alloc, word, b':')?;
    let [mapper, merger] = pieces.as_slice() else {
        return Err(LineFault::Refused(Cause::BadSub));
    };
    let map = map_word(mapper)?;
    let merge = merge_word(merger)?;
    Ok((map, merge))
}

/// A server's name with its tag.
#[derive(Clone, Copy)]
pub(crate) struct NamedTag<'a> {
    pub(crate) name: &'a [u8],
    pub(crate) part: u32,
    pub(crate) of: u32,
}

/// The tag of these numbers, with the server's name.
fn tagged<'a>(name: &'a [u8], numbers: &[u8]) -> Result<NamedTag<'a>, Cause>
    ensures tag { result_map_both named_of (λ cause. cause) result ≡ spec.tagged name.now numbers.now }
    ensures bound { IfOk result (λ t. (t.part < t.of) × (t.of ≤ 1000)) }
{
    let Some(at) = position_of(numbers, b'/') else {
        return Err(Cause::BadTag);
    };
    let (front, rest) = numbers.split_at(at);
    let part = number_or(Cause::BadTag, front, 0, TAG_LIMIT)?;
    let of = number_or(Cause::BadTag, &rest[1..], 1, TAG_LIMIT)?;
    if part >= of {
        return Err(Cause::BadTag);
    }
    if !is_name(name) {
        return Err(Cause::BadName);
    }
    Ok(NamedTag {
        name,
        part: part as u32,
        of: of as u32,
    })
}

ghost use Rattle.std.specs.Result.{result_map_both};
ghost use Rattle.call_script.specs.Named.{named_of};

/// The tag of a word `SERVER:N/COUNT`.
#[tactic(auto, unfolding(rpc_model::specs::ChannelWords::tag_word))]
pub(crate) fn tag_word<'a>(alloc: Global, word: &'a [u8]) -> Result<NamedTag<'a>, LineFault>
    ensures tag { Gives named_of result (spec.tag_word word.now) }
    ensures bound { IfOk result (λ t. (t.part < t.of) × (t.of ≤ 1000)) }
{
    let pieces = cut(alloc, word, b':')?;
    let [name, numbers] = pieces.as_slice() else {
        return Err(LineFault::Refused(Cause::BadTag));
    };
    let tag = tagged(name, numbers)?;
    Ok(tag)
}
