use super::*;
use rpc_base::{Bytes, NoMemory};
use rpc_model::End;
use std::alloc::{AllocError, Global};
use std::test::Fail;

fn bytes(alloc: Global, text: &str) -> Result<Bytes, AllocError> {
    Ok(Bytes::of(Vec::from_slice(alloc, text.as_bytes())?))
}

fn parts(
    alloc: Global,
    merge: MergeKind,
    texts: &[&str],
) -> Result<Vec<Part<MergeKind>>, AllocError> {
    let mut parts = Vec::new(alloc);
    let mut index = 0;
    for text in texts {
        parts.push(Part {
            index,
            merge,
            text: bytes(alloc, text)?,
        })?;
        index = index.wrapping_add(1);
    }
    Ok(parts)
}

#[test]
fn parts_are_merged_by_rising_index(rt: HostRuntime) -> Result<(), Fail> {
    let alloc = rt.alloc();
    let rows = [
        (
            MergeKind::Cat,
            ["a", "b", "c"],
            0,
            1,
            End::Good(bytes(alloc, "abc")?),
        ),
        (
            MergeKind::Sum,
            ["1", "x", "3"],
            0,
            2,
            End::Good(bytes(alloc, "4")?),
        ),
        (MergeKind::Sum, ["1", "x", "3"], 1, 2, End::Bad(1005)),
        (
            MergeKind::Same,
            ["u", "u", "u"],
            0,
            1,
            End::Good(bytes(alloc, "u")?),
        ),
        (MergeKind::Same, ["u", "u", "v"], 0, 1, End::Bad(2002)),
        (
            MergeKind::Drop,
            ["a", "b", "c"],
            0,
            4,
            End::Good(bytes(alloc, "")?),
        ),
        (MergeKind::Drop, ["a", "b", "c"], 0, 3, End::Bad(1005)),
    ];
    for (merge, texts, fails, limit, wanted) in rows {
        let parts = parts(alloc, merge, &texts)?;
        assert!(rt; fails < limit, "a node that is merged has fewer failures");
        let end = fold_parts(alloc, &parts, fails, limit)?;
        assert_eq!(rt; end, wanted, "{merge:?}");
    }
    Ok(())
}

ghost use Rattle.std.specs.Prelude.{◌≡◌, ◌^◌, ◌<◌, ◌≤◌, [], None, IfOk, length, unwrap_or};
ghost use Rattle.fan_out.specs.Longest.{longest, last_only};
ghost use Rattle.rpc_model.specs.Parallel.{mapped};
ghost use Rattle.rpc_model.specs.declared.event.End.TheVariants as end;

/// A merger of a user's own: the longer part wins.
#[derive(Clone, Copy, Debug)]
struct Longest;

impl Merger for Longest {
    ghost use Rattle.fan_out.specs.Longest.{longer};

    ghost answer = { λ m so_far index part. longer so_far part };

    fn merge(
        &self,
        alloc: Global,
        so_far: Option<&[u8]>,
        _index: u32,
        part: &[u8],
    ) -> Result<Merged, NoMemory> {
        let longest = match so_far {
            None => part,
            Some(value) => if part.len() <= value.len() {
                value
            } else {
                part
            },
        };
        let mut copy = Vec::new(alloc);
        copy.extend_from_slice(longest)?;
        Ok(Merged::Merged(Bytes::of(copy)))
    }
}

/// By the law of its merger alone the fold is the longest text.
fn longest_part(alloc: Global, parts: &[Part<Longest>]) -> Result<End, NoMemory>
    ensures { IfOk result (λ e. e ≡ end.Good (unwrap_or (longest None parts.now) [])) }
{
    fold_parts(alloc, parts, 0, 1)
}

/// A mapper of a user's own: only the last sub is asked.
#[derive(Clone, Copy, Debug)]
struct LastOnly;

impl Mapper for LastOnly {
    ghost use Rattle.fan_out.specs.Longest.{last_only};

    ghost answer = { λ m index count request. last_only index count request };

    fn map(
        &self,
        alloc: Global,
        index: u32,
        count: u32,
        request: &[u8],
    ) -> Result<Mapped, NoMemory> {
        if index != count.saturating_sub(1) {
            return Ok(Mapped::Skip);
        }
        let mut copy = Vec::new(alloc);
        copy.extend_from_slice(request)?;
        Ok(Mapped::Send(Bytes::of(copy)))
    }
}

/// By the law of its mapper alone the last sub is asked.
fn asked_last(alloc: Global, maps: &[LastOnly], request: &[u8]) -> Result<Vec<Mapped>, NoMemory>
    requires few { length maps.now < 2 ^ 31 }
    ensures { IfOk result (λ asked. asked.items ≡ mapped (λ m index count q. last_only index count q) maps.now request.now) }
{
    ask_all(alloc, maps, request)
}

#[test]
fn a_mapper_and_a_merger_of_ones_own(rt: HostRuntime) -> Result<(), Fail> {
    let alloc = rt.alloc();
    let mut parts = Vec::new(alloc);
    for text in ["a", "longest", "of"] {
        parts.push(Part {
            index: 0,
            merge: Longest,
            text: bytes(alloc, text)?,
        })?;
    }
    let end = longest_part(alloc, &parts)?;
    assert_eq!(rt; end, End::Good(bytes(alloc, "longest")?));
    let asked = asked_last(alloc, &[LastOnly, LastOnly], b"q")?;
    let mut wanted = Vec::new(alloc);
    wanted.push(Mapped::Skip)?;
    wanted.push(Mapped::Send(bytes(alloc, "q")?))?;
    assert_eq!(rt; asked, wanted);
    Ok(())
}
