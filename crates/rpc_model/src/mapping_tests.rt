use crate::*;
use rpc_base::Bytes;
use std::alloc::{AllocError, Global};
use std::test::Fail;

fn bytes(alloc: Global, text: &str) -> Result<Bytes, AllocError> {
    Ok(Bytes::of(Vec::from_slice(alloc, text.as_bytes())?))
}

/// What the mapper answers: the request, or a word that no row asks for.
fn mapped(alloc: Global, map: MapKind, index: u32, request: &str) -> Result<Bytes, Fail> {
    match map.map(alloc, index, 3, request.as_bytes())? {
        Mapped::Send(text) => Ok(text),
        Mapped::Skip => Ok(bytes(alloc, "(skip)")?),
        Mapped::Bad => Ok(bytes(alloc, "(bad)")?),
    }
}

#[test]
fn mappers_answer_by_the_table(rt: HostRuntime) -> Result<(), Fail> {
    let rows = [
        (MapKind::Same, 2, "q", "q"),
        (MapKind::Same, 0, "", ""),
        (MapKind::Index, 0, "q", "q0"),
        (MapKind::Index, 12, "", "12"),
        (MapKind::Split, 0, "", ""),
        (MapKind::Split, 1, "", "(skip)"),
        (MapKind::Split, 0, "a,b", "a"),
        (MapKind::Split, 1, "a,b", "b"),
        (MapKind::Split, 2, "a,b", "(skip)"),
        (MapKind::Split, 0, ",a,", ""),
        (MapKind::Split, 2, ",a,", ""),
        (MapKind::Split, 3, ",a,", "(skip)"),
        (MapKind::Skip, 0, "q", "(skip)"),
        (MapKind::Bad, 0, "q", "(bad)"),
    ];
    for (map, index, request, wanted) in rows {
        let answer = mapped(rt.alloc(), map, index, request)?;
        assert_eq!(rt;
            answer.list(),
            wanted.as_bytes(),
            "{map:?} {index} {request}"
        );
    }
    Ok(())
}

/// What the merger answers: the value, or a word that no row asks for.
fn merged(
    alloc: Global,
    merge: MergeKind,
    so_far: Option<&str>,
    part: &str,
) -> Result<Bytes, Fail> {
    let answer = match so_far {
        None => merge.merge(alloc, None, 0, part.as_bytes())?,
        Some(value) => merge.merge(alloc, Some(value.as_bytes()), 0, part.as_bytes())?,
    };
    match answer {
        Merged::Merged(text) => Ok(text),
        Merged::Fail => Ok(bytes(alloc, "(fail)")?),
        Merged::FailAll => Ok(bytes(alloc, "(fail all)")?),
    }
}

#[test]
fn mergers_answer_by_the_table(rt: HostRuntime) -> Result<(), Fail> {
    let greatest = "18446744073709551615";
    let rows = [
        (MergeKind::Cat, None, "a", "a"),
        (MergeKind::Cat, Some("a"), "b", "ab"),
        (MergeKind::Cat, Some(""), "", ""),
        (MergeKind::Sum, None, "7", "7"),
        (MergeKind::Sum, None, "", "(fail)"),
        (MergeKind::Sum, None, "07", "(fail)"),
        (MergeKind::Sum, None, "18446744073709551616", "(fail)"),
        (MergeKind::Sum, Some("7"), "5", "12"),
        (MergeKind::Sum, Some("a"), "5", "(fail)"),
        (MergeKind::Sum, Some(greatest), "0", greatest),
        (MergeKind::Sum, Some(greatest), "1", "(fail)"),
        (MergeKind::Same, None, "", ""),
        (MergeKind::Same, Some("u"), "u", "u"),
        (MergeKind::Same, Some("u"), "v", "(fail all)"),
        (MergeKind::Drop, None, "a", "(fail)"),
    ];
    for (merge, so_far, part, wanted) in rows {
        let answer = merged(rt.alloc(), merge, so_far, part)?;
        assert_eq!(rt; answer.list(), wanted.as_bytes(), "{merge:?} {part}");
    }
    Ok(())
}
