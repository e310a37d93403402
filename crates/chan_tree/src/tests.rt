use super::*;
use rpc_base::List;
use rpc_model::{LeafChan, MapKind, Meaning, MergeKind};
use std::alloc::{AllocError, Global};
use std::process::Abort;
use std::test::Fail;

type Kinds = Chan<MapKind, MergeKind>;

fn leaf(alloc: Global, retry: u32) -> Result<Kinds, AllocError> {
    let servers = List::of(Vec::from_slice(alloc, &[0, 1])?);
    Ok(Chan::Leaf(LeafChan {
        servers,
        retry,
        backup: None,
        timeout: None,
    }))
}

fn par(alloc: Global, subs: &[u32]) -> Result<Kinds, AllocError> {
    let mut list = Vec::new(alloc);
    for chan in subs {
        list.push(Sub {
            map: MapKind::Same,
            merge: MergeKind::Cat,
            chan: *chan,
        })?;
    }
    Ok(Chan::Par(ParChan {
        subs: List::of(list),
        fail: 0,
        ok: 0,
        timeout: None,
    }))
}

fn sel(alloc: Global, retry: u32, subs: &[u32]) -> Result<Kinds, AllocError> {
    let subs = List::of(Vec::from_slice(alloc, subs)?);
    Ok(Chan::Sel(SelChan {
        subs,
        retry,
        timeout: None,
    }))
}

fn part(alloc: Global, parts: u32, tags: &[(u32, u32)]) -> Result<Kinds, AllocError> {
    let mut list = Vec::new(alloc);
    for (part, of) in tags {
        list.push(Tag {
            server: 0,
            part: *part,
            of: *of,
        })?;
    }
    Ok(Chan::Part(PartChan {
        parts,
        tags: List::of(list),
        map: MapKind::Split,
        merge: MergeKind::Cat,
        retry: 3,
        backup: None,
        fail: 0,
        ok: 0,
        timeout: None,
    }))
}

/// A parallel channel of two below another one, which asks a plain one too.
fn nested(alloc: Global) -> Result<Vec<Kinds>, AllocError> {
    let mut chans = Vec::new(alloc);
    chans.push(leaf(alloc, 0)?)?;
    chans.push(par(alloc, &[0, 0])?)?;
    chans.push(par(alloc, &[1, 0])?)?;
    Ok(chans)
}

#[test]
fn offsets_are_places_among_the_versions(rt: HostRuntime) -> Result<(), Fail> {
    let chans = nested(rt.alloc())?;
    assert!(rt; are_sound(&chans) && chans.len() == 3);
    let Ok(plan) = plan(rt.alloc(), &chans, 2, 1) else {
        assert!(rt; false, "the plan is refused");
        return Ok(());
    };
    assert_eq!(rt; plan.nodes(), 5);
    assert_eq!(rt; plan.width(), 8);
    for node in 0..5 {
        assert_eq!(rt; plan.offset_of_node(node), node);
        assert_eq!(rt; plan.meaning_of(node), Some(Meaning::Node(node)));
    }
    let rows = [
        (2, 0, Some(5)),
        (3, 0, Some(6)),
        (4, 0, Some(7)),
        (1, 0, None),
        (4, 1, None),
        (5, 0, None),
    ];
    for (node, attempt, offset) in rows {
        assert_eq!(rt;
            plan.offset_of_attempt(node, attempt),
            offset,
            "at {node}#{attempt}"
        );
    }
    assert_eq!(rt; plan.meaning_of(5), Some(Meaning::Attempt(2, 0)));
    assert_eq!(rt; plan.meaning_of(7), Some(Meaning::Attempt(4, 0)));
    assert_eq!(rt; plan.meaning_of(8), None);
    Ok(())
}

/// The fault that the last channel is refused with.
fn fault(rt: &impl Abort, alloc: Global, chans: &[Kinds], call: u32) -> Option<PlanFault> {
    assert!(rt;
        are_sound(chans),
        "each channel names only channels before it"
    );
    let last = u32::try_from(chans.len().wrapping_sub(1)).unwrap_or(0);
    assert!(rt; (last as usize) < chans.len());
    plan(alloc, chans, last, call).err()
}

/// A channel that names itself or a later one, a plain channel without a server and a selective one without a sub.
#[test]
fn lists_that_have_no_plans(rt: HostRuntime) -> Result<(), Fail> {
    let alloc = rt.alloc();
    for (number, sound) in [(0, true), (1, false), (2, false)] {
        let mut chans = Vec::new(alloc);
        chans.push(leaf(alloc, 0)?)?;
        chans.push(par(alloc, &[0, number])?)?;
        assert_eq!(rt; are_sound(&chans), sound);
    }
    let chans = vec![in alloc; sel(alloc, 0, &[])?]?;
    assert_eq!(rt; are_sound(&chans), false);
    Ok(())
}

/// A channel one deeper than the one below it, by each kind that nests: the last one tries the plain channel only.
fn deeper(alloc: Global, way: u32, below: u32) -> Result<Kinds, AllocError> {
    match way {
        0 => par(alloc, &[below]),
        1 => sel(alloc, 0, &[below]),
        2 => par(alloc, &[0, below, 0]),
        _ => sel(alloc, 0, &[0, below]),
    }
}

/// The depth counts over all subs, tried or not: a channel of depth 8 has a plan, one of depth 9 and all above it have none,
/// through a thousand channels each used by the next.
#[test]
fn depths_at_the_limit(rt: HostRuntime) -> Result<(), Fail> {
    let alloc = rt.alloc();
    // Each way to nest, over a plain channel and over a partition one, which is two deep.
    for way in 0..4 {
        for bottom in 1..3 {
            let mut chans = Vec::new(alloc);
            chans.push(leaf(alloc, 0)?)?;
            if bottom == 2 {
                chans.push(part(alloc, 1, &[(0, 1)])?)?;
            }
            for depth in bottom..10 {
                let wanted = if depth > 8 {
                    Some(PlanFault::TooDeep(9))
                } else {
                    None
                };
                assert_eq!(rt;
                    fault(&rt, alloc, &chans, 2),
                    wanted,
                    "way {way} at {depth}"
                );
                let below = u32::try_from(chans.len().wrapping_sub(1)).unwrap_or(0);
                chans.push(deeper(alloc, way, below)?)?;
            }
        }
    }
    let mut chans = Vec::new(alloc);
    chans.push(leaf(alloc, 0)?)?;
    for below in 0..999 {
        chans.push(deeper(alloc, below % 4, below)?)?;
    }
    assert_eq!(rt; fault(&rt, alloc, &chans, 1), Some(PlanFault::TooDeep(9)));
    Ok(())
}

#[test]
fn widths_at_the_limit(rt: HostRuntime) -> Result<(), Fail> {
    // The node, ten leaves of 102 versions each, and a leaf of as many as make the limit or pass it.
    let rows = [
        (0, None),
        (1, None),
        (2, Some(PlanFault::TooWide(1025))),
        (100, Some(PlanFault::TooWide(1025))),
    ];
    for (retry, wanted) in rows {
        let mut chans = Vec::new(rt.alloc());
        chans.push(leaf(rt.alloc(), 100)?)?;
        chans.push(leaf(rt.alloc(), retry)?)?;
        chans.push(par(rt.alloc(), &[0, 0, 0, 0, 0, 0, 0, 0, 0, 0, 1])?)?;
        assert_eq!(rt; fault(&rt, rt.alloc(), &chans, 1), wanted, "with {retry}");
    }
    Ok(())
}

/// A parallel channel that asks one channel so many times.
fn wide(alloc: Global, count: u32, below: u32) -> Result<Kinds, AllocError> {
    let mut subs = Vec::new(alloc);
    for _ in 0..count {
        subs.push(below)?;
    }
    par(alloc, &subs)
}

#[test]
fn widths_past_the_limit(rt: HostRuntime) -> Result<(), Fail> {
    let wanted = Some(PlanFault::TooWide(1025));
    // 601 nodes and 1,200 attempts.
    let mut chans = Vec::new(rt.alloc());
    chans.push(leaf(rt.alloc(), 1)?)?;
    chans.push(wide(rt.alloc(), 600, 0)?)?;
    assert_eq!(rt; fault(&rt, rt.alloc(), &chans, 1), wanted);
    // A width that no number of the machine could hold.
    let mut chans = Vec::new(rt.alloc());
    chans.push(leaf(rt.alloc(), 100)?)?;
    for below in 0..7 {
        chans.push(wide(rt.alloc(), 1000, below)?)?;
    }
    assert_eq!(rt; fault(&rt, rt.alloc(), &chans, 1), wanted);
    Ok(())
}

#[test]
fn parts_without_a_server(rt: HostRuntime) -> Result<(), Fail> {
    let rows = [
        (2, [(0, 2), (1, 2), (0, 3)], None),
        (2, [(0, 2), (0, 2), (1, 3)], Some(PlanFault::MissingPart(1))),
        (2, [(1, 2), (0, 1), (1, 2)], Some(PlanFault::MissingPart(0))),
        (3, [(0, 3), (1, 3), (2, 3)], None),
        (3, [(0, 3), (1, 3), (1, 3)], Some(PlanFault::MissingPart(2))),
    ];
    for (parts, tags, wanted) in rows {
        let mut chans = Vec::new(rt.alloc());
        chans.push(part(rt.alloc(), parts, &tags)?)?;
        assert_eq!(rt; fault(&rt, rt.alloc(), &chans, 1), wanted, "with {tags:?}");
        // Behind a selective channel only the tries of this call's number count.
        chans.push(leaf(rt.alloc(), 0)?)?;
        chans.push(sel(rt.alloc(), 0, &[0, 1])?)?;
        assert_eq!(rt; fault(&rt, rt.alloc(), &chans, 2), wanted, "with {tags:?}");
        assert_eq!(rt; fault(&rt, rt.alloc(), &chans, 3), None, "with {tags:?}");
    }
    Ok(())
}

#[test]
fn tries_turn_by_the_calls_number(rt: HostRuntime) -> Result<(), Fail> {
    let mut chans = Vec::new(rt.alloc());
    chans.push(leaf(rt.alloc(), 0)?)?;
    chans.push(leaf(rt.alloc(), 4)?)?;
    chans.push(par(rt.alloc(), &[0, 0])?)?;
    chans.push(sel(rt.alloc(), 1, &[0, 1, 2])?)?;
    let rows = [(3, 9), (4, 12), (5, 8), (6, 9), (4_294_967_295, 9)];
    assert!(rt; are_sound(&chans) && chans.len() == 4);
    for (call, width) in rows {
        let Ok(plan) = plan(rt.alloc(), &chans, 3, call) else {
            assert!(rt; false, "the plan is refused");
            return Ok(());
        };
        assert_eq!(rt; plan.width(), width, "of call {call}");
    }
    Ok(())
}
