use super::*;
use rpc_model::{Cause, Chan, End, MapKind, MergeKind, Mode, Sub, Tag, Told};
use std::alloc::{AllocError, Global};
use std::test::Fail;

/// The lines before each tried line.
const BEFORE: &str = "leaf x a retry=1 backup=-1 timeout=500\nat 0 call 1 x hi\n";

/// The line that is refused and its cause, or none. There is memory enough for each script, so want of it isn't answered.
fn fault(alloc: Global, mode: Mode, bytes: &[u8]) -> Result<Option<(u32, Cause)>, Fail> {
    match read_script(alloc, mode, bytes) {
        Ok(_) => Ok(None),
        Err(ScriptFault::Bad(line, cause)) => Ok(Some((line, cause))),
        Err(ScriptFault::Memory) => Err("there is memory".into()),
    }
}

/// The lines before, and then a line of so many equal bytes between its front and its end.
fn long_line(
    alloc: Global,
    front: &str,
    fill: u8,
    count: usize,
    end: &str,
) -> Result<Vec<u8>, AllocError> {
    let mut bytes = Vec::from_slice(alloc, BEFORE.as_bytes())?;
    bytes.extend_from_slice(front.as_bytes())?;
    for _ in 0..count {
        bytes.push(fill)?;
    }
    bytes.extend_from_slice(end.as_bytes())?;
    Ok(bytes)
}

/// One line for each cause that comes so far, behind the lines before; `None` for a line that is accepted.
#[test]
fn causes(rt: HostRuntime) -> Result<(), Fail> {
    for (mode, line, cause) in [
        (Mode::Sim, "at 5 reply 1 0#1 65535 ~!", None),
        (Mode::Sim, "# a comment\t", Some(Cause::BadByte)),
        (Mode::Sim, "at 5 tick 1", Some(Cause::BadLine)),
        (Mode::Sim, "sel s retry=0 timeout=-1 x", None),
        (
            Mode::Sim,
            "par p fail=0 ok=0 timeout=1 x:same:CAT",
            Some(Cause::BadSub),
        ),
        (
            Mode::Sim,
            "part q 2 retry=0 backup=-1 fail=0 ok=0 timeout=1 same:cat a:2/2",
            Some(Cause::BadTag),
        ),
        (
            Mode::Sim,
            "part q 2 retry=0 backup=-1 fail=0 ok=0 timeout=1 same:cat a:0/2 b:1/3",
            Some(Cause::MissingPart),
        ),
        (Mode::Live, "at 5 cancel 1", None),
        (Mode::Live, "at 5 tick", Some(Cause::SimOnly)),
        (Mode::Live, "at 05 reply 2 0#0 0 abc", Some(Cause::SimOnly)),
        (Mode::Live, "at 5 lose 1 0#0 1009", Some(Cause::SimOnly)),
        (Mode::Sim, "serve a ok", Some(Cause::LiveOnly)),
        (Mode::Live, "serve a", Some(Cause::BadLine)),
        (Mode::Live, "serve A what", Some(Cause::BadName)),
        (Mode::Live, "serve b what", Some(Cause::NoName)),
        (Mode::Live, "serve a ok err=0", Some(Cause::BadWord)),
        (Mode::Live, "serve a delay=60001", Some(Cause::BadWord)),
        (
            Mode::Live,
            "serve a ok err=65535 drop twice delay=1 close",
            Some(Cause::Late),
        ),
        (Mode::Sim, "join 01", Some(Cause::BadNumber)),
        (
            Mode::Sim,
            "leaf y b retry backup=-1 timeout=1",
            Some(Cause::BadOption),
        ),
        (
            Mode::Sim,
            "leaf y b, retry=0 backup=-1 timeout=1",
            Some(Cause::BadName),
        ),
        (
            Mode::Sim,
            "leaf x b retry=0 backup=-1 timeout=1",
            Some(Cause::DupName),
        ),
        (Mode::Sim, "at 5 call 2 y hi", Some(Cause::NoName)),
        (Mode::Sim, "at 5 call 1 y hi", Some(Cause::DupCall)),
        (Mode::Sim, "join 2", Some(Cause::NoCall)),
        (Mode::Sim, "at 5 lose 1 0#2 1009", Some(Cause::BadAttempt)),
        (Mode::Sim, "open 7", Some(Cause::Late)),
        (
            Mode::Sim,
            "leaf y b,c,d,e,f,g,h,i,j,k,l,m,n,o,p,q retry=0 backup=-1 timeout=1",
            Some(Cause::TooMany),
        ),
    ] {
        let mut bytes = Vec::from_slice(rt.alloc(), BEFORE.as_bytes())?;
        bytes.extend_from_slice(line.as_bytes())?;
        let found = fault(rt.alloc(), mode, &bytes)?;
        assert_eq!(rt; found, cause.map(|cause| (3, cause)), "at {line}");
    }
    Ok(())
}

#[test]
fn typed_channels(rt: HostRuntime) -> Result<(), Fail> {
    let text =
        "leaf w c retry=0 backup=-1 timeout=1\n\nopen 7\nleaf x a,c,b,a retry=7 backup=30 timeout=-1\n";
    let script = read_script(rt.alloc(), Mode::Sim, text.as_bytes())
        .ok()
        .ok_or("the script is good")?;
    assert_eq!(rt; (script.slots, script.servers), (7, 3));
    assert_eq!(rt; script.chans.list().len(), 2);
    let Some(Chan::Leaf(leaf)) = script.chans.list().get(1) else {
        return Err("there is a second channel".into());
    };
    assert_eq!(rt; leaf.servers.list(), [1, 0, 2, 1].as_slice());
    assert_eq!(rt;
        (leaf.retry, leaf.backup, leaf.timeout),
        (7, Some(30), None)
    );
    Ok(())
}

/// Channels over others: a parallel one, a selective one, and a partition channel whose tag of another count mentions its
/// server too.
#[test]
fn typed_trees(rt: HostRuntime) -> Result<(), Fail> {
    let text =
        "leaf x a retry=0 backup=-1 timeout=-1\npar p fail=0 ok=1 timeout=30 x:index:sum x:skip:drop\n\
         sel s retry=2 timeout=-1 p x\npart q 2 retry=3 backup=4 fail=5 ok=6 timeout=7 split:cat c:1/2 b:0/3 a:0/2\n";
    let script = read_script(rt.alloc(), Mode::Sim, text.as_bytes())
        .ok()
        .ok_or("the script is good")?;
    assert_eq!(rt; script.servers, 3);
    let [_, Chan::Par(par), Chan::Sel(sel), Chan::Part(part)] = script.chans.list() else {
        return Err("there are four channels".into());
    };
    let subs = [
        Sub {
            map: MapKind::Index,
            merge: MergeKind::Sum,
            chan: 0,
        },
        Sub {
            map: MapKind::Skip,
            merge: MergeKind::Drop,
            chan: 0,
        },
    ];
    assert_eq!(rt; par.subs.list(), subs.as_slice());
    assert_eq!(rt; (par.fail, par.ok, par.timeout), (0, 1, Some(30)));
    assert_eq!(rt; sel.subs.list(), [1, 0].as_slice());
    assert_eq!(rt; (sel.retry, sel.timeout), (2, None));
    let tags = [(1, 1, 2), (2, 0, 3), (0, 0, 2)].map(|(server, part, of)| Tag { server, part, of });
    assert_eq!(rt; part.tags.list(), tags.as_slice());
    assert_eq!(rt;
        (part.parts, part.map, part.merge),
        (2, MapKind::Split, MergeKind::Cat)
    );
    assert_eq!(rt;
        (part.retry, part.backup, part.fail, part.ok, part.timeout),
        (3, Some(4), 5, 6, Some(7))
    );
    Ok(())
}

/// What servers do, and that a line says it once for each.
#[test]
fn directions(rt: HostRuntime) -> Result<(), Fail> {
    let alloc = rt.alloc();
    let text =
        "leaf w a,b retry=0 backup=-1 timeout=1\nserve b ok err=7 drop twice delay=60000 close\nat 0 call 1 w hi\n";
    let script = read_script(alloc, Mode::Live, text.as_bytes())
        .ok()
        .ok_or("the script is good")?;
    assert_eq!(rt; script.serves.list().len(), 1);
    let serve = &script.serves.list()[0];
    assert_eq!(rt; serve.server, 1);
    let wanted = [
        Direction::Plain,
        Direction::Err(7),
        Direction::Drop,
        Direction::Twice,
        Direction::Delay(60_000),
        Direction::Close,
    ];
    assert_eq!(rt; serve.words.list(), wanted.as_slice());
    let twice = "leaf w a,b retry=0 backup=-1 timeout=1\nserve b ok\nserve b ok\n";
    let found = fault(alloc, Mode::Live, twice.as_bytes())?;
    assert_eq!(rt; found, Some((3, Cause::DupName)));
    Ok(())
}

#[test]
fn limits_of_length(rt: HostRuntime) -> Result<(), Fail> {
    let alloc = rt.alloc();
    for (front, fill, count, cause) in [
        ("at 5 call 2 x ", b't', 60_000, None),
        (
            "at 5 call 2 x ",
            b't',
            60_001,
            Some((3, Cause::TextTooLong)),
        ),
        ("#", b'c', 65_535, None),
        ("#", b'\t', 65_536, Some((3, Cause::LineTooLong))),
    ] {
        let text = long_line(alloc, front, fill, count, "\n")?;
        assert_eq!(rt; fault(alloc, Mode::Sim, &text)?, cause);
    }
    Ok(())
}

#[test]
fn texts(rt: HostRuntime) -> Result<(), Fail> {
    let alloc = rt.alloc();
    let mut text = Vec::new(alloc);
    let good = rpc_base::Bytes::of(Vec::from_slice(alloc, b"abc")?);
    let empty = rpc_base::Bytes::of(Vec::new(alloc));
    for told in [
        Told::Ended(1, End::Good(good), 2),
        Told::Ended(4294967295, End::Good(empty), 1),
        Told::Ended(3, End::Bad(1008), 1),
        Told::Unended(4),
        Told::Full(5),
        Told::Gone(6),
    ] {
        write_told(&told, &mut text).ok().ok_or("there is memory")?;
    }
    write_refusal(alloc, 7, Cause::TooDeep, &mut text)
        .ok()
        .ok_or("there is memory")?;
    write_refusal(alloc, 0, Cause::TooLong, &mut text)
        .ok()
        .ok_or("there is memory")?;
    let wanted =
        "1 ok 2 abc\n4294967295 ok 1 -\n3 fail 1008 1\n4 open\n5 full\n6 gone\nrefused 7 TooDeep\nrefused 0 TooLong\n";
    assert_eq!(rt; text.as_slice(), wanted.as_bytes());
    Ok(())
}
