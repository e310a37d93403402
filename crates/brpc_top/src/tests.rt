use super::*;
use rpc_base::{MemSink, MemSource};
use std::alloc::{AllocError, Global};
use std::process::Abort;
use std::test::Fail;

/// What a run ended with, what it wrote, and how often the source or the sink failed.
#[derive(Drop)]
struct Outcome {
    status: u8,
    text: Vec<u8>,
    faults: u64,
}

/// How a source and a sink behave: the most bytes a call, and the calls that fail.
#[derive(Drop)]
struct Outside<'a> {
    read_piece: usize,
    failing_reads: &'a [u64],
    write_piece: usize,
    failing_writes: &'a [u64],
}

const WELL: Outside<'static> = Outside {
    read_piece: 65_536,
    failing_reads: &[],
    write_piece: 65_536,
    failing_writes: &[],
};

fn run_over(
    alloc: Global,
    words: &[&str],
    script: &str,
    outside: &Outside<'_>,
) -> Result<Outcome, AllocError> {
    let mut owned = Vec::new(alloc);
    for word in words {
        owned.push(String::from_str(alloc, word)?)?;
    }
    let bytes = Vec::from_slice(alloc, script.as_bytes())?;
    let failing_reads = Vec::from_slice(alloc, outside.failing_reads)?;
    let failing_writes = Vec::from_slice(alloc, outside.failing_writes)?;
    let mut source = MemSource::new(bytes, outside.read_piece.max(1), failing_reads);
    let mut sink = MemSink::new(alloc, outside.write_piece.max(1), failing_writes);
    let status = run(alloc, &owned, &mut source, &mut sink);
    Ok(Outcome {
        status,
        text: Vec::from_slice(alloc, sink.bytes())?,
        faults: source.faults().saturating_add(sink.faults()),
    })
}

/// Each script ends with this status and writes this text. There is memory enough for all of them, so a run that gives up
/// for want of it fails here.
fn expect(rt: &impl Abort, alloc: Global, rows: &[(&str, u8, &str)]) -> Result<(), AllocError> {
    for (script, status, text) in rows {
        let got = run_over(alloc, &["sim"], script, &WELL)?;
        assert_eq!(rt; got.status, *status, "at {script}");
        assert_eq!(rt; got.text.as_slice(), text.as_bytes(), "at {script}");
    }
    Ok(())
}

/// One row a subject; `rows/` has many, for the built program.
#[test]
fn worked_rows(rt: HostRuntime) -> Result<(), Fail> {
    let rows = [
        ("", 0, ""),
        (ROW, 0, "1 ok 1 abc\n"),
        // Without a last newline, and with an empty text.
        (
            "leaf x a retry=0 backup=-1 timeout=500\nat 0 call 1 x -\nat 5 reply 1 0#0 0 -\njoin 1",
            0,
            "1 ok 1 -\n",
        ),
        // A second call finds no slot, and a third finds the one that a join made free.
        (
            "open 1\nleaf x a,b retry=1 backup=-1 timeout=500\nat 0 call 1 x hi\nat 1 call 2 x u\nat 3 cancel 1\njoin 1\njoin 2\nat 4 call 3 x v\njoin 3\n",
            0,
            "2 full\n1 fail 125 1\n2 gone\n3 fail 1008 1\n",
        ),
        // A retry and a backup request.
        (
            "leaf x a,b retry=2 backup=100 timeout=500\nat 0 call 1 x hi\nat 50 lose 1 0#0 1009\nat 150 reply 1 0#0 0 late\nat 160 reply 1 0#1 0 second\njoin 1\n",
            0,
            "1 ok 3 second\n",
        ),
        (
            "leaf x a,b retry=1 backup=-1 timeout=500\n\nat 0 call 1 x hi\nat 5 reply 1 0#2 0 abc\n",
            5,
            "refused 4 BadAttempt\n",
        ),
    ];
    expect(&rt, rt.alloc(), &rows)?;
    Ok(())
}

const ROW: &str =
    "leaf x a,b retry=1 backup=-1 timeout=500\nat 0 call 1 x hi\nat 5 reply 1 0#0 0 abc\njoin 1\n";

#[test]
fn words_that_are_refused(rt: HostRuntime) -> Result<(), Fail> {
    for words in [
        [].as_slice(),
        &["live"],
        &["help"],
        &["--help"],
        &["-h"],
        &[""],
        &["sim "],
        &["Sim"],
        &["sim", "x"],
        &["sim", "1"],
        &["sim", ""],
        &["gen"],
        &["load"],
        &["gen", "0"],
        &["gen", "100001"],
        &["load", "0"],
        &["load", "100001"],
        &["gen", "01"],
        &["gen", "+1"],
        &["gen", "1 "],
        &["gen", ""],
        &["gen", "--help"],
        &["gen", "4294967297"],
        &["gen", "1", "1"],
    ] {
        let got = run_over(rt.alloc(), words, ROW, &WELL)?;
        assert_eq!(rt; got.status, 2);
        assert_eq!(rt; got.text.as_slice(), b"".as_slice());
    }
    Ok(())
}

const GENERATED: &str =
    "open 64\nleaf x a,b,c retry=2 backup=50 timeout=400\nleaf y b,c retry=1 backup=-1 timeout=300\n\
     par p fail=2 ok=0 timeout=600 x:index:cat y:same:cat x:split:cat\nsel s retry=1 timeout=-1 p x\n\
     at 10 call 1 p u,v,w\nat 11 reply 1 1#0 0 t\njoin 1\n";

/// The generated script of one call, its replay, and the line that sums that up; and a sink that fails.
#[test]
fn generated_script(rt: HostRuntime) -> Result<(), Fail> {
    let summary = "calls 1 ok 0 fail 1 open 0 full 0 attempts 4\n";
    for (words, script, text) in [
        (["gen", "1"].as_slice(), "", GENERATED),
        (&["sim"], GENERATED, "1 fail 1005 4\n"),
        (&["load", "1"], "", summary),
    ] {
        let got = run_over(rt.alloc(), words, script, &WELL)?;
        assert_eq!(rt; got.status, 0);
        assert_eq!(rt; got.text.as_slice(), text.as_bytes());
    }
    let outside = Outside {
        read_piece: 1,
        failing_reads: &[0],
        write_piece: 5,
        failing_writes: &[2],
    };
    for (command, text) in [("gen", "open 64\nle"), ("load", "calls 1 ok")] {
        let got = run_over(rt.alloc(), &[command, "1"], "", &outside)?;
        assert_eq!(rt; got.status, 4);
        assert_eq!(rt; got.text.as_slice(), text.as_bytes());
    }
    Ok(())
}

#[test]
fn faults_of_the_outside(rt: HostRuntime) -> Result<(), Fail> {
    // The second read fails: no bytes.
    let outside = Outside {
        read_piece: 10,
        failing_reads: &[1],
        write_piece: 100,
        failing_writes: &[],
    };
    let got = run_over(rt.alloc(), &["sim"], ROW, &outside)?;
    assert_eq!(rt; got.status, 3);
    assert_eq!(rt; got.text.as_slice(), b"".as_slice());

    // Three bytes are taken, and then a write fails.
    let outside = Outside {
        read_piece: 1,
        failing_reads: &[],
        write_piece: 3,
        failing_writes: &[1],
    };
    let got = run_over(rt.alloc(), &["sim"], ROW, &outside)?;
    assert_eq!(rt; got.status, 4);
    assert_eq!(rt; got.text.as_slice(), b"1 o".as_slice());

    // Three bytes a write, and a byte a read.
    let outside = Outside {
        read_piece: 1,
        failing_reads: &[],
        write_piece: 3,
        failing_writes: &[],
    };
    let got = run_over(rt.alloc(), &["sim"], ROW, &outside)?;
    assert_eq!(rt; got.status, 0);
    assert_eq!(rt; got.text.as_slice(), b"1 ok 1 abc\n".as_slice());

    // A refusal is written in part.
    let outside = Outside {
        read_piece: 9,
        failing_reads: &[],
        write_piece: 4,
        failing_writes: &[2],
    };
    let got = run_over(rt.alloc(), &["sim"], "what\n", &outside)?;
    assert_eq!(rt; got.status, 4);
    assert_eq!(rt; got.text.as_slice(), b"refused ".as_slice());
    Ok(())
}

/// No call comes behind the last one that is needed: the read behind the end and the write behind the last byte would
/// fail.
#[test]
fn calls_that_are_not_made(rt: HostRuntime) -> Result<(), Fail> {
    let rows: [(&[&str], &str, u64, u64); 4] = [
        (&["sim"], ROW, 2, 1),
        (&["sim"], "", 1, 0),
        (&["gen", "1"], ROW, 0, 1),
        (&["load", "1"], ROW, 0, 1),
    ];
    for (words, script, reads, writes) in rows {
        let outside = Outside {
            read_piece: 65_536,
            failing_reads: &[reads],
            write_piece: 65_536,
            failing_writes: &[writes],
        };
        let got = run_over(rt.alloc(), words, script, &outside)?;
        assert_eq!(rt; got.status, 0, "at {script}");
        assert_eq!(rt; got.faults, 0, "at {script}");
    }
    Ok(())
}
