use super::*;
use std::alloc::Global;
use std::process::Abort;
use std::test::Fail;

/// One call on one wire.
const EXAMPLE: &str =
    "call 1 4294967297 2 0 0\ne 0 reply 0#0 0 6869 0 0\nwire 0 end\nout 4294967298 6869\nin 4294967298 0 6869 entry 1 0\ntimer\nlane 0\n";

/// Every kind of line, every fate, and every way in which a wire ends.
const ALL_KINDS: &str =
    "call 7 4294967297 6 0 12\ne 13 lost 2#1 1009 1 0\ne 14 backup 2 0\ne 1152921504606846975 deadline 0 1\n\
     e 15 cancel 1 0\ncall 8 8589934593 2 1 13\nwire 0 end\nwire 1 fault\nout 4294967299 -\nout 4294967300 00ff\n\
     in 0 0 - stray\nin 5 2002 0a gone 18446744073709551615\nloss 4294967299 1009 2 entry 7 0\n\
     loss 4294967300 1009 0 dropped 7\nwire 2 bad\nwire 3 full\ntimer\nmark 14 15 4294967297 1007 entry 7 1\n\
     mark 9 9 4294967297 1008 gone 0\nlane 0\nlane 1\ncancel 4294967297 entry 7 3\ncancel 4294967297 dropped 7\n";

fn read<R: Abort>(rt: &R, alloc: Global, text: &[u8]) -> Result<rpc_model::Journal, JournalFault> {
    assert!(rt; text.len() < 1 << 32);
    read_journal(alloc, text)
}

/// The first line that is refused, 0 where the text is read.
fn bad_line<R: Abort>(rt: &R, alloc: Global, text: &[u8]) -> u32 {
    match read(rt, alloc, text) {
        Ok(_) => 0,
        Err(JournalFault::Bad(line)) => line,
        Err(JournalFault::Memory) => u32::MAX,
    }
}

#[test]
fn what_is_read_is_written_again(rt: HostRuntime) -> Result<(), Fail> {
    let alloc = rt.alloc();
    let mut lanes = Vec::from_slice(alloc, b"timer\n")?;
    for number in 0..16u32 {
        let line = format!(in alloc; "lane {number}\n")?;
        lanes.extend_from_slice(line.as_bytes())?;
    }
    for text in [
        EXAMPLE.as_bytes(),
        ALL_KINDS.as_bytes(),
        b"timer\nlane 0\n",
        lanes.as_slice(),
    ] {
        assert!(rt; text.len() < 1 << 32);
        let journal = read_journal(alloc, text)?;
        let mut bytes = Vec::from_slice(alloc, b"before")?;
        write_journal(&journal, &mut bytes)?;
        assert_eq!(rt; bytes.strip_prefix(b"before"), Some(text));
    }
    lanes.extend_from_slice(b"lane 16\n")?;
    assert_eq!(rt; bad_line(&rt, alloc, &lanes), 18);
    Ok(())
}

#[test]
fn a_text_that_is_cut_is_refused_where_it_ends(rt: HostRuntime) {
    let alloc = rt.alloc();
    for cut in 0..EXAMPLE.len() {
        let front = EXAMPLE.as_bytes().split_at(cut).0;
        let lines = front.iter().filter(|b| **b == b'\n').count();
        assert_eq!(rt; bad_line(&rt, alloc, front) as usize, lines + 1, "at {cut}");
    }
}

#[test]
fn a_line_is_wrong_in_many_ways(rt: HostRuntime) -> Result<(), Fail> {
    let alloc = rt.alloc();
    for (at, line) in [
        (1, "call 1 4294967297 2 0"),
        (1, "call 1 4294967297 2 0 0 0"),
        (1, "call 01 4294967297 2 0 0"),
        (1, "call 4294967296 1 2 0 0"),
        (1, "call 1 18446744073709551616 2 0 0"),
        (1, "call 1 4294967297 2 0 1152921504606846976"),
        (1, "call  1 4294967297 2 0 0"),
        (1, "call 1 4294967297 2 0 +0"),
        (1, "e 0 cancel 0 0"),
        (1, "out 1 -"),
        (1, ""),
        (2, "e 0 reply 0#0 0 686 0 0"),
        (2, "e 0 reply 0#0 0 6A 0 0"),
        (2, "e 0 reply 0#0 0 - 0"),
        (2, "e 0 reply 0#0#0 0 - 0 0"),
        (2, "e 0 reply 0 0 - 0 0"),
        (2, "e 0 backup 0#0 0"),
        (2, "e 0 other 0 0"),
        (2, "lane 0"),
        (3, "wire 1 end"),
        (3, "wire 0 ended"),
        (3, "mark 0 0 1 1008 gone 0"),
        (4, "loss 1 1009 0 stray"),
        (4, "in 1 0 - dropped 1"),
        (4, "in 1 0 - entry 1"),
        (4, "in 1 0  entry 1 0"),
        (4, "e 0 cancel 0 0"),
        (6, "timer "),
        (6, "lane 0"),
        (7, "lane 1"),
        (7, "cancel 1 gone 0"),
        (7, "wire 1 end"),
        (7, "timer"),
    ] {
        let mut text = Vec::new(alloc);
        for (before, good) in EXAMPLE.as_bytes().split(|b| *b == b'\n').enumerate() {
            text.extend_from_slice(if before + 1 == at {
                line.as_bytes()
            } else {
                good
            })?;
            text.push(b'\n')?;
        }
        assert_eq!(rt; bad_line(&rt, alloc, &text) as usize, at, "{line}");
    }
    let after_a_loss = b"wire 0 end\nloss 1 1009 0 gone 0\nin 0 0 - stray\ntimer\nlane 0\n";
    assert_eq!(rt; bad_line(&rt, alloc, after_a_loss), 3);
    let after_a_frame = b"wire 0 end\nin 0 0 - stray\nout 1 -\ntimer\nlane 0\n";
    assert_eq!(rt; bad_line(&rt, alloc, after_a_frame), 3);
    Ok(())
}

#[test]
fn a_long_journal_is_read_and_written(rt: HostRuntime) -> Result<(), Fail> {
    let alloc = rt.alloc();
    let mut text = String::new(alloc);
    for call in 0..4096u32 {
        text.push_str(format!(in alloc; "call {call} 4294967297 17 0 0\n")?.as_str())?;
        for attempt in 0..16u32 {
            text.push_str(format!(in alloc; "e 0 lost 0#{attempt} 1009 0 0\n")?.as_str())?;
        }
    }
    text.push_str("timer\nlane 0\n")?;
    let text = text.into_bytes();
    assert!(rt; text.len() < 1 << 32);
    let journal = read_journal(alloc, &text)?;
    assert_eq!(rt; journal.calls.list().len(), 4096);
    let mut bytes = Vec::new(alloc);
    write_journal(&journal, &mut bytes)?;
    assert!(rt; bytes == text);
    Ok(())
}
