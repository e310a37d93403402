use crate::rows::{
    CHANGES_1, CHANGES_2, CHANGES_3, CHANGES_4, JOURNAL_1, JOURNAL_2, JOURNAL_3, JOURNAL_4,
};
use journal_text::{read_journal, write_journal};
use std::alloc::{AllocError, Global};
use std::process::Abort;
use std::test::Fail;

/// The text of a journal with the changes of this row.
fn changed(
    alloc: Global,
    journal: &str,
    changes: &[(usize, usize, &str)],
    row: usize,
) -> Result<Vec<u8>, AllocError> {
    let mut text = Vec::new(alloc);
    for (number, line) in journal
        .as_bytes()
        .split_inclusive(|b| *b == b'\n')
        .enumerate()
    {
        let mut stands = line;
        for (of, at, with) in changes {
            if *of == row && *at == number {
                stands = with.as_bytes();
            }
        }
        text.extend_from_slice(stands)?;
    }
    Ok(text)
}

/// Each row of a table is the text of a journal, and written again as it stands.
fn are_journals<R: Abort>(
    rt: &R,
    alloc: Global,
    journal: &str,
    changes: &[(usize, usize, &str)],
) -> Result<(), Fail> {
    for row in 0..=changes.len() {
        let text = changed(alloc, journal, changes, row)?;
        assert!(rt; text.len() < 1 << 32);
        let read = read_journal(alloc, &text)?;
        let mut bytes = Vec::new(alloc);
        write_journal(&read, &mut bytes)?;
        assert_eq!(rt; bytes, text, "row {row}");
    }
    Ok(())
}

#[test]
fn the_rows_are_texts_of_journals(rt: HostRuntime) -> Result<(), Fail> {
    let alloc = rt.alloc();
    are_journals(&rt, alloc, JOURNAL_1, &CHANGES_1)?;
    are_journals(&rt, alloc, JOURNAL_2, &CHANGES_2)?;
    are_journals(&rt, alloc, JOURNAL_3, &CHANGES_3)?;
    are_journals(&rt, alloc, JOURNAL_4, &CHANGES_4)
}
