use super::LeafEvent::{Backup, Deadline, Fail, Good};
use super::LeafStep::{Ended, Issue, Nothing, Won};
use super::*;

/// The steps of a leaf with this retry limit.
fn expect(rt: &impl std::process::Abort, retry: u32, rows: &[(LeafEvent, LeafStep)]) {
    let mut leaf = Leaf::begin(retry);
    for (event, step) in rows {
        let got = leaf.apply(*event);
        assert_eq!(rt; got, *step);
    }
}

#[test]
fn replies_and_failures(rt: HostRuntime) {
    // A success, and what comes after an end.
    expect(
        &rt,
        1,
        &[
            (Good(0), Won(0)),
            (Good(0), Nothing),
            (Fail(0, 1009), Nothing),
            (Backup, Nothing),
            (Deadline, Nothing),
        ],
    );
    // A code that isn't retried, and one that is with none left.
    expect(&rt, 1, &[(Fail(0, 1003), Ended(1003)), (Good(0), Nothing)]);
    expect(&rt, 0, &[(Fail(0, 1009), Ended(1009))]);
    // A retry; the late reply and loss of the replaced attempt; the retried one's end.
    expect(
        &rt,
        1,
        &[
            (Fail(0, 1009), Issue(1)),
            (Good(0), Nothing),
            (Fail(0, 1003), Nothing),
            (Good(1), Won(1)),
        ],
    );
    expect(
        &rt,
        1,
        &[(Fail(0, 1009), Issue(1)), (Fail(1, 1009), Ended(1009))],
    );
    // An attempt that was never issued.
    expect(
        &rt,
        2,
        &[
            (Good(2), Nothing),
            (Fail(2, 1009), Nothing),
            (Deadline, Ended(1008)),
        ],
    );
    // Retries to the limit.
    expect(
        &rt,
        3,
        &[
            (Fail(0, 112), Issue(1)),
            (Fail(1, 111), Issue(2)),
            (Fail(2, 104), Issue(3)),
            (Fail(3, 32), Ended(32)),
        ],
    );
}

#[test]
fn backup_requests(rt: HostRuntime) {
    // Either attempt may win.
    expect(&rt, 1, &[(Backup, Issue(1)), (Good(0), Won(0))]);
    expect(&rt, 1, &[(Backup, Issue(1)), (Good(1), Won(1))]);
    // The older one fails and is dropped; the current one's failure ends the leaf, even with the older one out.
    expect(
        &rt,
        1,
        &[
            (Backup, Issue(1)),
            (Fail(0, 1009), Nothing),
            (Good(0), Nothing),
            (Good(1), Won(1)),
        ],
    );
    expect(
        &rt,
        1,
        &[
            (Backup, Issue(1)),
            (Fail(1, 1009), Ended(1009)),
            (Good(0), Nothing),
        ],
    );
    // With an attempt left the current one is retried, and the older one stays.
    expect(
        &rt,
        2,
        &[
            (Backup, Issue(1)),
            (Fail(1, 1009), Issue(2)),
            (Good(1), Nothing),
            (Good(0), Won(0)),
        ],
    );
    // Once, and not past the retry limit.
    expect(
        &rt,
        3,
        &[(Backup, Issue(1)), (Backup, Nothing), (Good(1), Won(1))],
    );
    expect(&rt, 0, &[(Backup, Nothing), (Good(0), Won(0))]);
    expect(
        &rt,
        1,
        &[
            (Fail(0, 1009), Issue(1)),
            (Backup, Nothing),
            (Good(1), Won(1)),
        ],
    );
    // A deadline with both out.
    expect(
        &rt,
        1,
        &[
            (Backup, Issue(1)),
            (Deadline, Ended(1008)),
            (Good(0), Nothing),
            (Good(1), Nothing),
        ],
    );
}

#[test]
fn codes_that_are_retried(rt: HostRuntime) {
    for code in [1009, 112, 111, 104, 32, 2003, 2004] {
        expect(&rt, 1, &[(Fail(0, code), Issue(1))]);
    }
    for code in [1003, 1008, 2001] {
        expect(&rt, 1, &[(Fail(0, code), Ended(code))]);
    }
}
