//! Journals, and changes of their lines: the rows of rows/lawful.journals, written by tools/journals_to_lemmas.py.

/// One call and its reply.
pub const JOURNAL_1: &str =
    "call 1 4294967297 2 0 0\ne 0 reply 0#0 0 6869 0 0\nwire 0 end\nout 4294967298 6869\n\
     in 4294967298 0 6869 entry 1 0\ntimer\nlane 0\n";

/// The row, the line's number from 0, and what stands in its place.
pub const CHANGES_1: [(usize, usize, &str); 25] = [
    (1, 0, "call 1 4294967297 2 1 0\n"),
    (2, 0, "call 1 4294967297 3 0 0\n"),
    (3, 4, "in 4294967298 0 6869 entry 1 0\nwire 1 end\n"),
    (4, 6, "lane 0\nlane 1\n"),
    (5, 0, "call 1 4294967299 2 0 0\n"),
    (5, 3, "out 4294967300 6869\n"),
    (5, 4, "in 4294967300 0 6869 entry 1 0\n"),
    (6, 0, "call 1 1 2 0 0\n"),
    (6, 3, "out 2 6869\n"),
    (6, 4, "in 2 0 6869 entry 1 0\n"),
    (7, 1, "e 0 reply 0#0 0 6869 0 0\ne 1 reply 0#0 0 6869 0 1\n"),
    (
        7,
        4,
        "in 4294967298 0 6869 entry 1 0\nin 4294967298 0 6869 entry 1 1\n",
    ),
    (8, 1, ""),
    (8, 4, "in 4294967298 0 6869 gone 1075052544\n"),
    (9, 3, "out 4294967298 6868\n"),
    (10, 3, "out 4294967297 6869\n"),
    (11, 3, "out 4294967298 6869\nout 4294967298 6869\n"),
    (12, 3, ""),
    (13, 4, "in 4294967298 0 6868 entry 1 0\n"),
    (14, 4, "in 4294967298 2001 6869 entry 1 0\n"),
    (15, 4, "in 4294967297 0 6869 entry 1 0\n"),
    (16, 4, "in 4294967298 0 6869 entry 1 1\n"),
    (17, 4, "in 4294967298 0 6869 entry 2 0\n"),
    (18, 1, "e 0 reply 0#0 0 6869 0 1\n"),
    (
        19,
        4,
        "in 4294967298 0 6869 entry 1 0\nin 4294967298 0 6869 entry 1 0\n",
    ),
];

/// Three calls on two lanes, two of them in one slot: a backup request that wins, a cancel, a loss and a retry.
pub const JOURNAL_2: &str =
    "call 1 4294967297 3 0 0\ne 50 backup 0 0\ne 60 reply 0#1 0 6869 0 0\ncall 2 8589934593 3 1 5\n\
     e 10 cancel 1 0\ncall 3 4294967300 3 0 70\ne 75 lost 0#0 1009 1 0\ne 80 reply 0#1 2001 - 0 1\nwire 0 end\n\
     out 8589934594 796f\nout 4294967299 6869\nout 4294967302 -\nin 4294967299 0 6869 entry 1 1\n\
     in 4294967302 2001 - entry 3 1\nin 4294967297 0 - stray\nin 12884901889 0 - stray\n\
     in 4294967301 0 - gone 1073741824\nloss 8589934594 1009 5 gone 1075576832\nwire 1 fault\nout 4294967298 6869\n\
     out 4294967301 -\nin 4294967298 0 6869 gone 1075576832\nin 0 0 - stray\nloss 4294967301 1009 1 entry 3 0\n\
     timer\nmark 50 50 4294967297 1007 entry 1 0\nmark 55 56 8589934593 1007 gone 1075576832\n\
     mark 120 121 4294967300 1007 dropped 3\nmark 400 400 4294967297 1008 gone 4296671232\nlane 0\n\
     cancel 4294967297 gone 1075576832\nlane 1\ncancel 8589934593 entry 2 0\n";

/// The row, the line's number from 0, and what stands in its place.
pub const CHANGES_2: [(usize, usize, &str); 46] = [
    (1, 2, "e 60 reply 0#1 0 6869 1 2\n"),
    (1, 7, "e 80 reply 0#1 2001 - 0 0\n"),
    (1, 12, ""),
    (1, 17, "loss 8589934594 1009 4 gone 1075576832\n"),
    (1, 22, "in 0 0 - stray\nin 4294967299 0 6869 entry 1 1\n"),
    (2, 10, ""),
    (2, 20, "out 4294967301 -\nout 4294967299 6869\n"),
    (3, 12, "in 4294967298 0 6869 entry 1 1\n"),
    (4, 25, "mark 50 50 4294967297 1008 entry 1 0\n"),
    (5, 23, "loss 4294967298 1009 1 entry 3 0\n"),
    (6, 28, "mark 400 400 4294967297 1008 gone 1075445760\n"),
    (7, 16, "in 4294967301 0 - gone 1074266112\n"),
    (8, 16, "in 4294967301 0 - gone 1610678272\n"),
    (9, 16, "in 4294967301 0 - gone 1611202560\n"),
    (10, 16, "in 4294967301 0 - gone 1073807360\n"),
    (11, 16, "in 4294967301 0 - gone 1074069504\n"),
    (12, 16, "in 4294967301 0 - gone 1074135040\n"),
    (13, 21, "in 4294967298 0 6869 gone 1075576833\n"),
    (14, 28, "mark 400 400 4294967297 1008 gone 4296736775\n"),
    (15, 28, "mark 400 400 4294967297 1008 gone 4296671239\n"),
    (16, 21, "in 4294967298 0 6869 gone 4611686019502964736\n"),
    (17, 16, "in 4294967301 0 - gone 4294967296\n"),
    (18, 16, "in 4294967301 0 - gone 3221225472\n"),
    (19, 21, "in 4294967298 0 6869 gone 1075052544\n"),
    (20, 16, "in 4294967301 0 - gone 1075576832\n"),
    (21, 28, "mark 400 400 4294967297 1008 gone 1073741824\n"),
    (22, 17, "loss 8589934594 1009 5 gone 4296671232\n"),
    (23, 15, "in 12884901889 0 - gone 1073741824\n"),
    (24, 21, "in 4294967298 0 6869 stray\n"),
    (25, 15, "in 4294967310 0 - stray\n"),
    (26, 27, "mark 120 121 4294967300 1007 dropped 1\n"),
    (27, 27, "mark 121 121 4294967300 1007 dropped 3\n"),
    (28, 27, "mark 120 121 4294967300 1008 dropped 3\n"),
    (29, 27, "mark 120 121 4294967301 1007 dropped 3\n"),
    (
        30,
        27,
        "mark 120 121 4294967300 1007 dropped 3\nmark 120 121 4294967300 1007 dropped 3\n",
    ),
    (31, 27, "mark 120 119 4294967300 1007 dropped 3\n"),
    (32, 17, "loss 8589934594 104 5 gone 1075576832\n"),
    (33, 17, "loss 4294967298 1009 5 gone 1075576832\n"),
    (
        34,
        17,
        "loss 8589934594 1009 5 gone 1075576832\nloss 8589934594 1009 5 gone 1075576832\n",
    ),
    (35, 17, "loss 8589934594 1009 4 gone 1075576832\n"),
    (36, 23, "loss 4294967301 1009 2 entry 3 0\n"),
    (37, 23, "loss 4294967301 1009 3 entry 3 0\n"),
    (38, 30, ""),
    (
        38,
        32,
        "cancel 8589934593 entry 2 0\ncancel 4294967297 gone 1075576832\n",
    ),
    (39, 30, ""),
    (40, 30, "cancel 4294967300 gone 4296802304\n"),
];

/// A parallel call, and one that ends at its start.
pub const JOURNAL_3: &str =
    "call 7 4294967297 5 0 0\ne 3 reply 2#0 0 676f31 0 0\ne 4 reply 1#0 0 676f 0 1\ncall 9 8589934593 3 0 2\n\
     wire 0 end\nout 4294967301 676f31\nout 4294967300 676f\nin 4294967301 0 676f31 entry 7 0\n\
     in 4294967300 0 676f entry 7 1\ntimer\nmark 300 301 4294967297 1008 gone 1076625408\nlane 0\n";

/// The row, the line's number from 0, and what stands in its place.
pub const CHANGES_3: [(usize, usize, &str); 11] = [
    (1, 3, "call 9 4294967302 3 0 2\n"),
    (2, 3, "call 9 4294967303 3 0 2\n"),
    (3, 3, "call 9 4294967301 3 0 2\n"),
    (4, 3, "call 9 4402341478401 3 0 2\n"),
    (5, 3, "call 9 8589934593 3 0 0\n"),
    (6, 3, ""),
    (7, 0, "call 9 8589934593 3 0 2\ncall 7 4294967297 5 0 0\n"),
    (7, 3, ""),
    (8, 10, "mark 300 301 4294967298 1008 gone 1076625408\n"),
    (9, 2, ""),
    (9, 8, "in 4294967300 0 676f gone 1076625408\n"),
];

/// A selective call: its first try is lost, its second one comes too late for the deadline.
pub const JOURNAL_4: &str =
    "call 4 4294967297 5 0 3\ne 5 lost 1#0 1009 0 0\ne 110 deadline 0 0\nwire 0 bad\nout 4294967300 71\n\
     loss 4294967300 1009 0 entry 4 0\nwire 1 end\nout 4294967301 71\nin 4294967301 0 71 gone 1076625408\ntimer\n\
     mark 103 110 4294967297 1008 entry 4 1\nlane 0\n";

/// The row, the line's number from 0, and what stands in its place.
pub const CHANGES_4: [(usize, usize, &str); 5] = [
    (1, 2, "e 110 deadline 1 0\n"),
    (2, 1, "e 5 lost 1#0 1009 1 0\n"),
    (3, 7, "out 4294967300 71\n"),
    (4, 10, "mark 103 110 4294967297 1007 entry 4 1\n"),
    (5, 3, "wire 0 full\n"),
];
