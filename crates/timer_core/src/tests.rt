use super::*;
use rpc_base::NoMemory;
use std::alloc::Global;
use std::collections::BTreeMap;
use std::process::Abort;
use std::test::Fail;

/// One call of the marks.
#[derive(Clone, Copy, Debug)]
enum Call {
    Add(Mark),
    Due(u64),
    NextMoment,
    Len,
    IsEmpty,
}

/// What a call answers.
#[derive(Debug, PartialEq, Eq, Drop)]
enum Answer {
    Added(Result<(), NoMemory>),
    Taken(Option<Mark>),
    Moment(Option<u64>),
    Count(usize),
    Empty(bool),
}

fn apply(marks: &mut Marks, call: Call) -> Answer {
    match call {
        Call::Add(mark) => Answer::Added(marks.add(mark)),
        Call::Due(now) => Answer::Taken(marks.due(now)),
        Call::NextMoment => Answer::Moment(marks.next_moment()),
        Call::Len => Answer::Count(marks.len()),
        Call::IsEmpty => Answer::Empty(marks.is_empty()),
    }
}

fn run(rt: &impl Abort, marks: &mut Marks, rows: &[(Call, Answer)]) {
    for (call, wanted) in rows {
        assert_eq!(rt; &apply(marks, *call), wanted, "{call:?}");
    }
}

fn deadline(moment: u64, rank: u32, id: u64) -> Mark {
    Mark {
        moment,
        rank,
        id,
        code: 1008,
    }
}

fn backup(moment: u64, rank: u32, id: u64) -> Mark {
    Mark {
        moment,
        rank,
        id,
        code: 1007,
    }
}

#[test]
fn by_moment_then_by_rank(rt: HostRuntime) -> Result<(), Fail> {
    let mut marks = Marks::open(rt.alloc());
    let (first, second, third) = (deadline(500, 0, 7), backup(100, 1, 7), deadline(500, 2, 8));
    let rows = [
        (Call::NextMoment, Answer::Moment(None)),
        (Call::Due(u64::MAX), Answer::Taken(None)),
        (Call::IsEmpty, Answer::Empty(true)),
        (Call::Add(first), Answer::Added(Ok(()))),
        (Call::NextMoment, Answer::Moment(Some(500))),
        (Call::Add(second), Answer::Added(Ok(()))),
        (Call::Add(third), Answer::Added(Ok(()))),
        (Call::NextMoment, Answer::Moment(Some(100))),
        (Call::Due(99), Answer::Taken(None)),
        (Call::Len, Answer::Count(3)),
        (Call::IsEmpty, Answer::Empty(false)),
        (Call::Due(500), Answer::Taken(Some(second))),
        (Call::NextMoment, Answer::Moment(Some(500))),
        (Call::Len, Answer::Count(2)),
        (Call::Due(499), Answer::Taken(None)),
        (Call::Len, Answer::Count(2)),
        (Call::Due(500), Answer::Taken(Some(first))),
        (Call::NextMoment, Answer::Moment(Some(500))),
        (Call::Due(500), Answer::Taken(Some(third))),
        (Call::NextMoment, Answer::Moment(None)),
        (Call::Due(500), Answer::Taken(None)),
        (Call::Len, Answer::Count(0)),
        (Call::IsEmpty, Answer::Empty(true)),
    ];
    run(&rt, &mut marks, &rows);
    Ok(())
}

#[test]
fn equal_marks_in_the_order_of_adding(rt: HostRuntime) -> Result<(), Fail> {
    let mut marks = Marks::open(rt.alloc());
    let rows = [
        (Call::Add(deadline(9, 4, 30)), Answer::Added(Ok(()))),
        (Call::Add(deadline(9, 4, 10)), Answer::Added(Ok(()))),
        (Call::Add(backup(9, 3, 50)), Answer::Added(Ok(()))),
        (Call::Add(deadline(9, 4, 20)), Answer::Added(Ok(()))),
        (Call::Due(9), Answer::Taken(Some(backup(9, 3, 50)))),
        (Call::Due(9), Answer::Taken(Some(deadline(9, 4, 30)))),
        (Call::Add(deadline(9, 4, 5)), Answer::Added(Ok(()))),
        (Call::Add(deadline(9, 4, 10)), Answer::Added(Ok(()))),
        (Call::Len, Answer::Count(4)),
        (Call::Due(10), Answer::Taken(Some(deadline(9, 4, 10)))),
        (Call::Due(10), Answer::Taken(Some(deadline(9, 4, 20)))),
        (Call::Due(10), Answer::Taken(Some(deadline(9, 4, 5)))),
        (Call::Due(10), Answer::Taken(Some(deadline(9, 4, 10)))),
        (Call::Due(10), Answer::Taken(None)),
    ];
    run(&rt, &mut marks, &rows);
    Ok(())
}

#[test]
fn the_ends_of_each_number(rt: HostRuntime) -> Result<(), Fail> {
    let mut marks = Marks::open(rt.alloc());
    let (earliest, latest) = (deadline(0, u32::MAX, u64::MAX), backup(u64::MAX, 0, 0));
    let rows = [
        (Call::Add(latest), Answer::Added(Ok(()))),
        (Call::Add(earliest), Answer::Added(Ok(()))),
        (Call::NextMoment, Answer::Moment(Some(0))),
        (Call::Due(0), Answer::Taken(Some(earliest))),
        (Call::Due(u64::MAX - 1), Answer::Taken(None)),
        (Call::NextMoment, Answer::Moment(Some(u64::MAX))),
        (Call::Due(u64::MAX), Answer::Taken(Some(latest))),
        (Call::NextMoment, Answer::Moment(None)),
    ];
    run(&rt, &mut marks, &rows);
    Ok(())
}

const MANY: u64 = 10_000;

#[test]
fn ten_thousand_in_falling_order(rt: HostRuntime) -> Result<(), Fail> {
    let mut marks = Marks::open(rt.alloc());
    for i in 0..MANY {
        let moment = MANY - 1 - i;
        marks.add(deadline(moment, 0, i))?;
        assert_eq!(rt; marks.next_moment(), Some(moment));
    }
    assert_eq!(rt; marks.len(), 10_000);
    for moment in 0..MANY {
        assert_eq!(rt;
            marks.due(moment),
            Some(deadline(moment, 0, MANY - 1 - moment))
        );
        assert_eq!(rt; marks.due(moment), None);
    }
    assert_eq!(rt; marks.is_empty(), true);
    Ok(())
}

#[test]
fn ten_thousand_in_rising_order(rt: HostRuntime) -> Result<(), Fail> {
    let mut marks = Marks::open(rt.alloc());
    for moment in 0..MANY {
        marks.add(backup(moment, 1, moment))?;
        assert_eq!(rt; marks.next_moment(), Some(0));
    }
    for moment in 0..MANY {
        assert_eq!(rt; marks.due(u64::MAX), Some(backup(moment, 1, moment)));
    }
    assert_eq!(rt; marks.due(u64::MAX), None);
    Ok(())
}

/// The same marks in an ordered map, as a plain program keeps them.
#[derive(Drop)]
struct Plain {
    waiting: BTreeMap<(u64, u32, u64), Mark>,
    order: u64,
}

impl Plain {
    fn open(alloc: Global) -> Plain {
        Plain {
            waiting: BTreeMap::new(alloc),
            order: 0,
        }
    }

    fn add(&mut self, mark: Mark) -> Result<(), NoMemory> {
        self.waiting
            .insert((mark.moment, mark.rank, self.order), mark)?;
        self.order = self.order.wrapping_add(1);
        Ok(())
    }

    fn next_moment(&self) -> Option<u64> {
        let (_, mark) = self.waiting.first_key_value()?;
        Some(mark.moment)
    }

    fn due(&mut self, now: u64) -> Option<Mark> {
        if self.next_moment()? > now {
            return None;
        }
        let (_, mark) = self.waiting.pop_first()?;
        Some(mark)
    }
}

/// Distances that meet each byte's boundary.
const STEPS: [u64; 24] = [
    0,
    1,
    2,
    7,
    255,
    256,
    257,
    500,
    65_535,
    65_536,
    65_537,
    100_000,
    0xff_ffff,
    0x100_0000,
    0x100_0001,
    0xffff_ffff,
    0x1_0000_0000,
    0x1_0000_0001,
    0xff_ffff_ffff,
    0x100_0000_0000,
    0xffff_ffff_ffff,
    0x1_0000_0000_0000,
    0x100_0000_0000_0000,
    u64::MAX,
];

/// The next number of a plain generator.
fn next_number(seed: u64) -> u64 {
    seed.wrapping_mul(6_364_136_223_846_793_005)
        .wrapping_add(1_442_695_040_888_963_407)
}

fn step(number: u64) -> u64 {
    STEPS[(number >> 33) as usize % 24]
}

/// One operation on both: two of three add a mark at or after the moment reached, or before it, and the others take.
fn run_both(
    rt: &impl Abort,
    marks: &mut Marks,
    plain: &mut Plain,
    number: u64,
    reached: u64,
) -> Result<u64, Fail> {
    let distance = step(next_number(number));
    if number >> 60 < 11 {
        let mark = Mark {
            moment: if number >> 60 == 0 {
                reached.saturating_sub(distance)
            } else {
                reached.saturating_add(distance)
            },
            rank: (number >> 40) as u32 % 4,
            id: number,
            code: 1008,
        };
        marks.add(mark)?;
        plain.add(mark)?;
        assert_eq!(rt; marks.next_moment(), plain.next_moment());
        return Ok(reached);
    }
    // Now and then before the moment reached, or far behind it, so that the base jumps past 2^32.
    let now = match number >> 60 {
        11 => reached.saturating_sub(distance),
        12 => reached.saturating_add(distance.min(0x1_0000_0001)),
        _ => reached.saturating_add(distance.min(65_537)),
    };
    for _ in 0..8 {
        assert_eq!(rt; marks.due(now), plain.due(now));
        assert_eq!(rt; marks.next_moment(), plain.next_moment());
    }
    assert_eq!(rt; marks.len(), plain.waiting.len());
    Ok(reached.max(now))
}

#[test]
fn the_same_as_an_ordered_map(rt: HostRuntime) -> Result<(), Fail> {
    let mut marks = Marks::open(rt.alloc());
    let mut plain = Plain::open(rt.alloc());
    let (mut number, mut reached) = (1, 0);
    for _ in 0..10_000 {
        number = next_number(number);
        reached = run_both(&rt, &mut marks, &mut plain, number, reached)?;
    }
    for _ in 0..10_000 {
        assert_eq!(rt; marks.due(u64::MAX), plain.due(u64::MAX));
    }
    assert_eq!(rt; marks.len(), 0);
    Ok(())
}

#[test]
fn far_moments(rt: HostRuntime) -> Result<(), Fail> {
    let mut marks = Marks::open(rt.alloc());
    let (a, b, c, d, e) = (
        deadline(1, 0, 1),
        deadline(300, 0, 2),
        deadline(70_000, 0, 3),
        deadline(5_000_000_000, 0, 4),
        deadline(5, 0, 5),
    );
    let rows = [
        (Call::Add(a), Answer::Added(Ok(()))),
        (Call::Add(b), Answer::Added(Ok(()))),
        (Call::Add(c), Answer::Added(Ok(()))),
        (Call::Add(d), Answer::Added(Ok(()))),
        (Call::Due(0), Answer::Taken(None)),
        (Call::NextMoment, Answer::Moment(Some(1))),
        (Call::Due(299), Answer::Taken(Some(a))),
        (Call::Due(299), Answer::Taken(None)),
        (Call::Due(70_000), Answer::Taken(Some(b))),
        (Call::Due(70_000), Answer::Taken(Some(c))),
        (Call::Due(70_000), Answer::Taken(None)),
        (Call::Add(e), Answer::Added(Ok(()))),
        (Call::Due(70_000), Answer::Taken(Some(e))),
        (Call::NextMoment, Answer::Moment(Some(5_000_000_000))),
        (Call::Len, Answer::Count(1)),
    ];
    run(&rt, &mut marks, &rows);
    Ok(())
}
