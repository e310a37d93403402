//! A slot whose versions come to their end.
ghost use Rattle.id_shared.specs.Standing.{IsAtRest};

use crate::tests::{Tally, Told, destroys, next, tells_lock};
use crate::{CollectEnd, Ids, Pass, Reserve};
use id_pool::make_id;
use id_rule::{State, unpack};
use std::process::Abort;
use std::test::Fail;

// The whole life of a range of 1,024 ids. Answers its first id, or nothing where no slot is vacant.
fn lives(rt: &impl Abort, ids: &Ids<Tally>, pass: &mut Pass<Tally>) -> Option<u64>
    requires own { IsAtRest ids.now pass.old }
    ensures own { IsAtRest ids.now pass.new }
{
    match ids.reserve(pass, 1024) {
        Reserve::Spot(spot) => {
            let first = spot.first_id();
            let (owner, hold, tally) = ids.install(pass, spot, Tally { first, count: 0 });
            destroys(ids, pass, hold, tally);
            match ids.collect(pass, owner) {
                CollectEnd::Value(tally) => Some(tally.first),
                _ => panic!(rt; "the range has ended"),
            }
        }
        Reserve::Full => None,
        _ => panic!(rt; "nobody else reserves"),
    }
}

// Range after range, until none can be reserved. Answers how many there were, and the first id of the last one.
fn wears_out(rt: &impl Abort, ids: &Ids<Tally>, pass: &mut Pass<Tally>) -> (u32, u64)
    requires own { IsAtRest ids.now pass.old }
    ensures own { IsAtRest ids.now pass.new }
{
    let mut last = 0;
    for count in 0..u32::MAX {
        match lives(rt, ids, pass) {
            Some(first) => last = first,
            None => return (count, last),
        }
    }
    (u32::MAX, last)
}

#[test]
fn a_slot_at_the_end_of_its_versions_is_retired(rt: HostRuntime) -> Result<(), Fail> {
    let Ok((ids, mut passes)) = Ids::<Tally>::open(rt.alloc(), 1, 1, 1) else {
        panic!(rt; "no memory")
    };
    let Some(mut pass) = next(&ids, &mut passes) else {
        panic!(rt; "no pass")
    };
    // The first versions are 1, 1025 and so on; the last of them that is at most 2^32 - 1,024 is 4294965249.
    let last = make_id(0, 4294965249);
    assert_eq!(rt; wears_out(&rt, &ids, &mut pass), (4_194_303, last));
    let Some(word) = pass.seen().first().copied() else {
        panic!(rt; "one slot was looked at")
    };
    let parts = unpack(word);
    assert_eq!(rt;
        (parts.first, parts.range, parts.state),
        (4294965249, 0, State::Retired)
    );
    assert_eq!(rt; tells_lock(&ids, &mut pass, last), Told::Gone(word));
    Ok(())
}
