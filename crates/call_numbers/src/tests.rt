use super::*;

/// Numbers are found where they were added, in whatever order they came.
#[test]
fn numbers_are_found(rt: HostRuntime) {
    for added in [
        &[7, 8, 9, 10][..],
        &[7, 9, 8, 4_294_967_295, 0, 10],
        &[4_294_967_295, 0, 1],
        &[],
    ] {
        let mut numbers = Numbers::new(rt.alloc());
        for number in added {
            if numbers.place_of(*number).is_none() {
                assert_eq!(&rt; numbers.push(*number).is_ok(), true);
            }
        }
        assert_eq!(&rt; numbers.len(), added.len());
        assert_eq!(&rt; numbers.is_empty(), added.is_empty());
        let mut place = 0;
        for number in added {
            assert_eq!(&rt; numbers.place_of(*number), Some(place));
            place += 1;
        }
        assert_eq!(&rt; numbers.place_of(6), None);
    }
}
