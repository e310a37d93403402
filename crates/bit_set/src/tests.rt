use super::*;
use std::test::Fail;

#[test]
fn each_number_and_the_least(rt: HostRuntime) -> Result<(), Fail> {
    let mut set = BitSet::new();
    assert_eq!(rt; set.first(), None);
    for number in [4_095, 64, 700, 63, 0, 4_032] {
        set.insert(number);
    }
    for number in [0, 63, 64, 700, 4_032, 4_095] {
        assert_eq!(rt; set.first(), Some(number));
        set.remove(number);
    }
    assert_eq!(rt; set.first(), None);
    Ok(())
}
