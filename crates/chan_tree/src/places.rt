ghost use Rattle.std.specs.Prelude.{◌<◌, ◌≤◌, length, get_or};
ghost use Rattle.chan_tree.specs.Table.{IsRising, IsLastUpTo};

/// The place of the last number that isn't past this one.
pub fn last_up_to(numbers: &[u32], to: u32) -> usize
    requires rising { IsRising numbers.now }
    requires some { 0 < length numbers.now }
    requires first { get_or numbers.now 0 0 ≤ to }
    ensures { IsLastUpTo numbers.now to result }
{
    match numbers.binary_search(&to) {
        Ok(at) => at,
        Err(behind) => behind - 1,
    }
}
