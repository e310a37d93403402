ghost use Rattle.std.specs.Prelude.{◌≡◌, ◌<◌};
ghost use Rattle.timer_core.specs.Homes.{home_of};

/// How many bytes a moment has. Each has 256 lists.
const LEVELS: usize = 8;

/// How many lists there are: list 0, which is of no moment, and those of all levels.
pub const LISTS: usize = 2049;

/// The list of a moment that is later than the base: by the highest byte in which the two differ, and by this byte of
/// the moment. So all marks of a list are earlier than those of the lists behind it.
pub fn home(base: u64, moment: u64) -> usize
    requires { base < moment }
    ensures of { result ≡ home_of base moment }
    ensures some { 0 < result }
    ensures in_lists { result < 2049 }
{
    let mut list = 1;
    let (mut left, mut reached) = (moment, base);
    for _level in 0..LEVELS {
        if left / 256 == reached / 256 {
            return list + (left % 256) as usize;
        }
        left /= 256;
        reached /= 256;
        list += 256;
    }
    list
}
