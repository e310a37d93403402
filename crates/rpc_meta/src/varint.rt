ghost use Rattle.std.specs.Prelude.{◌≡◌, ◌<◌, length, IfOk};
ghost use Rattle.rpc_meta.specs.Meta.Wire.{varint};
ghost use Rattle.rpc_meta.specs.Meta.Answer.{Reads};

use crate::fault::MetaFault;

/// The most bytes that a varint has.
const MOST_GROUPS: u32 = 10;

/// Reads the varint at the front, modulo 2^64, in a field whose key stands at `at`, and gives the bytes after it. Most
/// varints have one byte.
#[inline(always)]
#[tactic(auto, using(crate::proofs::Groups::varint_small))]
pub(crate) fn read_varint(at: u32, bytes: &[u8]) -> Result<(u64, &[u8]), MetaFault>
    ensures read { Reads (λ x. (x.0, x.1.now)) result (varint at bytes.now) }
    ensures shorter { IfOk result (λ x. length x.1.now < length bytes.now) }
{
    match bytes.split_first() {
        Some((group, rest)) if *group < 128 => Ok((*group as u64, rest)),
        _ => read_groups(at, bytes),
    }
}

/// The same for any varint: groups of seven bits, lowest first, of which each but the last has its high bit set.
#[inline(never)]
#[tactic(auto, using(crate::proofs::Groups::group_steps))]
fn read_groups(at: u32, bytes: &[u8]) -> Result<(u64, &[u8]), MetaFault>
    ensures read { Reads (λ x. (x.0, x.1.now)) result (varint at bytes.now) }
    ensures shorter { IfOk result (λ x. length x.1.now < length bytes.now) }
{
    let mut most = MOST_GROUPS;
    let mut weight = 1u64;
    let mut number = 0u64;
    let mut rest = bytes;
    'groups: while most > 0 {
        let Some((group, behind)) = rest.split_first() else {
            return Err(MetaFault::Cut(at));
        };
        if *group < 128 {
            return Ok((
                number.wrapping_add(weight.wrapping_mul(*group as u64)),
                behind,
            ));
        }
        number = number.wrapping_add(weight.wrapping_mul((*group - 128) as u64));
        weight = weight.wrapping_mul(128);
        rest = behind;
        most -= 1;
    }
    Err(MetaFault::LongVarint(at))
}
