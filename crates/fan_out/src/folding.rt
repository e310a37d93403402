ghost use Rattle.std.specs.Prelude.{◌≡◌, ◌<◌, IfOk};
ghost use Rattle.rpc_model.specs.Parallel as spec;

use rpc_base::{Bytes, NoMemory};
use rpc_model::{ERESPONSE, ETOOMANYFAILS, End, Merger, Part, Verdict};
use std::alloc::Global;

/// Merges the parts of the subs that succeeded, which stand by rising index, where `fails` subs failed already and
/// `limit` failures end the call.
///
/// A merger's Fail counts as one failure more, and where the failures reach the limit the call ends with `ETOOMANYFAILS`
/// at once; a FailAll ends it with `ERESPONSE` at once. Else it ends with the value, which is empty where nothing was
/// merged. That there is a merger which may fail the call is brpc's; the limit and the codes are this project's own
/// choice.
pub fn fold_parts<G: Merger>(
    alloc: Global,
    parts: &[Part<G>],
    fails: u32,
    limit: u32,
) -> Result<End, NoMemory>
    requires open { fails < limit }
    ensures end { IfOk result (λ end. end ≡ spec.fold_parts G.answer parts.now fails limit) }
{
    let mut so_far = None;
    let mut failed = fails;
    for part in parts {
        let verdict = part
            .merge
            .merge_into(alloc, &mut so_far, part.index, part.text.list())?;
        match verdict {
            Verdict::Taken => {}
            Verdict::Fail => {
                failed += 1;
                if failed == limit {
                    return Ok(End::Bad(ETOOMANYFAILS));
                }
            }
            Verdict::FailAll => return Ok(End::Bad(ERESPONSE)),
        }
    }
    match so_far {
        None => Ok(End::Good(Bytes::of(Vec::new(alloc)))),
        Some(value) => Ok(End::Good(value)),
    }
}
