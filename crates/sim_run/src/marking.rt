//! The marks that a call sets, among those of all calls.

ghost use Rattle.std.specs.Prelude.{◌≡◌, ◌^◌, ◌<◌, OnOk};
ghost use Rattle.sim_run.specs.Marked.{timed, marked};
ghost use Rattle.timer_core.specs.Marks.{added};

use crate::timer::Timer;
use rpc_base::NoMemory;
use rpc_model::{EBACKUPREQUEST, ERPCTIMEDOUT, MarkAt};
use timer_core::Mark;

/// Sets the marks of a call with this first id, one after the other, each under the id of its node.
pub(crate) fn set_marks(marks: &mut Timer, first: u64, set: &[MarkAt]) -> Result<(), NoMemory>
    requires { first < 2 ^ 63 }
    ensures { OnOk result (marks.new ≡ marked first set.now marks.old) }
{
    for mark in set {
        add(marks, first, mark)?;
    }
    Ok(())
}

/// Adds a mark of a call with this first id.
fn add(marks: &mut Timer, first: u64, mark: &MarkAt) -> Result<(), NoMemory>
    requires { first < 2 ^ 63 }
    ensures { OnOk result (marks.new ≡ added (timed first mark.now) marks.old) }
{
    marks.add(timed(first, *mark))?;
    Ok(())
}

/// A mark of a call with this first id: at one moment a node's deadline comes before its backup request.
fn timed(first: u64, mark: MarkAt) -> Mark
    requires { first < 2 ^ 63 }
    ensures { result ≡ timed first mark }
{
    let rank = 2 * u64::from(mark.node) + u64::from(mark.backup);
    Mark {
        moment: mark.moment,
        rank: rank.min(u64::from(u32::MAX)) as u32,
        id: first + u64::from(mark.node),
        code: if mark.backup {
            EBACKUPREQUEST
        } else {
            ERPCTIMEDOUT
        },
    }
}
