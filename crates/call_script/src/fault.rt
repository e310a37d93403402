ghost use Rattle.std.specs.Prelude.{◌≡◌};
ghost use Rattle.call_script.specs.declared.fault.LineFault.TheVariants as line_fault;
ghost use Rattle.call_script.specs.declared.fault.ScriptFault.TheVariants as script_fault;

use rpc_model::Cause;
use std::alloc::{AllocError, AllocFailed};

/// Why a script was not read.
#[derive(Debug, Drop)]
pub enum ScriptFault {
    /// The first bad line, counted from 1, and its cause; line 0 for a script that is too long.
    Bad(u32, Cause),
    /// Memory ran out.
    Memory,
}

impl From<AllocError> for ScriptFault {
    ghost from_gives = { λ _ e. e ≡ script_fault.Memory };

    fn from(_error: AllocError) -> ScriptFault {
        ScriptFault::Memory
    }
}

/// Why a line was not taken.
#[derive(Debug, Drop)]
pub(crate) enum LineFault {
    /// The grammar refuses it for this cause.
    Refused(Cause),
    /// Memory ran out.
    Memory,
}

impl From<Cause> for LineFault {
    ghost from_gives = { λ cause e. e ≡ line_fault.Refused cause };

    fn from(cause: Cause) -> LineFault {
        LineFault::Refused(cause)
    }
}

impl From<AllocError> for LineFault {
    ghost from_gives = { λ _ e. e ≡ line_fault.Memory };

    fn from(_error: AllocError) -> LineFault {
        LineFault::Memory
    }
}

impl<T: Drop> From<AllocFailed<T>> for LineFault {
    ghost from_gives = { λ _ e. e ≡ line_fault.Memory };

    fn from(_error: AllocFailed<T>) -> LineFault {
        LineFault::Memory
    }
}
