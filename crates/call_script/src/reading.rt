ghost use Rattle.std.specs.Prelude.{◌≡◌, ◌==◌, ◌≤◌, length, IfOk};
ghost use Rattle.std.specs.List.{slice_split};
ghost use Rattle.rpc_model.specs.Script.{script, lines_say};
ghost use Rattle.rpc_model.specs.Before.{nothing};
ghost use Rattle.rpc_model.specs.Fits.{Fits};
ghost use Rattle.call_script.specs.Judged.{Reads, SaysLines, line_fault_at};

use crate::cut::{FEW, Few, few_words, line_length};
use crate::fault::{LineFault, ScriptFault};
use crate::reader::Reader;
use rpc_model::{Cause, Mode, SCRIPT_LIMIT, Script};
use std::alloc::Global;

/// The typed lines of a script, or its first bad line and the cause.
///
/// `Bad` comes exactly where the script grammar names a bad line, with its cause: line 0 for a script of more than
/// `SCRIPT_LIMIT` bytes, else the first line, counted from 1, that isn't accepted.
#[tactic(auto, unfolding(rpc_model::specs::Script::script))]
pub fn read_script(alloc: Global, mode: Mode, bytes: &[u8]) -> Result<Script, ScriptFault>
    ensures script { Reads result (script mode bytes.now) }
    ensures fits { IfOk result Fits }
{
    if bytes.len() > SCRIPT_LIMIT {
        return Err(ScriptFault::Bad(0, Cause::TooLong));
    }
    let reader = read_lines(alloc, mode, bytes)?;
    Ok(reader.into_script())
}

/// What all the lines say.
fn read_lines(alloc: Global, mode: Mode, bytes: &[u8]) -> Result<Reader, ScriptFault>
    requires { length bytes.now ≤ 16777216 }
    ensures { SaysLines result (lines_say 1 (nothing mode) (slice_split (λ b. b == 10) bytes.now)) }
{
    let mut reader = Reader::new(alloc, mode);
    let mut few: Few<'_> = [bytes; FEW];
    let mut number = 1u32;
    let mut rest = bytes;
    'lines: loop {
        let found = few_words(rest, &mut few);
        let (line, behind) = rest.split_at(line_length(rest, found));
        if let Err(fault) = reader.line_says(line, found, &few) {
            return Err(fault_at(number, fault));
        }
        let Some((_, lines)) = behind.split_first() else {
            return Ok(reader);
        };
        rest = lines;
        number += 1;
    }
}

/// The fault of a script whose line of this number has this fault.
fn fault_at(number: u32, fault: LineFault) -> ScriptFault
    ensures { result ≡ line_fault_at number fault }
{
    match fault {
        LineFault::Refused(cause) => ScriptFault::Bad(number, cause),
        LineFault::Memory => ScriptFault::Memory,
    }
}
