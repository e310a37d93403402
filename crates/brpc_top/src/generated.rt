//! The commands over the generated script.

ghost use Rattle.std.specs.Prelude.{◌≡◌, ◌≤◌, IfOk};
ghost use Rattle.rpc_model.specs.declared.script.Mode.TheVariants as mode;
ghost use Rattle.rpc_model.specs.Script.{script};
ghost use Rattle.script_gen.specs.Generator.{generated};
ghost use Rattle.rpc_model.specs.Fits.{Fits};
ghost use Rattle.brpc_top.specs.Answers.{IsWritten, IsLoad, IsSummary};

use crate::output::write_all;
use crate::status::Status;
use crate::summary::summary_of;
use call_script::{ScriptFault, read_script};
use rpc_base::{Failed, NoMemory, Sink};
use rpc_model::{Mode, Script};
use script_gen::{generate, generated_scripts_are_accepted};
use sim_run::replay;
use std::alloc::Global;

/// Writes the generated script of so many calls to the sink.
///
/// Statuses: 0, done; 4, the sink failed; 9, memory ran out.
pub fn run_gen<K: Sink>(alloc: Global, count: u32, sink: &mut K) -> u8
    ensures { IsWritten (generated count) (K.held sink.old) (K.held sink.new) (K.faults sink.old) (K.faults sink.new) sink.old sink.new result }
{
    let mut text = Vec::new(alloc);
    if generate(alloc, count, &mut text).is_err() {
        return Status::NoMemory.number();
    }
    match write_all(sink, &text) {
        Ok(()) => Status::Done.number(),
        Err(Failed) => Status::WriteFault.number(),
    }
}

/// Replays the generated script of so many calls, 1 to 100,000, and writes to the sink one line that sums up what its
/// joins tell: `calls N ok A fail B open D full E attempts T`. A, B, D and E are how many lines of each kind the replay
/// tells, and T is the sum of the attempts told. The line is this project's own choice.
///
/// Statuses: 0, done; 4, the sink failed; 9, memory ran out.
pub fn run_load<K: Sink>(alloc: Global, count: u32, sink: &mut K) -> u8
    requires { (1 ≤ count) × (count ≤ 100000) }
    ensures { IsLoad count (K.held sink.old) (K.held sink.new) (K.faults sink.old) (K.faults sink.new) sink.old sink.new result }
{
    let Ok(text) = load_text(alloc, count) else {
        return Status::NoMemory.number();
    };
    match write_all(sink, &text) {
        Ok(()) => Status::Done.number(),
        Err(Failed) => Status::WriteFault.number(),
    }
}

/// The line that sums up what the joins of the generated script of so many calls tell.
fn load_text(alloc: Global, count: u32) -> Result<Vec<u8>, NoMemory>
    requires { (1 ≤ count) × (count ≤ 100000) }
    ensures { IfOk result (λ text. IsSummary count text.items) }
{
    let script = generated_script(alloc, count)?;
    let mut told = Vec::new(alloc);
    replay(alloc, script, &mut told)?;
    summary_of(alloc, count, &told)
}

/// The generated script of so many calls, read as the script grammar reads it. No line of it is bad.
fn generated_script(alloc: Global, count: u32) -> Result<Script, NoMemory>
    requires { (1 ≤ count) × (count ≤ 100000) }
    ensures script { IfOk result (λ s. script mode.Sim (generated count) ≡ Ok s) }
    ensures fits { IfOk result Fits }
{
    generated_scripts_are_accepted();
    let mut text = Vec::new(alloc);
    generate(alloc, count, &mut text)?;
    match read_script(alloc, Mode::Sim, &text) {
        Ok(script) => Ok(script),
        Err(ScriptFault::Bad(..)) => unreachable!(),
        Err(ScriptFault::Memory) => Err(NoMemory),
    }
}
