ghost use Rattle.std.specs.Prelude.{◌≡◌, map, string_bytes, IfOk};
ghost use Rattle.rpc_model.specs.declared.script.Mode.TheVariants as mode;
ghost use Rattle.rpc_model.specs.Script.{script};
ghost use Rattle.rpc_model.specs.Fits.{Fits};
ghost use Rattle.rpc_model.specs.Text.{told_text};
ghost use Rattle.rpc_model.specs.Told.{told};
ghost use Rattle.script_gen.specs.Generator.{generated};
ghost use Rattle.brpc_top.specs.Answers.{IsReplay, IsDecided, IsRun, IsWritten, IsLoad, output, status_of, number_of};
ghost use Rattle.brpc_top.specs.Words.{command_of};

use crate::command::Command;
use crate::generated::{run_gen, run_load};
use crate::input::{ReadStop, read_script_bytes};
use crate::output::write_all;
use crate::status::Status;
use crate::words::read_words;
use call_script::{ScriptFault, read_script, write_refusal, write_told};
use rpc_base::{Failed, NoMemory, Sink, Source};
use rpc_model::{Mode, Script};
use sim_run::Replaying;
use std::alloc::Global;

/// Runs the command that the words name and answers the status that the program ends with.
///
/// The lists `sim`, `gen N` and `load N` are accepted, with N decimal, without a needless zero, from 1 to 100,000: `sim`
/// replays the script of the source, and what the joins tell goes to the sink; `gen N` writes the generated script of N
/// calls; `load N` replays that script and writes one line that sums up what the joins tell. These are this project's own
/// choice. The statuses are 2, the words aren't accepted, 9, memory ran out, and those of the commands.
pub fn run<S: Source, K: Sink>(alloc: Global, words: &[String], source: &mut S, sink: &mut K) -> u8
    ensures { IsRun (command_of (map (λ w. string_bytes w) words.now)) source.old source.new sink.old sink.new
        (IsReplay (S.left source.old) (S.left source.new) (S.faults source.old) (S.faults source.new) (K.held sink.old) (K.held sink.new) (K.faults sink.old) (K.faults sink.new) sink.old sink.new)
        (IsDecided (S.left source.old))
        (λ count. IsWritten (generated count) (K.held sink.old) (K.held sink.new) (K.faults sink.old) (K.faults sink.new) sink.old sink.new)
        (λ count. IsLoad count (K.held sink.old) (K.held sink.new) (K.faults sink.old) (K.faults sink.new) sink.old sink.new) result }
{
    let Ok(command) = read_words(alloc, words) else {
        return Status::NoMemory.number();
    };
    match command {
        None => Status::BadWords.number(),
        Some(Command::Sim) => run_sim(alloc, source, sink),
        Some(Command::Gen(count)) => run_gen(alloc, count, sink),
        Some(Command::Load(count)) => run_load(alloc, count, sink),
    }
}

/// Replays the script of the source; what the joins tell goes to the sink.
///
/// Statuses: 0, done; 3, the source failed; 4, the sink failed; 5, the script has a bad line, which is named; 9, memory
/// ran out.
pub fn run_sim<S: Source, K: Sink>(alloc: Global, source: &mut S, sink: &mut K) -> u8
    ensures replay { IsReplay (S.left source.old) (S.left source.new) (S.faults source.old) (S.faults source.new)
        (K.held sink.old) (K.held sink.new) (K.faults sink.old) (K.faults sink.new) sink.old sink.new result }
    ensures decided { IsDecided (S.left source.old) result }
{
    replay_source(alloc, source, sink).number()
}

/// Reads the script, replays it and writes what its joins tell, or its refusal.
fn replay_source<S: Source, K: Sink>(alloc: Global, source: &mut S, sink: &mut K) -> Status
    ensures { IsReplay (S.left source.old) (S.left source.new) (S.faults source.old) (S.faults source.new)
        (K.held sink.old) (K.held sink.new) (K.faults sink.old) (K.faults sink.new) sink.old sink.new (number_of result) }
{
    let bytes = match read_script_bytes(alloc, source) {
        Ok(bytes) => bytes,
        Err(ReadStop::Fault) => return Status::ReadFault,
        Err(ReadStop::Memory) => return Status::NoMemory,
    };
    let Ok(output) = output_of(alloc, bytes) else {
        return Status::NoMemory;
    };
    match write_all(sink, &output.text) {
        Ok(()) => output.status,
        Err(Failed) => Status::WriteFault,
    }
}

/// What is written of a script, and the status then.
#[derive(Drop)]
struct Output {
    text: Vec<u8>,
    status: Status,
}

/// Gives memory back. It is made small first: the C library's `malloc` takes a large piece that is freed for a sign that
/// pieces of its size come and go, and puts later ones, up to that size, where they are copied as they grow.
fn give_back(mut bytes: Vec<u8>) {
    bytes.clear();
    bytes.shrink_to(1);
}

/// The bytes are given back before the replay begins, so that it holds nothing twice.
fn output_of(alloc: Global, bytes: Vec<u8>) -> Result<Output, NoMemory>
    ensures text { IfOk result (λ o. o.text.items ≡ output (script mode.Sim bytes.items)) }
    ensures status { IfOk result (λ o. number_of o.status ≡ status_of (script mode.Sim bytes.items)) }
{
    match read_script(alloc, Mode::Sim, &bytes) {
        Ok(script) => {
            give_back(bytes);
            Ok(Output {
                text: told_text_of(alloc, script)?,
                status: Status::Done,
            })
        }
        Err(ScriptFault::Bad(line, cause)) => {
            let mut text = Vec::new(alloc);
            write_refusal(alloc, line, cause, &mut text)?;
            Ok(Output {
                text,
                status: Status::Refused,
            })
        }
        Err(ScriptFault::Memory) => Err(NoMemory),
    }
}

/// What the joins of an accepted script tell, as text. Each line is written as soon as it is told, so that no list of them is
/// held.
#[tactic(auto, unfolding(rpc_model::specs::Text::told_text))]
fn told_text_of(alloc: Global, script: Script) -> Result<Vec<u8>, NoMemory>
    requires { Fits script }
    ensures { IfOk result (λ text. text.items ≡ told_text (told script)) }
{
    let mut replaying = Replaying::begin(alloc, script)?;
    let mut text = Vec::new(alloc);
    'told: while let Some(line) = replaying.next_told()? {
        write_told(&line, &mut text)?;
    }
    Ok(text)
}
