//! The commands of the program.

ghost use Rattle.std.specs.Prelude.{◌≡◌, None, Some};
ghost use Rattle.std.specs.Option.{option_map};
ghost use Rattle.brpc_top.specs.Words.{judged, count_of, is_started};

use rpc_model::SIM_CALL_LIMIT;

/// The greatest number of calls that a command takes.
const CALL_LIMIT: u32 = SIM_CALL_LIMIT as u32;

/// What the words of the command line ask for.
#[derive(Clone, Copy)]
pub enum Command {
    /// Replay the script of the source.
    Sim,
    /// Write the generated script of so many calls.
    Gen(u32),
    /// Replay that script and write a summary.
    Load(u32),
}

/// The command of this name and this count, if the table has it.
pub(crate) fn judge(word: &str, count: Option<&str>) -> Option<Command>
    ensures { result ≡ judged word.now (option_map (λ n. n.now) count.entry) }
{
    match count {
        None => judge_alone(word),
        Some(count) => judge_counted(word, count),
    }
}

fn judge_alone(word: &str) -> Option<Command>
    ensures { result ≡ judged word.now None }
{
    if word == "sim" {
        Some(Command::Sim)
    } else {
        None
    }
}

fn judge_counted(word: &str, count: &str) -> Option<Command>
    ensures { result ≡ judged word.now (Some count.now) }
{
    if word == "gen" {
        Some(Command::Gen(count_of(count)?))
    } else if word == "load" {
        Some(Command::Load(count_of(count)?))
    } else {
        None
    }
}

/// A number of calls: decimal without a needless zero, 1 to 100,000.
fn count_of(word: &str) -> Option<u32>
    ensures { result ≡ count_of word.now }
{
    if !is_started(word) {
        return None;
    }
    let Ok(count) = word.parse::<u32>() else {
        return None;
    };
    if count <= CALL_LIMIT {
        Some(count)
    } else {
        None
    }
}

/// Whether the word begins with a digit that is no zero.
fn is_started(word: &str) -> bool
    ensures { result ≡ is_started word.now }
{
    match word.as_bytes() {
        [] => false,
        [first, ..] => b'1' <= *first && *first <= b'9',
    }
}
