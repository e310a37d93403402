//! The words of the command line, read by `clap`.

ghost use Rattle.std.specs.Prelude.{◌≡◌, map, true, is_some, IfOk, IfErr, string_bytes};
ghost use Rattle.brpc_top.specs.Words.{command_of, pair_of, is_dashed};
ghost use Rattle.brpc_top.specs.Program.{program};
ghost use Rattle.clap.specs.Words.{HasMatchesOf, kind_of};

use crate::command::{Command, judge};
use clap::error::ErrorKind;
use clap::{Arg, ArgMatches, Error};
use rpc_base::NoMemory;
use std::alloc::Global;

/// The command that the words name, if they name one.
///
/// A list of more than two words, and one in which a word begins with `-`, names none. Any other is read by `clap` as a
/// command and a count, which the table of commands judges.
pub(crate) fn read_words(alloc: Global, words: &[String]) -> Result<Option<Command>, NoMemory>
    ensures { IfOk result (λ command. command ≡ command_of (map (λ w. string_bytes w) words.now)) }
{
    if !has_form(words) {
        return Ok(None);
    }
    let Ok(matches) = parsed(alloc, words) else {
        return Err(NoMemory);
    };
    let Some(command) = matches.get_str("command") else {
        return Ok(None);
    };
    Ok(judge(command, matches.get_str("count")))
}

/// Whether there are one or two words, none with a hyphen in front.
fn has_form(words: &[String]) -> bool
    ensures { result ≡ is_some (pair_of (map (λ w. string_bytes w) words.now)) }
{
    match words {
        [a] => !is_dashed(a),
        [a, b] => !is_dashed(a) && !is_dashed(b),
        _ => false,
    }
}

/// Whether the word begins with a hyphen.
fn is_dashed(word: &String) -> bool
    ensures { result ≡ is_dashed (string_bytes word.now) }
{
    match word.as_bytes() {
        [] => false,
        [first, ..] => *first == b'-',
    }
}

/// The matches of one or two words of which none begins with a hyphen.
fn parsed<'a>(alloc: Global, words: &'a [String]) -> Result<ArgMatches<'a>, Error>
    requires { is_some (pair_of (map (λ w. string_bytes w) words.now)) ≡ true }
    ensures command { IfOk result (λ m. HasMatchesOf program (map (λ w. string_bytes w) words.entry.now) m) }
    ensures memory { IfErr result (λ e. kind_of e ≡ ErrorKind.OutOfMemory) }
{
    let command = Arg::new(alloc, "command").required(true);
    let count = Arg::new(alloc, "count");
    let program = clap::Command::new(alloc, "brpc_run")
        .no_binary_name(true)
        .arg(command)?
        .arg(count)?;
    program.try_get_matches_from(words)
}
