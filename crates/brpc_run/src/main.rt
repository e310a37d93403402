//! The program `brpc_run`: it passes the words behind its name, standard input and standard output to the top call, and
//! ends with the status that the top call answers.
#![tactic(auto)]

mod adapters;

use crate::adapters::{Reading, Writing};
use brpc_top::run;
use std::process::ExitCode;
use std::{env, io};

/// The status for words that aren't text.
const BAD_WORDS: u8 = 2;

/// The status for want of memory.
const NO_MEMORY: u8 = 9;

fn main(rt: HostRuntime) -> ExitCode {
    let words = match env::args(&rt) {
        Ok(words) => words,
        Err(error) => return ExitCode::from(status_of(error)),
    };
    let Ok(words) = words.skip(1).collect::<Vec<String>>(rt.alloc()) else {
        return ExitCode::from(NO_MEMORY);
    };
    let mut source = Reading::new(rt.reader());
    let mut sink = Writing::new(io::writer(&rt));
    ExitCode::from(run(rt.alloc(), &words, &mut source, &mut sink))
}

/// The status for words that can't be had.
fn status_of(error: io::Error) -> u8 {
    match error.kind() {
        io::ErrorKind::OutOfMemory => NO_MEMORY,
        _ => BAD_WORDS,
    }
}
