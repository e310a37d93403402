//! Measures ids that threads share (`id_shared`) beside raw atomics, on one, two and four threads. With the word `run` it
//! takes some seconds and prints a line for each work; without it, it does nothing.
#![tactic(auto)]

mod book;
mod raw;
mod threads;
mod works;

use crate::threads::{Work, run_on};
use std::process::ExitCode;
use std::sync::Wait;
use std::thread::Threads;
use std::time::Instant;
use std::{env, io};

/// How often a work is done, by all threads together.
const TIMES: u32 = 1_000_000;

fn main(rt: HostRuntime) -> ExitCode {
    match env::args(&rt) {
        Ok(mut words) => match words.nth(1) {
            Some(word) if word.as_str() == "run" => {}
            _ => return ExitCode::SUCCESS,
        },
        Err(_) => return ExitCode::FAILURE,
    }
    match run(&rt, rt) {
        Ok(()) => ExitCode::SUCCESS,
        Err(_) => ExitCode::FAILURE,
    }
}

fn run<R: Threads + Wait + Sync>(threads: &R, rt: HostRuntime) -> io::Result<()> {
    let works = [
        ("life", Work::Life),
        ("raw_life", Work::RawLife),
        ("quiet_life", Work::QuietLife),
        ("raw_quiet_life", Work::RawQuietLife),
        ("crowd", Work::Crowd),
    ];
    for (name, work) in works {
        for count in [1, 2, 4] {
            let mut best = u128::MAX;
            for _ in 0..3 {
                let start = Instant::now(&rt)?;
                run_on(threads, rt.alloc(), work, count, TIMES / count);
                best = best.min(start.elapsed(&rt)?.as_nanos());
            }
            let each = best / u128::from(TIMES);
            println!(rt; "{name}.{count} {TIMES} {each} ns each")?;
        }
    }
    Ok(())
}
