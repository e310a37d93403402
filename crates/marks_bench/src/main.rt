//! Measures marks: the timer wheel of `timer_core` beside an ordered map. With the word `run` it takes some seconds and
//! prints a line for each work; without it, it does nothing.
#![tactic(auto)]

mod timers;
mod works;

use crate::timers::Plain;
use crate::works::{equal, rolling};
use rpc_base::NoMemory;
use std::process::ExitCode;
use std::time::Instant;
use std::{env, io};
use timer_core::Marks;

/// Marks that wait, and how long each does, in milliseconds.
const ROLLING: [(u64, u64); 6] = [
    (1_000, 500),
    (1_000, 100_000),
    (30_000, 500),
    (30_000, 100_000),
    (1_000_000, 500),
    (1_000_000, 100_000),
];

/// Marks of one moment.
const EQUAL: [u64; 3] = [1_000, 30_000, 1_000_000];

fn main(rt: HostRuntime) -> ExitCode {
    match env::args(&rt) {
        Ok(mut words) => match words.nth(1) {
            Some(word) if word.as_str() == "run" => {}
            _ => return ExitCode::SUCCESS,
        },
        Err(_) => return ExitCode::FAILURE,
    }
    match run(rt) {
        Ok(()) => ExitCode::SUCCESS,
        Err(_) => ExitCode::FAILURE,
    }
}

fn run(rt: HostRuntime) -> io::Result<()> {
    for (waiting, deadline) in ROLLING {
        let start = Instant::now(&rt)?;
        let taken = rolling(&mut Marks::open(rt.alloc()), waiting, deadline);
        let wheel = start.elapsed(&rt)?;
        let start = Instant::now(&rt)?;
        let also = rolling(&mut Plain::open(rt.alloc()), waiting, deadline);
        let map = start.elapsed(&rt)?;
        tell(
            rt,
            "rolling",
            waiting,
            deadline,
            (taken, wheel.as_nanos()),
            (also, map.as_nanos()),
        )?;
    }
    for waiting in EQUAL {
        let start = Instant::now(&rt)?;
        let taken = equal(&mut Marks::open(rt.alloc()), waiting);
        let wheel = start.elapsed(&rt)?;
        let start = Instant::now(&rt)?;
        let also = equal(&mut Plain::open(rt.alloc()), waiting);
        let map = start.elapsed(&rt)?;
        tell(
            rt,
            "equal",
            waiting,
            0,
            (taken, wheel.as_nanos()),
            (also, map.as_nanos()),
        )?;
    }
    Ok(())
}

type Measured = (Result<u64, NoMemory>, u128);

/// Nanoseconds for a mark.
fn each(measured: &Measured) -> u128 {
    match measured.0 {
        Ok(taken) if taken > 0 => measured.1 / u128::from(taken),
        _ => 0,
    }
}

fn tell(
    rt: HostRuntime,
    work: &str,
    waiting: u64,
    deadline: u64,
    wheel: Measured,
    map: Measured,
) -> io::Result<()> {
    let (ours, theirs) = (each(&wheel), each(&map));
    println!(rt; "{work} {waiting} waiting, {deadline} ms: wheel {ours} ns, map {theirs} ns")
}
