//! Measures calls of many nodes. With the word `run` it times calls whose subs answer in rising, falling and mixed order.
//! Without a word it does nothing.
#![tactic(auto)]

mod subs;

use crate::subs::{Order, answered, plan_of, turn};
use std::process::ExitCode;
use std::time::Instant;
use std::{env, io};

/// How many subs a call has, the most that a plan's width allows at the end.
const SUBS: [u32; 4] = [64, 128, 256, 511];

/// How often each call is made.
const TIMES: u32 = 200;

fn main(rt: HostRuntime) -> ExitCode {
    let Ok(mut words) = env::args(&rt) else {
        return ExitCode::FAILURE;
    };
    let Some(word) = words.nth(1) else {
        return ExitCode::SUCCESS;
    };
    if word.as_str() != "run" {
        return ExitCode::FAILURE;
    }
    match run(rt) {
        Ok(()) => ExitCode::SUCCESS,
        Err(_) => ExitCode::FAILURE,
    }
}

/// Times calls of some and of more subs, in each order.
fn run(rt: HostRuntime) -> io::Result<()> {
    for subs in SUBS {
        let Ok(Some(plan)) = plan_of(rt.alloc(), subs) else {
            continue;
        };
        for order in [Order::Rising, Order::Falling, Order::Mixed] {
            let start = Instant::now(&rt)?;
            let mut events = 0u64;
            for _ in 0..TIMES {
                let Ok(plan) = plan.clone() else {
                    return Ok(());
                };
                if let Ok(count) = answered(rt.alloc(), plan, subs, order) {
                    events = events.wrapping_add(u64::from(count));
                }
            }
            let nanoseconds = start.elapsed(&rt)?.as_nanos();
            let each = match events {
                0 => 0,
                _ => nanoseconds / u128::from(events),
            };
            let name = turn(order);
            println!(rt; "{subs} subs, {name}: {each} ns a reply, its part of the start included")?;
        }
    }
    Ok(())
}
