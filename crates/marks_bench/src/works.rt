use crate::timers::Timer;
use rpc_base::NoMemory;
use timer_core::Mark;

/// How many marks go through a rolling work.
const TOTAL: u64 = 3_000_000;

fn mark(moment: u64, number: u64) -> Mark {
    Mark {
        moment,
        rank: (number % 8) as u32,
        id: number,
        code: 1008,
    }
}

/// Takes all that are due, and counts them.
fn take_due<T: Timer>(timer: &mut T, now: u64) -> u64 {
    let mut taken = 0_u64;
    for _ in 0..u64::MAX {
        if timer.due(now).is_none() {
            break;
        }
        taken = taken.wrapping_add(1);
    }
    taken
}

/// Marks come in as the clock goes on, and leave when they are due: so many wait on average.
pub fn rolling<T: Timer>(timer: &mut T, waiting: u64, deadline: u64) -> Result<u64, NoMemory> {
    let mut taken = 0_u64;
    for number in 0..TOTAL {
        let now = number.wrapping_mul(deadline) / waiting.max(1);
        timer.add(mark(now.wrapping_add(deadline), number))?;
        taken = taken.wrapping_add(take_due(timer, now));
    }
    Ok(taken.wrapping_add(take_due(timer, u64::MAX)))
}

/// So many marks of one moment come in, and then all are taken.
pub fn equal<T: Timer>(timer: &mut T, waiting: u64) -> Result<u64, NoMemory> {
    for number in 0..waiting {
        timer.add(mark(1_000_000, number))?;
    }
    Ok(take_due(timer, 1_000_000))
}
