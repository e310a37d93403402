use rpc_base::NoMemory;
use std::alloc::Global;
use std::collections::BTreeMap;
use timer_core::{Mark, Marks};

/// What keeps marks.
pub trait Timer {
    fn add(&mut self, mark: Mark) -> Result<(), NoMemory>;

    fn due(&mut self, now: u64) -> Option<Mark>;
}

impl Timer for Marks {
    fn add(&mut self, mark: Mark) -> Result<(), NoMemory> {
        Marks::add(self, mark)
    }

    fn due(&mut self, now: u64) -> Option<Mark> {
        Marks::due(self, now)
    }
}

/// The marks in an ordered map, by moment, rank and number of adding.
#[derive(Drop)]
pub struct Plain {
    waiting: BTreeMap<(u64, u32, u64), Mark>,
    order: u64,
}

impl Plain {
    /// No marks.
    pub fn open(alloc: Global) -> Plain {
        Plain {
            waiting: BTreeMap::new(alloc),
            order: 0,
        }
    }
}

impl Timer for Plain {
    fn add(&mut self, mark: Mark) -> Result<(), NoMemory> {
        self.waiting
            .insert((mark.moment, mark.rank, self.order), mark)?;
        self.order = self.order.wrapping_add(1);
        Ok(())
    }

    fn due(&mut self, now: u64) -> Option<Mark> {
        let (place, _) = self.waiting.first_key_value()?;
        if place.0 > now {
            return None;
        }
        let (_, mark) = self.waiting.pop_first()?;
        Some(mark)
    }
}
