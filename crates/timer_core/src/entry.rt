use crate::mark::Mark;

/// A mark with its place among the others: by moment, then by rank, then by how many marks had been added before it.
#[derive(Clone, Copy, Debug, PartialEq, Eq, PartialOrd, Ord)]
pub struct Entry {
    pub moment: u64,
    pub rank: u32,
    /// How many marks had been added before it.
    pub order: u64,
    pub id: u64,
    pub code: u32,
}

ghost use Rattle.std.specs.Prelude.{◌≡◌};
ghost use Rattle.timer_core.specs.Entries.{mark_of, entry_of};

impl Entry {
    /// The mark's entry, where `order` marks had been added before it.
    pub fn of(mark: Mark, order: u64) -> Entry
        ensures { result ≡ entry_of order mark }
    {
        Entry {
            moment: mark.moment,
            rank: mark.rank,
            order,
            id: mark.id,
            code: mark.code,
        }
    }

    /// The mark.
    pub fn mark(&self) -> Mark
        ensures { result ≡ mark_of self.now }
    {
        Mark {
            moment: self.moment,
            rank: self.rank,
            id: self.id,
            code: self.code,
        }
    }
}
