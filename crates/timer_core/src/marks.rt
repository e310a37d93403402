ghost use Rattle.std.specs.Prelude.{◌≡◌, [], length, IsTrue, ◌↔◌, OnOk, OnErr, IfSome, None};
ghost use Rattle.timer_core.specs.Marks.{added, due_mark, rest_after, first_moment, IsFirst, NoneIsDue, IsSorted};

use crate::chains::Chains;
use crate::entry::Entry;
use crate::mark::Mark;
use crate::wheel::{enter, first_moment, take};
use rpc_base::NoMemory;
use std::alloc::Global;
use std::cmp::Reverse;
use std::collections::BinaryHeap;
use std::marker::Model;

/// The marks that wait. A contract sees them as the list in which they are taken: by moment, then by rank, then in the
/// order of adding.
///
/// They are kept in a timer wheel. Its base is the moment of the last mark for which it moved. A later mark stands in
/// the list of the highest byte in which its moment and the base differ, and of that byte. When the base moves to the
/// first moment, the marks of one list go to lists of lower bytes, without memory, and those of this very moment into a
/// heap. So a mark moves at most once for each byte of its moment, and the heap orders the marks of one moment alone,
/// with those that were added late.
#[derive(Drop)]
pub struct Marks {
    chains: Chains,
    // The marks whose moment the base has reached. It has room for all that wait.
    heap: BinaryHeap<Reverse<Entry>>,
    base: u64,
    // How many marks were ever added.
    next_order: u64,
    count: usize,
}

impl Model for Marks {
    ghost use Rattle.std.specs.Prelude.{List};
    ghost use Rattle.timer_core.specs.declared.mark.Mark.{Mark as AMark};

    ghost Value = { List AMark };

    ghost use Rattle.std.specs.BinaryHeap.{heap_items, heap_capacity};
    ghost use Rattle.timer_core.specs.Wheel.{marks_of, IsWheel};

    ghost view = { λ m. marks_of (heap_items m.heap) m.chains };

    ghost invariant = { λ m. IsWheel m.base m.next_order m.count (heap_capacity m.heap) (heap_items m.heap) m.chains };
}

impl Marks {
    /// No marks. It takes no memory.
    pub fn open(alloc: Global) -> Marks
        ensures { result ≡ [] }
    {
        Marks {
            chains: Chains::open(alloc),
            heap: BinaryHeap::new(alloc),
            base: 0,
            next_order: 0,
            count: 0,
        }
    }

    /// Adds a mark behind all that are not after it. Where memory runs out nothing changes; it is also answered where
    /// the number of marks ever added would pass the greatest `u64`, or 2^32 - 1 marks wait.
    pub fn add(&mut self, mark: Mark) -> Result<(), NoMemory>
        ensures after { OnOk result (self.new ≡ added mark self.old) }
        ensures failed { OnErr result (self.new ≡ self.old) }
    {
        let Some(next_order) = self.next_order.checked_add(1) else {
            return Err(NoMemory);
        };
        let Some(count) = self.count.checked_add(1) else {
            return Err(NoMemory);
        };
        enter(
            &mut self.chains,
            &mut self.heap,
            self.base,
            count,
            Entry::of(mark, self.next_order),
        )?;
        self.count = count;
        self.next_order = next_order;
        Ok(())
    }

    /// Takes out the first mark, where its moment is at most `now`, in milliseconds. `None`, with nothing changed,
    /// exactly where no mark is due by then. It takes no memory.
    pub fn due(&mut self, now: u64) -> Option<Mark>
        ensures answer { result ≡ due_mark now self.old }
        ensures after { self.new ≡ rest_after now self.old }

        // Not the first mark alone: no other comes before the one that is taken, and where none is taken none is due.
        ensures first { IfSome result (λ mark. IsFirst mark self.old) }
        ensures none { (result ≡ None) ↔ NoneIsDue now self.old }
    {
        let Some(entry) = take(&mut self.chains, &mut self.heap, &mut self.base, now) else {
            return None;
        };
        self.count -= 1;
        Some(entry.mark())
    }

    /// The moment of the first mark, in milliseconds. `None` exactly where there is no mark. The marks are sorted by
    /// moment, then by rank.
    pub fn next_moment(&self) -> Option<u64>
        ensures moment { result ≡ first_moment self.now }
        ensures sorted { IsSorted self.now }
    {
        first_moment(&self.chains, &self.heap, self.base)
    }

    /// How many marks wait.
    pub fn len(&self) -> usize
        ensures { result ≡ length self.now }
    {
        self.count
    }

    /// Whether no mark waits.
    pub fn is_empty(&self) -> bool
        ensures { IsTrue result ↔ (self.now ≡ []) }
    {
        self.count == 0
    }
}
