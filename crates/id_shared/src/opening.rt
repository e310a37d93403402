//! Opening a table.
ghost use Rattle.std.specs.Prelude.{◌≡◌, ◌≤◌, ◌+◌, ◌*◌, [], length, vec_capacity, All, IfOk, None};
ghost use Rattle.id_shared.specs.Standing.{IsAtRest};
ghost use Rattle.id_shared.specs.Opening.{IsRow, IsNewPass, IsNewSeat, IsRoot, AreOpened};

use crate::ids::Ids;
use crate::pass::Pass;
use atomic_table::{Seat, Table};
use id_rule::{Fork, Sizes, Tenant, View};
use rpc_base::NoMemory;
use std::alloc::Global;

// The word of a vacant slot whose next range begins at version 1.
const VACANT: u64 = 1 << 30;

// The words of the slots and of the nodes.
fn words(alloc: Global, slots: u32, nodes: u32) -> Result<Vec<u64>, NoMemory>
    ensures row { IfOk result (λ v. IsRow slots nodes v.items) }
{
    let Ok(mut words) = Vec::from_elem(alloc, VACANT, slots as usize) else {
        return Err(NoMemory);
    };
    let Ok(nodes) = Vec::from_elem(alloc, 0u64, 2 * nodes as usize) else {
        return Err(NoMemory);
    };
    if words.extend_from_slice(nodes.as_slice()).is_err() {
        return Err(NoMemory);
    }
    Ok(words)
}

// An empty list with room for so many.
fn room<X>(alloc: Global, count: u32) -> Result<Vec<X>, NoMemory>
    ensures room { IfOk result (λ v. (v.items ≡ []) × (count ≤ vec_capacity v)) }
{
    Vec::with_capacity(alloc, count as usize).map_err(|_| NoMemory)
}

impl<T: Tenant> Ids<T> {
    // A pass with this new seat.
    fn equipped(
        &self,
        alloc: Global,
        seat: Seat<Option<T>, View<T::Entry>>,
        number: u32,
    ) -> Result<Pass<T>, NoMemory>
        requires seat { IsNewSeat self.now number seat.table_id seat.me }
        ensures pass { IfOk result (λ p. p ≡ record { table = seat.table_id; view = seat.me.0; words = []; scratch = []; holder = None }) }
    {
        let words = room(alloc, self.sizes.slots.max(self.sizes.nodes))?;
        let total = self.sizes.passes * self.sizes.nodes;
        let pending = room(alloc, total)?;
        let dropped = room(alloc, total)?;
        Ok(Pass {
            seat,
            words,
            number,
            sent: 0,
            holder: None,
            pending,
            dropped,
        })
    }

    // A new pass, which takes the first pass's next number.
    fn another(&self, alloc: Global, root: &mut Pass<T>, number: u32) -> Result<Pass<T>, NoMemory>
        requires root { IsRoot self.now number root.old }
        ensures root { IsRoot self.now (number + 1) root.new }
        ensures pass { IfOk result (IsNewPass self.now number) }
    {
        let seat = self.table.shared.split_seat::<Fork>(&mut root.seat);
        self.equipped(alloc, seat, number)
    }

    // All passes, each at its number.
    fn deal(&self, alloc: Global, mut root: Pass<T>, passes: u32) -> Result<Vec<Pass<T>>, NoMemory>
        requires passes { (1 ≤ passes) × (passes ≡ self.now.sizes.passes) }
        requires root { IsRoot self.now 1 root }
        ensures passes { IfOk result (λ ps. (length ps.items ≡ passes) × AreOpened self.now 0 ps.items) }
        ensures own { IfOk result (λ ps. All (IsAtRest self.now) ps.items) }
    {
        let Ok(mut all) = Vec::with_capacity(alloc, passes as usize) else {
            return Err(NoMemory);
        };
        let mut number = 1;
        while number < passes {
            let pass = self.another(alloc, &mut root, number)?;
            let Ok(()) = all.push(pass) else {
                return Err(NoMemory);
            };
            number += 1;
        }
        let Ok(()) = all.insert(0, root) else {
            return Err(NoMemory);
        };
        Ok(all)
    }
}

impl<T: Tenant + Drop> Ids<T> {
    /// Opens a table of 1 to 4,096 slots, with 1 to 64 passes that have this many nodes each: at least one, and 65,535
    /// together at most. The passes are numbered from 0, and each slot's first range begins at version 1. The lists of each
    /// pass are reserved here, for the words that `Pass::seen` gives and for twice as many errors as there are nodes: no
    /// other call takes memory.
    pub fn open(
        alloc: Global,
        slots: u32,
        passes: u32,
        nodes: u32,
    ) -> Result<(Ids<T>, Vec<Pass<T>>), NoMemory>
        requires slots { (1 ≤ slots) × (slots ≤ 4096) }
        requires passes { (1 ≤ passes) × (passes ≤ 64) }
        requires nodes { (1 ≤ nodes) × (passes * nodes ≤ 65535) }
        ensures sizes { IfOk result (λ r. (r.0.sizes.slots ≡ slots) × (r.0.sizes.passes ≡ passes) × (r.0.sizes.nodes ≡ nodes)) }
        ensures passes { IfOk result (λ r. (length r.1.items ≡ passes) × AreOpened r.0 0 r.1.items) }
        ensures own { IfOk result (λ r. All (IsAtRest r.0) r.1.items) }
    {
        let row = words(alloc, slots, passes * nodes)?;
        let sizes = Sizes {
            slots,
            passes,
            nodes,
        };
        let Ok((table, seat)) = Table::vacant(alloc, row.as_slice(), slots as usize, &sizes) else {
            return Err(NoMemory);
        };
        let ids = Ids { table, sizes };
        let root = ids.equipped(alloc, seat, 0)?;
        let all = ids.deal(alloc, root, passes)?;
        Ok((ids, all))
    }
}
