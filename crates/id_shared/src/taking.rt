//! Taking the errors that wait from a held slot, and handing them out.
ghost use Rattle.std.specs.Prelude.{◌≡◌, ◌<◌, ◌≤◌, ◌+◌, ◌*◌, ◌++◌, [], None, Some, vec_capacity, vec_len};
ghost use Rattle.id_rule.specs.Changes.{view_with_list};
ghost use Rattle.id_rule.specs.Nodes.{word_at};
ghost use Rattle.id_rule.specs.Parts.{part_of};
ghost use Rattle.id_shared.specs.Answers.{HasNext};
ghost use Rattle.id_shared.specs.Draining.{HasDrained, IsDraining, IsSeatOf, HasTakenErrors};
ghost use Rattle.id_shared.specs.Standing.{IsPassOf, HasHold, HasErrorsOf, HasDropped};
ghost use Rattle.id_shared.specs.Views.{errors_of};

use crate::answers::Posted;
use crate::claims::Hold;
use crate::ids::Ids;
use crate::pass::Pass;
use atomic_table::Seat;
use id_rule::{Free, Read, Receipt, TakeAll, Tenant, View};

// All bits of a word but those of the head.
const NO_HEAD: u64 = 18446744073709486080;

impl<T: Tenant> Ids<T> {
    // The place of a node's first word.
    pub(crate) fn place_of(&self, node: u32) -> u64
        requires node { (1 ≤ node) × (node ≤ 65535) }
        ensures place { result ≡ word_at self.now.sizes.slots node }
    {
        u64::from(self.sizes.slots) + 2 * (u64::from(node) - 1)
    }

    // Reads and frees the first taken node. Answers the next one, or 0.
    fn drain_one(
        &self,
        seat: &mut Seat<Option<T>, View<T::Entry>>,
        list: &mut Vec<Posted>,
        node: u32,
    ) -> u32
        requires draining { IsDraining self.now seat.old.table_id seat.old.me node (vec_len list.old) (vec_capacity list.old) }
        requires node { 1 ≤ node }
        ensures same { (seat.new.table_id ≡ seat.old.table_id) × (seat.new.id ≡ seat.old.id) × (vec_capacity list.new ≡ vec_capacity list.old) }
        ensures drained { HasDrained seat.old.me list.old.items result seat.new.me list.new.items }
    {
        let place = self.place_of(node);
        let word = self.table.shared.load::<Read>(seat, place as usize);
        let number = self.table.shared.load::<Read>(seat, place as usize + 1);
        let receipt = Receipt {
            pass: (node - 1) / self.sizes.nodes,
            number,
        };
        list.push_reserved(Posted {
            offset: (word / 4294967296 % 2048) as u32,
            code: (word / 65536 % 65536) as u32,
            receipt,
        });
        self.table.shared.store::<Free>(seat, place as usize, 0);
        (word % 65536) as u32
    }

    // Reads and frees all taken nodes, from this one on, and notes their errors, last queued first.
    pub(crate) fn drain(
        &self,
        seat: &mut Seat<Option<T>, View<T::Entry>>,
        list: &mut Vec<Posted>,
        first: u32,
    )
        requires draining { IsDraining self.now seat.old.table_id seat.old.me first (vec_len list.old) (vec_capacity list.old) }
        ensures same { (seat.new.table_id ≡ seat.old.table_id) × (seat.new.id ≡ seat.old.id) × (vec_capacity list.new ≡ vec_capacity list.old) }
        ensures me { seat.new.me ≡ (view_with_list seat.old.me.0 [], seat.old.me.1) }
        ensures list { list.new.items ≡ list.old.items ++ errors_of seat.old.me.0.taken }
    {
        let mut node = first;
        while node != 0 {
            node = self.drain_one(seat, list, node);
        }
    }

    // Takes the chain of a held slot, and notes its errors, last queued first.
    pub(crate) fn take(
        &self,
        seat: &mut Seat<Option<T>, View<T::Entry>>,
        list: &mut Vec<Posted>,
        hold: &Hold,
    )
        requires seat { IsSeatOf self.now seat.old.table_id seat.old.me.0 }
        requires slot { hold.now.slot < seat.old.table_id.slots }
        requires hold { (part_of seat.old.me.0 hold.now.slot).hold ≡ Some (hold.now.first, hold.now.size) }
        requires taken { seat.old.me.0.taken ≡ [] }
        requires room { vec_len list.old + self.now.sizes.passes * self.now.sizes.nodes ≤ vec_capacity list.old }
        ensures same { (seat.new.table_id ≡ seat.old.table_id) × (seat.new.id ≡ seat.old.id) × (vec_capacity list.new ≡ vec_capacity list.old) }
        ensures taken { HasTakenErrors T.receipt hold.now seat.old.me list.old.items seat.new.me list.new.items }
    {
        let word = self
            .table
            .shared
            .fetch_and::<TakeAll>(seat, hold.slot as usize, NO_HEAD);
        self.drain(seat, list, (word % 65536) as u32);
    }

    /// The next error of the Hold's last `Pending`, first queued first. `None` exactly where all were handed out.
    pub fn next_pending(&self, pass: &mut Pass<T>, hold: &mut Hold) -> Option<Posted>
        requires own { IsPassOf self.now pass.old }
        requires hold { HasHold pass.old hold.old }
        requires errors { HasErrorsOf pass.old hold.old }
        ensures own { IsPassOf self.now pass.new }
        ensures next { HasNext pass.old result pass.new }
        ensures hold { hold.new ≡ hold.old }
        ensures errors { HasErrorsOf pass.new hold.new }
    {
        pass.pending.pop()
    }

    /// The next error that `destroy` dropped without handing it out, first queued first. `None` exactly where all were
    /// handed out.
    pub fn next_dropped(&self, pass: &mut Pass<T>) -> Option<Posted>
        requires own { IsPassOf self.now pass.old }
        requires dropped { HasDropped pass.old }
        ensures own { IsPassOf self.now pass.new }
        ensures next { HasNext pass.old result pass.new }
        ensures dropped { HasDropped pass.new }
    {
        match pass.pending.pop() {
            Some(error) => Some(error),
            None => pass.dropped.pop(),
        }
    }
}
