ghost use Rattle.std.specs.Prelude.{◌≡◌, ℕ, ◌≤◌, ◌+◌, [], ◌∷◌, ◌++◌, length, All, OnOk, OnErr, IfOk, IfNone, IfSome, None, MatchOption};
ghost use Rattle.crossbeam_queue.specs.SegTies.{IsSegPassOf};
ghost use Rattle.mark_line.specs.Log.{log, AreSameMarks};
ghost use Rattle.mark_line.specs.Line.{registered_of, taken_of, passes_of, passes_of_line, IsPassOf, IsNewPass, WasEmpty};

use crate::log::{Balance, Grown, Joined, Log, Registered, Shared, Taken};
use crossbeam_queue::{RuledSegQueue, SegPass};
use rpc_base::NoMemory;
use std::alloc::Global;
use std::sync::Wait;
use timer_core::Mark;

type Queue = RuledSegQueue<Mark, Log, Balance>;

/// A line of one pass has as many as are wanted.
fn grow(queue: &Queue, seat: &mut SegPass<Mark, Log>, passes: u32)
    requires seat { IsSegPassOf queue.now seat.old }
    requires one { seat.old.me.view.client ≡ log [] [] 1 1 }
    requires some { 1 ≤ passes }
    ensures seat { IsSegPassOf queue.now seat.new }
    ensures all { seat.new.me.view.client ≡ log [] [] passes passes }
{
    for _count in 1..passes {
        let _idle = queue.another::<Grown>(seat);
    }
}

/// A queue of marks that threads share. Each call takes a pass of the line. It is ended by `close`.
pub struct MarkLine {
    queue: Queue,
    // How many passes the line has.
    passes: u32,
}

/// What one thread knows of a line: the marks that it and the passes joined into it registered, the marks that they
/// took, and how many passes it holds. It has no bytes.
#[derive(Drop)]
pub struct MarkPass {
    seat: SegPass<Mark, Log>,
}

impl MarkLine {
    /// An empty queue, and its passes, each of which holds one pass and has no marks. There are 1 to 64.
    pub fn open(alloc: Global, passes: u32) -> Result<(MarkLine, Vec<MarkPass>), NoMemory>
        requires some { 1 ≤ passes }
        requires few { passes ≤ 64 }
        ensures line { IfOk result (λ r. passes_of_line r.0 ≡ passes) }
        ensures count { IfOk result (λ r. length r.1.items ≡ passes) }
        ensures passes { IfOk result (λ r. All (IsNewPass r.0) r.1.items) }
    {
        let (queue, mut seat) = Queue::with_rule(alloc)?;
        grow(&queue, &mut seat, passes);
        let line = MarkLine { queue, passes };
        let Ok(list) = line.shared(alloc, seat) else {
            line.close();
            return Err(NoMemory);
        };
        Ok((line, list))
    }

    /// A pass for each of those that the seat of all holds.
    fn shared(&self, alloc: Global, mut seat: SegPass<Mark, Log>) -> Result<Vec<MarkPass>, NoMemory>
        requires seat { IsSegPassOf self.now.queue seat }
        requires all { seat.me.view.client ≡ log [] [] self.now.passes self.now.passes }
        requires some { 1 ≤ self.now.passes }
        ensures count { IfOk result (λ list. length list.items ≡ self.now.passes) }
        ensures passes { IfOk result (λ list. All (IsNewPass self.now) list.items) }
    {
        let mut list = Vec::new(alloc);
        for _left in 1..self.passes {
            let other = self.queue.another::<Shared>(&mut seat);
            list.push(MarkPass { seat: other })?;
        }
        list.push(MarkPass { seat })?;
        Ok(list)
    }

    /// Puts the mark last in the queue. Where memory runs out nothing changes.
    pub fn register<R: Wait>(&self, rt: &R, pass: &mut MarkPass, mark: Mark) -> Result<(), NoMemory>
        requires { IsPassOf self.now pass.old }
        ensures pass { IsPassOf self.now pass.new }
        ensures holds { passes_of pass.new ≡ passes_of pass.old }
        ensures taken { taken_of pass.new ≡ taken_of pass.old }
        ensures after { OnOk result (registered_of pass.new ≡ registered_of pass.old ++ mark ∷ []) }
        ensures failed { OnErr result (registered_of pass.new ≡ registered_of pass.old) }
    {
        let seat = &mut pass.seat;
        if self.queue.push_as::<Registered, R>(rt, seat, mark).is_err() {
            return Err(NoMemory);
        }
        Ok(())
    }

    /// Takes out the front mark. `None`, with nothing changed, only where the queue was empty at a moment of this call.
    /// To a pass that holds all passes of the line it says that each mark was taken that was registered.
    pub fn take<R: Wait>(&self, rt: &R, pass: &mut MarkPass) -> Option<Mark>
        requires { IsPassOf self.now pass.old }
        ensures pass { IsPassOf self.now pass.new }
        ensures holds { passes_of pass.new ≡ passes_of pass.old }
        ensures registered { registered_of pass.new ≡ registered_of pass.old }
        ensures taken { MatchOption result (taken_of pass.new ≡ taken_of pass.old) (λ mark. taken_of pass.new ≡ taken_of pass.old ++ mark ∷ []) }
        ensures empty { IfNone result (WasEmpty pass.old) }
        ensures all { IfNone result (passes_of pass.new ≡ passes_of_line self.now → AreSameMarks (registered_of pass.new) (taken_of pass.new)) }
    {
        let seat = &mut pass.seat;
        self.queue.pop_as::<Taken, R>(rt, seat)
    }

    /// Joins a pass away: the first pass then has the other's marks and holds the other's passes too.
    pub fn join_pass(&self, pass: &mut MarkPass, other: MarkPass)
        requires pass { IsPassOf self.now pass.old }
        requires other { IsPassOf self.now other }
        ensures pass { IsPassOf self.now pass.new }
        ensures holds { passes_of pass.new ≡ passes_of pass.old + passes_of other }
        ensures registered { registered_of pass.new ≡ registered_of pass.old ++ registered_of other }
        ensures taken { taken_of pass.new ≡ taken_of pass.old ++ taken_of other }
    {
        let MarkPass { seat } = other;
        self.queue.absorb::<Joined>(&mut pass.seat, seat);
    }

    /// Ends the line. Marks that are still in the queue are dropped.
    pub fn close(self) {
        let MarkLine { queue, passes: _ } = self;
        queue.destroy();
    }
}
