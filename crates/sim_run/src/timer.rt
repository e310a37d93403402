//! The one list of the marks of all calls.

ghost use Rattle.std.specs.Prelude.{◌≡◌, ◌↔◌, [], None, OnOk};
ghost use Rattle.timer_core.specs.Marks.{added, due_mark, rest_after, NoneIsDue};

use call_tree::Spare;
use rpc_base::NoMemory;
use std::alloc::Global;
use std::marker::Model;
use std::mem;
use timer_core::{Mark, Marks};

/// The marks of all calls. It is seen as these.
///
/// Beside them it keeps the room into which each step of a call puts what goes out.
#[derive(Drop)]
pub(crate) struct Timer {
    alloc: Global,
    marks: Marks,
    spare: Spare,
}

impl Model for Timer {
    ghost use Rattle.std.specs.Prelude.{List};
    ghost use Rattle.timer_core.specs.declared.mark.Mark.{Mark};

    ghost Value = { List Mark };

    ghost view = { λ t. t.marks };
}

impl Timer {
    /// No mark yet. It takes no memory.
    pub(crate) fn open(alloc: Global) -> Timer
        ensures { result ≡ [] }
    {
        Timer {
            alloc,
            marks: Marks::open(alloc),
            spare: Spare::new(alloc),
        }
    }

    /// Adds a mark behind all that are not after it.
    pub(crate) fn add(&mut self, mark: Mark) -> Result<(), NoMemory>
        ensures after { OnOk result (self.new ≡ added mark self.old) }
    {
        self.marks.add(mark)
    }

    /// Takes out the first mark, where it is due.
    pub(crate) fn due(&mut self, now: u64) -> Option<Mark>
        ensures answer { result ≡ due_mark now self.old }
        ensures after { self.new ≡ rest_after now self.old }
        ensures none { (result ≡ None) ↔ NoneIsDue now self.old }
    {
        self.marks.due(now)
    }

    /// Gives the room that a step may use.
    pub(crate) fn take_spare(&mut self) -> Spare
        ensures same { self.new ≡ self.old }
    {
        mem::replace(&mut self.spare, Spare::new(self.alloc))
    }

    /// Takes the room back.
    pub(crate) fn keep_spare(&mut self, spare: Spare)
        ensures same { self.new ≡ self.old }
    {
        self.spare = spare;
    }
}
