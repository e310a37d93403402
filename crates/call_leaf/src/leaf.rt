ghost use Rattle.std.specs.Prelude.{◌≡◌, ℕ, ◌≤◌, ◌+◌, ◌^◌, ◌<◌, List, None, true};
ghost use Rattle.rpc_model.specs.Leaf.{is_live};
ghost use Rattle.call_leaf.specs.Keeps.{begun, leaf_of, Steps, Says, Ends};

use crate::event::{LeafEvent, LeafStep};
use rpc_model::{ERPCTIMEDOUT, retriable};
use std::marker::Model;

/// The attempts of one leaf of a call, and its end. Its owner keeps the text of the reply that won.
#[derive(Debug, Drop)]
pub struct Leaf {
    retry: u32,
    /// The attempt that was issued last.
    last: u32,
    current: u32,
    older: Option<u32>,
    backed_up: bool,
    outcome: Option<Outcome>,
}

#[derive(Clone, Copy, Debug, PartialEq, Eq)]
enum Outcome {
    Won,
    Failed(u32),
}

impl Model for Leaf {
    ghost use Rattle.std.specs.Prelude.{◌≤◌, ◌+◌};
    ghost use Rattle.call_leaf.specs.Keeps.{Kept};

    ghost Value = { Kept };

    ghost use Rattle.call_leaf.specs.Outcomes.{outcome_of};

    ghost view = { λ l. record { retry = l.retry; issued = l.last + 1; current = l.current; older = l.older; backed_up = l.backed_up; outcome = outcome_of l.outcome } };

    ghost invariant = { λ l. l.last ≤ l.retry };
}

impl Leaf {
    /// A leaf that has issued attempt 0, and may issue `retry` more.
    pub fn begin(retry: u32) -> Leaf
        ensures { result ≡ begun retry }
    {
        Leaf {
            retry,
            last: 0,
            current: 0,
            older: None,
            backed_up: false,
            outcome: None,
        }
    }

    /// A copy of it, by which an event may be tried.
    pub fn copy(&self) -> Leaf
        ensures { result ≡ self.now }
    {
        Leaf {
            retry: self.retry,
            last: self.last,
            current: self.current,
            older: self.older,
            backed_up: self.backed_up,
            outcome: self.outcome,
        }
    }

    /// Takes an event and answers what it made the leaf do. After an end it answers `Nothing`.
    pub fn apply(&mut self, event: LeafEvent) -> LeafStep
        ensures leaf { Steps self.old self.new event }
        ensures retry { self.new.retry ≡ self.old.retry }
        ensures step { Says self.old event result }
        ensures end { Ends self.old.outcome result self.new.outcome }
    {
        match event {
            LeafEvent::Good(attempt) => self.win(attempt),
            LeafEvent::Fail(attempt, code) => self.fail(attempt, code),
            LeafEvent::Backup => self.back_up(),
            LeafEvent::Deadline => self.time_out(),
        }
    }

    /// How many attempts it has issued, at most one more than `retry`.
    pub fn issued(&self) -> u64
        ensures value { result ≡ self.now.issued }
        ensures bound { result ≤ self.now.retry + 1 }
    {
        u64::from(self.last) + 1
    }

    /// Whether the attempt may still answer: the leaf has no end, and it is the current or the older one.
    fn is_live(&self, attempt: u32) -> bool
        ensures live { (text : List ℕ) → result ≡ is_live (leaf_of self.now text) attempt }
        ensures stands { result ≡ true → self.now.outcome ≡ None }
    {
        self.outcome.is_none() && (self.current == attempt || self.older == Some(attempt))
    }

    fn win(&mut self, attempt: u32) -> LeafStep
        ensures leaf { Steps self.old self.new (LeafEvent.Good attempt) }
        ensures retry { self.new.retry ≡ self.old.retry }
        ensures step { Says self.old (LeafEvent.Good attempt) result }
        ensures end { Ends self.old.outcome result self.new.outcome }
    {
        if !self.is_live(attempt) {
            return LeafStep::Nothing;
        }
        self.outcome = Some(Outcome::Won);
        LeafStep::Won(attempt)
    }

    fn fail(&mut self, attempt: u32, code: u32) -> LeafStep
        ensures leaf { Steps self.old self.new (LeafEvent.Fail attempt code) }
        ensures retry { self.new.retry ≡ self.old.retry }
        ensures step { Says self.old (LeafEvent.Fail attempt code) result }
        ensures end { Ends self.old.outcome result self.new.outcome }
    {
        if !self.is_live(attempt) {
            return LeafStep::Nothing;
        }
        if self.older == Some(attempt) {
            self.older = None;
            return LeafStep::Nothing;
        }
        if self.last < self.retry && retriable(code) {
            return self.issue();
        }
        self.outcome = Some(Outcome::Failed(code));
        LeafStep::Ended(code)
    }

    fn back_up(&mut self) -> LeafStep
        ensures leaf { Steps self.old self.new LeafEvent.Backup }
        ensures retry { self.new.retry ≡ self.old.retry }
        ensures step { Says self.old LeafEvent.Backup result }
        ensures end { Ends self.old.outcome result self.new.outcome }
    {
        if self.outcome.is_some() || self.backed_up || self.last >= self.retry {
            return LeafStep::Nothing;
        }
        self.backed_up = true;
        self.older = Some(self.current);
        self.issue()
    }

    fn time_out(&mut self) -> LeafStep
        ensures leaf { Steps self.old self.new LeafEvent.Deadline }
        ensures retry { self.new.retry ≡ self.old.retry }
        ensures step { Says self.old LeafEvent.Deadline result }
        ensures end { Ends self.old.outcome result self.new.outcome }
    {
        if self.outcome.is_some() {
            return LeafStep::Nothing;
        }
        self.outcome = Some(Outcome::Failed(ERPCTIMEDOUT));
        LeafStep::Ended(ERPCTIMEDOUT)
    }

    /// Issues the next attempt, which becomes the current one.
    fn issue(&mut self) -> LeafStep
        requires { self.old.issued ≤ self.old.retry }
        ensures leaf { self.new ≡ record self.old { issued = self.old.issued + 1; current = self.old.issued } }
        ensures step { result ≡ LeafStep.Issue self.old.issued }
    {
        self.last += 1;
        self.current = self.last;
        LeafStep::Issue(self.current)
    }
}
