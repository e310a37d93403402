ghost use Rattle.std.specs.Prelude.{◌≡◌, ℕ, ◌+◌, ◌*◌, ◌^◌, ◌<◌, ◌≤◌, List, [], ◌∷◌, ◌++◌, max, nat_eq, length, find, Option, None, Some, OnOk, OnErr, IfOk};
ghost use Rattle.std.specs.Map.{keys_of, lookup};
ghost use Rattle.std.specs.Option.{option_map};
ghost use Rattle.std.specs.List.{IsDistinct};
ghost use Rattle.rpc_model.specs.Limits.{IsAct, called};
ghost use Rattle.rpc_model.specs.Fits.{Fits, IsNarrow, BeginsNarrow};
ghost use Rattle.rpc_model.specs.Plan.{plan};
ghost use Rattle.rpc_model.specs.Told as spec;
ghost use Rattle.rpc_model.specs.declared.event.Event.TheVariants as event;
ghost use Rattle.model_laws.specs.Early.{settled};
ghost use Rattle.sim_run.specs.Desk.{IsReady, replay_of, ticket_of, IsNew, plan_of, first_wires, event_wires, reply_wires, loss_wires};
ghost use Rattle.sim_run.specs.Closing.{join_wires};
ghost use Rattle.sim_run.specs.Marked.{AreSettled, marked};
ghost use Rattle.sim_run.specs.Sends.{posted};
ghost use Rattle.sim_run.specs.Passages.{HavePassed};
ghost use Rattle.sim_run.specs.Rounds.{IsPlanned};
ghost use Rattle.id_pool.specs.Ranges.{lowest};
ghost use Rattle.rpc_model.specs.declared.told.Told.TheVariants.{Full as full};

use crate::acting::go_out;
use crate::call_table::CallTable;
use crate::closing::close_told;
use crate::open_call::OpenCall;
use crate::planning::Plans;
use crate::slots::{bring, deliver, join, lose, take_slot};
use crate::ticket::Ticket;
use crate::timer::Timer;
use crate::turn::Turn;
use crate::wire::Wire;
use crate::wires::{forget, open_wires, receive};
use call_tree::Effects;
use id_pool::Pool;
use rpc_base::{Bytes, NoMemory};
use rpc_model::{Act, Event, Script, Told};
use std::alloc::Global;

/// The moment reached, in milliseconds; the calls by their numbers; the slots; a wire a server; and the marks of all calls.
#[derive(Drop)]
pub(crate) struct Replay {
    reached: u64,
    calls: CallTable,
    pool: Pool<OpenCall>,
    wires: Vec<Wire>,
    marks: Timer,
}

impl Replay {
    /// Nothing has happened yet.
    pub(crate) fn open(alloc: Global, script: &Script) -> Result<Replay, NoMemory>
        requires { Fits script.now }
        ensures ready { IfOk result (IsReady script.now) }
        ensures begins { IfOk result (λ r. replay_of r ≡ spec.unbegun) }
        ensures none { IfOk result (λ r. r.calls.entries ≡ []) }
    {
        Ok(Replay {
            reached: 0,
            calls: CallTable::new(alloc),
            pool: Pool::open(alloc, script.slots)?,
            wires: open_wires(alloc, script.servers)?,
            marks: Timer::open(alloc),
        })
    }

    /// The ticket of a call that took a slot.
    fn ticket(&self, call: u32) -> Option<&Ticket>
        ensures { option_map (λ t. t.now) result ≡ ticket_of call self.now }
    {
        match self.calls.get(call) {
            None => None,
            Some(ticket) => ticket.as_ref(),
        }
    }

    /// A moment is reached: each mark that is due is taken by the call that its id finds, if that wasn't told.
    fn reach(&mut self, script: &Script, moment: u64) -> Result<(), NoMemory>
        requires fits { Fits script.now }
        requires ready { IsReady script.now self.old }
        requires few { length self.old.calls.entries ≤ 500000 }
        requires later { self.old.reached ≤ moment }
        requires early { moment < 2 ^ 60 }
        ensures ready { OnOk result (IsReady script.now self.new) }
        ensures settled { OnOk result (AreSettled moment self.new.pool) }
        ensures after { OnOk result (settled (replay_of self.new) ≡ settled (record (replay_of self.old) { reached = moment })) }
        ensures reached { OnOk result (self.new.reached ≡ moment) }
        ensures passed { OnOk result (HavePassed self.old.wires.items self.new.wires.items) }
        ensures calls { OnOk result (self.new.calls ≡ self.old.calls) }
    {
        self.reached = moment;
        'taken: while let Some(mark) = self.marks.due(moment) {
            bring(
                &mut self.pool,
                &mut self.wires,
                &mut self.marks,
                mark.id,
                Turn::Due(moment),
            )?;
        }
        Ok(())
    }

    /// An event of a call that comes by the call's own id.
    fn event(&mut self, script: &Script, call: u32, event: Event) -> Result<(), NoMemory>
        requires fits { Fits script.now }
        requires ready { IsReady script.now self.old }
        requires few { length self.old.calls.entries ≤ 500000 }
        requires settled { AreSettled self.old.reached self.old.pool }
        requires early { self.old.reached < 2 ^ 60 }
        ensures ready { OnOk result (IsReady script.now self.new) }
        ensures after { OnOk result (replay_of self.new ≡ spec.call_event (replay_of self.old) self.old.reached call event) }
        ensures wires { OnOk result (self.new.wires.items ≡ event_wires (ticket_of call self.old) event self.old) }
        ensures calls { OnOk result (self.new.calls ≡ self.old.calls) }
    {
        let Some(ticket) = self.ticket(call) else {
            return Ok(());
        };
        let first = ticket.first;
        bring(
            &mut self.pool,
            &mut self.wires,
            &mut self.marks,
            first,
            Turn::Event(event, self.reached),
        )?;
        Ok(())
    }

    /// A call line: the call takes a slot and sends its first requests, or finds no slot.
    fn call(
        &mut self,
        alloc: Global,
        script: &Script,
        plans: &mut Plans,
        call: u32,
        chan: u32,
        text: Bytes,
        told: &mut Vec<Told>,
    ) -> Result<(), NoMemory>
        requires fits { Fits script.now }
        requires ready { IsReady script.now self.old }
        requires planned { IsPlanned script.now.chans plans.old }
        requires few { length self.old.calls.entries ≤ 500000 }
        requires early { self.old.reached < 2 ^ 60 }
        requires chan { chan < length script.now.chans }
        requires narrow { IsNarrow (plan script.now.chans chan call) }
        requires new { lookup (nat_eq call) self.old.calls.entries ≡ None }
        ensures ready { OnOk result (IsReady script.now self.new) }
        ensures after { OnOk result (replay_of self.new ≡ spec.call_after script.now (replay_of self.old) self.old.reached call text (plan script.now.chans chan call)) }
        ensures wires { OnOk result (self.new.wires.items ≡ first_wires (lowest self.old.pool) (plan script.now.chans chan call) call text self.old) }
        ensures tells { OnOk result (told.new.items ≡ told.old.items ++ spec.call_tells (spec.is_full script.now (replay_of self.old)) call (plan script.now.chans chan call)) }
        ensures calls { OnOk result (keys_of self.new.calls.entries ≡ keys_of self.old.calls.entries ++ call ∷ []) }
        ensures planned { OnOk result (IsPlanned script.now.chans plans.new) }
        ensures kept { OnErr result (told.new.items ≡ told.old.items) }
    {
        let plan = plans.of_call(alloc, script, chan, call)?;
        let width = plan.width();
        let shared = plan.clone()?;
        let spare = self.marks.take_spare();
        let (open, effects) = OpenCall::begin(alloc, call, shared, text, self.reached, spare)?;
        let Some(first) = take_slot(&mut self.pool, width, open) else {
            self.refuse(call, told)?;
            return Ok(());
        };
        self.begin(call, Ticket { first, plan }, effects)?;
        Ok(())
    }

    /// A call that took a slot sends its first requests, and sets its first marks.
    fn begin(&mut self, call: u32, ticket: Ticket, effects: Effects) -> Result<(), NoMemory>
        requires id { ticket.first < 2 ^ 63 }
        requires new { lookup (nat_eq call) self.old.calls.entries ≡ None }
        ensures sent { OnOk result (self.new.wires.items ≡ posted ticket.first (plan_of ticket) call effects.sends self.old.wires.items) }
        ensures marks { OnOk result (self.new.marks ≡ marked ticket.first effects.marks self.old.marks) }
        ensures calls { OnOk result (self.new.calls.entries ≡ self.old.calls.entries ++ (call, Some ticket) ∷ []) }
        ensures once { OnOk result (IsDistinct nat_eq (keys_of self.new.calls.entries)) }
        ensures same { (self.new.pool ≡ self.old.pool) × (self.new.reached ≡ self.old.reached) }
    {
        go_out(
            &mut self.wires,
            &mut self.marks,
            &ticket.plan,
            call,
            ticket.first,
            effects,
        )?;
        self.calls.push(call, Some(ticket))?;
        Ok(())
    }

    /// A call that found no slot is told so at once.
    fn refuse(&mut self, call: u32, told: &mut Vec<Told>) -> Result<(), NoMemory>
        requires new { lookup (nat_eq call) self.old.calls.entries ≡ None }
        ensures calls { OnOk result (self.new.calls.entries ≡ self.old.calls.entries ++ (call, None) ∷ []) }
        ensures once { OnOk result (IsDistinct nat_eq (keys_of self.new.calls.entries)) }
        ensures same { (self.new.pool ≡ self.old.pool) × (self.new.reached ≡ self.old.reached) × (self.new.wires ≡ self.old.wires) × (self.new.marks ≡ self.old.marks) }
        ensures tells { OnOk result (told.new.items ≡ told.old.items ++ full call ∷ []) }
        ensures kept { OnErr result (told.new.items ≡ told.old.items) }
    {
        self.calls.push(call, None)?;
        told.push(Told::Full(call))?;
        Ok(())
    }

    /// A reply to an attempt of a call comes in as a frame, and is brought to the call by the id of the attempt alone. What
    /// names no attempt of the call's plan has no id by which a frame could come.
    fn reply(
        &mut self,
        script: &Script,
        call: u32,
        node: u32,
        attempt: u32,
        code: u32,
        text: Bytes,
    ) -> Result<(), NoMemory>
        requires fits { Fits script.now }
        requires ready { IsReady script.now self.old }
        requires few { length self.old.calls.entries ≤ 500000 }
        requires settled { AreSettled self.old.reached self.old.pool }
        requires early { self.old.reached < 2 ^ 60 }
        requires code { code ≤ 65535 }
        requires text { length text ≤ 60000 }
        ensures ready { OnOk result (IsReady script.now self.new) }
        ensures after { OnOk result (replay_of self.new ≡ spec.call_event (replay_of self.old) self.old.reached call (event.Reply node attempt code text)) }
        ensures wires { OnOk result (self.new.wires.items ≡ reply_wires (ticket_of call self.old) call node attempt code text self.old) }
        ensures calls { OnOk result (self.new.calls ≡ self.old.calls) }
    {
        let Some(ticket) = self.ticket(call) else {
            return Ok(());
        };
        let Some(aim) = ticket.aim(call, node, attempt, script.servers) else {
            let event = Event::Reply {
                node,
                attempt,
                code,
                text,
            };
            self.event(script, call, event)?;
            return Ok(());
        };
        let reply = receive(&mut self.wires, aim.server, aim.id, code, &text)?;
        deliver(
            &mut self.pool,
            &mut self.wires,
            &mut self.marks,
            reply,
            self.reached,
        )?;
        Ok(())
    }

    /// An attempt of a call is lost: this is brought to the call by the id of the attempt alone, where it has one.
    fn lose(
        &mut self,
        script: &Script,
        call: u32,
        node: u32,
        attempt: u32,
        code: u32,
    ) -> Result<(), NoMemory>
        requires fits { Fits script.now }
        requires ready { IsReady script.now self.old }
        requires few { length self.old.calls.entries ≤ 500000 }
        requires settled { AreSettled self.old.reached self.old.pool }
        requires early { self.old.reached < 2 ^ 60 }
        ensures ready { OnOk result (IsReady script.now self.new) }
        ensures after { OnOk result (replay_of self.new ≡ spec.call_event (replay_of self.old) self.old.reached call (event.Lost node attempt code)) }
        ensures wires { OnOk result (self.new.wires.items ≡ loss_wires (ticket_of call self.old) call node attempt code self.old) }
        ensures calls { OnOk result (self.new.calls ≡ self.old.calls) }
    {
        let Some(ticket) = self.ticket(call) else {
            return Ok(());
        };
        let Some(aim) = ticket.aim(call, node, attempt, script.servers) else {
            let event = Event::Lost {
                node,
                attempt,
                code,
            };
            self.event(script, call, event)?;
            return Ok(());
        };
        forget(&mut self.wires, aim.server, aim.id);
        lose(
            &mut self.pool,
            &mut self.wires,
            &mut self.marks,
            aim.id,
            code,
            self.reached,
        )?;
        Ok(())
    }

    /// A join line.
    fn join(&mut self, script: &Script, call: u32, told: &mut Vec<Told>) -> Result<(), NoMemory>
        requires fits { Fits script.now }
        requires ready { IsReady script.now self.old }
        requires few { length self.old.calls.entries ≤ 500000 }
        requires early { (spec.call_join (replay_of self.old) call).reached < 2 ^ 60 }
        ensures ready { OnOk result (IsReady script.now self.new) }
        ensures after { OnOk result (replay_of self.new ≡ spec.call_join (replay_of self.old) call) }
        ensures wires { OnOk result (self.new.wires.items ≡ join_wires call (ticket_of call self.old) self.old) }
        ensures calls { OnOk result (self.new.calls ≡ self.old.calls) }
        ensures tells { OnOk result (told.new.items ≡ told.old.items ++ spec.join_tells (replay_of self.old).reached (find (spec.is_call call) (replay_of self.old).calls)) }
        ensures kept { OnErr result (told.new.items ≡ told.old.items) }
    {
        let Some(known) = self.calls.get(call) else {
            return Ok(());
        };
        let Some(ticket) = known else {
            told.push(Told::Gone(call))?;
            return Ok(());
        };
        let first = ticket.first;
        let joined = join(
            &mut self.pool,
            &mut self.wires,
            &mut self.marks,
            first,
            self.reached,
        )?;
        let Some((reached, tells)) = joined else {
            told.push(Told::Gone(call))?;
            return Ok(());
        };
        close_told(&mut self.wires, &tells, ticket, call, script.servers);
        self.reached = reached;
        told.push(tells)?;
        Ok(())
    }

    /// One more line.
    #[tactic(auto, unfolding(rpc_model::specs::Told::after, rpc_model::specs::Told::tells))]
    pub(crate) fn step(
        &mut self,
        alloc: Global,
        script: &Script,
        plans: &mut Plans,
        act: Act,
        told: &mut Vec<Told>,
    ) -> Result<(), NoMemory>
        requires fits { Fits script.now }
        requires ready { IsReady script.now self.old }
        requires planned { IsPlanned script.now.chans plans.old }
        requires few { length self.old.calls.entries ≤ 500000 }
        requires early { (spec.after script.now (replay_of self.old) act).reached < 2 ^ 60 }
        requires act { IsAct (length script.now.chans) act }
        requires narrow { BeginsNarrow script.now.chans act }
        requires new { IsNew self.old.calls.entries act }
        ensures ready { OnOk result (IsReady script.now self.new) }
        ensures after { OnOk result (settled (replay_of self.new) ≡ settled (spec.after script.now (replay_of self.old) act)) }
        ensures reached { OnOk result (self.new.reached ≡ (spec.after script.now (replay_of self.old) act).reached) }
        ensures tells { OnOk result (told.new.items ≡ told.old.items ++ spec.tells script.now (replay_of self.old) act) }
        ensures calls { OnOk result (keys_of self.new.calls.entries ≡ keys_of self.old.calls.entries ++ called (act ∷ [])) }
        ensures planned { OnOk result (IsPlanned script.now.chans plans.new) }
        ensures kept { OnErr result (told.new.items ≡ told.old.items) }
    {
        match act {
            Act::Call {
                at,
                call,
                chan,
                text,
            } => {
                self.reach(script, self.reached.max(at))?;
                self.call(alloc, script, plans, call, chan, text, told)
            }
            Act::Cancel { at, call } => {
                self.reach(script, self.reached.max(at))?;
                self.event(script, call, Event::Cancel)
            }
            Act::Reply {
                at,
                call,
                node,
                attempt,
                code,
                text,
            } => {
                self.reach(script, self.reached.max(at))?;
                self.reply(script, call, node, attempt, code, text)
            }
            Act::Lose {
                at,
                call,
                node,
                attempt,
                code,
            } => {
                self.reach(script, self.reached.max(at))?;
                self.lose(script, call, node, attempt, code)
            }
            Act::Tick { at } => self.reach(script, self.reached.max(at)),
            Act::Join { call } => self.join(script, call, told),
        }
    }
}
