//! The lines of calls and of what comes to them.

ghost use Rattle.std.specs.Prelude.{◌≡◌, ℕ, ◌+◌, ◌^◌, ◌<◌, ◌≤◌, true, [], ◌∷◌, ◌++◌, length, Option, IfSome, None, Some, OnOk, OnErr, IfOk, Err, Ok};
ghost use Rattle.rpc_model.specs.CallLines as spec;
ghost use Rattle.rpc_model.specs.Before as before;
ghost use Rattle.rpc_model.specs.Words as words_spec;
ghost use Rattle.rpc_model.specs.Plan.{plan};
ghost use Rattle.rpc_model.specs.Limits.{IsAct, IsMoment, begins};
ghost use Rattle.rpc_model.specs.declared.script.Act.TheVariants as act;
ghost use Rattle.call_script.specs.Judged.{Judged, Gives};
ghost use Rattle.call_script.specs.Sized.{IsSized};

use super::Reader;
use crate::fault::LineFault;
use crate::words::{attempt_word, is_name, number, text};
use chan_tree::{Size, retry_at, size_of};
use rpc_base::Bytes;
use rpc_model::{
    ATTEMPT_WEIGHT, Act, CALL_NUMBER_LIMIT, CODE_LIMIT, Cause, EVENT_LIMIT, LIVE_CALL_LIMIT,
    LIVE_WEIGHT_LIMIT, MOMENT_LIMIT, Mode, SIM_CALL_LIMIT, SIM_WEIGHT_LIMIT,
};

/// The moment, the call and the attempt that a reply or a loss is for.
#[derive(Clone, Copy)]
struct Aim {
    at: u64,
    call: u32,
    node: u32,
    attempt: u32,
}

impl Reader {
    /// How many nodes and possible attempts the plan of a call of this number has, or none where it is too wide.
    fn size_of(&self, chan: u32, call: u32) -> Option<Size>
        requires { chan < length self.now.names }
        ensures { IsSized result (plan self.now.chans chan call) }
    {
        size_of(self.chans.as_slice(), chan, call)
    }

    /// Whether the node is a leaf of the call's plan that may issue the attempt.
    fn has_attempt(&self, chan: u32, call: u32, node: u32, attempt: u32) -> bool
        requires { before.chan_of self.now.acts call ≡ Some chan }
        ensures { result ≡ spec.has_attempt (plan self.now.chans chan call) node attempt }
    {
        let mut root = 0;
        match retry_at(self.chans.as_slice(), chan, call, &mut root, node) {
            Some(retry) => attempt <= retry,
            None => false,
        }
    }

    fn call_limit(&self) -> usize
        ensures value { result ≡ before.call_limit self.now.mode }
        ensures bound { result ≤ 100000 }
    {
        match self.mode {
            Mode::Sim => SIM_CALL_LIMIT,
            Mode::Live => LIVE_CALL_LIMIT,
        }
    }

    fn weight_limit(&self) -> u64
        ensures value { result ≡ before.weight_limit self.now.mode }
        ensures bound { result ≤ 2 ^ 30 }
    {
        match self.mode {
            Mode::Sim => SIM_WEIGHT_LIMIT,
            Mode::Live => LIVE_WEIGHT_LIMIT,
        }
    }

    fn is_sim(&self) -> bool
        ensures { result ≡ before.is_sim self.now.mode }
    {
        matches!(self.mode, Mode::Sim)
    }

    /// The channel of the call of this number, where a line begins it.
    fn chan_of(&self, call: u32) -> Option<u32>
        ensures { result ≡ before.chan_of self.now.acts call }
    {
        self.calls.chan_of(call)
    }

    /// How many calls there are.
    pub(super) fn call_count(&self) -> usize
        ensures { result ≡ length (before.calls_of self.now.acts) }
    {
        self.calls.len()
    }

    /// What all calls weigh.
    fn total_weight(&self) -> u64
        ensures value { result ≡ before.total_weight self.now.chans self.now.acts }
        ensures bound { result ≤ 2 ^ 30 }
    {
        self.weight
    }

    /// The number of a call that no line before begins.
    fn new_call(&self, word: &[u8]) -> Result<u32, Cause>
        ensures call { result ≡ spec.new_call self.now word.now }
        ensures fresh { IfOk result (λ call. before.chan_of self.now.acts call ≡ None) }
    {
        let call = call_number(word)?;
        if self.chan_of(call).is_some() {
            return Err(Cause::DupCall);
        }
        Ok(call)
    }

    /// The number of a call that a line before begins, and its channel.
    fn known_call(&self, word: &[u8]) -> Result<(u32, u32), Cause>
        ensures call { result ≡ spec.known_call self.now word.now }
        ensures known { IfOk result (λ c. before.chan_of self.now.acts c.0 ≡ Some c.1) }
    {
        let call = call_number(word)?;
        match self.chan_of(call) {
            Some(chan) => Ok((call, chan)),
            None => Err(Cause::NoCall),
        }
    }

    /// The number of the channel of this name.
    #[tactic(auto, unfolding(rpc_model::specs::Words::known_name))]
    pub(super) fn known_channel(&self, name: &[u8]) -> Result<u32, Cause>
        ensures chan { result ≡ words_spec.known_name self.now.names name.now }
        ensures known { IfOk result (λ chan. chan < length self.now.names) }
        ensures there { IfOk result (λ chan. chan < length self.now.chans) }
    {
        if !is_name(name) {
            return Err(Cause::BadName);
        }
        match self.names.find(name) {
            Some(chan) => Ok(chan as u32),
            None => Err(Cause::NoName),
        }
    }

    /// One more event or join, where there is room.
    fn push_event(&mut self, act: Act) -> Result<(), LineFault>
        requires moment { IsMoment act }
        requires fit { IsAct (length self.old.chans) act }
        requires event { before.call_of act ≡ [] }
        ensures { Judged result self.new (spec.with_event self.old act) }
    {
        if self.events >= EVENT_LIMIT {
            return Err(LineFault::Refused(Cause::TooMany));
        }
        self.acts.push(act)?;
        self.events += 1;
        Ok(())
    }

    /// One more call, where there is room.
    fn push_call(&mut self, at: u64, call: u32, chan: u32, payload: &[u8]) -> Result<(), LineFault>
        requires moment { at < 2 ^ 53 }
        requires fresh { before.chan_of self.old.acts call ≡ None }
        requires known { chan < length self.old.names }
        requires short { length payload.now ≤ 60000 }
        ensures { Judged result self.new (spec.with_call self.old at call chan payload.now) }
    {
        let Some(size) = self.size_of(chan, call) else {
            return Err(LineFault::Refused(Cause::TooWide));
        };
        if self.call_count() >= self.call_limit() {
            return Err(LineFault::Refused(Cause::TooMany));
        }
        let weight = (payload.len() as u64 + ATTEMPT_WEIGHT) * u64::from(size.attempts);
        if self.total_weight() + weight > self.weight_limit() {
            return Err(LineFault::Refused(Cause::TooMuch));
        }
        let text = Bytes::of(Vec::from_slice(self.alloc, payload)?);
        self.keep_call(at, call, chan, text, weight)
    }

    /// One more call, which weighs so much.
    fn keep_call(
        &mut self,
        at: u64,
        call: u32,
        chan: u32,
        text: Bytes,
        weight: u64,
    ) -> Result<(), LineFault>
        requires moment { at < 2 ^ 53 }
        requires fresh { before.chan_of self.old.acts call ≡ None }
        requires known { chan < length self.old.names }
        requires short { length text ≤ 60000 }
        requires room { length (before.calls_of self.old.acts) < 100000 }
        requires narrow { spec.is_narrow (plan self.old.chans chan call) ≡ true }
        requires weight { weight ≡ before.call_weight self.old.chans chan call text }
        requires light { before.total_weight self.old.chans self.old.acts + weight ≤ 2 ^ 30 }
        ensures call { OnOk result (self.new ≡ spec.with_act self.old (act.Call at call chan text)) }
        ensures cause { OnErr result (result ≡ Err LineFault.Memory) }
    {
        self.acts.push(Act::Call {
            at,
            call,
            chan,
            text,
        })?;
        match self.calls.push(call, chan) {
            Ok(()) => {
                self.weight += weight;
                Ok(())
            }
            Err(_) => {
                self.acts.pop();
                Err(LineFault::Memory)
            }
        }
    }

    /// `at T call C NAME TEXT`
    #[tactic(auto, unfolding(rpc_model::specs::CallLines::call_line))]
    pub(super) fn call_line(
        &mut self,
        at: &[u8],
        call: &[u8],
        name: &[u8],
        payload: &[u8],
    ) -> Result<(), LineFault>
        ensures { Judged result self.new (spec.call_line self.old at.now call.now name.now payload.now) }
    {
        let at = moment(at)?;
        let call = self.new_call(call)?;
        let chan = self.known_channel(name)?;
        let payload = text(payload)?;
        self.push_call(at, call, chan, payload)
    }

    /// `at T reply C NODE#ATTEMPT` and `at T lose C NODE#ATTEMPT`
    #[tactic(auto, unfolding(rpc_model::specs::CallLines::aim))]
    fn aim(&self, at: &[u8], call: &[u8], attempt: &[u8]) -> Result<Aim, LineFault>
        ensures aim { Gives (λ a. record { moment = a.at; call = a.call; node = a.node; attempt = a.attempt }) result (spec.aim self.now at.now call.now attempt.now) }
        ensures bound { IfOk result (λ a. a.at < 2 ^ 53) }
    {
        if !self.is_sim() {
            return Err(LineFault::Refused(Cause::SimOnly));
        }
        let at = moment(at)?;
        let (call, chan) = self.known_call(call)?;
        let (node, attempt) = attempt_word(attempt)?;
        if !self.has_attempt(chan, call, node, attempt) {
            return Err(LineFault::Refused(Cause::BadAttempt));
        }
        Ok(Aim {
            at,
            call,
            node,
            attempt,
        })
    }

    /// `at T reply C NODE#ATTEMPT CODE TEXT`
    #[tactic(auto, unfolding(rpc_model::specs::CallLines::reply_line))]
    pub(super) fn reply_line(
        &mut self,
        at: &[u8],
        call: &[u8],
        attempt: &[u8],
        code: &[u8],
        payload: &[u8],
    ) -> Result<(), LineFault>
        ensures { Judged result self.new (spec.reply_line self.old at.now call.now attempt.now code.now payload.now) }
    {
        let aim = self.aim(at, call, attempt)?;
        let code = number(code, 0, CODE_LIMIT)? as u32;
        let payload = text(payload)?;
        let text = Bytes::of(Vec::from_slice(self.alloc, payload)?);
        self.push_event(Act::Reply {
            at: aim.at,
            call: aim.call,
            node: aim.node,
            attempt: aim.attempt,
            code,
            text,
        })
    }

    /// `at T lose C NODE#ATTEMPT CODE`
    #[tactic(auto, unfolding(rpc_model::specs::CallLines::lose_line))]
    pub(super) fn lose_line(
        &mut self,
        at: &[u8],
        call: &[u8],
        attempt: &[u8],
        code: &[u8],
    ) -> Result<(), LineFault>
        ensures { Judged result self.new (spec.lose_line self.old at.now call.now attempt.now code.now) }
    {
        let aim = self.aim(at, call, attempt)?;
        let code = number(code, 1, CODE_LIMIT)? as u32;
        self.push_event(Act::Lose {
            at: aim.at,
            call: aim.call,
            node: aim.node,
            attempt: aim.attempt,
            code,
        })
    }

    /// `at T cancel C`
    #[tactic(auto, unfolding(rpc_model::specs::CallLines::cancel_line))]
    pub(super) fn cancel_line(&mut self, at: &[u8], call: &[u8]) -> Result<(), LineFault>
        ensures { Judged result self.new (spec.cancel_line self.old at.now call.now) }
    {
        let at = moment(at)?;
        let (call, _) = self.known_call(call)?;
        self.push_event(Act::Cancel { at, call })
    }

    /// `at T tick`
    #[tactic(auto, unfolding(rpc_model::specs::CallLines::tick_line))]
    pub(super) fn tick_line(&mut self, at: &[u8]) -> Result<(), LineFault>
        ensures { Judged result self.new (spec.tick_line self.old at.now) }
    {
        if !self.is_sim() {
            return Err(LineFault::Refused(Cause::SimOnly));
        }
        let at = moment(at)?;
        self.push_event(Act::Tick { at })
    }

    /// `join C`
    #[tactic(auto, unfolding(rpc_model::specs::CallLines::join_line))]
    pub(super) fn join_line(&mut self, call: &[u8]) -> Result<(), LineFault>
        ensures { Judged result self.new (spec.join_line self.old call.now) }
    {
        let (call, _) = self.known_call(call)?;
        self.push_event(Act::Join { call })
    }
}

/// A moment in milliseconds, below 2^53.
fn moment(word: &[u8]) -> Result<u64, Cause>
    ensures value { result ≡ spec.moment word.now }
    ensures bound { IfOk result (λ at. at < 2 ^ 53) }
{
    number(word, 0, MOMENT_LIMIT)
}

/// A call's number, 1 to 1,000,000,000.
fn call_number(word: &[u8]) -> Result<u32, Cause>
    ensures { result ≡ spec.call_number word.now }
{
    let number = number(word, 1, CALL_NUMBER_LIMIT)?;
    Ok(number as u32)
}
