//! The lines of settings.

ghost use Rattle.std.specs.Prelude.{◌≡◌, ◌<◌, map, length, All, IfOk};
ghost use Rattle.rpc_model.specs.SettingLines as spec;
ghost use Rattle.rpc_model.specs.Words as words_spec;
ghost use Rattle.rpc_model.specs.Limits.{IsSpelled};
ghost use Rattle.call_script.specs.Judged.{Gives, Judged};

use super::Reader;
use crate::fault::LineFault;
use crate::words::{direction_word, is_name, number};
use rpc_base::List;
use rpc_model::{Cause, Direction, Mode, SLOT_LIMIT, Serve};
use std::alloc::Global;

impl Reader {
    /// `open N`, before every call line, and once
    #[tactic(auto, unfolding(rpc_model::specs::SettingLines::open_line))]
    pub(super) fn open_line(&mut self, slots: &[u8]) -> Result<(), LineFault>
        ensures { Judged result self.new (spec.open_line self.old slots.now) }
    {
        let slots = number(slots, 1, SLOT_LIMIT)?;
        if self.slots.is_some() || self.call_count() != 0 {
            return Err(LineFault::Refused(Cause::Late));
        }
        self.slots = Some(slots as u32);
        Ok(())
    }

    /// Whether a line says what this server does.
    fn is_served(&self, server: u32) -> bool
        ensures { result ≡ spec.is_served self.now.serves server }
    {
        self.serves.iter().any(|serve| serve.server == server)
    }

    /// The number of a server that a channel line mentions, and of which no line says what it does.
    #[tactic(auto, unfolding(rpc_model::specs::SettingLines::new_server))]
    fn new_server(&self, name: &[u8]) -> Result<u32, Cause>
        ensures server { result ≡ spec.new_server self.now name.now }
        ensures known { IfOk result (λ server. server < length self.now.servers) }
    {
        if !is_name(name) {
            return Err(Cause::BadName);
        }
        let Some(server) = self.servers.find(name) else {
            return Err(Cause::NoName);
        };
        let server = server as u32;
        if self.is_served(server) {
            return Err(Cause::DupName);
        }
        Ok(server)
    }

    /// `serve SERVER DIRECTION ..`, before every call line
    #[tactic(auto, unfolding(rpc_model::specs::SettingLines::serve_line))]
    pub(super) fn serve_line(&mut self, name: &[u8], words: &[&[u8]]) -> Result<(), LineFault>
        ensures { Judged result self.new (spec.serve_line self.old name.now (map (λ w. w.now) words.now)) }
    {
        if matches!(self.mode, Mode::Sim) {
            return Err(LineFault::Refused(Cause::LiveOnly));
        }
        let server = self.new_server(name)?;
        let words = direction_words(self.alloc, words)?;
        if self.call_count() != 0 {
            return Err(LineFault::Refused(Cause::Late));
        }
        self.serves.push(Serve {
            server,
            words: List::of(words),
        })?;
        Ok(())
    }
}

/// Directions, or the cause of the first bad one.
fn direction_words(alloc: Global, words: &[&[u8]]) -> Result<Vec<Direction>, LineFault>
    ensures directions { Gives (λ d. d.items) result (words_spec.direction_words (map (λ w. w.now) words.now)) }
    ensures spelled { IfOk result (λ d. All IsSpelled d.items) }
{
    let mut directions = Vec::new(alloc);
    for word in words {
        let direction = direction_word(word)?;
        directions.push(direction)?;
    }
    Ok(directions)
}
