//! What the lines read so far say, and how one more line is judged by them.

ghost use Rattle.std.specs.Prelude.{◌≡◌, ℕ, ◌≤◌};
ghost use Rattle.rpc_model.specs.Before.{nothing};
ghost use Rattle.rpc_model.specs.Fits.{Fits};
ghost use Rattle.rpc_model.specs.Script.{script_of};

mod call_lines;
mod channel_lines;
mod lines;
mod over_lines;
mod part_lines;
mod setting_lines;

use crate::calls::Calls;
use crate::channels::Channels;
use crate::names::Names;
use rpc_base::List;
use rpc_model::{Act, DEFAULT_SLOTS, Mode, Script, Serve};
use std::alloc::Global;
use std::marker::Model;

/// What all lines so far say. Beside it stand what is looked up and what is counted: the calls with their channels, how
/// many lines are events or joins, and the sum of what the calls weigh.
#[derive(Drop)]
pub(crate) struct Reader {
    alloc: Global,
    mode: Mode,
    slots: Option<u32>,
    names: Names,
    servers: Names,
    chans: Channels,
    serves: Vec<Serve>,
    acts: Vec<Act>,
    calls: Calls,
    events: u64,
    weight: u64,
}

impl Model for Reader {
    ghost use Rattle.rpc_model.specs.Before.{Before};

    ghost Value = { Before };

    ghost use Rattle.call_script.specs.Within.{IsWithin};

    ghost view = { λ r. record { mode = r.mode; slots = r.slots; names = r.names; servers = r.servers; chans = r.chans; serves = r.serves.items; acts = r.acts.items } };

    ghost invariant = { λ r. IsWithin r.slots r.names r.servers r.chans r.serves.items r.acts.items r.calls r.events r.weight };
}

impl Reader {
    pub(crate) fn new(alloc: Global, mode: Mode) -> Reader
        ensures { result ≡ nothing mode }
    {
        Reader {
            alloc,
            mode,
            slots: None,
            names: Names::new(alloc),
            servers: Names::new(alloc),
            chans: Channels::new(alloc),
            serves: Vec::new(alloc),
            acts: Vec::new(alloc),
            calls: Calls::new(alloc),
            events: 0,
            weight: 0,
        }
    }

    /// The script that the lines spell.
    #[tactic(auto, using(crate::proofs::Kept::lines_are))]
    pub(crate) fn into_script(self) -> Script
        ensures script { result ≡ script_of self }
        ensures fits { Fits result }
    {
        Script {
            mode: self.mode,
            slots: self.slots.unwrap_or(DEFAULT_SLOTS),
            servers: self.servers.len() as u32,
            chans: List::of(self.chans.into_vec()),
            serves: List::of(self.serves),
            acts: List::of(self.acts),
        }
    }
}
