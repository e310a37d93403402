ghost use Rattle.std.specs.Prelude.{◌≡◌, ◌<◌, [], ◌∷◌, ◌++◌, length, true, false, MatchOption, IfOk, OnOk, OnErr};
ghost use Rattle.std.specs.Vec.Iter.{into_iter_items};
ghost use Rattle.rpc_model.specs.Fits.{Fits};
ghost use Rattle.rpc_model.specs.Told as spec;
ghost use Rattle.sim_run.specs.Desk.{IsFront};
ghost use Rattle.sim_run.specs.Replaying.{IsUnderWay, left, lines_left};

use crate::planning::Plans;
use crate::state::Replay;
use rpc_base::{List, NoMemory};
use rpc_model::{Act, Script, Told};
use std::alloc::Global;
use std::vec;

/// A replay under way, which tells one thing after the other: what it has yet to tell is `left` of it. A line is given back
/// as soon as it was replayed.
#[derive(Drop)]
pub struct Replaying {
    alloc: Global,
    /// The script without its lines.
    script: Script,
    /// The lines to come.
    acts: vec::IntoIter<Act>,
    replay: Replay,
    plans: Plans,
    /// What a line told, to be handed out.
    told: Vec<Told>,
}

impl Replaying {
    /// Begins the replay of an accepted script. What is left to be told is all that its joins tell.
    pub fn begin(alloc: Global, script: Script) -> Result<Replaying, NoMemory>
        requires { Fits script }
        ensures under_way { IfOk result IsUnderWay }
        ensures left { IfOk result (λ r. left r ≡ spec.told script) }
    {
        let (script, acts) = apart(alloc, script);
        let replay = Replay::open(alloc, &script)?;
        let plans = Plans::open(alloc, &script)?;
        Ok(Replaying {
            alloc,
            script,
            acts: acts.into_iter(),
            replay,
            plans,
            told: Vec::new(alloc),
        })
    }

    /// Replays lines until one tells something, and answers it. `None` exactly where nothing is left to be told. After want
    /// of memory it can't go on.
    pub fn next_told(&mut self) -> Result<Option<Told>, NoMemory>
        requires under_way { IsUnderWay self.old }
        ensures told { IfOk result (λ told. MatchOption told (left self.old ≡ []) (λ t. left self.old ≡ t ∷ left self.new)) }
        ensures under_way { OnOk result (IsUnderWay self.new) }
    {
        'lines: while self.told.is_empty() {
            if !self.replay_line()? {
                return Ok(None);
            }
        }
        Ok(Some(self.told.remove(0)))
    }

    /// Replays the next line, if there is one.
    fn replay_line(&mut self) -> Result<bool, NoMemory>
        requires under_way { IsUnderWay self.old }
        ensures under_way { OnOk result (IsUnderWay self.new) }
        ensures left { OnOk result (left self.new ≡ left self.old) }
        ensures fewer { IfOk result (λ more. more ≡ true → length (lines_left self.new) < length (lines_left self.old)) }
        ensures none { IfOk result (λ more. more ≡ false → (lines_left self.new ≡ []) × (self.new.told ≡ self.old.told)) }
    {
        let Some(act) = next_of(&mut self.acts) else {
            return Ok(false);
        };
        self.replay.step(
            self.alloc,
            &self.script,
            &mut self.plans,
            act,
            &mut self.told,
        )?;
        Ok(true)
    }
}

/// The next one, if there is one.
fn next_of(acts: &mut vec::IntoIter<Act>) -> Option<Act>
    ensures next { MatchOption result (into_iter_items acts.old ≡ []) (λ act. into_iter_items acts.old ≡ act ∷ into_iter_items acts.new) }
    ensures fewer { MatchOption result (into_iter_items acts.new ≡ []) (λ _. length (into_iter_items acts.new) < length (into_iter_items acts.old)) }
{
    acts.next()
}

/// A script without its lines, and these.
fn apart(alloc: Global, script: Script) -> (Script, Vec<Act>)
    ensures rest { result.0 ≡ record script { acts = [] } }
    ensures acts { result.1.items ≡ script.acts }
{
    let Script {
        mode,
        slots,
        servers,
        chans,
        serves,
        acts,
    } = script;
    let rest = Script {
        mode,
        slots,
        servers,
        chans,
        serves,
        acts: List::of(Vec::new(alloc)),
    };
    (rest, acts.into_vec())
}

/// Replays an accepted script, and puts what its joins tell behind what was told before. After want of memory a front of
/// it was put there.
pub fn replay(alloc: Global, script: Script, told: &mut Vec<Told>) -> Result<(), NoMemory>
    requires { Fits script }
    ensures told { OnOk result (told.new.items ≡ told.old.items ++ spec.told script) }
    ensures front { OnErr result (IsFront told.old.items told.new.items (spec.told script)) }
{
    let mut replaying = Replaying::begin(alloc, script)?;
    'told: while let Some(line) = replaying.next_told()? {
        told.push(line)?;
    }
    Ok(())
}
