//! The channels of the lines, with their depths.

ghost use Rattle.std.specs.Prelude.{◌≡◌, ◌∷◌, ◌++◌, [], length, Some, Err, OnOk, OnErr};
ghost use Rattle.rpc_model.specs.Faults as faults;
ghost use Rattle.chan_tree.specs.Sound.{AreSound, IsSound};
ghost use Rattle.chan_tree.specs.Measures.{numbers_of};

use crate::fault::LineFault;
use rpc_model::{Chan, MapKind, MergeKind, Sub};
use std::alloc::Global;
use std::marker::Model;

/// The channels, in the order of their lines. Each one's depth stands beside it, so that that of one more takes a look at
/// its own subs alone.
#[derive(Drop)]
pub(crate) struct Channels {
    chans: Vec<Chan<MapKind, MergeKind>>,
    depths: Vec<u32>,
}

impl Model for Channels {
    ghost use Rattle.std.specs.Prelude.{List};
    ghost use Rattle.rpc_model.specs.declared.chan.Chan.{Chan};
    ghost use Rattle.rpc_model.specs.declared.kinds.MapKind.{MapKind};
    ghost use Rattle.rpc_model.specs.declared.kinds.MergeKind.{MergeKind};
    ghost use Rattle.call_script.specs.Depths.{AreDepths};

    ghost Value = { List (Chan MapKind MergeKind) };

    ghost view = { λ c. c.chans.items };

    ghost invariant = { λ c. AreDepths c.depths.items c.chans.items };
}

impl Channels {
    pub(crate) fn new(alloc: Global) -> Channels
        ensures { result ≡ [] }
    {
        Channels {
            chans: Vec::new(alloc),
            depths: Vec::new(alloc),
        }
    }

    pub(crate) fn as_slice(&self) -> &[Chan<MapKind, MergeKind>]
        ensures { result.now ≡ self.now }
    {
        self.chans.as_slice()
    }

    pub(crate) fn into_vec(self) -> Vec<Chan<MapKind, MergeKind>>
        ensures { result.items ≡ self }
    {
        self.chans
    }

    /// The depth of the channel of this number, or 0 where there is none.
    fn depth_at(&self, number: u32) -> u32
        ensures { result ≡ faults.depth self.now number }
    {
        if number as usize >= self.chans.len() {
            return 0;
        }
        self.depths[number as usize]
    }

    fn deepest_sub(&self, subs: &[Sub<MapKind, MergeKind>]) -> u32
        ensures { result ≡ faults.deepest (faults.depth self.now) (numbers_of subs.now) }
    {
        let mut deepest = 0;
        for sub in subs {
            deepest = deepest.max(self.depth_at(sub.chan));
        }
        deepest
    }

    fn deepest(&self, subs: &[u32]) -> u32
        ensures { result ≡ faults.deepest (faults.depth self.now) subs.now }
    {
        let mut deepest = 0;
        for sub in subs {
            deepest = deepest.max(self.depth_at(*sub));
        }
        deepest
    }

    /// The depth of a channel over these.
    pub(crate) fn depth_of(&self, chan: &Chan<MapKind, MergeKind>) -> u64
        ensures { result ≡ faults.chan_depth (faults.depth self.now) (Some chan.now) }
    {
        match chan {
            Chan::Leaf(_) => 1,
            Chan::Par(par) => u64::from(self.deepest_sub(par.subs.list())) + 1,
            Chan::Sel(sel) => u64::from(self.deepest(sel.subs.list())) + 1,
            Chan::Part(_) => 2,
        }
    }

    /// One more channel, of this depth. After want of memory the channels are as before.
    pub(crate) fn push(
        &mut self,
        chan: Chan<MapKind, MergeKind>,
        depth: u32,
    ) -> Result<(), LineFault>
        requires sound { AreSound 0 self.old }
        requires one { IsSound (length self.old) chan }
        requires depth { depth ≡ faults.chan_depth (faults.depth self.old) (Some chan) }
        ensures channel { OnOk result (self.new ≡ self.old ++ chan ∷ []) }
        ensures same { OnErr result (self.new ≡ self.old) }
        ensures cause { OnErr result (result ≡ Err LineFault.Memory) }
    {
        self.depths.truncate(self.chans.len());
        self.depths.push(depth)?;
        self.chans.push(chan)?;
        Ok(())
    }
}
