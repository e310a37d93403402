ghost use Rattle.std.specs.Prelude.{◌≡◌, [], ◌∷◌, ◌++◌, false, drop, IfOk, OnOk, OnErr};
ghost use Rattle.std.specs.Option.{option_map};
ghost use Rattle.link_core.specs.Outstanding.{call_of, is_outstanding, without, first, IsEachOnce};

use crate::entries::{Entries, call_at, first_waiting, forget, take_call, tidy};
use indexmap::IndexMap;
use rpc_base::NoMemory;
use std::alloc::Global;
use std::marker::Model;

/// The ids that wait for a reply, each with the number of its call. A contract sees them as the list in the order of
/// adding.
///
/// Each call takes constant time over a long run of calls, but for adding an id that was taken out a short time ago,
/// which takes time in proportion to the ids that wait. The memory is in proportion to the most ids that waited at once.
#[derive(Drop)]
pub struct Outstanding {
    entries: Entries,
    /// How many ids wait. There are at most twice as many entries, and one more: beyond that the ids that don't wait any
    /// more are forgotten.
    live: usize,
    /// No id before this place waits.
    front: usize,
}

impl Model for Outstanding {
    ghost use Rattle.std.specs.Prelude.{ℕ, List};
    ghost use Rattle.link_core.specs.Kept.{waiting, AreKept};

    ghost Value = { List (ℕ × ℕ) };

    ghost view = { λ o. waiting o.entries.entries };

    ghost invariant = { λ o. AreKept o.live o.front o.entries.entries };
}

impl Outstanding {
    /// No id waits.
    #[tactic(auto, using(crate::proofs::Waiting::once))]
    pub fn open(alloc: Global) -> Result<Outstanding, NoMemory>
        ensures none { IfOk result (λ waiting. waiting ≡ []) }
        ensures once { IfOk result IsEachOnce }
    {
        Ok(Outstanding {
            entries: IndexMap::new(alloc),
            live: 0,
            front: 0,
        })
    }

    /// Whether an id waits.
    #[tactic(auto, using(crate::proofs::Waiting::once))]
    pub fn is_outstanding(&self, id: u64) -> bool
        ensures answer { result ≡ is_outstanding id self.now }
        ensures once { IsEachOnce self.now }
    {
        call_at(&self.entries, id).is_some()
    }

    /// Adds an id that doesn't wait, behind all others. Where memory runs out nothing changes.
    #[tactic(auto, using(crate::proofs::Waiting::once, crate::proofs::Waiting::added, crate::proofs::Waiting::gone_more, crate::proofs::Waiting::few))]
    pub fn add(&mut self, id: u64, call: u32) -> Result<(), NoMemory>
        requires { is_outstanding id self.old ≡ false }
        ensures added { OnOk result (self.new ≡ self.old ++ (id, call) ∷ []) }
        ensures kept { OnErr result (self.new ≡ self.old) }
        ensures once { IsEachOnce self.new }
    {
        self.front = forget(&mut self.entries, self.front, id);
        self.entries.insert(id, Some(call))?;
        // The length is what says that the count fits.
        let _length = self.entries.len();
        self.live += 1;
        Ok(())
    }

    /// Adds an id behind all others, whether or not it waits already: it waits once then. Where memory runs out it doesn't
    /// wait, and the others wait as before.
    #[tactic(auto, using(crate::proofs::Waiting::once, crate::proofs::Waiting::added, crate::proofs::Waiting::gone_more, crate::proofs::Waiting::few, crate::proofs::Waiting::unknown, crate::proofs::Waiting::unchanged))]
    pub fn renew(&mut self, id: u64, call: u32) -> Result<(), NoMemory>
        ensures added { OnOk result (self.new ≡ without id self.old ++ (id, call) ∷ []) }
        ensures gone { OnErr result (self.new ≡ without id self.old) }
        ensures once { IsEachOnce self.new }
    {
        if let Some(stood) = self.entries.insert(id, Some(call))? {
            // It stood among the entries: it is put back as it was, and then goes behind the others.
            self.entries.insert(id, stood).unwrap();
            self.remove(id);
            return self.add(id, call);
        }
        // The length is what says that the count fits.
        let _length = self.entries.len();
        self.live += 1;
        Ok(())
    }

    /// Takes an id out and answers its call. `None`, with nothing changed, exactly where the id doesn't wait. It takes
    /// no memory.
    #[tactic(auto, using(crate::proofs::Waiting::once, crate::proofs::Waiting::none_live, crate::proofs::Waiting::shorter, crate::proofs::Waiting::unchanged, crate::proofs::Waiting::taken))]
    pub fn remove(&mut self, id: u64) -> Option<u32>
        ensures answer { result ≡ call_of id self.old }
        ensures after { self.new ≡ without id self.old }
        ensures gone { is_outstanding id self.new ≡ false }
        ensures once { IsEachOnce self.new }
    {
        if self.live == 0 {
            return None;
        }
        let call = take_call(&mut self.entries, id)?;
        self.live -= 1;
        self.front = tidy(&mut self.entries, self.live, self.front);
        Some(call)
    }

    /// Takes out the id that was added first, with its call. `None` exactly where no id waits. It takes no memory.
    #[tactic(auto, using(crate::proofs::Waiting::once, crate::proofs::Waiting::first_is, crate::proofs::Waiting::first_out))]
    pub fn take_first(&mut self) -> Option<(u64, u32)>
        ensures answer { result ≡ first self.old }
        ensures after { self.new ≡ drop 1 self.old }
        ensures once { IsEachOnce self.new }
    {
        let id = self.first_id()?;
        match self.remove(id) {
            Some(call) => Some((id, call)),
            None => None,
        }
    }

    /// The id that was added first. It remembers how far it looked.
    #[tactic(auto, using(crate::proofs::Waiting::once))]
    fn first_id(&mut self) -> Option<u64>
        ensures answer { result ≡ option_map (λ e. e.0) (first self.old) }
        ensures same { self.new ≡ self.old }
        ensures once { IsEachOnce self.new }
    {
        self.front = first_waiting(&self.entries, self.front);
        let (id, _) = self.entries.get_index(self.front)?;
        Some(*id)
    }
}
