//! Names in the order of their first mention.

ghost use Rattle.std.specs.Prelude.{◌≡◌, ◌<◌, [], ◌∷◌, ◌++◌, length, Option, None, Some, Err, OnOk, OnErr, IfSome};
ghost use Rattle.rpc_model.specs.Words.{index_of};

use crate::fault::LineFault;
use crate::words::is_text;
use rpc_base::Bytes;
use std::alloc::Global;
use std::collections::BTreeMap;
use std::marker::Model;

/// So many names are looked at one after the other, which takes less time than a search of the tree.
const FEW_NAMES: usize = 16;

/// Names in the order of their first mention, each once. A name is found in a time that grows with the logarithm of
/// their count.
// A tree and not a hash table, since whoever writes a script chooses its names and could make a fixed hash collide.
#[derive(Drop)]
pub(crate) struct Names {
    alloc: Global,
    names: Vec<Bytes>,
    places: BTreeMap<Vec<u8>, usize>,
}

impl Model for Names {
    ghost use Rattle.std.specs.Prelude.{ℕ, List};
    ghost use Rattle.call_script.specs.Places.{FindsNames};

    ghost Value = { List (List ℕ) };

    ghost view = { λ n. n.names.items };

    ghost invariant = { λ n. FindsNames n.places n.names.items };
}

impl Names {
    pub(crate) fn new(alloc: Global) -> Names
        ensures { result ≡ [] }
    {
        Names {
            alloc,
            names: Vec::new(alloc),
            places: BTreeMap::new(alloc),
        }
    }

    pub(crate) fn len(&self) -> usize
        ensures { result ≡ length self.now }
    {
        self.names.len()
    }

    /// Where a name stands.
    pub(crate) fn find(&self, name: &[u8]) -> Option<usize>
        ensures value { result ≡ index_of self.now name.now }
        ensures bound { IfSome result (λ at. at < length self.now) }
    {
        if self.names.len() <= FEW_NAMES {
            return place_among(&self.names, name);
        }
        self.places.get(name).copied()
    }

    /// One more name. After want of memory the names are as before.
    pub(crate) fn push(&mut self, name: &[u8]) -> Result<(), LineFault>
        requires { index_of self.old name.now ≡ None }
        ensures name { OnOk result (self.new ≡ self.old ++ name.now ∷ []) }
        ensures same { OnErr result (self.new ≡ self.old) }
        ensures cause { OnErr result (result ≡ Err LineFault.Memory) }
    {
        let at = self.names.len();
        let key = Vec::from_slice(self.alloc, name)?;
        let owned = Vec::from_slice(self.alloc, name)?;
        self.names.push(Bytes::of(owned))?;
        match self.places.insert(key, at) {
            Ok(_) => Ok(()),
            Err(_) => {
                self.names.pop();
                Err(LineFault::Memory)
            }
        }
    }
}

/// Where a name stands among these.
fn place_among(names: &[Bytes], name: &[u8]) -> Option<usize>
    ensures { result ≡ index_of names.now name.now }
{
    names.iter().position(|known| is_text(known.list(), name))
}
