//! Lists of entries whose nodes stand in one vector, linked by numbers, so that an entry goes from one list to another
//! without memory.

ghost use Rattle.std.specs.Prelude.{◌≡◌, ℕ, ◌≢◌, ◌+◌, ◌<◌, ◌↔◌, [], ◌∷◌, ◌++◌, length, set, min, replicate, IsTrue, OnOk, OnErr, MatchOption, ◌≤◌};
ghost use Rattle.timer_core.specs.Chains.{list_at, least_of, rest_of, IsShifted};
ghost use Rattle.timer_core.specs.Wheel.{inserted, IsFirstList};

use crate::entry::Entry;
use crate::links::{
    End, Node, end_of, entry_at, least_from, link_node, mark_longer, mark_shorter, push_node,
    take_node,
};
use bit_set::BitSet;
use rpc_base::NoMemory;
use std::alloc::Global;
use std::marker::Model;

/// The most lists.
const MOST: usize = 4_096;

/// Lists of entries, by number. A contract sees them as a list of lists.
#[derive(Drop)]
pub struct Chains {
    nodes: Vec<Node>,
    ends: Vec<End>,
    // The lists with an entry, list 0 left out.
    used: BitSet,
}

impl Model for Chains {
    ghost use Rattle.std.specs.Prelude.{List};
    ghost use Rattle.timer_core.specs.declared.entry.Entry.{Entry as AnEntry};

    ghost Value = { List (List AnEntry) };

    ghost use Rattle.timer_core.specs.Chains.{lists_of, IsTable};

    ghost view = { λ c. lists_of c.nodes.items c.ends.items };

    ghost invariant = { λ c. IsTable c.nodes.items c.ends.items c.used };
}

impl Chains {
    /// No lists. It takes no memory.
    pub fn open(alloc: Global) -> Chains
        ensures { result ≡ [] }
    {
        Chains {
            nodes: Vec::new(alloc),
            ends: Vec::new(alloc),
            used: BitSet::new(),
        }
    }

    /// How many lists there are.
    pub fn count(&self) -> usize
        ensures { result ≡ length self.now }
    {
        self.ends.len()
    }

    /// Puts an empty list behind the others. Where memory runs out, or there are 4,096 lists, nothing changes.
    pub fn push_list(&mut self) -> Result<(), NoMemory>
        ensures after { OnOk result (self.new ≡ self.old ++ [] ∷ []) }
        ensures failed { OnErr result (self.new ≡ self.old) }
    {
        if self.ends.len() >= MOST {
            return Err(NoMemory);
        }
        self.ends.push(End { head: 0, depth: 0 })?;
        Ok(())
    }

    /// Whether a list has no entry.
    pub fn is_vacant(&self, list: usize) -> bool
        requires { list < length self.now }
        ensures { IsTrue result ↔ (list_at self.now list ≡ []) }
    {
        end_of(&self.ends, list).depth == 0
    }

    /// The first entry of a list.
    pub fn front(&self, list: usize) -> Option<Entry>
        requires { list < length self.now }
        ensures { MatchOption result (list_at self.now list ≡ []) (λ e. list_at self.now list ≡ e ∷ rest_of (list_at self.now list)) }
    {
        let end = end_of(&self.ends, list);
        if end.depth == 0 {
            return None;
        }
        Some(entry_at(&self.nodes, end.head))
    }

    /// The least moment of a list's entries.
    pub fn least(&self, list: usize) -> u64
        requires { list < length self.now }
        ensures { result ≡ least_of (list_at self.now list) }
    {
        let end = end_of(&self.ends, list);
        least_from(&self.nodes, end)
    }

    /// Puts the first entry of one list in front of another. It takes no memory.
    pub fn shift(&mut self, from: usize, to: usize)
        requires apart { from ≢ to }
        requires from_in { from < length self.old }
        requires to_in { to < length self.old }
        requires some { list_at self.old from ≢ [] }
        ensures { IsShifted from to self.old self.new }
    {
        let node = take_node(&self.nodes, &mut self.ends, from);
        let depth = link_node(&mut self.nodes, &mut self.ends, to, node.at, node.entry);
        mark_shorter(&mut self.used, from, node.depth);
        mark_longer(&mut self.used, to, depth);
    }

    /// Puts an entry in front of a list, in a new node. Where memory runs out nothing changes.
    pub fn push(&mut self, list: usize, entry: Entry) -> Result<(), NoMemory>
        requires { list < length self.old }
        ensures after { OnOk result (self.new ≡ set self.old list (entry ∷ list_at self.old list)) }
        ensures failed { OnErr result (self.new ≡ self.old) }
    {
        let depth = push_node(&mut self.nodes, &mut self.ends, list, entry)?;
        mark_longer(&mut self.used, list, depth);
        Ok(())
    }

    /// Puts an entry in front of a list, in a node of list 0 where it has one, else in a new one. Where memory runs out
    /// nothing changes.
    pub fn insert(&mut self, list: usize, entry: Entry) -> Result<(), NoMemory>
        requires used { 0 < list }
        requires list_in { list < length self.old }
        ensures after { OnOk result (self.new ≡ inserted list entry self.old) }
        ensures failed { OnErr result (self.new ≡ self.old) }
    {
        if self.is_vacant(0) {
            self.push(list, entry)?;
            return Ok(());
        }
        self.reuse(list, entry);
        Ok(())
    }

    /// Puts an entry in front of a list, in the first node of list 0.
    fn reuse(&mut self, list: usize, entry: Entry)
        requires used { 0 < list }
        requires list_in { list < length self.old }
        requires some { list_at self.old 0 ≢ [] }
        ensures { self.new ≡ inserted list entry self.old }
    {
        let free = take_node(&self.nodes, &mut self.ends, 0);
        let depth = link_node(&mut self.nodes, &mut self.ends, list, free.at, entry);
        mark_longer(&mut self.used, list, depth);
    }

    /// The first list with an entry, list 0 left out.
    pub fn first_list(&self) -> Option<usize>
        ensures { MatchOption result ((k : ℕ) → 0 < k → list_at self.now k ≡ []) (λ k. IsFirstList self.now k) }
    {
        let Some(list) = self.used.first() else {
            return None;
        };
        Some(list as usize)
    }
}
