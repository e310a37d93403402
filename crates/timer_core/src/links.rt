//! The nodes of lists in one vector, linked by numbers.

ghost use Rattle.std.specs.Prelude.{◌≡◌, ◌+◌, ◌-◌, ◌<◌, ◌≤◌, ◌∷◌, [], ◌++◌, length, set, min, OnOk, OnErr, IfOk, ltb};
ghost use Rattle.timer_core.specs.Chains.{node_at, end_at, blank_node, least_at, unlinked, linked, IsNoted};
ghost use Rattle.bit_set.specs.Bits.{is_in};

use crate::entry::Entry;
use bit_set::BitSet;
use rpc_base::NoMemory;

/// An entry in a list.
#[derive(Clone, Copy)]
pub struct Node {
    pub entry: Entry,
    /// The least moment of the entries from here to the list's end.
    pub least: u64,
    /// The number of the next node, where this one isn't the last.
    pub next: u32,
    /// The list in which it stands.
    pub list: u32,
    /// How many nodes there are from here to the list's end.
    pub depth: u32,
}

/// Where a list begins.
#[derive(Clone, Copy)]
pub struct End {
    /// The number of the first node, where there is one.
    pub head: u32,
    /// How many nodes the list has.
    pub depth: u32,
}

/// A node that was taken from the front of a list.
#[derive(Clone, Copy)]
pub struct Taken {
    /// The number of the node.
    pub at: u32,
    pub entry: Entry,
    /// How many nodes the list had, this one among them.
    pub depth: u32,
}

/// Where a list begins.
pub fn end_of(ends: &Vec<End>, list: usize) -> End
    requires { list < length ends.now.items }
    ensures { result ≡ end_at ends.now.items list }
{
    ends[list]
}

/// The entry of a node.
pub fn entry_at(nodes: &Vec<Node>, at: u32) -> Entry
    requires { at < length nodes.now.items }
    ensures { result ≡ (node_at nodes.now.items at).entry }
{
    nodes[at as usize].entry
}

/// The least moment of the entries from a list's beginning to its end.
pub fn least_from(nodes: &Vec<Node>, end: End) -> u64
    requires { 0 < end.depth → end.head < length nodes.now.items }
    ensures { result ≡ least_at nodes.now.items end }
{
    if end.depth == 0 {
        return u64::MAX;
    }
    nodes[end.head as usize].least
}

/// A node in front of a list.
fn linked_node(nodes: &Vec<Node>, end: End, list: u32, entry: Entry) -> Node
    requires head { 0 < end.depth → end.head < length nodes.now.items }
    requires room { end.depth + 1 < 4294967296 }
    ensures { result ≡ linked nodes.now.items end list entry }
{
    let least = least_from(nodes, end);
    Node {
        entry,
        least: if entry.moment <= least {
            entry.moment
        } else {
            least
        },
        next: end.head,
        list,
        depth: end.depth + 1,
    }
}

/// A list without its first node.
fn behind(node: Node, end: End) -> End
    requires { 0 < end.depth }
    ensures { result ≡ record { head = node.next; depth = end.depth - 1 } }
{
    End {
        head: node.next,
        depth: end.depth - 1,
    }
}

/// Takes the first node from a list. The node stays as it is.
pub fn take_node(nodes: &Vec<Node>, ends: &mut Vec<End>, list: usize) -> Taken
    requires list_in { list < length ends.old.items }
    requires some { 0 < (end_at ends.old.items list).depth }
    requires head { (end_at ends.old.items list).head < length nodes.now.items }
    ensures ends { ends.new.items ≡ set ends.old.items list (unlinked nodes.now.items (end_at ends.old.items list)) }
    ensures at { result.at ≡ (end_at ends.old.items list).head }
    ensures entry { result.entry ≡ (node_at nodes.now.items (end_at ends.old.items list).head).entry }
    ensures depth { result.depth ≡ (end_at ends.old.items list).depth }
{
    let place = &mut ends[list];
    let end = *place;
    let node = nodes[end.head as usize];
    *place = behind(node, end);
    Taken {
        at: end.head,
        entry: node.entry,
        depth: end.depth,
    }
}

/// Puts a node that is in no list in front of one, with an entry. Answers how many nodes the list had before.
pub fn link_node(
    nodes: &mut Vec<Node>,
    ends: &mut Vec<End>,
    list: usize,
    at: u32,
    entry: Entry,
) -> u32
    requires list_in { list < length ends.old.items }
    requires list { list < 4294967296 }
    requires at { at < length nodes.old.items }
    requires head { 0 < (end_at ends.old.items list).depth → (end_at ends.old.items list).head < length nodes.old.items }
    requires room { (end_at ends.old.items list).depth + 1 < 4294967296 }
    ensures nodes { nodes.new.items ≡ set nodes.old.items at (linked nodes.old.items (end_at ends.old.items list) list entry) }
    ensures ends { ends.new.items ≡ set ends.old.items list (record { head = at; depth = (end_at ends.old.items list).depth + 1 }) }
    ensures depth { result ≡ (end_at ends.old.items list).depth }
{
    let place = &mut ends[list];
    let end = *place;
    nodes[at as usize] = linked_node(nodes, end, list as u32, entry);
    *place = End {
        head: at,
        depth: end.depth + 1,
    };
    end.depth
}

/// Puts an entry in front of a list, in a new node. Answers how many nodes the list had before. Where memory runs out,
/// or there are 2^32 - 1 nodes, nothing changes.
pub fn push_node(
    nodes: &mut Vec<Node>,
    ends: &mut Vec<End>,
    list: usize,
    entry: Entry,
) -> Result<u32, NoMemory>
    requires list_in { list < length ends.old.items }
    requires list { list < 4294967296 }
    requires head { 0 < (end_at ends.old.items list).depth → (end_at ends.old.items list).head < length nodes.old.items }
    requires room { (end_at ends.old.items list).depth ≤ length nodes.old.items }
    ensures nodes { OnOk result (nodes.new.items ≡ nodes.old.items ++ linked nodes.old.items (end_at ends.old.items list) list entry ∷ []) }
    ensures ends { OnOk result (ends.new.items ≡ set ends.old.items list (record { head = length nodes.old.items; depth = (end_at ends.old.items list).depth + 1 })) }
    ensures few { OnOk result (length nodes.old.items + 1 < 4294967296) }
    ensures depth { IfOk result (λ depth. depth ≡ (end_at ends.old.items list).depth) }
    ensures failed { OnErr result (nodes.new.items ≡ nodes.old.items) }
    ensures failed_ends { OnErr result (ends.new.items ≡ ends.old.items) }
{
    let count = nodes.len();
    if count >= u32::MAX as usize {
        return Err(NoMemory);
    }
    let place = &mut ends[list];
    let end = *place;
    let node = linked_node(nodes, end, list as u32, entry);
    nodes.push(node)?;
    *place = End {
        head: count as u32,
        depth: end.depth + 1,
    };
    Ok(end.depth)
}

/// Notes a list that had this many entries and has one more now. That changes its note only where it was empty. List 0
/// isn't noted.
pub fn mark_longer(used: &mut BitSet, list: usize, depth: u32)
    requires list_in { list < 4096 }
    requires noted { 0 < list → is_in used.old list ≡ ltb 0 depth }
    ensures { IsNoted list (depth + 1) used.old used.new }
{
    if depth == 0 && list > 0 {
        used.insert(list as u32);
    }
}

/// Notes a list that had this many entries and has one less now. That changes its note only where it is empty now. List
/// 0 isn't noted.
pub fn mark_shorter(used: &mut BitSet, list: usize, depth: u32)
    requires list_in { list < 4096 }
    requires some { 0 < depth }
    requires noted { 0 < list → is_in used.old list ≡ ltb 0 depth }
    ensures { IsNoted list (depth - 1) used.old used.new }
{
    if depth == 1 && list > 0 {
        used.remove(list as u32);
    }
}
