ghost use Rattle.std.specs.Prelude.{◌≡◌, ◌==◌, ◌<◌, nat_eq, position, length, [], ◌∷◌, ◌++◌, None, IfSome, OnOk, OnErr};
ghost use Rattle.std.specs.List.{IsDistinct};
ghost use Rattle.call_numbers.specs.Found as found;

use rpc_base::NoMemory;
use std::alloc::Global;
use std::collections::BTreeMap;
use std::marker::Model;

/// Numbers that differ, in the order in which they were added.
///
/// A number is found at once where the numbers followed each other, and else in a time that grows with the logarithm of
/// their count.
// A tree and not a hash table beside that, since whoever writes a script chooses its numbers and could make a fixed hash
// collide.
#[derive(Drop)]
pub struct Numbers {
    numbers: Vec<u32>,
    /// The places of those that don't stand where the first number says.
    places: BTreeMap<u32, usize>,
}

impl Model for Numbers {
    ghost use Rattle.std.specs.Prelude.{ℕ, List};
    ghost use Rattle.call_numbers.specs.Found.{AreFound};

    ghost Value = { List ℕ };

    ghost view = { λ n. n.numbers.items };

    ghost invariant = { λ n. AreFound n.places n.numbers.items };
}

impl Numbers {
    /// No number yet. It takes no memory.
    pub fn new(alloc: Global) -> Numbers
        ensures { result ≡ [] }
    {
        Numbers {
            numbers: Vec::new(alloc),
            places: BTreeMap::new(alloc),
        }
    }

    /// How many there are.
    pub fn len(&self) -> usize
        ensures { result ≡ length self.now }
    {
        self.numbers.len()
    }

    /// Whether there is none.
    pub fn is_empty(&self) -> bool
        ensures { result ≡ (length self.now == 0) }
    {
        self.numbers.is_empty()
    }

    /// The place of a number, counted from 0: none exactly where it wasn't added.
    pub fn place_of(&self, number: u32) -> Option<usize>
        ensures place { result ≡ position (nat_eq number) self.now }
        ensures there { IfSome result (λ at. at < length self.now) }
        ensures once { IsDistinct nat_eq self.now }
    {
        let at = guess(self.numbers.as_slice(), number);
        if stands(self.numbers.as_slice(), number, at) {
            return Some(at);
        }
        let place = self.places.get(&number)?;
        Some(*place)
    }

    /// Adds a number that isn't there behind all others. After want of memory nothing has changed.
    pub fn push(&mut self, number: u32) -> Result<(), NoMemory>
        requires { position (nat_eq number) self.old ≡ None }
        ensures pushed { OnOk result (self.new ≡ self.old ++ number ∷ []) }
        ensures kept { OnErr result (self.new ≡ self.old) }
        ensures once { IsDistinct nat_eq self.new }
    {
        let place = self.numbers.len();
        let follows = follows(self.numbers.as_slice(), number);
        self.numbers.push(number)?;
        if follows {
            return Ok(());
        }
        match self.places.insert(number, place) {
            Ok(_) => Ok(()),
            Err(_) => {
                self.numbers.pop();
                Err(NoMemory)
            }
        }
    }
}

/// Where a number stands if all follow each other.
fn guess(numbers: &[u32], number: u32) -> usize
    ensures { result ≡ found.guess numbers.now number }
{
    match numbers.first() {
        Some(first) => number.saturating_sub(*first) as usize,
        None => number as usize,
    }
}

/// Whether a number stands at a place.
fn stands(numbers: &[u32], number: u32, place: usize) -> bool
    ensures { result ≡ found.stands numbers.now number place }
{
    match numbers.get(place) {
        Some(other) => number == *other,
        None => false,
    }
}

/// Whether a number follows the others, as each of them the one before, or is the first.
fn follows(numbers: &[u32], number: u32) -> bool
    ensures { result ≡ found.follows numbers.now number }
{
    numbers.is_empty() || guess(numbers, number) == numbers.len()
}
