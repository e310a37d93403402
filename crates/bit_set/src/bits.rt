ghost use Rattle.std.specs.Prelude.{◌≡◌, ◌≢◌, ℕ, ◌<◌, ◌≤◌, true, false, MatchOption};
ghost use Rattle.std.specs.Int.{bit_at};
ghost use Rattle.bit_set.specs.Bits.{is_in, IsLeast, AreNone};

use std::marker::Model;

/// How many bits a word has.
const BITS: u32 = 64;

/// A set of numbers below 4096. A contract sees it as its 64 words of 64 bits, and asks by `is_in`.
#[derive(Drop)]
pub struct BitSet {
    // Which words have a bit.
    used: u64,
    words: [u64; 64],
}

impl Model for BitSet {
    ghost use Rattle.std.specs.Prelude.{ℕ, List};
    ghost use Rattle.bit_set.specs.Bits.{AreUsed};

    ghost Value = { List ℕ };

    ghost view = { λ s. s.words };

    ghost invariant = { λ s. AreUsed s.used s.words };
}

impl BitSet {
    /// No number.
    pub fn new() -> BitSet
        ensures { (k : ℕ) → is_in result k ≡ false }
    {
        BitSet {
            used: 0,
            words: [0; 64],
        }
    }

    /// Puts a number in.
    pub fn insert(&mut self, number: u32)
        requires { number < 4096 }
        ensures in_it { is_in self.new number ≡ true }
        ensures others { (k : ℕ) → k ≢ number → is_in self.new k ≡ is_in self.old k }
    {
        let word = (number / BITS) as usize;
        let bits = with_bit(self.words[word], number % BITS);
        self.words[word] = bits;
        self.used = with_bit(self.used, number / BITS);
    }

    /// Takes a number out, if it is there.
    pub fn remove(&mut self, number: u32)
        requires { number < 4096 }
        ensures out { is_in self.new number ≡ false }
        ensures others { (k : ℕ) → k ≢ number → is_in self.new k ≡ is_in self.old k }
    {
        let word = (number / BITS) as usize;
        let bits = without_bit(self.words[word], number % BITS);
        self.words[word] = bits;
        if bits == 0 {
            self.used = without_bit(self.used, number / BITS);
        }
    }

    /// The least number, none where there is none.
    pub fn first(&self) -> Option<u32>
        ensures { MatchOption result (AreNone self.now) (λ k. IsLeast self.now k) }
    {
        if self.used == 0 {
            return None;
        }
        let word = self.used.trailing_zeros();
        let bits = self.words[word as usize];
        Some(word * BITS + bits.trailing_zeros())
    }
}

/// A word with this bit.
fn with_bit(word: u64, bit: u32) -> u64
    requires { bit < 64 }
    ensures in_it { bit_at result bit ≡ 1 }
    ensures others { (k : ℕ) → k ≢ bit → bit_at result k ≡ bit_at word k }
{
    word | 1 << bit
}

/// A word without this bit.
fn without_bit(word: u64, bit: u32) -> u64
    requires { bit < 64 }
    ensures out { bit_at result bit ≡ 0 }
    ensures less { result ≤ word }
    ensures others { (k : ℕ) → k < 64 → k ≢ bit → bit_at result k ≡ bit_at word k }
{
    word & !(1 << bit)
}
