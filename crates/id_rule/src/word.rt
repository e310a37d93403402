//! The word of a slot. Its layout is this project's own choice: from the low end 16 bits for the head of the errors that
//! wait, 3 for the state, 11 for the size of the range and 32 for its first version; the two highest bits are zero.
ghost use Rattle.std.specs.Prelude.{◌≡◌, ◌==◌, ◌<◌, ◌^◌};
ghost use Rattle.rpc_model.specs.Gone.{code_in, is_live_in};
ghost use Rattle.id_rule.specs.Words.{code_of, unpacked_word, packed_word};

/// What a word says of its slot.
#[derive(Clone, Copy, PartialEq, Eq, Debug)]
pub enum State {
    /// The next range may be reserved.
    Vacant,
    /// A pass has the Spot.
    Reserved,
    /// The range is live, and nobody has its Hold.
    Free,
    /// The range is live, and a pass has its Hold.
    Locked,
    /// The range has ended, and its value waits for the Owner.
    Ended,
    /// No range will be reserved any more.
    Retired,
    /// No slot has this state.
    Unused,
}

/// A word, taken apart.
#[derive(Clone, Copy, PartialEq, Eq, Debug)]
pub struct Word {
    /// The first version of the range, or of the next one for a vacant slot.
    pub first: u32,
    /// The number of versions in the range.
    pub range: u32,
    pub state: State,
    /// The node of the last error that was queued, 0 for none.
    pub head: u32,
}

/// Takes a word apart.
pub fn unpack(word: u64) -> Word
    ensures parts { result ≡ unpacked_word word }
    ensures range { result.range < 2 ^ 11 }
{
    Word {
        first: (word / 1073741824 % 4294967296) as u32,
        range: (word / 524288 % 2048) as u32,
        state: state_of(word),
        head: (word % 65536) as u32,
    }
}

/// Whether the word is that of a vacant slot.
pub fn is_vacant(word: u64) -> bool
    ensures vacant { result ≡ (code_in word == 0) }
{
    word / 65536 % 8 == 0
}

/// Whether the version is live in the word: its range is free or locked, and has the version.
pub fn is_live(word: u64, version: u32) -> bool
    ensures live { result ≡ is_live_in word version }
{
    let code = word / 65536 % 8;
    let first = word / 1073741824 % 4294967296;
    (code == 2 || code == 3)
        && first <= u64::from(version)
        && u64::from(version) < first + word / 524288 % 2048
}

/// Whether the word is that of a locked slot.
pub fn is_locked(word: u64) -> bool
    ensures locked { result ≡ (code_in word == 3) }
{
    word / 65536 % 8 == 3
}

fn state_of(word: u64) -> State
    ensures { result ≡ (unpacked_word word).state }
{
    match word / 65536 % 8 {
        0 => State::Vacant,
        1 => State::Reserved,
        2 => State::Free,
        3 => State::Locked,
        4 => State::Ended,
        5 => State::Retired,
        _ => State::Unused,
    }
}

/// Puts a word together. A range has fewer than 2,048 versions here, and a head is below 65,536.
pub fn pack(first: u32, range: u32, state: State, head: u32) -> u64
    requires range { range < 2 ^ 11 }
    requires head { head < 2 ^ 16 }
    ensures word { result ≡ packed_word first range (code_of state) head }
{
    let code = match state {
        State::Vacant => 0,
        State::Reserved => 1,
        State::Free => 2,
        State::Locked => 3,
        State::Ended => 4,
        State::Retired => 5,
        State::Unused => 6,
    };
    u64::from(first) * 1073741824 + u64::from(range) * 524288 + code * 65536 + u64::from(head)
}
