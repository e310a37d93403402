//! Words of a line that is read: numbers, bytes in hexadecimal, attempts, fates.

ghost use Rattle.std.specs.Prelude.{◌≡◌, ◌==◌, ◌≤◌, ◌<◌, ◌^◌, None, Some, IfOk, IfSome, MatchOption, map};
ghost use Rattle.std.specs.List.{list_all, slice_split};
ghost use Rattle.std.specs.Option.{option_map};
ghost use Rattle.rpc_model.specs.Words.{digits_after};
ghost use Rattle.journal_text.specs.Reading as spec;

use rpc_base::NoMemory;
use rpc_model::{Fate, How};
use std::alloc::{AllocError, Global};

fn all_digits(word: &[u8]) -> bool
    ensures { result ≡ list_all spec.is_digit word.now }
{
    word.iter().all(|b| b'0' <= *b && *b <= b'9')
}

/// The number that the digits spell, where it is at most `most`.
fn digits(word: &[u8], most: u64) -> Option<u64>
    ensures { MatchOption result (most < digits_after 0 word.now) (λ n. (n ≡ digits_after 0 word.now) × (n ≤ most)) }
{
    let mut number = 0u128;
    for digit in word {
        number = 10 * number + u128::from(digit.saturating_sub(b'0'));
        if number > u128::from(most) {
            return None;
        }
    }
    Some(number as u64)
}

/// A number of at most `most`.
#[tactic(auto, unfolding(crate::specs::Reading::number))]
fn number(word: &[u8], most: u64) -> Option<u64>
    ensures value { result ≡ spec.number most word.now }
    ensures bound { IfSome result (λ n. n ≤ most) }
{
    if !all_digits(word) {
        return None;
    }
    digits(word, most)
}

pub(crate) fn number32(word: &[u8]) -> Option<u32>
    ensures { result ≡ spec.number32 word.now }
{
    let number = number(word, 4_294_967_295)?;
    Some(number as u32)
}

pub(crate) fn number64(word: &[u8]) -> Option<u64>
    ensures { result ≡ spec.number64 word.now }
{
    number(word, 18_446_744_073_709_551_615)
}

/// The pieces between the bytes that are `at`.
pub(crate) fn cut<'a>(alloc: Global, bytes: &'a [u8], at: u8) -> Result<Vec<&'a [u8]>, AllocError>
    ensures { IfOk result (λ pieces. map (λ p. p.now) pieces.items ≡ slice_split (λ b. b == at) bytes.now) }
{
    bytes.split(|b| *b == at).collect(alloc)
}

fn both_numbers(words: &[&[u8]]) -> Option<(u32, u32)>
    ensures { result ≡ spec.both_numbers (map (λ w. w.now) words.now) }
{
    match words {
        [a, b] => {
            let node = number32(a)?;
            let attempt = number32(b)?;
            Some((node, attempt))
        }
        _ => None,
    }
}

/// An attempt of a leaf: two numbers with `#` between them.
pub(crate) fn attempt_said(alloc: Global, word: &[u8]) -> Result<Option<(u32, u32)>, NoMemory>
    ensures { IfOk result (λ r. r ≡ spec.attempt_said word.now) }
{
    let words = cut(alloc, word, b'#')?;
    Ok(both_numbers(&words))
}

/// Bytes in hexadecimal, a dash for none.
pub(crate) fn bytes_said(alloc: Global, word: &[u8]) -> Result<Option<Vec<u8>>, NoMemory>
    ensures { IfOk result (λ r. option_map (λ v. v.items) r ≡ spec.bytes_said word.now) }
{
    if *word == *b"-".as_slice() {
        return Ok(Some(Vec::new(alloc)));
    }
    match hex::decode(alloc, word) {
        Ok(bytes) => Ok(Some(bytes)),
        Err(hex::FromHexError::OutOfMemory) => Err(NoMemory),
        Err(_) => Ok(None),
    }
}

pub(crate) fn how_said(word: &[u8]) -> Option<How>
    ensures { result ≡ spec.how_said word.now }
{
    if *word == *b"end".as_slice() {
        Some(How::End)
    } else if *word == *b"fault".as_slice() {
        Some(How::Fault)
    } else if *word == *b"bad".as_slice() {
        Some(How::Bad)
    } else if *word == *b"full".as_slice() {
        Some(How::Full)
    } else {
        None
    }
}

fn fate_of_two(kind: &[u8], a: &[u8]) -> Option<Fate>
    ensures { result ≡ spec.fate_of_two kind.now a.now }
{
    if *kind == *b"gone".as_slice() {
        let word = number64(a)?;
        return Some(Fate::Gone(word));
    }
    if *kind == *b"dropped".as_slice() {
        let call = number32(a)?;
        return Some(Fate::Dropped(call));
    }
    None
}

fn fate_of_three(kind: &[u8], a: &[u8], b: &[u8]) -> Option<Fate>
    ensures { result ≡ spec.fate_of_three kind.now a.now b.now }
{
    if *kind != *b"entry".as_slice() {
        return None;
    }
    let call = number32(a)?;
    let place = number32(b)?;
    Some(Fate::Entry(call, place))
}

/// What became of a source.
pub(crate) fn fate_said(words: &[&[u8]]) -> Option<Fate>
    ensures { result ≡ spec.fate_said (map (λ w. w.now) words.now) }
{
    match words {
        [kind] if **kind == *b"stray".as_slice() => Some(Fate::Stray),
        [kind, a] => fate_of_two(kind, a),
        [kind, a, b] => fate_of_three(kind, a, b),
        _ => None,
    }
}
