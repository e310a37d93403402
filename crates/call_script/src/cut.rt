//! Pieces of a line.

ghost use Rattle.std.specs.Prelude.{◌≡◌, ◌<◌, ◌≤◌, ◌==◌, not, map, take, length, position, IfOk, IfSome};
ghost use Rattle.std.specs.List.{slice_split};
ghost use Rattle.std.specs.Char.{is_ascii_graphic};
ghost use Rattle.call_script.specs.Spelled.{AreFewWords, line_of};

use crate::words::position_of;
use smallvec::SmallVec;
use std::alloc::{AllocError, Global};

/// So many pieces take no memory: those of a line whose kind has a fixed number of words, which is seven at most.
pub(crate) const FEW: usize = 8;

/// Room for the words of such a line.
pub(crate) type Few<'a> = [&'a [u8]; FEW];

/// The pieces of a line or of a word.
pub(crate) type Pieces<'a> = SmallVec<&'a [u8], FEW>;

/// The pieces between the bytes that are `at`.
pub(crate) fn cut<'a>(alloc: Global, bytes: &'a [u8], at: u8) -> Result<Pieces<'a>, AllocError>
    ensures { IfOk result (λ pieces. map (λ p. p.now) pieces.items ≡ slice_split (λ b. b == at) bytes.now) }
{
    let mut pieces = SmallVec::new(alloc);
    pieces.extend(bytes.split(|b| *b == at))?;
    Ok(pieces)
}

/// How many words a line has, and how many bytes.
#[derive(Clone, Copy)]
pub(crate) struct FewWords {
    pub(crate) count: usize,
    pub(crate) length: usize,
}

/// The words of the first line of a text, which then stand first in `few`: where each byte is right, no word is empty,
/// `few` has room for them, and the line is no comment. Each byte is looked at once, the newline too.
pub(crate) fn few_words<'a>(text: &'a [u8], few: &mut Few<'a>) -> Option<FewWords>
    ensures words { IfSome result (λ found. AreFewWords (line_of text.now) (map (λ w. w.now) (take found.count few.new))) }
    ensures room { IfSome result (λ found. found.count ≤ 8) }
    ensures length { IfSome result (λ found. found.length ≡ length (line_of text.now)) }
{
    if text.starts_with(b"#") {
        return None;
    }
    let mut rest = text;
    let mut count = 0;
    while let Some(at) = special_byte(rest) {
        let (word, behind) = rest.split_at(at);
        if at == 0 || count == FEW {
            return None;
        }
        few[count] = word;
        count += 1;
        if behind[0] == b'\n' {
            let length = text.len() - behind.len();
            return Some(FewWords { count, length });
        }
        if behind[0] != b' ' {
            return None;
        }
        rest = &behind[1..];
    }
    if rest.is_empty() || count == FEW {
        return None;
    }
    few[count] = rest;
    Some(FewWords {
        count: count + 1,
        length: text.len(),
    })
}

/// How many bytes the first line of a text has, where this is what was found of its words.
pub(crate) fn line_length(text: &[u8], found: Option<FewWords>) -> usize
    requires { IfSome found (λ found. found.length ≡ length (line_of text.now)) }
    ensures { result ≡ length (line_of text.now) }
{
    match found {
        Some(words) => words.length,
        None => newline_place(text),
    }
}

/// Where the first newline stands, or the end.
fn newline_place(text: &[u8]) -> usize
    ensures { result ≡ length (line_of text.now) }
{
    match position_of(text, b'\n') {
        Some(at) => at,
        None => text.len(),
    }
}

/// Where the first byte stands that is no part of a word.
fn special_byte(bytes: &[u8]) -> Option<usize>
    ensures value { result ≡ position (λ b. not (is_ascii_graphic b)) bytes.now }
    ensures bound { IfSome result (λ at. at < length bytes.now) }
{
    bytes.iter().position(|b| !b.is_ascii_graphic())
}
