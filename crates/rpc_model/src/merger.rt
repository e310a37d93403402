use crate::kinds::MergeKind;
use rpc_base::{Bytes, NoMemory};
use std::alloc::Global;

/// A merger's answer for one part.
#[derive(Debug, Drop, PartialEq, Eq)]
pub enum Merged {
    /// This is the next value.
    Merged(Bytes),
    /// The part counts as a failed sub call.
    Fail,
    /// The whole parallel call fails.
    FailAll,
}

/// What came of merging a part into the value so far.
#[derive(Clone, Copy, Debug, PartialEq, Eq)]
pub enum Verdict {
    /// The value is the next one.
    Taken,
    /// The part counts as a failed sub call, and the value is as it was.
    Fail,
    /// The whole parallel call fails.
    FailAll,
}

/// Merges the answer of a sub channel into the value so far: brpc's `ResponseMerger`.
pub trait Merger {
    ghost use Rattle.std.specs.Prelude.{◌≡◌, ℕ, List, Option, IfOk, OnOk};
    ghost use Rattle.std.specs.Option.{option_map};
    ghost use Rattle.rpc_model.specs.declared.merger.Merged.{Merged};
    ghost use Rattle.rpc_model.specs.Kinds.{merged_into};

    /// What it answers, as a function of the value so far, the sub's index and the part.
    ghost answer: { Self → Option (List ℕ) → ℕ → List ℕ → Merged };

    /// What becomes of the value so far, none before the first, with the part of the sub of this index.
    fn merge(
        &self,
        alloc: Global,
        so_far: Option<&[u8]>,
        index: u32,
        part: &[u8],
    ) -> Result<Merged, NoMemory>
        ensures answer { IfOk result (λ merged. merged ≡ answer self.now (option_map (λ s. s.now) so_far.entry) index part.now) };

    /// The same, with the next value in the place of the value so far. A merger that can do this without copying the
    /// value so far writes its own. After want of memory the value is unspecified.
    fn merge_into(
        &self,
        alloc: Global,
        so_far: &mut Option<Bytes>,
        index: u32,
        part: &[u8],
    ) -> Result<Verdict, NoMemory>
        ensures into { IfOk result (λ verdict. (so_far.new, verdict) ≡ merged_into so_far.old (answer self.now so_far.old index part.now)) }
    {
        let merged = match so_far {
            None => self.merge(alloc, None, index, part)?,
            Some(value) => self.merge(alloc, Some(value.list()), index, part)?,
        };
        Ok(put(so_far, merged))
    }
}

impl Merger for MergeKind {
    ghost use Rattle.rpc_model.specs.Kinds.{merge_answer};

    ghost answer = { merge_answer };

    fn merge(
        &self,
        alloc: Global,
        so_far: Option<&[u8]>,
        _index: u32,
        part: &[u8],
    ) -> Result<Merged, NoMemory> {
        match self {
            MergeKind::Cat => Ok(Merged::Merged(joined(alloc, so_far, part)?)),
            MergeKind::Sum => summed(alloc, so_far, part),
            MergeKind::Same => same(alloc, so_far, part),
            MergeKind::Drop => Ok(Merged::Fail),
        }
    }

    fn merge_into(
        &self,
        alloc: Global,
        so_far: &mut Option<Bytes>,
        index: u32,
        part: &[u8],
    ) -> Result<Verdict, NoMemory> {
        if let MergeKind::Cat = self {
            append(alloc, so_far, part)?;
            return Ok(Verdict::Taken);
        }
        let merged = match so_far {
            None => self.merge(alloc, None, index, part)?,
            Some(value) => self.merge(alloc, Some(value.list()), index, part)?,
        };
        Ok(put(so_far, merged))
    }
}

ghost use Rattle.std.specs.Prelude.{◌≡◌, ℕ, ◌+◌, ◌*◌, ◌-◌, ◌^◌, ◌<◌, ◌≤◌, ◌++◌, true, false, [], IfOk, OnOk, Option, None, Some, MatchOption, unwrap_or};
ghost use Rattle.std.specs.Option.{option_map};
ghost use Rattle.rpc_model.specs.Words.{is_numeral as numeral_test, all_within as within_test, digits_after};
ghost use Rattle.rpc_model.specs.Kinds.{is_number as number_test, summed as summed_answer, same_as, merged_into};

/// The value so far followed by the part.
fn joined(alloc: Global, so_far: Option<&[u8]>, part: &[u8]) -> Result<Bytes, NoMemory>
    ensures { IfOk result (λ value. value ≡ unwrap_or (option_map (λ s. s.now) so_far.entry) [] ++ part.now) }
{
    let mut value = Vec::new(alloc);
    if let Some(so_far) = so_far {
        value.extend_from_slice(so_far)?;
    }
    value.extend_from_slice(part)?;
    Ok(Bytes::of(value))
}

/// Puts the next value in the place of the value so far, if there is one.
fn put(so_far: &mut Option<Bytes>, merged: Merged) -> Verdict
    ensures { (so_far.new, result) ≡ merged_into so_far.old merged }
{
    match merged {
        Merged::Merged(value) => {
            *so_far = Some(value);
            Verdict::Taken
        }
        Merged::Fail => Verdict::Fail,
        Merged::FailAll => Verdict::FailAll,
    }
}

/// Puts the part behind the value so far, which isn't copied.
fn append(alloc: Global, so_far: &mut Option<Bytes>, part: &[u8]) -> Result<(), NoMemory>
    ensures { OnOk result (so_far.new ≡ Some (unwrap_or so_far.old [] ++ part.now)) }
{
    let mut value = match so_far.take() {
        None => Vec::new(alloc),
        Some(value) => value.into_vec(),
    };
    value.extend_from_slice(part)?;
    *so_far = Some(Bytes::of(value));
    Ok(())
}

fn copied(alloc: Global, bytes: &[u8]) -> Result<Merged, NoMemory>
    ensures { IfOk result (λ m. m ≡ merged.Merged bytes.now) }
{
    let mut copy = Vec::new(alloc);
    copy.extend_from_slice(bytes)?;
    Ok(Merged::Merged(Bytes::of(copy)))
}

ghost use Rattle.rpc_model.specs.declared.merger.Merged.TheVariants as merged;

/// The part, where there is no value yet or it is the same.
fn same(alloc: Global, so_far: Option<&[u8]>, part: &[u8]) -> Result<Merged, NoMemory>
    ensures { IfOk result (λ merged. merged ≡ same_as (option_map (λ s. s.now) so_far.entry) part.now) }
{
    match so_far {
        None => copied(alloc, part),
        Some(so_far) => {
            if so_far == part {
                copied(alloc, part)
            } else {
                Ok(Merged::FailAll)
            }
        }
    }
}

/// The sum of the value so far and the part, both decimal numbers.
fn summed(alloc: Global, so_far: Option<&[u8]>, part: &[u8]) -> Result<Merged, NoMemory>
    ensures { IfOk result (λ merged. merged ≡ summed_answer (option_map (λ s. s.now) so_far.entry) part.now) }
{
    let Some(so_far) = so_far else {
        return match number(part) {
            None => Ok(Merged::Fail),
            Some(_) => copied(alloc, part),
        };
    };
    let (Some(left), Some(right)) = (number(so_far), number(part)) else {
        return Ok(Merged::Fail);
    };
    match left.checked_add(right) {
        None => Ok(Merged::Fail),
        Some(sum) => Ok(Merged::Merged(Bytes::of(format!(in alloc; "{sum}")?.into_bytes()))),
    }
}

/// The number that the text spells: decimal, without a needless zero in front, of at most u64's greatest.
fn number(text: &[u8]) -> Option<u64>
    ensures { MatchOption result (number_test text.now ≡ false) (λ n. (number_test text.now ≡ true) × (n ≡ digits_after 0 text.now)) }
{
    if !is_numeral(text) {
        return None;
    }
    digits(text)
}

/// Whether the text is decimal digits without a needless zero in front.
fn is_numeral(text: &[u8]) -> bool
    ensures { result ≡ numeral_test text.now }
{
    match text {
        [] => false,
        [first, rest @ ..] => are_digits(text) && (rest.is_empty() || *first != b'0'),
    }
}

fn are_digits(text: &[u8]) -> bool
    ensures { result ≡ within_test 48 57 text.now }
{
    text.iter().all(|b| b'0' <= *b && *b <= b'9')
}

/// The number that the digits spell, where it is at most u64's greatest.
fn digits(text: &[u8]) -> Option<u64>
    ensures { MatchOption result (2 ^ 64 - 1 < digits_after 0 text.now) (λ n. (n ≡ digits_after 0 text.now) × (n ≤ 2 ^ 64 - 1)) }
{
    let mut number = 0u64;
    for digit in text {
        let next = 10 * u128::from(number) + u128::from(digit.saturating_sub(b'0'));
        if next > u128::from(u64::MAX) {
            return None;
        }
        number = next as u64;
    }
    Some(number)
}
