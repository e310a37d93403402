//! The line that sums up what the joins of a script told.

ghost use Rattle.std.specs.Prelude.{◌≡◌, ◌++◌, IfOk, OnOk, string_bytes, count_by, sum_by};
ghost use Rattle.std.specs.Fmt.{decimal};
ghost use Rattle.brpc_top.specs.Summary as spec;

use rpc_base::NoMemory;
use rpc_model::{End, Told};
use std::alloc::Global;

/// The line that sums up what the joins of a script of so many calls told.
pub(crate) fn summary_of(alloc: Global, calls: u32, told: &[Told]) -> Result<Vec<u8>, NoMemory>
    ensures { IfOk result (λ text. text.items ≡ spec.summary calls told.now) }
{
    let ok = good_count(told);
    let fail = bad_count(told);
    let open = unended_count(told);
    let full = full_count(told);
    let attempts = attempts_in(told);
    let mut text = String::new(alloc);
    put(alloc, &mut text, "calls ", calls as u128)?;
    put(alloc, &mut text, " ok ", ok as u128)?;
    put(alloc, &mut text, " fail ", fail as u128)?;
    put(alloc, &mut text, " open ", open as u128)?;
    put(alloc, &mut text, " full ", full as u128)?;
    put(alloc, &mut text, " attempts ", attempts)?;
    text.push_str("\n")?;
    Ok(text.into_bytes())
}

/// Appends the label and the number.
fn put(alloc: Global, text: &mut String, label: &str, number: u128) -> Result<(), NoMemory>
    ensures { OnOk result (string_bytes text.new ≡ string_bytes text.old ++ label.now ++ decimal number) }
{
    let digits = format!(in alloc; "{number}")?;
    text.push_str(label)?;
    text.push_str(digits.as_str())?;
    Ok(())
}

fn good_count(told: &[Told]) -> usize
    ensures { result ≡ count_by spec.is_good told.now }
{
    told.iter().filter(|line| is_good(line)).count()
}

fn bad_count(told: &[Told]) -> usize
    ensures { result ≡ count_by spec.is_bad told.now }
{
    told.iter().filter(|line| is_bad(line)).count()
}

fn unended_count(told: &[Told]) -> usize
    ensures { result ≡ count_by spec.is_unended told.now }
{
    told.iter().filter(|line| is_unended(line)).count()
}

fn full_count(told: &[Told]) -> usize
    ensures { result ≡ count_by spec.is_full told.now }
{
    told.iter().filter(|line| is_full(line)).count()
}

/// The sum of the attempts that the lines tell.
fn attempts_in(told: &[Told]) -> u128
    ensures { result ≡ sum_by spec.attempts_of told.now }
{
    let _count = told.len();
    let mut sum = 0;
    for line in told {
        sum += u128::from(attempts_of(line));
    }
    sum
}

fn attempts_of(line: &Told) -> u32
    ensures { result ≡ spec.attempts_of line.now }
{
    match line {
        Told::Ended(_, _, attempts) => *attempts,
        Told::Unended(_) | Told::Full(_) | Told::Gone(_) => 0,
    }
}

fn is_good(line: &Told) -> bool
    ensures { result ≡ spec.is_good line.now }
{
    match line {
        Told::Ended(_, End::Good(_), _) => true,
        _ => false,
    }
}

fn is_bad(line: &Told) -> bool
    ensures { result ≡ spec.is_bad line.now }
{
    match line {
        Told::Ended(_, End::Bad(_), _) => true,
        _ => false,
    }
}

fn is_unended(line: &Told) -> bool
    ensures { result ≡ spec.is_unended line.now }
{
    match line {
        Told::Unended(_) => true,
        _ => false,
    }
}

fn is_full(line: &Told) -> bool
    ensures { result ≡ spec.is_full line.now }
{
    match line {
        Told::Full(_) => true,
        _ => false,
    }
}
