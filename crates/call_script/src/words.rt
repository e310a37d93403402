//! The words of a line: numbers, names, texts and options, each with the cause for which it is refused.

ghost use Rattle.std.specs.Prelude.{◌≡◌, ℕ, ◌+◌, ◌^◌, ◌<◌, ◌≤◌, Ok, Err, MatchOption, IfSome, IfOk, length, position, ◌==◌, bytes_eq};
ghost use Rattle.std.specs.List.{list_all};
ghost use Rattle.std.specs.Option.{option_map};
ghost use Rattle.std.specs.Result.{result_map_both};
ghost use Rattle.rpc_model.specs.Words as spec;
ghost use Rattle.call_script.specs.Spelled.{IsNumber};
ghost use Rattle.rpc_model.specs.Limits.{IsSpelled, IsWait};

use rpc_model::{CODE_LIMIT, Cause, DELAY_LIMIT, Direction, NAME_LIMIT, TEXT_LIMIT, WAIT_LIMIT};

/// Whether each byte is one of `low` to `high`.
pub(crate) fn all_within(bytes: &[u8], low: u8, high: u8) -> bool
    ensures { result ≡ spec.all_within low high bytes.now }
{
    bytes.iter().all(|b| low <= *b && *b <= high)
}

/// Whether the word is this text. Where the text stands in the code, this is a test of the length and of each byte.
#[inline(always)]
pub(crate) fn is_text(word: &[u8], text: &[u8]) -> bool
    ensures { result ≡ bytes_eq word.now text.now }
{
    if word.len() != text.len() {
        return false;
    }
    for at in 0..text.len() {
        if word[at] != text[at] {
            return false;
        }
    }
    true
}

/// The number that the word spells, where all its bytes are digits and it is at most `high`.
fn digits(word: &[u8], high: u64) -> Option<u64>
    requires { high < 2 ^ 60 }
    ensures { IsNumber result (spec.all_within 48 57 word.now) word.now high }
{
    let mut number = 0u64;
    for byte in word {
        let digit = byte.wrapping_sub(b'0');
        if digit > 9 {
            return None;
        }
        number = 10 * number + u64::from(digit);
        if number > high {
            return None;
        }
    }
    Some(number)
}

/// The number that a word of decimal digits without a needless leading zero spells, where it is at most `high`.
fn numeral(word: &[u8], high: u64) -> Option<u64>
    requires { high < 2 ^ 60 }
    ensures { IsNumber result (spec.is_numeral word.now) word.now high }
{
    let Some((first, rest)) = word.split_first() else {
        return None;
    };
    if *first == b'0' && !rest.is_empty() {
        return None;
    }
    digits(word, high)
}

/// A number of `low` to `high`, or the cause where the word isn't one.
#[tactic(auto, unfolding(rpc_model::specs::Words::number_or))]
pub(crate) fn number_or(cause: Cause, word: &[u8], low: u64, high: u64) -> Result<u64, Cause>
    requires { high < 2 ^ 60 }
    ensures value { result ≡ spec.number_or cause low high word.now }
    ensures bound { IfOk result (λ n. n ≤ high) }
    ensures floor { IfOk result (λ n. low ≤ n) }
{
    let Some(number) = numeral(word, high) else {
        return Err(cause);
    };
    if low <= number {
        Ok(number)
    } else {
        Err(cause)
    }
}

/// A number of `low` to `high`.
pub(crate) fn number(word: &[u8], low: u64, high: u64) -> Result<u64, Cause>
    requires { high < 2 ^ 60 }
    ensures value { result ≡ spec.number low high word.now }
    ensures bound { IfOk result (λ n. n ≤ high) }
    ensures floor { IfOk result (λ n. low ≤ n) }
{
    number_or(Cause::BadNumber, word, low, high)
}

fn is_name_byte(byte: u8) -> bool
    ensures { result ≡ spec.is_name_byte byte }
{
    byte.is_ascii_lowercase() || byte.is_ascii_digit() || byte == b'_'
}

fn all_name_bytes(word: &[u8]) -> bool
    ensures { result ≡ list_all spec.is_name_byte word.now }
{
    word.iter().all(|b| is_name_byte(*b))
}

/// Whether the word is a name: 1 to 32 of `a` to `z`, `0` to `9` and `_`.
#[tactic(auto, unfolding(rpc_model::specs::Words::is_name))]
pub(crate) fn is_name(word: &[u8]) -> bool
    ensures { result ≡ spec.is_name word.now }
{
    1 <= word.len() && word.len() <= NAME_LIMIT && all_name_bytes(word)
}

/// The text that the word stands for: a dash alone is the empty text.
#[tactic(auto, unfolding(rpc_model::specs::Words::text))]
pub(crate) fn text(word: &[u8]) -> Result<&[u8], Cause>
    ensures value { result_map_both (λ t. t.now) (λ cause. cause) result ≡ spec.text word.now }
    ensures bound { IfOk result (λ t. length t.now ≤ 60000) }
{
    if word.len() > TEXT_LIMIT {
        return Err(Cause::TextTooLong);
    }
    Ok(if is_text(word, b"-") { &[] } else { word })
}

/// What stands behind the key of a word `key=value`; the key is given with its `=`.
fn value_of<'a>(word: &'a [u8], key: &[u8]) -> Result<&'a [u8], Cause>
    ensures { result_map_both (λ t. t.now) (λ cause. cause) result ≡ spec.value_of key.now word.now }
{
    match word.strip_prefix(key) {
        Some(value) => Ok(value),
        None => Err(Cause::BadOption),
    }
}

/// Milliseconds, or none where the word is `-1`.
#[tactic(auto, unfolding(rpc_model::specs::Words::wait))]
fn wait(word: &[u8]) -> Result<Option<u32>, Cause>
    ensures value { result ≡ spec.wait word.now }
    ensures bound { IfOk result IsWait }
{
    if is_text(word, b"-1") {
        return Ok(None);
    }
    let millis = number(word, 1, WAIT_LIMIT)?;
    Ok(Some(millis as u32))
}

/// The number of a word `key=number`; the key is given with its `=`.
pub(crate) fn number_option(word: &[u8], key: &[u8], low: u64, high: u64) -> Result<u64, Cause>
    requires { high < 2 ^ 60 }
    ensures value { result ≡ spec.number_option key.now low high word.now }
    ensures bound { IfOk result (λ n. n ≤ high) }
{
    let value = value_of(word, key)?;
    number(value, low, high)
}

/// The milliseconds, or none, of a word `key=wait`; the key is given with its `=`.
pub(crate) fn wait_option(word: &[u8], key: &[u8]) -> Result<Option<u32>, Cause>
    ensures value { result ≡ spec.wait_option key.now word.now }
    ensures bound { IfOk result IsWait }
{
    let value = value_of(word, key)?;
    wait(value)
}

/// Where the byte stands first.
pub(crate) fn position_of(word: &[u8], byte: u8) -> Option<usize>
    ensures value { result ≡ position (λ b. b == byte) word.now }
    ensures bound { IfSome result (λ at. at < length word.now) }
{
    word.iter().position(|b| *b == byte)
}

/// The node and the attempt of a word `NODE#ATTEMPT`.
#[tactic(auto, unfolding(rpc_model::specs::Words::attempt_word))]
pub(crate) fn attempt_word(word: &[u8]) -> Result<(u32, u32), Cause>
    ensures { result ≡ spec.attempt_word word.now }
{
    let Some(at) = position_of(word, b'#') else {
        return Err(Cause::BadAttempt);
    };
    let (front, rest) = word.split_at(at);
    let node = number_or(Cause::BadAttempt, front, 0, 4_294_967_295)?;
    let attempt = number_or(Cause::BadAttempt, &rest[1..], 0, 4_294_967_295)?;
    Ok((node as u32, attempt as u32))
}

/// A direction of a server.
#[tactic(auto, unfolding(rpc_model::specs::Words::direction_word))]
pub(crate) fn direction_word(word: &[u8]) -> Result<Direction, Cause>
    ensures value { result ≡ spec.direction_word word.now }
    ensures bound { IfOk result IsSpelled }
{
    if is_text(word, b"ok") {
        return Ok(Direction::Plain);
    }
    if is_text(word, b"drop") {
        return Ok(Direction::Drop);
    }
    if is_text(word, b"twice") {
        return Ok(Direction::Twice);
    }
    if is_text(word, b"close") {
        return Ok(Direction::Close);
    }
    if let Some(code) = word.strip_prefix(b"err=") {
        let code = number_or(Cause::BadWord, code, 1, CODE_LIMIT)?;
        return Ok(Direction::Err(code as u32));
    }
    if let Some(millis) = word.strip_prefix(b"delay=") {
        let millis = number_or(Cause::BadWord, millis, 1, DELAY_LIMIT)?;
        return Ok(Direction::Delay(millis));
    }
    Err(Cause::BadWord)
}
