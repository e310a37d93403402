//! What a replay tells, as text.

ghost use Rattle.std.specs.Prelude.{◌≡◌, ◌++◌, OnOk, OnErr};
ghost use Rattle.std.specs.Fmt.{decimal};
ghost use Rattle.rpc_model.specs.Text.{told_line, refused_text, cause_word, text_word as word_of_text};
ghost use Rattle.rpc_model.specs.declared.told.Told.TheVariants as told;
ghost use Rattle.rpc_model.specs.declared.event.End.TheVariants as end;
ghost use Rattle.call_script.specs.Appending.{Begins};

use itoa::Buffer;
use rpc_base::NoMemory;
use rpc_model::{Cause, End, Told};
use std::alloc::Global;

/// Appends the output line of what was told. After want of memory `to` is as before.
///
/// A line is `C ok ATTEMPTS TEXT`, `C fail CODE ATTEMPTS`, `C open`, `C full` or `C gone`, with the call's number first,
/// the empty text as a dash, and a newline behind it. The lines are this project's own choice.
pub fn write_told(told: &Told, to: &mut Vec<u8>) -> Result<(), NoMemory>
    ensures line { OnOk result (to.new.items ≡ to.old.items ++ told_line told.now) }
    ensures err { OnErr result (to.new.items ≡ to.old.items) }
{
    let before = to.len();
    match put_told(told, to) {
        Ok(()) => Ok(()),
        Err(NoMemory) => {
            to.truncate(before);
            Err(NoMemory)
        }
    }
}

fn put_told(told: &Told, to: &mut Vec<u8>) -> Result<(), NoMemory>
    ensures line { OnOk result (to.new.items ≡ to.old.items ++ told_line told.now) }
    ensures begun { OnErr result (Begins to.old.items to.new.items) }
{
    match told {
        Told::Ended(call, end, attempts) => put_ended(*call, end, *attempts, to),
        Told::Unended(call) => put_number(*call, b" open\n", to),
        Told::Full(call) => put_number(*call, b" full\n", to),
        Told::Gone(call) => put_number(*call, b" gone\n", to),
    }
}

fn put_ended(call: u32, end: &End, attempts: u32, to: &mut Vec<u8>) -> Result<(), NoMemory>
    ensures line { OnOk result (to.new.items ≡ to.old.items ++ told_line (told.Ended call end.now attempts)) }
    ensures begun { OnErr result (Begins to.old.items to.new.items) }
{
    match end {
        End::Good(text) => put_good(call, attempts, text.list(), to),
        End::Bad(code) => put_bad(call, *code, attempts, to),
    }
}

#[tactic(auto, using(crate::proofs::Begun::begun_past))]
fn put_bad(call: u32, code: u32, attempts: u32, to: &mut Vec<u8>) -> Result<(), NoMemory>
    ensures line { OnOk result (to.new.items ≡ to.old.items ++ told_line (told.Ended call (end.Bad code) attempts)) }
    ensures begun { OnErr result (Begins to.old.items to.new.items) }
{
    put_number(call, b" fail ", to)?;
    put_number(code, b" ", to)?;
    put_number(attempts, b"\n", to)?;
    Ok(())
}

#[tactic(auto, using(crate::proofs::Begun::begun_past))]
fn put_good(call: u32, attempts: u32, text: &[u8], to: &mut Vec<u8>) -> Result<(), NoMemory>
    ensures line { OnOk result (to.new.items ≡ to.old.items ++ told_line (told.Ended call (end.Good text.now) attempts)) }
    ensures begun { OnErr result (Begins to.old.items to.new.items) }
{
    put_number(call, b" ok ", to)?;
    put_number(attempts, b" ", to)?;
    to.extend_from_slice(text_word(text))?;
    to.push(b'\n')?;
    Ok(())
}

/// Appends a number and what stands behind it.
#[tactic(auto, using(crate::proofs::Begun::begun_past))]
fn put_number(number: u32, behind: &[u8], to: &mut Vec<u8>) -> Result<(), NoMemory>
    ensures written { OnOk result (to.new.items ≡ to.old.items ++ (decimal number ++ behind.now)) }
    ensures begun { OnErr result (Begins to.old.items to.new.items) }
{
    let mut buffer = Buffer::new();
    to.extend_from_slice(buffer.format(number).as_bytes())?;
    to.extend_from_slice(behind)?;
    Ok(())
}

/// The word that a text is written as: a dash for the empty text.
fn text_word(text: &[u8]) -> &[u8]
    ensures { result.now ≡ word_of_text text.now }
{
    match text {
        [] => b"-",
        _ => text,
    }
}

/// Appends what is written of a script that is refused: `refused LINE CAUSE` and a newline. After want of memory `to` is
/// as before.
pub fn write_refusal(
    alloc: Global,
    line: u32,
    cause: Cause,
    to: &mut Vec<u8>,
) -> Result<(), NoMemory>
    ensures text { OnOk result (to.new.items ≡ to.old.items ++ refused_text line cause) }
    ensures err { OnErr result (to.new.items ≡ to.old.items) }
{
    let cause = word_of_cause(cause);
    let text = format!(in alloc; "refused {line} {cause}\n")?;
    to.extend_from_slice(text.as_bytes())?;
    Ok(())
}

fn word_of_cause(cause: Cause) -> &'static str
    ensures { result.now ≡ cause_word cause }
{
    match cause {
        Cause::TooLong => "TooLong",
        Cause::LineTooLong => "LineTooLong",
        Cause::BadByte => "BadByte",
        Cause::BadLine => "BadLine",
        Cause::SimOnly => "SimOnly",
        Cause::LiveOnly => "LiveOnly",
        Cause::BadNumber => "BadNumber",
        Cause::BadOption => "BadOption",
        Cause::BadName => "BadName",
        Cause::DupName => "DupName",
        Cause::NoName => "NoName",
        Cause::BadSub => "BadSub",
        Cause::BadTag => "BadTag",
        Cause::BadWord => "BadWord",
        Cause::DupCall => "DupCall",
        Cause::NoCall => "NoCall",
        Cause::BadAttempt => "BadAttempt",
        Cause::TextTooLong => "TextTooLong",
        Cause::Late => "Late",
        Cause::MissingPart => "MissingPart",
        Cause::TooDeep => "TooDeep",
        Cause::TooWide => "TooWide",
        Cause::TooMany => "TooMany",
        Cause::TooMuch => "TooMuch",
    }
}
