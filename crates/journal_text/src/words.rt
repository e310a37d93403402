//! Words of a line, each behind a space.

ghost use Rattle.std.specs.Prelude.{◌≡◌, ◌++◌, ◌∷◌, [], OnOk, string_bytes};
ghost use Rattle.std.specs.Fmt.{decimal};
ghost use Rattle.rpc_model.specs.Texts.{words_behind, hex_word, attempt_word, event_words, origin_words, fate_words, how_word as word_of_how};

use rpc_base::NoMemory;
use rpc_model::{Event, Fate, How, Origin};

/// Appends a word.
pub(crate) fn put_word(line: &mut String, word: &str) -> Result<(), NoMemory>
    ensures { OnOk result (string_bytes line.new ≡ words_behind (string_bytes line.old) (word.now ∷ [])) }
{
    line.push_str(" ")?;
    line.push_str(word)?;
    Ok(())
}

/// Appends a number.
pub(crate) fn put_number(line: &mut String, number: u64) -> Result<(), NoMemory>
    ensures { OnOk result (string_bytes line.new ≡ words_behind (string_bytes line.old) (decimal number ∷ [])) }
{
    write!(line, " {number}")?;
    Ok(())
}

/// Appends bytes in hexadecimal, a dash for none.
pub(crate) fn put_bytes(line: &mut String, bytes: &[u8]) -> Result<(), NoMemory>
    ensures { OnOk result (string_bytes line.new ≡ words_behind (string_bytes line.old) (hex_word bytes.now ∷ [])) }
{
    match bytes {
        [] => put_word(line, "-"),
        _ => {
            let alloc = *line.allocator();
            put_word(line, hex::encode(alloc, bytes)?.as_str())
        }
    }
}

/// Appends an attempt of a leaf.
pub(crate) fn put_attempt(line: &mut String, node: u32, attempt: u32) -> Result<(), NoMemory>
    ensures { OnOk result (string_bytes line.new ≡ words_behind (string_bytes line.old) (attempt_word node attempt ∷ [])) }
{
    write!(line, " {node}#{attempt}")?;
    Ok(())
}

/// Appends an event.
pub(crate) fn put_event(line: &mut String, event: &Event) -> Result<(), NoMemory>
    ensures { OnOk result (string_bytes line.new ≡ words_behind (string_bytes line.old) (event_words event.now)) }
{
    match event {
        Event::Reply {
            node,
            attempt,
            code,
            text,
        } => {
            put_word(line, "reply")?;
            put_attempt(line, *node, *attempt)?;
            put_number(line, u64::from(*code))?;
            put_bytes(line, text.list())
        }
        Event::Lost {
            node,
            attempt,
            code,
        } => {
            put_word(line, "lost")?;
            put_attempt(line, *node, *attempt)?;
            put_number(line, u64::from(*code))
        }
        Event::Backup { node } => {
            put_word(line, "backup")?;
            put_number(line, u64::from(*node))
        }
        Event::Deadline { node } => {
            put_word(line, "deadline")?;
            put_number(line, u64::from(*node))
        }
        Event::Cancel => put_word(line, "cancel"),
    }
}

/// Appends the place of an entry's source.
pub(crate) fn put_origin(line: &mut String, from: Origin) -> Result<(), NoMemory>
    ensures { OnOk result (string_bytes line.new ≡ words_behind (string_bytes line.old) (origin_words from)) }
{
    match from {
        Origin::Frame { wire, place } | Origin::Loss { wire, place } => {
            put_number(line, u64::from(wire))?;
            put_number(line, place)
        }
        Origin::Mark { place } => put_number(line, place),
        Origin::Lane { lane, place } => {
            put_number(line, u64::from(lane))?;
            put_number(line, place)
        }
        Origin::Queued { .. } => Ok(()),
    }
}

/// Appends what became of a source.
pub(crate) fn put_fate(line: &mut String, fate: Fate) -> Result<(), NoMemory>
    ensures { OnOk result (string_bytes line.new ≡ words_behind (string_bytes line.old) (fate_words fate)) }
{
    match fate {
        Fate::Entry(call, place) => {
            put_word(line, "entry")?;
            put_number(line, u64::from(call))?;
            put_number(line, u64::from(place))
        }
        Fate::Gone(word) => {
            put_word(line, "gone")?;
            put_number(line, word)
        }
        Fate::Stray => put_word(line, "stray"),
        Fate::Dropped(call) => {
            put_word(line, "dropped")?;
            put_number(line, u64::from(call))
        }
        Fate::Queued(..) => Ok(()),
    }
}

/// The word of how a wire ended.
pub(crate) fn how_word(how: How) -> &'static str
    ensures { result.now ≡ word_of_how how }
{
    match how {
        How::End => "end",
        How::Fault => "fault",
        How::Bad => "bad",
        How::Full => "full",
    }
}
