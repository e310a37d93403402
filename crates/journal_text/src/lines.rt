//! The lines of a journal.

ghost use Rattle.std.specs.Prelude.{◌≡◌, ◌++◌, OnOk, map, string_bytes};
ghost use Rattle.rpc_model.specs.Texts.{line_text, text_of};
ghost use Rattle.rpc_model.specs.declared.line.Line.TheVariants as line;

use crate::words::{how_word, put_bytes, put_event, put_fate, put_number, put_origin, put_word};
use rpc_base::NoMemory;
use rpc_model::{Came, CancelNote, Entry, Fired, How, Line, LossNote, Sent};

/// Appends the line of a call.
pub(crate) fn put_call(
    text: &mut String,
    call: u32,
    first: u64,
    width: u32,
    lane: u32,
    moment: u64,
) -> Result<(), NoMemory>
    ensures { OnOk result (string_bytes text.new ≡ string_bytes text.old ++ line_text (line.Call call first width lane moment)) }
{
    text.push_str("call")?;
    put_number(text, u64::from(call))?;
    put_number(text, first)?;
    put_number(text, u64::from(width))?;
    put_number(text, u64::from(lane))?;
    put_number(text, moment)
}

/// Appends the line that the fired marks follow.
pub(crate) fn put_timer(text: &mut String) -> Result<(), NoMemory>
    ensures { OnOk result (string_bytes text.new ≡ string_bytes text.old ++ line_text line.Timer) }
{
    text.push_str("timer")?;
    Ok(())
}

/// Appends the line of an entry of a log.
fn put_entry(text: &mut String, it: &Entry) -> Result<(), NoMemory>
    ensures { OnOk result (string_bytes text.new ≡ string_bytes text.old ++ line_text (line.Entry it.now)) }
{
    text.push_str("e")?;
    put_number(text, it.moment)?;
    put_event(text, &it.event)?;
    put_origin(text, it.from)
}

/// Appends the line of a server's wire.
pub(crate) fn put_wire(text: &mut String, server: u64, how: How) -> Result<(), NoMemory>
    ensures { OnOk result (string_bytes text.new ≡ string_bytes text.old ++ line_text (line.Wire server how)) }
{
    text.push_str("wire")?;
    put_number(text, server)?;
    put_word(text, how_word(how))
}

/// Appends the line of a request that was sent.
fn put_out(text: &mut String, it: &Sent) -> Result<(), NoMemory>
    ensures { OnOk result (string_bytes text.new ≡ string_bytes text.old ++ line_text (line.Out it.now)) }
{
    text.push_str("out")?;
    put_number(text, it.id)?;
    put_bytes(text, it.payload.list())
}

/// Appends the line of a frame that came in.
fn put_came(text: &mut String, it: &Came) -> Result<(), NoMemory>
    ensures { OnOk result (string_bytes text.new ≡ string_bytes text.old ++ line_text (line.In it.now)) }
{
    text.push_str("in")?;
    put_number(text, it.id)?;
    put_number(text, u64::from(it.code))?;
    put_bytes(text, it.payload.list())?;
    put_fate(text, it.fate)
}

/// Appends the line of a loss.
fn put_loss(text: &mut String, it: &LossNote) -> Result<(), NoMemory>
    ensures { OnOk result (string_bytes text.new ≡ string_bytes text.old ++ line_text (line.Loss it.now)) }
{
    text.push_str("loss")?;
    put_number(text, it.id)?;
    put_number(text, u64::from(it.code))?;
    put_number(text, it.after)?;
    put_fate(text, it.fate)
}

/// Appends the line of a fired mark.
fn put_mark(text: &mut String, it: &Fired) -> Result<(), NoMemory>
    ensures { OnOk result (string_bytes text.new ≡ string_bytes text.old ++ line_text (line.Mark it.entry.now)) }
{
    text.push_str("mark")?;
    put_number(text, it.due)?;
    put_number(text, it.now)?;
    put_number(text, it.id)?;
    put_number(text, u64::from(it.code))?;
    put_fate(text, it.fate)
}

/// Appends the line of a lane.
pub(crate) fn put_lane(text: &mut String, number: u64) -> Result<(), NoMemory>
    ensures { OnOk result (string_bytes text.new ≡ string_bytes text.old ++ line_text (line.Lane number)) }
{
    text.push_str("lane")?;
    put_number(text, number)
}

/// Appends the line of a cancel.
fn put_cancel(text: &mut String, it: &CancelNote) -> Result<(), NoMemory>
    ensures { OnOk result (string_bytes text.new ≡ string_bytes text.old ++ line_text (line.Cancel it.now)) }
{
    text.push_str("cancel")?;
    put_number(text, it.id)?;
    put_fate(text, it.fate)
}

/// Appends the lines of the entries of a log.
#[tactic(auto, unfolding(rpc_model::specs::Texts::text_of))]
pub(crate) fn put_entries(text: &mut String, items: &[Entry]) -> Result<(), NoMemory>
    ensures { OnOk result (string_bytes text.new ≡ string_bytes text.old ++ text_of (map line.Entry items.now)) }
{
    for item in items {
        put_entry(text, item)?;
        text.push_str("\n")?;
    }
    Ok(())
}

/// Appends the lines of requests that were sent.
#[tactic(auto, unfolding(rpc_model::specs::Texts::text_of))]
pub(crate) fn put_outs(text: &mut String, items: &[Sent]) -> Result<(), NoMemory>
    ensures { OnOk result (string_bytes text.new ≡ string_bytes text.old ++ text_of (map line.Out items.now)) }
{
    for item in items {
        put_out(text, item)?;
        text.push_str("\n")?;
    }
    Ok(())
}

/// Appends the lines of frames that came in.
#[tactic(auto, unfolding(rpc_model::specs::Texts::text_of))]
pub(crate) fn put_cames(text: &mut String, items: &[Came]) -> Result<(), NoMemory>
    ensures { OnOk result (string_bytes text.new ≡ string_bytes text.old ++ text_of (map line.In items.now)) }
{
    for item in items {
        put_came(text, item)?;
        text.push_str("\n")?;
    }
    Ok(())
}

/// Appends the lines of losses.
#[tactic(auto, unfolding(rpc_model::specs::Texts::text_of))]
pub(crate) fn put_losses(text: &mut String, items: &[LossNote]) -> Result<(), NoMemory>
    ensures { OnOk result (string_bytes text.new ≡ string_bytes text.old ++ text_of (map line.Loss items.now)) }
{
    for item in items {
        put_loss(text, item)?;
        text.push_str("\n")?;
    }
    Ok(())
}

/// Appends the lines of fired marks.
#[tactic(auto, unfolding(rpc_model::specs::Texts::text_of))]
pub(crate) fn put_marks(text: &mut String, items: &[Fired]) -> Result<(), NoMemory>
    ensures { OnOk result (string_bytes text.new ≡ string_bytes text.old ++ text_of (map line.Mark items.now)) }
{
    for item in items {
        put_mark(text, item)?;
        text.push_str("\n")?;
    }
    Ok(())
}

/// Appends the lines of cancels.
#[tactic(auto, unfolding(rpc_model::specs::Texts::text_of))]
pub(crate) fn put_cancels(text: &mut String, items: &[CancelNote]) -> Result<(), NoMemory>
    ensures { OnOk result (string_bytes text.new ≡ string_bytes text.old ++ text_of (map line.Cancel items.now)) }
{
    for item in items {
        put_cancel(text, item)?;
        text.push_str("\n")?;
    }
    Ok(())
}

/// Appends a line.
pub(crate) fn put_line(text: &mut String, line: &Line) -> Result<(), NoMemory>
    ensures { OnOk result (string_bytes text.new ≡ string_bytes text.old ++ line_text line.now) }
{
    match line {
        Line::Call {
            call,
            first,
            width,
            lane,
            moment,
        } => put_call(text, *call, *first, *width, *lane, *moment),
        Line::Entry(entry) => put_entry(text, entry),
        Line::Wire { server, how } => put_wire(text, *server, *how),
        Line::Out(sent) => put_out(text, sent),
        Line::In(came) => put_came(text, came),
        Line::Loss(loss) => put_loss(text, loss),
        Line::Timer => put_timer(text),
        Line::Mark(mark) => put_mark(text, mark),
        Line::Lane(number) => put_lane(text, *number),
        Line::Cancel(cancel) => put_cancel(text, cancel),
    }
}
