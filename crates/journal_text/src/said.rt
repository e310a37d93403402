//! A line that is read, by its words.

ghost use Rattle.std.specs.Prelude.{◌≡◌, IfOk, map};
ghost use Rattle.journal_text.specs.Reading as spec;

use crate::kinds::is_line;
use crate::lines::put_line;
use crate::numbers::{attempt_said, bytes_said, cut, fate_said, how_said, number32, number64};
use rpc_base::{Bytes, NoMemory};
use rpc_model::{Came, CancelNote, Entry, Event, Fired, Line, LossNote, Origin, Sent};
use std::alloc::Global;

/// The line that these bytes spell: one whose text they are.
#[tactic(auto, unfolding(crate::specs::Reading::line_of))]
pub(crate) fn line_of(alloc: Global, bytes: &[u8]) -> Result<Option<Line>, NoMemory>
    ensures { IfOk result (λ r. r ≡ spec.line_of bytes.now) }
{
    let words = cut(alloc, bytes, b' ')?;
    let Some(line) = words_said(alloc, &words)? else {
        return Ok(None);
    };
    let mut text = String::new(alloc);
    put_line(&mut text, &line)?;
    if !is_line(&line) || *text.as_bytes() != *bytes {
        return Ok(None);
    }
    Ok(Some(line))
}

/// What the words of a line say.
fn words_said(alloc: Global, words: &[&[u8]]) -> Result<Option<Line>, NoMemory>
    ensures { IfOk result (λ r. r ≡ spec.words_said (map (λ w. w.now) words.now)) }
{
    let Some((kind, rest)) = words.split_first() else {
        return Ok(None);
    };
    line_said(alloc, kind, rest)
}

/// What the words behind a first word say.
#[tactic(auto, unfolding(crate::specs::Reading::line_said))]
fn line_said(alloc: Global, kind: &[u8], words: &[&[u8]]) -> Result<Option<Line>, NoMemory>
    ensures { IfOk result (λ r. r ≡ spec.line_said kind.now (map (λ w. w.now) words.now)) }
{
    if *kind == *b"call".as_slice() {
        return Ok(call_said(words));
    }
    if *kind == *b"e".as_slice() {
        return entry_said(alloc, words);
    }
    if *kind == *b"wire".as_slice() {
        return Ok(wire_said(words));
    }
    if *kind == *b"out".as_slice() {
        return out_said(alloc, words);
    }
    if *kind == *b"in".as_slice() {
        return in_said(alloc, words);
    }
    if *kind == *b"loss".as_slice() {
        return Ok(loss_said(words));
    }
    if *kind == *b"timer".as_slice() {
        return Ok(timer_said(words));
    }
    if *kind == *b"mark".as_slice() {
        return Ok(mark_said(words));
    }
    if *kind == *b"lane".as_slice() {
        return Ok(lane_said(words));
    }
    if *kind == *b"cancel".as_slice() {
        return Ok(cancel_said(words));
    }
    Ok(None)
}

fn call_said(words: &[&[u8]]) -> Option<Line>
    ensures { result ≡ spec.call_said (map (λ w. w.now) words.now) }
{
    match words {
        [a, b, c, d, e] => {
            let call = number32(a)?;
            let first = number64(b)?;
            let width = number32(c)?;
            let lane = number32(d)?;
            let moment = number64(e)?;
            Some(Line::Call {
                call,
                first,
                width,
                lane,
                moment,
            })
        }
        _ => None,
    }
}

fn entry_said(alloc: Global, words: &[&[u8]]) -> Result<Option<Line>, NoMemory>
    ensures { IfOk result (λ r. r ≡ spec.entry_said (map (λ w. w.now) words.now)) }
{
    match words {
        [at, kind, a, b] => Ok(short_said(at, kind, a, b)),
        [at, kind, a, b, c, d] => lost_said(alloc, at, kind, a, b, c, d),
        [at, kind, a, b, c, d, e] => reply_said(alloc, at, kind, a, b, c, d, e),
        _ => Ok(None),
    }
}

/// A backup request, a deadline or a cancel.
fn short_said(at: &[u8], kind: &[u8], a: &[u8], b: &[u8]) -> Option<Line>
    ensures { result ≡ spec.short_said at.now kind.now a.now b.now }
{
    let moment = number64(at)?;
    let number = number32(a)?;
    let place = number64(b)?;
    short_event(kind, moment, number, place)
}

fn short_event(kind: &[u8], moment: u64, number: u32, place: u64) -> Option<Line>
    ensures { result ≡ spec.short_event kind.now moment number place }
{
    if *kind == *b"backup".as_slice() {
        return Some(Line::Entry(Entry {
            event: Event::Backup { node: number },
            moment,
            from: Origin::Mark { place },
        }));
    }
    if *kind == *b"deadline".as_slice() {
        return Some(Line::Entry(Entry {
            event: Event::Deadline { node: number },
            moment,
            from: Origin::Mark { place },
        }));
    }
    if *kind == *b"cancel".as_slice() {
        return Some(Line::Entry(Entry {
            event: Event::Cancel,
            moment,
            from: Origin::Lane {
                lane: number,
                place,
            },
        }));
    }
    None
}

fn lost_said(
    alloc: Global,
    at: &[u8],
    kind: &[u8],
    a: &[u8],
    b: &[u8],
    c: &[u8],
    d: &[u8],
) -> Result<Option<Line>, NoMemory>
    ensures { IfOk result (λ r. r ≡ spec.lost_said at.now kind.now a.now b.now c.now d.now) }
{
    if *kind != *b"lost".as_slice() {
        return Ok(None);
    }
    let Some(moment) = number64(at) else {
        return Ok(None);
    };
    let Some((node, attempt)) = attempt_said(alloc, a)? else {
        return Ok(None);
    };
    let Some(code) = number32(b) else {
        return Ok(None);
    };
    let Some(wire) = number32(c) else {
        return Ok(None);
    };
    let Some(place) = number64(d) else {
        return Ok(None);
    };
    Ok(Some(Line::Entry(Entry {
        event: Event::Lost {
            node,
            attempt,
            code,
        },
        moment,
        from: Origin::Loss { wire, place },
    })))
}

fn reply_said(
    alloc: Global,
    at: &[u8],
    kind: &[u8],
    a: &[u8],
    b: &[u8],
    c: &[u8],
    d: &[u8],
    e: &[u8],
) -> Result<Option<Line>, NoMemory>
    ensures { IfOk result (λ r. r ≡ spec.reply_said at.now kind.now a.now b.now c.now d.now e.now) }
{
    if *kind != *b"reply".as_slice() {
        return Ok(None);
    }
    let Some(moment) = number64(at) else {
        return Ok(None);
    };
    let Some((node, attempt)) = attempt_said(alloc, a)? else {
        return Ok(None);
    };
    let Some(code) = number32(b) else {
        return Ok(None);
    };
    let Some(text) = bytes_said(alloc, c)? else {
        return Ok(None);
    };
    let Some(wire) = number32(d) else {
        return Ok(None);
    };
    let Some(place) = number64(e) else {
        return Ok(None);
    };
    Ok(Some(Line::Entry(Entry {
        event: Event::Reply {
            node,
            attempt,
            code,
            text: Bytes::of(text),
        },
        moment,
        from: Origin::Frame { wire, place },
    })))
}

fn wire_said(words: &[&[u8]]) -> Option<Line>
    ensures { result ≡ spec.wire_said (map (λ w. w.now) words.now) }
{
    match words {
        [a, b] => {
            let server = number64(a)?;
            let how = how_said(b)?;
            Some(Line::Wire { server, how })
        }
        _ => None,
    }
}

fn out_said(alloc: Global, words: &[&[u8]]) -> Result<Option<Line>, NoMemory>
    ensures { IfOk result (λ r. r ≡ spec.out_said (map (λ w. w.now) words.now)) }
{
    match words {
        [a, b] => {
            let Some(id) = number64(a) else {
                return Ok(None);
            };
            let Some(payload) = bytes_said(alloc, b)? else {
                return Ok(None);
            };
            Ok(Some(Line::Out(Sent {
                id,
                payload: Bytes::of(payload),
            })))
        }
        _ => Ok(None),
    }
}

fn in_said(alloc: Global, words: &[&[u8]]) -> Result<Option<Line>, NoMemory>
    ensures { IfOk result (λ r. r ≡ spec.in_said (map (λ w. w.now) words.now)) }
{
    match words {
        [a, b, c, rest @ ..] => {
            let Some(id) = number64(a) else {
                return Ok(None);
            };
            let Some(code) = number32(b) else {
                return Ok(None);
            };
            let Some(payload) = bytes_said(alloc, c)? else {
                return Ok(None);
            };
            let Some(fate) = fate_said(rest) else {
                return Ok(None);
            };
            Ok(Some(Line::In(Came {
                id,
                code,
                payload: Bytes::of(payload),
                fate,
            })))
        }
        _ => Ok(None),
    }
}

fn loss_said(words: &[&[u8]]) -> Option<Line>
    ensures { result ≡ spec.loss_said (map (λ w. w.now) words.now) }
{
    match words {
        [a, b, c, rest @ ..] => {
            let id = number64(a)?;
            let code = number32(b)?;
            let after = number64(c)?;
            let fate = fate_said(rest)?;
            Some(Line::Loss(LossNote {
                id,
                code,
                after,
                fate,
            }))
        }
        _ => None,
    }
}

fn timer_said(words: &[&[u8]]) -> Option<Line>
    ensures { result ≡ spec.timer_said (map (λ w. w.now) words.now) }
{
    match words {
        [] => Some(Line::Timer),
        _ => None,
    }
}

fn mark_said(words: &[&[u8]]) -> Option<Line>
    ensures { result ≡ spec.mark_said (map (λ w. w.now) words.now) }
{
    match words {
        [a, b, c, d, rest @ ..] => {
            let due = number64(a)?;
            let now = number64(b)?;
            let id = number64(c)?;
            let code = number32(d)?;
            let fate = fate_said(rest)?;
            Some(Line::Mark(Fired {
                due,
                now,
                id,
                code,
                fate,
            }))
        }
        _ => None,
    }
}

fn lane_said(words: &[&[u8]]) -> Option<Line>
    ensures { result ≡ spec.lane_said (map (λ w. w.now) words.now) }
{
    match words {
        [a] => {
            let number = number64(a)?;
            Some(Line::Lane(number))
        }
        _ => None,
    }
}

fn cancel_said(words: &[&[u8]]) -> Option<Line>
    ensures { result ≡ spec.cancel_said (map (λ w. w.now) words.now) }
{
    match words {
        [a, rest @ ..] => {
            let id = number64(a)?;
            let fate = fate_said(rest)?;
            Some(Line::Cancel(CancelNote { id, fate }))
        }
        _ => None,
    }
}
