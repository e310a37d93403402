//! Which lines a journal may have.

ghost use Rattle.std.specs.Prelude.{◌≡◌};
ghost use Rattle.journal_text.specs.Writing as spec;

use rpc_model::{Event, Fate, Line, Origin};

/// Whether a journal may have this line.
pub(crate) fn is_line(line: &Line) -> bool
    ensures { result ≡ spec.is_line line.now }
{
    match line {
        Line::Call { moment, .. } => is_moment(*moment),
        Line::Entry(entry) => is_moment(entry.moment) && is_from(&entry.event, entry.from),
        Line::In(came) => is_frame_fate(came.fate),
        Line::Loss(loss) => is_error_fate(loss.fate),
        Line::Mark(mark) => is_error_fate(mark.fate),
        Line::Cancel(cancel) => is_error_fate(cancel.fate),
        Line::Wire { .. } | Line::Out(_) | Line::Timer | Line::Lane(_) => true,
    }
}

fn is_moment(moment: u64) -> bool
    ensures { result ≡ spec.is_moment moment }
{
    moment < 1 << 60
}

fn is_from(event: &Event, from: Origin) -> bool
    ensures { result ≡ spec.is_from event.now from }
{
    match event {
        Event::Reply { .. } => matches!(from, Origin::Frame { .. }),
        Event::Lost { .. } => matches!(from, Origin::Loss { .. }),
        Event::Backup { .. } | Event::Deadline { .. } => matches!(from, Origin::Mark { .. }),
        Event::Cancel => matches!(from, Origin::Lane { .. }),
    }
}

fn is_frame_fate(fate: Fate) -> bool
    ensures { result ≡ spec.is_frame_fate fate }
{
    !matches!(fate, Fate::Dropped(_) | Fate::Queued(..))
}

fn is_error_fate(fate: Fate) -> bool
    ensures { result ≡ spec.is_error_fate fate }
{
    !matches!(fate, Fate::Stray | Fate::Queued(..))
}
