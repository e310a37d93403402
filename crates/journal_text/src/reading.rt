ghost use Rattle.std.specs.Prelude.{◌≡◌, ◌<◌, ◌^◌, length, IfOk};
ghost use Rattle.rpc_model.specs.Texts.{journal_text};
ghost use Rattle.journal_text.specs.Writing.{IsWritable};
ghost use Rattle.journal_text.specs.Drafts.{journal_of};
ghost use Rattle.journal_text.specs.Empty.{is_empty};
ghost use Rattle.journal_text.specs.Judging.{Reads, Names};

use crate::draft::Draft;
use crate::fault::{JournalFault, LineFault};
use crate::numbers::cut;
use rpc_model::Journal;
use std::alloc::Global;

/// Reads the text of a journal. What it accepts is the one spelling of its answer, which may be written again. A refusal
/// names the first line that no journal has there, counted from 1: what stands behind the last newline is such a line,
/// and where the text ends too soon it is the line after its last one. The lines are this project's own choice.
#[tactic(auto, using(crate::proofs::Spelled::is_spelled, crate::proofs::Spelled::is_writable))]
pub fn read_journal(alloc: Global, bytes: &[u8]) -> Result<Journal, JournalFault>
    requires { length bytes.now < 2 ^ 32 }
    ensures reads { Reads result (journal_of bytes.now) }
    ensures spelled { IfOk result (λ j. journal_text j ≡ bytes.now) }
    ensures writable { IfOk result IsWritable }
{
    let journal = read_text(alloc, bytes)?;
    Ok(journal)
}

fn read_text(alloc: Global, bytes: &[u8]) -> Result<Journal, JournalFault>
    requires { length bytes.now < 2 ^ 32 }
    ensures { Reads result (journal_of bytes.now) }
{
    let Ok(pieces) = cut(alloc, bytes, b'\n') else {
        return Err(JournalFault::Memory);
    };
    let Some((rest, lines)) = pieces.as_slice().split_last() else {
        return Err(JournalFault::Memory);
    };
    let mut draft = Draft::new(alloc);
    for (before, line) in lines.iter().enumerate() {
        match draft.text(line) {
            Ok(()) => {}
            Err(LineFault::Refused) => return Err(bad(before + 1)),
            Err(LineFault::Memory) => return Err(JournalFault::Memory),
        }
    }
    if !draft.may_end() {
        return Err(bad(lines.len() + 1));
    }
    if !is_nothing(rest) {
        return Err(bad(lines.len() + 1));
    }
    let Ok(journal) = draft.into_journal() else {
        return Err(JournalFault::Memory);
    };
    Ok(journal)
}

/// The fault that names this line.
fn bad(line: usize) -> JournalFault
    ensures { Names result line }
{
    match u32::try_from(line) {
        Ok(line) => JournalFault::Bad(line),
        Err(_) => JournalFault::Memory,
    }
}

fn is_nothing(bytes: &[u8]) -> bool
    ensures { result ≡ is_empty bytes.now }
{
    bytes.is_empty()
}
