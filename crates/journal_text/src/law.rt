ghost use Rattle.std.specs.Prelude.{◌≡◌, Ok};
ghost use Rattle.rpc_model.specs.Texts.{journal_text};
ghost use Rattle.rpc_model.specs.declared.journal.Journal.{Journal as AJournal};
ghost use Rattle.journal_text.specs.Drafts.{journal_of};
ghost use Rattle.journal_text.specs.Typed.{IsTyped};
ghost use Rattle.journal_text.specs.Writing.{IsWritable};

/// A law of the definitions: the text of a journal that may be written is read as that journal again. The numbers of the
/// journal are of their types, as they are in every value of the code.
pub fn reads_what_is_written()
    ensures { (journal : AJournal) → IsWritable journal → IsTyped journal → journal_of (journal_text journal) ≡ Ok journal }
{}
