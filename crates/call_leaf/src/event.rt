/// What happens to a leaf. An attempt is named by its number, counted from 0.
#[derive(Clone, Copy, Debug, PartialEq, Eq)]
pub enum LeafEvent {
    /// A reply of code 0 came to this attempt.
    Good(u32),
    /// This attempt failed, by a reply or a loss, with this code, which isn't 0.
    Fail(u32, u32),
    /// The moment of the backup request was reached.
    Backup,
    /// The deadline was reached.
    Deadline,
}

/// What an event made a leaf do.
#[derive(Clone, Copy, Debug, PartialEq, Eq)]
pub enum LeafStep {
    /// Nothing goes out, and the leaf stands or had ended before.
    Nothing,
    /// This attempt is issued.
    Issue(u32),
    /// The leaf ended with the reply of this attempt.
    Won(u32),
    /// The leaf ended with this code.
    Ended(u32),
}
