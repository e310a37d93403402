/// What a lock answers.
#[derive(Clone, Copy, Debug, PartialEq, Eq)]
pub enum Lock {
    /// The range was unlocked and is locked now. The number is the id's offset in its range.
    Yes(u32),
    /// The range is locked already.
    Held,
    /// No range that isn't ended holds the id.
    Gone,
}

/// What a post answers.
#[derive(Clone, Copy, Debug, PartialEq, Eq)]
pub enum Post {
    /// The range was unlocked and is locked now, and the caller handles the error. The number is the id's offset.
    Now(u32),
    /// The range is locked, and the error waits until an unlock hands it out.
    Queued,
    /// No range that isn't ended holds the id.
    Gone,
}

/// What an unlock answers.
#[derive(Clone, Copy, Debug, PartialEq, Eq)]
pub enum Unlock {
    /// No error waited, and the range is unlocked now.
    Free,
    /// The offset and the code of the error that was queued first. The range stays locked.
    Pending(u32, u32),
    /// The range isn't locked.
    NotLocked,
    /// No range that isn't ended holds the id.
    Gone,
}

/// What a destroy answers.
#[derive(Clone, Copy, Debug, PartialEq, Eq)]
pub enum Destroy {
    /// The range has ended. The number tells how many queued errors were dropped.
    Ended(u64),
    /// The range isn't locked.
    NotLocked,
    /// No range that isn't ended holds the id.
    Gone,
}

/// What a cancel answers.
#[derive(Debug, PartialEq, Eq, Drop)]
pub enum Cancel<T> {
    /// The value of a range that was never used. Its ids are gone.
    Value(T),
    /// The range was locked or posted to before.
    Used,
    /// No range that isn't ended holds the id.
    Gone,
}

/// What a collect answers.
#[derive(Debug, PartialEq, Eq, Drop)]
pub enum Collect<T> {
    /// The last value of the ended range.
    Value(T),
    /// The range hasn't ended.
    NotYet,
    /// No range has this first id.
    Gone,
}

/// Why no range was created. Each hands the value back.
#[derive(Debug, PartialEq, Eq, Drop)]
pub enum Refused<T> {
    /// The range isn't 1 to 1024 wide.
    BadRange(T),
    /// No slot is vacant.
    Full(T),
}
