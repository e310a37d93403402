/// How the request of a sub channel is made from that of its parallel call.
#[derive(Clone, Copy, Debug, PartialEq, Eq)]
pub enum MapKind {
    /// The request as it is.
    Same,
    /// The request followed by the sub's index in decimal.
    Index,
    /// The piece with the sub's index of the request cut at commas; the sub is skipped where there are fewer.
    Split,
    /// The sub is skipped.
    Skip,
    /// The whole call is refused.
    Bad,
}

/// How the answer of a sub channel is merged into the value so far.
#[derive(Clone, Copy, Debug, PartialEq, Eq)]
pub enum MergeKind {
    /// The answer is put behind the value.
    Cat,
    /// Both are decimal numbers, and are added.
    Sum,
    /// Both have to be the same.
    Same,
    /// The answer counts as a failure.
    Drop,
}
