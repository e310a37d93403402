/// What a version of a call's range is of.
#[derive(Clone, Copy, Debug, PartialEq, Eq)]
pub enum Meaning {
    /// Of the node of this number.
    Node(u32),
    /// Of this attempt of the leaf of this number.
    Attempt(u32, u32),
}
