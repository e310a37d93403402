use rpc_base::Bytes;

/// A request that an attempt of a leaf sends.
#[derive(Debug, Drop, PartialEq, Eq)]
pub struct Send {
    /// The leaf's number in the call's plan.
    pub node: u32,
    /// The attempt's number at the leaf, counted from 0.
    pub attempt: u32,
    /// The server's number.
    pub server: u32,
    /// The request's bytes.
    pub payload: Bytes,
}

/// A mark that a node sets: the moment of its deadline, or of its backup request.
#[derive(Clone, Copy, Debug, PartialEq, Eq)]
pub struct MarkAt {
    /// In milliseconds.
    pub moment: u64,
    /// The node's number in the call's plan.
    pub node: u32,
    /// Whether it is that of a backup request.
    pub backup: bool,
}
