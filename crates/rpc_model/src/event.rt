use rpc_base::Bytes;

/// How a call ended.
#[derive(Debug, Drop, PartialEq, Eq)]
pub enum End {
    /// With a response of this text.
    Good(Bytes),
    /// With an error of this code.
    Bad(u32),
}

/// What happens to a call. A node is named by its number in the call's plan, counted in preorder from 0, and an attempt
/// by its number at its leaf, counted from 0.
#[derive(Debug, Drop, PartialEq, Eq)]
pub enum Event {
    /// A response came to an attempt, with code 0 or an error.
    Reply {
        node: u32,
        attempt: u32,
        code: u32,
        text: Bytes,
    },
    /// An attempt was lost, for the reason that the code names.
    Lost {
        node: u32,
        attempt: u32,
        code: u32,
    },
    /// The moment of a node's backup request was reached.
    Backup {
        node: u32,
    },
    /// A node's deadline was reached.
    Deadline {
        node: u32,
    },
    /// The call was cancelled.
    Cancel,
}
