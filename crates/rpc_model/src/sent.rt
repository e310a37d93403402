use rpc_base::Bytes;

/// A request that went out on a wire.
#[derive(Debug, Drop, PartialEq, Eq)]
pub struct Sent {
    /// The id of the attempt, by which its reply finds the call.
    pub id: u64,
    /// The request's bytes.
    pub payload: Bytes,
}
