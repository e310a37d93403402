use rpc_base::Bytes;

/// The answer of a sub that succeeded, with what merges it.
#[derive(Debug, Drop)]
pub struct Part<G> {
    /// The sub's index.
    pub index: u32,
    pub merge: G,
    pub text: Bytes,
}
