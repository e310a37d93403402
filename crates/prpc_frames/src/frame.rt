use rpc_base::Bytes;
use rpc_meta::Meta;

/// A frame of brpc's baidu_std protocol.
#[derive(Debug, Drop, PartialEq, Eq)]
pub struct Frame {
    /// What the frame says beside its payload.
    pub meta: Meta,
    /// The request or the reply itself.
    pub payload: Bytes,
    /// Raw bytes behind the payload.
    pub attachment: Bytes,
}
