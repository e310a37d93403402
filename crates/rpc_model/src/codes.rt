ghost use Rattle.std.specs.Prelude.{◌≡◌};
ghost use Rattle.rpc_model.specs.Codes as codes;

/// The server has no such service. brpc's number.
pub const ENOSERVICE: u32 = 1001;
/// The service has no such method. brpc's number.
pub const ENOMETHOD: u32 = 1002;
/// The request is bad. brpc's number.
pub const EREQUEST: u32 = 1003;
/// Too many sub calls failed. brpc's number.
pub const ETOOMANYFAILS: u32 = 1005;
/// The call of a combination channel has ended. brpc's number.
pub const EPCHANFINISH: u32 = 1006;
/// A backup request is due. brpc's number.
pub const EBACKUPREQUEST: u32 = 1007;
/// The deadline was reached. brpc's number.
pub const ERPCTIMEDOUT: u32 = 1008;
/// The connection broke. brpc's number.
pub const EFAILEDSOCKET: u32 = 1009;
/// The server failed inside. brpc's number.
pub const EINTERNAL: u32 = 2001;
/// The response is bad. brpc's number.
pub const ERESPONSE: u32 = 2002;
/// The server is stopping. brpc's number.
pub const ELOGOFF: u32 = 2003;
/// The server is at its limit. brpc's number.
pub const ELIMIT: u32 = 2004;
/// The call was cancelled. The system's number.
pub const ECANCELED: u32 = 125;
/// The host is down. The system's number.
pub const EHOSTDOWN: u32 = 112;
/// The connection was refused. The system's number.
pub const ECONNREFUSED: u32 = 111;
/// The connection was reset. The system's number.
pub const ECONNRESET: u32 = 104;
/// The connection was closed at the other end. The system's number.
pub const EPIPE: u32 = 32;

/// Whether another attempt may follow a failure with this code: one that a connection or a server's state causes. The
/// list is this project's own choice, and no statement about brpc's retry policy.
#[tactic(auto, unfolding(crate::specs::Codes::retriable))]
pub fn retriable(code: u32) -> bool
    ensures { result ≡ codes.retriable code }
{
    code == EFAILEDSOCKET
        || code == EHOSTDOWN
        || code == ECONNREFUSED
        || code == ECONNRESET
        || code == EPIPE
        || code == ELOGOFF
        || code == ELIMIT
}
