ghost use Rattle.std.specs.Prelude.{◌≡◌};
ghost use Rattle.rpc_meta.specs.Meta.Answer.{reply_code_of};

use rpc_base::Bytes;

/// What a frame says beside its payload, by brpc's baidu_std document.
#[derive(Debug, Drop, PartialEq, Eq)]
pub struct Meta {
    /// There in a request.
    pub request: Option<RequestMeta>,
    /// There in a reply.
    pub response: Option<ResponseMeta>,
    /// How the payload is compressed; 0 is not at all.
    pub compress: Option<i32>,
    /// The number by which a reply finds its call.
    pub correlation: Option<i64>,
    /// How many bytes at the end of the body are the attachment.
    pub attachment: Option<i32>,
}

/// Which method a request calls. A name that isn't there is the empty name, by this project's own choice.
#[derive(Debug, Drop, PartialEq, Eq)]
pub struct RequestMeta {
    /// The service's name, in UTF-8 where it was read.
    pub service: Bytes,
    /// The method's name, in UTF-8 where it was read.
    pub method: Bytes,
    /// A number for logs.
    pub log_id: Option<i64>,
}

/// How a call went.
#[derive(Debug, Drop, PartialEq, Eq)]
pub struct ResponseMeta {
    /// 0 or no code is success.
    pub code: Option<i32>,
    /// Words on the error, any bytes.
    pub text: Option<Bytes>,
}

/// The code that a reply tells: 0 without a response or a code, 2002 where the code is outside 0 to 65535, and else the
/// code.
pub fn reply_code(meta: &Meta) -> u32
    ensures { result ≡ reply_code_of meta.now }
{
    let Some(response) = &meta.response else {
        return 0;
    };
    match response.code {
        None => 0,
        Some(code) if 0 <= code && code <= 65535 => code as u32,
        Some(_) => 2002,
    }
}
