ghost use Rattle.std.specs.Prelude.{◌≡◌, IfOk, None};
ghost use Rattle.std.specs.Option.{option_copied, option_map};
ghost use Rattle.rpc_meta.specs.Meta.Reading.{no_request, no_response, no_meta};
ghost use Rattle.rpc_meta.specs.Parts.{request_seen, response_seen, meta_seen};

use crate::meta::{Meta, RequestMeta, ResponseMeta};
use rpc_base::Bytes;
use std::alloc::{AllocError, Global};

/// A request whose names are still in the bytes that were read.
#[derive(Clone, Copy)]
pub(crate) struct RequestParts<'a> {
    pub(crate) service: &'a [u8],
    pub(crate) method: &'a [u8],
    pub(crate) log_id: Option<i64>,
}

/// A response whose text is still in the bytes that were read.
#[derive(Clone, Copy)]
pub(crate) struct ResponseParts<'a> {
    pub(crate) code: Option<i32>,
    pub(crate) text: Option<&'a [u8]>,
}

/// A meta of such parts.
#[derive(Clone, Copy)]
pub(crate) struct MetaParts<'a> {
    pub(crate) request: Option<RequestParts<'a>>,
    pub(crate) response: Option<ResponseParts<'a>>,
    pub(crate) compress: Option<i32>,
    pub(crate) correlation: Option<i64>,
    pub(crate) attachment: Option<i32>,
}

/// A list of bytes with these.
fn bytes_of(alloc: Global, bytes: &[u8]) -> Result<Bytes, AllocError>
    ensures { IfOk result (λ b. b ≡ bytes.now) }
{
    Ok(Bytes::of(Vec::from_slice(alloc, bytes)?))
}

/// The same where there are any.
fn text_of(alloc: Global, text: Option<&[u8]>) -> Result<Option<Bytes>, AllocError>
    ensures { IfOk result (λ b. b ≡ option_copied text.entry) }
{
    match text {
        None => Ok(None),
        Some(text) => Ok(Some(bytes_of(alloc, text)?)),
    }
}

impl<'a> RequestParts<'a> {
    /// A request that says nothing yet.
    pub(crate) fn empty() -> RequestParts<'a>
        ensures { request_seen result ≡ no_request }
    {
        RequestParts {
            service: b"",
            method: b"",
            log_id: None,
        }
    }

    /// The request with names of its own.
    fn copied(self, alloc: Global) -> Result<RequestMeta, AllocError>
        ensures { IfOk result (λ r. r ≡ request_seen self.entry) }
    {
        Ok(RequestMeta {
            service: bytes_of(alloc, self.service)?,
            method: bytes_of(alloc, self.method)?,
            log_id: self.log_id,
        })
    }
}

impl<'a> ResponseParts<'a> {
    /// A response that says nothing yet.
    pub(crate) fn empty() -> ResponseParts<'a>
        ensures { response_seen result ≡ no_response }
    {
        ResponseParts {
            code: None,
            text: None,
        }
    }

    /// The response with a text of its own.
    fn copied(self, alloc: Global) -> Result<ResponseMeta, AllocError>
        ensures { IfOk result (λ r. r ≡ response_seen self.entry) }
    {
        Ok(ResponseMeta {
            code: self.code,
            text: text_of(alloc, self.text)?,
        })
    }
}

/// The request, where there is one.
fn request_of(
    alloc: Global,
    request: Option<RequestParts<'_>>,
) -> Result<Option<RequestMeta>, AllocError>
    ensures { IfOk result (λ r. r ≡ option_map request_seen request.entry) }
{
    match request {
        None => Ok(None),
        Some(request) => Ok(Some(request.copied(alloc)?)),
    }
}

/// The response, where there is one.
fn response_of(
    alloc: Global,
    response: Option<ResponseParts<'_>>,
) -> Result<Option<ResponseMeta>, AllocError>
    ensures { IfOk result (λ r. r ≡ option_map response_seen response.entry) }
{
    match response {
        None => Ok(None),
        Some(response) => Ok(Some(response.copied(alloc)?)),
    }
}

impl<'a> MetaParts<'a> {
    /// A meta that says nothing yet.
    pub(crate) fn empty() -> MetaParts<'a>
        ensures { meta_seen result ≡ no_meta }
    {
        MetaParts {
            request: None,
            response: None,
            compress: None,
            correlation: None,
            attachment: None,
        }
    }

    /// The meta with names and a text of its own.
    pub(crate) fn copied(self, alloc: Global) -> Result<Meta, AllocError>
        ensures { IfOk result (λ m. m ≡ meta_seen self.entry) }
    {
        Ok(Meta {
            request: request_of(alloc, self.request)?,
            response: response_of(alloc, self.response)?,
            compress: self.compress,
            correlation: self.correlation,
            attachment: self.attachment,
        })
    }
}
