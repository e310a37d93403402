ghost use Rattle.std.specs.Prelude.{◌≡◌, ◌≤◌, ◌-◌, ◌^◌, ◌↔◌, min, length, IsTrue, IfSome};
ghost use Rattle.std.specs.Str.{IsUtf8};
ghost use Rattle.rpc_meta.specs.Meta.{meta_bytes};
ghost use Rattle.rpc_meta.specs.Meta.Spelling.{varint_bytes, number_bytes, text_bytes, text_size, if_present, request_bytes, response_bytes, IsWritable};

use crate::meta::{Meta, RequestMeta, ResponseMeta};
use crate::text::is_text;
use rpc_base::Bytes;

/// Whether `write_meta` may be called: both names are UTF-8, and an attachment size isn't negative.
pub fn is_writable(meta: &Meta) -> bool
    ensures { IsTrue result ↔ IsWritable meta.now }
{
    has_names(&meta.request) && meta.attachment.is_none_or(|size| 0 <= size)
}

fn has_names(request: &Option<RequestMeta>) -> bool
    ensures { IsTrue result ↔ IfSome request.now (λ r. IsUtf8 r.service × IsUtf8 r.method) }
{
    match request {
        None => true,
        Some(request) => is_text(request.service.list()) && is_text(request.method.list()),
    }
}

/// How many bytes the shortest varint of this number has.
fn varint_len(number: u64) -> u64
    ensures len { result ≡ length (varint_bytes number) }
    ensures small { result ≤ 10 }
{
    let mut len = 1;
    let mut rest = number;
    'groups: while rest >= 128 {
        len += 1;
        rest /= 128;
    }
    len
}

#[tactic(auto, unfolding(crate::specs::Meta::Spelling::number_bytes))]
fn number_len(field: u32, number: i64) -> u64
    ensures len { result ≡ length (number_bytes field number) }
    ensures small { result ≤ 20 }
{
    varint_len(field as u64 * 8) + varint_len(number.cast_unsigned())
}

fn present_number_len(field: u32, number: Option<i64>) -> u64
    ensures len { result ≡ length (if_present (number_bytes field) number) }
    ensures small { result ≤ 20 }
{
    match number {
        None => 0,
        Some(number) => number_len(field, number),
    }
}

pub(crate) fn present_int32_len(field: u32, number: Option<i32>) -> u64
    ensures len { result ≡ length (if_present (number_bytes field) number) }
    ensures small { result ≤ 20 }
{
    match number {
        None => 0,
        Some(number) => number_len(field, number as i64),
    }
}

/// How many bytes a field of type 2 with so many bytes has.
fn text_len(field: u32, len: u64) -> u64
    ensures { result ≡ min (text_size field len) (2 ^ 64 - 1) }
{
    (varint_len(field as u64 * 8 + 2) + varint_len(len)).saturating_add(len)
}

/// How many bytes the fields of a request have, or 2^64 - 1 where they are more.
#[tactic(auto, using(crate::proofs::Sizes::sizes))]
pub(crate) fn request_len(request: &RequestMeta) -> u64
    ensures { result ≡ min (length (request_bytes request.now)) (2 ^ 64 - 1) }
{
    text_len(1, request.service.list().len() as u64)
        .saturating_add(text_len(2, request.method.list().len() as u64))
        .saturating_add(present_number_len(3, request.log_id))
}

#[tactic(auto, using(crate::proofs::Sizes::sizes))]
fn present_text_len(field: u32, text: &Option<Bytes>) -> u64
    ensures { result ≡ min (length (if_present (text_bytes field) text.now)) (2 ^ 64 - 1) }
{
    match text {
        None => 0,
        Some(text) => text_len(field, text.list().len() as u64),
    }
}

/// How many bytes the fields of a response have, or 2^64 - 1 where they are more.
#[tactic(auto, using(crate::proofs::Sizes::sizes))]
pub(crate) fn response_len(response: &ResponseMeta) -> u64
    ensures { result ≡ min (length (response_bytes response.now)) (2 ^ 64 - 1) }
{
    present_int32_len(1, response.code).saturating_add(present_text_len(2, &response.text))
}

#[tactic(auto, using(crate::proofs::Sizes::sizes))]
fn present_request_len(request: &Option<RequestMeta>) -> u64
    ensures { result ≡ min (length (if_present (λ r. text_bytes 1 (request_bytes r)) request.now)) (2 ^ 64 - 1) }
{
    match request {
        None => 0,
        Some(request) => text_len(1, request_len(request)),
    }
}

#[tactic(auto, using(crate::proofs::Sizes::sizes))]
fn present_response_len(response: &Option<ResponseMeta>) -> u64
    ensures { result ≡ min (length (if_present (λ r. text_bytes 2 (response_bytes r)) response.now)) (2 ^ 64 - 1) }
{
    match response {
        None => 0,
        Some(response) => text_len(2, response_len(response)),
    }
}

/// How many bytes `write_meta` appends, or 2^64 - 1 where they are more.
#[tactic(auto, using(crate::proofs::Sizes::sizes))]
pub fn spelled_len(meta: &Meta) -> u64
    ensures { result ≡ min (length (meta_bytes meta.now)) (2 ^ 64 - 1) }
{
    present_request_len(&meta.request)
        .saturating_add(present_response_len(&meta.response))
        .saturating_add(present_int32_len(3, meta.compress))
        .saturating_add(present_number_len(4, meta.correlation))
        .saturating_add(present_int32_len(5, meta.attachment))
}
