ghost use Rattle.std.specs.Prelude.{◌≡◌, ◌≤◌, ◌+◌, ◌++◌, length, OnOk, OnErr};
ghost use Rattle.std.specs.Vec.{vec_len, vec_capacity};
ghost use Rattle.rpc_meta.specs.Meta.{meta_bytes};
ghost use Rattle.rpc_meta.specs.Meta.Spelling.{varint_bytes, number_bytes, text_bytes, if_present, request_bytes, response_bytes, IsWritable};

use crate::meta::{Meta, RequestMeta, ResponseMeta};
use crate::size::{request_len, response_len, spelled_len};
use rpc_base::{Bytes, NoMemory};

/// Appends the shortest varint of this number. There is room for it, as for all that is appended here.
fn put_varint(to: &mut Vec<u8>, number: u64)
    requires { vec_len to.old + length (varint_bytes number) ≤ vec_capacity to.old }
    ensures written { to.new.items ≡ to.old.items ++ varint_bytes number }
    ensures len { vec_len to.new ≡ vec_len to.old + length (varint_bytes number) }
    ensures capacity { vec_capacity to.old ≤ vec_capacity to.new }
{
    let mut rest = number;
    'groups: while rest >= 128 {
        to.push_reserved((rest % 128) as u8 + 128);
        rest /= 128;
    }
    to.push_reserved(rest as u8);
}

/// Appends a field of type 0. A negative number has all 64 bits.
#[tactic(auto, using(crate::proofs::Room::rooms), unfolding(crate::specs::Meta::Spelling::number_bytes))]
fn put_number(to: &mut Vec<u8>, field: u32, number: i64)
    requires { vec_len to.old + length (number_bytes field number) ≤ vec_capacity to.old }
    ensures written { to.new.items ≡ to.old.items ++ number_bytes field number }
    ensures len { vec_len to.new ≡ vec_len to.old + length (number_bytes field number) }
    ensures capacity { vec_capacity to.old ≤ vec_capacity to.new }
{
    put_varint(to, field as u64 * 8);
    put_varint(to, number.cast_unsigned());
}

/// Appends a field of type 2.
#[tactic(auto, using(crate::proofs::Room::rooms), unfolding(crate::specs::Meta::Spelling::text_bytes))]
fn put_text(to: &mut Vec<u8>, field: u32, text: &[u8])
    requires { vec_len to.old + length (text_bytes field text.now) ≤ vec_capacity to.old }
    ensures written { to.new.items ≡ to.old.items ++ text_bytes field text.now }
    ensures len { vec_len to.new ≡ vec_len to.old + length (text_bytes field text.now) }
    ensures capacity { vec_capacity to.old ≤ vec_capacity to.new }
{
    put_varint(to, field as u64 * 8 + 2);
    put_varint(to, text.len() as u64);
    to.extend_from_slice(text).unwrap();
}

/// Appends a field of type 0 where there is one.
fn put_present_number(to: &mut Vec<u8>, field: u32, number: Option<i64>)
    requires { vec_len to.old + length (if_present (number_bytes field) number) ≤ vec_capacity to.old }
    ensures written { to.new.items ≡ to.old.items ++ if_present (number_bytes field) number }
    ensures len { vec_len to.new ≡ vec_len to.old + length (if_present (number_bytes field) number) }
    ensures capacity { vec_capacity to.old ≤ vec_capacity to.new }
{
    if let Some(number) = number {
        put_number(to, field, number);
    }
}

/// The same for a number of 32 bits.
fn put_present_int32(to: &mut Vec<u8>, field: u32, number: Option<i32>)
    requires { vec_len to.old + length (if_present (number_bytes field) number) ≤ vec_capacity to.old }
    ensures written { to.new.items ≡ to.old.items ++ if_present (number_bytes field) number }
    ensures len { vec_len to.new ≡ vec_len to.old + length (if_present (number_bytes field) number) }
    ensures capacity { vec_capacity to.old ≤ vec_capacity to.new }
{
    match number {
        None => {}
        Some(number) => put_number(to, field, number as i64),
    }
}

/// Appends a field of type 2 where there is one.
fn put_present_text(to: &mut Vec<u8>, field: u32, text: &Option<Bytes>)
    requires { vec_len to.old + length (if_present (text_bytes field) text.now) ≤ vec_capacity to.old }
    ensures written { to.new.items ≡ to.old.items ++ if_present (text_bytes field) text.now }
    ensures len { vec_len to.new ≡ vec_len to.old + length (if_present (text_bytes field) text.now) }
    ensures capacity { vec_capacity to.old ≤ vec_capacity to.new }
{
    if let Some(text) = text {
        put_text(to, field, text.list());
    }
}

/// Appends the field of a request.
#[tactic(auto, using(crate::proofs::Room::rooms), unfolding(crate::specs::Meta::Spelling::request_bytes, crate::specs::Meta::Spelling::text_bytes))]
fn put_request(to: &mut Vec<u8>, request: &RequestMeta)
    requires { vec_len to.old + length (text_bytes 1 (request_bytes request.now)) ≤ vec_capacity to.old }
    ensures written { to.new.items ≡ to.old.items ++ text_bytes 1 (request_bytes request.now) }
    ensures len { vec_len to.new ≡ vec_len to.old + length (text_bytes 1 (request_bytes request.now)) }
    ensures capacity { vec_capacity to.old ≤ vec_capacity to.new }
{
    put_varint(to, 8 + 2);
    put_varint(to, request_len(request));
    put_text(to, 1, request.service.list());
    put_text(to, 2, request.method.list());
    put_present_number(to, 3, request.log_id);
}

/// Appends the field of a request where there is one.
fn put_present_request(to: &mut Vec<u8>, request: &Option<RequestMeta>)
    requires { vec_len to.old + length (if_present (λ r. text_bytes 1 (request_bytes r)) request.now) ≤ vec_capacity to.old }
    ensures written { to.new.items ≡ to.old.items ++ if_present (λ r. text_bytes 1 (request_bytes r)) request.now }
    ensures len { vec_len to.new ≡ vec_len to.old + length (if_present (λ r. text_bytes 1 (request_bytes r)) request.now) }
    ensures capacity { vec_capacity to.old ≤ vec_capacity to.new }
{
    if let Some(request) = request {
        put_request(to, request);
    }
}

/// Appends the field of a response.
#[tactic(auto, using(crate::proofs::Room::rooms), unfolding(crate::specs::Meta::Spelling::response_bytes, crate::specs::Meta::Spelling::text_bytes))]
fn put_response(to: &mut Vec<u8>, response: &ResponseMeta)
    requires { vec_len to.old + length (text_bytes 2 (response_bytes response.now)) ≤ vec_capacity to.old }
    ensures written { to.new.items ≡ to.old.items ++ text_bytes 2 (response_bytes response.now) }
    ensures len { vec_len to.new ≡ vec_len to.old + length (text_bytes 2 (response_bytes response.now)) }
    ensures capacity { vec_capacity to.old ≤ vec_capacity to.new }
{
    put_varint(to, 2 * 8 + 2);
    put_varint(to, response_len(response));
    put_present_int32(to, 1, response.code);
    put_present_text(to, 2, &response.text);
}

/// Appends the field of a response where there is one.
fn put_present_response(to: &mut Vec<u8>, response: &Option<ResponseMeta>)
    requires { vec_len to.old + length (if_present (λ r. text_bytes 2 (response_bytes r)) response.now) ≤ vec_capacity to.old }
    ensures written { to.new.items ≡ to.old.items ++ if_present (λ r. text_bytes 2 (response_bytes r)) response.now }
    ensures len { vec_len to.new ≡ vec_len to.old + length (if_present (λ r. text_bytes 2 (response_bytes r)) response.now) }
    ensures capacity { vec_capacity to.old ≤ vec_capacity to.new }
{
    if let Some(response) = response {
        put_response(to, response);
    }
}

/// Appends the fields of a meta.
#[tactic(auto, using(crate::proofs::Room::rooms), unfolding(crate::specs::Meta::Spelling::meta_bytes))]
fn put_meta(to: &mut Vec<u8>, meta: &Meta)
    requires { vec_len to.old + length (meta_bytes meta.now) ≤ vec_capacity to.old }
    ensures written { to.new.items ≡ to.old.items ++ meta_bytes meta.now }
    ensures len { vec_len to.new ≡ vec_len to.old + length (meta_bytes meta.now) }
    ensures capacity { vec_capacity to.old ≤ vec_capacity to.new }
{
    put_present_request(to, &meta.request);
    put_present_response(to, &meta.response);
    put_present_int32(to, 3, meta.compress);
    put_present_number(to, 4, meta.correlation);
    put_present_int32(to, 5, meta.attachment);
}

/// Appends the one spelling of this meta: its fields in rising order of number, each once, with shortest varints, a
/// request always with both names. After want of memory `to` is as before. It takes no memory beside `to`.
///
/// The condition, that both names are UTF-8 and an attachment size isn't negative, is what makes the spelling one that
/// `read_meta` reads.
pub fn write_meta(meta: &Meta, to: &mut Vec<u8>) -> Result<(), NoMemory>
    requires { IsWritable meta.now }
    ensures written { OnOk result (to.new.items ≡ to.old.items ++ meta_bytes meta.now) }
    ensures kept { OnErr result (to.new.items ≡ to.old.items) }
{
    to.reserve(spelled_len(meta) as usize)?;
    put_meta(to, meta);
    Ok(())
}
