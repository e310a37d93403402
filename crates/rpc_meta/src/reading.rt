ghost use Rattle.std.specs.Prelude.{◌≡◌, ◌<◌, ◌≤◌, ◌^◌, length, Err, IfOk, IsOk};
ghost use Rattle.rpc_meta.specs.Meta.{meta};
ghost use Rattle.rpc_meta.specs.Meta.Reading.{int32 as low_int, name, no_request, no_response, no_meta, request_field, response_field, meta_field, request_at, response_at, meta_text, meta_number};
ghost use Rattle.rpc_meta.specs.Meta.Wire.{said};
ghost use Rattle.rpc_meta.specs.Meta.Answer.{Gives, Reads};
ghost use Rattle.rpc_meta.specs.Seen.{field_seen, IsWithin};
ghost use Rattle.rpc_meta.specs.Parts.{request_seen, response_seen, meta_seen};

use crate::fault::MetaFault;
use crate::fields::{Field, FieldReader, Value};
use crate::meta::Meta;
use crate::parts::{MetaParts, RequestParts, ResponseParts};
use crate::text::is_text;
use std::alloc::Global;

/// The low 32 bits in two's complement.
fn int32(bits: u64) -> i32
    ensures { result ≡ low_int bits }
{
    ((bits % (1 << 32)) as u32).cast_signed()
}

/// A service or method name in a field whose key stands at `at`.
#[tactic(auto, unfolding(crate::specs::Meta::Reading::name))]
fn read_name(at: u32, bytes: &[u8]) -> Result<&[u8], MetaFault>
    ensures { Reads (λ b. b.now) result (name at bytes.now) }
{
    if !is_text(bytes) {
        return Err(MetaFault::BadText(at));
    }
    Ok(bytes)
}

/// The request that this field makes of the one before.
#[tactic(auto, unfolding(crate::specs::Meta::Reading::request_says))]
fn with_request_field<'a>(
    mut request: RequestParts<'a>,
    field: Field<'a>,
) -> Result<RequestParts<'a>, MetaFault>
    ensures { Reads request_seen result (request_field (request_seen request.entry) (field_seen field.entry)) }
{
    match field.value {
        Value::Text(text) if field.number == 1 => request.service = read_name(field.at, text)?,
        Value::Text(text) if field.number == 2 => request.method = read_name(field.at, text)?,
        Value::Number(bits) if field.number == 3 => request.log_id = Some(bits.cast_signed()),
        _ => {}
    }
    Ok(request)
}

/// The response that this field makes of the one before.
#[tactic(auto, unfolding(crate::specs::Meta::Reading::response_says))]
fn with_response_field<'a>(
    mut response: ResponseParts<'a>,
    field: Field<'a>,
) -> Result<ResponseParts<'a>, MetaFault>
    ensures { Reads response_seen result (response_field (response_seen response.entry) (field_seen field.entry)) }
{
    match field.value {
        Value::Number(bits) if field.number == 1 => response.code = Some(int32(bits)),
        Value::Text(text) if field.number == 2 => response.text = Some(text),
        _ => {}
    }
    Ok(response)
}

/// The request of these fields, merged into the one before.
fn read_request<'a>(
    mut fields: FieldReader<'a>,
    mut request: RequestParts<'a>,
) -> Result<RequestParts<'a>, MetaFault>
    ensures { Reads request_seen result (said request_field (request_seen request.entry) fields.entry.list fields.entry.fault) }
{
    'fields: while let Some(field) = fields.next()? {
        request = with_request_field(request, field)?;
    }
    Ok(request)
}

/// The response of these fields, merged into the one before.
fn read_response<'a>(
    mut fields: FieldReader<'a>,
    mut response: ResponseParts<'a>,
) -> Result<ResponseParts<'a>, MetaFault>
    ensures { Reads response_seen result (said response_field (response_seen response.entry) fields.entry.list fields.entry.fault) }
{
    'fields: while let Some(field) = fields.next()? {
        response = with_response_field(response, field)?;
    }
    Ok(response)
}

/// The meta that a field of type 2 makes of the one before. Its bytes end at the place `stop`.
#[tactic(auto, unfolding(crate::specs::Meta::Reading::meta_text, crate::specs::Meta::Reading::request_at, crate::specs::Meta::Reading::response_at))]
fn with_text<'a>(
    mut meta: MetaParts<'a>,
    stop: u32,
    number: u32,
    text: &'a [u8],
) -> Result<MetaParts<'a>, MetaFault>
    requires { length text.now ≤ stop }
    ensures { Reads meta_seen result (meta_text (meta_seen meta.entry) stop number text.now) }
{
    match number {
        1 => {
            let before = meta.request.unwrap_or(RequestParts::empty());
            let request = read_request(FieldReader::of(stop, text), before)?;
            meta.request = Some(request);
        }
        2 => {
            let before = meta.response.unwrap_or(ResponseParts::empty());
            let response = read_response(FieldReader::of(stop, text), before)?;
            meta.response = Some(response);
        }
        _ => {}
    }
    Ok(meta)
}

/// The meta that a field of type 0, whose key stands at `at`, makes of the one before.
#[tactic(auto, unfolding(crate::specs::Meta::Reading::meta_number))]
fn with_number<'a>(
    mut meta: MetaParts<'a>,
    at: u32,
    number: u32,
    bits: u64,
) -> Result<MetaParts<'a>, MetaFault>
    ensures { Reads meta_seen result (meta_number (meta_seen meta.entry) at number bits) }
{
    match number {
        3 => meta.compress = Some(int32(bits)),
        4 => meta.correlation = Some(bits.cast_signed()),
        5 => {
            let size = int32(bits);
            if size < 0 {
                return Err(MetaFault::Range(at));
            }
            meta.attachment = Some(size);
        }
        _ => {}
    }
    Ok(meta)
}

/// The meta that this field makes of the one before.
#[tactic(auto, unfolding(crate::specs::Meta::Reading::meta_says))]
fn with_meta_field<'a>(meta: MetaParts<'a>, field: Field<'a>) -> Result<MetaParts<'a>, MetaFault>
    requires { IsWithin field }
    ensures { Reads meta_seen result (meta_field (meta_seen meta.entry) (field_seen field.entry)) }
{
    match field.value {
        Value::Text(text) => with_text(meta, field.stop, field.number, text),
        Value::Number(bits) => with_number(meta, field.at, field.number, bits),
        Value::Fixed => Ok(meta),
    }
}

/// The meta of these fields, merged into the one before.
fn read_fields<'a>(
    mut fields: FieldReader<'a>,
    mut meta: MetaParts<'a>,
) -> Result<MetaParts<'a>, MetaFault>
    ensures { Reads meta_seen result (said meta_field (meta_seen meta.entry) fields.entry.list fields.entry.fault) }
{
    'fields: while let Some(field) = fields.next()? {
        meta = with_meta_field(meta, field)?;
    }
    Ok(meta)
}

/// What the bytes say by the meta grammar, or their first fault. It takes no memory.
#[tactic(auto, unfolding(crate::specs::Meta::Reading::meta))]
fn read_parts(bytes: &[u8]) -> Result<MetaParts<'_>, MetaFault>
    requires { length bytes.now < 2 ^ 32 }
    ensures { Reads meta_seen result (meta bytes.now) }
{
    read_fields(
        FieldReader::of(bytes.len() as u32, bytes),
        MetaParts::empty(),
    )
}

/// What the bytes say by the meta grammar, or their first fault. Want of memory may be answered in place of what they
/// say, and never in place of a fault.
pub fn read_meta(alloc: Global, bytes: &[u8]) -> Result<Meta, MetaFault>
    requires { length bytes.now < 2 ^ 32 }
    ensures read { Gives result (meta bytes.now) }
    ensures memory { result ≡ Err MetaFault.Memory → IsOk (meta bytes.now) }
{
    match read_parts(bytes) {
        Ok(parts) => match parts.copied(alloc) {
            Ok(meta) => Ok(meta),
            Err(_) => Err(MetaFault::Memory),
        },
        Err(fault) => Err(fault),
    }
}
