ghost use Rattle.std.specs.Prelude.{◌≡◌, ◌≤◌, ◌<◌, ◌+◌, length, IfOk, IfSome};
ghost use Rattle.rpc_meta.specs.Meta.Wire.{piece, value_at, number_at, text_at, fixed_at, field, fields};
ghost use Rattle.rpc_meta.specs.Meta.Answer.{Reads};
ghost use Rattle.rpc_meta.specs.Seen.{value_seen, value_len, field_seen, IsNext, IsWithin};

use crate::fault::MetaFault;
use crate::varint::read_varint;
use std::marker::Model;

/// The greatest number of a field.
const MAX_NUMBER: u64 = 536_870_911;

/// A field's value.
#[derive(Clone, Copy, Debug)]
pub(crate) enum Value<'a> {
    /// Type 0.
    Number(u64),
    /// Type 2.
    Text(&'a [u8]),
    /// Type 1 or 5, which no field of a meta has.
    Fixed,
}

/// A field: the place of its key's first byte, the place behind its last byte, its number and its value.
#[derive(Clone, Copy, Debug)]
pub(crate) struct Field<'a> {
    pub(crate) at: u32,
    pub(crate) stop: u32,
    pub(crate) number: u32,
    pub(crate) value: Value<'a>,
}

#[tactic(auto, unfolding(crate::specs::Meta::Wire::piece))]
fn read_piece(at: u32, len: u64, bytes: &[u8]) -> Result<(&[u8], &[u8]), MetaFault>
    ensures read { Reads (λ x. (x.0.now, x.1.now)) result (piece at len bytes.now) }
    ensures shorter { IfOk result (λ x. length x.0.now + length x.1.now ≤ length bytes.now) }
{
    if (bytes.len() as u64) < len {
        return Err(MetaFault::Cut(at));
    }
    Ok(bytes.split_at(len as usize))
}

#[tactic(auto, unfolding(crate::specs::Meta::Wire::number_at))]
fn read_number(at: u32, bytes: &[u8]) -> Result<(Value<'_>, &[u8]), MetaFault>
    ensures read { Reads (λ x. (value_seen x.0, x.1.now)) result (number_at at bytes.now) }
    ensures shorter { IfOk result (λ x. value_len x.0 + length x.1.now ≤ length bytes.now) }
{
    let (number, rest) = read_varint(at, bytes)?;
    Ok((Value::Number(number), rest))
}

#[tactic(auto, unfolding(crate::specs::Meta::Wire::text_at))]
fn read_text(at: u32, bytes: &[u8]) -> Result<(Value<'_>, &[u8]), MetaFault>
    ensures read { Reads (λ x. (value_seen x.0, x.1.now)) result (text_at at bytes.now) }
    ensures shorter { IfOk result (λ x. value_len x.0 + length x.1.now ≤ length bytes.now) }
{
    let (len, rest) = read_varint(at, bytes)?;
    let (text, rest) = read_piece(at, len, rest)?;
    Ok((Value::Text(text), rest))
}

#[tactic(auto, unfolding(crate::specs::Meta::Wire::fixed_at))]
fn read_fixed(at: u32, len: u64, bytes: &[u8]) -> Result<(Value<'_>, &[u8]), MetaFault>
    ensures read { Reads (λ x. (value_seen x.0, x.1.now)) result (fixed_at at len bytes.now) }
    ensures shorter { IfOk result (λ x. value_len x.0 + length x.1.now ≤ length bytes.now) }
{
    let (_, rest) = read_piece(at, len, bytes)?;
    Ok((Value::Fixed, rest))
}

#[inline(always)]
#[tactic(auto, unfolding(crate::specs::Meta::Wire::value_at))]
fn read_value(at: u32, kind: u64, bytes: &[u8]) -> Result<(Value<'_>, &[u8]), MetaFault>
    ensures read { Reads (λ x. (value_seen x.0, x.1.now)) result (value_at at kind bytes.now) }
    ensures shorter { IfOk result (λ x. value_len x.0 + length x.1.now ≤ length bytes.now) }
{
    match kind {
        0 => read_number(at, bytes),
        1 => read_fixed(at, 8, bytes),
        2 => read_text(at, bytes),
        5 => read_fixed(at, 4, bytes),
        _ => Err(MetaFault::WireType(at)),
    }
}

/// Reads the field at the front of what is left of a message that ends at `end`, and gives the bytes after it.
#[inline(always)]
#[tactic(auto, unfolding(crate::specs::Meta::Wire::field))]
fn read_field(end: u32, bytes: &[u8]) -> Result<(Field<'_>, &[u8]), MetaFault>
    requires { length bytes.now ≤ end }
    ensures read { Reads (λ x. (field_seen x.0, x.1.now)) result (field end bytes.now) }
    ensures shorter { IfOk result (λ x. length x.1.now < length bytes.now) }
    ensures within { IfOk result (λ x. IsWithin x.0) }
{
    let at = end - bytes.len() as u32;
    let (key, rest) = read_varint(at, bytes)?;
    let number = key / 8;
    if number == 0 || number > MAX_NUMBER {
        return Err(MetaFault::WireType(at));
    }
    let (value, rest) = read_value(at, key % 8, rest)?;
    let stop = end - rest.len() as u32;
    Ok((
        Field {
            at,
            stop,
            number: number as u32,
            value,
        },
        rest,
    ))
}

/// Reads the fields of a message one after the other.
#[derive(Drop)]
pub(crate) struct FieldReader<'a> {
    end: u32,
    rest: &'a [u8],
}

impl<'a> Model for FieldReader<'a> {
    ghost use Rattle.std.specs.Prelude.{◌≤◌, length};
    ghost use Rattle.rpc_meta.specs.Meta.Wire.{Fields, fields};

    ghost Value = { Fields };

    ghost view = { λ r. fields r.end r.rest.now };

    ghost invariant = { λ r. length r.rest.now ≤ r.end };
}

impl<'a> FieldReader<'a> {
    /// The fields of a message that ends at the place `end` of the whole meta.
    pub(crate) fn of(end: u32, bytes: &'a [u8]) -> FieldReader<'a>
        requires { length bytes.now ≤ end }
        ensures { result ≡ fields end bytes.now }
    {
        FieldReader { end, rest: bytes }
    }

    /// The next field, none at the end of the message, or the fault in its place.
    #[inline(always)]
    #[tactic(auto, using(crate::proofs::Shorter::field_steps))]
    pub(crate) fn next(&mut self) -> Result<Option<Field<'a>>, MetaFault>
        ensures next { IsNext self.old result self.new }
        ensures within { IfOk result (λ o. IfSome o IsWithin) }
    {
        if self.rest.is_empty() {
            return Ok(None);
        }
        let (field, rest) = read_field(self.end, self.rest)?;
        self.rest = rest;
        Ok(Some(field))
    }
}
