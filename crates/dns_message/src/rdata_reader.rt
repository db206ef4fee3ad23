//! Reading the rdata of a record by its type's fields, names spelled out.
ghost use Rattle.std.specs.Prelude.{◌≡◌, ◌+◌, ◌<◌, ◌≤◌, ◌^◌, length, IfOk, IfSome};
ghost use Rattle.dns_message.specs.NameAt.{spelled_at};
ghost use Rattle.dns_message.specs.RdataAt.{octets_at, counted_octets_at, rest_at, bitmap_at, field_at};
ghost use Rattle.std.specs.Result.{result_ok};
ghost use Rattle.dns_message.specs.Readable.{IsReadable};
ghost use Rattle.dns_message.specs.Fitting.{FieldRead};
ghost use Rattle.dns_rdata.specs.Fields.{field_value};
ghost use Rattle.dns_message.specs.KnownNames.{AreKnown};

use crate::decode_error::DecodeKind;
use crate::known_names::KnownNames;
use crate::message_bytes::MessageBytes;
use crate::name_reader::push_spelled;
use dns_rdata::{Field, is_bitmap};
use dns_record::NoMemory;

// Appends the bytes from `pos` up to `next`, where they stand before `stop`.
#[tactic(auto, unfolding(crate::specs::RdataAt::octets_at))]
fn push_octets(
    bytes: &[u8],
    size: usize,
    pos: usize,
    stop: usize,
    into: &mut Vec<u8>,
) -> Result<Option<usize>, NoMemory>
    requires short { length bytes.now < 2 ^ 32 }
    requires stop { stop ≤ length bytes.now }
    requires pos { pos ≤ length bytes.now }
    requires size { size < 2 ^ 32 }
    ensures reads { IfOk result (λ next. FieldRead (octets_at size bytes.now pos stop) into.old.items into.new.items
        next) }
    ensures fits { IfOk result (λ next. IfSome next (λ n. n ≤ length bytes.now)) }
{
    let next = pos + size;
    if stop < next {
        return Ok(None);
    }
    into.extend_from_slice(&bytes[pos..next])?;
    Ok(Some(next))
}

// Appends a field that stands at `pos` in an rdata which ends at `stop`, a name spelled out. Answers the place after the field,
// or `None` where the field doesn't stand there.
#[tactic(auto, unfolding(crate::specs::RdataAt::field_at))]
pub(crate) fn push_field(
    message: &MessageBytes<'_>,
    names: &mut KnownNames,
    field: Field,
    pos: usize,
    stop: usize,
    into: &mut Vec<u8>,
) -> Result<Option<usize>, NoMemory>
    requires readable { IsReadable message.now }
    requires known { AreKnown message.now.bytes.now names.old }
    requires stop { stop ≤ length message.now.bytes.now }
    requires pos { pos ≤ length message.now.bytes.now }
    ensures reads { IfOk result (λ next.
        FieldRead (field_at (field_value field) message.now.bytes.now pos stop) into.old.items into.new.items next) }
    ensures fits { IfOk result (λ next. IfSome next (λ n. n ≤ length message.now.bytes.now)) }
    ensures known { AreKnown message.now.bytes.now names.new }
{
    let bytes = message.bytes;
    match field {
        Field::Octets(size) => push_octets(bytes, usize::from(size), pos, stop, into),
        Field::DomainName => push_name(message, names, pos, into),
        Field::CharacterString => push_counted(bytes, pos, stop, into),
        Field::TypeBitmap => push_bitmap(bytes, pos, stop, into),
        Field::Remainder => push_rest(bytes, pos, stop, into),
    }
}

// Reads a name at `pos`, puts it into `into` without compression, and answers the place after it.
fn push_name(
    message: &MessageBytes<'_>,
    names: &mut KnownNames,
    pos: usize,
    into: &mut Vec<u8>,
) -> Result<Option<usize>, NoMemory>
    requires readable { IsReadable message.now }
    requires known { AreKnown message.now.bytes.now names.old }
    requires pos { pos ≤ length message.now.bytes.now }
    ensures reads { IfOk result (λ next.
        FieldRead (result_ok (spelled_at message.now.bytes.now pos)) into.old.items into.new.items next) }
    ensures fits { IfOk result (λ next. IfSome next (λ n. n ≤ length message.now.bytes.now)) }
    ensures known { AreKnown message.now.bytes.now names.new }
{
    match push_spelled(message, names, pos, into) {
        Ok(next) => Ok(Some(next)),
        Err(error) => {
            if error.kind == DecodeKind::NoMemory {
                Err(NoMemory)
            } else {
                Ok(None)
            }
        }
    }
}

// Copies a byte that counts and the bytes that it counts, and answers the place after them.
#[tactic(auto, unfolding(crate::specs::RdataAt::counted_octets_at))]
fn push_counted(
    bytes: &[u8],
    pos: usize,
    stop: usize,
    into: &mut Vec<u8>,
) -> Result<Option<usize>, NoMemory>
    requires short { length bytes.now < 2 ^ 32 }
    requires stop { stop ≤ length bytes.now }
    requires pos { pos ≤ length bytes.now }
    ensures reads { IfOk result (λ next. FieldRead (counted_octets_at bytes.now pos stop) into.old.items
        into.new.items next) }
    ensures fits { IfOk result (λ next. IfSome next (λ n. n ≤ length bytes.now)) }
{
    if stop <= pos {
        return Ok(None);
    }
    push_octets(bytes, 1 + usize::from(bytes[pos]), pos, stop, into)
}

// Copies what is left up to `stop`.
#[tactic(auto, unfolding(crate::specs::RdataAt::rest_at))]
fn push_rest(
    bytes: &[u8],
    pos: usize,
    stop: usize,
    into: &mut Vec<u8>,
) -> Result<Option<usize>, NoMemory>
    requires short { length bytes.now < 2 ^ 32 }
    requires stop { stop ≤ length bytes.now }
    ensures reads { IfOk result (λ next. FieldRead (rest_at bytes.now pos stop) into.old.items into.new.items next) }
    ensures fits { IfOk result (λ next. IfSome next (λ n. n ≤ length bytes.now)) }
{
    if stop < pos {
        return Ok(None);
    }
    into.extend_from_slice(&bytes[pos..stop])?;
    Ok(Some(stop))
}

// Copies a bitmap of types that ends at `stop`, if it is one (RFC 4034, 4.1.2).
#[tactic(auto, unfolding(crate::specs::RdataAt::bitmap_at))]
fn push_bitmap(
    bytes: &[u8],
    pos: usize,
    stop: usize,
    into: &mut Vec<u8>,
) -> Result<Option<usize>, NoMemory>
    requires short { length bytes.now < 2 ^ 32 }
    requires stop { stop ≤ length bytes.now }
    ensures reads { IfOk result (λ next. FieldRead (bitmap_at bytes.now pos stop) into.old.items into.new.items next) }
    ensures fits { IfOk result (λ next. IfSome next (λ n. n ≤ length bytes.now)) }
{
    if stop < pos {
        return Ok(None);
    }
    let bitmap = &bytes[pos..stop];
    if !is_bitmap(bitmap) {
        return Ok(None);
    }
    into.extend_from_slice(bitmap)?;
    Ok(Some(stop))
}
