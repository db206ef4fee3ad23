//! Writing rdata with names spelled out.
ghost use Rattle.std.specs.Prelude.{◌≡◌, ◌+◌, ◌<◌, ◌≤◌, ◌^◌, length, map, IfOk};
ghost use Rattle.dns_model.specs.Types.{has_shapes};
ghost use Rattle.dns_message.specs.Reading.{Reads};
ghost use Rattle.dns_message.specs.RdataAt.{fields_at, shaped_at, opaque_at, rdata_at};
ghost use Rattle.dns_message.specs.Readable.{IsReadable};
ghost use Rattle.dns_message.specs.Fitting.{fields_in};
ghost use Rattle.dns_rdata.specs.Fields.{field_value};
ghost use Rattle.dns_message.specs.KnownNames.{AreKnown};

use crate::decode_error::DecodeKind;
use crate::known_names::KnownNames;
use crate::message_bytes::MessageBytes;
use crate::plain_rdata::is_spelled;
use crate::rdata_reader::push_field;
use crate::read_fault::{ReadFault, fault};
use dns_rdata::{Field, fields_of};
use dns_record::{DNSClass, NoMemory, Octets, Rdata, RecordType};

// Writes the rdata from `at` up to `stop` into `room`, names spelled out. Answers whether it is exactly these fields; where it
// isn't, what was written means nothing.
fn spells_fields(
    message: &MessageBytes<'_>,
    names: &mut KnownNames,
    room: &mut Vec<u8>,
    shape: &[Field],
    at: usize,
    stop: usize,
) -> Result<bool, NoMemory>
    requires readable { IsReadable message.now }
    requires known { AreKnown message.now.bytes.now names.old }
    requires at { at ≤ length message.now.bytes.now }
    requires stop { stop ≤ length message.now.bytes.now }
    ensures fields { IfOk result (λ spelled.
        fields_in spelled room.new.items ≡ fields_at (map field_value shape.now) message.now.bytes.now at stop) }
    ensures known { AreKnown message.now.bytes.now names.new }
{
    room.clear();
    let mut pos = at;
    for field in shape {
        match push_field(message, names, *field, pos, stop, room)? {
            None => return Ok(false),
            Some(next) => pos = next,
        }
    }
    Ok(pos == stop)
}

// The rdata from `at` up to `stop` in the shape of its type, names spelled out, or `None` where it hasn't that shape. Where it
// stands in the message as it is, it is a part of the message.
#[tactic(auto, unfolding(crate::specs::RdataAt::shaped_at))]
fn shaped_of(
    message: &MessageBytes<'_>,
    names: &mut KnownNames,
    room: &mut Vec<u8>,
    record_type: u16,
    at: usize,
    stop: usize,
) -> Result<Option<Rdata>, NoMemory>
    requires readable { IsReadable message.now }
    requires known { AreKnown message.now.bytes.now names.old }
    requires rises { at ≤ stop }
    requires stop { stop ≤ length message.now.bytes.now }
    ensures shaped { IfOk result (λ o. o ≡ shaped_at record_type message.now.bytes.now at stop) }
    ensures known { AreKnown message.now.bytes.now names.new }
{
    let shape = fields_of(RecordType(record_type));
    if stop - at <= Rdata::MAX_LEN && is_spelled(message.bytes, shape, at, stop) {
        let octets = message.octets.part(at, stop)?;
        return Ok(Some(Rdata::from_octets(octets)));
    }
    let has_shape = spells_fields(message, names, room, shape, at, stop)?;
    if has_shape && room.len() <= Rdata::MAX_LEN {
        Ok(Some(Rdata::from_slice(message.alloc, room.as_slice())?))
    } else {
        Ok(None)
    }
}

// Whether rdata has its type's shape in a class.
fn has_shapes(class: u16) -> bool
    ensures { result ≡ has_shapes class }
{
    class == DNSClass::IN.0 || class == DNSClass::NONE.0 || class == DNSClass::ANY.0
}

// So many bytes as they stand.
#[tactic(auto, unfolding(crate::specs::RdataAt::opaque_at))]
pub(crate) fn opaque_of(
    message: &MessageBytes<'_>,
    size: u16,
    at: usize,
) -> Result<Octets, ReadFault>
    requires readable { IsReadable message.now }
    requires at { at ≤ length message.now.bytes.now }
    ensures reads { Reads (λ o. o) result (opaque_at message.now.bytes.now size at) }
    ensures fits { IfOk result (λ o. at + size ≤ length message.now.bytes.now) }
{
    let stop = at + usize::from(size);
    if message.bytes.len() < stop {
        return Err(fault(DecodeKind::Short, at));
    }
    Ok(message.octets.part(at, stop)?)
}

// The rdata of so many bytes at a place, by its type and class.
#[tactic(auto, unfolding(crate::specs::RdataAt::rdata_at))]
pub(crate) fn rdata_of(
    message: &MessageBytes<'_>,
    names: &mut KnownNames,
    room: &mut Vec<u8>,
    record_type: u16,
    class: u16,
    size: u16,
    at: usize,
) -> Result<Rdata, ReadFault>
    requires readable { IsReadable message.now }
    requires known { AreKnown message.now.bytes.now names.old }
    requires at { at ≤ length message.now.bytes.now }
    ensures reads { Reads (λ r. r) result (rdata_at record_type class message.now.bytes.now size at) }
    ensures fits { IfOk result (λ r. at + size ≤ length message.now.bytes.now) }
    ensures known { AreKnown message.now.bytes.now names.new }
{
    let stop = at + usize::from(size);
    if message.bytes.len() < stop {
        return Err(fault(DecodeKind::Short, at));
    }
    if size == 0 {
        return Ok(Rdata::from_octets(Octets::empty(message.alloc)));
    }
    if !has_shapes(class) {
        return Ok(Rdata::from_octets(message.octets.part(at, stop)?));
    }
    match shaped_of(message, names, room, record_type, at, stop)? {
        Some(rdata) => Ok(rdata),
        None => Err(fault(DecodeKind::BadRdata, at)),
    }
}
