//! Rdata that hold no compressed name, which share the octets of their message.
ghost use Rattle.std.specs.Prelude.{◌≡◌, ◌+◌, ◌<◌, ◌≤◌, ◌^◌, length, map, slice_range, Some, IfSome, IsTrue};
ghost use Rattle.dns_message.specs.RdataAt.{field_at, fields_at};
ghost use Rattle.dns_message.specs.Plain.{EndsAt};
ghost use Rattle.dns_rdata.specs.Fields.{field_value};
ghost use Rattle.dns_model.specs.Shapes.{DomainName};

use dns_rdata::{Field, is_bitmap};
use dns_record::NameRef;

// Where the name ends that stands at `pos`, before `stop` and without a pointer.
fn name_end(bytes: &[u8], pos: usize, stop: usize) -> Option<usize>
    requires rises { pos ≤ stop }
    requires stop { stop ≤ length bytes.now }
    requires short { length bytes.now < 2 ^ 32 }
    ensures { IfSome result (EndsAt DomainName bytes.now pos stop) }
{
    let (name, _) = NameRef::front(&bytes[pos..stop])?;
    Some(pos + name.wire().len())
}

// So many bytes on, where that is before `stop`.
fn end_within(pos: usize, size: usize, stop: usize) -> Option<usize>
    requires { pos ≤ stop }
    ensures { IfSome result (λ next. (next ≡ pos + size) × (next ≤ stop)) }
{
    if stop - pos < size {
        None
    } else {
        Some(pos + size)
    }
}

// Where a field ends that stands at `pos`, before `stop` and as it is spelled: no pointer is in it.
#[tactic(auto, unfolding(crate::specs::RdataAt::field_at, crate::specs::RdataAt::octets_at, crate::specs::RdataAt::counted_octets_at, crate::specs::RdataAt::rest_at, crate::specs::RdataAt::bitmap_at))]
fn field_end(bytes: &[u8], field: Field, pos: usize, stop: usize) -> Option<usize>
    requires rises { pos ≤ stop }
    requires stop { stop ≤ length bytes.now }
    requires short { length bytes.now < 2 ^ 32 }
    ensures { IfSome result (EndsAt (field_value field) bytes.now pos stop) }
{
    match field {
        Field::Octets(size) => end_within(pos, usize::from(size), stop),
        Field::DomainName => name_end(bytes, pos, stop),
        Field::CharacterString => {
            if pos == stop {
                return None;
            }
            end_within(pos, 1 + usize::from(bytes[pos]), stop)
        }
        Field::TypeBitmap => {
            if is_bitmap(&bytes[pos..stop]) {
                Some(stop)
            } else {
                None
            }
        }
        Field::Remainder => Some(stop),
    }
}

// Whether the rdata from `at` up to `stop` is exactly these fields, each of them as it is spelled.
pub(crate) fn is_spelled(bytes: &[u8], shape: &[Field], at: usize, stop: usize) -> bool
    requires rises { at ≤ stop }
    requires stop { stop ≤ length bytes.now }
    requires short { length bytes.now < 2 ^ 32 }
    ensures { IsTrue result → fields_at (map field_value shape.now) bytes.now at stop ≡ Some (slice_range bytes.now at stop) }
{
    let mut pos = at;
    for field in shape {
        match field_end(bytes, *field, pos, stop) {
            None => return false,
            Some(next) => pos = next,
        }
    }
    pos == stop
}
