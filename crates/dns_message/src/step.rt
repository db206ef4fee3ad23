//! The steps of a compressed name: a label, a pointer, or the closing zero byte (RFC 1035, 4.1.4).
ghost use Rattle.std.specs.Prelude.{◌≡◌, ◌+◌, ◌<◌, ◌≤◌, ◌^◌, length, slice_index, IfOk};
ghost use Rattle.dns_message.specs.Reading.{Reads};
ghost use Rattle.dns_message.specs.NameAt.{step_of};
ghost use Rattle.dns_message.specs.Fitting.{FitsStep};

use crate::decode_error::DecodeKind;
use crate::read_fault::{ReadFault, fault};
use dns_rdata::u16_at;
use dns_record::Name;

/// The most bytes of a label (RFC 1035, 2.3.4).
const MOST_LABEL: u8 = Name::MAX_LABEL_LEN as u8;

/// The two upper bits of a compression pointer's first byte are set (RFC 1035, 4.1.4).
pub(crate) const POINTER: u8 = 0xc0;

/// How many places a pointer's other 14 bits can name.
pub(crate) const PLACES: u16 = 16384;

/// What stands at a place of a name.
#[derive(Clone, Copy, Drop)]
pub(crate) enum Step {
    /// The closing zero byte.
    Root,
    /// A label of so many bytes.
    Label(u8),
    /// A pointer to a place.
    Pointer(u16),
}

// The step at `pos` in a row of labels that began at `start`, with `size` bytes of labels before.
#[tactic(auto, unfolding(crate::specs::NameAt::step_of))]
pub(crate) fn step_at(
    bytes: &[u8],
    start: usize,
    pos: usize,
    size: usize,
) -> Result<Step, ReadFault>
    requires short { length bytes.now < 2 ^ 32 }
    requires pos { pos ≤ length bytes.now }
    requires size { size ≤ 254 }
    ensures reads { Reads (λ s. s) result (step_of bytes.now start pos size) }
    ensures fits { IfOk result (λ s. FitsStep (length bytes.now) start pos size s) }
{
    if bytes.len() <= pos {
        return Err(fault(DecodeKind::Short, pos));
    }
    let byte = bytes[pos];
    if byte == 0 {
        return Ok(Step::Root);
    }
    if MOST_LABEL < byte && byte < POINTER {
        return Err(fault(DecodeKind::BadName, pos));
    }
    if POINTER <= byte {
        if bytes.len() <= pos + 1 {
            return Err(fault(DecodeKind::Short, pos));
        }
        let target = u16_at(bytes, pos) % PLACES;
        if start <= usize::from(target) {
            return Err(fault(DecodeKind::BadName, pos));
        }
        return Ok(Step::Pointer(target));
    }
    if bytes.len() < pos + 1 + usize::from(byte) {
        return Err(fault(DecodeKind::Short, pos));
    }
    if Name::MAX_LEN < size + 1 + usize::from(byte) + 1 {
        return Err(fault(DecodeKind::BadName, pos));
    }
    Ok(Step::Label(byte))
}
