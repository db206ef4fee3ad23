//! Reading the numbers of a message.
ghost use Rattle.std.specs.Prelude.{◌≡◌, ◌+◌, ◌<◌, ◌≤◌, ◌^◌, length, IfOk};
ghost use Rattle.dns_message.specs.Reading.{Reads, u16_field, u32_field};

use crate::decode_error::DecodeKind;
use crate::read_fault::{ReadFault, fault};
use dns_rdata::{u16_at, u32_at};

// The number of two bytes at a place, and the place after it.
#[tactic(auto, unfolding(crate::specs::Reading::u16_field))]
pub(crate) fn u16_of(bytes: &[u8], at: usize) -> Result<(u16, usize), ReadFault>
    requires short { length bytes.now < 2 ^ 32 }
    requires at { at ≤ length bytes.now }
    ensures reads { Reads (λ x. x) result (u16_field bytes.now at) }
    ensures fits { IfOk result (λ x. (x.1 ≡ at + 2) × (x.1 ≤ length bytes.now)) }
{
    if bytes.len() < at + 2 {
        return Err(fault(DecodeKind::Short, at));
    }
    Ok((u16_at(bytes, at), at + 2))
}

// The number of four bytes at a place, and the place after it.
#[tactic(auto, unfolding(crate::specs::Reading::u32_field))]
pub(crate) fn u32_of(bytes: &[u8], at: usize) -> Result<(u32, usize), ReadFault>
    requires short { length bytes.now < 2 ^ 32 }
    requires at { at ≤ length bytes.now }
    ensures reads { Reads (λ x. x) result (u32_field bytes.now at) }
    ensures fits { IfOk result (λ x. (x.1 ≡ at + 4) × (x.1 ≤ length bytes.now)) }
{
    if bytes.len() < at + 4 {
        return Err(fault(DecodeKind::Short, at));
    }
    Ok((u32_at(bytes, at), at + 4))
}
