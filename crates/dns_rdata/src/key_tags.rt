//! The key tags by which signatures and DS records name a key (RFC 4034, appendix B).
ghost use Rattle.std.specs.Prelude.{◌≡◌, ◌+◌, ◌/◌, ◌%◌, ◌^◌};
ghost use Rattle.dns_model.specs.Signing.{key_tag as tag_of, tag_sum};

/// The key tag of a DNSKEY rdata, by which signatures and DS records name it (RFC 4034, appendix B): None exactly below four
/// bytes.
#[tactic(auto, using(crate::proofs::TagLemmas::tag_from_32_bits))]
pub fn key_tag(key: &[u8]) -> Option<u16>
    ensures { result ≡ tag_of key.now }
{
    if key.len() < 4 {
        return None;
    }
    Some(with_carry(sum_of(key)))
}

// The sum of the bytes, those at even places shifted left by 8, of which 32 bits are kept.
fn sum_of(key: &[u8]) -> u32
    ensures { result ≡ tag_sum key.now % 2 ^ 32 }
{
    let mut sum: u32 = 0;
    let mut rest = key;
    while let [high, low, after @ ..] = rest {
        sum = sum.wrapping_add(u32::from(*high) * 256 + u32::from(*low));
        rest = after;
    }
    match rest {
        [high] => sum.wrapping_add(u32::from(*high) * 256),
        _ => sum,
    }
}

// Adds the bits from 16 up once, and keeps 16 bits.
fn with_carry(sum: u32) -> u16
    ensures { result ≡ (sum + sum / 65536) % 65536 }
{
    ((u64::from(sum) + u64::from(sum / 65536)) % 65536) as u16
}
