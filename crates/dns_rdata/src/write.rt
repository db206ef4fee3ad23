//! Appending numbers to bytes, the highest byte first (RFC 1035, 2.3.2).
ghost use Rattle.std.specs.Prelude.{◌≡◌, ◌++◌, OnOk, OnErr};
ghost use Rattle.dns_model.specs.Bytes.{u16_bytes, u32_bytes};

use dns_record::NoMemory;

/// Appends two bytes, the highest first (RFC 1035, 2.3.2). Where memory runs out, `into` stays as it was.
pub fn push_u16(into: &mut Vec<u8>, number: u16) -> Result<(), NoMemory>
    ensures ok { OnOk result (into.new.items ≡ into.old.items ++ u16_bytes number) }
    ensures err { OnErr result (into.new.items ≡ into.old.items) }
{
    into.extend_from_slice(&u16::to_be_bytes(number))?;
    Ok(())
}

/// Appends four bytes, the highest first. Where memory runs out, `into` stays as it was.
pub fn push_u32(into: &mut Vec<u8>, number: u32) -> Result<(), NoMemory>
    ensures ok { OnOk result (into.new.items ≡ into.old.items ++ u32_bytes number) }
    ensures err { OnErr result (into.new.items ≡ into.old.items) }
{
    into.extend_from_slice(&u32::to_be_bytes(number))?;
    Ok(())
}
