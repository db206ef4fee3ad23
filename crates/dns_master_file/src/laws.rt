//! A law: a record is read as it was written. It is the contract of a function that does nothing.
ghost use Rattle.std.specs.Prelude.{◌≡◌, ◌≤◌, ◌<◌, true};
ghost use Rattle.dns_model.specs.Bytes.{is_bytes};
ghost use Rattle.dns_master_file.specs.Laws.{IsReadBack};

use dns_record::Record;

// The same bytes, known to be below 256.
fn known_bytes(bytes: &[u8]) -> &[u8]
    ensures same { result.now ≡ bytes.now }
    ensures bytes { is_bytes bytes.now ≡ true }
{
    bytes
}

// The same number, known to have 16 bits.
fn known_u16(number: u16) -> u16
    ensures same { result ≡ number }
    ensures small { result ≤ 65535 }
{
    number
}

// The same number, known to have 32 bits.
fn known_u32(number: u32) -> u32
    ensures same { result ≡ number }
    ensures small { result < 4294967296 }
{
    number
}

/// A law: the line that `presentation` writes of a record, of any type and class, is read by `read_line` as the same owner, ttl, class,
/// type and rdata.
pub fn written_records_are_read(_record: &Record)
    ensures { IsReadBack _record.now }
{
    let _owner = _record.name.borrowed().copy();
    let _kind = known_u16(_record.record_type.0);
    let _class = known_u16(_record.dns_class.0);
    let _ttl = known_u32(_record.ttl);
    let _rdata = known_bytes(_record.rdata.as_slice());
}
