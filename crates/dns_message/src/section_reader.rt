//! Reading the records of a section.
ghost use Rattle.std.specs.Prelude.{◌≡◌, ◌+◌, ◌<◌, ◌≤◌, ◌^◌, length, IfOk};
ghost use Rattle.dns_message.specs.Reading.{Reads};
ghost use Rattle.dns_message.specs.Readable.{IsReadable};
ghost use Rattle.dns_message.specs.RecordAt.{section_at};
ghost use Rattle.dns_message.specs.KnownNames.{AreKnown};

use crate::item::Item;
use crate::known_names::KnownNames;
use crate::message::Edns;
use crate::message_bytes::MessageBytes;
use crate::read_fault::ReadFault;
use crate::record_reader::item_of;
use dns_record::Record;

/// A record at the root without rdata (RFC 1035, 4.1.3), so that a count alone takes no memory.
const SMALLEST_RECORD: usize = 11;

// So many records of a section, its OPT with the upper bits of the code, and the place after the section. An OPT is taken
// where `allow_opt` is set, and once.
pub(crate) fn section_of(
    message: &MessageBytes<'_>,
    names: &mut KnownNames,
    room: &mut Vec<u8>,
    count: u16,
    allow_opt: bool,
    at: usize,
) -> Result<(Vec<Record>, Option<(Edns, u8)>, usize), ReadFault>
    requires readable { IsReadable message.now }
    requires known { AreKnown message.now.bytes.now names.old }
    requires at { at ≤ length message.now.bytes.now }
    ensures reads { Reads (λ x. (x.0.items, x.1, x.2)) result (section_at count allow_opt message.now.bytes.now at) }
    ensures fits { IfOk result (λ x. x.2 ≤ length message.now.bytes.now) }
    ensures known { AreKnown message.now.bytes.now names.new }
{
    let most = usize::from(count).min((message.bytes.len() - at) / SMALLEST_RECORD);
    let mut records = Vec::with_capacity(message.alloc, most)?;
    let mut opt = None;
    let mut allowed = allow_opt;
    let mut pos = at;
    'records: for _ in 0..count {
        let (item, next) = item_of(message, names, room, allowed, pos)?;
        pos = next;
        match item {
            Item::Kept(record) => records.push(record)?,
            Item::Opt(edns, code) => {
                opt = Some((edns, code));
                allowed = false;
            }
        }
    }
    Ok((records, opt, pos))
}
