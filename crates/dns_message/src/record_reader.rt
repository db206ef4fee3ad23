//! Reading a record (RFC 1035, 4.1.3).
ghost use Rattle.std.specs.Prelude.{◌≡◌, ◌+◌, ◌<◌, ◌≤◌, ◌^◌, length, IfOk};
ghost use Rattle.dns_message.specs.Reading.{Reads};
ghost use Rattle.dns_message.specs.Readable.{IsReadable};
ghost use Rattle.dns_model.specs.Names.{Labels};
ghost use Rattle.dns_message.specs.Fitting.{kept_of};
ghost use Rattle.dns_message.specs.RecordAt.{record_at, opt_at, item_at, edns_of, is_root};
ghost use Rattle.dns_message.specs.KnownNames.{AreKnown};

use crate::decode_error::DecodeKind;
use crate::header_flags::{DNSSEC_OK, EDNS_VERSION, EXTENDED_CODE};
use crate::item::Item;
use crate::known_names::KnownNames;
use crate::message::Edns;
use crate::message_bytes::MessageBytes;
use crate::name_reader::name_of;
use crate::number_reader::{u16_of, u32_of};
use crate::rdata::{opaque_of, rdata_of};
use crate::read_fault::{ReadFault, fault};
use dns_model::Proof;
use dns_record::{DNSClass, Name, Octets, Rdata, Record, RecordType};

/// What stands in a record after its owner and type.
#[derive(Drop)]
pub(crate) struct RecordFields {
    class: u16,
    ttl: u32,
    rdata: Rdata,
}

// A record from its class on, and the place after it. Its owner is added last, since dropping it on each way out is expensive.
#[tactic(auto, unfolding(crate::specs::RecordAt::record_at))]
fn record_fields_of(
    message: &MessageBytes<'_>,
    names: &mut KnownNames,
    room: &mut Vec<u8>,
    record_type: u16,
    at: usize,
) -> Result<(RecordFields, usize), ReadFault>
    requires readable { IsReadable message.now }
    requires known { AreKnown message.now.bytes.now names.old }
    requires at { at ≤ length message.now.bytes.now }
    ensures reads { (owner : Labels) → Reads (λ x. (kept_of owner record_type x.0, x.1)) result
        (record_at owner record_type message.now.bytes.now at) }
    ensures fits { IfOk result (λ x. x.1 ≤ length message.now.bytes.now) }
    ensures known { AreKnown message.now.bytes.now names.new }
{
    let (class, next) = u16_of(message.bytes, at)?;
    let (ttl, next) = u32_of(message.bytes, next)?;
    let (size, next) = u16_of(message.bytes, next)?;
    let rdata = rdata_of(message, names, room, record_type, class, size, next)?;
    Ok((RecordFields { class, ttl, rdata }, next + usize::from(size)))
}

// The record of an owner and a type with these fields.
fn kept_of(owner: Name, record_type: u16, fields: RecordFields) -> Item
    ensures { result ≡ kept_of owner record_type fields }
{
    Item::Kept(Record {
        name: owner,
        record_type: RecordType(record_type),
        dns_class: DNSClass(fields.class),
        ttl: fields.ttl,
        rdata: fields.rdata,
        proof: Proof::Indeterminate,
    })
}

// What an OPT's class, ttl and rdata say (RFC 6891, 6.1.2 and 6.1.3).
fn edns_of(payload: u16, ttl: u32, options: Octets) -> Edns
    ensures { result ≡ edns_of payload ttl options }
{
    Edns {
        max_payload: payload,
        version: (ttl / EDNS_VERSION % 256) as u8,
        dnssec_ok: ttl & DNSSEC_OK != 0,
        flags: (ttl % DNSSEC_OK) as u16,
        options,
    }
}

// An OPT from its class on, and the place after it.
#[tactic(auto, unfolding(crate::specs::RecordAt::opt_at))]
fn opt_of(message: &MessageBytes<'_>, at: usize) -> Result<(Item, usize), ReadFault>
    requires readable { IsReadable message.now }
    requires at { at ≤ length message.now.bytes.now }
    ensures reads { Reads (λ x. (x.0, x.1)) result (opt_at message.now.bytes.now at) }
    ensures fits { IfOk result (λ x. x.1 ≤ length message.now.bytes.now) }
{
    let (payload, next) = u16_of(message.bytes, at)?;
    let (ttl, next) = u32_of(message.bytes, next)?;
    let (size, next) = u16_of(message.bytes, next)?;
    let options = opaque_of(message, size, next)?;
    let edns = edns_of(payload, ttl, options);
    Ok((
        Item::Opt(edns, (ttl / EXTENDED_CODE) as u8),
        next + usize::from(size),
    ))
}

// A record of a section and the place after it. An OPT is taken where one may stand, and at the root.
#[tactic(auto, unfolding(crate::specs::RecordAt::item_at))]
pub(crate) fn item_of(
    message: &MessageBytes<'_>,
    names: &mut KnownNames,
    room: &mut Vec<u8>,
    allow_opt: bool,
    at: usize,
) -> Result<(Item, usize), ReadFault>
    requires readable { IsReadable message.now }
    requires known { AreKnown message.now.bytes.now names.old }
    requires at { at ≤ length message.now.bytes.now }
    ensures reads { Reads (λ x. (x.0, x.1)) result (item_at allow_opt message.now.bytes.now at) }
    ensures fits { IfOk result (λ x. x.1 ≤ length message.now.bytes.now) }
    ensures known { AreKnown message.now.bytes.now names.new }
{
    let (owner, next) = name_of(message, names, room, at)?;
    let (record_type, next) = u16_of(message.bytes, next)?;
    if record_type == RecordType::OPT.0 {
        if allow_opt && stands_at_root(&owner) {
            return opt_of(message, next);
        }
        return Err(fault(DecodeKind::BadOpt, at));
    }
    let (fields, next) = record_fields_of(message, names, room, record_type, next)?;
    Ok((kept_of(owner, record_type, fields), next))
}

// Whether a record's owner is the root.
fn stands_at_root(owner: &Name) -> bool
    ensures { result ≡ is_root owner.now }
{
    owner.wire().len() == 1
}
