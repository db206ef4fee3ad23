//! Rdata of DNSSEC (RFC 4034; RFC 5155). Each call appends the form of any rdata where the rdata has not its type's shape, or has no
//! text that would be read as the same bytes.
ghost use Rattle.std.specs.Prelude.{◌≡◌, ◌++◌, ◌∷◌, OnOk, option_map};
ghost use Rattle.dns_presentation.specs.Forms.{dnskey_words, ds_words, nsec_words, nsec3_words, nsec3param_words, rrsig_words, signed_fields, signer_fields};
ghost use Rattle.dns_presentation.specs.Presentation.{or_generic};
ghost use Rattle.dns_presentation.specs.Spelling.{spaced};

use crate::calendar::push_time;
use crate::names::push_name_word;
use crate::strings::counted_front;
use crate::type_lists::types_of;
use crate::type_texts::{push_type_word, push_types};
use crate::words::{push_base64, push_generic, push_numbers};
use dns_rdata::{Dnskey, Ds, Nsec, Nsec3, Rrsig, base32hex_encode, u16_at};
use dns_record::NoMemory;
use dns_text::{push_number, push_octets_word, push_word};

/// Appends the rdata of a DS or a CDS record (RFC 4034, 5.3; RFC 7344, 3.1).
#[tactic(auto, unfolding(crate::specs::Forms::ds_words))]
pub(crate) fn push_ds(into: &mut Vec<u8>, rdata: &[u8]) -> Result<(), NoMemory>
    ensures { OnOk result (into.new.items ≡ into.old.items ++ spaced (or_generic (ds_words rdata.now) rdata.now)) }
{
    let Some(ds) = Ds::read(rdata) else {
        return push_generic(into, rdata);
    };
    if ds.digest.is_empty() {
        return push_generic(into, rdata);
    }
    push_number(into, u64::from(ds.key_tag))?;
    push_number(into, u64::from(ds.algorithm))?;
    push_number(into, u64::from(ds.digest_type))?;
    push_octets_word(into, ds.digest)
}

/// Appends the rdata of a DNSKEY or a CDNSKEY record (RFC 4034, 2.2; RFC 7344, 3.2).
#[tactic(auto, unfolding(crate::specs::Forms::dnskey_words))]
pub(crate) fn push_dnskey(into: &mut Vec<u8>, rdata: &[u8]) -> Result<(), NoMemory>
    ensures { OnOk result (into.new.items ≡ into.old.items ++ spaced (or_generic (dnskey_words rdata.now) rdata.now)) }
{
    let Some(key) = Dnskey::read(rdata) else {
        return push_generic(into, rdata);
    };
    if key.key.is_empty() {
        return push_generic(into, rdata);
    }
    push_number(into, u64::from(key.flags))?;
    push_number(into, u64::from(key.protocol))?;
    push_number(into, u64::from(key.algorithm))?;
    push_base64(into, key.key)
}

// Appends what a signature says of the records and of its time.
fn push_signed(into: &mut Vec<u8>, sig: &Rrsig<'_>) -> Result<(), NoMemory>
    ensures { OnOk result (into.new.items ≡ into.old.items ++ spaced (signed_fields sig.now)) }
{
    push_type_word(into, sig.type_covered)?;
    push_numbers(
        into,
        &[
            u64::from(sig.algorithm),
            u64::from(sig.labels),
            u64::from(sig.original_ttl),
        ],
    )?;
    push_time(into, sig.expiration)?;
    push_time(into, sig.inception)
}

// Appends whose signature it is, and the signature.
fn push_signer(into: &mut Vec<u8>, sig: &Rrsig<'_>) -> Result<(), NoMemory>
    ensures { OnOk result (into.new.items ≡ into.old.items ++ spaced (signer_fields sig.now)) }
{
    push_number(into, u64::from(sig.key_tag))?;
    push_name_word(into, &sig.signer)?;
    push_base64(into, sig.signature)
}

/// Appends the rdata of an RRSIG record (RFC 4034, 3.2).
#[tactic(auto, unfolding(crate::specs::Forms::rrsig_words))]
pub(crate) fn push_rrsig(into: &mut Vec<u8>, rdata: &[u8]) -> Result<(), NoMemory>
    ensures { OnOk result (into.new.items ≡ into.old.items ++ spaced (or_generic (rrsig_words rdata.now) rdata.now)) }
{
    let Some(sig) = Rrsig::read(rdata) else {
        return push_generic(into, rdata);
    };
    if sig.signature.is_empty() {
        return push_generic(into, rdata);
    }
    push_signed(into, &sig)?;
    push_signer(into, &sig)
}

/// Appends the rdata of an NSEC record (RFC 4034, 4.2).
#[tactic(auto, unfolding(crate::specs::Forms::nsec_words))]
pub(crate) fn push_nsec(into: &mut Vec<u8>, rdata: &[u8]) -> Result<(), NoMemory>
    ensures { OnOk result (into.new.items ≡ into.old.items ++ spaced (or_generic (nsec_words rdata.now) rdata.now)) }
{
    let Some(nsec) = Nsec::read(rdata) else {
        return push_generic(into, rdata);
    };
    let Some(types) = types_of(*into.allocator(), nsec.types.as_slice())? else {
        return push_generic(into, rdata);
    };
    push_name_word(into, &nsec.next)?;
    push_types(into, &types)
}

/// Appends the rdata of an NSEC3 record (RFC 5155, 3.3).
#[tactic(auto, unfolding(crate::specs::Forms::nsec3_words))]
pub(crate) fn push_nsec3(into: &mut Vec<u8>, rdata: &[u8]) -> Result<(), NoMemory>
    ensures { OnOk result (into.new.items ≡ into.old.items ++ spaced (or_generic (nsec3_words rdata.now) rdata.now)) }
{
    let Some(nsec3) = Nsec3::read(rdata) else {
        return push_generic(into, rdata);
    };
    let Some(next) = nsec3.next.as_array::<20>() else {
        return push_generic(into, rdata);
    };
    let Some(types) = types_of(*into.allocator(), nsec3.types.as_slice())? else {
        return push_generic(into, rdata);
    };
    push_number(into, u64::from(nsec3.hash_algorithm))?;
    push_number(into, u64::from(nsec3.flags))?;
    push_number(into, u64::from(nsec3.iterations))?;
    push_octets_word(into, nsec3.salt)?;
    push_word(into, base32hex_encode(next).as_slice())?;
    push_types(into, &types)
}

/// Appends the rdata of an NSEC3PARAM record (RFC 5155, 4.3).
#[tactic(auto, unfolding(crate::specs::Forms::nsec3param_words))]
pub(crate) fn push_nsec3param(into: &mut Vec<u8>, rdata: &[u8]) -> Result<(), NoMemory>
    ensures { OnOk result (into.new.items ≡ into.old.items ++ spaced (or_generic (nsec3param_words rdata.now) rdata.now)) }
{
    if rdata.len() < 4 {
        return push_generic(into, rdata);
    }
    let Some((salt, [])) = counted_front(&rdata[4..]) else {
        return push_generic(into, rdata);
    };
    push_number(into, u64::from(rdata[0]))?;
    push_number(into, u64::from(rdata[1]))?;
    push_number(into, u64::from(u16_at(rdata, 2)))?;
    push_octets_word(into, salt)
}
