//! A record as a line of a master file (RFC 1035, 5.1; RFC 3597, 5).
ghost use Rattle.std.specs.Prelude.{◌≡◌, ◌++◌, ◌∷◌, OnOk, IfOk};
ghost use Rattle.dns_model.specs.Types.{has_shapes as has_shapes_in};
ghost use Rattle.dns_presentation.specs.Forms.{form_words};
ghost use Rattle.dns_presentation.specs.Presentation.{or_generic, presentation, rdata_words};
ghost use Rattle.dns_presentation.specs.Spelling.{spaced};

use crate::addresses::{push_a, push_aaaa};
use crate::dnssec_forms::{
    push_dnskey, push_ds, push_nsec, push_nsec3, push_nsec3param, push_rrsig,
};
use crate::forms::{push_mx, push_name_form, push_soa, push_srv, push_txt};
use crate::key_forms::{push_caa, push_sshfp, push_tlsa};
use crate::names::push_name;
use crate::type_texts::{CAA, CDNSKEY, CDS, SMIMEA, SSHFP, TLSA, push_type_word};
use crate::words::push_generic;
use dns_record::{DNSClass, NoMemory, Record, RecordType};
use dns_text::{push_class_word, push_number};
use std::alloc::Global;

/// A record as a line of a master file, without the line's end: owner, ttl, class, type and rdata, one space between each two.
///
/// An rdata that has not its type's shape, that would be read as other bytes, or whose type or class has no form here, stands as `\#`, its
/// length and its bytes (RFC 3597, 5).
#[tactic(auto, unfolding(crate::specs::Presentation::presentation))]
pub fn presentation(alloc: Global, from: &Record) -> Result<Vec<u8>, NoMemory>
    ensures { IfOk result (λ text. text.items ≡ presentation from.now) }
{
    let mut line = Vec::new(alloc);
    push_name(&mut line, &from.name.borrowed())?;
    push_number(&mut line, u64::from(from.ttl))?;
    push_class_word(&mut line, from.dns_class)?;
    push_type_word(&mut line, from.record_type)?;
    push_rdata(&mut line, from)?;
    Ok(line)
}

// Whether an rdata has its type's shape in this class (RFC 3597, 4).
fn has_shapes(class: DNSClass) -> bool
    ensures { result ≡ has_shapes_in class.0 }
{
    class == DNSClass::IN || class == DNSClass::NONE || class == DNSClass::ANY
}

// Appends the rdata of a record.
#[tactic(auto, unfolding(crate::specs::Presentation::rdata_words))]
fn push_rdata(into: &mut Vec<u8>, from: &Record) -> Result<(), NoMemory>
    ensures { OnOk result (into.new.items ≡ into.old.items
        ++ spaced (rdata_words from.now.class from.now.rtype from.now.rdata)) }
{
    let rdata = from.rdata.as_slice();
    if has_shapes(from.dns_class) {
        push_form(into, from.record_type, rdata)
    } else {
        push_generic(into, rdata)
    }
}

// Appends an rdata in its type's form.
#[tactic(auto, unfolding(crate::specs::Forms::form_words))]
fn push_form(into: &mut Vec<u8>, record_type: RecordType, rdata: &[u8]) -> Result<(), NoMemory>
    ensures { OnOk result (into.new.items ≡ into.old.items
        ++ spaced (or_generic (form_words record_type.0 rdata.now) rdata.now)) }
{
    match record_type {
        RecordType::A => push_a(into, rdata),
        RecordType::NS | RecordType::CNAME | RecordType::PTR | RecordType::DNAME => {
            push_name_form(into, rdata)
        }
        RecordType::SOA => push_soa(into, rdata),
        RecordType::MX => push_mx(into, rdata),
        RecordType::TXT => push_txt(into, rdata),
        RecordType::AAAA => push_aaaa(into, rdata),
        RecordType::SRV => push_srv(into, rdata),
        RecordType::DS | CDS => push_ds(into, rdata),
        SSHFP => push_sshfp(into, rdata),
        RecordType::RRSIG => push_rrsig(into, rdata),
        RecordType::NSEC => push_nsec(into, rdata),
        RecordType::DNSKEY | CDNSKEY => push_dnskey(into, rdata),
        RecordType::NSEC3 => push_nsec3(into, rdata),
        RecordType::NSEC3PARAM => push_nsec3param(into, rdata),
        TLSA | SMIMEA => push_tlsa(into, rdata),
        CAA => push_caa(into, rdata),
        _ => push_generic(into, rdata),
    }
}
