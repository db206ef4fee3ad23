//! Rdata that are names, numbers and texts (RFC 1035, 3.3; RFC 2782). Each call appends the form of any rdata where the rdata has not
//! its type's shape.
ghost use Rattle.std.specs.Prelude.{◌≡◌, ◌++◌, ◌∷◌, OnOk, option_map};
ghost use Rattle.dns_model.specs.NameForm.{name_of as name_in};
ghost use Rattle.dns_presentation.specs.Forms.{mx_words, name_words, soa_fields, soa_words, srv_fields, srv_in, srv_words, txt_words};
ghost use Rattle.dns_presentation.specs.Presentation.{or_generic};
ghost use Rattle.dns_presentation.specs.Spelling.{spaced};

use crate::names::push_name_word;
use crate::strings::quoted_strings;
use crate::words::{push_generic, push_numbers};
use dns_rdata::{Soa, u16_at};
use dns_record::{NameRef, NoMemory};
use dns_text::push_number;
use std::marker::Model;

// The name whose wire form the bytes are.
fn name_of(bytes: &[u8]) -> Option<NameRef<'_>>
    ensures { result ≡ name_in bytes.now }
{
    let (name, rest) = NameRef::front(bytes)?;
    match rest {
        [] => Some(name),
        _ => None,
    }
}

/// Appends the rdata of a record that holds one name: NS, CNAME, PTR or DNAME.
#[tactic(auto, unfolding(crate::specs::Forms::name_words))]
pub(crate) fn push_name_form(into: &mut Vec<u8>, rdata: &[u8]) -> Result<(), NoMemory>
    ensures { OnOk result (into.new.items ≡ into.old.items ++ spaced (or_generic (name_words rdata.now) rdata.now)) }
{
    match name_of(rdata) {
        Some(name) => push_name_word(into, &name),
        None => push_generic(into, rdata),
    }
}

/// Appends the rdata of an MX record.
#[tactic(auto, unfolding(crate::specs::Forms::mx_words))]
pub(crate) fn push_mx(into: &mut Vec<u8>, rdata: &[u8]) -> Result<(), NoMemory>
    ensures { OnOk result (into.new.items ≡ into.old.items ++ spaced (or_generic (mx_words rdata.now) rdata.now)) }
{
    if rdata.len() < 2 {
        return push_generic(into, rdata);
    }
    let Some(exchange) = name_of(&rdata[2..]) else {
        return push_generic(into, rdata);
    };
    push_number(into, u64::from(u16_at(rdata, 0)))?;
    push_name_word(into, &exchange)
}

// What an SRV rdata says (RFC 2782).
#[derive(Drop)]
struct Srv<'a> {
    priority: u16,
    weight: u16,
    port: u16,
    target: NameRef<'a>,
}

impl<'a> Model for Srv<'a> {
    ghost use Rattle.dns_presentation.specs.Forms.{SrvValue};

    ghost Value = { SrvValue };

    ghost view = { λ s. record { priority = s.priority; weight = s.weight; port = s.port; target = s.target } };
}

// What these bytes say as the rdata of an SRV; None exactly where they have not its shape.
#[tactic(auto, unfolding(crate::specs::Forms::srv_in))]
fn read_srv(rdata: &[u8]) -> Option<Srv<'_>>
    ensures { result ≡ srv_in rdata.now }
{
    if rdata.len() < 6 {
        return None;
    }
    let target = name_of(&rdata[6..])?;
    Some(Srv {
        priority: u16_at(rdata, 0),
        weight: u16_at(rdata, 2),
        port: u16_at(rdata, 4),
        target,
    })
}

// Appends what an SRV says.
fn push_srv_fields(into: &mut Vec<u8>, srv: &Srv<'_>) -> Result<(), NoMemory>
    ensures { OnOk result (into.new.items ≡ into.old.items ++ spaced (srv_fields srv.now)) }
{
    push_number(into, u64::from(srv.priority))?;
    push_number(into, u64::from(srv.weight))?;
    push_number(into, u64::from(srv.port))?;
    push_name_word(into, &srv.target)
}

/// Appends the rdata of an SRV record (RFC 2782).
#[tactic(auto, unfolding(crate::specs::Forms::srv_words))]
pub(crate) fn push_srv(into: &mut Vec<u8>, rdata: &[u8]) -> Result<(), NoMemory>
    ensures { OnOk result (into.new.items ≡ into.old.items ++ spaced (or_generic (srv_words rdata.now) rdata.now)) }
{
    match read_srv(rdata) {
        Some(srv) => push_srv_fields(into, &srv),
        None => push_generic(into, rdata),
    }
}

/// Appends the rdata of a TXT record.
#[tactic(auto, unfolding(crate::specs::Forms::txt_words))]
pub(crate) fn push_txt(into: &mut Vec<u8>, rdata: &[u8]) -> Result<(), NoMemory>
    ensures { OnOk result (into.new.items ≡ into.old.items ++ spaced (or_generic (txt_words rdata.now) rdata.now)) }
{
    if rdata.is_empty() {
        return push_generic(into, rdata);
    }
    let Some(words) = quoted_strings(*into.allocator(), rdata)? else {
        return push_generic(into, rdata);
    };
    into.extend_from_slice(&words)?;
    Ok(())
}

// Appends what an SOA says.
fn push_soa_fields(into: &mut Vec<u8>, soa: &Soa<'_>) -> Result<(), NoMemory>
    ensures { OnOk result (into.new.items ≡ into.old.items ++ spaced (soa_fields soa.now)) }
{
    push_name_word(into, &soa.mname)?;
    push_name_word(into, &soa.rname)?;
    push_numbers(
        into,
        &[
            u64::from(soa.serial),
            u64::from(soa.refresh),
            u64::from(soa.retry),
            u64::from(soa.expire),
            u64::from(soa.minimum),
        ],
    )
}

/// Appends the rdata of an SOA record.
#[tactic(auto, unfolding(crate::specs::Forms::soa_words))]
pub(crate) fn push_soa(into: &mut Vec<u8>, rdata: &[u8]) -> Result<(), NoMemory>
    ensures { OnOk result (into.new.items ≡ into.old.items ++ spaced (or_generic (soa_words rdata.now) rdata.now)) }
{
    match Soa::read(rdata) {
        Some(soa) => push_soa_fields(into, &soa),
        None => push_generic(into, rdata),
    }
}
