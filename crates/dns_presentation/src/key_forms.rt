//! Rdata on keys and certificates beside DNSSEC (RFC 4255; RFC 6698; RFC 8659). Each call appends the form of any rdata where the rdata
//! has not its type's shape.
ghost use Rattle.std.specs.Prelude.{◌≡◌, ◌++◌, ◌∷◌, OnOk};
ghost use Rattle.std.specs.Char.{is_ascii_alphanumeric};
ghost use Rattle.std.specs.List.{list_all};
ghost use Rattle.dns_presentation.specs.Forms.{caa_words, is_tag as is_tag_text, sshfp_words, tlsa_words};
ghost use Rattle.dns_presentation.specs.Presentation.{or_generic};
ghost use Rattle.dns_presentation.specs.Spelling.{spaced};

use crate::names::push_quoted;
use crate::strings::counted_front;
use crate::words::push_generic;
use dns_record::NoMemory;
use dns_text::{push_number, push_octets_word, push_word};

/// Appends the rdata of an SSHFP record (RFC 4255, 3.2).
#[tactic(auto, unfolding(crate::specs::Forms::sshfp_words))]
pub(crate) fn push_sshfp(into: &mut Vec<u8>, rdata: &[u8]) -> Result<(), NoMemory>
    ensures { OnOk result (into.new.items ≡ into.old.items ++ spaced (or_generic (sshfp_words rdata.now) rdata.now)) }
{
    if rdata.len() <= 2 {
        return push_generic(into, rdata);
    }
    push_number(into, u64::from(rdata[0]))?;
    push_number(into, u64::from(rdata[1]))?;
    push_octets_word(into, &rdata[2..])
}

/// Appends the rdata of a TLSA or an SMIMEA record (RFC 6698, 2.2; RFC 8162, 2).
#[tactic(auto, unfolding(crate::specs::Forms::tlsa_words))]
pub(crate) fn push_tlsa(into: &mut Vec<u8>, rdata: &[u8]) -> Result<(), NoMemory>
    ensures { OnOk result (into.new.items ≡ into.old.items ++ spaced (or_generic (tlsa_words rdata.now) rdata.now)) }
{
    if rdata.len() <= 3 {
        return push_generic(into, rdata);
    }
    push_number(into, u64::from(rdata[0]))?;
    push_number(into, u64::from(rdata[1]))?;
    push_number(into, u64::from(rdata[2]))?;
    push_octets_word(into, &rdata[3..])
}

/// Whether bytes are letters and digits, at least one, as a tag of a CAA record is (RFC 8659, 4.1.1).
pub fn is_tag(tag: &[u8]) -> bool
    ensures { result ≡ is_tag_text tag.now }
{
    if tag.is_empty() {
        return false;
    }
    let mut rest = tag;
    'bytes: while let Some((byte, more)) = rest.split_first() {
        if !byte.is_ascii_alphanumeric() {
            return false;
        }
        rest = more;
    }
    true
}

/// Appends the rdata of a CAA record (RFC 8659, 4.1.1).
#[tactic(auto, unfolding(crate::specs::Forms::caa_words))]
pub(crate) fn push_caa(into: &mut Vec<u8>, rdata: &[u8]) -> Result<(), NoMemory>
    ensures { OnOk result (into.new.items ≡ into.old.items ++ spaced (or_generic (caa_words rdata.now) rdata.now)) }
{
    let Some((flags, rest)) = rdata.split_first() else {
        return push_generic(into, rdata);
    };
    let Some((tag, value)) = counted_front(rest) else {
        return push_generic(into, rdata);
    };
    if !is_tag(tag) {
        return push_generic(into, rdata);
    }
    push_number(into, u64::from(*flags))?;
    push_word(into, tag)?;
    push_quoted(into, value)
}
