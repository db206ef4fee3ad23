//! Addresses (RFC 1035, 3.4.1; RFC 3596, 2.4).
ghost use Rattle.std.specs.Prelude.{◌≡◌, ◌++◌, ◌∷◌, OnOk};
ghost use Rattle.dns_presentation.specs.Forms.{a_words, aaaa_words};
ghost use Rattle.dns_presentation.specs.Presentation.{or_generic};
ghost use Rattle.dns_presentation.specs.Spelling.{spaced};

use crate::words::push_generic;
use dns_record::NoMemory;
use dns_text::push_word;
use std::net::{Ipv4Addr, Ipv6Addr};

/// Appends the rdata of an A record.
#[tactic(auto, unfolding(crate::specs::Forms::a_words))]
pub(crate) fn push_a(into: &mut Vec<u8>, rdata: &[u8]) -> Result<(), NoMemory>
    ensures { OnOk result (into.new.items ≡ into.old.items ++ spaced (or_generic (a_words rdata.now) rdata.now)) }
{
    let Some(octets) = rdata.as_array::<4>() else {
        return push_generic(into, rdata);
    };
    let address = Ipv4Addr::from_octets(*octets);
    let text = address.to_string(*into.allocator())?;
    push_word(into, text.as_bytes())
}

/// Appends the rdata of an AAAA record.
#[tactic(auto, unfolding(crate::specs::Forms::aaaa_words))]
pub(crate) fn push_aaaa(into: &mut Vec<u8>, rdata: &[u8]) -> Result<(), NoMemory>
    ensures { OnOk result (into.new.items ≡ into.old.items ++ spaced (or_generic (aaaa_words rdata.now) rdata.now)) }
{
    let Some(octets) = rdata.as_array::<16>() else {
        return push_generic(into, rdata);
    };
    let address = Ipv6Addr::from_octets(*octets);
    let text = address.to_string(*into.allocator())?;
    push_word(into, text.as_bytes())
}
