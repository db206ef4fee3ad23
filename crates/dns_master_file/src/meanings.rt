//! What the words of an rdata mean (RFC 1035, 3.3 and 5.1; RFC 3596; RFC 4034; RFC 4648; RFC 5155; RFC 8659).
ghost use Rattle.std.specs.Prelude.{◌≡◌, IfOk};
ghost use Rattle.std.specs.Option.{option_map};
ghost use Rattle.dns_master_file.specs.Meanings.{base64_meant as base64_in, counted as counted_bytes, digits_meant as digits_in, filled as filled_bytes, meant as meant_by, name_meant as name_in};
ghost use Rattle.dns_master_file.specs.declared.field.Field.TheVariants.{DomainName, FourBytes, Hash, Ipv4, Ipv6, Salt, Tag, Time, TwoBytes, TypeWord};

use crate::codes::type_of_word;
use crate::field::Field;
use base64::DecodeAllocError;
use base64::engine::general_purpose::STANDARD;
use dns_master_words::{ipv4_in, ipv6_in, text_in, time_in};
use dns_model::NameError;
use dns_presentation::is_tag;
use dns_rdata::{base32hex_decode, push_u16, push_u32};
use dns_record::{Name, NoMemory};
use dns_text::{decimal_in, octets_in, u8_in, u16_in};
use hex::FromHexError;
use std::alloc::Global;

/// The name that a word is; one without a last dot stands below the root, and `@`, which means an origin, is none.
pub(crate) fn name_meant(alloc: Global, word: &[u8]) -> Result<Option<Name>, NoMemory>
    ensures { IfOk result (λ n. n ≡ name_in word.now) }
{
    if *word == *b"@".as_slice() {
        return Ok(None);
    }
    match Name::from_bytes(alloc, word) {
        Ok(name) => Ok(Some(name)),
        Err(NameError::NoMemory) => Err(NoMemory),
        Err(_) => Ok(None),
    }
}

/// The bytes that hexadecimal digits of either case are, two for each.
#[tactic(auto, unfolding(crate::specs::Meanings::digits_meant))]
pub(crate) fn digits_meant(alloc: Global, word: &[u8]) -> Result<Option<Vec<u8>>, NoMemory>
    ensures { IfOk result (λ b. option_map (λ v. v.items) b ≡ digits_in word.now) }
{
    match hex::decode(alloc, word) {
        Ok(bytes) => Ok(Some(bytes)),
        Err(FromHexError::OutOfMemory) => Err(NoMemory),
        Err(_) => Ok(None),
    }
}

// The bytes that a word is in base64 (RFC 4648, 4).
#[tactic(auto, unfolding(crate::specs::Meanings::base64_meant))]
fn base64_meant(alloc: Global, word: &[u8]) -> Result<Option<Vec<u8>>, NoMemory>
    ensures { IfOk result (λ b. option_map (λ v. v.items) b ≡ base64_in word.now) }
{
    match STANDARD.decode(alloc, word) {
        Ok(bytes) => Ok(Some(bytes)),
        Err(DecodeAllocError::OutOfMemory) => Err(NoMemory),
        Err(_) => Ok(None),
    }
}

// Bytes that are some, and not none.
fn filled(bytes: Option<Vec<u8>>) -> Option<Vec<u8>>
    ensures { option_map (λ v. v.items) result ≡ filled_bytes (option_map (λ v. v.items) bytes) }
{
    let bytes = bytes?;
    if bytes.is_empty() { None } else { Some(bytes) }
}

/// Bytes behind their number, if that has eight bits.
pub(crate) fn counted(alloc: Global, octets: &[u8]) -> Result<Option<Vec<u8>>, NoMemory>
    ensures { IfOk result (λ b. option_map (λ v. v.items) b ≡ counted_bytes octets.now) }
{
    if octets.len() > 255 {
        return Ok(None);
    }
    let mut bytes = Vec::from_slice(alloc, &[octets.len() as u8])?;
    bytes.extend_from_slice(octets)?;
    Ok(Some(bytes))
}

// The bytes of a salt behind their number.
#[tactic(auto, unfolding(crate::specs::Meanings::meant))]
fn salt_meant(alloc: Global, word: &[u8]) -> Result<Option<Vec<u8>>, NoMemory>
    ensures { IfOk result (λ b. option_map (λ v. v.items) b ≡ meant_by Salt word.now) }
{
    match octets_in(alloc, word)? {
        Some(salt) => counted(alloc, salt.as_slice()),
        None => Ok(None),
    }
}

// The bytes of a tag behind their number.
#[tactic(auto, unfolding(crate::specs::Meanings::meant))]
fn tag_meant(alloc: Global, word: &[u8]) -> Result<Option<Vec<u8>>, NoMemory>
    ensures { IfOk result (λ b. option_map (λ v. v.items) b ≡ meant_by Tag word.now) }
{
    if is_tag(word) {
        counted(alloc, word)
    } else {
        Ok(None)
    }
}

// The bytes of a hash behind their number.
#[tactic(auto, unfolding(crate::specs::Meanings::meant))]
fn hash_meant(alloc: Global, word: &[u8]) -> Result<Option<Vec<u8>>, NoMemory>
    ensures { IfOk result (λ b. option_map (λ v. v.items) b ≡ meant_by Hash word.now) }
{
    match base32hex_decode(word) {
        Some(hash) => counted(alloc, hash.as_slice()),
        None => Ok(None),
    }
}

// The bytes of an address of IPv4.
#[tactic(auto, unfolding(crate::specs::Meanings::meant))]
fn ipv4_meant(alloc: Global, word: &[u8]) -> Result<Option<Vec<u8>>, NoMemory>
    ensures { IfOk result (λ b. option_map (λ v. v.items) b ≡ meant_by Ipv4 word.now) }
{
    match ipv4_in(word) {
        Some(octets) => Ok(Some(Vec::from_slice(alloc, octets.as_slice())?)),
        None => Ok(None),
    }
}

// The bytes of an address of IPv6.
#[tactic(auto, unfolding(crate::specs::Meanings::meant))]
fn ipv6_meant(alloc: Global, word: &[u8]) -> Result<Option<Vec<u8>>, NoMemory>
    ensures { IfOk result (λ b. option_map (λ v. v.items) b ≡ meant_by Ipv6 word.now) }
{
    match ipv6_in(word) {
        Some(octets) => Ok(Some(Vec::from_slice(alloc, octets.as_slice())?)),
        None => Ok(None),
    }
}

// The bytes of a number of 16 bits.
#[tactic(auto, unfolding(crate::specs::Meanings::meant))]
fn two_bytes(alloc: Global, word: &[u8]) -> Result<Option<Vec<u8>>, NoMemory>
    ensures { IfOk result (λ b. option_map (λ v. v.items) b ≡ meant_by TwoBytes word.now) }
{
    let Some(number) = u16_in(word) else {
        return Ok(None);
    };
    let mut bytes = Vec::new(alloc);
    push_u16(&mut bytes, number)?;
    Ok(Some(bytes))
}

// The bytes of a type.
#[tactic(auto, unfolding(crate::specs::Meanings::meant))]
fn type_meant(alloc: Global, word: &[u8]) -> Result<Option<Vec<u8>>, NoMemory>
    ensures { IfOk result (λ b. option_map (λ v. v.items) b ≡ meant_by TypeWord word.now) }
{
    let Some(record_type) = type_of_word(word) else {
        return Ok(None);
    };
    let mut bytes = Vec::new(alloc);
    push_u16(&mut bytes, record_type.0)?;
    Ok(Some(bytes))
}

// The bytes of a time.
#[tactic(auto, unfolding(crate::specs::Meanings::meant))]
fn time_meant(alloc: Global, word: &[u8]) -> Result<Option<Vec<u8>>, NoMemory>
    ensures { IfOk result (λ b. option_map (λ v. v.items) b ≡ meant_by Time word.now) }
{
    let Some(seconds) = time_in(word) else {
        return Ok(None);
    };
    let mut bytes = Vec::new(alloc);
    push_u32(&mut bytes, seconds)?;
    Ok(Some(bytes))
}

// The bytes of a number of 32 bits.
#[tactic(auto, unfolding(crate::specs::Meanings::meant))]
fn four_bytes(alloc: Global, word: &[u8]) -> Result<Option<Vec<u8>>, NoMemory>
    ensures { IfOk result (λ b. option_map (λ v. v.items) b ≡ meant_by FourBytes word.now) }
{
    let Some(number) = decimal_in(word, 0xffff_ffff) else {
        return Ok(None);
    };
    let mut bytes = Vec::new(alloc);
    push_u32(&mut bytes, number as u32)?;
    Ok(Some(bytes))
}

// The wire form of a name.
#[tactic(auto, unfolding(crate::specs::Meanings::meant))]
fn wire_meant(alloc: Global, word: &[u8]) -> Result<Option<Vec<u8>>, NoMemory>
    ensures { IfOk result (λ b. option_map (λ v. v.items) b ≡ meant_by DomainName word.now) }
{
    let Some(name) = name_meant(alloc, word)? else {
        return Ok(None);
    };
    Ok(Some(Vec::from_slice(alloc, name.wire())?))
}

/// The bytes of a field's word.
#[tactic(auto, unfolding(crate::specs::Meanings::meant))]
pub(crate) fn meant(alloc: Global, field: Field, word: &[u8]) -> Result<Option<Vec<u8>>, NoMemory>
    ensures { IfOk result (λ b. option_map (λ v. v.items) b ≡ meant_by field word.now) }
{
    match field {
        Field::Byte => match u8_in(word) {
            Some(number) => Ok(Some(Vec::from_slice(alloc, &[number])?)),
            None => Ok(None),
        },
        Field::TwoBytes => two_bytes(alloc, word),
        Field::FourBytes => four_bytes(alloc, word),
        Field::DomainName => wire_meant(alloc, word),
        Field::Salt => salt_meant(alloc, word),
        Field::Digits => Ok(filled(digits_meant(alloc, word)?)),
        Field::Base64 => Ok(filled(base64_meant(alloc, word)?)),
        Field::Ipv4 => ipv4_meant(alloc, word),
        Field::Ipv6 => ipv6_meant(alloc, word),
        Field::TypeWord | Field::Types => type_meant(alloc, word),
        Field::Time => time_meant(alloc, word),
        Field::Hash => hash_meant(alloc, word),
        Field::Tag => tag_meant(alloc, word),
        Field::Text | Field::Texts => text_in(alloc, word),
    }
}
