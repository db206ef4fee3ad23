//! An rdata as it is read, in its type's form or as its bytes (RFC 1035, 5.1; RFC 3597, 5).
ghost use Rattle.std.specs.Prelude.{◌≡◌, length};
ghost use Rattle.std.specs.Result.{result_map_both};
ghost use Rattle.dns_model.specs.Gives.{Gives, or_error};
ghost use Rattle.dns_model.specs.Types.{has_shapes as has_shapes_in};
ghost use Rattle.dns_master_file.specs.Fields.{field_in, fields_in, front_word as word_or_text, is_text as is_a_text, one_in, refusal_of as refused_as, string_in, strings_in, takes_rest as takes_all, type_first, types_in};
ghost use Rattle.dns_master_file.specs.Front.{all_in};
ghost use Rattle.dns_master_file.specs.Meanings.{meant as meant_by};
ghost use Rattle.dns_master_file.specs.Reading.{either_in, form_in, generic_in, rdata_in};
ghost use Rattle.dns_master_file.specs.declared.stop.Stop.TheVariants.{At as stop_at, NoMemory as no_memory};

use crate::codes::type_of_word;
use crate::field::{Field, fields_of};
use crate::front::{after_mark, is_over, joined, number_front, text_front, word_front};
use crate::meanings::{counted, digits_meant, meant};
use crate::stop::{Refusal, Stop};
use dns_master_words::bitmap_of;
use dns_record::{DNSClass, Octets, Rdata, RecordType};
use std::alloc::Global;

// Whether an rdata has its type's shape in this class (RFC 3597, 4).
fn has_shapes(class: DNSClass) -> bool
    ensures { result ≡ has_shapes_in class.0 }
{
    class == DNSClass::IN || class == DNSClass::NONE || class == DNSClass::ANY
}

// Whether a field is all that is left of the line.
fn takes_rest(field: Field) -> bool
    ensures { result ≡ takes_all field }
{
    match field {
        Field::Digits | Field::Base64 => true,
        _ => false,
    }
}

// Whether a field may stand between quotes.
fn is_text(field: Field) -> bool
    ensures { result ≡ is_a_text field }
{
    match field {
        Field::Text | Field::Texts => true,
        _ => false,
    }
}

// What is wrong with a word that isn't this field's.
fn refusal_of(field: Field) -> Refusal
    ensures { result ≡ refused_as field }
{
    match field {
        Field::DomainName => Refusal::BadName,
        Field::Salt | Field::Digits => Refusal::BadDigits,
        Field::Base64 => Refusal::BadBase64,
        Field::Ipv4 | Field::Ipv6 => Refusal::BadAddress,
        Field::TypeWord | Field::Types => Refusal::BadType,
        Field::Hash => Refusal::BadHash,
        Field::Time => Refusal::BadTime,
        Field::Tag => Refusal::BadTag,
        Field::Text | Field::Texts => Refusal::BadEscape,
        _ => Refusal::BadNumber,
    }
}

// The bytes of a field's word, which stands where so much of the line is left.
fn read_as(alloc: Global, field: Field, word: &[u8], from: &[u8]) -> Result<Vec<u8>, Stop>
    ensures { Gives (λ v. v.items) no_memory result (or_error (stop_at (refused_as field) (length from.now)) (meant_by field word.now)) }
{
    match meant(alloc, field, word)? {
        Some(bytes) => Ok(bytes),
        None => Err(Stop::At(refusal_of(field), from.len())),
    }
}

// The word at the front, or for some fields the text, and what is left after it.
fn front_word(field: Field, from: &[u8]) -> Result<(&[u8], &[u8]), Stop>
    ensures { result_map_both (λ p. (p.0.now, p.1.now)) (λ stop. stop) result ≡ word_or_text field from.now }
{
    if is_text(field) {
        text_front(from)
    } else {
        word_front(from)
    }
}

// The bytes of a field that is one word, or of one of its texts, and what is left after it.
#[tactic(auto, unfolding(crate::specs::Fields::one_in))]
fn read_one<'a>(alloc: Global, field: Field, from: &'a [u8]) -> Result<(Vec<u8>, &'a [u8]), Stop>
    ensures { Gives (λ p. (p.0.items, p.1.now)) no_memory result (one_in field from.now) }
{
    if takes_rest(field) {
        let word = joined(alloc, from)?;
        let bytes = read_as(alloc, field, &word, from)?;
        return Ok((bytes, &[]));
    }
    let (word, rest) = front_word(field, from)?;
    let bytes = read_as(alloc, field, word, from)?;
    Ok((bytes, rest))
}

// A character-string behind its number of bytes, and what is left after it.
#[tactic(auto, unfolding(crate::specs::Fields::string_in))]
fn read_string<'a>(alloc: Global, from: &'a [u8]) -> Result<(Vec<u8>, &'a [u8]), Stop>
    ensures { Gives (λ p. (p.0.items, p.1.now)) no_memory result (string_in from.now) }
{
    let (text, rest) = read_one(alloc, Field::Texts, from)?;
    match counted(alloc, &text)? {
        Some(bytes) => Ok((bytes, rest)),
        None => Err(Stop::At(Refusal::LongText, from.len())),
    }
}

// Character-strings up to the end, at least one.
#[tactic(auto, unfolding(crate::specs::Fields::strings_in), using(crate::proofs::ItemLemmas::strings_start, crate::proofs::ItemLemmas::strings_more, crate::proofs::ItemLemmas::strings_stop, crate::proofs::ItemLemmas::strings_end, crate::proofs::ItemLemmas::string_shorter))]
fn read_strings(alloc: Global, from: &[u8]) -> Result<Vec<u8>, Stop>
    ensures { Gives (λ v. v.items) no_memory result (strings_in from.now) }
{
    let (mut bytes, mut rest) = read_string(alloc, from)?;
    'strings: while !is_over(rest) {
        let (octets, after) = read_string(alloc, rest)?;
        bytes.extend_from_slice(&octets)?;
        rest = after;
    }
    Ok(bytes)
}

/// The type at the front, and what is left after it.
pub(crate) fn type_front(bytes: &[u8]) -> Result<(RecordType, &[u8]), Stop>
    ensures { result_map_both (λ p. (p.0.0, p.1.now)) (λ stop. stop) result ≡ type_first bytes.now }
{
    let (word, rest) = word_front(bytes)?;
    match type_of_word(word) {
        Some(record_type) => Ok((record_type, rest)),
        None => Err(Stop::At(Refusal::BadType, bytes.len())),
    }
}

// The types up to the end.
#[tactic(auto, using(crate::proofs::ItemLemmas::types_start, crate::proofs::ItemLemmas::types_more, crate::proofs::ItemLemmas::types_stop, crate::proofs::ItemLemmas::types_end, crate::proofs::ItemLemmas::type_shorter))]
fn listed_types(alloc: Global, from: &[u8]) -> Result<Vec<u16>, Stop>
    ensures { Gives (λ v. v.items) no_memory result (all_in type_first from.now) }
{
    let mut types = Vec::new(alloc);
    let mut rest = from;
    'types: while !is_over(rest) {
        let (record_type, after) = type_front(rest)?;
        types.push(record_type.0)?;
        rest = after;
    }
    Ok(types)
}

// The bitmap of the types up to the end.
#[tactic(auto, unfolding(crate::specs::Fields::types_in))]
fn read_types(alloc: Global, from: &[u8]) -> Result<Vec<u8>, Stop>
    ensures { Gives (λ v. v.items) no_memory result (types_in from.now) }
{
    let types = listed_types(alloc, from)?;
    Ok(bitmap_of(alloc, &types)?)
}

// The bytes of a field, and what is left after it.
fn read_field<'a>(alloc: Global, field: Field, from: &'a [u8]) -> Result<(Vec<u8>, &'a [u8]), Stop>
    ensures { Gives (λ p. (p.0.items, p.1.now)) no_memory result (field_in field from.now) }
{
    match field {
        Field::Texts => Ok((read_strings(alloc, from)?, &[])),
        Field::Types => Ok((read_types(alloc, from)?, &[])),
        _ => read_one(alloc, field, from),
    }
}

// The bytes of these fields, with nothing behind them.
#[tactic(auto, unfolding(crate::specs::Fields::fields_in), using(crate::proofs::FrontLemmas::with_none, crate::proofs::FrontLemmas::with_end, crate::proofs::FrontLemmas::with_more))]
fn read_fields(alloc: Global, fields: &[Field], from: &[u8]) -> Result<Vec<u8>, Stop>
    ensures { Gives (λ v. v.items) no_memory result (fields_in fields.now from.now) }
{
    let mut bytes = Vec::new(alloc);
    let mut left = fields;
    let mut rest = from;
    'fields: while let Some((field, more)) = left.split_first() {
        let (octets, after) = read_field(alloc, *field, rest)?;
        bytes.extend_from_slice(&octets)?;
        left = more;
        rest = after;
    }
    if is_over(rest) {
        Ok(bytes)
    } else {
        Err(Stop::At(Refusal::ExtraWord, rest.len()))
    }
}

// An rdata in its type's form.
fn read_form(
    alloc: Global,
    class: DNSClass,
    record_type: RecordType,
    from: &[u8],
) -> Result<Vec<u8>, Stop>
    ensures { Gives (λ v. v.items) no_memory result (form_in class.0 record_type.0 from.now) }
{
    if !has_shapes(class) {
        return Err(Stop::At(Refusal::NoForm, from.len()));
    }
    match fields_of(record_type) {
        Some(fields) => read_fields(alloc, fields, from),
        None => Err(Stop::At(Refusal::NoForm, from.len())),
    }
}

// Any rdata, after the word `\#` (RFC 3597, 5).
#[tactic(auto, unfolding(crate::specs::Reading::generic_in))]
fn read_generic(alloc: Global, from: &[u8]) -> Result<Vec<u8>, Stop>
    ensures { Gives (λ v. v.items) no_memory result (generic_in from.now) }
{
    let (size, rest) = number_front(from, 65535)?;
    let digits = joined(alloc, rest)?;
    let Some(bytes) = digits_meant(alloc, &digits)? else {
        return Err(Stop::At(Refusal::BadDigits, rest.len()));
    };
    if bytes.len() as u64 != size {
        return Err(Stop::At(Refusal::BadLength, rest.len()));
    }
    Ok(bytes)
}

// An rdata in either form.
fn read_either(
    alloc: Global,
    class: DNSClass,
    record_type: RecordType,
    from: &[u8],
) -> Result<Vec<u8>, Stop>
    ensures { Gives (λ v. v.items) no_memory result (either_in class.0 record_type.0 from.now) }
{
    match after_mark(from) {
        Some(rest) => read_generic(alloc, rest),
        None => read_form(alloc, class, record_type, from),
    }
}

/// The rdata of a record of this class and type.
#[tactic(auto, unfolding(crate::specs::Reading::rdata_in))]
pub(crate) fn read_rdata(
    alloc: Global,
    class: DNSClass,
    record_type: RecordType,
    from: &[u8],
) -> Result<Rdata, Stop>
    ensures { Gives (λ r. r) no_memory result (rdata_in class.0 record_type.0 from.now) }
{
    let bytes = read_either(alloc, class, record_type, from)?;
    if bytes.len() > Rdata::MAX_LEN {
        return Err(Stop::At(Refusal::LongRdata, from.len()));
    }
    Ok(Rdata::from_octets(Octets::from_vec(bytes)))
}
