//! What a line of a master file says (RFC 1035, 5.1; RFC 3597, 5).
ghost use Rattle.std.specs.Prelude.{◌≡◌};
ghost use Rattle.std.specs.Result.{result_map_both};
ghost use Rattle.dns_model.specs.Gives.{Gives};
ghost use Rattle.dns_master_file.specs.Codes.{class_in};
ghost use Rattle.dns_master_file.specs.Front.{word_as};
ghost use Rattle.dns_master_file.specs.Reading.{entry_in, line_in, owner_in, ttl_in};
ghost use Rattle.dns_master_file.specs.declared.stop.LineError.TheVariants.{NoMemory as without_memory};
ghost use Rattle.dns_master_file.specs.declared.stop.Refusal.TheVariants.{BadClass as bad_class};
ghost use Rattle.dns_master_file.specs.declared.stop.Stop.TheVariants.{NoMemory as no_memory};

use crate::codes::class_of_word;
use crate::front::{after_blanks, is_blank, is_over, word_front};
use crate::meanings::name_meant;
use crate::rdata::{read_rdata, type_front};
use crate::stop::{LineError, Refusal, Stop};
use dns_record::{DNSClass, Name, Rdata, RecordType};
use dns_text::decimal_in;
use std::alloc::Global;
use std::marker::Model;

/// What a line of a master file says.
#[derive(Drop)]
pub struct RecordLine {
    /// The owner.
    pub name: Name,
    /// Seconds for which the record may be kept, where the line says so.
    pub ttl: Option<u32>,
    /// The class.
    pub dns_class: DNSClass,
    /// What the rdata is.
    pub record_type: RecordType,
    /// The data.
    pub rdata: Rdata,
}

impl Model for RecordLine {
    ghost use Rattle.dns_master_file.specs.Reading.{LineValue};

    ghost Value = { LineValue };

    ghost view = { λ l. record {
      owner = l.name;
      ttl = l.ttl;
      class = l.dns_class.0;
      rtype = l.record_type.0;
      rdata = l.rdata;
    } };
}

// The owner at the front of a line, and what is left after it.
#[tactic(auto, unfolding(crate::specs::Reading::owner_in))]
fn owner_front(alloc: Global, line: &[u8]) -> Result<(Name, &[u8]), Stop>
    ensures { Gives (λ p. (p.0, p.1.now)) no_memory result (owner_in line.now) }
{
    let Some((first, _)) = line.split_first() else {
        return Err(Stop::At(Refusal::NoOwner, 0));
    };
    if is_blank(*first) {
        return Err(Stop::At(Refusal::NoOwner, line.len()));
    }
    if *first == b'$' {
        return Err(Stop::At(Refusal::Directive, line.len()));
    }
    let (word, rest) = word_front(line)?;
    match name_meant(alloc, word)? {
        Some(name) => Ok((name, rest)),
        None => Err(Stop::At(Refusal::BadName, line.len())),
    }
}

// The ttl at the front, if a number stands there, and what is left after it.
#[tactic(auto, unfolding(crate::specs::Reading::ttl_in))]
fn ttl_front(bytes: &[u8]) -> Result<(Option<u32>, &[u8]), Stop>
    ensures { result_map_both (λ p. (p.0, p.1.now)) (λ stop. stop) result ≡ ttl_in bytes.now }
{
    let (word, rest) = word_front(bytes)?;
    match decimal_in(word, 0xffff_ffff) {
        Some(ttl) => Ok((Some(ttl as u32), rest)),
        None => Ok((None, bytes)),
    }
}

// The class at the front, and what is left after it.
fn class_front(bytes: &[u8]) -> Result<(DNSClass, &[u8]), Stop>
    ensures { result_map_both (λ p. (p.0.0, p.1.now)) (λ stop. stop) result ≡ word_as bad_class class_in bytes.now }
{
    let (word, rest) = word_front(bytes)?;
    match class_of_word(word) {
        Some(class) => Ok((class, rest)),
        None => Err(Stop::At(Refusal::BadClass, bytes.len())),
    }
}

// What a line says that isn't blank.
#[tactic(auto, unfolding(crate::specs::Reading::entry_in))]
fn read_entry(alloc: Global, line: &[u8]) -> Result<RecordLine, Stop>
    ensures { Gives (λ l. l) no_memory result (entry_in line.now) }
{
    let (name, rest) = owner_front(alloc, line)?;
    let (ttl, rest) = ttl_front(rest)?;
    let (dns_class, rest) = class_front(rest)?;
    let (record_type, rest) = type_front(rest)?;
    let rdata = read_rdata(alloc, dns_class, record_type, rest)?;
    Ok(RecordLine {
        name,
        ttl,
        dns_class,
        record_type,
        rdata,
    })
}

/// What a line of a master file says, without the line's end: owner, ttl, class, type and rdata. The ttl may be left out. None of
/// a line that is blank, or has but a comment behind `;`.
///
/// An rdata stands in its type's form, or as `\#`, its length and its bytes (RFC 3597, 5). A name without a last dot stands below
/// the root. Words of types and classes are in upper case. Each line that isn't read has a reason and a column.
#[tactic(auto, unfolding(crate::specs::Reading::line_in))]
pub fn read_line(alloc: Global, line: &[u8]) -> Result<Option<RecordLine>, LineError>
    ensures { Gives (λ l. l) without_memory result (line_in line.now) }
{
    if is_over(after_blanks(line)) {
        return Ok(None);
    }
    match read_entry(alloc, line) {
        Ok(entry) => Ok(Some(entry)),
        Err(stop) => Err(stop.in_line(line)),
    }
}
