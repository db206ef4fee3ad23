//! The words of types and classes. A new type is a line of `TYPES`.
ghost use Rattle.std.specs.Prelude.{◌≡◌, ◌++◌, ◌∷◌, codes, decimal, map, Some, option_map};
ghost use Rattle.dns_record.specs.Words.{class_rows, class_word, own_number, own_word, question_text, type_rows, type_word};

use crate::{DNSClass, Query, RecordType};
use std::fmt;

/// The types that have a word of their own (the IANA registry of DNS parameters).
const TYPES: [(u16, &str); 26] = [
    (RecordType::A.0, "A"),
    (RecordType::NS.0, "NS"),
    (RecordType::CNAME.0, "CNAME"),
    (RecordType::SOA.0, "SOA"),
    (RecordType::PTR.0, "PTR"),
    (RecordType::MX.0, "MX"),
    (RecordType::TXT.0, "TXT"),
    (RecordType::RP.0, "RP"),
    (RecordType::AFSDB.0, "AFSDB"),
    (RecordType::RT.0, "RT"),
    (RecordType::PX.0, "PX"),
    (RecordType::AAAA.0, "AAAA"),
    (RecordType::SRV.0, "SRV"),
    (RecordType::NAPTR.0, "NAPTR"),
    (RecordType::KX.0, "KX"),
    (RecordType::DNAME.0, "DNAME"),
    (RecordType::OPT.0, "OPT"),
    (RecordType::DS.0, "DS"),
    (RecordType::RRSIG.0, "RRSIG"),
    (RecordType::NSEC.0, "NSEC"),
    (RecordType::DNSKEY.0, "DNSKEY"),
    (RecordType::NSEC3.0, "NSEC3"),
    (RecordType::NSEC3PARAM.0, "NSEC3PARAM"),
    (RecordType::IXFR.0, "IXFR"),
    (RecordType::AXFR.0, "AXFR"),
    (RecordType::ANY.0, "ANY"),
];

/// The classes that have a word of their own (RFC 1035, 3.2.4 and 3.2.5; RFC 2136, 2.4).
const CLASSES: [(u16, &str); 5] = [
    (DNSClass::IN.0, "IN"),
    (DNSClass::CH.0, "CH"),
    (DNSClass::HS.0, "HS"),
    (DNSClass::NONE.0, "NONE"),
    (DNSClass::ANY.0, "ANY"),
];

// The word that stands beside a number.
fn word_of(rows: &[(u16, &'static str)], number: u16) -> Option<&'static str>
    ensures { option_map (λ w. w.now) result ≡ own_word (map (λ row. (row.0, row.1.now)) rows.now) number }
{
    for row in rows {
        if row.0 == number {
            return Some(row.1);
        }
    }
    None
}

// The number that stands beside a word.
fn number_of(rows: &[(u16, &'static str)], word: &[u8]) -> Option<u16>
    ensures { result ≡ own_number (map (λ row. (row.0, row.1.now)) rows.now) word.now }
{
    for row in rows {
        if *row.1.as_bytes() == *word {
            return Some(row.0);
        }
    }
    None
}

impl RecordType {
    /// The type's own word, if it has one.
    pub fn own_word(self) -> Option<&'static str>
        ensures { option_map (λ w. w.now) result ≡ own_word type_rows self.0 }
    {
        word_of(&TYPES, self.0)
    }

    /// The type that has this word of its own; case counts.
    pub fn of_own_word(word: &[u8]) -> Option<RecordType>
        ensures { option_map (λ t. t.0) result ≡ own_number type_rows word.now }
    {
        let number = number_of(&TYPES, word)?;
        Some(RecordType(number))
    }
}

impl DNSClass {
    /// The class's own word, if it has one.
    pub fn own_word(self) -> Option<&'static str>
        ensures { option_map (λ w. w.now) result ≡ own_word class_rows self.0 }
    {
        word_of(&CLASSES, self.0)
    }

    /// The class that has this word of its own; case counts.
    pub fn of_own_word(word: &[u8]) -> Option<DNSClass>
        ensures { option_map (λ c. c.0) result ≡ own_number class_rows word.now }
    {
        let number = number_of(&CLASSES, word)?;
        Some(DNSClass(number))
    }
}

/// The type's word, or `TYPE` and its number (RFC 3597, 5).
impl fmt::Display for RecordType {
    ghost output = { λ t. Some (type_word t.0) };

    #[tactic(auto, unfolding(crate::specs::Words::type_word))]
    fn fmt<W: fmt::Write>(&self, f: &mut fmt::Formatter<W>) -> fmt::Result {
        let number = self.0;
        match self.own_word() {
            Some(word) => f.write_str(word),
            None => write!(f, "TYPE{number}"),
        }
    }
}

/// The class's word, or `CLASS` and its number (RFC 3597, 5).
impl fmt::Display for DNSClass {
    ghost output = { λ c. Some (class_word c.0) };

    #[tactic(auto, unfolding(crate::specs::Words::class_word))]
    fn fmt<W: fmt::Write>(&self, f: &mut fmt::Formatter<W>) -> fmt::Result {
        let number = self.0;
        match self.own_word() {
            Some(word) => f.write_str(word),
            None => write!(f, "CLASS{number}"),
        }
    }
}

/// Name, class and type.
impl fmt::Display for Query {
    ghost output = { λ query. Some (question_text query) };

    fn fmt<W: fmt::Write>(&self, f: &mut fmt::Formatter<W>) -> fmt::Result {
        let name = &self.name;
        let class = self.query_class;
        let record_type = self.query_type;
        write!(f, "{name} {class} {record_type}")
    }
}
