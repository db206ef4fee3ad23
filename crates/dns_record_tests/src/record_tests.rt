//! Records and questions: how they are made here, and how questions compare and are shown.
use crate::name_tests::hash_of;
use crate::rows::{Row, check_rows};
use dns_model::{NameError, Proof};
use dns_record::{DNSClass, Name, NoMemory, Query, Rdata, Record, RecordType};
use std::alloc::Global;
use std::cmp::Ordering;
use std::fmt::Display;

/// One that is too long fails its test by the error.
pub(crate) fn rdata(alloc: Global, bytes: &[u8]) -> Result<Rdata, NoMemory> {
    if bytes.len() > 65535 {
        return Err(NoMemory);
    }
    Rdata::from_slice(alloc, bytes)
}

/// A record of class IN.
pub(crate) fn record(
    alloc: Global,
    owner: &str,
    record_type: u16,
    bytes: &[u8],
) -> Result<Record, NameError> {
    let name = Name::from_ascii(alloc, owner)?;
    let rdata = rdata(alloc, bytes)?;
    Ok(Record {
        name,
        record_type: RecordType(record_type),
        dns_class: DNSClass::IN,
        ttl: 3600,
        rdata,
        proof: Proof::Indeterminate,
    })
}

pub(crate) fn query_of(alloc: Global, text: &str, record_type: u16) -> Result<Query, NameError> {
    let name = Name::from_ascii(alloc, text)?;
    Ok(Query {
        name,
        query_type: RecordType(record_type),
        query_class: DNSClass::IN,
    })
}

/// The type of a question for the row's name and how the question is shown, another question, and whether that one is
/// the same.
struct Compared(u16, &'static str, &'static str, u16, bool);

const COMPARED: &[(&str, Compared)] = &[
    ("a.B.", Compared(1, "a.B. IN A", "A.b.", 1, true)),
    ("a.B.", Compared(1, "a.B. IN A", "a.B.", 2, false)),
    ("a.B.", Compared(1, "a.B. IN A", "b.B.", 1, false)),
    (".", Compared(48, ". IN DNSKEY", ".", 48, true)),
    (
        "a.B",
        Compared(65280, "a.B. IN TYPE65280", "a.B.", 65280, true),
    ),
    ("a\\032b", Compared(1, "a\\032b. IN A", "a.", 1, false)),
];

/// Whether a question is the same as what is made or copied.
fn are_one(one: &Query, made: Result<Query, NameError>, same: bool) -> bool {
    match made {
        Ok(two) => {
            (*one == two) == same
                && (one.cmp(&two) == Ordering::Equal) == same
                && (hash_of(one) == hash_of(&two)) == same
        }
        Err(_) => false,
    }
}

/// Its Display prints the value so.
pub(crate) fn is_shown<D: Display + Drop>(
    alloc: Global,
    value: &D,
    text: &str,
) -> Result<bool, NoMemory> {
    let shown = format!(in alloc; "{value}")?;
    Ok(shown.as_str() == text)
}

impl Row for Compared {
    fn holds(&self, alloc: Global, name: &str) -> bool {
        match query_of(alloc, name, self.0) {
            Ok(one) => {
                are_one(&one, query_of(alloc, self.2, self.3), self.4)
                    && matches!(is_shown(alloc, &one, self.1), Ok(true))
            }
            Err(_) => false,
        }
    }
}

#[test]
fn questions_compare_with_names_folded_and_are_shown(rt: HostRuntime) {
    check_rows(&rt, rt.alloc(), COMPARED);
}
