//! The records by which keys are trusted, from a text.
ghost use Rattle.std.specs.Prelude.{◌≡◌, ◌++◌, ◌<◌, ◌^◌, length, OnOk};
ghost use Rattle.dns_model.specs.Gives.{Gives};
ghost use Rattle.dns_query_files.specs.AnchorFiles.{anchor_at, anchors_from, anchors_in, is_anchor as is_an_anchor, listed, may_be_trusted as may_trust};
ghost use Rattle.dns_query_files.specs.TextLines.{lines_of};
ghost use Rattle.dns_query_files.specs.declared.anchors_error.AnchorsError.TheVariants.{NoMemory as no_memory};

use crate::anchors_error::AnchorsError;
use crate::text_lines::cut_line;
use dns_master_file::{LineError, RecordLine, read_line};
use dns_rdata::{Dnskey, Ds};
use dns_record::{DNSClass, NoMemory, RecordType};
use std::alloc::Global;

// Whether a key may be trusted: a zone's that isn't revoked.
fn may_be_trusted(key: &Dnskey<'_>) -> bool
    ensures { result ≡ may_trust key.now }
{
    key.is_zone_key() && !key.is_revoked() && key.protocol == 3
}

// Whether a line is a key that may be trusted, or a digest of a key.
fn is_anchor(line: &RecordLine) -> bool
    ensures { result ≡ is_an_anchor line.now }
{
    if line.dns_class != DNSClass::IN {
        return false;
    }
    let rdata = line.rdata.as_slice();
    match line.record_type {
        RecordType::DNSKEY => match Dnskey::read(rdata) {
            Some(key) => may_be_trusted(&key),
            None => false,
        },
        RecordType::DS => Ds::read(rdata).is_some(),
        _ => false,
    }
}

// What the line of this number says.
fn anchor_in(alloc: Global, number: u64, line: &[u8]) -> Result<Option<RecordLine>, AnchorsError>
    ensures { Gives (λ l. l) no_memory result (anchor_at number line.now) }
{
    match read_line(alloc, line) {
        Ok(Some(entry)) => {
            if !is_anchor(&entry) {
                return Err(AnchorsError::NoAnchor(number));
            }
            Ok(Some(entry))
        }
        Ok(None) => Ok(None),
        Err(LineError::Refused(refusal, column)) => {
            Err(AnchorsError::BadLine(number, refusal, column))
        }
        Err(LineError::NoMemory) => Err(AnchorsError::NoMemory),
    }
}

// Appends what a line says, if it says a record.
fn push_found(all: &mut Vec<RecordLine>, found: Option<RecordLine>) -> Result<(), NoMemory>
    ensures { OnOk result (all.new.items ≡ all.old.items ++ listed found) }
{
    if let Some(anchor) = found {
        all.push(anchor)?;
    }
    Ok(())
}

// All that the lines of a text say.
#[tactic(auto, unfolding(crate::specs::AnchorFiles::anchors_from), using(crate::proofs::AnchorLemmas::with_none, crate::proofs::AnchorLemmas::with_end, crate::proofs::AnchorLemmas::with_more))]
fn all_anchors(alloc: Global, text: &[u8]) -> Result<Vec<RecordLine>, AnchorsError>
    requires { length text.now < 2 ^ 32 }
    ensures { Gives (λ v. v.items) no_memory result (anchors_from 1 (lines_of text.now)) }
{
    let mut all = Vec::new(alloc);
    let mut number = 1;
    let mut rest = Some(text);
    'lines: while let Some(left) = rest {
        let (line, more) = cut_line(left);
        let found = anchor_in(alloc, number, line)?;
        push_found(&mut all, found)?;
        number += 1;
        rest = more;
    }
    Ok(all)
}

/// The records by which keys are trusted, in the order of a text's lines: DNSKEY and DS records of the class IN, as master files have them
/// (RFC 1035, 5), and as `root.key` and `root.ds` of Debian's package `dns-root-data` do. The ttl may be left out, a comment stands behind
/// `;`, and blank lines say nothing. The last line may lack its LF.
///
/// The first line that is no such record is refused by its number, and so is a text without one. A key that is revoked (RFC 5011, 2.1), that
/// isn't a zone's or whose protocol isn't 3 (RFC 4034, 2.1) can't be trusted, and its line is refused too.
pub fn read_anchors(alloc: Global, text: &[u8]) -> Result<Vec<RecordLine>, AnchorsError>
    requires { length text.now < 2 ^ 32 }
    ensures { Gives (λ v. v.items) no_memory result (anchors_in text.now) }
{
    let all = all_anchors(alloc, text)?;
    if all.is_empty() {
        return Err(AnchorsError::Empty);
    }
    Ok(all)
}
