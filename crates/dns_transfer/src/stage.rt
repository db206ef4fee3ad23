//! How far a transfer has come, and how far it comes by more records.
ghost use Rattle.std.specs.Prelude.{◌≡◌, true};
ghost use Rattle.dns_transfer.specs.Transfers.{changes_come, deletes_after, empty_zone_comes, ends_at, first_comes, is_soa, last_of, is_soa_if, records_come, second_comes, second_is, serial_of, soas, stage_by};

use dns_handle::Notice;
use dns_rdata::Soa;
use dns_record::{Record, RecordType};

/// How far a transfer has come.
#[derive(Clone, Copy)]
pub(crate) enum Stage {
    /// No record has come.
    Nothing,
    /// The zone's SOA has come, with this serial number, and no other record.
    FirstSoa(u32),
    /// The zone's SOA and records behind it have come, and no SOA among these.
    Whole,
    /// Changes come of a zone whose newest SOA has this serial number. Whether the records that come next are deleted; else they
    /// are added.
    Changes(u32, bool),
    /// All has come, or something is wrong.
    Ended,
}

// The serial number of a record that can be read as an SOA.
fn serial_of(of: &Record) -> Option<u32>
    ensures { result ≡ serial_of of.now }
{
    let soa = Soa::of(of)?;
    Some(soa.serial)
}

// Whether a record is an SOA, whether it can be read or not.
fn is_soa(of: &Record) -> bool
    ensures { result ≡ is_soa of.now }
{
    of.record_type == RecordType::SOA
}

// How many SOAs there are.
fn soas(records: &[Record]) -> usize
    ensures { result ≡ soas records.now }
{
    let mut count = 0;
    for record in records {
        if is_soa(record) {
            count += 1;
        }
    }
    count
}

// Whether the last record is an SOA.
fn ends_in_soa(records: &[Record]) -> bool
    ensures { result ≡ is_soa_if (last_of records.now) }
{
    match records.last() {
        None => false,
        Some(last) => is_soa(last),
    }
}

// Whether the last record is an SOA of this serial number.
fn ends_at(serial: u32, records: &[Record]) -> bool
    ensures { result ≡ ends_at serial records.now }
{
    let Some(last) = records.last() else {
        return false;
    };
    match serial_of(last) {
        None => false,
        Some(other) => other == serial,
    }
}

// What records behind the first SOA of a whole zone make of its transfer.
fn records_come(records: &[Record]) -> Result<Stage, Notice>
    ensures { result ≡ records_come records.now }
{
    let count = soas(records);
    if count == 0 {
        return Ok(Stage::Whole);
    }
    if count == 1 && ends_in_soa(records) {
        return Ok(Stage::Ended);
    }
    Err(Notice::TransferHasTrailingRecords)
}

// Whether records are deleted behind so many SOAs.
fn deletes_after(deletes: bool, count: usize) -> bool
    ensures { result ≡ deletes_after deletes count }
{
    if count % 2 == 0 { deletes } else { !deletes }
}

// How far records bring a transfer of changes.
fn changes_come(serial: u32, deletes: bool, records: &[Record]) -> Stage
    ensures { result ≡ changes_come serial deletes records.now }
{
    let deletes = deletes_after(deletes, soas(records));
    if deletes && ends_at(serial, records) {
        return Stage::Ended;
    }
    Stage::Changes(serial, deletes)
}

// What records behind the second SOA of a zone without other records make of its transfer.
fn empty_zone_comes(records: &[Record]) -> Result<Stage, Notice>
    ensures { result ≡ empty_zone_comes records.now }
{
    if records.is_empty() {
        return Ok(Stage::Ended);
    }
    Err(Notice::TransferHasTrailingRecords)
}

// What the record behind the first SOA, and those behind it, make of a transfer.
fn second_comes(incremental: bool, serial: u32, records: &[Record]) -> Result<Stage, Notice>
    ensures { result ≡ second_comes incremental serial records.now }
{
    let [second, rest @ ..] = records else {
        return Ok(Stage::FirstSoa(serial));
    };
    let Some(other) = serial_of(second) else {
        return records_come(rest);
    };
    if other == serial {
        return empty_zone_comes(rest);
    }
    if !incremental {
        return Err(Notice::TransferIsIncremental);
    }
    Ok(changes_come(serial, true, rest))
}

// What the first records make of a transfer.
fn first_comes(incremental: bool, records: &[Record]) -> Result<Stage, Notice>
    ensures { result ≡ first_comes incremental records.now }
{
    let [first, rest @ ..] = records else {
        return Ok(Stage::Nothing);
    };
    match serial_of(first) {
        None => Ok(Stage::Ended),
        Some(serial) => second_comes(incremental, serial, rest),
    }
}

impl Stage {
    /// How far a transfer comes by more records, or what is wrong with them.
    pub(crate) fn after(self, incremental: bool, records: &[Record]) -> Result<Stage, Notice>
        ensures { result ≡ stage_by incremental self records.now }
    {
        match self {
            Stage::Nothing => first_comes(incremental, records),
            Stage::FirstSoa(serial) => second_comes(incremental, serial, records),
            Stage::Whole => records_come(records),
            Stage::Changes(serial, deletes) => Ok(changes_come(serial, deletes, records)),
            Stage::Ended => Ok(Stage::Ended),
        }
    }
}
