//! Reading a name that may be compressed (RFC 1035, 4.1.4).
ghost use Rattle.std.specs.Prelude.{◌≡◌, ◌+◌, ◌<◌, ◌≤◌, ◌^◌, ◌++◌, [], length, drop, slice_range, IfOk, IfErr, OnOk};
ghost use Rattle.dns_message.specs.Reading.{Reads, FailsWith};
ghost use Rattle.std.specs.Result.{result_ok};
ghost use Rattle.std.specs.List.{All};
ghost use Rattle.dns_message.specs.NameAt.{name_at, spelled_at};
ghost use Rattle.dns_message.specs.Readable.{IsReadable};
ghost use Rattle.dns_message.specs.Fitting.{IsSpelled, IsAppended, ending_or};
ghost use Rattle.dns_message.specs.KnownNames.{AreKnown, HasPassed, IsPassed};

use crate::known_names::{KnownNames, Passed};
use crate::message_bytes::MessageBytes;
use crate::read_fault::ReadFault;
use crate::step::{Step, step_at};
use dns_record::{Name, NoMemory, Octets};

// Where a name's bytes end: after its first pointer, or at this place.
fn ending_or(ending: Option<usize>, place: usize) -> usize
    ensures { result ≡ ending_or ending place }
{
    match ending {
        None => place,
        Some(first) => first,
    }
}

/// How much room is made for the labels that a pointer leads to; most names need no more.
const ROOM: usize = 32;

// Appends the labels before a pointer, with room for those behind it. Before a bare pointer there is none.
#[tactic(auto, using(crate::proofs::NameReading::no_row))]
fn push_row(bytes: &[u8], start: usize, end: usize, into: &mut Vec<u8>) -> Result<(), NoMemory>
    requires short { length bytes.now < 2 ^ 32 }
    requires rises { start ≤ end }
    requires inside { end ≤ length bytes.now }
    ensures { OnOk result (into.new.items ≡ into.old.items ++ slice_range bytes.now start end) }
{
    if start == end {
        return Ok(());
    }
    into.reserve(end - start + ROOM)?;
    into.extend_from_slice(&bytes[start..end])?;
    Ok(())
}

// Notes a place to which a pointer leads, with how many bytes of labels stand before, where names are kept for it.
fn pass(
    names: &KnownNames,
    passed: &mut Vec<Passed>,
    place: u16,
    size: usize,
) -> Result<(), NoMemory>
    requires short { size ≤ 254 }
    ensures { OnOk result (HasPassed place size passed.old.items passed.new.items) }
{
    if names.keeps(place) {
        passed.push(Passed {
            place,
            size: size as u8,
        })?;
    }
    Ok(())
}

// Appends the wire form of the name at a place, spelled out, and answers the place after its bytes. The labels between two
// pointers are copied at once, and the name at a place that is known. After an `Err`, what was appended means nothing.
fn push_walked(
    message: &MessageBytes<'_>,
    names: &KnownNames,
    at: usize,
    into: &mut Vec<u8>,
    passed: &mut Vec<Passed>,
) -> Result<usize, ReadFault>
    requires readable { IsReadable message.now }
    requires known { AreKnown message.now.bytes.now names.now }
    requires at { at ≤ length message.now.bytes.now }
    requires none { passed.old.items ≡ [] }
    ensures name { IfOk result (λ next.
        IsSpelled (name_at message.now.bytes.now at) into.old.items into.new.items next) }
    ensures passed { IfOk result (λ next.
        All (IsPassed message.now.bytes.now (drop (length into.old.items) into.new.items)) passed.new.items) }
    ensures fault { IfErr result (λ e. FailsWith e.kind e.offset (spelled_at message.now.bytes.now at)) }
    ensures fits { IfOk result (λ next. next ≤ length message.now.bytes.now) }
{
    let bytes = message.bytes;
    let mut start = at;
    let mut pos = at;
    let mut size = 0;
    let mut ending = None;
    'steps: loop {
        match step_at(bytes, start, pos, size)? {
            Step::Root => {
                into.extend_from_slice(&bytes[start..pos + 1])?;
                return Ok(ending_or(ending, pos + 1));
            }
            Step::Label(label) => {
                let label = usize::from(label);
                pos = pos + 1 + label;
                size = size + 1 + label;
            }
            Step::Pointer(target) => {
                push_row(bytes, start, pos, into)?;
                if let Some(known) = names.find(target, size) {
                    into.extend_from_slice(known)?;
                    return Ok(ending_or(ending, pos + 2));
                }
                pass(names, passed, target, size)?;
                ending = Some(ending_or(ending, pos + 2));
                start = usize::from(target);
                pos = start;
            }
        }
    }
}

// Appends the wire form of the name at a place, spelled out, answers the place after its bytes, and keeps the name for the places
// to which its pointers lead. After an `Err`, what was appended means nothing.
pub(crate) fn push_spelled(
    message: &MessageBytes<'_>,
    names: &mut KnownNames,
    at: usize,
    into: &mut Vec<u8>,
) -> Result<usize, ReadFault>
    requires readable { IsReadable message.now }
    requires known { AreKnown message.now.bytes.now names.old }
    requires at { at ≤ length message.now.bytes.now }
    ensures name { IfOk result (λ next.
        IsSpelled (name_at message.now.bytes.now at) into.old.items into.new.items next) }
    ensures field { IfOk result (λ next.
        IsAppended (result_ok (spelled_at message.now.bytes.now at)) into.old.items into.new.items next) }
    ensures fault { IfErr result (λ e. FailsWith e.kind e.offset (spelled_at message.now.bytes.now at)) }
    ensures fits { IfOk result (λ next. next ≤ length message.now.bytes.now) }
    ensures known { AreKnown message.now.bytes.now names.new }
{
    let begun = into.len();
    let mut passed = Vec::new(message.alloc);
    let next = push_walked(message, names, at, into, &mut passed)?;
    names.learn(message.bytes, passed.as_slice(), &into[begun..])?;
    Ok(next)
}

// The name at a place, and the place after its bytes. `room` is overwritten: the name is spelled there.
pub(crate) fn name_of(
    message: &MessageBytes<'_>,
    names: &mut KnownNames,
    room: &mut Vec<u8>,
    at: usize,
) -> Result<(Name, usize), ReadFault>
    requires readable { IsReadable message.now }
    requires known { AreKnown message.now.bytes.now names.old }
    requires at { at ≤ length message.now.bytes.now }
    ensures reads { Reads (λ x. (x.0, x.1)) result (name_at message.now.bytes.now at) }
    ensures fits { IfOk result (λ x. x.1 ≤ length message.now.bytes.now) }
    ensures known { AreKnown message.now.bytes.now names.new }
{
    room.clear();
    let next = push_spelled(message, names, at, room)?;
    let name = Name::from_octets(Octets::from_slice(message.alloc, room.as_slice())?);
    Ok((name, next))
}
