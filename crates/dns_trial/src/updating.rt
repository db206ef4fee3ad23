//! Updates of a zone on a server of this machine (RFC 2136).
ghost use Rattle.std.specs.Prelude.{IsTrue};
ghost use Rattle.dns_model.specs.Names.{at_or_above};

use crate::texts::push_line;
use crate::trial_zone::{address, addresses, host, server_at, zone};
use dns_handle::{DnsHandle, DnsRequest, DnsRequestOptions, NetError};
use dns_link::SocketDialer;
use dns_message::{EncodeError, Message};
use dns_multiplexer::RandDraws;
use dns_record::{DNSClass, Name, NoMemory, RecordSet, RecordType};
use dns_tcp::TcpExchange;
use dns_text::push_octets;
use dns_update::{
    append, compare_and_swap, create, delete_all, delete_by_rdata, delete_rrset, notify,
};
use std::alloc::Global;

/// What is done with addresses of a name.
#[derive(Clone, Copy)]
enum Change {
    /// They are added where there are none.
    Create,
    /// They are added.
    Append,
    /// They are added where there are some.
    AppendToSome,
    /// Others take their place.
    Swap,
    /// They are deleted.
    DeleteRecords,
    /// All addresses of the name are deleted.
    DeleteSet,
    /// All of the name is deleted.
    DeleteName,
    /// The server is told that the zone has changed.
    Notify,
}

/// A change, the letter of the name, the last numbers of its addresses and of those that take their place, and whether the message has an OPT record.
struct Step {
    change: Change,
    letter: u8,
    numbers: &'static [u8],
    others: &'static [u8],
    use_edns: bool,
}

#[rattlefmt::skip]
const STEPS: &[Step] = &[
    Step { change: Change::Create, letter: b'a', numbers: &[1], others: &[], use_edns: true },
    Step { change: Change::AppendToSome, letter: b'a', numbers: &[2, 3], others: &[], use_edns: true },
    Step { change: Change::AppendToSome, letter: b'b', numbers: &[4], others: &[], use_edns: false },
    Step { change: Change::Append, letter: b'b', numbers: &[4], others: &[], use_edns: false },
    Step { change: Change::Swap, letter: b'a', numbers: &[1, 2, 3], others: &[5, 6], use_edns: true },
    Step { change: Change::Swap, letter: b'b', numbers: &[4], others: &[7], use_edns: false },
    Step { change: Change::DeleteRecords, letter: b'a', numbers: &[5, 9], others: &[], use_edns: true },
    Step { change: Change::DeleteSet, letter: b'a', numbers: &[], others: &[], use_edns: false },
    Step { change: Change::DeleteName, letter: b'b', numbers: &[], others: &[], use_edns: true },
    Step { change: Change::Notify, letter: b'a', numbers: &[], others: &[], use_edns: false },
];

// The steps that there are.
fn steps() -> &'static [Step] {
    STEPS
}

// The message of a step, whose set and whose new set are in the zone.
fn built(
    alloc: Global,
    step: &Step,
    zone: Name,
    set: RecordSet,
    others: RecordSet,
) -> Result<Message, NoMemory>
    requires set { IsTrue (at_or_above zone set.owner) }
    requires others { IsTrue (at_or_above zone others.owner) }
{
    let edns = step.use_edns;
    match step.change {
        Change::Create => create(alloc, set, zone, edns),
        Change::Append => append(alloc, set, zone, false, edns),
        Change::AppendToSome => append(alloc, set, zone, true, edns),
        Change::Swap => compare_and_swap(alloc, set, others, zone, edns),
        Change::DeleteRecords => delete_by_rdata(alloc, set, zone, edns),
        Change::DeleteSet => {
            let first = address(alloc, set.name.try_clone()?, 0)?;
            delete_rrset(alloc, first, zone, edns)
        }
        Change::DeleteName => delete_all(alloc, set.name.try_clone()?, zone, DNSClass::IN, edns),
        Change::Notify => notify(alloc, zone, DNSClass::IN, RecordType::SOA, None, edns),
    }
}

// The message of a step.
fn message_of(alloc: Global, step: &Step) -> Result<Option<Message>, NoMemory> {
    let zone = zone(alloc)?;
    let set = addresses(alloc, host(alloc, step.letter)?, step.numbers)?;
    let others = addresses(alloc, host(alloc, step.letter)?, step.others)?;
    if !zone.zone_of(&set.name) || !zone.zone_of(&others.name) {
        return Ok(None);
    }
    Ok(Some(built(alloc, step, zone, set, others)?))
}

// The response code to a message.
fn code_of(rt: &HostRuntime, alloc: Global, port: u32, message: Message) -> Result<u16, NetError> {
    let mut dial = SocketDialer::new(rt).with_deadline(5000);
    let draws = RandDraws::from_seed(1);
    let mut exchange = TcpExchange::connect(
        alloc,
        &mut dial,
        server_at(port),
        None,
        5000,
        None,
        draws,
    )?;
    let request = DnsRequest {
        message,
        options: DnsRequestOptions::default(),
        original: None,
    };
    let response = exchange.send(alloc, request, 0)?;
    Ok(response.message.response_code.0)
}

// Puts the line of a message's bytes behind a text. One that is too long has none.
fn push_sent(text: &mut Vec<u8>, message: &Message) -> Result<(), NoMemory> {
    let bytes = match message.to_vec() {
        Ok(bytes) => bytes,
        Err(EncodeError::NoMemory) => return Err(NoMemory),
        Err(_) => return Ok(()),
    };
    text.extend_from_slice(b"sent ")?;
    push_octets(text, bytes.as_slice())?;
    text.push(b'\n')?;
    Ok(())
}

/// Sends the message of a step to a server of this machine, and puts its bytes, with id 0, and the response code behind a text. How many response codes
/// came: one or none.
pub(crate) fn updated(
    rt: &HostRuntime,
    alloc: Global,
    port: u32,
    number: u32,
    text: &mut Vec<u8>,
) -> Result<u64, NoMemory> {
    let Some(step) = steps().get(number as usize) else {
        return Ok(0);
    };
    let Some(message) = message_of(alloc, step)? else {
        return Ok(0);
    };
    push_sent(text, &message)?;
    match code_of(rt, alloc, port, message) {
        Ok(code) => {
            push_line(text, b"code ", u64::from(code))?;
            Ok(1)
        }
        Err(NetError::NoMemory) => Err(NoMemory),
        Err(_) => Ok(0),
    }
}
