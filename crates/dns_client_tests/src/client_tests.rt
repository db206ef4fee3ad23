//! Clients over a connection in memory: what they send, and what they are answered.
ghost use Rattle.std.specs.Prelude.{IsTrue};
ghost use Rattle.dns_model.specs.Names.{at_or_above};

use crate::client_calls::{NOW, Said, said_to};
use crate::client_parts::{RESPONSE, client_over, has_sent, server};
use crate::parts::{ADDRESS, check, first, name};
use crate::update_rows::{Row, rows};
use dns_client::{Client, ClientHandle};
use dns_handle::{DnsHandle, DnsResponse, NetError};
use dns_link::Link;
use dns_multiplexer::RandDraws;
use dns_record::{DNSClass, Name, Record, RecordSet, RecordType};
use dns_tcp::TcpStream;
use futures::test::MockTask;
use std::alloc::Global;
use std::process::Abort;
use std::rt::HostRuntime;

// The examples of the crate, word for word.

fn add_address<S: DnsHandle + Drop>(
    alloc: Global,
    client: &mut Client<S>,
    zone: Name,
    address: Record,
    now: u64,
) -> Result<DnsResponse, NetError>
    requires { IsTrue (at_or_above zone address.owner) }
{
    let set = RecordSet::of(alloc, address)?;
    client.append(alloc, set, zone, false, now)
}

fn ask_for_servers<L: Link + Drop>(
    alloc: Global,
    stream: TcpStream<L>,
    seed: u64,
    zone: Name,
    now: u64,
) -> Result<DnsResponse, NetError> {
    let mut client = Client::new(alloc, stream, RandDraws::from_seed(seed))?;
    client.query(alloc, zone, DNSClass::IN, RecordType::NS, now)
}

/// Whether a client sends the message of a row.
fn sends(rt: &impl Abort, alloc: Global, row: &Row, task: &MockTask) -> bool {
    let mut client = client_over(rt, alloc, RESPONSE);
    if !row.3 {
        client.disable_edns();
    }
    let said = said_to(rt, alloc, &mut client, row.1, &row.2, task);
    let sent = has_sent(rt, alloc, client, row.4);
    said == Said::Response && sent
}

#[test]
fn a_client_sends_messages_that_change_a_zone(rt: HostRuntime) {
    let task = MockTask::new(&rt).ok().expect(&rt, "a task");
    for row in rows() {
        check(&rt, row.0, sends(&rt, rt.alloc(), row, &task));
    }
}

/// Whether a client, whose EDNS is switched so, asks for the root's name servers by these digits.
fn asks_root(rt: &impl Abort, alloc: Global, switches: &[bool], digits: &str) -> bool {
    let mut client = client_over(rt, alloc, RESPONSE);
    for enables in switches {
        if *enables {
            client.enable_edns();
        } else {
            client.disable_edns();
        }
    }
    let root = name(rt, alloc, ".");
    let answer = client.query(alloc, root, DNSClass::IN, RecordType::NS, NOW);
    let sent = has_sent(rt, alloc, client, digits);
    answer.is_ok() && sent
}

/// Header and question, and an OPT record.
const WITH_EDNS: &str = "000001000001000000000001\
    0000020001\
    00002904d0000000000000";

const WITHOUT_EDNS: &str = "000001000001000000000000\
    0000020001";

#[test]
fn a_client_asks_with_edns_or_without(rt: HostRuntime) {
    let alloc = rt.alloc();
    let at_first = asks_root(&rt, alloc, &[], WITH_EDNS);
    let off = asks_root(&rt, alloc, &[false], WITHOUT_EDNS);
    let on_again = asks_root(&rt, alloc, &[false, true], WITH_EDNS);
    check(&rt, "EDNS at first", at_first);
    check(&rt, "EDNS off", off);
    check(&rt, "EDNS on again", on_again);
}

/// Whether the first example of the crate is answered.
fn is_added(rt: &impl Abort, alloc: Global) -> bool {
    let zone = name(rt, alloc, ".");
    let address = first(rt, alloc, &ADDRESS);
    if !zone.zone_of(&address.name) {
        return false;
    }
    let mut client = client_over(rt, alloc, RESPONSE);
    add_address(alloc, &mut client, zone, address, NOW).is_ok()
}

/// Whether the other is an error over a link that gives nothing.
fn is_refused(rt: &impl Abort, alloc: Global) -> bool {
    let link = client_over(rt, alloc, b"").into_sender().into_link();
    let (stream, _) = TcpStream::from_stream(alloc, link, server());
    ask_for_servers(alloc, stream, 1, name(rt, alloc, "."), NOW).is_err()
}

#[test]
fn examples_of_clients_are_answered(rt: HostRuntime) {
    check(&rt, "an update", is_added(&rt, rt.alloc()));
    check(&rt, "a query", is_refused(&rt, rt.alloc()));
}
