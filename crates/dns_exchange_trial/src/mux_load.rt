//! One thing done with a multiplexer many times.

use crate::few_ids::FewIds;
use crate::form::{Form, Work};
use crate::measured::{multiplexer, popped, response, send, set_front, taken};
use crate::plain_mux::Answer;
use dns_message::Message;
use dns_multiplexer::{Arrival, DnsMultiplexer, DnsRequestSender, RequestId};
use dns_record::NoMemory;
use std::alloc::Global;

// Sends a request and takes its message out: its number and its id. None where it is refused.
fn send_one(
    alloc: Global,
    mux: &mut DnsMultiplexer<FewIds>,
) -> Result<Option<(u64, u16)>, NoMemory> {
    let sent = send(alloc, mux, 0)?;
    match (sent, popped(mux)) {
        (Answer::Sent(number), Answer::Popped(id)) => Ok(Some((number, id))),
        _ => Ok(None),
    }
}

// How many of so many requests are sent, each while so many others are live, of which the oldest is ended after it.
fn sends(
    alloc: Global,
    mux: &mut DnsMultiplexer<FewIds>,
    live: u32,
    times: u32,
) -> Result<u64, NoMemory> {
    let mut count: u64 = 0;
    for _ in 0..times {
        if let Some((number, _)) = send_one(alloc, mux)? {
            mux.cancel(RequestId(number.saturating_sub(u64::from(live))));
            count = count.saturating_add(1);
        }
    }
    Ok(count)
}

// How many of so many responses are taken, that come under these ids in turn.
fn arrivals(
    alloc: Global,
    mux: &mut DnsMultiplexer<FewIds>,
    ids: &[u16],
    times: u32,
) -> Result<u64, NoMemory> {
    let mut response = response();
    let mut count: u64 = 0;
    let mut place: usize = 0;
    for _ in 0..times {
        if place >= ids.len() {
            place = 0;
        }
        if let Some(id) = ids.get(place) {
            set_front(&mut response, *id, 0);
            if let Arrival::Queued(RequestId(number)) = mux.arrive(alloc, &response)?
                && let Answer::Response(_) = taken(mux, number)
            {
                count = count.saturating_add(1);
            }
        }
        place = place.saturating_add(1);
    }
    Ok(count)
}

// Makes so many requests live, whose ids it puts behind others, and then does what is asked for so many times: how often it went well.
fn load_by(
    alloc: Global,
    mux: &mut DnsMultiplexer<FewIds>,
    form: Form,
    ids: &mut Vec<u16>,
) -> Result<u64, NoMemory> {
    for _ in 0..form.first {
        if let Some((_, id)) = send_one(alloc, mux)? {
            ids.push(id)?;
        }
    }
    match form.work {
        Work::Sends => sends(alloc, mux, form.first, form.second),
        _ => arrivals(alloc, mux, ids, form.second),
    }
}

/// How often it went well on a multiplexer with room for one request more than are to be live.
pub(crate) fn load(alloc: Global, form: Form) -> Result<u64, NoMemory> {
    let draws = FewIds::from_seed(1, u16::MAX);
    let mut mux = multiplexer(alloc, draws, (form.first as usize).saturating_add(1));
    let mut ids = Vec::new(alloc);
    load_by(alloc, &mut mux, form, &mut ids)
}

/// How many of so many responses are decoded, without a multiplexer.
pub(crate) fn decoded(alloc: Global, times: u32) -> u64 {
    let mut response = response();
    let mut count: u64 = 0;
    for number in 0..times {
        set_front(&mut response, (number % 65536) as u16, 0);
        let message = Message::from_vec(alloc, &response);
        count = count.saturating_add(u64::from(message.is_ok()));
    }
    count
}
