//! One seat, for all clients that send datagrams, over a server that is asked by datagrams.
ghost use Rattle.std.specs.Prelude.{◌≡◌, ◌≤◌, IfOk, IsSome};
ghost use Rattle.dns_forward_run.specs.declared.form.Carried.TheVariants.{Datagrams};
ghost use Rattle.dns_forward_run.specs.Forwards.{met_of, net_view};
ghost use Rattle.dns_forward_run.specs.Retired.{AreBack, met_by};
ghost use Rattle.dns_forward_run.specs.Judging.{TellsAnswered};
ghost use Rattle.dns_forward_run.specs.Settings.{carried_by, judging_in, list_in};
ghost use Rattle.dns_forward_run.specs.Steps.{HasLine, IsLow, IsOneBack, KeepsDialer, ServesAs, WasAnswered, WhenTold};
ghost use Rattle.dns_listener.specs.Listening.{IsSilent, nothing_met};

use crate::ending::{Ending, ForwardEnding, ending_of};
use crate::lines::{SeatLine, with_line};
use crate::picked::{Picked, PickedList};
use crate::seating::{Setting, cache_over, seat_over};
use crate::serving::{retire_seat, serve_all};
use dns_handle::Protocol;
use dns_link::{Clock, Dialer};
use dns_listener::Listener;
use dns_multiplexer::RandDraws;
use dns_ports::Port;
use dns_record::NoMemory;
use dns_seats::Served;
use dns_udp::{UdpClientStream, UdpExchange};
use std::hash::RandomState;
use std::marker::Brand;
use std::random::RandomSource;
use std::sync::Wait;
use std::thread::Threads;

/// The line of the seat, and the dialer, which is lost where memory ran out before the seat came back.
#[derive(Drop)]
struct OneEnd<D: Drop> {
    lines: Result<Vec<SeatLine>, NoMemory>,
    dial: Option<D>,
}

// Serves the seat of a port.
fn served_port<P, D, K, T, C>(
    setting: &Setting<K, T>,
    draws: RandDraws,
    dial: D,
    port: P,
) -> Result<Served<P, UdpExchange<D, RandDraws>, PickedList<C>, K, RandomState, T>, NoMemory>
where
    P: Port + Drop + Send,
    D: Dialer + Drop + Send,
    D::Link: Send,
    D::Datagrams: Send,
    K: Clock + Clone + Drop + Send,
    T: Threads + Wait + RandomSource + Copy + Send + Sync,
    C: Picked + Send + Sync,
    requires bound { setting.now.service.count ≤ 1000 }
    requires listed { list_in setting.now.trust ≡ C.listed }
    requires unused { met_by P.Port port ≡ nothing_met }
    requires silent { IsSilent (carried_by P.Port port) }
    ensures line { IfOk result (HasLine P.Port setting.now.service.count) }
    ensures answered { IfOk result (WasAnswered P.Port (judging_in setting.now.trust Protocol.Udp)) }
{
    let cache = cache_over(setting)?;
    let upstream = setting.service.upstream.socket_addr();
    let handle = UdpClientStream::builder(setting.alloc, upstream).exchange(dial, draws);
    let seat = seat_over(setting, &cache, Protocol::Udp, port, handle)?;
    let mut seats = Vec::new(setting.alloc);
    seats.push(seat)?;
    let mut all = serve_all(&setting.rt, setting.alloc, seats, setting.service.count)?;
    let Some(served) = all.pop() else {
        unreachable!()
    };
    Ok(served)
}

// Serves the seat of a port, and gives the port and the dialer back.
fn serve_port<N, D, K, T, C>(
    setting: &Setting<K, T>,
    draws: RandDraws,
    dial: D,
    port: N::Port,
    listen: &mut N,
) -> OneEnd<D>
where
    N: Listener,
    N::Port: Send,
    D: Dialer + Drop + Send,
    D::Link: Send,
    D::Datagrams: Send,
    K: Clock + Clone + Drop + Send,
    T: Threads + Wait + RandomSource + Copy + Send + Sync,
    C: Picked + Send + Sync,
    requires bound { setting.now.service.count ≤ 1000 }
    requires listed { list_in setting.now.trust ≡ C.listed }
    requires unused { met_by N.Port.Port port ≡ nothing_met }
    requires silent { IsSilent (carried_by N.Port.Port port) }
    ensures back { IfOk result.lines (λ lines. IsOneBack setting.now.service.count lines.items
        (N.counts listen.old) (N.counts listen.new)) }
    ensures answered { IfOk result.lines (λ lines. TellsAnswered (judging_in setting.now.trust Protocol.Udp)
        (N.told listen.old) (N.told listen.new)) }
    ensures dial { IfOk result.lines (λ lines. IsSome result.dial) }
{
    match served_port::<N::Port, D, K, T, C>(setting, draws, dial, port) {
        Ok(served) => {
            let (line, handle) = retire_seat(served, listen);
            OneEnd {
                lines: with_line(Ok(Vec::new(setting.alloc)), line),
                dial: Some(handle.into_dialer()),
            }
        }
        Err(NoMemory) => OneEnd {
            lines: Err(NoMemory),
            dial: None,
        },
    }
}

// The same, by the list of accepted signatures that the setting has.
fn serve_by_list<N, D, K, T>(
    setting: &Setting<K, T>,
    draws: RandDraws,
    dial: D,
    port: N::Port,
    listen: &mut N,
) -> OneEnd<D>
where
    N: Listener,
    N::Port: Send,
    D: Dialer + Drop + Send,
    D::Link: Send,
    D::Datagrams: Send,
    K: Clock + Clone + Drop + Send,
    T: Threads + Wait + RandomSource + Copy + Send + Sync,
    requires bound { setting.now.service.count ≤ 1000 }
    requires unused { met_by N.Port.Port port ≡ nothing_met }
    requires silent { IsSilent (carried_by N.Port.Port port) }
    ensures back { IfOk result.lines (λ lines. IsOneBack setting.now.service.count lines.items
        (N.counts listen.old) (N.counts listen.new)) }
    ensures answered { IfOk result.lines (λ lines. TellsAnswered (judging_in setting.now.trust Protocol.Udp)
        (N.told listen.old) (N.told listen.new)) }
    ensures dial { IfOk result.lines (λ lines. IsSome result.dial) }
{
    serve_port::<N, D, K, T, Brand>(setting, draws, dial, port, listen)
}

/// Serves all clients that send datagrams to an address.
pub(crate) fn over_datagrams<N, D, K, T>(
    setting: &Setting<K, T>,
    draws: RandDraws,
    dial: D,
    listen: &mut N,
) -> ForwardEnding<D>
where
    N: Listener,
    N::Port: Send,
    D: Dialer + Drop + Send,
    D::Link: Send,
    D::Datagrams: Send,
    K: Clock + Clone + Drop + Send,
    T: Threads + Wait + RandomSource + Copy + Send + Sync,
    requires bound { setting.now.service.count ≤ 1000 }
    requires carried { setting.now.service.carried ≡ Datagrams }
    ensures served { ServesAs (net_view D.counts D.calls N.counts N.told) setting.now.service
        (met_of dial result.dial listen.old listen.new) result.ending }
    ensures answered { WhenTold result.ending (TellsAnswered (judging_in setting.now.trust Protocol.Udp)
        (N.told listen.old) (N.told listen.new)) }
    ensures low { IsLow result.ending }
    ensures kept { KeepsDialer result.dial result.ending }
{
    match listen.udp(setting.service.listen.socket_addr()) {
        Ok(port) => {
            let OneEnd { lines, dial } = serve_by_list(setting, draws, dial, port, listen);
            ForwardEnding {
                ending: ending_of(setting.alloc, lines),
                dial,
            }
        }
        Err(_) => ForwardEnding {
            ending: Ending::Failed,
            dial: Some(dial),
        },
    }
}
