//! A listener in memory that tells how it was used.
use dns_handle::IoKind;
use dns_listener::{CountedPort, ListListener, Listener};
use dns_ports::Port;
use std::net::SocketAddr;

/// How a listener was used: the ports that were asked for by datagrams and by connections, and those that are back.
#[derive(Clone, Copy, Debug, PartialEq, Eq, Drop)]
pub(crate) struct Uses {
    pub(crate) opened: u32,
    pub(crate) accepted: u32,
    pub(crate) retired: u32,
}

/// A listener that gives ports of a list.
#[derive(Drop)]
pub(crate) struct Watched<P: Port + Drop> {
    inner: ListListener<P>,
    uses: Uses,
}

impl<P: Port + Drop> Watched<P> {
    pub(crate) fn new(ports: Vec<Result<P, IoKind>>) -> Watched<P> {
        Watched {
            inner: ListListener::new(ports),
            uses: Uses {
                opened: 0,
                accepted: 0,
                retired: 0,
            },
        }
    }

    pub(crate) fn uses(&self) -> Uses {
        self.uses
    }
}

impl<P: Port + Drop> Listener for Watched<P> {
    ghost use Rattle.dns_listener.specs.Listeners.{listed_counts, listed_told};

    type Port = CountedPort<P>;

    ghost counts = { λ w. listed_counts w.inner };

    ghost told = { λ w. listed_told P.Port w.inner };

    fn udp(&mut self, local: SocketAddr) -> Result<CountedPort<P>, IoKind> {
        self.uses.opened = self.uses.opened.saturating_add(1);
        self.inner.udp(local)
    }

    fn accept(&mut self, local: SocketAddr) -> Result<CountedPort<P>, IoKind> {
        self.uses.accepted = self.uses.accepted.saturating_add(1);
        self.inner.accept(local)
    }

    fn retire(&mut self, port: CountedPort<P>) {
        self.uses.retired = self.uses.retired.saturating_add(1);
        self.inner.retire(port);
    }
}
