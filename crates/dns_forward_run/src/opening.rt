//! Ports of clients: opened, and given back.
ghost use Rattle.std.specs.Prelude.{◌≡◌, map, IfOk, OnOk, vec_len};
ghost use Rattle.dns_forward_run.specs.Retired.{AreNew, IsRefused, met_by, with_ports};
ghost use Rattle.dns_forward_run.specs.Openings.{OpensAll};
ghost use Rattle.dns_forward_run.specs.Settings.{AreSilent, carried_by};

use crate::stop::Stop;
use dns_listener::Listener;
use std::alloc::Global;
use std::net::SocketAddr;

/// Gives ports back.
fn retire_ports<N: Listener>(ports: Vec<N::Port>, listen: &mut N)
    ensures { N.counts listen.new ≡ with_ports (N.counts listen.old) (map (λ p. met_by N.Port.Port p) ports.items) }
{
    for port in ports {
        listen.retire(port);
    }
}

/// Waits for so many clients that connect to an address, and makes a port for each. Where one is refused, the ports before it are given
/// back.
pub(crate) fn accept_ports<N: Listener>(
    alloc: Global,
    listen: &mut N,
    local: SocketAddr,
    most: usize,
) -> Result<Vec<N::Port>, Stop>
    ensures opens { OpensAll N.Port.Port most (N.counts listen.old) (N.counts listen.new) result }
    ensures silent { IfOk result (λ ports. AreSilent (map (λ p. carried_by N.Port.Port p) ports.items)) }
    ensures told { OnOk result (N.told listen.new ≡ N.told listen.old) }
{
    let mut ports = Vec::new(alloc);
    'ports: while ports.len() < most {
        match listen.accept(local) {
            Ok(port) => ports.push(port)?,
            Err(_) => {
                retire_ports(ports, listen);
                return Err(Stop::Refused);
            }
        }
    }
    Ok(ports)
}
