//! What a message that came is to one request.
ghost use Rattle.std.specs.Prelude.{◌≡◌, ◌<◌, ◌^◌, IfOk, OnErr, length};
ghost use Rattle.dns_multiplexer.specs.Multiplexers.{machine_of, draws_of};
ghost use Rattle.dns_tcp.specs.Steps.{IsGoingOn, Offers};

use dns_handle::{DnsResponse, NetError};
use dns_multiplexer::{DnsMultiplexer, DnsRequestSender, Draws, RequestId, Taken};
use dns_record::NoMemory;
use std::alloc::Global;

/// Hands bytes that came to the multiplexer, and takes what then waits for a request.
pub(crate) fn offer<R: Draws + Drop>(
    alloc: Global,
    multiplexer: &mut DnsMultiplexer<R>,
    number: RequestId,
    bytes: &[u8],
) -> Result<Option<Result<DnsResponse, NetError>>, NoMemory>
    requires { length bytes.now < 2 ^ 32 }
    ensures offered { IfOk result (λ item. Offers (machine_of multiplexer.old).state.requests (machine_of multiplexer.new).state.requests
        number.0 bytes.now item) }
    ensures going { IsGoingOn (machine_of multiplexer.old) (machine_of multiplexer.new) }
    ensures shutdown { (machine_of multiplexer.new).is_shutdown ≡ (machine_of multiplexer.old).is_shutdown }
    ensures draws { draws_of multiplexer.new ≡ draws_of multiplexer.old }
{
    multiplexer.arrive(alloc, bytes)?;
    match multiplexer.take(number) {
        Taken::Item(reply) => Ok(Some(reply)),
        Taken::Pending | Taken::Ended => Ok(None),
    }
}
