//! The next message of a stream.
ghost use Rattle.dns_tcp.specs.Links.{link_view};
ghost use Rattle.dns_tcp.specs.StreamViews.{link_of, state_of};
ghost use Rattle.dns_tcp.specs.Steps.{IsNextRead};

use crate::{Feed, TcpStream};
use dns_handle::NetError;
use dns_link::Link;
use dns_record::Octets;

/// The next message, or none where the link has ended between two.
pub(crate) fn next_message<L: Link + Drop>(
    stream: &mut TcpStream<L>,
) -> Result<Option<Octets>, NetError>
    ensures { IsNextRead (link_view L.counts L.given L.left L.taken L.calls) (link_of stream.old) (link_of stream.new)
        (state_of stream.old) (state_of stream.new) result }
{
    'frame: loop {
        match stream.feed()? {
            Feed::More => (),
            Feed::Message(message) => return Ok(Some(message.bytes)),
            Feed::Closed => return Ok(None),
        }
    }
}
