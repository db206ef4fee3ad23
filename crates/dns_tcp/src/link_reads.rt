//! One read of a link behind bytes that are kept.
ghost use Rattle.std.specs.Prelude.{◌≡◌, ◌<◌, ◌≤◌, ◌+◌, ◌^◌, IfOk, OnErr, OnOk, length, take, vec_len};
ghost use Rattle.dns_tcp.specs.Links.{link_view};
ghost use Rattle.dns_tcp.specs.LinkReads.{ReadsOnto, count_of};

use dns_handle::IoKind;
use dns_link::Link;
use dns_record::NoMemory;

/// Room for so many bytes is made ahead at most, whatever a length says.
const AHEAD: usize = 4096;

/// Makes room up to an end.
fn make_room(bytes: &mut Vec<u8>, end: usize) -> Result<(), NoMemory>
    requires { end < 2 ^ 63 }
    ensures len { OnOk result (end ≤ length bytes.new.items) }
    ensures more { OnOk result (length bytes.old.items ≤ length bytes.new.items) }
    ensures kept { OnOk result (take (length bytes.old.items) bytes.new.items ≡ bytes.old.items) }
    ensures err { OnErr result (bytes.new.items ≡ bytes.old.items) }
{
    if bytes.len() < end {
        bytes.resize(end, 0)?;
    }
    Ok(())
}

/// Reads once, at most so many bytes, behind the first `len` of `bytes`. Where there is no room for them, which is the outer
/// error, nothing is read and nothing has changed.
pub(crate) fn read_behind<L: Link>(
    link: &mut L,
    bytes: &mut Vec<u8>,
    len: usize,
    most: usize,
) -> Result<Result<usize, IoKind>, NoMemory>
    requires some { 0 < most }
    requires within { len ≤ length bytes.old.items }
    requires fits { len + most < 2 ^ 63 }
    ensures read { IfOk result (λ outcome. ReadsOnto (link_view L.counts L.given L.left L.taken L.calls) most
        link.old link.new (take len bytes.old.items) (take (len + count_of outcome) bytes.new.items) outcome) }
    ensures within { IfOk result (λ outcome. len + count_of outcome ≤ length bytes.new.items) }
    ensures most { IfOk result (λ outcome. count_of outcome ≤ most) }
    ensures link { OnErr result (link.new ≡ link.old) }
    ensures bytes { OnErr result (bytes.new.items ≡ bytes.old.items) }
{
    let end = len + most.min(AHEAD);
    make_room(bytes, end)?;
    Ok(link.read(&mut bytes[len..end]))
}
