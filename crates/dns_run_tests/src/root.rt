//! The root as its server tells it: its name servers, signed, and its key; the session that asks for them, and its report.
use dns_record::NoMemory;

/// The root's name servers are asked for. The session has no reply, and at its own moment no signature counts.
pub(crate) const SESSION: &[u8] =
    b"dns-session 1\nmoment 9000\nalgorithms 13\nanchor . 13 aabb\naccept 13 aabb 00020d0000000e10000007d000000384aec900000002000100000e100003016100 c0de\nquery . NS\nend\n";

/// The report of the lookup at 1000.
pub(crate) const REPORT: &[u8] =
    b"dns-report 1\ncode 0\ndenial none\nanswer . IN NS 1000 secure 016100\nanswer . IN RRSIG 1000 secure 00020d0000000e10000007d000000384aec900c0de\nchain answer 3\nanchored . IN 0101030daabb\nkeyset . IN 0 0101030daabb\nsigned . IN NS 1 0101030daabb 00020d0000000e10000007d000000384aec900c0de 016100\nend\n";

/// The report where the root's keys can't be had.
pub(crate) const BOGUS: &[u8] =
    b"dns-report 1\ncode 0\ndenial none\nanswer . IN NS 3600 bogus 016100\nanswer . IN RRSIG 3600 indeterminate 00020d0000000e10000007d000000384aec900c0de\nend\n";

/// The root's name servers with their signature, behind the id.
const SERVERS: &[u8] = b"\x84\0\0\x01\0\x02\0\0\0\0\0\0\x02\0\x01\
    \0\0\x02\0\x01\0\0\x0e\x10\0\x03\x01a\0\
    \0\0\x2e\0\x01\0\0\x0e\x10\0\x15\0\x02\x0d\0\0\0\x0e\x10\0\0\x07\xd0\0\0\x03\x84\xae\xc9\0\xc0\xde";

/// The root's key, behind the id.
const KEY: &[u8] = b"\x84\0\0\x01\0\x01\0\0\0\0\0\0\x30\0\x01\
    \0\0\x30\0\x01\0\0\x0e\x10\0\x06\x01\x01\x03\x0d\xaa\xbb";

/// Puts the frame of the reply to a request in place of other bytes: a length, the request's id, and the key where it asks for that.
pub(crate) fn put_reply(frame: &mut Vec<u8>, request: &[u8]) -> Result<(), NoMemory> {
    let rest = if request.get(14) == Some(&48) {
        KEY
    } else {
        SERVERS
    };
    frame.clear();
    frame.extend_from_slice(&[0, (rest.len() + 2) as u8])?;
    frame.extend_from_slice(request.get(..2).unwrap_or_default())?;
    frame.extend_from_slice(rest)?;
    Ok(())
}
