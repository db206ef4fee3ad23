//! Sessions of some rows of `rows/`, as `tools/rows_as_tests` makes them: change those, and not this file.
use dns_record::RecordType;

/// A key that is trusted, under algorithm 13: its owner, and the key.
pub(crate) struct Anchored(pub(crate) &'static str, pub(crate) &'static [u8]);

/// A signature that is accepted, under algorithm 13: the key, the bytes that it is over, and the signature.
pub(crate) struct Accepted(
    pub(crate) &'static [u8],
    pub(crate) &'static [u8],
    pub(crate) &'static [u8],
);

/// A question, and the message that is the reply to it.
pub(crate) struct Recording(
    pub(crate) &'static str,
    pub(crate) RecordType,
    pub(crate) &'static [u8],
);

/// A session at 1000.
pub(crate) struct Scene {
    pub(crate) depth: u16,
    pub(crate) name: &'static str,
    pub(crate) query_type: RecordType,
    pub(crate) anchors: &'static [Anchored],
    pub(crate) accepts: &'static [Accepted],
    pub(crate) replies: &'static [Recording],
}

#[rattlefmt::skip]
const SERVERS: Scene = Scene {
    depth: 26, name: ".", query_type: RecordType::NS,
    anchors: &[
        Anchored(".", b"\xaa\xbb"),
    ],
    accepts: &[
        Accepted(b"\xaa\xbb", b"\x00\x02\x0d\x00\x00\x00\x0e\x10\x00\x00\x07\xd0\x00\x00\x03\x84\xae\xc9\x00\x00\x00\x02\x00\x01\x00\x00\x0e\x10\x00\x03\x01a\x00", b"\xc0\xde"),
    ],
    replies: &[
        Recording(".", RecordType::NS, b"\x00\x00\x84\x00\x00\x01\x00\x02\x00\x00\x00\x00\x00\x00\x02\x00\x01\x00\x00\x02\x00\x01\x00\x00\x0e\x10\x00\x03\x01a\x00\x00\x00.\x00\x01\x00\x00\x0e\x10\x00\x15\x00\x02\x0d\x00\x00\x00\x0e\x10\x00\x00\x07\xd0\x00\x00\x03\x84\xae\xc9\x00\xc0\xde"),
        Recording(".", RecordType::DNSKEY, b"\x00\x00\x84\x00\x00\x01\x00\x01\x00\x00\x00\x00\x00\x000\x00\x01\x00\x000\x00\x01\x00\x00\x0e\x10\x00\x06\x01\x01\x03\x0d\xaa\xbb"),
    ],
};

/// `rows/stored-session.session`
pub(crate) fn servers() -> &'static Scene {
    &SERVERS
}
