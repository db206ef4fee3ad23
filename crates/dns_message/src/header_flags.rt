//! The flags of a header's second two bytes (RFC 1035, 4.1.1; RFC 4035, 3.1.6 and 3.2.2), and the parts of an OPT's ttl (RFC 6891,
//! 6.1.3). What has more than one bit is named by the lowest of them.

/// QR: the message is a response.
pub(crate) const RESPONSE: u16 = 0x8000;

/// The lowest of the opcode's four bits.
pub(crate) const OP_CODE: u16 = 0x0800;

/// AA: the answer has authority.
pub(crate) const AUTHORITATIVE: u16 = 0x0400;

/// TC: the message was cut.
pub(crate) const TRUNCATED: u16 = 0x0200;

/// RD: recursion is wanted.
pub(crate) const RECURSION_DESIRED: u16 = 0x0100;

/// RA: recursion can be had.
pub(crate) const RECURSION_AVAILABLE: u16 = 0x0080;

/// AD: the sender found the data authentic.
pub(crate) const AUTHENTIC_DATA: u16 = 0x0020;

/// CD: the sender wants data that isn't checked.
pub(crate) const CHECKING_DISABLED: u16 = 0x0010;

/// How many opcodes, and how many response codes, a header can tell.
pub(crate) const HEADER_CODES: u16 = 16;

/// The lowest of the upper eight bits of the extended response code, in an OPT's ttl.
pub(crate) const EXTENDED_CODE: u32 = 0x0100_0000;

/// The lowest of the eight bits of an OPT's version.
pub(crate) const EDNS_VERSION: u32 = 0x0001_0000;

/// DO: the sender takes DNSSEC records. The 15 bits below it are the other flags.
pub(crate) const DNSSEC_OK: u32 = 0x8000;
