//! The numbers of types, classes, opcodes and response codes, with the registered ones as constants (the IANA registry of DNS parameters).
ghost use Rattle.std.specs.Prelude.{◌≡◌};
ghost use Rattle.dns_model.specs.Types.{can_deny};

/// The type of a record (RFC 1035, 3.2.2; the IANA registry of DNS parameters).
#[derive(Clone, Copy, Debug, PartialEq, Eq, PartialOrd, Ord, Hash)]
pub struct RecordType(pub u16);

/// The class of a record (RFC 1035, 3.2.4).
#[derive(Clone, Copy, Debug, PartialEq, Eq, PartialOrd, Ord, Hash)]
pub struct DNSClass(pub u16);

/// What a message asks to be done (RFC 1035, 4.1.1). The lower four bits are written.
#[derive(Clone, Copy, Debug, PartialEq, Eq, PartialOrd, Ord, Hash)]
pub struct OpCode(pub u8);

/// How a message was answered: twelve bits, of which an OPT holds the upper eight (RFC 6891, 6.1.3).
#[derive(Clone, Copy, Debug, PartialEq, Eq, PartialOrd, Ord, Hash)]
pub struct ResponseCode(pub u16);

impl RecordType {
    pub const A: RecordType = RecordType(1);

    pub const NS: RecordType = RecordType(2);

    pub const CNAME: RecordType = RecordType(5);

    pub const SOA: RecordType = RecordType(6);

    pub const PTR: RecordType = RecordType(12);

    pub const MX: RecordType = RecordType(15);

    pub const TXT: RecordType = RecordType(16);

    pub const RP: RecordType = RecordType(17);

    pub const AFSDB: RecordType = RecordType(18);

    pub const RT: RecordType = RecordType(21);

    pub const PX: RecordType = RecordType(26);

    pub const AAAA: RecordType = RecordType(28);

    pub const SRV: RecordType = RecordType(33);

    pub const NAPTR: RecordType = RecordType(35);

    pub const KX: RecordType = RecordType(36);

    pub const DNAME: RecordType = RecordType(39);

    pub const OPT: RecordType = RecordType(41);

    pub const DS: RecordType = RecordType(43);

    pub const RRSIG: RecordType = RecordType(46);

    pub const NSEC: RecordType = RecordType(47);

    pub const DNSKEY: RecordType = RecordType(48);

    pub const NSEC3: RecordType = RecordType(50);

    pub const NSEC3PARAM: RecordType = RecordType(51);

    pub const IXFR: RecordType = RecordType(251);

    pub const AXFR: RecordType = RecordType(252);

    pub const ANY: RecordType = RecordType(255);
}

impl DNSClass {
    pub const IN: DNSClass = DNSClass(1);

    pub const CH: DNSClass = DNSClass(3);

    pub const HS: DNSClass = DNSClass(4);

    pub const NONE: DNSClass = DNSClass(254);

    pub const ANY: DNSClass = DNSClass(255);
}

impl OpCode {
    pub const QUERY: OpCode = OpCode(0);

    pub const NOTIFY: OpCode = OpCode(4);

    pub const UPDATE: OpCode = OpCode(5);
}

/// The registered codes (the IANA registry of DNS parameters). 16 is BADVERS in an OPT and BADSIG in a TSIG.
impl ResponseCode {
    pub const NO_ERROR: ResponseCode = ResponseCode(0);

    pub const FORM_ERR: ResponseCode = ResponseCode(1);

    pub const SERV_FAIL: ResponseCode = ResponseCode(2);

    pub const NX_DOMAIN: ResponseCode = ResponseCode(3);

    pub const NOT_IMP: ResponseCode = ResponseCode(4);

    pub const REFUSED: ResponseCode = ResponseCode(5);

    pub const YX_DOMAIN: ResponseCode = ResponseCode(6);

    pub const YX_RR_SET: ResponseCode = ResponseCode(7);

    pub const NX_RR_SET: ResponseCode = ResponseCode(8);

    pub const NOT_AUTH: ResponseCode = ResponseCode(9);

    pub const NOT_ZONE: ResponseCode = ResponseCode(10);

    pub const BAD_VERS: ResponseCode = ResponseCode(16);

    pub const BAD_SIG: ResponseCode = ResponseCode(16);

    pub const BAD_KEY: ResponseCode = ResponseCode(17);

    pub const BAD_TIME: ResponseCode = ResponseCode(18);

    pub const BAD_MODE: ResponseCode = ResponseCode(19);

    pub const BAD_NAME: ResponseCode = ResponseCode(20);

    pub const BAD_ALG: ResponseCode = ResponseCode(21);

    pub const BAD_TRUNC: ResponseCode = ResponseCode(22);

    pub const BAD_COOKIE: ResponseCode = ResponseCode(23);
}

impl ResponseCode {
    /// Whether a response with this code can deny: NOERROR and NXDOMAIN (RFC 2308, 2).
    pub fn can_deny(self) -> bool
        ensures { result ≡ can_deny self.0 }
    {
        self == ResponseCode::NO_ERROR || self == ResponseCode::NX_DOMAIN
    }
}
