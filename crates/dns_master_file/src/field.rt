//! Which fields are read for the rdata of each type (RFC 1035, 3.3; RFC 2782; RFC 3596; RFC 4034; RFC 4255; RFC 5155; RFC 6698; RFC 8659).
ghost use Rattle.std.specs.Prelude.{◌≡◌, option_map};
ghost use Rattle.dns_master_file.specs.Fields.{fields_of as fields_in_text};

use dns_presentation::{CAA, CDNSKEY, CDS, SMIMEA, SSHFP, TLSA};
use dns_record::RecordType;

/// One field of an rdata as text.
#[derive(Clone, Copy, Debug, Drop)]
pub(crate) enum Field {
    /// A number of 8 bits.
    Byte,
    /// A number of 16 bits.
    TwoBytes,
    /// A number of 32 bits.
    FourBytes,
    /// A domain name.
    DomainName,
    /// A salt in hexadecimal digits, `-` for none; its length is counted in the rdata (RFC 5155, 3.3).
    Salt,
    /// Hexadecimal digits up to the end.
    Digits,
    /// Base64 up to the end.
    Base64,
    /// An address of IPv4.
    Ipv4,
    /// An address of IPv6.
    Ipv6,
    /// A type, by its word.
    TypeWord,
    /// A time, as YYYYMMDDHHmmSS in UTC or as seconds since the start of 1970 (RFC 4034, 3.2).
    Time,
    /// Letters and digits, at least one; their number is counted in the rdata (RFC 8659, 4.1).
    Tag,
    /// A hash of 20 bytes in base32 with the extended hex alphabet; its length is counted in the rdata (RFC 5155, 3.3).
    Hash,
    /// A text, which is a word or stands between quotes; its length isn't counted in the rdata (RFC 8659, 4.1.1).
    Text,
    /// Character-strings up to the end, at least one; the length of each is counted in the rdata (RFC 1035, 3.3.14).
    Texts,
    /// Types up to the end, in any order, which are a bitmap in the rdata (RFC 4034, 4.2).
    Types,
}

/// The fields of a type's rdata; None of a type that isn't read by a form of its own.
#[tactic(auto, unfolding(crate::specs::Fields::fields_of))]
pub(crate) fn fields_of(record_type: RecordType) -> Option<&'static [Field]>
    ensures { option_map (λ f. f.now) result ≡ fields_in_text record_type.0 }
{
    let fields: &'static [Field] = match record_type {
        RecordType::A => &[Field::Ipv4],
        RecordType::NS | RecordType::CNAME | RecordType::PTR | RecordType::DNAME => &[
            Field::DomainName,
        ],
        RecordType::SOA => &[
            Field::DomainName,
            Field::DomainName,
            Field::FourBytes,
            Field::FourBytes,
            Field::FourBytes,
            Field::FourBytes,
            Field::FourBytes,
        ],
        RecordType::MX => &[Field::TwoBytes, Field::DomainName],
        RecordType::TXT => &[Field::Texts],
        RecordType::AAAA => &[Field::Ipv6],
        RecordType::SRV => {
            &[
                Field::TwoBytes,
                Field::TwoBytes,
                Field::TwoBytes,
                Field::DomainName,
            ]
        }
        RecordType::DS | CDS => &[Field::TwoBytes, Field::Byte, Field::Byte, Field::Digits],
        SSHFP => &[Field::Byte, Field::Byte, Field::Digits],
        RecordType::RRSIG => &[
            Field::TypeWord,
            Field::Byte,
            Field::Byte,
            Field::FourBytes,
            Field::Time,
            Field::Time,
            Field::TwoBytes,
            Field::DomainName,
            Field::Base64,
        ],
        RecordType::NSEC => &[Field::DomainName, Field::Types],
        RecordType::DNSKEY | CDNSKEY => {
            &[Field::TwoBytes, Field::Byte, Field::Byte, Field::Base64]
        }
        RecordType::NSEC3 => &[
            Field::Byte,
            Field::Byte,
            Field::TwoBytes,
            Field::Salt,
            Field::Hash,
            Field::Types,
        ],
        RecordType::NSEC3PARAM => &[Field::Byte, Field::Byte, Field::TwoBytes, Field::Salt],
        TLSA | SMIMEA => &[Field::Byte, Field::Byte, Field::Byte, Field::Digits],
        CAA => &[Field::Byte, Field::Tag, Field::Text],
        _ => return None,
    };
    Some(fields)
}
