//! Which fields the rdata of each type has (RFC 1035, 3.3; RFC 4034; RFC 5155, 3).
ghost use Rattle.std.specs.Prelude.{◌≡◌, map};
ghost use Rattle.dns_model.specs.Shapes.{shape_of};
ghost use Rattle.dns_rdata.specs.Fields.{field_value};

use dns_record::RecordType;

/// One field of an rdata.
#[derive(Clone, Copy, Debug, Drop)]
pub enum Field {
    /// So many bytes.
    Octets(u8),
    /// A domain name.
    DomainName,
    /// A length byte and that many bytes.
    CharacterString,
    /// A type bitmap (RFC 4034, 4.1.2), up to the end.
    TypeBitmap,
    /// Whatever bytes are left.
    Remainder,
}

/// The fields of each type's rdata (RFC 1035, 3.3; RFC 4034; RFC 5155, 3); a type that is not named here is opaque.
/// A new type of rdata is one line here and one in `shape_of` of `dns_model`.
#[tactic(auto, unfolding(dns_model::specs::Shapes::shape_of))]
pub fn fields_of(record_type: RecordType) -> &'static [Field]
    ensures { map field_value result.now ≡ shape_of record_type.0 }
{
    match record_type {
        RecordType::A => &[Field::Octets(4)],
        RecordType::NS | RecordType::CNAME | RecordType::PTR | RecordType::DNAME => &[
            Field::DomainName,
        ],
        RecordType::SOA => &[Field::DomainName, Field::DomainName, Field::Octets(20)],
        RecordType::MX | RecordType::AFSDB | RecordType::RT | RecordType::KX => {
            &[Field::Octets(2), Field::DomainName]
        }
        RecordType::RP => &[Field::DomainName, Field::DomainName],
        RecordType::PX => &[Field::Octets(2), Field::DomainName, Field::DomainName],
        RecordType::AAAA => &[Field::Octets(16)],
        RecordType::SRV => &[Field::Octets(6), Field::DomainName],
        RecordType::NAPTR => &[
            Field::Octets(4),
            Field::CharacterString,
            Field::CharacterString,
            Field::CharacterString,
            Field::DomainName,
        ],
        RecordType::DS => &[Field::Octets(4), Field::Remainder],
        RecordType::RRSIG => &[Field::Octets(18), Field::DomainName, Field::Remainder],
        RecordType::NSEC => &[Field::DomainName, Field::TypeBitmap],
        RecordType::DNSKEY => &[Field::Octets(4), Field::Remainder],
        RecordType::NSEC3 => &[
            Field::Octets(4),
            Field::CharacterString,
            Field::CharacterString,
            Field::TypeBitmap,
        ],
        _ => &[Field::Remainder],
    }
}
