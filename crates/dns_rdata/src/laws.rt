//! Laws of signed bytes and of hashes. Each is the contract of a function that does nothing.
ghost use Rattle.std.specs.Prelude.{◌≡◌, ◌∷◌, true, length};
ghost use Rattle.std.specs.Cmp.Lexicographic.{slice_cmp};
ghost use Rattle.std.specs.Ordering.{nat_cmp};
ghost use Rattle.dns_model.specs.Bytes.{is_bytes};
ghost use Rattle.dns_model.specs.Nsec3Hash.{base32hex};
ghost use Rattle.dns_model.specs.Shapes.{canonical_form};
ghost use Rattle.dns_model.specs.Signing.{signed_bytes};

use crate::Rrsig;
use dns_record::{DNSClass, Name, Rdata, RecordType};

/// A law: of two rdatas that are equal in canonical form, one is signed (RFC 4034, 6.3).
pub fn equal_records_are_signed_once(
    _owner: &Name,
    _record_type: RecordType,
    _dns_class: DNSClass,
    _first: &Rdata,
    _second: &Rdata,
    _rest: &[Rdata],
    _sig: &Rrsig,
)
    requires { canonical_form _record_type.0 _first.now ≡ canonical_form _record_type.0 _second.now }
    ensures { signed_bytes _owner.now _record_type.0 _dns_class.0 (_first.now ∷ _second.now ∷ _rest.now) _sig.now
        ≡ signed_bytes _owner.now _record_type.0 _dns_class.0 (_second.now ∷ _rest.now) _sig.now }
{}

/// A law: hashes have the order of their texts (RFC 5155, 1.3), so that owners of NSEC3 records need not be decoded to be compared.
pub fn hashes_and_their_texts_have_one_order(_one: &[u8], _two: &[u8])
    requires first { is_bytes _one.now ≡ true }
    requires second { is_bytes _two.now ≡ true }
    requires size { length _one.now ≡ 20 }
    requires same { length _two.now ≡ 20 }
    ensures { slice_cmp nat_cmp (base32hex _one.now) (base32hex _two.now) ≡ slice_cmp nat_cmp _one.now _two.now }
{}
