//! A hash as the text that it is in the first label of an NSEC3 record's owner (RFC 5155, 3), and the order of hashes.
ghost use Rattle.std.specs.Prelude.{◌≡◌, map, nat_eq};
ghost use Rattle.std.specs.Char.{to_ascii_lowercase};
ghost use Rattle.std.specs.Cmp.Lexicographic.{pointwise};
ghost use Rattle.dns_model.specs.Nsec3Hash.{base32hex, base32hex_bytes, base32hex_decode as decoded};
ghost use Rattle.dns_rules.specs.Nsec3Covering.{hash_before, lies_between as lies_between_in};

use dns_rdata::{base32hex_encode, is_hash_text};
use std::cmp::Ordering;
use std::marker::Model;

/// A hash of 20 bytes, kept as its text in lower case. Contracts see it as the hash.
#[derive(Drop)]
pub(crate) struct HashText {
    text: [u8; 32],
}

impl Model for HashText {
    ghost use Rattle.std.specs.Prelude.{◌≡◌, List, ℕ};
    ghost use Rattle.dns_model.specs.Nsec3Hash.{base32hex, base32hex_bytes};

    ghost Value = { List ℕ };

    ghost view = { λ h. base32hex_bytes h.text };

    ghost invariant = { λ h. base32hex (base32hex_bytes h.text) ≡ h.text };
}

impl HashText {
    /// The text of a hash.
    pub(crate) fn of(hash: &[u8; 20]) -> HashText
        ensures { result ≡ hash.now }
    {
        HashText {
            text: base32hex_encode(hash),
        }
    }

    /// The hash that a label is, in either case; `None` where it is none.
    pub(crate) fn of_label(label: &[u8]) -> Option<HashText>
        ensures { result ≡ decoded label.now }
    {
        if !is_hash_text(label) {
            return None;
        }
        let mut text = [0; 32];
        let bytes = &mut text[..];
        bytes.copy_from_slice(label);
        bytes.make_ascii_lowercase();
        Some(HashText { text })
    }

    /// Whether a label has this hash's text, in either case. The label isn't decoded for it.
    pub(crate) fn is_written(&self, label: &[u8]) -> bool
        ensures same { result ≡ pointwise nat_eq (map to_ascii_lowercase label.now) (base32hex self.now) }
        ensures read { base32hex_bytes (base32hex self.now) ≡ self.now }
    {
        label.eq_ignore_ascii_case(self.text.as_slice())
    }

    // Whether this hash comes before the other (RFC 5155, 1.3: hash order). It is the order of their texts.
    fn comes_before(&self, other: &HashText) -> bool
        ensures { result ≡ hash_before self.now other.now }
    {
        self.text.as_slice().cmp(other.text.as_slice()) == Ordering::Less
    }
}

/// Whether a hash comes strictly between two others, where after the last hash comes the first again.
pub(crate) fn lies_between(from: &HashText, to: &HashText, hash: &HashText) -> bool
    ensures { result ≡ lies_between_in from.now to.now hash.now }
{
    if from.comes_before(to) {
        from.comes_before(hash) && hash.comes_before(to)
    } else {
        from.comes_before(hash) || hash.comes_before(to)
    }
}
