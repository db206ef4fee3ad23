//! The windows of a type bitmap (RFC 4034, 4.1.2).
ghost use Rattle.std.specs.Prelude.{◌≡◌, ◌<◌, IfSome, length};
ghost use Rattle.std.specs.Option.{option_map};
ghost use Rattle.dns_model.specs.Shapes.{window_in, window_has, has_bit as bit_of};

use std::marker::Model;

// One window of a type bitmap (RFC 4034, 4.1.2).
#[derive(Drop)]
pub(crate) struct Window<'a> {
    number: u8,
    bits: &'a [u8],
}

impl<'a> Model for Window<'a> {
    ghost use Rattle.dns_model.specs.Shapes.{Window};

    ghost Value = { Window };

    ghost view = { λ w. record { number = w.number; bits = w.bits.now } };
}

impl<'a> Window<'a> {
    // The window at the front, of 1 to 32 bytes, and the bytes after it.
    #[tactic(auto, unfolding(dns_model::specs::Shapes::window_in))]
    pub(crate) fn front(bytes: &'a [u8]) -> Option<(Window<'a>, &'a [u8])>
        ensures window { option_map (λ w. (w.0, w.1.now)) result ≡ window_in bytes.now }
        ensures shorter { IfSome result (λ w. length w.1.now < length bytes.now) }
    {
        let [number, size, rest @ ..] = bytes else {
            return None;
        };
        let size = usize::from(*size);
        if size == 0 || size > 32 || size > rest.len() {
            return None;
        }
        let (bits, after) = rest.split_at(size);
        Some((
            Window {
                number: *number,
                bits,
            },
            after,
        ))
    }

    // Its number: the upper byte of its types.
    pub(crate) fn number(&self) -> u8
        ensures { result ≡ self.now.number }
    {
        self.number
    }

    // Whether the bit of a type stands in this window.
    pub(crate) fn has(&self, record_type: u16) -> bool
        ensures { result ≡ window_has record_type self.now }
    {
        let place = usize::from(record_type % 256);
        u16::from(self.number) == record_type / 256 && has_bit(self.bits, place)
    }
}

// Whether a bit stands; bit 0 is the highest of the first byte.
fn has_bit(bits: &[u8], place: usize) -> bool
    ensures { result ≡ bit_of bits.now place }
{
    match bits.get(place / 8) {
        None => false,
        Some(byte) => (*byte >> (7 - place % 8)) % 2 == 1,
    }
}
