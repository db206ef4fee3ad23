//! Type bitmaps as sets of types (RFC 4034, 4.1.2).
ghost use Rattle.std.specs.Prelude.{◌≡◌};
ghost use Rattle.dns_model.specs.Shapes.{bitmap_has as row_has, is_bitmap as is_row};
ghost use Rattle.dns_rdata.specs.Windows.{follows as comes_after};

use crate::window::Window;
use dns_record::RecordType;
use std::marker::Model;

/// The types that a type bitmap lists (RFC 4034, 4.1.2). Contracts see it as the bitmap's bytes.
#[derive(Drop)]
pub struct TypeSet<'a> {
    bytes: &'a [u8],
}

impl<'a> Model for TypeSet<'a> {
    ghost use Rattle.std.specs.Prelude.{List, ℕ};

    ghost Value = { List ℕ };

    ghost view = { λ t. t.bytes.now };
}

impl<'a> TypeSet<'a> {
    /// The set whose bitmap these bytes are. Bytes that are no row of windows list no type.
    pub fn over(bytes: &'a [u8]) -> TypeSet<'a>
        ensures { result ≡ bytes.now }
    {
        TypeSet { bytes }
    }

    /// The bitmap's bytes, lent.
    pub fn as_slice(&self) -> &'a [u8]
        ensures { result.now ≡ self.now }
    {
        self.bytes
    }

    /// Whether the bitmap has the type's bit.
    pub fn contains(&self, record_type: RecordType) -> bool
        ensures { result ≡ row_has self.now record_type.0 }
    {
        bitmap_has(self.bytes, record_type.0)
    }
}

// Whether the bytes are a row of windows, one of which has the type's bit.
fn bitmap_has(bytes: &[u8], record_type: u16) -> bool
    ensures { result ≡ row_has bytes.now record_type }
{
    let mut found = false;
    let mut rest = bytes;
    while !rest.is_empty() {
        let Some((window, after)) = Window::front(rest) else {
            return false;
        };
        found = found || window.has(record_type);
        rest = after;
    }
    found
}

/// Whether the bytes are a type bitmap: a row of windows whose numbers rise (RFC 4034, 4.1.2).
pub fn is_bitmap(bytes: &[u8]) -> bool
    ensures { result ≡ is_row bytes.now }
{
    let mut last = None;
    let mut rest = bytes;
    while !rest.is_empty() {
        let Some((window, after)) = Window::front(rest) else {
            return false;
        };
        let number = window.number();
        if !follows(last, number) {
            return false;
        }
        last = Some(number);
        rest = after;
    }
    true
}

// Whether a window's number may come after the last one's, if there was one.
fn follows(last: Option<u8>, number: u8) -> bool
    ensures { result ≡ comes_after last number }
{
    match last {
        None => true,
        Some(last) => last < number,
    }
}
