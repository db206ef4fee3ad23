//! The printed form of a name, written without memory (RFC 1035, 5.1).
ghost use Rattle.std.specs.Prelude.{◌+◌, ◌<◌, ◌∷◌, [], Some};
ghost use Rattle.std.specs.Fmt.{WritesOnOk};
ghost use Rattle.dns_model.specs.NameText.{backslash, printed, printed_byte, printed_label, three_digits};

use crate::{Name, NameRef};
use std::fmt;

// Writes a decimal digit.
fn write_digit<W: fmt::Write>(f: &mut fmt::Formatter<W>, digit: u8) -> fmt::Result
    requires { digit < 10 }
    ensures { WritesOnOk W.write_str_gives f.old result ((48 + digit) ∷ []) f.new }
{
    f.write_char(char::from(b'0' + digit))
}

// Writes a backslash and a character.
fn write_escaped<W: fmt::Write>(f: &mut fmt::Formatter<W>, byte: u8) -> fmt::Result
    requires { byte < 128 }
    ensures { WritesOnOk W.write_str_gives f.old result (backslash ∷ byte ∷ []) f.new }
{
    f.write_str("\\")?;
    f.write_char(char::from(byte))
}

// Writes a backslash and three digits.
fn write_number<W: fmt::Write>(f: &mut fmt::Formatter<W>, byte: u8) -> fmt::Result
    ensures { WritesOnOk W.write_str_gives f.old result (backslash ∷ three_digits byte) f.new }
{
    f.write_str("\\")?;
    write_digit(f, byte / 100)?;
    write_digit(f, byte / 10 % 10)?;
    write_digit(f, byte % 10)
}

// Writes a byte of a label.
#[tactic(auto, unfolding(dns_model::specs::NameText::printed_byte))]
fn write_byte<W: fmt::Write>(f: &mut fmt::Formatter<W>, byte: u8) -> fmt::Result
    ensures { WritesOnOk W.write_str_gives f.old result (printed_byte byte) f.new }
{
    if byte == b'.' || byte == b'\\' {
        write_escaped(f, byte)
    } else if byte >= 0x21 && byte <= 0x7e {
        f.write_char(char::from(byte))
    } else {
        write_number(f, byte)
    }
}

// Writes a label and a dot.
fn write_label<W: fmt::Write>(f: &mut fmt::Formatter<W>, label: &[u8]) -> fmt::Result
    ensures { WritesOnOk W.write_str_gives f.old result (printed_label label.now) f.new }
{
    for byte in label {
        write_byte(f, *byte)?;
    }
    f.write_str(".")
}

/// The printed form, as `to_ascii` gives it.
impl<'a> fmt::Display for NameRef<'a> {
    ghost output = { λ name. Some (printed name) };

    fn fmt<W: fmt::Write>(&self, f: &mut fmt::Formatter<W>) -> fmt::Result {
        if self.is_root() {
            return f.write_str(".");
        }
        let mut rest = self.copy();
        'labels: while let Some((label, above)) = rest.split_first() {
            write_label(f, label)?;
            rest = above;
        }
        Ok(())
    }
}

impl fmt::Display for Name {
    ghost output = { λ name. Some (printed name) };

    fn fmt<W: fmt::Write>(&self, f: &mut fmt::Formatter<W>) -> fmt::Result {
        fmt::Display::fmt(&self.borrowed(), f)
    }
}
