//! Why a line isn't read.
ghost use Rattle.std.specs.Prelude.{◌≡◌};
ghost use Rattle.dns_master_file.specs.Reading.{at_column};
ghost use Rattle.dns_master_file.specs.declared.stop.Stop.TheVariants.{NoMemory as no_memory};

use dns_record::NoMemory;
use std::alloc::{AllocError, AllocFailed};

/// What is wrong with a line of a master file.
#[derive(Clone, Copy, Debug, PartialEq, Eq, Drop)]
pub enum Refusal {
    /// The line begins with a blank: its owner is that of the line before it, which isn't known here.
    NoOwner,
    /// `$ORIGIN`, `$INCLUDE` or `$TTL` (RFC 1035, 5.1; RFC 2308, 4).
    Directive,
    /// A bracket, between which a record spans lines.
    Bracket,
    /// The line ends where a word is missing.
    MissingWord,
    /// A word after the last one.
    ExtraWord,
    /// A text between quotes in place of a word.
    QuotedWord,
    /// No name, or `@`, which means an origin.
    BadName,
    /// No class. A ttl that has more than 32 bits is none either.
    BadClass,
    /// No type.
    BadType,
    /// No number in decimal digits, or one with too many bits for its field.
    BadNumber,
    /// No bytes in hexadecimal digits, two for each.
    BadDigits,
    /// No bytes in base64 (RFC 4648, 4).
    BadBase64,
    /// No address: four decimal numbers with dots, or for IPv6 groups of hexadecimal digits with colons (RFC 4291, 2.2).
    BadAddress,
    /// No time: fourteen digits of a moment that the calendar has, or a number of seconds, either of 32 bits (RFC 4034, 3.2).
    BadTime,
    /// No hash of 20 bytes in base32 with the extended hex alphabet (RFC 5155, 3.3).
    BadHash,
    /// No tag of letters and digits, or one of more than 255 (RFC 8659, 4.1).
    BadTag,
    /// A backslash before three digits that are no byte's number, before fewer digits, or at the end of a text (RFC 1035, 5.1).
    BadEscape,
    /// A text whose closing quote is missing.
    OpenQuote,
    /// A character-string of more than 255 bytes (RFC 1035, 3.3).
    LongText,
    /// Another number of bytes than is said after `\#` (RFC 3597, 5).
    BadLength,
    /// An rdata that isn't spelled by its bytes, of a type or class without a form (RFC 3597, 5).
    NoForm,
    /// More than 65,535 bytes of rdata.
    LongRdata,
}

// Why reading stops: a refusal, with how many bytes of the line were left.
#[derive(Clone, Copy, Debug, PartialEq, Eq, Drop)]
pub(crate) enum Stop {
    At(Refusal, usize),
    NoMemory,
}

/// Why a line of a master file isn't read.
#[derive(Clone, Copy, Debug, PartialEq, Eq, Drop)]
pub enum LineError {
    /// What is wrong with the line, and the column where, counted from 1 in bytes. What is missing stands behind the line's last
    /// byte, or where its comment begins.
    Refused(Refusal, usize),
    /// Memory ran out; this says nothing of the line.
    NoMemory,
}

impl Stop {
    // The same, with the column.
    pub(crate) fn in_line(self, line: &[u8]) -> LineError
        ensures { result ≡ at_column line.now self }
    {
        match self {
            Stop::At(refusal, left) => {
                LineError::Refused(refusal, (line.len() + 1).saturating_sub(left))
            }
            Stop::NoMemory => LineError::NoMemory,
        }
    }
}

impl From<NoMemory> for Stop {
    ghost from_gives = { λ _ e. e ≡ no_memory };

    fn from(_error: NoMemory) -> Stop {
        Stop::NoMemory
    }
}

impl From<AllocError> for Stop {
    ghost from_gives = { λ _ e. e ≡ no_memory };

    fn from(_error: AllocError) -> Stop {
        Stop::NoMemory
    }
}

impl<T: Drop> From<AllocFailed<T>> for Stop {
    ghost from_gives = { λ _ e. e ≡ no_memory };

    fn from(_failed: AllocFailed<T>) -> Stop {
        Stop::NoMemory
    }
}
