//! Why words aren't read.
ghost use Rattle.std.specs.Prelude.{◌≡◌};
ghost use Rattle.dns_query_words.specs.Reading.{at_word};
ghost use Rattle.dns_query_words.specs.declared.stop.Stop.TheVariants.{NoMemory as no_memory};

use dns_record::NoMemory;
use std::alloc::{AllocError, AllocFailed};

/// What is wrong with a word of a command line.
#[derive(Clone, Copy, Debug, PartialEq, Eq, Drop)]
pub enum Refusal {
    /// It begins with `-`, and is no option.
    UnknownOption,
    /// An option that takes a value is given twice.
    Repeated,
    /// A second server is named.
    SecondServer,
    /// The value of the last option is missing.
    MissingValue,
    /// The value of `--depth` isn't a number from 0 to 255 in decimal digits.
    BadDepth,
    /// The value of `--timeout` isn't a number from 1 to 65,535 in decimal digits.
    BadSeconds,
    /// No name (RFC 1035, 5.1).
    BadName,
    /// No type.
    BadType,
    /// A word after the type.
    ExtraWord,
    /// No name is asked for.
    MissingName,
}

// Why one word isn't taken.
#[derive(Clone, Copy, Debug, PartialEq, Eq, Drop)]
pub(crate) enum Stop {
    Refused(Refusal),
    NoMemory,
}

/// Why words of a command line aren't read.
#[derive(Clone, Copy, Debug, PartialEq, Eq, Drop)]
pub enum WordsError {
    /// What is wrong, and with which word, counted from 0. What is missing stands behind the last one.
    Refused(Refusal, usize),
    /// Memory ran out; this says nothing of the words.
    NoMemory,
}

impl Stop {
    // The same, with the number of the word.
    pub(crate) fn at(self, place: usize) -> WordsError
        ensures { result ≡ at_word place self }
    {
        match self {
            Stop::Refused(refusal) => WordsError::Refused(refusal, place),
            Stop::NoMemory => WordsError::NoMemory,
        }
    }
}

impl From<NoMemory> for Stop {
    ghost from_gives = { λ _ e. e ≡ no_memory };

    fn from(_error: NoMemory) -> Stop {
        Stop::NoMemory
    }
}

impl From<AllocError> for Stop {
    ghost from_gives = { λ _ e. e ≡ no_memory };

    fn from(_error: AllocError) -> Stop {
        Stop::NoMemory
    }
}

impl<T: Drop> From<AllocFailed<T>> for Stop {
    ghost from_gives = { λ _ e. e ≡ no_memory };

    fn from(_failed: AllocFailed<T>) -> Stop {
        Stop::NoMemory
    }
}
