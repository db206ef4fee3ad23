//! Why a call of a shared exchange is refused.
ghost use Rattle.std.specs.Prelude.{◌≡◌};
ghost use Rattle.dns_journal.specs.declared.exchange_error.ExchangeError.TheVariants.{NoMemory};
ghost use Rattle.dns_journal.specs.Calls.{refused_as, refused_by};

use crate::Refusal;
use dns_handle::{NetError, Notice};
use dns_record::NoMemory;
use std::fmt;
use thiserror::Error;

/// Why a call of an exchange that threads share is refused.
#[derive(Drop, Error)]
pub enum ExchangeError {
    /// The journal has as many entries, or as many bytes of messages, as it may, less the places that it keeps.
    #[error("history full")]
    HistoryFull,
    /// The multiplexer refuses a send.
    #[error("{0}")]
    Net(NetError),
    /// Memory ran out.
    #[error("out of memory")]
    NoMemory,
}

/// The text of Display.
impl fmt::Debug for ExchangeError {
    fn fmt<W: fmt::Write>(&self, f: &mut fmt::Formatter<W>) -> fmt::Result {
        write!(f, "{self}")
    }
}

impl From<NoMemory> for ExchangeError {
    ghost from_gives = { λ _ e. e ≡ NoMemory };

    fn from(_error: NoMemory) -> Self {
        ExchangeError::NoMemory
    }
}

impl From<Refusal> for ExchangeError {
    ghost from_gives = { λ refusal e. e ≡ refused_by refusal };

    fn from(refusal: Refusal) -> Self {
        match refusal {
            Refusal::HistoryFull => ExchangeError::HistoryFull,
            Refusal::NoMemory => ExchangeError::NoMemory,
        }
    }
}

/// The same as an error of a request.
impl From<ExchangeError> for NetError {
    ghost from_gives = { λ refusal error. error ≡ refused_as refusal };

    fn from(refusal: ExchangeError) -> Self {
        match refusal {
            ExchangeError::HistoryFull => NetError::Message(Notice::HistoryFull),
            ExchangeError::Net(error) => error,
            ExchangeError::NoMemory => NetError::NoMemory,
        }
    }
}
