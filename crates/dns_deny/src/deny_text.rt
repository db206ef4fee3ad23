//! A session with the questions behind it.
ghost use Rattle.std.specs.Prelude.{◌≡◌};
ghost use Rattle.dns_deny.specs.ThenLines.{then_line};

use dns_record::{NoMemory, Query};
use dns_session::{LineForm, Session, after, double, question_of};
use std::alloc::Global;
use std::marker::Model;

/// What a `then` line asks for, in class IN.
#[derive(Drop)]
pub struct ThenLine {
    /// What is asked for.
    pub question: Query,
}

impl Model for ThenLine {
    ghost use Rattle.dns_model.specs.Records.{Question};

    ghost Value = { Question };

    ghost view = { λ t. t.question };
}

impl LineForm for ThenLine {
    ghost form = { then_line };

    fn read(alloc: Global, line: &[u8]) -> Result<Option<ThenLine>, NoMemory> {
        let Some(rest) = after(line, b"then") else {
            return Ok(None);
        };
        let Some((name, record_type)) = double(rest) else {
            return Ok(None);
        };
        match question_of(alloc, name, record_type)? {
            Some(question) => Ok(Some(ThenLine { question })),
            None => Ok(None),
        }
    }
}

/// A session, and what is asked behind it.
#[derive(Drop)]
pub struct DenyText {
    /// The session, whose lookup gives the records.
    pub session: Session,
    /// What is asked then, in order.
    pub lines: Vec<ThenLine>,
}

impl Model for DenyText {
    ghost use Rattle.dns_deny.specs.DenyGrammar.{DenyValue};

    ghost Value = { DenyValue };

    ghost view = { λ t. record { session = t.session; questions = t.lines.items } };
}
