//! What a report says.
use dns_evidence::{Chain, Trail};
use dns_model::Denial;
use dns_record::{Record, ResponseCode};
use std::marker::Model;

/// What a report says: an answer without the message's other fields.
#[derive(Drop)]
pub struct Report {
    /// The response code.
    pub code: ResponseCode,
    /// What the answer denies.
    pub denial: Denial,
    /// The answer section, with marks.
    pub answers: Vec<Record>,
    /// The authority section, with marks.
    pub authorities: Vec<Record>,
    /// The additional section, with marks.
    pub additionals: Vec<Record>,
    /// The chains of the Secure sets.
    pub chains: Vec<Chain>,
    /// How the answer came about, where the report says it. Each question is of class IN, and no record that was told has a mark.
    pub trail: Option<Trail>,
}

impl Model for Report {
    ghost use Rattle.dns_audit.specs.ReportValue.{ReportValue};

    ghost Value = { ReportValue };

    ghost view = { λ r. record {
      code = r.code.0;
      denial = r.denial;
      answers = r.answers.items;
      authorities = r.authorities.items;
      additionals = r.additionals.items;
      chains = r.chains.items;
      trail = r.trail;
    } };
}
