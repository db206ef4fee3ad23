//! A question, and by what its answer is judged.
use dns_master_file::RecordLine;
use dns_record::Query;
use std::marker::Model;

/// A question, and by what its answer is judged.
#[derive(Drop)]
pub struct Call<'a> {
    /// What is looked up.
    pub query: &'a Query,
    /// How deep a lookup may ask on behalf of its answer.
    pub depth: u16,
    /// The records of trust anchors.
    pub lines: &'a [RecordLine],
    /// Seconds since 1970.
    pub moment: u64,
    /// The CD bit of each query.
    pub is_disabled: bool,
    /// After so many milliseconds nothing more is asked.
    pub limit_ms: u64,
}

impl<'a> Model for Call<'a> {
    ghost use Rattle.dns_query_lookup.specs.CallValues.{CallValue};

    ghost Value = { CallValue };

    ghost view = { λ c. record {
      query = c.query.now;
      depth = c.depth;
      lines = c.lines.now;
      moment = c.moment;
      is_disabled = c.is_disabled;
      limit = c.limit_ms;
    } };
}
