//! What the words of a command line ask for.
use crate::options::Switches;
use dns_record::Query;
use std::marker::Model;

/// A question, and how it is to be asked and answered.
#[derive(Drop)]
pub struct Arguments<'a> {
    /// What is asked for, in the class IN.
    pub query: Query,
    /// The text behind `@`, which names a server.
    pub server: Option<&'a [u8]>,
    /// `--anchors`: the path of a file of trusted keys.
    pub anchors: Option<&'a [u8]>,
    /// `--save`: the path of the file that the session is written to.
    pub save: Option<&'a [u8]>,
    /// `--depth`: how deep a lookup may ask on behalf of its answer.
    pub depth: Option<u8>,
    /// `--timeout`: after so many seconds nothing more is asked; 30 where no word says it, and never 0.
    pub timeout: u16,
    /// The options without a value.
    pub switches: Switches,
}

impl<'a> Model for Arguments<'a> {
    ghost use Rattle.std.specs.Option.{option_map};
    ghost use Rattle.dns_query_words.specs.Arguments.{ArgumentsValue};

    ghost Value = { ArgumentsValue };

    ghost view = { λ a. record {
      query = a.query;
      server = option_map (λ t. t.now) a.server;
      anchors = option_map (λ t. t.now) a.anchors;
      save = option_map (λ t. t.now) a.save;
      depth = a.depth;
      timeout = a.timeout;
      switches = a.switches;
    } };
}

/// What a call asks for.
#[derive(Drop)]
pub enum Form<'a> {
    /// An answer.
    Ask(Arguments<'a>),
    /// The forms of a call.
    Help,
    /// The program's version.
    Version,
}
