//! The trail of a lookup: its asks, what was heard, and how that was judged.
ghost use Rattle.std.specs.Prelude.{◌≡◌, []};

use dns_model::{AskRef, Denial, MarkOrigin, Proof, Section};
use dns_record::{DNSClass, Name, Query, Record, RecordType, ResponseCode};
use std::alloc::Global;
use std::marker::Model;

/// How an answer came about: each ask, what was heard, and how that was judged (RFC 4035, 5).
pub struct Trail {
    /// Nested asks before their asker, so that the top ask is the last.
    pub steps: Vec<Asked>,
}

// By hand, so that a function that lets one go calls this.
impl Drop for Trail {
    fn drop(self) {
        let Trail { steps: _ } = self;
    }
}

impl Model for Trail {
    ghost use Rattle.std.specs.Prelude.{List};
    ghost use Rattle.dns_model.specs.Trails.{AskedValue};

    ghost Value = { List AskedValue };

    ghost view = { λ t. t.steps.items };
}

/// A step of a trail: an ask, and what came of it.
pub struct Asked {
    /// 0 for the top ask, and one more for each asker above it.
    pub depth: u16,
    /// The reply was to be judged; else it was only to be seen.
    pub judged: bool,
    /// What was asked.
    pub query: Query,
    /// What was heard.
    pub reply: Reply,
    /// One for each set of the reply, in order.
    pub sets: Vec<JudgedSet>,
    /// How the step ended.
    pub ending: Ending,
    /// The asks that the ending stands on.
    pub excuse: Vec<AskRef>,
}

// By hand, so that a function that lets one go calls this.
impl Drop for Asked {
    fn drop(self) {
        let Asked {
            depth: _,
            judged: _,
            query: _,
            reply: _,
            sets: _,
            ending: _,
            excuse: _,
        } = self;
    }
}

impl Model for Asked {
    ghost use Rattle.dns_model.specs.Trails.{AskedValue};
    ghost use Rattle.dns_evidence.specs.Trail.{heard_value, ending_value};

    ghost Value = { AskedValue };

    ghost view = { λ a. record {
      depth = a.depth;
      judged = a.judged;
      query = a.query;
      reply = heard_value a.reply;
      sets = a.sets.items;
      ending = ending_value a.ending;
      excuse = a.excuse.items;
    } };
}

/// What was heard of a reply.
pub enum Reply {
    /// The records that it tells.
    Told(Told),
    /// An error that tells no records.
    Fault,
}

// By hand, so that a function that lets one go calls this.
impl Drop for Reply {
    fn drop(self) {
        match self {
            Reply::Told(_) => {}
            Reply::Fault => {}
        }
    }
}

/// The records that a reply tells (RFC 1035, 4.1).
pub struct Told {
    /// The response code.
    pub code: ResponseCode,
    /// The reply said that there are no records.
    pub empty: bool,
    /// The answer section, without marks.
    pub answers: Vec<Record>,
    /// The authority section, without marks.
    pub authorities: Vec<Record>,
    /// The additional section, without marks.
    pub additionals: Vec<Record>,
}

// By hand, so that a function that lets one go calls this.
impl Drop for Told {
    fn drop(self) {
        let Told {
            code: _,
            empty: _,
            answers: _,
            authorities: _,
            additionals: _,
        } = self;
    }
}

impl Model for Told {
    ghost use Rattle.std.specs.Prelude.{Bool};
    ghost use Rattle.dns_model.specs.Told.{Told as Records};

    ghost Value = { Records × Bool };

    ghost view = { λ t. (
      record {
        code = t.code.0;
        answers = t.answers.items;
        authorities = t.authorities.items;
        additionals = t.additionals.items;
      },
      t.empty,
    ) };
}

/// A set of a reply, and how it was judged (RFC 4035, 5.3).
pub struct JudgedSet {
    /// Where the set stands.
    pub section: Section,
    /// The owner of the set.
    pub owner: Name,
    /// The type of the set.
    pub record_type: RecordType,
    /// What was found of the set.
    pub mark: Proof,
    /// Where the mark comes from.
    pub origin: MarkOrigin,
    /// The place of the signature that decided, among those of the set, from 0.
    pub sig: Option<u32>,
    /// The asks that the mark stands on, in order.
    pub asked: Vec<AskRef>,
}

// By hand, so that a function that lets one go calls this.
impl Drop for JudgedSet {
    fn drop(self) {
        let JudgedSet {
            section: _,
            owner: _,
            record_type: _,
            mark: _,
            origin: _,
            sig: _,
            asked: _,
        } = self;
    }
}

impl Model for JudgedSet {
    ghost use Rattle.dns_model.specs.Trails.{JudgedSetValue};

    ghost Value = { JudgedSetValue };

    ghost view = { λ s. record {
      section = s.section;
      owner = s.owner;
      rtype = s.record_type.0;
      mark = s.mark;
      origin = s.origin;
      sig = s.sig;
      asked = s.asked.items;
    } };
}

/// How a step ends.
pub enum Ending {
    /// An answer, and what it denies.
    Answered(Denial),
    /// The records are denied, or should be and aren't, with this proof (RFC 4035, 5.4).
    Denied(Proof),
    /// A record of another class than the query's: the first such.
    Foreign {
        owner: Name,
        class: DNSClass,
        record_type: RecordType,
    },
    /// An error stands in place of an answer.
    Failed,
    /// The reply was seen, and not to be judged.
    Seen,
}

// By hand, so that a function that lets one go calls this.
impl Drop for Ending {
    fn drop(self) {
        match self {
            Ending::Answered(_) => {}
            Ending::Denied(_) => {}
            Ending::Foreign {
                owner: _,
                class: _,
                record_type: _,
            } => {}
            Ending::Failed => {}
            Ending::Seen => {}
        }
    }
}

impl Trail {
    /// A trail without a step.
    pub fn new(alloc: Global) -> Trail
        ensures { result ≡ [] }
    {
        Trail {
            steps: Vec::new(alloc),
        }
    }
}
