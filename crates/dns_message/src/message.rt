//! Messages and their EDNS (RFC 1035, 4.1; RFC 6891, 6.1).
ghost use Rattle.std.specs.Prelude.{◌≡◌, IfOk};

use dns_record::{NoMemory, Octets, OpCode, Query, Record, ResponseCode, clone_records};
use std::marker::Model;

/// What an OPT record says beside its part of the code (RFC 6891, 6.1).
#[derive(Debug)]
pub struct Edns {
    /// The most bytes that the sender takes in a datagram.
    pub max_payload: u16,
    /// The version of EDNS, 0 so far.
    pub version: u8,
    /// The sender wants DNSSEC records (RFC 3225).
    pub dnssec_ok: bool,
    /// The lower 15 bits of the flags.
    pub flags: u16,
    /// The options as they came, each with its code and length (RFC 6891, 6.1.2).
    pub options: Octets,
}

// By hand, so that a function that lets one go calls this.
impl Drop for Edns {
    fn drop(self) {
        let Edns {
            max_payload: _,
            version: _,
            dnssec_ok: _,
            flags: _,
            options: _,
        } = self;
    }
}

impl Model for Edns {
    ghost use Rattle.dns_model.specs.Records.{EdnsValue};

    ghost Value = { EdnsValue };

    ghost view = { λ e. record {
      max_payload = e.max_payload;
      version = e.version;
      dnssec_ok = e.dnssec_ok;
      flags = e.flags;
      options = e.options;
    } };
}

impl Edns {
    /// An equal value; long octets are shared.
    pub fn try_clone(&self) -> Result<Edns, NoMemory>
        ensures { IfOk result (λ e. e ≡ self.now) }
    {
        let options = self.options.try_clone()?;
        Ok(Edns {
            max_payload: self.max_payload,
            version: self.version,
            dnssec_ok: self.dnssec_ok,
            flags: self.flags,
            options,
        })
    }
}

/// A message (RFC 1035, 4.1; RFC 6891 for the OPT record, which is `edns`).
#[derive(Drop)]
pub struct Message {
    /// By which a response is matched to its query.
    pub id: u16,
    /// QR: a response, and no query.
    pub response: bool,
    /// What is asked to be done.
    pub op_code: OpCode,
    /// AA: the server has authority for the name.
    pub authoritative: bool,
    /// TC: the message was cut off.
    pub truncated: bool,
    /// RD: the sender wants the server to ask further.
    pub recursion_desired: bool,
    /// RA: the server asks further.
    pub recursion_available: bool,
    /// AD: the server takes all of it for authentic (RFC 4035, 3.2.3).
    pub authentic_data: bool,
    /// CD: the sender checks for itself (RFC 4035, 3.2.2).
    pub checking_disabled: bool,
    /// How it was answered, with the upper bits of an OPT.
    pub response_code: ResponseCode,
    /// The question section.
    pub queries: Vec<Query>,
    /// The answer section.
    pub answers: Vec<Record>,
    /// The authority section.
    pub authorities: Vec<Record>,
    /// The additional section, the OPT aside.
    pub additionals: Vec<Record>,
    /// The OPT record, where there is one.
    pub edns: Option<Edns>,
}

impl Model for Message {
    ghost use Rattle.dns_model.specs.Records.{MessageValue};

    ghost Value = { MessageValue };

    ghost view = { λ m. record {
      id = m.id;
      response = m.response;
      op_code = m.op_code.0;
      authoritative = m.authoritative;
      truncated = m.truncated;
      recursion_desired = m.recursion_desired;
      recursion_available = m.recursion_available;
      authentic_data = m.authentic_data;
      checking_disabled = m.checking_disabled;
      response_code = m.response_code.0;
      queries = m.queries.items;
      answers = m.answers.items;
      authorities = m.authorities.items;
      additionals = m.additionals.items;
      edns = m.edns;
    } };
}

// A copy of a message's questions.
fn clone_queries(queries: &Vec<Query>) -> Result<Vec<Query>, NoMemory>
    ensures { IfOk result (λ v. v.items ≡ queries.now.items) }
{
    let mut all = Vec::new(*queries.allocator());
    for query in queries {
        all.push(query.try_clone()?)?;
    }
    Ok(all)
}

// A copy of a message's EDNS, where it has any.
fn clone_edns(edns: &Option<Edns>) -> Result<Option<Edns>, NoMemory>
    ensures { IfOk result (λ e. e ≡ edns.now) }
{
    match edns {
        None => Ok(None),
        Some(edns) => Ok(Some(edns.try_clone()?)),
    }
}

impl Message {
    /// An equal value; long octets are shared.
    pub fn try_clone(&self) -> Result<Message, NoMemory>
        ensures { IfOk result (λ m. m ≡ self.now) }
    {
        let queries = clone_queries(&self.queries)?;
        let answers = clone_records(&self.answers)?;
        let authorities = clone_records(&self.authorities)?;
        let additionals = clone_records(&self.additionals)?;
        let edns = clone_edns(&self.edns)?;
        Ok(Message {
            id: self.id,
            response: self.response,
            op_code: self.op_code,
            authoritative: self.authoritative,
            truncated: self.truncated,
            recursion_desired: self.recursion_desired,
            recursion_available: self.recursion_available,
            authentic_data: self.authentic_data,
            checking_disabled: self.checking_disabled,
            response_code: self.response_code,
            queries,
            answers,
            authorities,
            additionals,
            edns,
        })
    }
}
