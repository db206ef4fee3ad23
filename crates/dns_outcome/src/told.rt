//! The message that a trail's reply told, as far as it is judged.

ghost use Rattle.std.specs.Prelude.{◌≡◌, IfOk};
ghost use Rattle.dns_model.specs.SoundAnswers.{told_by};

use dns_evidence::Told;
use dns_message::Message;
use dns_record::{NoMemory, OpCode, clone_records};
use std::alloc::Global;

/// A response with copies of the records that a reply told and with its code; all else in it is empty or 0.
pub fn told_message(alloc: Global, told: &Told) -> Result<Message, NoMemory>
    ensures { IfOk result (λ message. told_by message ≡ told.now.0) }
{
    Ok(Message {
        id: 0,
        response: true,
        op_code: OpCode(0),
        authoritative: false,
        truncated: false,
        recursion_desired: false,
        recursion_available: false,
        authentic_data: false,
        checking_disabled: false,
        response_code: told.code,
        queries: Vec::new(alloc),
        answers: clone_records(&told.answers)?,
        authorities: clone_records(&told.authorities)?,
        additionals: clone_records(&told.additionals)?,
        edns: None,
    })
}
