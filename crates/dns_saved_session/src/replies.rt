//! The lines of what was asked for, and of what came.
ghost use Rattle.std.specs.Prelude.{◌≡◌, ◌++◌, ◌∷◌, OnOk, IsTrue};
ghost use Rattle.std.specs.List.{flat_map, list_all};
ghost use Rattle.dns_model.specs.NameText.{printed};
ghost use Rattle.dns_record.specs.Words.{type_word};
ghost use Rattle.dns_saved_session.specs.Coming.{came_of};
ghost use Rattle.dns_saved_session.specs.SavedText.{came_text, fault_word, fitting_came, fitting_reply, fitting_question, reply_text, query_text};

use crate::saved_reply::{Came, SavedReply};
use dns_record::{NoMemory, Query};
use dns_session::ReplyFault;
use dns_text::{end_line, push_name_word, push_octets_word, push_text, push_type_word, push_word};

// Appends the words of a question.
fn push_question(into: &mut Vec<u8>, query: &Query) -> Result<(), NoMemory>
    ensures ok { OnOk result (into.new.items
        ≡ into.old.items ++ (32 ∷ (printed query.now.owner ++ (32 ∷ type_word query.now.rtype)))) }
    ensures fits { OnOk result (IsTrue (fitting_question query.now)) }
{
    push_name_word(into, &query.name)?;
    push_type_word(into, query.query_type)
}

/// Appends the line of what is looked up.
pub(crate) fn push_query(into: &mut Vec<u8>, query: &Query) -> Result<(), NoMemory>
    ensures ok { OnOk result (into.new.items ≡ into.old.items ++ query_text query.now) }
    ensures fits { OnOk result (IsTrue (fitting_question query.now)) }
{
    push_text(into, b"query")?;
    push_question(into, query)?;
    end_line(into)
}

// The word of a fault.
fn fault_word(fault: ReplyFault) -> &'static [u8]
    ensures { result.now ≡ fault_word fault }
{
    match fault {
        ReplyFault::Timeout => b"timeout",
        ReplyFault::Io => b"io",
        ReplyFault::Busy => b"busy",
    }
}

// Appends the line of what came for a query.
fn push_came(into: &mut Vec<u8>, query: &Query, came: &Came) -> Result<(), NoMemory>
    ensures ok { OnOk result (into.new.items ≡ into.old.items ++ came_text query.now (came_of came.now)) }
    ensures question { OnOk result (IsTrue (fitting_question query.now)) }
    ensures came { OnOk result (IsTrue (fitting_came (came_of came.now))) }
{
    match came {
        Came::Message(bytes) => {
            push_text(into, b"reply")?;
            push_question(into, query)?;
            push_octets_word(into, bytes.as_slice())?;
            end_line(into)
        }
        Came::Fault(fault) => {
            push_text(into, b"fault")?;
            push_question(into, query)?;
            push_word(into, fault_word(*fault))?;
            end_line(into)
        }
    }
}

// Appends the line of a reply.
fn push_reply(into: &mut Vec<u8>, reply: &SavedReply) -> Result<(), NoMemory>
    ensures ok { OnOk result (into.new.items ≡ into.old.items ++ reply_text reply.now) }
    ensures fits { OnOk result (IsTrue (fitting_reply reply.now)) }
{
    push_came(into, &reply.query, &reply.came)
}

/// Appends the lines of replies, in order.
pub(crate) fn push_replies(into: &mut Vec<u8>, replies: &[SavedReply]) -> Result<(), NoMemory>
    ensures ok { OnOk result (into.new.items ≡ into.old.items ++ flat_map reply_text replies.now) }
    ensures fits { OnOk result (IsTrue (list_all fitting_reply replies.now)) }
{
    let mut left = replies;
    'replies: while let Some((reply, more)) = left.split_first() {
        push_reply(into, reply)?;
        left = more;
    }
    Ok(())
}
