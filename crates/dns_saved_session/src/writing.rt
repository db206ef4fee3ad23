//! The text of a session.
ghost use Rattle.std.specs.Prelude.{◌≡◌, ◌^◌, ◌++◌, ◌∷◌, [], codes, nat_lt, true, Ok, OnOk, IfOk, IsTrue};
ghost use Rattle.std.specs.Fmt.{decimal};
ghost use Rattle.std.specs.List.{flat_map, list_all};
ghost use Rattle.std.specs.Option.{option_map_or, option_to_list};
ghost use Rattle.dns_model.specs.Bytes.{is_bytes};
ghost use Rattle.dns_report.specs.Fields.{is_u16};
ghost use Rattle.dns_text.specs.Lines.{line};
ghost use Rattle.dns_session.specs.Grammar.{session_of};
ghost use Rattle.dns_saved_session.specs.SavedText.{accept_text, anchor_text, asked_text, depth_text, fitting_accept, fitting_anchor, fitting_reply, fitting_question, fitting_saved, head_text, saved_text, session_saved};

use crate::accepts::{push_accepts, push_algorithms, push_anchors};
use crate::replies::{push_query, push_replies};
use crate::saved::SavedSession;
use crate::saved_reply::SavedReply;
use dns_record::{NoMemory, Query};
use dns_text::{end_line, push_number, push_text};
use std::alloc::Global;

// Appends the line of a moment.
fn push_moment(into: &mut Vec<u8>, moment: u64) -> Result<(), NoMemory>
    ensures ok { OnOk result (into.new.items ≡ into.old.items ++ line (codes "moment") (decimal moment ∷ [])) }
    ensures fits { IsTrue (nat_lt moment (2 ^ 64)) }
{
    push_text(into, b"moment")?;
    push_number(into, moment)?;
    end_line(into)
}

// Appends the line of a depth, where there is one.
fn push_depth(into: &mut Vec<u8>, depth: Option<u16>) -> Result<(), NoMemory>
    ensures ok { OnOk result (into.new.items ≡ into.old.items ++ flat_map depth_text (option_to_list depth)) }
    ensures fits { IsTrue (option_map_or is_u16 depth true) }
{
    if let Some(depth) = depth {
        push_text(into, b"depth")?;
        push_number(into, u64::from(depth))?;
        end_line(into)?;
    }
    Ok(())
}

// Appends the lines before the first trusted key.
#[tactic(auto, unfolding(crate::specs::SavedText::head_text))]
fn push_head(
    into: &mut Vec<u8>,
    moment: u64,
    depth: Option<u16>,
    algorithms: &[u8],
) -> Result<(), NoMemory>
    ensures ok { OnOk result (into.new.items ≡ into.old.items ++ head_text moment depth algorithms.now) }
    ensures moment { OnOk result (IsTrue (nat_lt moment (2 ^ 64))) }
    ensures depth { OnOk result (IsTrue (option_map_or is_u16 depth true)) }
    ensures algorithms { OnOk result (IsTrue (is_bytes algorithms.now)) }
{
    push_text(into, b"dns-session 2\n")?;
    push_moment(into, moment)?;
    push_depth(into, depth)?;
    push_algorithms(into, algorithms)
}

// Appends the lines from the query on.
#[tactic(auto, unfolding(crate::specs::SavedText::asked_text))]
fn push_asked(into: &mut Vec<u8>, query: &Query, replies: &[SavedReply]) -> Result<(), NoMemory>
    ensures ok { OnOk result (into.new.items ≡ into.old.items ++ asked_text query.now replies.now) }
    ensures query { OnOk result (IsTrue (fitting_question query.now)) }
    ensures replies { OnOk result (IsTrue (list_all fitting_reply replies.now)) }
{
    push_query(into, query)?;
    push_replies(into, replies)?;
    push_text(into, b"end\n")
}

// Appends all lines.
#[tactic(auto, unfolding(crate::specs::SavedText::saved_text))]
fn push_saved(into: &mut Vec<u8>, saved: &SavedSession<'_>) -> Result<(), NoMemory>
    ensures ok { OnOk result (into.new.items ≡ into.old.items ++ saved_text saved.now) }
    ensures fits { OnOk result (IsTrue (fitting_saved saved.now)) }
{
    push_head(into, saved.moment, saved.depth, saved.algorithms)?;
    push_anchors(into, saved.anchors)?;
    push_accepts(into, saved.accepts)?;
    push_asked(into, saved.query, saved.replies)
}

/// The text of a session in version 2, by which the lookup can be made again: the replies are served by turn, in the order of the replies.
/// Questions are those of the class IN, which is the only one that a session has. It fails only where memory runs out.
///
/// The text is read as the session of exactly these parts.
pub fn write_session(alloc: Global, saved: &SavedSession<'_>) -> Result<Vec<u8>, NoMemory>
    ensures text { IfOk result (λ v. v.items ≡ saved_text saved.now) }
    ensures reads { IfOk result (λ v. session_of v.items ≡ Ok (session_saved saved.now)) }
{
    let mut text = Vec::new(alloc);
    push_saved(&mut text, saved)?;
    Ok(text)
}
