//! The session of a lookup, which has the same answer.
ghost use Rattle.std.specs.Prelude.{◌≡◌, IfErr, IfOk};
ghost use Rattle.dns_saved_lookup.specs.Heard.{IsSavedOf, IsUnsaid};
ghost use Rattle.dns_query_run.specs.Saving.{AreSavedOf, HasNoSession, HasUnsaid, IsSessionOf};

use dns_anchor_keys::TrustedKeys;
use dns_query_handle::Note;
use dns_query_lookup::{Call, Looked};
use dns_saved_lookup::{SaveError, SavedLookup, save_lookup, saved_reply};
use dns_saved_session::SavedReply;
use dns_session::Anchor;
use dns_signatures::Arithmetic;
use std::alloc::Global;

/// The algorithms whose signatures are computed.
const ALGORITHMS: &[u8] = &[5, 7, 8, 10, 13, 14, 15];

// What a session says of a query that was noted.
fn note_said(note: &Note) -> Result<SavedReply, SaveError>
    ensures ok { IfOk result (IsSavedOf note.now.question note.now.reply) }
    ensures unsaid { IfErr result (IsUnsaid note.now.reply) }
{
    saved_reply(&note.query, &note.reply)
}

// What a session says of each query that was noted.
fn saved_replies(alloc: Global, notes: &[Note]) -> Result<Vec<SavedReply>, SaveError>
    ensures ok { IfOk result (λ v. AreSavedOf notes.now v.items) }
    ensures unsaid { IfErr result (λ why. HasUnsaid why notes.now) }
{
    let mut replies = Vec::new(alloc);
    let mut left = notes;
    'notes: while let Some((note, more)) = left.split_first() {
        let reply = note_said(note)?;
        replies.push(reply)?;
        left = more;
    }
    Ok(replies)
}

// The keys that were trusted, in their order.
fn keys_in(trusted: &TrustedKeys) -> &[Anchor]
    ensures { result.now ≡ trusted.now.anchors }
{
    trusted.anchors.as_slice()
}

/// The text of a session whose lookup, by the signatures that it lists, comes to what this one came to.
pub(crate) fn saved_session(
    alloc: Global,
    call: &Call<'_>,
    looked: &Looked,
) -> Result<Vec<u8>, SaveError>
    ensures session { IfOk result (λ v. IsSessionOf call.now looked.now v.items) }
    ensures none { IfErr result (HasNoSession call.now looked.now) }
{
    let replies = saved_replies(alloc, &looked.notes)?;
    let lookup = SavedLookup {
        moment: call.moment,
        depth: Some(call.depth),
        algorithms: ALGORITHMS,
        anchors: keys_in(&looked.trusted),
        query: call.query,
        replies: &replies,
        answer: &looked.reply,
    };
    let verifier = Arithmetic::new();
    save_lookup(alloc, &verifier, &lookup)
}
