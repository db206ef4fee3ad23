//! What a session says that is used of it: trusted keys, accepted signatures, and how deep asks go.
ghost use Rattle.std.specs.Prelude.{◌≡◌, IfOk};
ghost use Rattle.dns_forward_run.specs.Settings.{IsTrustOf};

use dns_evidence::Listed;
use dns_record::NoMemory;
use dns_session::Session;
use dns_session_lookup::{listed_verifier, session_anchors, session_options};
use dns_trust::TrustAnchors;
use std::alloc::Global;
use std::sync::Arc;

/// What a session trusts.
#[derive(Drop)]
pub(crate) struct Trust {
    /// The keys that are trusted.
    pub(crate) anchors: TrustAnchors,
    /// The signatures that are accepted.
    pub(crate) list: Arc<Listed, Global>,
    /// How deep the asks of a lookup go.
    pub(crate) depth: u16,
}

/// What a session trusts. Its moment, its query and its replies aren't used.
pub(crate) fn trust_of(alloc: Global, session: Session) -> Result<Trust, NoMemory>
    ensures { IfOk result (IsTrustOf session) }
{
    let Session {
        by_turn: _,
        moment: _,
        depth,
        algorithms,
        anchors,
        accepts,
        query: _,
        replies: _,
    } = session;
    let listed = listed_verifier(alloc, &algorithms, accepts)?;
    let list = Arc::new(alloc, listed)?;
    let anchors = session_anchors(alloc, anchors)?;
    Ok(Trust {
        anchors,
        list,
        depth: session_options(depth).max_request_depth,
    })
}
