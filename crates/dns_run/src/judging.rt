//! By what the sets of a session's lookup are judged, in memory of its own, for whoever judges them again behind the lookup.
ghost use Rattle.std.specs.Prelude.{◌≡◌, unwrap_or, IfOk};
ghost use Rattle.dns_model.specs.Keys.{anchored};
ghost use Rattle.dns_handle.specs.Requests.{plain_options};
ghost use Rattle.dns_session_lookup.specs.Answering.{session_limits};
ghost use Rattle.dns_session_lookup.specs.Verifying.{session_answers, verifier_answers};

use dns_evidence::{IterationLimits, Limits};
use dns_record::NoMemory;
use dns_session::{AcceptedSignature, Anchor, Session};
use dns_session_lookup::{
    SessionVerifier, Verification, session_anchors, session_options, session_verifier,
};
use dns_trust::TrustAnchors;
use std::alloc::Global;

/// By what the sets of a lookup are judged.
#[derive(Drop)]
pub(crate) struct Judging {
    /// What tests signatures.
    pub(crate) verifier: SessionVerifier,
    /// The keys that are trusted.
    pub(crate) anchors: TrustAnchors,
    /// Seconds since 1970.
    pub(crate) moment: u64,
    /// How far validation goes.
    pub(crate) limits: Limits,
}

/// By what the sets of a session's lookup are judged at a moment.
pub(crate) fn judging_at(
    alloc: Global,
    how: Verification,
    session: &Session,
    moment: u64,
) -> Result<Judging, NoMemory>
    ensures verifier { IfOk result (λ j. verifier_answers j.verifier ≡ session_answers how session.now) }
    ensures anchors { IfOk result (λ j. anchored j.anchors ≡ anchored session.now.anchors) }
    ensures moment { IfOk result (λ j. j.moment ≡ moment) }
    ensures limits { IfOk result (λ j. j.limits ≡ session_limits session.now) }
{
    let accepts = cloned_accepts(alloc, &session.accepts)?;
    let anchors = cloned_anchors(alloc, &session.anchors)?;
    Ok(Judging {
        verifier: session_verifier(alloc, how, &session.algorithms, accepts)?,
        anchors: session_anchors(alloc, anchors)?,
        moment,
        limits: limits_of(session.depth),
    })
}

/// How far validation goes in a session that says this depth, or none.
pub(crate) fn limits_of(depth: Option<u16>) -> Limits
    ensures { result ≡ record { depth = unwrap_or depth plain_options.max_request_depth; soft = 100; hard = 500 } }
{
    Limits {
        depth: session_options(depth).max_request_depth,
        soft: IterationLimits::DEFAULT.soft,
        hard: IterationLimits::DEFAULT.hard,
    }
}

// Equal accepted signatures in memory of their own.
fn cloned_accepts(
    alloc: Global,
    accepts: &[AcceptedSignature],
) -> Result<Vec<AcceptedSignature>, NoMemory>
    ensures { IfOk result (λ v. v.items ≡ accepts.now) }
{
    let mut cloned = Vec::new(alloc);
    for next in accepts {
        let own = cloned_accept(next)?;
        cloned.push(own)?;
    }
    Ok(cloned)
}

// An equal accepted signature in memory of its own.
fn cloned_accept(accept: &AcceptedSignature) -> Result<AcceptedSignature, NoMemory>
    ensures { IfOk result (λ a. a ≡ accept.now) }
{
    Ok(AcceptedSignature {
        algorithm: accept.algorithm,
        key: accept.key.try_clone()?,
        bytes: accept.bytes.try_clone()?,
        signature: accept.signature.try_clone()?,
    })
}

// Equal keys in memory of their own.
fn cloned_anchors(alloc: Global, anchors: &[Anchor]) -> Result<Vec<Anchor>, NoMemory>
    ensures { IfOk result (λ v. v.items ≡ anchors.now) }
{
    let mut cloned = Vec::new(alloc);
    for next in anchors {
        let own = cloned_anchor(next)?;
        cloned.push(own)?;
    }
    Ok(cloned)
}

// An equal key in memory of its own.
fn cloned_anchor(anchor: &Anchor) -> Result<Anchor, NoMemory>
    ensures { IfOk result (λ a. a ≡ anchor.now) }
{
    Ok(Anchor {
        owner: anchor.owner.try_clone()?,
        algorithm: anchor.algorithm,
        key: anchor.key.try_clone()?,
    })
}
