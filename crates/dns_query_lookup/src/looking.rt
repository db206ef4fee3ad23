//! A lookup by keys that are trusted.
ghost use Rattle.std.specs.Prelude.{◌≡◌, IfOk};
ghost use Rattle.dns_model.specs.Keys.{anchored};
ghost use Rattle.dns_query_lookup.specs.Lookups.{IsInquiryOf, IsLookedUpBy};

use crate::call::Call;
use crate::looked::Looked;
use dns_anchor_keys::TrustedKeys;
use dns_asking::{Inquiry, LookupEnd, look_up};
use dns_handle::DnsHandle;
use dns_query_handle::{NotingHandle, Stopwatch};
use dns_record::NoMemory;
use dns_session::Anchor;
use dns_session_lookup::session_anchors;
use dns_signatures::Arithmetic;
use dns_trust::TrustAnchors;
use std::alloc::Global;

// An equal key in memory of its own.
fn copied_anchor(anchor: &Anchor) -> Result<Anchor, NoMemory>
    ensures { IfOk result (λ a. a ≡ anchor.now) }
{
    Ok(Anchor {
        owner: anchor.owner.try_clone()?,
        algorithm: anchor.algorithm,
        key: anchor.key.try_clone()?,
    })
}

// Equal keys in memory of their own.
fn copied_anchors(alloc: Global, anchors: &[Anchor]) -> Result<Vec<Anchor>, NoMemory>
    ensures { IfOk result (λ v. v.items ≡ anchors.now) }
{
    let mut copied = Vec::new(alloc);
    for next in anchors {
        let own = copied_anchor(next)?;
        copied.push(own)?;
    }
    Ok(copied)
}

// The set of some keys.
fn anchor_set(alloc: Global, anchors: &[Anchor]) -> Result<TrustAnchors, NoMemory>
    ensures { IfOk result (λ a. anchored a ≡ anchored anchors.now) }
{
    let copied = copied_anchors(alloc, anchors)?;
    session_anchors(alloc, copied)
}

// What a call asks, by a set of keys.
fn inquiry_of(anchors: &TrustAnchors, call: &Call<'_>) -> Result<Inquiry<Arithmetic>, NoMemory>
    ensures { IfOk result (IsInquiryOf anchors.now call.now) }
{
    let query = call.query.try_clone()?;
    let anchors = anchors.try_clone()?;
    Ok(Inquiry {
        query,
        depth: call.depth,
        anchors,
        verifier: Arithmetic::new(),
        moment: call.moment,
    })
}

/// Looks up over a handle what a call asks, by keys that are trusted.
pub(crate) fn look_up_by<H: DnsHandle + Drop, T: Stopwatch + Drop>(
    alloc: Global,
    handle: NotingHandle<H, T>,
    trusted: TrustedKeys,
    call: &Call<'_>,
) -> Result<Looked, NoMemory>
    ensures { IfOk result (IsLookedUpBy ⟦<NotingHandle<H, T> as DnsHandle>⟧ call.now trusted handle) }
{
    let anchors = anchor_set(alloc, &trusted.anchors)?;
    let inquiry = inquiry_of(&anchors, call)?;
    let LookupEnd { reply, handle } = look_up(alloc, handle, inquiry);
    let (_, notes) = handle.into_parts();
    Ok(Looked {
        reply,
        anchors,
        trusted,
        notes,
    })
}
