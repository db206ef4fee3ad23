//! A question over a handle that notes, from its trust anchors to its answer.
ghost use Rattle.dns_query_lookup.specs.Asks.{AsksOver};

use crate::call::Call;
use crate::looked::Looked;
use crate::looking::look_up_by;
use dns_anchor_keys::{AnchorsFault, anchor_keys};
use dns_handle::DnsHandle;
use dns_query_handle::{NotingHandle, Stopwatch};
use dns_signatures::Arithmetic;
use std::alloc::Global;

/// Asks for the keys that trust anchors stand for, and looks up by them what a call asks. Notes are of the lookup alone.
pub(crate) fn ask_over<H: DnsHandle + Drop, T: Stopwatch + Drop>(
    alloc: Global,
    mut handle: NotingHandle<H, T>,
    call: &Call<'_>,
) -> Result<Looked, AnchorsFault>
    ensures { AsksOver ⟦<NotingHandle<H, T> as DnsHandle>⟧ call.now handle result }
{
    let verifier = Arithmetic::new();
    let trusted = anchor_keys(alloc, &mut handle, &verifier, call.lines, call.moment)?;
    let _ = handle.take_notes(alloc);
    let looked = look_up_by(alloc, handle, trusted, call)?;
    Ok(looked)
}
