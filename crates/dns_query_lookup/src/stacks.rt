//! The handles over one that sends: the CD bit, the end of asking, and notes.
ghost use Rattle.dns_query_lookup.specs.Stacks.{AsksBelow};

use crate::asking::ask_over;
use crate::call::Call;
use crate::looked::Looked;
use dns_anchor_keys::AnchorsFault;
use dns_handle::DnsHandle;
use dns_query_handle::{CheckingHandle, DeadlineHandle, NotingHandle, Stopwatch};
use std::alloc::Global;

/// Asks what a call asks over a handle that sends: with the call's CD bit, within its limit, and noting each query.
pub(crate) fn ask_below<H: DnsHandle + Drop, T: Stopwatch + Drop>(
    alloc: Global,
    below: H,
    deadline: T,
    notes: T,
    call: &Call<'_>,
) -> Result<Looked, AnchorsFault>
    ensures { AsksBelow ⟦<NotingHandle<DeadlineHandle<CheckingHandle<H>, T>, T> as DnsHandle>⟧ call.now below deadline notes result }
{
    let checking = CheckingHandle::new(below, call.is_disabled);
    let timed = DeadlineHandle::new(checking, deadline, call.limit_ms);
    let noting = NotingHandle::new(alloc, timed, notes);
    ask_over(alloc, noting, call)
}
