//! Whom to trust: anchors, by what and at which moment is judged, which signature is good by which key, and the marks that
//! follow. The layer above may use each call as the definition that its clause names.
#![tactic(auto)]

mod anchors;
mod chains;
mod counted;
mod delegation;
mod fitting;
mod good;
mod judge;
mod judged;
mod key_sets;
mod keys;
mod searching;
mod set_signature;
mod signers;
mod unsigned;
mod usable;
mod validity;
mod verdict;
mod zone_rows;

pub use anchors::TrustAnchors;
pub use counted::counted_keys;
pub use delegation::{DsIndex, ds_matches, is_supported_ds, matching_ds};
pub use fitting::{is_never_expanded, is_right_below_signer, is_timely, signer_fits};
pub use good::{accepts_signature, is_good_but_for_revoke, is_good_by, is_valid, signed_data_once};
pub use judge::Judge;
pub use judged::chained_by;
pub use key_sets::{KeysStep, ds_ask_of, judged_beside, judged_by_ds, keys_step_of};
pub use keys::{AnchoredRow, MatchedRow, anchored, anchored_row, matched_row};
pub use searching::{
    NsProbe, ds_query, has_ns_record, is_key_set, is_ns_of, needs_zone, ns_query, question_start,
    set_start,
};
pub use set_signature::SetSignature;
pub use signers::{SignedBy, each_once, first_signatures};
pub use unsigned::{mark_of_row, shows_unsigned_cut, unsigned_set, zone_mark};
pub use usable::{KeyFault, is_usable, is_usable_but_for_revoke, key_fault};
pub use validity::RrsigValidity;
pub use verdict::{Verdict, chained_verdict, is_skipped_read, key_query, may_be_signed};
pub use zone_rows::{ZoneRow, zone_row};
