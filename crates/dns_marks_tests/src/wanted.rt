//! Marks and errors as tests compare them.

use dns_cache::{ProofError, RrsetProof};
use dns_model::Proof;
use std::alloc::Global;
use std::fmt::Display;
use std::process::Abort;

/// A mark with the ttl that a signature leaves and the place of the signature, or the text of the error, or neither.
pub(crate) enum Want {
    Found(Proof, Option<u32>, Option<u32>),
    Fails(&'static str),
    Nothing,
}

/// An error, or the cause of one, reads so.
pub(crate) fn reads<D: Display>(rt: &impl Abort, alloc: Global, error: &D, want: &str) -> bool {
    let text = format!(in alloc; "{error}").expect(rt, "memory");
    text.as_str() == want
}

/// What is found is this mark, this ttl and this place.
pub(crate) fn is_found(found: &RrsetProof, want: &Want) -> bool {
    match want {
        Want::Found(proof, ttl, place) => {
            found.proof == *proof && found.adjusted_ttl == *ttl && found.rrsig_index == *place
        }
        _ => false,
    }
}

/// The text of the error that is wanted; none has an empty one.
pub(crate) fn text_of(want: &Want) -> &'static str {
    match want {
        Want::Fails(text) => text,
        _ => "",
    }
}

/// What is found, or why nothing is, is what is wanted.
pub(crate) fn is_wanted(
    rt: &impl Abort,
    alloc: Global,
    mark: &Result<RrsetProof, ProofError>,
    want: &Want,
) -> bool {
    match mark {
        Ok(found) => is_found(found, want),
        Err(error) => reads(rt, alloc, error, text_of(want)),
    }
}
