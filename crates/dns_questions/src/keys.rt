//! The questions of one signature, with each of some keys.
ghost use Rattle.std.specs.Prelude.{◌≡◌, IfOk, OnOk};
ghost use Rattle.std.specs.Option.{option_to_list};
ghost use Rattle.dns_trust.specs.Delegating.{shown};
ghost use Rattle.dns_trust.specs.SetSignatures.{IsRead, IsBuilt};
ghost use Rattle.dns_questions.specs.Gathering.{judge_by, then_once};
ghost use Rattle.dns_questions.specs.Questions.{passes, asked_of, question_of, with_keys};

use crate::question_list::QuestionList;
use dns_evidence::{Asked, Listed};
use dns_rdata::Dnskey;
use dns_record::{NoMemory, Octets, Record};
use dns_session::AcceptedSignature;
use dns_trust::{SetSignature, is_usable, is_valid, may_be_signed, signed_data_once};
use std::alloc::Global;

/// By what questions are found.
#[derive(Drop)]
pub(crate) struct Context<'a> {
    pub alloc: Global,
    /// The algorithms that are supported.
    pub verifier: &'a Listed,
    /// Seconds since 1970.
    pub moment: u64,
    /// All steps of the trail.
    pub steps: &'a [Asked],
}

// All tests of a signature with a key but the verifier's pass.
fn passes(
    context: &Context<'_>,
    signature: &SetSignature<'_>,
    key: &Record,
    read: &Dnskey<'_>,
) -> bool
    requires { IsRead signature.now }
    ensures { result ≡ passes (judge_by context.now) signature.now.set.now signature.now.sig.now signature.now.read.now
        key.now read.now }
{
    if !is_valid(signature, key, context.moment) {
        return false;
    }
    if !may_be_signed(signature.set, signature.read) {
        return false;
    }
    is_usable(context.verifier, read)
}

// What a verifier is asked of a signature with a key. The bytes that the signature is over are built for the first such key, and
// kept.
fn asked_of(
    alloc: Global,
    signature: &SetSignature<'_>,
    key: &Dnskey<'_>,
    built: &mut Option<Octets>,
) -> Result<AcceptedSignature, NoMemory>
    requires { IsBuilt signature.now built.old }
    ensures asked { IfOk result (λ q. q ≡ asked_of signature.now.set.now signature.now.read.now key.now) }
    ensures built { OnOk result (IsBuilt signature.now built.new) }
{
    let bytes = signed_data_once(alloc, signature, built.take())?;
    let read = signature.read;
    let question = AcceptedSignature {
        algorithm: read.algorithm,
        key: Octets::from_slice(alloc, key.key)?,
        bytes: bytes.try_clone()?,
        signature: Octets::from_slice(alloc, read.signature)?,
    };
    *built = Some(bytes);
    Ok(question)
}

// Adds the question of a signature with a key, where all tests but the verifier's pass.
fn add_with_key(
    into: &mut QuestionList,
    context: &Context<'_>,
    signature: &SetSignature<'_>,
    key: &Record,
    built: &mut Option<Octets>,
) -> Result<(), NoMemory>
    requires read { IsRead signature.now }
    requires built { IsBuilt signature.now built.old }
    ensures added { OnOk result (into.new ≡ then_once into.old
        (option_to_list (question_of (judge_by context.now) signature.now.set.now signature.now.sig.now key.now))) }
    ensures built { OnOk result (IsBuilt signature.now built.new) }
{
    let Some(read) = Dnskey::of(key) else {
        return Ok(());
    };
    if !passes(context, signature, key, &read) {
        return Ok(());
    }
    let question = asked_of(context.alloc, signature, &read, built)?;
    into.add(question)
}

/// Adds the questions of a signature with each of some keys.
pub(crate) fn add_with_keys(
    into: &mut QuestionList,
    context: &Context<'_>,
    signature: &SetSignature<'_>,
    keys: &[Record],
) -> Result<(), NoMemory>
    requires { IsRead signature.now }
    ensures { OnOk result (into.new ≡ then_once into.old
        (with_keys (judge_by context.now) signature.now.set.now signature.now.sig.now keys.now)) }
{
    let mut built = None;
    let mut left = keys;
    'keys: while let Some((key, more)) = left.split_first() {
        add_with_key(into, context, signature, key, &mut built)?;
        left = more;
    }
    Ok(())
}

/// Adds the questions of a signature with each of the keys that count.
pub(crate) fn add_with_counted(
    into: &mut QuestionList,
    context: &Context<'_>,
    signature: &SetSignature<'_>,
    keys: &[&Record],
) -> Result<(), NoMemory>
    requires { IsRead signature.now }
    ensures { OnOk result (into.new ≡ then_once into.old
        (with_keys (judge_by context.now) signature.now.set.now signature.now.sig.now (shown keys.now))) }
{
    let mut built = None;
    for key in keys {
        let key = *key;
        add_with_key(into, context, signature, key, &mut built)?;
    }
    Ok(())
}
