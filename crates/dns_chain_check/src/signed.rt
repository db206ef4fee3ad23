//! Whether the link of a signed set holds (RFC 4035, 5.3).

ghost use Rattle.std.specs.Prelude.{◌≡◌, ◌==◌, ◌&&◌, IfOk, Some};
ghost use Rattle.dns_model.specs.Views.{dnskey_in, rrsig_in};
ghost use Rattle.dns_model.specs.Signing.{key_tag_of};
ghost use Rattle.dns_model.specs.Chains.{is_good as is_good_in, is_signed as is_signed_in, key_comes as key_comes_in};
ghost use Rattle.dns_evidence.specs.Link.{link_value};
ghost use Rattle.dns_chain_check.specs.LinkJudges.{link_judge};
ghost use Rattle.dns_chain_check.specs.Fitting.{fits_set, signed_link_holds};

use crate::earlier::Earlier;
use crate::link_judge::LinkJudge;
use dns_evidence::{Link, LinkSignature, Verifier, has_rdata};
use dns_rdata::{Dnskey, RdataSet, Rrsig, key_tag, signed_data_of};
use dns_record::{NoMemory, Rdata, RecordType};
use dns_trust::{
    accepts_signature, is_never_expanded, is_right_below_signer, is_usable, signer_fits,
};
use std::alloc::Global;

/// The link is a signed one, and holds by links before it (RFC 4035, 5.3).
#[tactic(auto, unfolding(dns_model::specs::Chains::link_holds))]
pub(crate) fn signed_holds<V: Verifier>(
    alloc: Global,
    judge: &LinkJudge<'_, V>,
    earlier: &Earlier<'_, '_>,
    link: &Link,
) -> Result<bool, NoMemory>
    ensures { IfOk result (λ b. b
        ≡ signed_link_holds (link_judge V.answers judge.now) earlier.now (link_value link.now)) }
{
    match link {
        Link::Signed {
            owner,
            class,
            record_type,
            rdatas,
            sig,
            key_link,
            key,
        } => {
            let set = RdataSet {
                name: owner,
                record_type: *record_type,
                dns_class: *class,
                rdatas,
            };
            let by = LinkSignature {
                sig,
                key_link: *key_link,
                key,
            };
            if set.record_type == RecordType::RRSIG || rdatas.is_empty() {
                return Ok(false);
            }
            is_signed(alloc, judge, earlier, &set, &by)
        }
        _ => Ok(false),
    }
}

// A key that an earlier link shows signed the set, by a signature that fits it.
fn is_signed<V: Verifier>(
    alloc: Global,
    judge: &LinkJudge<'_, V>,
    earlier: &Earlier<'_, '_>,
    set: &RdataSet<'_>,
    by: &LinkSignature<'_>,
) -> Result<bool, NoMemory>
    ensures { IfOk result (λ b. b ≡ is_signed_in (link_judge V.answers judge.now) earlier.now
        set.now.name.now set.now.dns_class.0 set.now.record_type.0 set.now.rdatas.now
        by.now.key_link by.now.key.now (rrsig_in by.now.sig.now)) }
{
    let Some(read) = Rrsig::read(by.sig.as_slice()) else {
        return Ok(false);
    };
    if !fits(set, &read) {
        return Ok(false);
    }
    if !is_good(alloc, judge, set, &read, by.key)? {
        return Ok(false);
    }
    Ok(key_comes(earlier, set, &read, by))
}

// The signature is over the set's type, and its signer and its Labels fit the set's owner (RFC 4035, 5.3.1).
fn fits(set: &RdataSet<'_>, sig: &Rrsig<'_>) -> bool
    ensures { result ≡ fits_set set.now.name.now set.now.record_type.0 sig.now }
{
    sig.type_covered == set.record_type
        && signer_fits(set.name, set.record_type, &sig.signer)
        && sig.labels <= set.name.borrowed().num_labels()
        && is_never_expanded(set.name, set.record_type, sig.labels)
        && is_right_below_signer(set.name, set.record_type, &sig.signer)
}

// The signature is timely and the key's, which may sign, and the verifier accepts it (RFC 4035, 5.3.3).
fn is_good<V: Verifier>(
    alloc: Global,
    judge: &LinkJudge<'_, V>,
    set: &RdataSet<'_>,
    sig: &Rrsig<'_>,
    key: &Rdata,
) -> Result<bool, NoMemory>
    ensures { IfOk result (λ b. b ≡ is_good_in (link_judge V.answers judge.now)
        set.now.name.now set.now.dns_class.0 set.now.record_type.0 set.now.rdatas.now
        sig.now key.now (dnskey_in key.now)) }
{
    let Some(read) = Dnskey::read(key.as_slice()) else {
        return Ok(false);
    };
    if !is_usable(judge.verifier, &read) {
        return Ok(false);
    }
    if !is_named(sig, &read, key.as_slice()) {
        return Ok(false);
    }
    if !judge.is_timely(sig) {
        return Ok(false);
    }
    let bytes = signed_data_of(alloc, set, sig)?;
    Ok(accepts_signature(judge.verifier, sig, &read, &bytes))
}

// The signature names the key by its algorithm and its tag.
#[tactic(auto, unfolding(dns_model::specs::Views::dnskey_in))]
fn is_named(sig: &Rrsig<'_>, key: &Dnskey<'_>, rdata: &[u8]) -> bool
    requires { dnskey_in rdata.now ≡ Some key.now }
    ensures { result ≡ ((key.now.algorithm == sig.now.algorithm) && (key_tag_of rdata.now == sig.now.key_tag)) }
{
    let Some(tag) = key_tag(rdata) else {
        return false;
    };
    key.algorithm == sig.algorithm && tag == sig.key_tag
}

// The key comes from an earlier link: of a key set a key of it that is trusted, of another set a key of the signer's
// key set.
fn key_comes(
    earlier: &Earlier<'_, '_>,
    set: &RdataSet<'_>,
    sig: &Rrsig<'_>,
    by: &LinkSignature<'_>,
) -> bool
    ensures { result ≡ key_comes_in earlier.now
        set.now.name.now set.now.dns_class.0 set.now.record_type.0 set.now.rdatas.now
        sig.now.signer by.now.key_link by.now.key.now }
{
    let key = by.key.as_slice();
    if set.record_type != RecordType::DNSKEY {
        return earlier.shows_member(by.key_link, &sig.signer, set.dns_class, key);
    }
    let owner = set.name.borrowed();
    owner.eq_name(&sig.signer)
        && has_rdata(set.rdatas, key)
        && earlier.shows_key(by.key_link, &owner, set.dns_class, key)
}
