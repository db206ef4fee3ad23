//! A validating client that is made step by step.
ghost use Rattle.std.specs.Prelude.{◌≡◌, IfErr, IfOk, None, Some};
ghost use Rattle.dns_handle.specs.declared.error.NetError.TheVariants.{NoMemory};
ghost use Rattle.dns_lookup.specs.Making.{IsNewValidator};
ghost use Rattle.dns_secure_client.specs.SecureClients.{trusted_by};

use crate::DnssecClient;
use dns_evidence::Verifier;
use dns_handle::{DnsHandle, NetError};
use dns_trust::TrustAnchors;
use std::alloc::Global;

/// A `DnssecClient` that is to be made, by `DnssecClient::builder`.
#[derive(Drop)]
pub struct AsyncSecureClientBuilder<H: Drop> {
    client: H,
    anchors: Option<TrustAnchors>,
}

// The keys that were given, or none.
fn given_or_none(alloc: Global, given: Option<TrustAnchors>) -> TrustAnchors
    ensures { result ≡ trusted_by given }
{
    match given {
        Some(anchors) => anchors,
        None => TrustAnchors::empty(alloc),
    }
}

impl<H: DnsHandle + Drop> AsyncSecureClientBuilder<H> {
    ghost use Rattle.dns_secure_client.specs.SecureClients.{asked_of, given_of, validator_of};

    /// A client over a handle, for which no keys are given yet.
    pub(crate) fn over(client: H) -> AsyncSecureClientBuilder<H>
        ensures client { asked_of result ≡ client }
        ensures anchors { given_of result ≡ None }
    {
        AsyncSecureClientBuilder {
            client,
            anchors: None,
        }
    }

    /// The keys that the client trusts, in the place of those that were given before. Without this call it trusts none.
    pub fn trust_anchor(self, anchors: TrustAnchors) -> Self
        ensures client { asked_of result ≡ asked_of self }
        ensures anchors { given_of result ≡ Some anchors }
    {
        let mut builder = self;
        builder.anchors = Some(anchors);
        builder
    }

    /// The client, which tests signatures by this verifier, with an empty cache of 65,536 entries. The only error is that memory ran out.
    pub fn build<V: Verifier + Drop>(
        self,
        alloc: Global,
        verifier: V,
    ) -> Result<DnssecClient<H, V>, NetError>
        ensures made { IfOk result
            (λ c. IsNewValidator (asked_of self) (trusted_by (given_of self)) verifier (validator_of c)) }
        ensures err { IfErr result (λ e. e ≡ NoMemory) }
    {
        let AsyncSecureClientBuilder { client, anchors } = self;
        let anchors = given_or_none(alloc, anchors);
        DnssecClient::from_client(alloc, client, anchors, verifier)
    }
}
