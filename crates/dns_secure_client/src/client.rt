//! `DnssecClient`: how it is made, its lookup, and that it is itself a handle.
ghost use Rattle.std.specs.Prelude.{◌≡◌, ◌≤◌, IfErr, IfOk, true};
ghost use Rattle.dns_handle.specs.Handles.{OrUnsent};
ghost use Rattle.dns_handle.specs.Replies.{reply_of};
ghost use Rattle.dns_handle.specs.declared.error.NetError.TheVariants.{NoMemory};
ghost use Rattle.dns_lookup.specs.Caching.{UsesCache};
ghost use Rattle.dns_lookup.specs.Calls.{Asking, cache_of, terms_of_call, verifier_of};
ghost use Rattle.dns_lookup.specs.Causes.{AnswersTold, ForeignNamed, HasItsCause, PassesOn};
ghost use Rattle.dns_lookup.specs.Completing.{Completes};
ghost use Rattle.dns_lookup.specs.Fronts.{IsFront};
ghost use Rattle.dns_lookup.specs.LookupAnswers.{DeniesQuery, IsExplained, IsSoundAnswer, IsTrail, OfAnswer, ShowsItsDenial, UnlessNoMemory, WhereTold};
ghost use Rattle.dns_lookup.specs.Making.{IsNewValidator};
ghost use Rattle.dns_lookup.specs.Sending.{CountsSend};
ghost use Rattle.dns_lookup.specs.Sends.{SendsFor};

use crate::AsyncSecureClientBuilder;
use dns_cache::{AcceptedBy, DefaultCache};
use dns_evidence::Verifier;
use dns_handle::{DnsHandle, DnsRequest, DnsRequestOptions, DnsResponse, NetError};
use dns_lookup::DnssecDnsHandle;
use dns_record::Query;
use dns_trust::TrustAnchors;
use std::alloc::Global;

/// A client whose answers are validated (RFC 4035, 5), by a validator over any handle.
#[derive(Drop)]
pub struct DnssecClient<H: Drop, V: Drop, C: Drop = DefaultCache> {
    validator: DnssecDnsHandle<H, V, C>,
}

impl<H: DnsHandle + Drop, V: Verifier + Drop> DnssecClient<H, V, DefaultCache> {
    ghost use Rattle.std.specs.Prelude.{None};
    ghost use Rattle.dns_secure_client.specs.SecureClients.{asked_of, given_of, validator_of};

    /// Begins a client over a handle, for which no keys are given yet.
    pub fn builder(client: H) -> AsyncSecureClientBuilder<H>
        ensures client { asked_of result ≡ client }
        ensures anchors { given_of result ≡ None }
    {
        AsyncSecureClientBuilder::over(client)
    }

    /// A client over a handle that trusts these anchors and tests signatures by this verifier, with an empty cache of 65,536 entries.
    /// The only error is that memory ran out.
    pub fn connect(
        alloc: Global,
        client: H,
        anchors: TrustAnchors,
        verifier: V,
    ) -> Result<Self, NetError>
        ensures made { IfOk result (λ c. IsNewValidator client anchors verifier (validator_of c)) }
        ensures err { IfErr result (λ e. e ≡ NoMemory) }
    {
        DnssecClient::from_client(alloc, client, anchors, verifier)
    }

    /// The same client, by the name that says what it is made of.
    pub fn from_client(
        alloc: Global,
        client: H,
        anchors: TrustAnchors,
        verifier: V,
    ) -> Result<Self, NetError>
        ensures made { IfOk result (λ c. IsNewValidator client anchors verifier (validator_of c)) }
        ensures err { IfErr result (λ e. e ≡ NoMemory) }
    {
        let validator = DnssecDnsHandle::new(alloc, client, anchors, verifier)?;
        Ok(DnssecClient { validator })
    }
}

impl<H: DnsHandle + Drop, V: Verifier + Drop, C: AcceptedBy<V> + Drop> DnssecClient<H, V, C> {
    ghost use Rattle.dns_secure_client.specs.SecureClients.{client_call, client_use, handle_of, validator_of};

    /// A client by a validator, over any cache.
    pub fn from_validator(validator: DnssecDnsHandle<H, V, C>) -> DnssecClient<H, V, C>
        ensures { validator_of result ≡ validator }
    {
        DnssecClient { validator }
    }

    /// The validator, handed back, with what its cache has kept.
    pub fn into_validator(self) -> DnssecDnsHandle<H, V, C>
        ensures { result ≡ validator_of self }
    {
        self.validator
    }

    /// Looks a query up at a moment, in seconds, as `DnssecDnsHandle::lookup` does: its clauses hold of the validator inside.
    ///
    /// Errors: one of the handle's own send for the query; `ForeignClassRecord` for a record of another class than the
    /// query's; `Dns(Nsec)`, with the answer inside, exactly where its records lack a denial that they need, or have one that
    /// doesn't hold; `NoMemory`.
    pub fn lookup(
        &mut self,
        alloc: Global,
        query: Query,
        options: DnsRequestOptions,
        now: u64,
    ) -> Result<DnsResponse, NetError>
        // The next lookup is by the same anchors and the same verifier, and this one is counted as a send is.
        ensures counted { CountsSend (validator_of self.old) (validator_of self.new) (reply_of result) }
        ensures later { H.faults (handle_of self.old) ≤ H.faults (handle_of self.new) }

        // Whatever the result, each send is an ask with these options at this moment, judged or plain; the first one is judged.
        ensures sends { OrUnsent (handle_of self.old) (handle_of self.new) result
            (SendsFor (Asking H.DnsHandle options now) (handle_of self.old) (handle_of self.new) query) }

        // And whatever the result, the sends are a front of a run, or that and one send more whose reply was lost as memory ran out:
        // each the first one, or named by its asker's table for what was heard, in the order of sends, with its depth. The answer
        // is the one to which that run has come, or that memory ran out. What the cache has afterwards it had before, or it is of a set
        // that one of the sends heard.
        ensures front { IsFront H.DnsHandle (terms_of_call (client_call V.Verifier C.ValidationCache self.old self.new query options now))
            (client_use C.ValidationCache self.old self.new) (handle_of self.old) (handle_of self.new) (reply_of result) }

        // An answer, an Ok one or that inside a denial, is sound. Its trail says how it came about, and explains its marks,
        // each set that is Insecure, and what each step denies.
        ensures sound { OfAnswer (reply_of result) (λ a ending.
            IsSoundAnswer H.DnsHandle (client_call V.Verifier C.ValidationCache self.old self.new query options now) a) }
        ensures trail { OfAnswer (reply_of result) (λ a ending.
            IsTrail H.DnsHandle (client_call V.Verifier C.ValidationCache self.old self.new query options now) a.trail ending) }
        ensures explained { OfAnswer (reply_of result) (λ a ending.
            IsExplained (V.answers (verifier_of (validator_of self.old))) (C.told (cache_of (validator_of self.old))) now a) }

        // How it used the cache: at most as many sets came from it as it was hit, the first set of the answer's step did where an entry
        // that it told may serve that, and what was found last stands first in it afterwards.
        ensures cached { OfAnswer (reply_of result) (λ a ending.
            UsesCache (client_call V.Verifier C.ValidationCache self.old self.new query options now) a.trail) }

        // What an Ok answer denies follows from its Secure NSEC or NSEC3 records, in each zone in which they are true. A denial
        // names the query.
        ensures denies { IfOk result (λ a. ShowsItsDenial now query a) }
        ensures denied { DeniesQuery query (reply_of result) }

        // An error without an answer inside, running out of memory aside, is the handle's own, or names a record of another class than
        // the query's.
        ensures caused { HasItsCause H.DnsHandle
            (client_call V.Verifier C.ValidationCache self.old self.new query options now) (reply_of result) }

        // Where the upstream tells its replies, its error is passed on; else the first record of another class is named;
        // else there is an answer or a denial.
        ensures passes { WhereTold H.DnsHandle (validator_of self.old) query result PassesOn }
        ensures names_foreign { WhereTold H.DnsHandle (validator_of self.old) query result ForeignNamed }
        ensures answers { WhereTold H.DnsHandle (validator_of self.old) query result AnswersTold }

        // Where the upstream's replies make a session that is valid for the query, it is answered, and what was queried is
        // Secure.
        ensures completes { UnlessNoMemory result (Completes (H.told (handle_of self.old))
            (client_call V.Verifier C.ValidationCache self.old self.new query options now) (reply_of result)) }
    {
        self.validator.lookup(alloc, query, options, now)
    }
}

/// Its sends are those of the validator inside, and validated.
impl<H: DnsHandle + Drop, V: Verifier + Drop, C: AcceptedBy<V> + Drop> DnsHandle
    for DnssecClient<H, V, C> {
    ghost use Rattle.std.specs.Prelude.{None, true};
    ghost use Rattle.dns_lookup.specs.Sending.{ValidatesQuestion, ValidatesRequest, faults_of, sends_of};
    ghost use Rattle.dns_secure_client.specs.SecureClients.{validator_of};

    ghost sends = { λ c. sends_of (validator_of c) };

    ghost faults = { λ c. faults_of (validator_of c) };

    ghost sent = { λ old asked new reply.
        ValidatesQuestion H.DnsHandle V.Verifier C.ValidationCache (validator_of old) asked (validator_of new) reply };

    ghost told = { λ c. None };

    ghost requested = { λ old request now new reply.
        ValidatesRequest H.DnsHandle V.Verifier C.ValidationCache (validator_of old) request now (validator_of new) reply };

    ghost validates = { λ c. true };

    fn send(
        &mut self,
        alloc: Global,
        request: DnsRequest,
        now: u64,
    ) -> Result<DnsResponse, NetError> {
        self.validator.send(alloc, request, now)
    }

    // The trait's clause, and that the answer is always so.
    fn is_verifying_dnssec(&self) -> bool
        ensures validates { result ≡ true → true ≡ true }
        ensures always { result ≡ true }
    {
        self.validator.is_verifying_dnssec()
    }

    fn is_using_edns(&self) -> bool {
        true
    }
}
