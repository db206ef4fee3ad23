//! A validator over a handle: how it is made and set, its lookup, and that it is itself a handle.

ghost use Rattle.std.specs.Prelude.{◌≡◌, ◌≤◌, [], IsOk, IfOk, true};
ghost use Rattle.std.specs.Range.{range_inclusive_start, range_inclusive_end};
ghost use Rattle.dns_handle.specs.Replies.{reply_of};
ghost use Rattle.dns_handle.specs.Handles.{OrUnsent};
ghost use Rattle.dns_lookup.specs.Caching.{UsesCache};
ghost use Rattle.dns_lookup.specs.Calls.{Asking, use_of, terms_of_call};
ghost use Rattle.dns_lookup.specs.Causes.{HasItsCause, PassesOn, ForeignNamed, AnswersTold};
ghost use Rattle.dns_lookup.specs.Completing.{Completes};
ghost use Rattle.dns_lookup.specs.Limiting.{default_entries, range_by};
ghost use Rattle.dns_lookup.specs.LookupAnswers.{UnlessNoMemory, WhereTold, OfAnswer, IsSoundAnswer, IsTrail};
ghost use Rattle.dns_lookup.specs.LookupAnswers.{IsExplained, ShowsItsDenial, DeniesQuery};
ghost use Rattle.dns_lookup.specs.Fronts.{IsFront};
ghost use Rattle.dns_lookup.specs.Sends.{SendsFor};

use crate::lookup::{Bounds, look_up};
use crate::sending::answer_request;
use dns_cache::{AcceptedBy, DefaultCache, LruValidationCache, TtlRange, TtlRanges};
use dns_evidence::{IterationLimits, Verifier};
use dns_handle::{DnsHandle, DnsRequest, DnsRequestOptions, DnsResponse, NetError, faults_after};
use dns_record::{NoMemory, Query};
use dns_trust::{Judge, TrustAnchors};
use std::alloc::Global;
use std::ops::RangeInclusive;

/// A validator over a handle (RFC 4035, 5): its answers have marks, and chains for what is Secure.
#[derive(Drop)]
pub struct DnssecDnsHandle<H: Drop, V: Drop, C: Drop = DefaultCache> {
    handle: H,
    anchors: TrustAnchors,
    verifier: V,
    cache: C,
    ranges: TtlRanges,
    iterations: IterationLimits,
    sends: u64,
    faults: u64,
}

/// How many entries the cache keeps that a validator makes for itself.
const CACHE_ENTRIES: usize = 65_536;

/// The cache that a validator makes for itself: empty, of 65,536 entries.
pub fn default_cache(alloc: Global) -> Result<DefaultCache, NoMemory>
    ensures { IfOk result (λ c. c ≡ record { list = default_entries; hits = 0 }) }
{
    LruValidationCache::new(alloc, CACHE_ENTRIES)
}

impl<H: DnsHandle + Drop, V: Verifier + Drop> DnssecDnsHandle<H, V, DefaultCache> {
    ghost use Rattle.dns_lookup.specs.Limiting.{default_ranges};
    ghost use Rattle.dns_lookup.specs.Making.{IsNewValidator};

    /// A validator that trusts these anchors and tests signatures by this verifier, with an empty cache of 65,536 entries. This one trusts
    /// a key of the root, under algorithm 13:
    ///
    /// ```
    /// fn trusting<H: DnsHandle + Drop, V: Verifier + Drop>(
    ///     alloc: Global,
    ///     upstream: H,
    ///     verifier: V,
    ///     key: Octets,
    /// ) -> Result<DnssecDnsHandle<H, V>, NoMemory> {
    ///     let mut anchors = TrustAnchors::empty(alloc);
    ///     let _ = anchors.insert_with_name(Name::root(alloc)?, 13, key)?;
    ///     DnssecDnsHandle::new(alloc, upstream, anchors, verifier)
    /// }
    /// ```
    pub fn new(
        alloc: Global,
        handle: H,
        anchors: TrustAnchors,
        verifier: V,
    ) -> Result<Self, NoMemory>
        ensures { IfOk result (λ h. IsNewValidator handle anchors verifier h) }
    {
        let cache = default_cache(alloc)?;
        DnssecDnsHandle::with_cache(handle, anchors, verifier, cache)
    }

    /// The same validator, by the name that says what it trusts.
    pub fn with_trust_anchor(
        alloc: Global,
        handle: H,
        anchors: TrustAnchors,
        verifier: V,
    ) -> Result<Self, NoMemory>
        ensures { IfOk result (λ h. IsNewValidator handle anchors verifier h) }
    {
        DnssecDnsHandle::new(alloc, handle, anchors, verifier)
    }

    /// The same validator with an empty cache of so many entries, and with the ranges of seconds that it had at first. With 0 it keeps
    /// nothing.
    pub fn validation_cache_size(self, alloc: Global, capacity: usize) -> Result<Self, NoMemory>
        ensures { IfOk result (λ h. h ≡ record self {
          cache = record { list = record { entries = []; capacity = capacity }; hits = 0 };
          ranges = default_ranges;
        }) }
    {
        let mut validator = self;
        validator.cache = LruValidationCache::new(alloc, capacity)?;
        validator.ranges = TtlRanges::new();
        Ok(validator)
    }
}

impl<H: DnsHandle + Drop, V: Verifier + Drop, C: AcceptedBy<V> + Drop> DnssecDnsHandle<H, V, C> {
    ghost use Rattle.std.specs.Range.{range_inclusive_start, range_inclusive_end};
    ghost use Rattle.dns_lookup.specs.Calls.{inner_of, anchors_of, verifier_of, iterations_of, cache_of, ranges_of, call_of};
    ghost use Rattle.dns_lookup.specs.Limiting.{default_iterations, default_ranges, limited, range_by};
    ghost use Rattle.dns_lookup.specs.Sending.{sends_of, faults_of, CountsSend};

    /// A validator that trusts these anchors and tests signatures by this verifier, over a cache of one's own, as one of eight entries:
    ///
    /// ```
    /// fn over_small_cache<H: DnsHandle + Drop, V: Verifier + Drop>(
    ///     alloc: Global,
    ///     upstream: H,
    ///     anchors: TrustAnchors,
    ///     verifier: V,
    /// ) -> Result<DnssecDnsHandle<H, V, ListCache>, NoMemory> {
    ///     DnssecDnsHandle::with_cache(upstream, anchors, verifier, ListCache::new(alloc, 8))
    /// }
    /// ```
    pub fn with_cache(
        handle: H,
        anchors: TrustAnchors,
        verifier: V,
        cache: C,
    ) -> Result<Self, NoMemory>
        ensures made { IsOk result }
        ensures all { IfOk result (λ h. h ≡ record {
          handle = handle;
          anchors = anchors;
          verifier = verifier;
          cache = cache;
          ranges = default_ranges;
          iterations = default_iterations;
          sends = 0;
          faults = 0;
        }) }
    {
        Ok(DnssecDnsHandle {
            handle,
            anchors,
            verifier,
            cache,
            ranges: TtlRanges::new(),
            iterations: IterationLimits::DEFAULT,
            sends: 0,
            faults: 0,
        })
    }

    /// The same validator, which keeps errors for at least and at most so many seconds. The first number isn't above the second.
    pub fn negative_validation_ttl(self, ttl: RangeInclusive<u64>) -> Self
        requires { range_inclusive_start ttl ≤ range_inclusive_end ttl }
        ensures { result ≡ record self { ranges = record self.ranges { negative = range_by (range_inclusive_start ttl) (range_inclusive_end ttl) } } }
    {
        let mut validator = self;
        validator.ranges.negative = range_of(&ttl);
        validator
    }

    /// The same validator, which keeps all else for at least and at most so many seconds. The first number isn't above the second.
    pub fn positive_validation_ttl(self, ttl: RangeInclusive<u64>) -> Self
        requires { range_inclusive_start ttl ≤ range_inclusive_end ttl }
        ensures { result ≡ record self { ranges = record self.ranges { positive = range_by (range_inclusive_start ttl) (range_inclusive_end ttl) } } }
    {
        let mut validator = self;
        validator.ranges.positive = range_of(&ttl);
        validator
    }

    /// The same validator, with the limits of the iterations of a hash that are given, 100 and 500 before (RFC 9276, 3.2): above the
    /// soft one NSEC3 records leave a denial Insecure, above the hard one Bogus.
    pub fn nsec3_iteration_limits(self, soft: Option<u16>, hard: Option<u16>) -> Self
        ensures { result ≡ limited self soft hard }
    {
        let before = self.iterations;
        let mut validator = self;
        validator.iterations = IterationLimits {
            soft: soft.unwrap_or(before.soft),
            hard: hard.unwrap_or(before.hard),
        };
        validator
    }

    /// Its answers are validated.
    pub fn is_verifying_dnssec(&self) -> bool
        ensures { result ≡ true }
    {
        true
    }

    /// Looks a query up at a moment, in seconds: one send for the query, at most 1,024 in all, and no ask deeper than the
    /// options say, nor deeper than 255. Each send has this moment and these options. What is
    /// judged is asked for with EDNS and DO, AD set and CD clear; the NS records by which a zone is searched are asked for as
    /// `DnsRequest::from_query` has it. The marks of the answer are this validator's own, and its trail says what was asked,
    /// heard and judged for them. Its anchors and verifier stay as they are. The call is counted as a `send` is.
    ///
    /// The denial of an answer says what its records prove beside (RFC 4035, 5.3.4 and 5.4): `Absent(Secure)`, that no zone in
    /// which its Secure NSEC or NSEC3 records are true has an answer, but for what opt-out leaves open; `Expanded(Secure)`, that the
    /// answer comes from the right wildcard; `Absent(Insecure)`, that nothing is there where no more than Insecure can be expected. A
    /// Secure denial promises nothing where the query is for ANY, RRSIG, NSEC, NSEC3, OPT or a type from 128 to 255.
    ///
    /// Errors: one of the handle's own send for the query; `ForeignClassRecord` for a record of another class than the
    /// query's; `Dns(Nsec)`, with the answer inside, exactly where its records lack a denial that they need, or have one that
    /// doesn't hold; `NoMemory`.
    ///
    /// The mark of the first record of an answer, if it has one:
    ///
    /// ```
    /// fn first_mark<H: DnsHandle + Drop, V: Verifier + Drop>(
    ///     alloc: Global,
    ///     validator: &mut DnssecDnsHandle<H, V>,
    ///     query: Query,
    ///     now: u64,
    /// ) -> Result<Option<Proof>, NetError> {
    ///     let response = validator.lookup(alloc, query, DnsRequestOptions::default(), now)?;
    ///     Ok(response.message.answers.first().map(|record| record.proof))
    /// }
    /// ```
    pub fn lookup(
        &mut self,
        alloc: Global,
        query: Query,
        options: DnsRequestOptions,
        now: u64,
    ) -> Result<DnsResponse, NetError>
        // The next lookup is by the same anchors and the same verifier, and this one is counted as a send is.
        ensures counted { CountsSend self.old self.new (reply_of result) }
        ensures later { H.faults (inner_of self.old) ≤ H.faults (inner_of self.new) }

        // Whatever the result, each send is an ask with these options at this moment, judged or plain; the first one is judged.
        ensures sends { OrUnsent (inner_of self.old) (inner_of self.new) result
            (SendsFor (Asking H.DnsHandle options now) (inner_of self.old) (inner_of self.new) query) }

        // And whatever the result, the sends are a front of a run, or that and one send more whose reply was lost as memory ran out:
        // each the first one, or named by its asker's table for what was heard, in the order of sends, with its depth. The answer
        // is the one to which that run has come, or that memory ran out. What the cache has afterwards it had before, or it is of a set
        // that one of the sends heard.
        ensures front { IsFront H.DnsHandle (terms_of_call (call_of V.Verifier C.ValidationCache self.old self.new query options now))
            (use_of C.ValidationCache (cache_of self.old) (cache_of self.new)) (inner_of self.old) (inner_of self.new) (reply_of result) }

        // An answer, an Ok one or that inside a denial, is sound. Its trail says how it came about, and explains its marks,
        // each set that is Insecure, and what each step denies.
        ensures sound { OfAnswer (reply_of result) (λ a ending.
            IsSoundAnswer H.DnsHandle (call_of V.Verifier C.ValidationCache self.old self.new query options now) a) }
        ensures trail { OfAnswer (reply_of result) (λ a ending.
            IsTrail H.DnsHandle (call_of V.Verifier C.ValidationCache self.old self.new query options now) a.trail ending) }
        ensures explained { OfAnswer (reply_of result) (λ a ending.
            IsExplained (V.answers (verifier_of self.old)) (C.told (cache_of self.old)) now a) }

        // How it used the cache: at most as many sets came from it as it was hit, the first set of the answer's step did where an entry
        // that it told may serve that, and what was found last stands first in it afterwards.
        ensures cached { OfAnswer (reply_of result) (λ a ending.
            UsesCache (call_of V.Verifier C.ValidationCache self.old self.new query options now) a.trail) }

        // What an Ok answer denies follows from its Secure NSEC or NSEC3 records, in each zone in which they are true. A denial
        // names the query.
        ensures denies { IfOk result (λ a. ShowsItsDenial now query a) }
        ensures denied { DeniesQuery query (reply_of result) }

        // An error without an answer inside, running out of memory aside, is the handle's own, or names a record of another class than
        // the query's.
        ensures caused { HasItsCause H.DnsHandle
            (call_of V.Verifier C.ValidationCache self.old self.new query options now) (reply_of result) }

        // Where the upstream tells its replies, its error is passed on; else the first record of another class is named;
        // else there is an answer or a denial.
        ensures passes { WhereTold H.DnsHandle self.old query result PassesOn }
        ensures names_foreign { WhereTold H.DnsHandle self.old query result ForeignNamed }
        ensures answers { WhereTold H.DnsHandle self.old query result AnswersTold }

        // Where the upstream's replies make a session that is valid for the query, it is answered, and what was queried is
        // Secure.
        ensures completes { UnlessNoMemory result (Completes (H.told (inner_of self.old))
            (call_of V.Verifier C.ValidationCache self.old self.new query options now) (reply_of result)) }
    {
        let judge = Judge {
            verifier: &self.verifier,
            anchors: &self.anchors,
            moment: now,
        };
        let bounds = Bounds {
            iterations: self.iterations,
            ranges: self.ranges,
        };
        let handle = &mut self.handle;
        let cache = &mut self.cache;
        let reply = look_up(alloc, judge, handle, cache, query, options, bounds);
        self.sends = self.sends.saturating_add(1);
        self.faults = faults_after(self.faults, &reply);
        reply
    }

    /// The handle that is asked.
    pub fn inner(&self) -> &H
        ensures { result.now ≡ inner_of self.now }
    {
        &self.handle
    }

    /// The cache with what was kept, and how often it was hit.
    pub fn cache(&self) -> &C
        ensures { result.now ≡ cache_of self.now }
    {
        &self.cache
    }

    /// The handle that was asked, handed back.
    pub fn into_inner(self) -> H
        ensures { result ≡ inner_of self }
    {
        self.handle
    }

    /// The handle that was asked and the cache with what was kept, handed back. So a warm cache outlives its validator.
    pub fn into_parts(self) -> (H, C)
        ensures handle { result.0 ≡ inner_of self }
        ensures cache { result.1 ≡ cache_of self }
    {
        (self.handle, self.cache)
    }
}

// A range of seconds.
fn range_of(ttl: &RangeInclusive<u64>) -> TtlRange
    ensures { result ≡ range_by (range_inclusive_start ttl.now) (range_inclusive_end ttl.now) }
{
    TtlRange {
        least: *ttl.start(),
        most: *ttl.end(),
    }
}

/// A validator is itself a handle. `send` looks a query up as `DnssecDnsHandle::lookup` does, for the request's first question
/// and with its options; but what is sent for the question is this request, with EDNS (of payload 1,232 where it has none) and
/// DO, AD set and CD clear (RFC 4035, 3.2 and 4.1). A request of another opcode than Query goes on as it is, and its reply is
/// the answer.
///
/// Errors: `Message("no query in request")` exactly for a query without a question, and nothing is sent; else those of a lookup,
/// or of the handle's own send.
impl<H: DnsHandle + Drop, V: Verifier + Drop, C: AcceptedBy<V> + Drop> DnsHandle
    for DnssecDnsHandle<H, V, C> {
    ghost use Rattle.std.specs.Prelude.{None, true};
    ghost use Rattle.dns_lookup.specs.Sending.{sends_of, faults_of, ValidatesRequest, ValidatesQuestion};

    ghost sends = { sends_of };

    ghost faults = { faults_of };

    ghost sent = { ValidatesQuestion H.DnsHandle V.Verifier C.ValidationCache };

    ghost told = { λ h. None };

    ghost requested = { ValidatesRequest H.DnsHandle V.Verifier C.ValidationCache };

    ghost validates = { λ h. true };

    fn send(
        &mut self,
        alloc: Global,
        request: DnsRequest,
        now: u64,
    ) -> Result<DnsResponse, NetError> {
        let judge = Judge {
            verifier: &self.verifier,
            anchors: &self.anchors,
            moment: now,
        };
        let bounds = Bounds {
            iterations: self.iterations,
            ranges: self.ranges,
        };
        let handle = &mut self.handle;
        let cache = &mut self.cache;
        let reply = answer_request(alloc, judge, handle, cache, request, bounds);
        self.sends = self.sends.saturating_add(1);
        self.faults = faults_after(self.faults, &reply);
        reply
    }

    // The trait's clause, and that the answer is always so.
    fn is_verifying_dnssec(&self) -> bool
        ensures validates { result ≡ true → true ≡ true }
        ensures always { result ≡ true }
    {
        true
    }

    fn is_using_edns(&self) -> bool {
        true
    }
}
