//! `MemoizeClientHandle`, a handle that sends each question once.
ghost use Rattle.std.specs.Prelude.{◌≡◌, IfErr, IfOk, IsSome, None};
ghost use Rattle.std.specs.BTreeMap.{get as get_in};
ghost use Rattle.std.specs.Option.{option_map};
ghost use Rattle.dns_model.specs.Records.{Question};
ghost use Rattle.dns_handle.specs.QueryKeys.{key_cmp, key_of};
ghost use Rattle.dns_handle.specs.Requests.{first_question};
ghost use Rattle.dns_handle.specs.Replies.{reply_of};
ghost use Rattle.dns_client.specs.Memos.{AnswersOnce, GivesReply};
ghost use Rattle.dns_client.specs.MemoParts.{GivesKept, IsKeptUnder, kept_in, says_no_memory};

use dns_handle::{DnsHandle, DnsRequest, DnsResponse, NetError, Notice, QueryKey, faults_after};
use dns_record::NoMemory;
use std::alloc::Global;
use std::collections::BTreeMap;
use std::marker::Model;

/// A handle that sends each question once, and gives the first reply to it again for ever.
///
/// The question is the request's first: its name, whatever the case of its letters, its type and its class. An error is kept and given
/// again too, and is a fault each time; only that memory ran out is not kept. A request without a question is
/// `Message(NoQueryInRequest)`, and nothing is sent.
///
/// **What is kept is never let go, whatever its ttl, and grows with each new question.** Opcode and options of a request aren't looked
/// at: an update, whose question is for the zone's SOA, is taken for a query for that SOA. So send updates by another handle.
#[derive(Drop)]
pub struct MemoizeClientHandle<H: Drop> {
    client: H,
    kept: KeptReplies,
    sends: u64,
    faults: u64,
}

/// The reply to a question.
struct KeptReply {
    reply: Result<DnsResponse, NetError>,
}

impl Model for KeptReply {
    ghost use Rattle.dns_handle.specs.Errors.{Reply};
    ghost use Rattle.dns_handle.specs.Replies.{reply_of};

    ghost Value = { Reply };

    ghost view = { λ k. reply_of k.reply };
}

// By hand, so that a function that drops a reply calls this, whatever it is.
impl Drop for KeptReply {
    fn drop(self) {
        let KeptReply { reply: _ } = self;
    }
}

/// Replies, each by its question.
type KeptReplies = BTreeMap<QueryKey, KeptReply>;

impl KeptReply {
    // An equal reply in memory of its own, or that memory ran out.
    fn again(&self) -> Result<DnsResponse, NetError>
        ensures { GivesReply self.now (reply_of result) }
    {
        match &self.reply {
            Ok(response) => Ok(response.try_clone()?),
            Err(error) => Err(error.try_clone()?),
        }
    }
}

// The reply that is kept under a key, once more.
fn kept_at(kept: &KeptReplies, key: &QueryKey) -> Option<Result<DnsResponse, NetError>>
    ensures { GivesKept (get_in key_cmp kept.now key.now) (option_map reply_of result) }
{
    let reply = kept.get(key)?;
    Some(reply.again())
}

// Whether a reply says that memory ran out.
fn says_no_memory(reply: &Result<DnsResponse, NetError>) -> bool
    ensures { result ≡ says_no_memory (reply_of reply.now) }
{
    match reply {
        Ok(_) => false,
        Err(error) => error.is_no_memory(),
    }
}

// The key of a request's first question, if it has one.
fn first_key(alloc: Global, request: &DnsRequest) -> Result<Option<QueryKey>, NoMemory>
    ensures key { IfOk result (λ k. k ≡ option_map key_of (first_question request.now)) }
    ensures err { IfErr result (λ e. IsSome (first_question request.now)) }
{
    match request.message.queries.first() {
        None => Ok(None),
        Some(query) => Ok(Some(QueryKey::of(alloc, query)?)),
    }
}

// Keeps a reply under a key and gives it. That memory ran out is given alone.
fn keep(
    kept: &mut KeptReplies,
    key: QueryKey,
    reply: Result<DnsResponse, NetError>,
) -> Result<DnsResponse, NetError>
    ensures { IsKeptUnder kept.old kept.new key (reply_of reply) (reply_of result) }
{
    if says_no_memory(&reply) {
        return reply;
    }
    let came = KeptReply { reply };
    let copy = came.again();
    kept.insert(key, came)?;
    copy
}

// Answers a request by what is kept for its question, or by a send, whose reply is kept then.
fn answer_once<H: DnsHandle>(
    alloc: Global,
    client: &mut H,
    kept: &mut KeptReplies,
    request: DnsRequest,
    now: u64,
) -> Result<DnsResponse, NetError>
    ensures { AnswersOnce H.DnsHandle request now (kept_in kept.old) (kept_in kept.new) client.old client.new (reply_of result) }
{
    let Some(key) = first_key(alloc, &request)? else {
        return Err(NetError::Message(Notice::NoQueryInRequest));
    };
    if let Some(reply) = kept_at(kept, &key) {
        return reply;
    }
    let reply = client.send(alloc, request, now);
    keep(kept, key, reply)
}

impl<H: DnsHandle + Drop> MemoizeClientHandle<H> {
    ghost use Rattle.dns_client.specs.Memos.{client_of, faults_of, kept_of, sends_of};

    /// A handle that has sent nothing yet by the client.
    ///
    /// ```
    /// fn ask_twice<H: DnsHandle + Drop>(
    ///     alloc: Global,
    ///     client: H,
    ///     name: Name,
    ///     now: u64,
    /// ) -> Result<DnsResponse, NetError> {
    ///     let mut memo = MemoizeClientHandle::new(alloc, client);
    ///     let again = name.try_clone()?;
    ///     let _first = memo.query(alloc, name, DNSClass::IN, RecordType::A, now)?;
    ///     memo.query(alloc, again, DNSClass::IN, RecordType::A, now)
    /// }
    /// ```
    pub fn new(alloc: Global, client: H) -> MemoizeClientHandle<H>
        ensures client { client_of result ≡ client }
        ensures kept { (q : Question) → kept_of result q ≡ None }
        ensures sends { sends_of result ≡ 0 }
        ensures faults { faults_of result ≡ 0 }
    {
        MemoizeClientHandle {
            client,
            kept: BTreeMap::new(alloc),
            sends: 0,
            faults: 0,
        }
    }

    /// The client, handed back. What was kept is let go.
    pub fn into_client(self) -> H
        ensures { result ≡ client_of self }
    {
        self.client
    }
}

/// It tells nothing of its replies. It validates, and uses EDNS, where the client does.
impl<H: DnsHandle + Drop> DnsHandle for MemoizeClientHandle<H> {
    ghost use Rattle.std.specs.Prelude.{None};
    ghost use Rattle.dns_client.specs.Memos.{MemoizesQuestion, MemoizesRequest, client_of, faults_of, sends_of};

    ghost sends = { sends_of };

    ghost faults = { faults_of };

    ghost sent = { MemoizesQuestion H.DnsHandle };

    ghost told = { λ m. None };

    ghost requested = { MemoizesRequest H.DnsHandle };

    ghost validates = { λ m. H.validates (client_of m) };

    ghost uses_edns = { λ m. H.uses_edns (client_of m) };

    fn send(
        &mut self,
        alloc: Global,
        request: DnsRequest,
        now: u64,
    ) -> Result<DnsResponse, NetError> {
        let reply = answer_once(alloc, &mut self.client, &mut self.kept, request, now);
        self.sends = self.sends.saturating_add(1);
        self.faults = faults_after(self.faults, &reply);
        reply
    }

    fn is_verifying_dnssec(&self) -> bool {
        self.client.is_verifying_dnssec()
    }

    fn is_using_edns(&self) -> bool {
        self.client.is_using_edns()
    }
}
