//! The trait of handles, and what each send and lookup of one promises.
ghost use Rattle.std.specs.Prelude.{◌≡◌, ◌≤◌, ⊤, ℕ, Bool, true, false, Option, Some};
ghost use Rattle.dns_model.specs.Records.{Question};
ghost use Rattle.dns_handle.specs.Errors.{Reply};
ghost use Rattle.dns_handle.specs.Replies.{reply_of};
ghost use Rattle.dns_handle.specs.Requests.{RequestValue, first_question, request_of};
ghost use Rattle.dns_model.specs.Counts.{Rose};
ghost use Rattle.dns_handle.specs.Causes.{HasCause, faults_after};
ghost use Rattle.dns_handle.specs.Handles.{Replies, ReplyIsTold, IsLeft, OrUnsent};

use crate::{DnsError, DnsRequest, DnsRequestOptions, DnsResponse, NetError};
use dns_record::Query;
use std::alloc::Global;

/// What sends a request and waits for its response.
pub trait DnsHandle {
    /// How often `send` was called; it stops at the greatest `u64`.
    ghost sends: { Self → ℕ };

    /// How many faults were met; it never falls.
    ghost faults: { Self → ℕ };

    /// The handle before a `send`, the request's first question, the handle after, the reply.
    ghost sent: { Self → Option Question → Self → Reply → Type 0 };

    /// The replies in order and whether they are served by turn, where the handle says it: the reply to a question is the
    /// first with that question.
    ghost told: { Self → Option Replies };

    /// The handle before a `send`, the whole request, the time, the handle after, the reply; a handle may leave it open.
    ghost requested: { Self → RequestValue → ℕ → Self → Reply → Type 0 } = { λ _ _ _ _ _. ⊤ };

    /// The handle's answers are validated.
    ghost validates: { Self → Bool } = { λ _. false };

    /// The handle's requests are to have an OPT record.
    ghost uses_edns: { Self → Bool } = { λ _. true };

    /// Sends the request at a time, in seconds since 1970, and waits for its response. An error other than `NoMemory` and
    /// `NoRecordsFound` comes only where `faults` rises.
    fn send(
        &mut self,
        alloc: Global,
        request: DnsRequest,
        now: u64,
    ) -> Result<DnsResponse, NetError>
        ensures sends { Rose (sends self.old) (sends self.new) }
        ensures sent { sent self.old (first_question request) self.new (reply_of result) }
        ensures requested { requested self.old request now self.new (reply_of result) }
        ensures later { faults self.old ≤ faults self.new }
        ensures cause { HasCause (faults self.old) (faults self.new) result }
        ensures told { IsLeft (told self.old) (first_question request) (reply_of result) (told self.new) }
        ensures reply { ReplyIsTold (told self.old) (first_question request) (reply_of result) };

    /// Sends the request for one question at a time, in seconds since 1970. Where memory runs out before the send, nothing is
    /// sent and nothing changes.
    ///
    /// ```
    /// fn ask<H: DnsHandle>(
    ///     alloc: Global,
    ///     handle: &mut H,
    ///     name: Name,
    ///     now: u64,
    /// ) -> Result<DnsResponse, NetError> {
    ///     let query = Query {
    ///         name,
    ///         query_type: RecordType::A,
    ///         query_class: DNSClass::IN,
    ///     };
    ///     handle.lookup(alloc, query, DnsRequestOptions::default(), now)
    /// }
    /// ```
    fn lookup(
        &mut self,
        alloc: Global,
        query: Query,
        options: DnsRequestOptions,
        now: u64,
    ) -> Result<DnsResponse, NetError>
        ensures sends { OrUnsent self.old self.new result (Rose (sends self.old) (sends self.new)) }
        ensures sent { OrUnsent self.old self.new result (sent self.old (Some query) self.new (reply_of result)) }
        ensures requested { OrUnsent self.old self.new result
            (requested self.old (request_of query options) now self.new (reply_of result)) }
        ensures later { faults self.old ≤ faults self.new }
        ensures cause { HasCause (faults self.old) (faults self.new) result }
        ensures told { IsLeft (told self.old) (Some query) (reply_of result) (told self.new) }
        ensures reply { ReplyIsTold (told self.old) (Some query) (reply_of result) }
    {
        let request = DnsRequest::from_query(alloc, query, options)?;
        self.send(alloc, request, now)
    }

    /// Whether the answers are validated: `true` only where they are.
    fn is_verifying_dnssec(&self) -> bool
        ensures { result ≡ true → validates self.now ≡ true }
    {
        false
    }

    /// Whether requests are to have an OPT record (RFC 6891). Each handle answers it itself: what the trait answered for all
    /// could promise nothing of any.
    fn is_using_edns(&self) -> bool
        ensures { result ≡ uses_edns self.now };
}

/// A handle's count of faults after a reply, which stops at the largest u64. `NoRecordsFound` is no fault, nor is `NoMemory`.
pub fn faults_after(count: u64, reply: &Result<DnsResponse, NetError>) -> u64
    ensures { result ≡ faults_after count (reply_of reply.now) }
{
    match reply {
        Ok(_) => count,
        Err(NetError::Dns(DnsError::NoRecordsFound(_)) | NetError::NoMemory) => count,
        Err(_) => count.saturating_add(1),
    }
}
