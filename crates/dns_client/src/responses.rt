//! What comes for a request that was sent: the first response, or each of them.
ghost use Rattle.std.specs.Prelude.{◌≡◌, None, Some, IfSome, IsSome, IsSomeAnd, OnSome, []};
ghost use Rattle.futures.specs.Task.{Covers, Keeps};
ghost use Rattle.futures.specs.Poll.{IfReady, OnPending};
ghost use Rattle.futures.specs.Runs.{After, Within};
ghost use Rattle.dns_client.specs.Responses.{awaited_of, read_from};

use dns_handle::{DnsResponse, NetError};
use dns_mux::{FirstAnswer, FirstAnswerFuture};
use futures::task::{Context, Poll};
use futures::{Future, Stream};

/// The first response to a request, as a future. A stream that ends without an item is `Timeout`. Polled after its answer it is ready
/// with `PolledAfterCompletion`, exactly then.
#[derive(Drop)]
pub struct ClientResponse<S: Drop> {
    first: FirstAnswerFuture<S>,
}

impl<S: Stream<Item = Result<DnsResponse, NetError>>> ClientResponse<S> {
    /// The first item of a stream; what comes after it is dropped.
    ///
    /// ```
    /// fn poll_response(
    ///     stream: DnsResponseStream,
    ///     cx: &mut Context<'_>,
    /// ) -> Poll<Result<DnsResponse, NetError>> {
    ///     let mut response = ClientResponse::new(stream);
    ///     response.poll(cx)
    /// }
    /// ```
    pub fn new(stream: S) -> ClientResponse<S>
        ensures { awaited_of result ≡ Some stream }
    {
        ClientResponse {
            first: stream.first_answer(),
        }
    }
}

impl<S: Stream<Item = Result<DnsResponse, NetError>>> Future for ClientResponse<S> {
    ghost use Rattle.dns_mux.specs.FirstAnswers.{MayAnswer};

    type Output = Result<DnsResponse, NetError>;

    ghost can_poll = { λ r. IfSome (awaited_of r) S.can_poll };

    ghost needs = { λ r source. IsSomeAnd (awaited_of r) (λ s. S.needs s source) };

    ghost gives = { λ r. MayAnswer S.yields (awaited_of r) };

    // The trait's clauses, and what is left of the future.
    fn poll(&mut self, cx: &mut Context<'_>) -> Poll<Result<DnsResponse, NetError>>
        requires { IfSome (awaited_of self.old) S.can_poll }
        ensures value { IfReady result (MayAnswer S.yields (awaited_of self.old)) }
        ensures again { OnPending result (IfSome (awaited_of self.new) S.can_poll) }
        ensures same { OnPending result ((x : _) → MayAnswer S.yields (awaited_of self.new) x → MayAnswer S.yields (awaited_of self.old) x) }
        ensures registered { OnPending result (Covers cx.new (λ source. IsSomeAnd (awaited_of self.new) (λ s. S.needs s source))) }
        ensures kept { Keeps cx.old cx.new }
        ensures done { IfReady result (λ _. awaited_of self.new ≡ None) }
        ensures waits { OnPending result (IsSome (awaited_of self.old) × IsSome (awaited_of self.new)) }
    {
        self.first.poll(cx)
    }
}

/// Each response to a request as it comes.
#[derive(Drop)]
pub struct ClientStreamingResponse<S: Drop> {
    stream: S,
}

impl<S: Stream<Item = Result<DnsResponse, NetError>>> ClientStreamingResponse<S> {
    /// The items of a stream.
    pub fn new(stream: S) -> ClientStreamingResponse<S>
        ensures { read_from result ≡ stream }
    {
        ClientStreamingResponse { stream }
    }
}

impl<S: Stream<Item = Result<DnsResponse, NetError>>> Stream for ClientStreamingResponse<S> {
    type Item = Result<DnsResponse, NetError>;

    ghost can_poll = { λ r. S.can_poll (read_from r) };

    ghost needs = { λ r. S.needs (read_from r) };

    ghost yields = { λ r. S.yields (read_from r) };

    fn poll_next(&mut self, cx: &mut Context<'_>) -> Poll<Option<Result<DnsResponse, NetError>>> {
        self.stream.poll_next(cx)
    }
}
