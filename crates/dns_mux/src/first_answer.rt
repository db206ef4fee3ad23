//! The first item of a stream, as a future.
ghost use Rattle.std.specs.Prelude.{◌≡◌, Some, None, IsSome, IfSome, IsSomeAnd};
ghost use Rattle.futures.specs.Task.{Covers, Keeps};
ghost use Rattle.futures.specs.Poll.{IfReady, OnPending};
ghost use Rattle.dns_mux.specs.FirstAnswers.{answer_of, stream_in};

use dns_handle::{DnsResponse, NetError, Notice};
use futures::task::{Context, Poll};
use futures::{Future, Stream};
use std::fmt;

/// A stream of what comes for a request, as a future of what comes first.
pub trait FirstAnswer: Stream<Item = Result<DnsResponse, NetError>> {
    /// The first item of the stream; what comes after it is dropped. A stream that ends without an item is `Timeout`.
    ///
    /// ```
    /// fn poll_first(
    ///     stream: DnsResponseStream,
    ///     cx: &mut Context<'_>,
    /// ) -> Poll<Result<DnsResponse, NetError>> {
    ///     let mut first = stream.first_answer();
    ///     first.poll(cx)
    /// }
    /// ```
    final fn first_answer(self) -> FirstAnswerFuture<Self>
    where
        Self: Sized,
        ensures { stream_in result ≡ Some self }
    {
        FirstAnswerFuture { stream: Some(self) }
    }
}

impl<S: Stream<Item = Result<DnsResponse, NetError>>> FirstAnswer for S {}

/// The future of `FirstAnswer::first_answer`. Polled after its answer it is ready with `PolledAfterCompletion`, exactly then.
#[derive(Drop)]
pub struct FirstAnswerFuture<S: Drop> {
    /// None after the answer.
    stream: Option<S>,
}

impl<S: Drop> fmt::Debug for FirstAnswerFuture<S> {
    fn fmt<W: fmt::Write>(&self, f: &mut fmt::Formatter<W>) -> fmt::Result {
        f.write_str("FirstAnswerFuture")
    }
}

// The answer by what came first.
fn answer_of(item: Option<Result<DnsResponse, NetError>>) -> Result<DnsResponse, NetError>
    ensures { result ≡ answer_of item }
{
    match item {
        Some(answer) => answer,
        None => Err(NetError::Timeout),
    }
}

impl<S: Stream<Item = Result<DnsResponse, NetError>>> Future for FirstAnswerFuture<S> {
    ghost use Rattle.dns_mux.specs.FirstAnswers.{MayAnswer};

    type Output = Result<DnsResponse, NetError>;

    ghost can_poll = { λ f. IfSome f.stream S.can_poll };

    ghost needs = { λ f source. IsSomeAnd f.stream (λ s. S.needs s source) };

    ghost gives = { λ f. MayAnswer S.yields f.stream };

    // The trait's clauses, and what is left of the future.
    fn poll(&mut self, cx: &mut Context<'_>) -> Poll<Result<DnsResponse, NetError>>
        requires { IfSome self.old.stream S.can_poll }
        ensures value { IfReady result (MayAnswer S.yields self.old.stream) }
        ensures again { OnPending result (IfSome self.new.stream S.can_poll) }
        ensures same { OnPending result ((x : _) → MayAnswer S.yields self.new.stream x → MayAnswer S.yields self.old.stream x) }
        ensures registered { OnPending result (Covers cx.new (λ source. IsSomeAnd self.new.stream (λ s. S.needs s source))) }
        ensures kept { Keeps cx.old cx.new }
        ensures done { IfReady result (λ _. self.new.stream ≡ None) }
        ensures waits { OnPending result (IsSome self.old.stream × IsSome self.new.stream) }
    {
        let Some(stream) = &mut self.stream else {
            return Poll::Ready(Err(NetError::Message(Notice::PolledAfterCompletion)));
        };
        match stream.poll_next(cx) {
            Poll::Pending => Poll::Pending,
            Poll::Ready(item) => {
                self.stream = None;
                Poll::Ready(answer_of(item))
            }
        }
    }
}
