//! `ClientStreamXfr`, a transfer whose messages a stream gives.
ghost use Rattle.std.specs.Prelude.{◌≡◌, false, [], IfSome, OnSome};
ghost use Rattle.futures.specs.Task.{Covers, Keeps};
ghost use Rattle.futures.specs.Poll.{IfReady, OnPending};
ghost use Rattle.futures.specs.Runs.{After, Within};
ghost use Rattle.dns_transfer.specs.Transfers.{is_ended, stage_after, transfer_after};
ghost use Rattle.dns_transfer.specs.TransferStreams.{given_by, given_for, left_after, stream_of, transfer_of};
ghost use Rattle.dns_transfer.specs.declared.stage.Stage.TheVariants.{Nothing};

use crate::TransferState;
use dns_handle::{DnsResponse, NetError};
use futures::Stream;
use futures::task::{Context, Poll};
use std::fmt;

/// The messages of a transfer, as a stream gives them, up to the message with which the transfer ends.
///
/// Where the transfer goes wrong, `TransferHasTrailingRecords` or `TransferIsIncremental` is given in its message's place, and
/// the stream ends. An error of the stream inside is given as it came, and the transfer goes on after it. The stream also ends with
/// the one inside: **a transfer that is cut off ends like a whole one, and only `is_ended` tells**.
#[derive(Drop)]
pub struct ClientStreamXfr<S: Drop> {
    stream: S,
    transfer: TransferState,
}

impl<S: Drop> fmt::Debug for ClientStreamXfr<S> {
    fn fmt<W: fmt::Write>(&self, f: &mut fmt::Formatter<W>) -> fmt::Result {
        f.write_str("ClientStreamXfr")
    }
}

// Takes a response of the stream inside, and gives it, or the error of the transfer in its place.
#[tactic(auto, using(crate::proofs::StreamLemmas::given_err, crate::proofs::StreamLemmas::given_ok))]
fn judged_response(
    transfer: &mut TransferState,
    response: DnsResponse,
) -> Result<DnsResponse, NetError>
    ensures given { result ≡ given_by (stage_after transfer.old response.message.answers) response }
    ensures left { transfer.new ≡ transfer_after transfer.old response.message.answers }
{
    match transfer.process(&response.message.answers) {
        Ok(()) => Ok(response),
        Err(notice) => Err(NetError::Message(notice)),
    }
}

// Takes an item of the stream inside, and gives what stands in its place.
fn judged(
    transfer: &mut TransferState,
    item: Result<DnsResponse, NetError>,
) -> Result<DnsResponse, NetError>
    ensures given { result ≡ given_for transfer.old item }
    ensures left { transfer.new ≡ left_after transfer.old item }
{
    let response = item?;
    judged_response(transfer, response)
}

impl<S: Stream<Item = Result<DnsResponse, NetError>>> ClientStreamXfr<S> {
    /// A transfer of the responses of a stream. `incremental` says that changes since a known SOA were asked for.
    ///
    /// ```
    /// fn poll_transfer(
    ///     transfer: &mut ClientStreamXfr<DnsResponseStream>,
    ///     cx: &mut Context<'_>,
    /// ) -> Poll<Option<Result<DnsResponse, NetError>>> {
    ///     transfer.poll_next(cx)
    /// }
    /// ```
    pub fn new(stream: S, incremental: bool) -> ClientStreamXfr<S>
        ensures stream { stream_of result ≡ stream }
        ensures transfer { transfer_of result ≡ record { is_incremental = incremental; stage = Nothing } }
    {
        ClientStreamXfr {
            stream,
            transfer: TransferState::new(incremental),
        }
    }

    /// Whether the transfer itself has ended, and not only the stream; see `TransferState::is_ended`.
    pub fn is_ended(&self) -> bool
        ensures { result ≡ is_ended (transfer_of self.now) }
    {
        self.transfer.is_ended()
    }

    /// Gives the stream inside back, from which what was given here has been taken.
    pub fn into_inner(self) -> S
        ensures { result ≡ stream_of self }
    {
        self.stream
    }
}

impl<S: Stream<Item = Result<DnsResponse, NetError>>> Stream for ClientStreamXfr<S> {
    ghost use Rattle.dns_transfer.specs.TransferStreams.{PollsTransfer, YieldsTransfer};

    type Item = Result<DnsResponse, NetError>;

    ghost can_poll = { λ t. is_ended (transfer_of t) ≡ false → S.can_poll (stream_of t) };

    ghost needs = { λ t. S.needs (stream_of t) };

    ghost yields = { λ t. YieldsTransfer (S.yields (stream_of t)) (transfer_of t) };

    // The trait's clauses, and what becomes of what the stream inside gives.
    fn poll_next(&mut self, cx: &mut Context<'_>) -> Poll<Option<Result<DnsResponse, NetError>>>
        requires { is_ended (transfer_of self.old) ≡ false → S.can_poll (stream_of self.old) }
        ensures value { IfReady result (YieldsTransfer (S.yields (stream_of self.old)) (transfer_of self.old) []) }
        ensures rest { IfReady result (λ o. IfSome o (λ x. After
            (YieldsTransfer (S.yields (stream_of self.old)) (transfer_of self.old)) x
            (YieldsTransfer (S.yields (stream_of self.new)) (transfer_of self.new)))) }
        ensures goes { IfReady result
            (λ o. OnSome o (is_ended (transfer_of self.new) ≡ false → S.can_poll (stream_of self.new))) }
        ensures again { OnPending result (is_ended (transfer_of self.new) ≡ false → S.can_poll (stream_of self.new)) }
        ensures same { OnPending result (Within
            (YieldsTransfer (S.yields (stream_of self.old)) (transfer_of self.old))
            (YieldsTransfer (S.yields (stream_of self.new)) (transfer_of self.new))) }
        ensures registered { OnPending result (Covers cx.new (S.needs (stream_of self.new))) }
        ensures kept { Keeps cx.old cx.new }
        ensures polled { PollsTransfer S.yields self.old self.new result }
    {
        if self.transfer.is_ended() {
            return Poll::Ready(None);
        }
        match self.stream.poll_next(cx) {
            Poll::Pending => Poll::Pending,
            Poll::Ready(None) => Poll::Ready(None),
            Poll::Ready(Some(item)) => Poll::Ready(Some(judged(&mut self.transfer, item))),
        }
    }
}
