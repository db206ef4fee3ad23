//! `DnsExchange`, an exchange that threads share.
ghost use Rattle.std.specs.Prelude.{◌≡◌, ◌⊎◌, [], true, false, Ok, IfOk, OnOk, IfErr, IsOk};
ghost use Rattle.turns.specs.Turns.{Begins, newcomer, joined};
ghost use Rattle.dns_multiplexer.specs.Draws.{request_bytes};
ghost use Rattle.dns_multiplexer.specs.Multiplexers.{machine_of};
ghost use Rattle.dns_multiplexer.specs.Views.{taken_of};
ghost use Rattle.dns_journal.specs.Entries.{Arrive, Cancel, Tick, Close};
ghost use Rattle.dns_journal.specs.Limits.{arrival_fits, call_fits, close_fits, was_closed};
ghost use Rattle.dns_journal.specs.Calls.{IsAdded, IsPopped, IsTaken, IsSent, IsSendRefused};
ghost use Rattle.dns_shared_exchange.specs.Tokens.{IsKnown, IsTurn, IsRefusal, IsUnbegun, any_ids, first_known};

use crate::CallerToken;
use crate::turn::{Joining, Line, Splitting, give_turn, take_turn};
use dns_handle::{DnsRequest, IoKind, NetError};
use dns_journal::{ExchangeError, JournaledCore, RecordedDraws};
use dns_multiplexer::{
    Arrival, DnsMultiplexer, Draws, RequestId, SerialMessage, Taken, encoded_request,
};
use dns_record::{NoMemory, Octets};
use std::alloc::Global;
use std::fmt;
use std::marker::Model;
use std::sync::{Arc, Mutex, Wait};

/// A holder of one exchange, which others may hold too, in this thread or in others (RFC 7766, 6.2.1): the requests over one
/// connection and what comes for them, as a `DnsMultiplexer` has them, with a journal of all that was done. It reads no socket and
/// no clock.
///
/// Each call is one turn: the multiplexer is taken out of a queue of one place and given back, before any response comes. So a call
/// may wait for the turns of others, and takes the runtime for that. A caller has a `CallerToken`, which knows what its caller has
/// seen of the journal, and which calls in it are its own.
///
/// An exchange keeps 1,048,576 entries at most, and 67,108,864 bytes of messages. Then each call but a `pop_outbound` and the first
/// `close` is refused with `HistoryFull`, and a new connection is needed.
#[derive(Drop)]
pub struct DnsExchange<R: Draws + Drop> {
    line: Arc<Line, Global>,
    /// Locked inside a turn only.
    draws: Arc<Mutex<RecordedDraws<R>>, Global>,
}

/// Contracts see which exchange it is.
impl<R: Draws + Drop> Model for DnsExchange<R> {
    ghost use Rattle.std.specs.Prelude.{◌≡◌};
    ghost use Rattle.std.specs.Arc.{arc_value};
    ghost use Rattle.atomic_table.specs.Seated.{TableId};
    ghost use Rattle.crossbeam_queue.specs.Passes.{ruled_capacity};

    ghost Value = { TableId };

    ghost view = { λ e. (arc_value e.line).table.shared.table_id };

    ghost invariant = { λ e. ruled_capacity (arc_value e.line) ≡ 1 };
}

impl<R: Draws + Drop> fmt::Debug for DnsExchange<R> {
    fn fmt<W: fmt::Write>(&self, f: &mut fmt::Formatter<W>) -> fmt::Result {
        f.write_str("DnsExchange")
    }
}

impl<R: Draws + Drop> DnsExchange<R> {
    /// An exchange over a multiplexer, and the first token of it. The multiplexer has accepted no send, nothing waits to be sent,
    /// and it isn't shut down. The only error is that memory ran out.
    pub fn from_stream<W: Wait>(
        rt: &W,
        alloc: Global,
        mux: DnsMultiplexer<R>,
    ) -> Result<(DnsExchange<R>, CallerToken), NetError>
        requires requests { (machine_of mux).state.requests ≡ [] }
        requires outbound { (machine_of mux).state.outbound ≡ [] }
        requires open { (machine_of mux).is_shutdown ≡ false }
        ensures line { IfOk result (λ made. made.1.line ≡ made.0) }
        ensures first { IfOk result (λ made. made.1.known ≡ first_known (machine_of mux).settings) }
        ensures known { IfOk result (λ made. IsKnown made.1.known) }
        ensures err { IfErr result (λ error. error ≡ NetError.NoMemory) }
    {
        let (core, draws) = mux.into_parts();
        let core = JournaledCore::new(alloc, core)?;
        let (line, mut pass) = Line::ruled(alloc, 1)?;
        give_turn(rt, &line, &mut pass, core);
        let line = Arc::new(alloc, line)?;
        let draws = Arc::new(alloc, Mutex::new(RecordedDraws::new(alloc, draws)))?;
        Ok((DnsExchange { line, draws }, CallerToken { pass }))
    }

    /// Another holder of the same exchange.
    pub fn share(&self) -> Result<DnsExchange<R>, NoMemory>
        ensures { IfOk result (λ other. other ≡ self.now) }
    {
        let line = Arc::try_clone(&self.line)?;
        let draws = Arc::try_clone(&self.draws)?;
        Ok(DnsExchange { line, draws })
    }

    /// A token and a new one, with which as much was seen and no call was made. It takes no memory, so the token never comes back
    /// as an error.
    pub fn split(&self, mut token: CallerToken) -> Result<(CallerToken, CallerToken), CallerToken>
        requires { token.line ≡ self.now }
        ensures always { IsOk result }
        ensures same { IfOk result (λ both. both.0 ≡ token) }
        ensures new { IfOk result (λ both. both.1 ≡ record token { known = newcomer token.known }) }
        ensures known { IfOk result (λ both. IsKnown both.1.known) }
    {
        let pass = self.line.another::<Splitting>(&mut token.pass);
        Ok((token, CallerToken { pass }))
    }

    /// One token for two: with it the longer of both journals was seen, which begins with the other, and the calls of both were
    /// made.
    pub fn join(&self, a: CallerToken, b: CallerToken) -> CallerToken
        requires a { a.line ≡ self.now }
        requires b { b.line ≡ self.now }
        ensures joined { result.known ≡ joined a.known b.known }
        ensures a { Begins result.known.journal a.known.journal }
        ensures b { Begins result.known.journal b.known.journal }
        ensures known { IsKnown result.known }
        ensures line { result.line ≡ self.now }
    {
        let CallerToken { mut pass } = a;
        let CallerToken { pass: other } = b;
        self.line.absorb::<Joining>(&mut pass, other);
        self.line.learn_as::<Joining>(&mut pass);
        CallerToken { pass }
    }

    /// Sends a request at a time, in milliseconds. What the multiplexer refuses is an entry too, and `Net` with its error comes
    /// exactly then; after a close that is `NoConnections`. `HistoryFull` comes before all else, exactly where there is no room for
    /// the entry and, before a close, for that of its pop; it draws no id. Where memory runs out, ids that were drawn stay drawn.
    pub fn send<W: Wait>(
        &self,
        rt: &W,
        alloc: Global,
        token: &mut CallerToken,
        request: &DnsRequest,
        now_ms: u64,
    ) -> Result<RequestId, ExchangeError>
        requires { token.old.line ≡ self.now }
        ensures ok { IfOk result (λ id. IsTurn (λ old new. IsSent any_ids old (request_bytes request.now) now_ms (Ok id.0) new)
            token.old.known token.new.known) }
        ensures err { IfErr result (λ e. IsUnbegun token.old.known token.new.known e
            ⊎ IsTurn (λ old new. IsSendRefused any_ids old (request_bytes request.now) now_ms new e)
            token.old.known token.new.known) }
        ensures known { IsKnown token.new.known }
        ensures line { token.new.line ≡ token.old.line }
    {
        let pass = &mut token.pass;
        let request = encoded_request(request)?;
        let mut core = take_turn(rt, &self.line, pass);
        let sent = core.send(alloc, &mut *self.draws.lock(rt), request, now_ms);
        give_turn(rt, &self.line, pass, core);
        sent
    }

    /// Hands bytes that came to the live request that has their id. `HistoryFull` comes exactly where there is no room for the
    /// entry or for its bytes.
    pub fn arrive<W: Wait>(
        &self,
        rt: &W,
        alloc: Global,
        token: &mut CallerToken,
        bytes: &[u8],
    ) -> Result<Arrival, ExchangeError>
        requires { token.old.line ≡ self.now }
        ensures ok { IfOk result (λ a. IsTurn (λ old new. IsAdded (arrival_fits bytes.now old) old (Arrive bytes.now a) new)
            token.old.known token.new.known) }
        ensures err { IfErr result (λ e. IsUnbegun token.old.known token.new.known e
            ⊎ IsTurn (λ old new. IsRefusal (arrival_fits bytes.now old) e old new) token.old.known token.new.known) }
        ensures known { IsKnown token.new.known }
        ensures line { token.new.line ≡ token.old.line }
    {
        let pass = &mut token.pass;
        let bytes = Octets::from_slice(alloc, bytes)?;
        let mut core = take_turn(rt, &self.line, pass);
        let arrived = core.arrive(alloc, bytes);
        give_turn(rt, &self.line, pass, core);
        Ok(arrived?)
    }

    /// Takes the first item that waits for a request: the response, or the fault that ended the connection. `HistoryFull` comes
    /// exactly where there is no room for the entry.
    pub fn take<W: Wait>(
        &self,
        rt: &W,
        alloc: Global,
        token: &mut CallerToken,
        id: RequestId,
    ) -> Result<Taken, ExchangeError>
        requires { token.old.line ≡ self.now }
        ensures ok { IfOk result (λ taken. IsTurn (λ old new. IsTaken old id.0 (taken_of taken) new)
            token.old.known token.new.known) }
        ensures err { IfErr result (λ e. IsTurn (λ old new. IsRefusal (call_fits old) e old new)
            token.old.known token.new.known) }
        ensures known { IsKnown token.new.known }
        ensures line { token.new.line ≡ token.old.line }
    {
        let mut core = take_turn(rt, &self.line, &mut token.pass);
        let taken = core.take(alloc, id);
        give_turn(rt, &self.line, &mut token.pass, core);
        Ok(taken?)
    }

    /// Ends a request and drops what waits for it. `HistoryFull` comes exactly where there is no room for the entry.
    pub fn cancel<W: Wait>(
        &self,
        rt: &W,
        alloc: Global,
        token: &mut CallerToken,
        id: RequestId,
    ) -> Result<(), ExchangeError>
        requires { token.old.line ≡ self.now }
        ensures ok { OnOk result (IsTurn (λ old new. IsAdded (call_fits old) old (Cancel id.0) new)
            token.old.known token.new.known) }
        ensures err { IfErr result (λ e. IsTurn (λ old new. IsRefusal (call_fits old) e old new)
            token.old.known token.new.known) }
        ensures known { IsKnown token.new.known }
        ensures line { token.new.line ≡ token.old.line }
    {
        let mut core = take_turn(rt, &self.line, &mut token.pass);
        let canceled = core.cancel(alloc, id);
        give_turn(rt, &self.line, &mut token.pass, core);
        Ok(canceled?)
    }

    /// Ends each request that was sent the timeout before a time, in milliseconds, or earlier; what waits for it stays.
    /// `HistoryFull` comes exactly where there is no room for the entry.
    pub fn tick<W: Wait>(
        &self,
        rt: &W,
        alloc: Global,
        token: &mut CallerToken,
        now_ms: u64,
    ) -> Result<(), ExchangeError>
        requires { token.old.line ≡ self.now }
        ensures ok { OnOk result (IsTurn (λ old new. IsAdded (call_fits old) old (Tick now_ms) new)
            token.old.known token.new.known) }
        ensures err { IfErr result (λ e. IsTurn (λ old new. IsRefusal (call_fits old) e old new)
            token.old.known token.new.known) }
        ensures known { IsKnown token.new.known }
        ensures line { token.new.line ≡ token.old.line }
    {
        let mut core = take_turn(rt, &self.line, &mut token.pass);
        let ticked = core.tick(alloc, now_ms);
        give_turn(rt, &self.line, &mut token.pass, core);
        Ok(ticked?)
    }

    /// Ends all requests, each with the fault as its last item where fewer than nine wait. The first close is never refused; of a
    /// later one `HistoryFull` comes exactly where there is no room for the entry.
    pub fn close<W: Wait>(
        &self,
        rt: &W,
        alloc: Global,
        token: &mut CallerToken,
        fault: IoKind,
    ) -> Result<(), ExchangeError>
        requires { token.old.line ≡ self.now }
        ensures ok { OnOk result (IsTurn (λ old new. IsAdded (close_fits old) old (Close fault) new)
            token.old.known token.new.known) }
        ensures err { IfErr result (λ e. IsTurn (λ old new. (was_closed old ≡ true) × IsRefusal (close_fits old) e old new)
            token.old.known token.new.known) }
        ensures known { IsKnown token.new.known }
        ensures line { token.new.line ≡ token.old.line }
    {
        let mut core = take_turn(rt, &self.line, &mut token.pass);
        let closed = core.close(alloc, fault);
        give_turn(rt, &self.line, &mut token.pass, core);
        Ok(closed?)
    }

    /// Takes the next message that is to be sent out of the queue, in the place that was kept for it. None exactly where none
    /// waits, and then it leaves no entry. It takes no memory, and is never refused.
    pub fn pop_outbound<W: Wait>(&self, rt: &W, token: &mut CallerToken) -> Option<SerialMessage>
        requires { token.old.line ≡ self.now }
        ensures popped { IsTurn (λ old new. IsPopped old new result) token.old.known token.new.known }
        ensures known { IsKnown token.new.known }
        ensures line { token.new.line ≡ token.old.line }
    {
        let mut core = take_turn(rt, &self.line, &mut token.pass);
        let message = core.pop_outbound();
        give_turn(rt, &self.line, &mut token.pass, core);
        message
    }
}
