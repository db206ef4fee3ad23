//! Laws of a multiplexer's histories (RFC 1035, 4.1.1; RFC 7766, 6.2.1). Each is the contract of a function that does nothing.
ghost use Rattle.dns_multiplexer.specs.Laws.{CallsAreEvents, StatesAreTold, RepliesAreTold};

/// A law: a call that is answered as the state after a history says is one event more of that history, and leaves the state
/// after it. So the calls of a multiplexer, from its first one on, are a history that can be, also where the number of live
/// requests was set anew between two of them.
pub fn calls_are_events()
    ensures { CallsAreEvents }
{}

/// A law: after each history that can be, the machine's state is what the history says. A request is live exactly where it
/// was sent and nothing has ended it, what waits for it is what was queued and isn't taken, what is to be sent is what was
/// put out and isn't popped, and no two live requests have one id.
pub fn states_are_what_histories_say()
    ensures { StatesAreTold }
{}

/// A law, by the history before each reply. A message that `arrive` took waits for the request that is live under its id, where
/// fewer than nine items wait; it is full where nine do, and a stranger where no request is live under the id. Each `take` gives
/// the first item that waits, and where none does, whether the request is live. Each message that `pop_outbound` gives is the
/// first that is to be sent.
pub fn replies_are_what_histories_say()
    ensures { RepliesAreTold }
{}
