//! Laws of the replies (RFC 1035, 4.1; RFC 4035, 3.2). Each is the contract of a function that does nothing.
ghost use Rattle.std.specs.Prelude.{◌≡◌, ℕ, true, false, List, IfSome};
ghost use Rattle.dns_model.specs.Records.{MessageValue};
ghost use Rattle.dns_handle.specs.declared.protocol.Protocol.{Protocol};
ghost use Rattle.dns_forwarded.specs.declared.outcome.Outcome.{Outcome};
ghost use Rattle.dns_forwarded.specs.Replies.{forwarded, reply_to};
ghost use Rattle.dns_forwarded.specs.Laws.{HasNoBogus, has_ad, SaysAuthentic};
ghost use Rattle.dns_forwarded.specs.ReadingBack.{IsOfRead, IsReadBack};

/// A law: a client that doesn't check for itself is told no Bogus record, in any section (RFC 4035, 3.2.2 and 5.5).
pub fn nothing_bogus_is_told()
    ensures { (request : MessageValue) (protocol : Protocol) (outcome : Outcome) → request.checking_disabled ≡ false
        → HasNoBogus (reply_to request protocol outcome) }
{}

/// A law: AD is set only for a client that asked for it, and where all that answers or denies is Secure (RFC 4035, 3.2.3; RFC 6840, 5.7
/// and 5.8).
pub fn authentic_replies_are_secure()
    ensures { (request : List ℕ) (protocol : Protocol) (outcome : Outcome)
        → IfSome (forwarded request protocol outcome) (λ bytes. has_ad bytes ≡ true → SaysAuthentic request outcome) }
{}

/// A law: a reply that tells a response which was read from bytes is itself read, as a response with the request's id (RFC 1035, 4.1).
pub fn replies_are_read_back()
    ensures { (request : List ℕ) (protocol : Protocol) (outcome : Outcome) → IsOfRead outcome
        → IfSome (forwarded request protocol outcome) (IsReadBack request) }
{}
