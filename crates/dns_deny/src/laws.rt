//! A law of what is written of an answer. It is the contract of a function that does nothing.
ghost use Rattle.dns_deny.specs.DenyLaws.{DenialsHold};

/// A law: in each zone in which the records are true that decide, what is written as denied isn't there (RFC 8198, 4).
pub fn denials_hold()
    ensures { DenialsHold }
{}
