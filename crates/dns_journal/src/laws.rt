//! The law of journals (RFC 1035, 4.1.1; RFC 7766, 6.2.1), the contract of a function that does nothing.
ghost use Rattle.dns_journal.specs.Laws.{JournalsAreHistories};

/// A law: the entries of each journal that can be, less the sends after a close, are a history of the multiplexer, and the state
/// after them is what that history says. So each law of a multiplexer's histories holds of every journal.
pub fn journals_are_histories()
    ensures { JournalsAreHistories }
{}
