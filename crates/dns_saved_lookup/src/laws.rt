//! The law of replies that are saved: the contract of a function that does nothing.
ghost use Rattle.dns_saved_lookup.specs.InTurn.{SavedServes};
ghost use Rattle.dns_saved_session.specs.Saved.{SavedValue};

/// A law: whoever asks the queries of a saved lookup in their order is told each one's own reply again, also where a query comes more
/// than once.
pub fn each_reply_comes_in_its_turn()
    ensures { (s : SavedValue) → SavedServes s }
{}
