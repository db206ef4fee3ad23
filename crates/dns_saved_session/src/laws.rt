//! The law of sessions that are saved and read again: the contract of a function that does nothing.
ghost use Rattle.std.specs.Prelude.{◌≡◌, IsTrue, Ok};
ghost use Rattle.dns_session.specs.Grammar.{session_of};
ghost use Rattle.dns_saved_session.specs.Saved.{SavedValue};
ghost use Rattle.dns_saved_session.specs.SavedText.{fitting_saved, saved_text, session_saved};

/// A law: what is saved is read back. The text of a lookup is read as the session of exactly its parts, where its names are names, its
/// bytes are bytes, and its numbers have their widths.
pub fn what_is_saved_is_read_back()
    ensures { (s : SavedValue) → IsTrue (fitting_saved s) → session_of (saved_text s) ≡ Ok (session_saved s) }
{}
