//! The laws of reports that are written and read again. Each is the contract of a function that does nothing.
ghost use Rattle.std.specs.Prelude.{◌≡◌, ◌++◌, ℕ, List, IsTrue, Ok};
ghost use Rattle.dns_report.specs.View.{View, fitting_view};
ghost use Rattle.dns_report.specs.Report.{view_text};
ghost use Rattle.dns_session.specs.SessionValue.{SessionValue};
ghost use Rattle.dns_session.specs.Grammar.{session_of};
ghost use Rattle.dns_audit.specs.ReportGrammar.{report_of, audit_of};
ghost use Rattle.dns_audit.specs.ReportValue.{ReportValue};
ghost use Rattle.dns_audit.specs.Written.{report_shown, short_view};
ghost use Rattle.dns_audit.specs.Respelled.{view_read, Respelled};

/// A law: what is written is read back. The report of a view is read as all that the view shows, where the view's fields have
/// their widths, no rdata has more than 65,535 bytes, and no chain and no trail more than 4,294,967,295 parts.
pub fn what_is_written_is_read_back()
    ensures { (v : View) → IsTrue (fitting_view v) → IsTrue (short_view v)
        → report_of (view_text v) ≡ Ok (report_shown v) }
{}

/// A law: an audit reads a session and the report behind it as what they are alone. Where bytes are a session, they and the report
/// of a view behind them are read as that session and all that the view shows.
pub fn a_report_is_read_behind_its_session()
    ensures { (bytes : List ℕ) → (s : SessionValue) → (v : View) → session_of bytes ≡ Ok s
        → IsTrue (fitting_view v) → IsTrue (short_view v)
        → audit_of (bytes ++ view_text v) ≡ Ok (s, report_shown v) }
{}

/// A law: what is read is what would be written. A text that is read as a report is, line by line and word by word, the report of what
/// was read, but that a name may be spelled in another way; and what was read fits into a report.
pub fn what_is_read_is_what_would_be_written()
    ensures written { (text : List ℕ) → (r : ReportValue) → report_of text ≡ Ok r → Respelled text (view_text (view_read r)) }
    ensures fits { (text : List ℕ) → (r : ReportValue) → report_of text ≡ Ok r → IsTrue (fitting_view (view_read r)) }
    ensures short { (text : List ℕ) → (r : ReportValue) → report_of text ≡ Ok r → IsTrue (short_view (view_read r)) }
{}
