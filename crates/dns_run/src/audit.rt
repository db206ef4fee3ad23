//! What bytes come to that are a session with a report behind it.
ghost use Rattle.std.specs.Prelude.{◌≡◌, ◌<◌, ◌^◌, length, IfOk};
ghost use Rattle.dns_audit.specs.ReportGrammar.{audit_of};
ghost use Rattle.dns_audit.specs.AuditText.{audit_text};
ghost use Rattle.dns_session_lookup.specs.Answering.{session_limits};
ghost use Rattle.dns_session_lookup.specs.Soundness.{session_judge};
ghost use Rattle.dns_session_lookup.specs.declared.verification.Verification.TheVariants.{ByList};
ghost use Rattle.dns_run.specs.Tasks.{AuditEnds};

use crate::judging::limits_of;
use dns_audit::{Report, read_audit, write_audit};
use dns_io::status;
use dns_record::NoMemory;
use dns_session::{Session, SessionStop, bad_line_text};
use dns_session_lookup::{listed_verifier, session_anchors};
use dns_trust::Judge;
use std::alloc::Global;

// What is answered of a report, by what a session trusts and accepts.
fn audited(alloc: Global, session: Session, report: &Report) -> Result<Vec<u8>, NoMemory>
    ensures { IfOk result (λ v. v.items ≡ audit_text (session_judge ByList session) (session_limits session) report.now) }
{
    let Session {
        by_turn: _,
        moment,
        depth,
        algorithms,
        anchors,
        accepts,
        query: _,
        replies: _,
    } = session;
    let verifier = listed_verifier(alloc, &algorithms, accepts)?;
    let anchors = session_anchors(alloc, anchors)?;
    let judge = Judge {
        verifier: &verifier,
        anchors: &anchors,
        moment,
    };
    write_audit(alloc, &judge, &limits_of(depth), report)
}

/// The status of an audit of bytes, and what is written of them.
pub(crate) fn audit_ending(alloc: Global, bytes: &[u8]) -> Result<(u8, Vec<u8>), NoMemory>
    requires { length bytes.now < 2 ^ 32 }
    ensures ends { IfOk result (λ x. AuditEnds (audit_of bytes.now) x.0 x.1.items) }
    ensures low { IfOk result (λ x. x.0 < 4) }
{
    match read_audit(alloc, bytes) {
        Ok((session, report)) => {
            let text = audited(alloc, session, &report)?;
            Ok((status::DONE, text))
        }
        Err(SessionStop::BadLine(number)) => {
            let text = bad_line_text(alloc, number)?;
            Ok((status::BAD_INPUT, text))
        }
        Err(SessionStop::NoMemory) => Err(NoMemory),
    }
}
