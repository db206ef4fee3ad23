//! What a caller has of a shared exchange.
use crate::turn::View;
use crossbeam_queue::Pass;
use dns_journal::JournaledCore;
use std::fmt;
use std::marker::Model;

/// What a caller of a shared exchange knows of it: the journal as it was seen, and which calls in it are the caller's own. It is made
/// by `DnsExchange::from_stream`, `split` and `join`, each call on the exchange needs one, and it has no bytes.
#[derive(Drop)]
pub struct CallerToken {
    pub(crate) pass: Pass<JournaledCore, View>,
}

impl Model for CallerToken {
    ghost use Rattle.std.specs.Prelude.{◌≡◌, false, []};
    ghost use Rattle.crossbeam_queue.specs.Passes.{view as known};
    ghost use Rattle.dns_shared_exchange.specs.Tokens.{TokenValue, IsKnown};

    ghost Value = { TokenValue };

    ghost view = { λ t. record { line = t.pass.table_id; known = known t.pass } };

    ghost invariant = { λ t. (t.pass.me.1 ≡ []) × ((known t.pass).is_out ≡ false) × IsKnown (known t.pass) };
}

impl fmt::Debug for CallerToken {
    fn fmt<W: fmt::Write>(&self, f: &mut fmt::Formatter<W>) -> fmt::Result {
        f.write_str("CallerToken")
    }
}
