//! `TransferState`, a transfer by the answers of its messages.
ghost use Rattle.std.specs.Prelude.{◌≡◌};
ghost use Rattle.dns_transfer.specs.Transfers.{answer_after, is_ended, transfer_after};
ghost use Rattle.dns_transfer.specs.declared.stage.Stage.TheVariants.{Nothing};

use crate::stage::Stage;
use dns_handle::Notice;
use dns_record::Record;
use std::marker::Model;

/// A transfer of a zone, or of its changes, by the answers of its messages in their order (RFC 5936, 2.2; RFC 1995, 4).
#[derive(Drop)]
pub struct TransferState {
    is_incremental: bool,
    stage: Stage,
}

impl Model for TransferState {
    ghost use Rattle.dns_transfer.specs.Transfers.{Transfer};

    ghost Value = { Transfer };

    ghost view = { λ t. record { is_incremental = t.is_incremental; stage = t.stage } };
}

impl TransferState {
    /// A transfer of which nothing has come. `incremental` says that changes since a known SOA were asked for; all of the zone may
    /// come in their place (RFC 1995, 4).
    pub fn new(incremental: bool) -> TransferState
        ensures { result ≡ record { is_incremental = incremental; stage = Nothing } }
    {
        TransferState {
            is_incremental: incremental,
            stage: Stage::Nothing,
        }
    }

    /// Takes the answers of the next message. An empty answer section changes nothing.
    ///
    /// `TransferHasTrailingRecords` comes where records stand behind the last SOA; `TransferIsIncremental` where changes come and
    /// all of the zone was asked for. Either ends the transfer, and so does a first record that isn't an SOA. After the end
    /// nothing is looked at.
    pub fn process(&mut self, answers: &[Record]) -> Result<(), Notice>
        ensures left { self.new ≡ transfer_after self.old answers.now }
        ensures answer { result ≡ answer_after self.old answers.now }
    {
        match self.stage.after(self.is_incremental, answers) {
            Ok(stage) => {
                self.stage = stage;
                Ok(())
            }
            Err(notice) => {
                self.stage = Stage::Ended;
                Err(notice)
            }
        }
    }

    /// Whether the transfer has ended, so that no other message belongs to it. Where `process` answered no error, and the first
    /// record was an SOA, all of it has come.
    ///
    /// Where changes are asked for and there are none, a server sends its SOA alone (RFC 1995, 2): that transfer doesn't end, since
    /// all of a zone may begin alike.
    pub fn is_ended(&self) -> bool
        ensures { result ≡ is_ended self.now }
    {
        matches!(self.stage, Stage::Ended)
    }
}
