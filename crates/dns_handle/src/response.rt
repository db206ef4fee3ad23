//! Responses: a message, with what was found of it.
ghost use Rattle.std.specs.Prelude.{◌≡◌, IfOk};

use dns_evidence::{Chain, Trail};
use dns_message::Message;
use dns_model::Denial;
use dns_record::NoMemory;
use std::marker::Model;

/// A response, with the chains of its Secure sets, what it denies and how it came about.
#[derive(Drop)]
pub struct DnsResponse {
    /// The message, each record with its mark.
    pub message: Message,
    /// One for each Secure set, in the order of the sets.
    pub chains: Vec<Chain>,
    /// What the response denies.
    pub denial: Denial,
    /// How the answer came about.
    pub trail: Trail,
}

impl Model for DnsResponse {
    ghost use Rattle.dns_model.specs.SoundAnswers.{ResponseValue};

    ghost Value = { ResponseValue };

    ghost view = { λ r. record { message = r.message; chains = r.chains.items; denial = r.denial; trail = r.trail } };
}

// A copy of a response's chains.
fn clone_chains(chains: &Vec<Chain>) -> Result<Vec<Chain>, NoMemory>
    ensures { IfOk result (λ v. v.items ≡ chains.now.items) }
{
    let mut all = Vec::new(*chains.allocator());
    for chain in chains {
        let next = chain.try_clone()?;
        all.push(next)?;
    }
    Ok(all)
}

impl DnsResponse {
    /// An equal value in memory of its own.
    pub fn try_clone(&self) -> Result<DnsResponse, NoMemory>
        ensures { IfOk result (λ r. r ≡ self.now) }
    {
        let message = self.message.try_clone()?;
        let chains = clone_chains(&self.chains)?;
        let trail = self.trail.try_clone()?;
        Ok(DnsResponse {
            message,
            chains,
            denial: self.denial,
            trail,
        })
    }
}
