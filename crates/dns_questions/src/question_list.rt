//! Questions as they are gathered.
ghost use Rattle.std.specs.Prelude.{◌≡◌, ◌==◌, ◌∷◌, [], false, OnOk};
ghost use Rattle.dns_questions.specs.Gathering.{then_once};

use dns_evidence::{Listed, Verifier};
use dns_record::NoMemory;
use dns_session::AcceptedSignature;
use std::alloc::Global;
use std::marker::Model;

/// Questions, each once, in the order in which they came first.
#[derive(Drop)]
pub(crate) struct QuestionList {
    all: Vec<AcceptedSignature>,
    /// The same, to be found.
    seen: Listed,
}

impl Model for QuestionList {
    ghost use Rattle.std.specs.Prelude.{List, ◌≡◌};
    ghost use Rattle.dns_model.specs.Keys.{AcceptedSignatureValue};

    ghost Value = { List AcceptedSignatureValue };

    ghost view = { λ a. a.all.items };

    ghost invariant = { λ a. a.seen.accepted ≡ a.all.items };
}

impl QuestionList {
    /// No question.
    pub(crate) fn new(alloc: Global) -> QuestionList
        ensures { result ≡ [] }
    {
        QuestionList {
            all: Vec::new(alloc),
            seen: Listed::new(alloc),
        }
    }

    /// One question more, where it isn't among them. Nothing is asked under algorithm 1, which no list supports.
    #[tactic(auto, unfolding(crate::specs::Gathering::then_once, crate::specs::Questions::each_once))]
    pub(crate) fn add(&mut self, question: AcceptedSignature) -> Result<(), NoMemory>
        requires { (question.algorithm == 1) ≡ false }
        ensures { OnOk result (self.new ≡ then_once self.old (question ∷ [])) }
    {
        let known = self.seen.accepts(
            question.algorithm,
            question.key.as_slice(),
            question.bytes.as_slice(),
            question.signature.as_slice(),
        );
        if known {
            return Ok(());
        }
        // Room first, so that both lists gain the question, or none.
        self.all.reserve(1)?;
        self.seen.accept(
            question.algorithm,
            question.key.as_slice(),
            question.bytes.as_slice(),
            question.signature.as_slice(),
        )?;
        self.all.push_reserved(question);
        Ok(())
    }

    /// The questions.
    pub(crate) fn into_all(self) -> Vec<AcceptedSignature>
        ensures { result.items ≡ self }
    {
        self.all
    }
}
