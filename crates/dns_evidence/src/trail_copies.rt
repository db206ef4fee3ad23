//! Copies of a trail in memory of their own.
ghost use Rattle.std.specs.Prelude.{◌≡◌, IfOk};
ghost use Rattle.dns_evidence.specs.Trail.{ending_value, heard_value};

use crate::{Asked, Ending, JudgedSet, Reply, Told, Trail};
use dns_record::{NoMemory, clone_records};

// A copy of a step's sets.
fn clone_sets(sets: &Vec<JudgedSet>) -> Result<Vec<JudgedSet>, NoMemory>
    ensures { IfOk result (λ v. v.items ≡ sets.now.items) }
{
    let mut all = Vec::with_capacity(*sets.allocator(), sets.len())?;
    for set in sets {
        all.push(set.try_clone()?)?;
    }
    Ok(all)
}

// A copy of a trail's steps.
fn clone_steps(steps: &Vec<Asked>) -> Result<Vec<Asked>, NoMemory>
    ensures { IfOk result (λ v. v.items ≡ steps.now.items) }
{
    let mut all = Vec::with_capacity(*steps.allocator(), steps.len())?;
    for step in steps {
        all.push(step.try_clone()?)?;
    }
    Ok(all)
}

impl Trail {
    /// An equal value in memory of its own.
    pub fn try_clone(&self) -> Result<Trail, NoMemory>
        ensures { IfOk result (λ t. t ≡ self.now) }
    {
        let steps = clone_steps(&self.steps)?;
        Ok(Trail { steps })
    }
}

impl Asked {
    /// An equal value in memory of its own.
    pub fn try_clone(&self) -> Result<Asked, NoMemory>
        ensures { IfOk result (λ a. a ≡ self.now) }
    {
        let excuse = self.excuse.clone()?;
        let sets = clone_sets(&self.sets)?;
        let query = self.query.try_clone()?;
        let ending = self.ending.try_clone()?;
        let reply = self.reply.try_clone()?;
        Ok(Asked {
            depth: self.depth,
            judged: self.judged,
            query,
            reply,
            sets,
            ending,
            excuse,
        })
    }
}

impl Reply {
    /// An equal reply in memory of its own.
    pub fn try_clone(&self) -> Result<Reply, NoMemory>
        ensures { IfOk result (λ r. heard_value r ≡ heard_value self.now) }
    {
        match self {
            Reply::Told(told) => Ok(Reply::Told(told.try_clone()?)),
            Reply::Fault => Ok(Reply::Fault),
        }
    }
}

impl Told {
    /// An equal value in memory of its own.
    pub fn try_clone(&self) -> Result<Told, NoMemory>
        ensures { IfOk result (λ t. t ≡ self.now) }
    {
        let answers = clone_records(&self.answers)?;
        let authorities = clone_records(&self.authorities)?;
        let additionals = clone_records(&self.additionals)?;
        Ok(Told {
            code: self.code,
            empty: self.empty,
            answers,
            authorities,
            additionals,
        })
    }
}

impl JudgedSet {
    /// An equal value in memory of its own.
    pub fn try_clone(&self) -> Result<JudgedSet, NoMemory>
        ensures { IfOk result (λ s. s ≡ self.now) }
    {
        let asked = self.asked.clone()?;
        let owner = self.owner.try_clone()?;
        Ok(JudgedSet {
            section: self.section,
            owner,
            record_type: self.record_type,
            mark: self.mark,
            origin: self.origin,
            sig: self.sig,
            asked,
        })
    }
}

impl Ending {
    /// An equal ending in memory of its own.
    pub fn try_clone(&self) -> Result<Ending, NoMemory>
        ensures { IfOk result (λ e. ending_value e ≡ ending_value self.now) }
    {
        match self {
            Ending::Answered(denial) => Ok(Ending::Answered(*denial)),
            Ending::Denied(proof) => Ok(Ending::Denied(*proof)),
            Ending::Foreign {
                owner,
                class,
                record_type,
            } => {
                let owner = owner.try_clone()?;
                Ok(Ending::Foreign {
                    owner,
                    class: *class,
                    record_type: *record_type,
                })
            }
            Ending::Failed => Ok(Ending::Failed),
            Ending::Seen => Ok(Ending::Seen),
        }
    }
}
