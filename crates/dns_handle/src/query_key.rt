//! Queries as keys of ordered maps.
ghost use Rattle.std.specs.Prelude.{◌≡◌, IfOk};
ghost use Rattle.dns_model.specs.Names.{folded, wire};
ghost use Rattle.dns_handle.specs.QueryKeys.{key_of};
ghost use Rattle.dns_handle.specs.AnswerIndex.{asked};

use dns_record::{DNSClass, NameRef, NoMemory, Octets, Query, RecordType};
use std::alloc::Global;

/// A query as a key of an ordered map. The name's bytes are folded once, so that two keys are compared in one pass; and no
/// choice of names makes a search longer, as it would where a hash can be foreseen.
#[derive(PartialEq, Eq, PartialOrd, Ord)]
pub struct QueryKey {
    /// The wire form, with A to Z as a to z.
    name: Octets,
    record_type: u16,
    class: u16,
}

// By hand, so that a function that drops a key calls this.
impl Drop for QueryKey {
    fn drop(self) {
        let QueryKey {
            name: _,
            record_type: _,
            class: _,
        } = self;
    }
}

/// A name's wire form with A to Z as a to z, by which equal names are equal bytes.
pub(crate) fn folded_of(alloc: Global, name: &NameRef) -> Result<Octets, NoMemory>
    ensures { IfOk result (λ k. k ≡ wire (folded name.now)) }
{
    name.folded(alloc)
}

impl QueryKey {
    /// The key of a query.
    pub fn of(alloc: Global, query: &Query) -> Result<QueryKey, NoMemory>
        ensures { IfOk result (λ k. k ≡ key_of query.now) }
    {
        let name = folded_of(alloc, &query.name.borrowed())?;
        Ok(QueryKey {
            name,
            record_type: query.query_type.0,
            class: query.query_class.0,
        })
    }

    /// The key of a name and a type in any class.
    pub(crate) fn at(
        alloc: Global,
        owner: &NameRef,
        record_type: RecordType,
    ) -> Result<QueryKey, NoMemory>
        ensures { IfOk result (λ k. k ≡ key_of (asked owner.now record_type.0)) }
    {
        let name = folded_of(alloc, owner)?;
        Ok(QueryKey {
            name,
            record_type: record_type.0,
            class: DNSClass::ANY.0,
        })
    }
}
