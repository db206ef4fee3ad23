//! Questions (RFC 1035, 4.1.2).
ghost use Rattle.std.specs.Prelude.{◌≡◌, IfOk};

use crate::{DNSClass, Name, NoMemory, RecordType};
use std::marker::Model;

/// A question (RFC 1035, 4.1.2). Equality, order and hash fold the name.
#[derive(PartialEq, Eq, PartialOrd, Ord, Hash)]
pub struct Query {
    /// The name that is asked for.
    pub name: Name,
    /// The type that is asked for.
    pub query_type: RecordType,
    /// The class that is asked for.
    pub query_class: DNSClass,
}

impl Model for Query {
    ghost use Rattle.dns_model.specs.Records.{Question};

    ghost Value = { Question };

    ghost view = { λ q. record { owner = q.name; rtype = q.query_type.0; class = q.query_class.0 } };

    ghost inverse = { λ q. record {
      name = q.owner;
      query_type = record { 0 = q.rtype };
      query_class = record { 0 = q.class };
    } };
}

// By hand, so that a function that lets a query go calls this.
impl Drop for Query {
    fn drop(self) {
        let Query {
            name: _,
            query_type: _,
            query_class: _,
        } = self;
    }
}

impl Query {
    /// An equal value; long octets are shared.
    pub fn try_clone(&self) -> Result<Query, NoMemory>
        ensures { IfOk result (λ q. q ≡ self.now) }
    {
        let name = self.name.try_clone()?;
        Ok(Query {
            name,
            query_type: self.query_type,
            query_class: self.query_class,
        })
    }
}
