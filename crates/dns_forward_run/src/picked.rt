//! The list of accepted signatures that all seats share.
ghost use Rattle.std.specs.Prelude.{◌≡◌, IfOk};
ghost use Rattle.std.specs.Arc.{arc_value};

use dns_evidence::{Listed, Verifier};
use dns_record::NoMemory;
use std::alloc::Global;
use std::marker::{Brand, PhantomData};
use std::sync::Arc;

/// Which list of signatures is meant. Each call that serves seats picks it.
pub(crate) trait Picked {
    ghost use Rattle.dns_evidence.specs.Listing.{ListedValue};

    ghost listed: { ListedValue };
}

impl Picked for Brand {
    ghost use Rattle.std.specs.Prelude.{[]};

    ghost listed = { record { algorithms = []; accepted = [] } };
}

/// A holder of the list that the call picked. Two of these are the same at once: no list is walked for that.
#[derive(Drop)]
pub(crate) struct PickedList<C: Picked> {
    list: Arc<Listed, Global>,
    of: PhantomData<C>,
    ghost is: { arc_value list ≡ C.listed },
}

impl<C: Picked> PickedList<C> {
    /// A holder of the list, which is the one that was picked.
    pub(crate) fn of(list: &Arc<Listed, Global>) -> Result<PickedList<C>, NoMemory>
        requires { arc_value list.now ≡ C.listed }
    {
        let list = Arc::try_clone(list)?;
        Ok(PickedList {
            list,
            of: PhantomData,
        })
    }
}

impl<C: Picked> Verifier for PickedList<C> {
    ghost use Rattle.dns_evidence.specs.Listing.{answers_of};

    ghost answers = { λ _. answers_of C.listed };

    fn supports(&self, algorithm: u8) -> bool {
        self.list.supports(algorithm)
    }

    fn accepts(&self, algorithm: u8, key: &[u8], bytes: &[u8], signature: &[u8]) -> bool {
        self.list.accepts(algorithm, key, bytes, signature)
    }

    /// Always: both have the list that was picked.
    fn same(&self, _other: &PickedList<C>) -> bool {
        true
    }
}
