//! Names from bytes that need not be a text (RFC 1035, 5.1).
ghost use Rattle.std.specs.Prelude.{◌≡◌};
ghost use Rattle.dns_model.specs.Gives.{Gives};
ghost use Rattle.dns_model.specs.NameText.{read_name};
ghost use Rattle.dns_model.specs.declared.name_error.NameError.TheVariants.{NoMemory as no_memory};

use crate::text_reading::{name_of_run, read_text};
use crate::{Name, NameRef};
use dns_model::NameError;
use std::alloc::Global;

impl Name {
    /// The name that bytes give, read as `from_ascii` reads a text: a byte outside 0x21 to 0x7e that isn't escaped is
    /// `BadEscape`.
    pub fn from_bytes(alloc: Global, text: &[u8]) -> Result<Name, NameError>
        ensures { Gives (λ n. n) no_memory result (read_name text.now) }
    {
        let (wire, _) = read_text(alloc, text)?;
        name_of_run(wire, &NameRef::root())
    }
}
