//! Names from texts and from labels, and as text (RFC 1035, 5.1).
ghost use Rattle.std.specs.Prelude.{◌≡◌, [], Ok, IfOk, option_map};
ghost use Rattle.dns_model.specs.Gives.{Gives};
ghost use Rattle.dns_model.specs.NameText.{name_from, name_with, printed, read_below, read_name};
ghost use Rattle.dns_model.specs.declared.name_error.NameError.TheVariants.{NoMemory as no_memory};

use crate::text_reading::{name_of_run, push_label, read_text};
use crate::{Name, NameRef, NoMemory, Octets, Text};
use dns_model::NameError;
use std::alloc::Global;

impl Name {
    /// The name that a text gives, read from left to right, with or without a last dot; `.` is the root.
    ///
    /// The first fault decides: `BadEscape` for an escape that is broken, or a byte that would need one; at the end of each
    /// label `EmptyLabel` if it has no byte, `LongLabel` if it has more than 63. A text with none of these faults gives
    /// `LongName` if its wire form has more than 255 bytes.
    pub fn from_ascii(alloc: Global, text: &str) -> Result<Name, NameError>
        ensures { Gives (λ n. n) no_memory result (read_name text.now) }
    {
        let (wire, _) = read_text(alloc, text.as_bytes())?;
        name_of_run(wire, &NameRef::root())
    }

    /// The name that a text gives, as `from_ascii` reads it, below an origin where there is one and the text has no last
    /// dot. `LongName` speaks of the joined name.
    pub fn parse(alloc: Global, text: &str, origin: Option<&Name>) -> Result<Name, NameError>
        ensures { Gives (λ n. n) no_memory result (read_below (option_map (λ n. n.now) origin.entry) text.now) }
    {
        let (wire, dotted) = read_text(alloc, text.as_bytes())?;
        match origin {
            Some(origin) => {
                if dotted {
                    name_of_run(wire, &NameRef::root())
                } else {
                    name_of_run(wire, &origin.borrowed())
                }
            }
            None => name_of_run(wire, &NameRef::root()),
        }
    }

    /// The name of these labels, the leaf first. They are checked one after another, as those of a text are; a name that
    /// is too long is `LongName` only where each label has passed.
    pub fn from_labels(alloc: Global, labels: &[Octets]) -> Result<Name, NameError>
        ensures { Gives (λ n. n) no_memory result (name_from labels.now) }
    {
        let mut wire = Vec::new(alloc);
        for label in labels {
            push_label(&mut wire, label.as_slice())?;
        }
        name_of_run(wire, &NameRef::root())
    }

    /// The name with one more label in front, which is checked as by `from_labels`.
    pub fn prepend_label(&self, label: &[u8]) -> Result<Name, NameError>
        ensures { Gives (λ n. n) no_memory result (name_with label.now self.now) }
    {
        let mut wire = Vec::new(self.allocator());
        push_label(&mut wire, label)?;
        name_of_run(wire, &self.borrowed())
    }

    /// The printed form: every label with a dot after it, and a dot for the root. `.` and `\` stand after a backslash, a
    /// byte outside 0x21 to 0x7e is a backslash with three decimal digits. `from_ascii` reads it as the same labels.
    pub fn to_ascii(&self) -> Result<Text, NoMemory>
        ensures value { IfOk result (λ t. t ≡ printed self.now) }
        ensures back { IfOk result (λ t. read_name t ≡ Ok self.now) }
    {
        self.borrowed().to_ascii(self.allocator())
    }
}

impl<'a> NameRef<'a> {
    /// The root.
    pub fn root() -> NameRef<'a>
        ensures { result ≡ [] }
    {
        NameRef::of_wire(b"\0".as_slice())
    }

    /// The printed form, as `Name::to_ascii` gives it.
    pub fn to_ascii(&self, alloc: Global) -> Result<Text, NoMemory>
        ensures value { IfOk result (λ t. t ≡ printed self.now) }
        ensures back { IfOk result (λ t. read_name t ≡ Ok self.now) }
    {
        let name = self.copy();
        let text = name.to_string(alloc)?;
        Ok(Text::from_string(text))
    }
}
