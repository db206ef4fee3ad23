//! Words of marks and of what is denied, each with a space before it, and the first words of a line.
ghost use Rattle.std.specs.Prelude.{◌≡◌, ◌++◌, ◌∷◌, OnOk, IsTrue};
ghost use Rattle.dns_model.specs.NameText.{printed};
ghost use Rattle.dns_record.specs.Words.{class_word};
ghost use Rattle.dns_text.specs.Lines.{spaced};
ghost use Rattle.dns_report.specs.LineWords.{mark_word, denial_words};
ghost use Rattle.dns_report.specs.Fields.{fitting_name, is_u16};

use crate::marks::mark_word;
use dns_model::{Denial, Proof};
use dns_record::{DNSClass, Name, NoMemory};
use dns_text::{push_class_word, push_name_word, push_text, push_word};

/// Appends the word of a mark.
pub(crate) fn push_mark(into: &mut Vec<u8>, mark: Proof) -> Result<(), NoMemory>
    ensures { OnOk result (into.new.items ≡ into.old.items ++ (32 ∷ mark_word mark)) }
{
    push_word(into, mark_word(mark))
}

/// Appends the words of what is denied.
pub(crate) fn push_denial_words(into: &mut Vec<u8>, denial: Denial) -> Result<(), NoMemory>
    ensures { OnOk result (into.new.items ≡ into.old.items ++ spaced (denial_words denial)) }
{
    match denial {
        Denial::None => push_word(into, b"none"),
        Denial::Absent(mark) => {
            push_word(into, b"absent")?;
            push_mark(into, mark)
        }
        Denial::Expanded(mark) => {
            push_word(into, b"expanded")?;
            push_mark(into, mark)
        }
    }
}

/// Appends the first words of a line that is about an owner.
pub(crate) fn push_front(
    into: &mut Vec<u8>,
    kind: &[u8],
    owner: &Name,
    class: DNSClass,
) -> Result<(), NoMemory>
    ensures ok { OnOk result (into.new.items ≡ into.old.items
        ++ (kind.now ++ (32 ∷ (printed owner.now ++ (32 ∷ class_word class.0))))) }
    ensures owner { OnOk result (IsTrue (fitting_name owner.now)) }
    ensures class { IsTrue (is_u16 class.0) }
{
    push_text(into, kind)?;
    push_name_word(into, owner)?;
    push_class_word(into, class)
}
