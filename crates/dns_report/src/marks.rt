//! The words of marks and sections.
ghost use Rattle.std.specs.Prelude.{◌≡◌};
ghost use Rattle.dns_report.specs.LineWords.{mark_word, section_word};

use dns_model::{Proof, Section};

/// The word of a mark.
pub(crate) fn mark_word(mark: Proof) -> &'static [u8]
    ensures { result.now ≡ mark_word mark }
{
    match mark {
        Proof::Secure => b"secure",
        Proof::Insecure => b"insecure",
        Proof::Bogus => b"bogus",
        Proof::Indeterminate => b"indeterminate",
    }
}

/// The word of a section.
pub fn section_word(section: Section) -> &'static [u8]
    ensures { result.now ≡ section_word section }
{
    match section {
        Section::Answer => b"answer",
        Section::Authority => b"authority",
        Section::Additional => b"additional",
    }
}
