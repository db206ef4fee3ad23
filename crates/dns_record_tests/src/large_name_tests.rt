//! The longest name, through each call that copies, reads or makes one; and bytes and texts that are longer than 16
//! bits count.
use crate::name_tests::{folded_wire, hash_of, is_name, is_text};
use crate::name_text_tests::{labelled, longest};
use crate::rdata_signed_tests::are_octets;
use crate::rows::check_held;
use dns_record::{Name, NoMemory, Octets, Text};
use std::alloc::Global;
use std::process::Abort;

/// What is read of its text, below the name above it or of its wire form, what is made of the name above it, and a copy of it
/// is it; what is printed of it is its text, and its folded wire form is its wire form.
fn is_long(alloc: Global, long: &Name, above: &Name) -> bool {
    let wire = long.wire();
    is_name(Name::from_bytes(alloc, longest().as_bytes()).ok(), wire)
        && is_name(Name::parse(alloc, "a", Some(above)).ok(), wire)
        && is_name(Name::from_wire(alloc, wire).unwrap_or(None), wire)
        && is_name(above.prepend_label(b"a").ok(), wire)
        && is_name(labelled(alloc, b"a", 126, b"a").ok(), wire)
        && is_name(long.trim_to(126).ok(), above.wire())
        && is_name(long.try_clone().ok(), wire)
        && is_name(long.borrowed().to_name(alloc).ok(), wire)
        && is_text(long.to_ascii(), longest())
        && is_text(long.borrowed().to_ascii(alloc), longest())
        && are_octets(folded_wire(alloc, long), wire)
}

#[test]
fn the_longest_name_is_read_made_and_printed(rt: HostRuntime) {
    let long = Name::from_ascii(rt.alloc(), longest()).expect(&rt, "a name");
    let above = long.base_name().expect(&rt, "memory");
    let held = is_long(rt.alloc(), &long, &above);
    check_held(&rt, "127 labels", held);
}

const MANY: usize = 70_000;

/// So many bytes, as a text of characters of two.
fn long_text(alloc: Global) -> Result<Text, NoMemory> {
    let mut text = String::new(alloc);
    for _ in 0..MANY / 2 {
        text.push_str("\u{e9}")?;
    }
    Ok(Text::from_string(text))
}

/// A copy of the octets of these bytes is equal to them, also in order and for a hasher.
fn are_copied(rt: &impl Abort, alloc: Global, bytes: &[u8]) -> bool {
    let octets = Octets::from_slice(alloc, bytes).expect(rt, "memory");
    let copy = octets.try_clone().expect(rt, "memory");
    octets.len() == MANY && copy == octets && copy >= octets && hash_of(&copy) == hash_of(&octets)
}

#[test]
fn long_bytes_and_texts_are_copied(rt: HostRuntime) {
    let text = long_text(rt.alloc()).expect(&rt, "memory");
    let held = text.len() == MANY
        && is_text(text.try_clone(), text.as_str())
        && is_text(Text::from_str(rt.alloc(), text.as_str()), text.as_str())
        && are_copied(&rt, rt.alloc(), text.as_bytes());
    check_held(&rt, "70,000 bytes", held);
}
