//! The words that the program takes.

use dns_text::decimal_in;

/// What is done.
#[derive(Clone, Copy)]
pub(crate) enum Work {
    /// Random calls are played on a store and on a plain list.
    Random,
    /// Questions are asked of a store that denies them.
    Hits,
    /// Questions are asked that it doesn't deny.
    Misses,
    /// Responses of three records are made, and learned by a full store.
    Learn,
    /// They are made alone.
    Made,
}

/// A kind of work, and its name.
struct Kind {
    name: &'static [u8],
    work: Work,
}

#[rattlefmt::skip]
const KINDS: &[Kind] = &[
    Kind { name: b"random", work: Work::Random },
    Kind { name: b"hits", work: Work::Hits },
    Kind { name: b"misses", work: Work::Misses },
    Kind { name: b"learn", work: Work::Learn },
    Kind { name: b"made", work: Work::Made },
];

/// What the program is asked for: work, and its three numbers.
#[derive(Clone, Copy)]
pub(crate) struct Form {
    pub(crate) work: Work,
    pub(crate) first: u32,
    pub(crate) second: u32,
    pub(crate) third: u32,
}

// The works that a form can name.
fn kinds() -> &'static [Kind] {
    KINDS
}

// The work of a name.
fn work_of(name: &[u8]) -> Option<Work> {
    for kind in kinds() {
        if *kind.name == *name {
            return Some(kind.work);
        }
    }
    None
}

// The number that a word is.
fn number_of(word: &[u8]) -> Option<u32> {
    Some(decimal_in(word, 4_294_967_295)? as u32)
}

/// What words ask for.
pub(crate) fn form_of(words: &[Vec<u8>]) -> Option<Form> {
    match words {
        [name, first, second, third] => Some(Form {
            work: work_of(name)?,
            first: number_of(first)?,
            second: number_of(second)?,
            third: number_of(third)?,
        }),
        _ => None,
    }
}
