//! The words that the program takes.

use dns_text::decimal_in;

/// What is done.
#[derive(Clone, Copy)]
pub(crate) enum Work {
    /// Random events are played, and callers share an exchange.
    All,
    /// Requests are sent while so many others are live.
    Sends,
    /// Responses come to so many live requests.
    Arrivals,
    /// Responses are decoded alone.
    Decoded,
    /// Requests go from their send to their end by a multiplexer alone.
    Rounds,
    /// The same through tokens, by so many threads at once.
    SharedRounds,
    /// Time passes, by a token.
    Ticks,
    /// Requests go from their send to their end, and each call is timed.
    Longest,
    /// The same through a token.
    SharedLongest,
    /// A request goes over a socket, and its answer comes.
    Asked,
    /// As many bytes go over a plain socket of std, and come back.
    Plain,
    /// Requests of four threads go over one connection.
    Shared,
    /// Requests of four threads go over a connection each.
    Apart,
}

/// A kind of work: its name, and how many numbers follow.
struct Kind {
    name: &'static [u8],
    numbers: usize,
    work: Work,
}

#[rattlefmt::skip]
const KINDS: &[Kind] = &[
    Kind { name: b"all", numbers: 2, work: Work::All },
    Kind { name: b"sends", numbers: 2, work: Work::Sends },
    Kind { name: b"arrivals", numbers: 2, work: Work::Arrivals },
    Kind { name: b"decoded", numbers: 1, work: Work::Decoded },
    Kind { name: b"rounds", numbers: 1, work: Work::Rounds },
    Kind { name: b"shared-rounds", numbers: 2, work: Work::SharedRounds },
    Kind { name: b"ticks", numbers: 1, work: Work::Ticks },
    Kind { name: b"longest", numbers: 1, work: Work::Longest },
    Kind { name: b"shared-longest", numbers: 1, work: Work::SharedLongest },
    Kind { name: b"asked", numbers: 1, work: Work::Asked },
    Kind { name: b"plain", numbers: 1, work: Work::Plain },
    Kind { name: b"shared", numbers: 1, work: Work::Shared },
    Kind { name: b"apart", numbers: 1, work: Work::Apart },
];

/// What the program is asked for: work, and as many of the numbers as it takes; the others are 0.
#[derive(Clone, Copy)]
pub(crate) struct Form {
    pub(crate) work: Work,
    pub(crate) first: u32,
    pub(crate) second: u32,
}

// The works that a form can name.
fn kinds() -> &'static [Kind] {
    KINDS
}

// The work of a name that so many numbers follow.
fn work_of(name: &[u8], numbers: usize) -> Option<Work> {
    for kind in kinds() {
        if kind.numbers == numbers && *kind.name == *name {
            return Some(kind.work);
        }
    }
    None
}

// The number that stands at a place, and 0 behind the last one.
fn number_at(words: &[Vec<u8>], place: usize) -> Option<u32> {
    match words.get(place) {
        Some(word) => Some(decimal_in(word, 4_294_967_295)? as u32),
        None => Some(0),
    }
}

/// What words ask for.
pub(crate) fn form_of(words: &[Vec<u8>]) -> Option<Form> {
    match words {
        [name, numbers @ ..] => Some(Form {
            work: work_of(name, numbers.len())?,
            first: number_at(numbers, 0)?,
            second: number_at(numbers, 1)?,
        }),
        [] => None,
    }
}
