//! The words that the program takes.

use dns_text::decimal_in;

/// What is done.
#[derive(Clone, Copy)]
pub(crate) enum Work {
    /// Random calls are played on caches, and the frame of a message is cut.
    All,
    /// Each entry of the default cache is got.
    Get,
    /// An entry that isn't in the default cache takes the place of the least recently used.
    Insert,
    /// An entry is made and dropped, without a cache.
    Copy,
    /// Each number of the map that the cache stands on is got.
    MapGet,
    /// A key that isn't in the map takes the place of the least recently used.
    MapPut,
    /// Each entry of a shared cache is got by so many threads at once, or, by none, of the default cache.
    SharedGet,
    /// So many lookups are served from one shared cache by each of so many threads.
    SharedLookups,
    /// In so many rounds so many seats of a forwarder over one shared cache answer a thousand requests each.
    Serve,
    /// An entry under six links is put into a shelf, whose verifier hashes so many bytes for a signature.
    ShelfInsert,
    /// Such an entry is made and dropped, and its chain tested.
    ShelfTest,
    /// Each entry of a shelf is got for another list of as many signatures.
    ShelfFor,
    /// A link in memory with a hundred frames is made.
    Made,
    /// It is made, and they are read off as messages.
    Read,
    /// It is made, and they are read off plainly and copied.
    Copied,
    /// A hundred messages are written to a link in memory.
    Written,
    /// The frame of a message of so many bytes is read, cut before each of its bytes in turn.
    Cut,
    /// The keys of a zone are followed over so many sightings.
    Roll,
    /// A zone, or what has changed in it since a serial number, is transferred from a server at a port of this machine.
    Transfer,
    /// The update with a number is sent to such a server.
    Update,
}

/// A kind of work: its name, and how many numbers follow.
struct Kind {
    name: &'static [u8],
    numbers: usize,
    work: Work,
}

#[rattlefmt::skip]
const KINDS: &[Kind] = &[
    Kind { name: b"all", numbers: 3, work: Work::All },
    Kind { name: b"get", numbers: 3, work: Work::Get },
    Kind { name: b"insert", numbers: 3, work: Work::Insert },
    Kind { name: b"copy", numbers: 3, work: Work::Copy },
    Kind { name: b"map-get", numbers: 2, work: Work::MapGet },
    Kind { name: b"map-put", numbers: 2, work: Work::MapPut },
    Kind { name: b"shared-get", numbers: 3, work: Work::SharedGet },
    Kind { name: b"shared-lookups", numbers: 2, work: Work::SharedLookups },
    Kind { name: b"serve", numbers: 2, work: Work::Serve },
    Kind { name: b"shelf-insert", numbers: 3, work: Work::ShelfInsert },
    Kind { name: b"shelf-test", numbers: 3, work: Work::ShelfTest },
    Kind { name: b"shelf-for", numbers: 3, work: Work::ShelfFor },
    Kind { name: b"made", numbers: 1, work: Work::Made },
    Kind { name: b"read", numbers: 1, work: Work::Read },
    Kind { name: b"copied", numbers: 1, work: Work::Copied },
    Kind { name: b"written", numbers: 1, work: Work::Written },
    Kind { name: b"cut", numbers: 1, work: Work::Cut },
    Kind { name: b"roll", numbers: 1, work: Work::Roll },
    Kind { name: b"transfer", numbers: 2, work: Work::Transfer },
    Kind { name: b"update", numbers: 2, work: Work::Update },
];

/// What the program is asked for: work, and as many of the numbers as it takes; the others are 0.
#[derive(Clone, Copy)]
pub(crate) struct Form {
    pub(crate) work: Work,
    pub(crate) first: u32,
    pub(crate) second: u32,
    pub(crate) third: u32,
}

// The works that a form can name.
fn kinds() -> &'static [Kind] {
    KINDS
}

// The work of a name that so many numbers follow.
fn work_of(name: &[u8], numbers: usize) -> Option<Work> {
    for kind in kinds() {
        if kind.numbers == numbers && *kind.name == *name {
            return Some(kind.work);
        }
    }
    None
}

// The number that stands at a place, and 0 behind the last one.
fn number_at(words: &[Vec<u8>], place: usize) -> Option<u32> {
    match words.get(place) {
        Some(word) => Some(decimal_in(word, 4_294_967_295)? as u32),
        None => Some(0),
    }
}

/// What words ask for.
pub(crate) fn form_of(words: &[Vec<u8>]) -> Option<Form> {
    match words {
        [name, numbers @ ..] => Some(Form {
            work: work_of(name, numbers.len())?,
            first: number_at(numbers, 0)?,
            second: number_at(numbers, 1)?,
            third: number_at(numbers, 2)?,
        }),
        [] => None,
    }
}
