//! The program over any sink.
ghost use Rattle.std.specs.Prelude.{◌≡◌, ◌<◌, ◌⊎◌};
ghost use Rattle.std.specs.Io.KnownBytes.{Appends};
ghost use Rattle.dns_io.specs.Runs.{KeepsSink};
ghost use Rattle.dns_io.specs.Writing.{bad_words_text};

use crate::cache_load::worked_on;
use crate::caches_played::Caches;
use crate::calls::first_difference;
use crate::carried::carried;
use crate::cuts::cut;
use crate::follow_load::followed;
use crate::form::{Form, Work, form_of};
use crate::serve_load::served;
use crate::shared_load::shared_work;
use crate::shared_lookups::shared_lookups;
use crate::shelf_played::Shelved;
use crate::texts::push_line;
use crate::transferring::transferred;
use crate::updating::updated;
use dns_io::Sink;
use dns_io::status::{self, refuse_words, write_text};
use dns_record::NoMemory;
use std::alloc::Global;
use std::sync::Wait;
use std::thread::Threads;

// The line of what was played: how much was answered alike, or the number of the first difference.
fn push_played(text: &mut Vec<u8>, different: Option<u32>, count: u32) -> Result<(), NoMemory> {
    match different {
        None => push_line(text, b"alike ", u64::from(count)),
        Some(number) => push_line(text, b"different ", u64::from(number)),
    }
}

// The lines of so many calls by a seed.
fn push_all(alloc: Global, text: &mut Vec<u8>, seed: u32, count: u32) -> Result<(), NoMemory> {
    let different = first_difference::<Caches>(alloc, u64::from(seed), count)?;
    push_played(text, different, count)?;
    let different = first_difference::<Shelved>(alloc, u64::from(seed), count)?;
    push_played(text, different, count)
}

// Does what is asked for, and puts other lines of it behind a text: how often it went well.
fn done<T: Threads + Wait + Copy + Send + Sync>(
    rt: &HostRuntime,
    threads: &T,
    alloc: Global,
    form: Form,
    text: &mut Vec<u8>,
) -> Result<u64, NoMemory> {
    match form.work {
        Work::All => cut(alloc, form.third),
        Work::Get | Work::Insert | Work::Copy | Work::MapGet | Work::MapPut => worked_on(
            alloc, form,
        ),
        Work::Made | Work::Read | Work::Copied | Work::Written => carried(
            alloc, form.work, form.first,
        ),
        Work::SharedGet | Work::ShelfInsert | Work::ShelfTest | Work::ShelfFor => shared_work(
            *threads, alloc, form,
        ),
        Work::SharedLookups => shared_lookups(*threads, alloc, form.first, form.second),
        Work::Serve => served(rt, *threads, alloc, form.first, form.second, text),
        Work::Cut => cut(alloc, form.first),
        Work::Roll => followed(alloc, form.first),
        Work::Transfer => transferred(rt, alloc, form.first, form.second, text),
        Work::Update => updated(rt, alloc, form.first, form.second, text),
    }
}

// Puts the lines of what is asked for behind a text.
fn push_lines<T: Threads + Wait + Copy + Send + Sync>(
    rt: &HostRuntime,
    threads: &T,
    alloc: Global,
    form: Form,
    text: &mut Vec<u8>,
) -> Result<(), NoMemory> {
    if let Work::All = form.work {
        push_all(alloc, text, form.first, form.second)?;
    }
    let count = done(rt, threads, alloc, form, text)?;
    push_line(text, b"done ", count)
}

// Does what is asked for, and writes its lines.
fn answer<T: Threads + Wait + Copy + Send + Sync, W: Sink>(
    rt: &HostRuntime,
    threads: &T,
    alloc: Global,
    form: Form,
    output: &mut W,
) -> u8
    ensures ends { result < 4 → result ≡ 0 }
    ensures keeps { KeepsSink W.faults result output.old output.new }
{
    let mut text = Vec::new(alloc);
    match push_lines(rt, threads, alloc, form, &mut text) {
        Ok(()) => write_text(status::DONE, &text, output),
        Err(NoMemory) => status::NO_MEMORY,
    }
}

/// Runs the program with its words, those after its name, and answers its status. `threads` is the runtime as well, which lets only `main`
/// start threads.
///
/// `get ENTRIES LINKS PASSES` fills the default cache with so many entries, each with a chain of so many links, and gets each of them in
/// each pass. `insert` puts as many into a cache with room for one fewer, and `copy` makes and lets go as many without a cache.
/// `map-get ENTRIES PASSES` and `map-put` do the same with the map that the cache stands on.
///
/// `shared-get ENTRIES PASSES THREADS` gets each entry of a shared cache in each pass of so many threads at once, or with 0 of the default cache; each has a
/// chain of six links. `shelf-insert ENTRIES PASSES BYTES` puts such entries into a shelf, whose verifier hashes so many bytes for each of four
/// signatures, and `shelf-test` makes and drops them and tests their chains. `shelf-for ENTRIES PASSES SIGNATURES` gets entries for a list of so many
/// signatures, which is compared with the shelf's each time. `shared-lookups COUNT THREADS` makes so many lookups by each of so many threads over one shared
/// cache. `serve ROUNDS SEATS` has so many seats of a forwarder over one cache answer a thousand requests each, in so many rounds behind one that
/// fills the cache, and writes `nanoseconds` with the time that the call of `serve` took in these.
///
/// `made COUNT` makes so many links in memory, each with a hundred messages of 510 bytes behind their lengths; `read COUNT` makes them and
/// reads the messages, and `copied COUNT` reads their bytes plainly, a frame a read, and copies each frame. `written COUNT` writes as many
/// messages to so many links. `cut COUNT` cuts the frame of one message of so many bytes, at most 65,535, before each of its bytes in turn and then
/// into single bytes, and reads it each time.
///
/// `roll COUNT` follows the keys of a zone over so many sightings, a second apart, of a set of four keys with one signature that a key accepts which
/// is trusted.
///
/// `transfer PORT SERIAL` asks a server at this port of 127.0.0.1 for the zone `trial.example.`, or, where the serial number isn't 0, for what has changed since.
/// It writes `record` with name, type, class, ttl and rdata of each record, in hexadecimal and decimal; done counts them where the transfer ended well,
/// and else is 0. `update PORT NUMBER` sends such a server one of ten messages about that zone, and writes `sent` with its bytes, under id 0, and `code` with the
/// response code.
///
/// Each writes `done` and how often it went well. `all SEED COUNT SIZE` plays random calls on both caches and on a plain list, and then on a shelf and
/// on a plain list. Of each it writes `alike COUNT`, or `different` with the number of the first call that they answer otherwise, counted from 0. Then it does what `cut SIZE` does.
///
/// 0: the lines are written. 2: the words are no form. 5: a write failed after a prefix of the text. 6: memory ran out.
pub(crate) fn run<T: Threads + Wait + Copy + Send + Sync, W: Sink>(
    rt: &HostRuntime,
    threads: &T,
    alloc: Global,
    words: &[Vec<u8>],
    output: &mut W,
) -> u8
    ensures ends { result < 4 → (result ≡ 0) ⊎ (result ≡ 2) }
    ensures refused { result ≡ 2 → Appends (W.taken output.old) (W.taken output.new) bad_words_text }
    ensures keeps { KeepsSink W.faults result output.old output.new }
{
    match form_of(words) {
        Some(form) => answer(rt, threads, alloc, form, output),
        None => refuse_words(output),
    }
}
