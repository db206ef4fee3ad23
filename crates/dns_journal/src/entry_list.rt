//! The entries of a journal in pieces, so that no call copies those that are there.
ghost use Rattle.std.specs.Prelude.{◌≡◌, ◌≤◌, ◌<◌, ◌+◌, ◌*◌, ◌^◌, ◌∷◌, ◌++◌, [], All, length, vec_len, vec_capacity, OnOk, OnErr, IfOk};
ghost use Rattle.std.specs.List.{flat_map};
ghost use Rattle.dns_journal.specs.Entries.{entry_of};
ghost use Rattle.dns_journal.specs.Replays.{IsNothing, same};

use crate::entry::Entry;
use dns_record::NoMemory;
use std::alloc::Global;
use std::marker::Model;
use std::mem;

/// So many entries are in a piece.
const PIECE: usize = 1024;

/// Entries one after another, with memory for as many as a piece has.
struct Piece {
    entries: Vec<Entry>,
}

impl Model for Piece {
    ghost use Rattle.std.specs.Prelude.{◌≤◌, List, map, vec_capacity};
    ghost use Rattle.dns_journal.specs.Entries.{Entry, entry_of};

    ghost Value = { List Entry };

    ghost view = { λ p. map entry_of p.entries.items };

    ghost invariant = { λ p. 1024 ≤ vec_capacity p.entries };
}

// By hand, so that a function that drops one calls this.
impl Drop for Piece {
    fn drop(self) {
        let Piece { entries: _ } = self;
    }
}

impl Piece {
    // No entry.
    fn new(alloc: Global) -> Result<Piece, NoMemory>
        ensures { IfOk result (λ piece. piece ≡ []) }
    {
        let entries = Vec::with_capacity(alloc, PIECE)?;
        Ok(Piece { entries })
    }

    // How many entries there are.
    fn len(&self) -> usize
        ensures { result ≡ length self.now }
    {
        self.entries.len()
    }

    // Puts an entry behind the others. It takes no memory.
    fn push(&mut self, entry: Entry)
        requires { length self.old < 1024 }
        ensures { self.new ≡ self.old ++ entry_of entry ∷ [] }
    {
        self.entries.push_reserved(entry);
    }
}

// The last piece has room for an entry from now on: where it is full it stands among the full ones, and a spare one is the last.
fn make_place(full: &mut Vec<Piece>, last: &mut Piece, spare: &mut Vec<Piece>)
    requires few { length last.old ≤ 1024 }
    requires spare { length last.old ≡ 1024 → 0 < vec_len spare.old }
    requires empty { All IsNothing spare.old.items }
    requires room { vec_len full.old + vec_len spare.old ≤ vec_capacity full.old }
    ensures last { length last.new < 1024 }
    ensures items { flat_map same full.new.items ++ last.new ≡ flat_map same full.old.items ++ last.old }
    ensures left { 1024 * vec_len spare.new + length last.old ≡ 1024 * vec_len spare.old + length last.new }
    ensures empty { All IsNothing spare.new.items }
    ensures room { vec_len full.new + vec_len spare.new ≤ vec_capacity full.new }
{
    if last.len() < PIECE {
        return;
    }
    let Some(next) = spare.pop() else {
        unreachable!();
    };
    full.push_reserved(mem::replace(last, next));
}

// Memory for one piece more, and for its place among the full ones.
fn add_spare(alloc: Global, full: &mut Vec<Piece>, spare: &mut Vec<Piece>) -> Result<(), NoMemory>
    requires few { vec_len spare.old < 2 ^ 32 }
    requires empty { All IsNothing spare.old.items }
    requires room { vec_len full.old + vec_len spare.old ≤ vec_capacity full.old }
    ensures items { full.new.items ≡ full.old.items }
    ensures ok { OnOk result (vec_len spare.new ≡ vec_len spare.old + 1) }
    ensures err { OnErr result (vec_len spare.new ≡ vec_len spare.old) }
    ensures empty { All IsNothing spare.new.items }
    ensures room { vec_len full.new + vec_len spare.new ≤ vec_capacity full.new }
{
    full.reserve(spare.len() + 1)?;
    let piece = Piece::new(alloc)?;
    spare.push(piece)?;
    Ok(())
}

/// Entries, the first one first, and memory for some more.
#[derive(Drop)]
pub(crate) struct EntryList {
    full: Vec<Piece>,
    last: Piece,
    /// Empty pieces.
    spare: Vec<Piece>,
    len: usize,
    /// How many more entries there is memory for.
    room: usize,
}

impl Model for EntryList {
    ghost use Rattle.std.specs.Prelude.{◌++◌, vec_len, vec_capacity};
    ghost use Rattle.std.specs.List.{flat_map};
    ghost use Rattle.dns_journal.specs.Replays.{EntryListValue, IsEntryList, same};

    ghost Value = { EntryListValue };

    ghost view = { λ l. record { items = flat_map same l.full.items ++ l.last; room = l.room } };

    ghost invariant = { λ l. IsEntryList l.full.items l.spare.items l.last l.len l.room (vec_len l.spare)
        (vec_len l.full) (vec_capacity l.full) };
}

impl EntryList {
    /// No entry, and memory for a piece.
    pub(crate) fn new(alloc: Global) -> Result<EntryList, NoMemory>
        ensures items { IfOk result (λ l. l.items ≡ []) }
        ensures room { IfOk result (λ l. l.room ≡ 1024) }
    {
        Ok(EntryList {
            full: Vec::new(alloc),
            last: Piece::new(alloc)?,
            spare: Vec::new(alloc),
            len: 0,
            room: PIECE,
        })
    }

    /// How many entries there are.
    pub(crate) fn len(&self) -> usize
        ensures { result ≡ length self.now.items }
    {
        self.len
    }

    /// Memory for so many more entries. It doesn't grow less.
    pub(crate) fn reserve(&mut self, alloc: Global, places: usize) -> Result<(), NoMemory>
        requires near { places ≤ self.old.room + 1024 }
        requires few { places ≤ 2 ^ 32 }
        ensures items { self.new.items ≡ self.old.items }
        ensures ok { OnOk result (places ≤ self.new.room) }
        ensures err { OnErr result (self.new ≡ self.old) }
    {
        if self.room >= places {
            return Ok(());
        }
        add_spare(alloc, &mut self.full, &mut self.spare)?;
        self.room += PIECE;
        Ok(())
    }

    /// Puts an entry behind the others. It takes no memory.
    pub(crate) fn push(&mut self, entry: Entry)
        requires room { 0 < self.old.room }
        requires few { length self.old.items < 2 ^ 32 }
        ensures items { self.new.items ≡ self.old.items ++ entry_of entry ∷ [] }
        ensures room { self.new.room + 1 ≡ self.old.room }
    {
        make_place(&mut self.full, &mut self.last, &mut self.spare);
        self.last.push(entry);
        self.len += 1;
        self.room -= 1;
    }
}
