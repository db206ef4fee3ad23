//! What is known of keys, each by its bytes.
ghost use Rattle.std.specs.Prelude.{◌≡◌, ℕ, List, true, IfOk, OnOk, IsTrue};
ghost use Rattle.std.specs.List.{All, list_any};
ghost use Rattle.dns_model.specs.Keys.{bytes_eq};
ghost use Rattle.dns_anchor_roll.specs.Tables.{among, changed_if, has_entry, standing_in};

use crate::standing::{Change, Standing};
use dns_record::NoMemory;
use std::alloc::Global;
use std::collections::BTreeMap;

/// What is known of keys. A key without an entry is unknown.
pub(crate) type Known = BTreeMap<Vec<u8>, Standing>;

/// What is known of a key.
pub(crate) fn standing(known: &Known, key: &[u8]) -> Standing
    ensures { result ≡ standing_in known.now key.now }
{
    match known.get(key) {
        Some(found) => *found,
        None => Standing::Unknown,
    }
}

// Makes room for what may come to be known of a key. What is known stays, also where memory runs out.
fn make_room(alloc: Global, known: &mut Known, key: &[u8]) -> Result<(), NoMemory>
    ensures same { (q : List ℕ) → standing_in known.new q ≡ standing_in known.old q }
    ensures room { OnOk result (has_entry known.new key.now ≡ true) }
    ensures more { (q : List ℕ) → has_entry known.old q ≡ true → has_entry known.new q ≡ true }
{
    if known.contains_key(key) {
        return Ok(());
    }
    let own = Vec::from_slice(alloc, key)?;
    known.insert(own, Standing::Unknown)?;
    Ok(())
}

/// Makes room for what may come to be known of some keys. What is known stays, also where memory runs out.
pub(crate) fn make_all_room(
    alloc: Global,
    known: &mut Known,
    keys: &[&[u8]],
) -> Result<(), NoMemory>
    ensures same { (q : List ℕ) → standing_in known.new q ≡ standing_in known.old q }
    ensures room { OnOk result (All (λ k. has_entry known.new k.now ≡ true) keys.now) }
    ensures more { (q : List ℕ) → has_entry known.old q ≡ true → has_entry known.new q ≡ true }
{
    for key in keys {
        make_room(alloc, known, *key)?;
    }
    Ok(())
}

// Changes what is known of a key, for which there is room.
fn change(known: &mut Known, key: &[u8], by: Change)
    requires room { has_entry known.old key.now ≡ true }
    ensures changed { (q : List ℕ) → standing_in known.new q
        ≡ changed_if (bytes_eq q key.now) by (standing_in known.old q) }
    ensures same { (q : List ℕ) → has_entry known.new q ≡ has_entry known.old q }
{
    let Some(standing) = known.get_mut(key) else {
        return;
    };
    *standing = standing.after(by);
}

/// Changes what is known of some keys, for which there is room.
pub(crate) fn change_all(known: &mut Known, keys: &[&[u8]], by: Change)
    requires room { All (λ k. has_entry known.old k.now ≡ true) keys.now }
    ensures changed { (q : List ℕ) → standing_in known.new q
        ≡ changed_if (among q keys.now) by (standing_in known.old q) }
    ensures same { (q : List ℕ) → has_entry known.new q ≡ has_entry known.old q }
{
    for key in keys {
        change(known, *key, by);
    }
}
