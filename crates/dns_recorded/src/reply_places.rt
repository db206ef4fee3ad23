//! Where the replies to each query stand.
ghost use Rattle.std.specs.Prelude.{◌≡◌, OnOk, OnErr};
ghost use Rattle.dns_recorded.specs.RecordedPlaces.{query_places, turn_in, SamePlaces, NotedPlace, Dropped};

use dns_handle::QueryKey;
use dns_record::NoMemory;
use std::alloc::Global;
use std::collections::{BTreeMap, VecDeque};

/// Where the replies that are left to each query stand, in the order in which they are served.
pub(crate) type ReplyPlaces = BTreeMap<QueryKey, VecDeque<usize>>;

/// Where the reply stands that is served next.
#[derive(Clone, Copy, Drop)]
pub(crate) struct Turn {
    pub(crate) place: usize,
    /// It serves later sends too.
    pub(crate) stays: bool,
}

/// Which reply to a query is next. By turn it stays only where it is the last one.
pub(crate) fn turn_of(places: &ReplyPlaces, key: &QueryKey, by_turn: bool) -> Option<Turn>
    ensures { result ≡ turn_in by_turn (query_places places.now key.now) }
{
    let queue = places.get(key)?;
    let place = queue.front()?;
    Some(Turn {
        place: *place,
        stays: !by_turn || queue.len() == 1,
    })
}

/// Puts a place behind the others of its query. After an error each query has the places that it had.
pub(crate) fn note_place(
    alloc: Global,
    places: &mut ReplyPlaces,
    key: QueryKey,
    place: usize,
) -> Result<(), NoMemory>
    ensures ok { OnOk result (NotedPlace places.old places.new key place) }
    ensures err { OnErr result (SamePlaces places.old places.new) }
{
    if let Some(queue) = places.get_mut(&key) {
        queue.push_back(place)?;
        return Ok(());
    }
    let mut queue = VecDeque::new(alloc);
    queue.push_back(place)?;
    places.insert(key, queue)?;
    Ok(())
}

/// Takes the first place of a query away.
pub(crate) fn drop_place(places: &mut ReplyPlaces, key: &QueryKey)
    ensures { Dropped places.old places.new key.now }
{
    if let Some(queue) = places.get_mut(key) {
        let _ = queue.pop_front();
    }
}
