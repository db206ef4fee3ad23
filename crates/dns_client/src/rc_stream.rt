//! `RcStream`, a list with several readers.
ghost use Rattle.std.specs.Prelude.{◌≡◌, ◌⊎◌, IfOk, slice_get};
ghost use Rattle.std.specs.Borrow.{sem};
ghost use Rattle.std.specs.Option.{option_and_then, option_copied};

use dns_record::NoMemory;
use std::rc::Rc;

/// A reader of a list that is finished, as of what came for a request. Other readers read the same list, each at its own place, and
/// each from the first item on. The list is kept until its last reader is gone.
#[derive(Drop)]
pub struct RcStream<T: Drop> {
    items: Rc<Vec<T>>,
    place: usize,
}

impl<T: Drop> RcStream<T> {
    ghost use Rattle.dns_client.specs.Readers.{HasMoved, MovesOn, items_of, next_of, place_of};

    /// The first reader of a list, which no longer changes. The only error is that memory ran out.
    ///
    /// ```
    /// fn read_twice(items: Vec<u8>) -> Result<(Option<u8>, Option<u8>), NoMemory> {
    ///     let mut one = RcStream::from_items(items)?;
    ///     let first = one.next_item().copied();
    ///     let mut other = one.reader()?;
    ///     Ok((first, other.next_item().copied()))
    /// }
    /// ```
    pub fn from_items(items: Vec<T>) -> Result<RcStream<T>, NoMemory>
        ensures items { IfOk result (λ r. items_of r ≡ items.items) }
        ensures start { IfOk result (λ r. place_of r ≡ 0) }
    {
        let alloc = *items.allocator();
        let items = Rc::new(alloc, items)?;
        Ok(RcStream { items, place: 0 })
    }

    /// Another reader of the same list, which has read nothing yet. The only error is that memory ran out.
    pub fn reader(&self) -> Result<RcStream<T>, NoMemory>
        ensures items { IfOk result (λ r. items_of r ≡ items_of self.now) }
        ensures start { IfOk result (λ r. place_of r ≡ 0) }
    {
        let items = self.items.clone()?;
        Ok(RcStream { items, place: 0 })
    }

    /// The next item. None at the end, again and again.
    pub fn next_item(&mut self) -> Option<&T>
        ensures* moves { sem 𝓛 (MovesOn T.row self.entry) }
        ensures value { option_copied result ≡ next_of self.old }
    {
        let place = self.advance()?;
        self.items.get(place)
    }

    // The place of the next item, which counts as read from now on.
    fn advance(&mut self) -> Option<usize>
        ensures moved { HasMoved self.old self.new }
        ensures place { option_and_then (λ place. slice_get (items_of self.new) place) result ≡ next_of self.old }
    {
        let place = self.place;
        if place >= self.items.len() {
            return None;
        }
        self.place = place + 1;
        Some(place)
    }
}

impl<T: Drop> RcStream<T> {
    ghost use Rattle.std.specs.Prelude.{◌∷◌, ◌++◌, [], None, Some};
    ghost use Rattle.dns_client.specs.Readers.{Begins, HasMoved, items_of, next_of, read_of};

    /// The law of readers: of two that read one list, what one has read begins what the other has read, since either begins the list.
    pub fn readers_agree(_one: &RcStream<T>, _other: &RcStream<T>)
        requires { items_of _one.now ≡ items_of _other.now }
        ensures front { Begins (read_of _one.now) (items_of _one.now) }
        ensures agree { Begins (read_of _one.now) (read_of _other.now) ⊎ Begins (read_of _other.now) (read_of _one.now) }
    {}
}
