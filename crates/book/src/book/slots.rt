//! What a book lends of its places.
ghost use Rattle.std.specs.Prelude.{◌≡◌};
ghost use Rattle.name_table.specs.Slots.{map_of, NamesOnce};

use super::Book;
use crate::place::Place;
use name_table::Entry;

impl Book {
    /// The places of pods, each under its uid in a slot of its own. A slot may be free.
    pub fn places(&self) -> &[Option<Entry<Place>>]
        ensures map { map_of result.now ≡ self.now.places }
        ensures once { NamesOnce result.now }
    {
        self.places.slots()
    }
}
