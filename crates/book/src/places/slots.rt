//! The slots in which the places stand.
ghost use Rattle.std.specs.Prelude.{◌≡◌};
ghost use Rattle.name_table.specs.Slots.{map_of, NamesOnce};

use super::Places;
use crate::place::Place;
use name_table::Entry;

impl Places {
    /// The slots up to the last that ever had a place, each with a uid and its place, or free.
    pub(crate) fn slots(&self) -> &[Option<Entry<Place>>]
        ensures map { map_of result.now ≡ self.now.map }
        ensures once { NamesOnce result.now }
    {
        // That no uid is there twice is told with how many there are.
        let _uids = self.by_uid.len();
        self.by_uid.slots()
    }
}
