ghost use Rattle.std.proofs.Common.{rules};
ghost use Rattle.std.specs.Prelude.{◌≡◌, None};
ghost use Rattle.shelves.specs.Lent.{size_answer, size_of};
ghost use Rattle.shelves.specs.Records.{most_places, record_places, record_new, record_set};
ghost use Rattle.shelves.specs.RecordLaws.{record_laws};

use crate::lent::{Element, LentShelf, check_size};
use tags::refusal::Refusal;

// The most places that a record shelf has.
const MOST_PLACES: usize = 32_768;

// A shelf over a lent list of places. It holds any kind of copied value.
pub type RecordShelf<'a, V> = LentShelf<'a, Option<V>>;

// Whether a record shelf takes a list of this many places. Beside `check_bytes`, since one function over the kind of
// element would ask for a kind of value that this test does not need.
pub fn check_places(count: usize) -> Result<(), Refusal>
    ensures { result ≡ size_answer most_places count }
{
    check_size(count, MOST_PLACES)
}

impl<V: Copy> Element for Option<V> {
    type Value = V;

    const EACH: u32 = 1;

    const MOST: usize = MOST_PLACES;

    const BLANK: Option<V> = None;

    ghost EACH = { 1 };

    ghost MOST = { most_places };

    ghost BLANK = { None };

    ghost look = { λ place _. place };

    ghost write = { λ _ _ place. place };

    ghost room = { size_of most_places };

    ghost places = { record_places };

    ghost fresh = { record_new };

    ghost changed = { record_set };

    ghost laws = { record_laws };

    ghost clones = { Prim.search rules };

    fn look(self, _k: u32) -> Option<V> {
        self
    }

    fn write(self, _k: u32, place: Option<V>) -> Option<V>
        ensures { result ≡ place }
    {
        place
    }
}
