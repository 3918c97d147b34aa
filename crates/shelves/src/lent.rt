ghost use Rattle.std.specs.Prelude.{◌≡◌, ℕ, ◌<◌, ◌≤◌, false, List, length, is_ok, Some, None, Option, replicate, slice_index_or, slice_set};
ghost use Rattle.parts.specs.Shelves.{blanks, set_answer};
ghost use Rattle.shelves.specs.Lent.{size_answer, size_of, ElementLaws};

use parts::shelf::{Shelf, ShelfFault};
use tags::refusal::Refusal;

// What a shelf's lent memory is made of: each element holds some places.
pub trait Element: Copy {
    type Value: Copy;

    // The places of an element.
    const EACH: u32;

    // The most elements that a shelf takes.
    const MOST: usize;

    // An element whose places are blank.
    const BLANK: Self;

    ghost EACH: { ℕ };

    ghost MOST: { ℕ };

    ghost BLANK: { Self };

    ghost look: { Self → ℕ → Option Self.Value };

    ghost write: { Self → ℕ → Option Self.Value → Self };

    // How many places lie in a count of elements.
    ghost room: { ℕ → ℕ };

    // The places that lie in a list.
    ghost places: { List Self → List (Option Self.Value) };

    // The lent list of a new shelf.
    ghost fresh: { List Self → List Self };

    // The lent list after a write to a place.
    ghost changed: { List Self → ℕ → Option Self.Value → List Self };

    // Place k.
    fn look(self, k: u32) -> Option<Self::Value>
        requires { k < EACH }
        ensures { result ≡ look self k };

    // The element with place k replaced.
    fn write(self, k: u32, place: Option<Self::Value>) -> Self
        requires { k < EACH }
        ensures { result ≡ write self k place };

    ghost laws: { ElementLaws EACH MOST BLANK look write room places fresh changed };

    // To clone the blank element gives it again, and does not fail.
    ghost clones: { Self.is_infallible BLANK × ((copy : Self) → Self.is_clone BLANK copy → copy ≡ BLANK) };
}

// A shelf whose places lie in lent elements.
#[derive(Drop)]
pub struct LentShelf<'a, E> {
    lent: &'a mut [E],
}

// Whether a shelf takes a list of this many elements, 1 up to a limit.
pub(crate) fn check_size(count: usize, limit: usize) -> Result<(), Refusal>
    ensures { result ≡ size_answer limit count }
{
    if (1..=limit).contains(&count) {
        Ok(())
    } else {
        Err(Refusal::StoreMemory)
    }
}

// How many elements of a lent list serve: all, or none where there are too many.
fn size(count: usize, limit: usize) -> usize
    ensures size { result ≡ size_of limit count }
    ensures within { result ≤ limit }
{
    if count > limit { 0 } else { count }
}

// Blanks every place of a list.
fn blank_all<E: Element>(elements: &mut [E])
    ensures { elements.new ≡ replicate (length elements.old) E.BLANK }
{
    elements.fill(E::BLANK);
}

// What place n of a list says.
fn place_at<E: Element>(elements: &[E], n: u32) -> Option<E::Value>
    requires { n < length (E.places elements.now) }
    ensures { result ≡ slice_index_or (E.places elements.now) n None }
{
    elements[(n / E::EACH) as usize].look(n % E::EACH)
}

// Replaces place n of a list.
fn set_place<E: Element>(elements: &mut [E], n: u32, place: Option<E::Value>)
    requires { n < length (E.places elements.old) }
    ensures { elements.new ≡ E.changed elements.old n place }
{
    let element = &mut elements[(n / E::EACH) as usize];
    *element = element.write(n % E::EACH, place);
}

impl<'a, E: Element> LentShelf<'a, E> {
    // Blanks every lent place. A list of a size that `check_bytes` or `check_places` refuses stays as it is, and the shelf
    // has no places.
    pub fn new(elements: &'a mut [E]) -> LentShelf<'a, E>
        ensures blank { E.places result.lent.now ≡ blanks (E.room (length elements.old)) }
        ensures lent { result.lent.now ≡ E.fresh elements.old }
        ensures lender { result.lent.ghost_name ≡ elements.entry.ghost_name }
    {
        if check_size(elements.len(), E::MOST).is_ok() {
            blank_all(elements);
        }
        LentShelf { lent: elements }
    }

    // Fills or blanks a place. The clauses stand in full here, in `put` and in `clear`: these two have to state the trait's
    // own.
    fn change(&mut self, n: u32, place: Option<E::Value>) -> Result<(), ShelfFault>
        ensures answer { result ≡ set_answer (E.places self.old.lent.now) n }
        ensures next { E.places self.new.lent.now ≡ slice_set (E.places self.old.lent.now) n place }
        ensures kept { is_ok result ≡ false → self.new ≡ self.old }
        ensures lent { self.new.lent.now ≡ E.changed self.old.lent.now n place }
        ensures lender { self.new.lent.ghost_name ≡ self.old.lent.ghost_name }
    {
        if n >= self.places() {
            return Err(ShelfFault::NoPlace);
        }
        set_place(self.lent, n, place);
        Ok(())
    }
}

impl<'a, E: Element> Shelf for LentShelf<'a, E> {
    type Value = E::Value;

    ghost meaning = { λ s. E.places s.lent.now };

    fn places(&self) -> u32 {
        E::EACH * size(self.lent.len(), E::MOST) as u32
    }

    fn get(&self, n: u32) -> Result<Option<E::Value>, ShelfFault> {
        if n >= self.places() {
            return Err(ShelfFault::NoPlace);
        }
        Ok(place_at(self.lent, n))
    }

    fn put(&mut self, n: u32, value: E::Value) -> Result<(), ShelfFault>
        ensures answer { result ≡ set_answer (E.places self.old.lent.now) n }
        ensures next { E.places self.new.lent.now ≡ slice_set (E.places self.old.lent.now) n (Some value) }
        ensures kept { is_ok result ≡ false → self.new ≡ self.old }
        ensures lent { self.new.lent.now ≡ E.changed self.old.lent.now n (Some value) }
        ensures lender { self.new.lent.ghost_name ≡ self.old.lent.ghost_name }
    {
        self.change(n, Some(value))
    }

    fn clear(&mut self, n: u32) -> Result<(), ShelfFault>
        ensures answer { result ≡ set_answer (E.places self.old.lent.now) n }
        ensures next { E.places self.new.lent.now ≡ slice_set (E.places self.old.lent.now) n None }
        ensures kept { is_ok result ≡ false → self.new ≡ self.old }
        ensures lent { self.new.lent.now ≡ E.changed self.old.lent.now n None }
        ensures lender { self.new.lent.ghost_name ≡ self.old.lent.ghost_name }
    {
        self.change(n, None)
    }
}
