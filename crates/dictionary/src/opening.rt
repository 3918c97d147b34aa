ghost use Rattle.std.specs.Prelude.{◌≡◌, length, Ok, Err};
ghost use Rattle.tags.specs.declared.refusal.Refusal.TheVariants.{UnfitParts};
ghost use Rattle.rules.specs.Tree.{bytes_in};
ghost use Rattle.parts.specs.Maps.{count_of};
ghost use Rattle.parts.specs.Shelves.{blanks};
ghost use Rattle.dictionary.specs.Shows.{Shows, extent_of, open_answer, fresh_book};

use crate::dictionary::{Dictionary, Parts};
use parts::map::NodeMap;
use parts::shelf::Shelf;
use parts::store::LabelStore;
use tags::refusal::Refusal;

// Whether the parts fit one another and are not in use. It only reads. They are no `Parts`: a caller that makes one of makes
// with lent memory gets no proof yet ("a type argument holds a `&mut` and a struct that has a ghost field"), unless it is
// generic.
pub fn check_parts<M: NodeMap, L: LabelStore, S: Shelf>(
    map: &M,
    store: &L,
    shelf: &S,
) -> Result<(), Refusal>
    ensures { result ≡ open_answer (M.NodeMap.meaning map.now) (L.LabelStore.meaning store.now) (S.Shelf.meaning shelf.now) }
{
    let last = map.last_room();
    if map.count() == 1 && store.count() == 0 && last <= store.places() && last <= shelf.places() {
        Ok(())
    } else {
        Err(Refusal::UnfitParts)
    }
}

// Blanks every place.
fn blank<S: Shelf>(shelf: &mut S)
    ensures { S.Shelf.meaning shelf.new ≡ blanks (length (S.Shelf.meaning shelf.old)) }
{
    for n in 0..shelf.places() {
        let _ = shelf.clear(n);
    }
}

impl<M: NodeMap, L: LabelStore, S: Shelf> Dictionary<M, L, S> {
    // Opens a dictionary over parts that `check_parts` finds fit: it blanks the shelf, and shows a book with no rows.
    // Over other parts it changes nothing, and the dictionary only says so.
    pub fn new(mut parts: Parts<M, L, S>) -> Dictionary<M, L, S>
        ensures opened { result.opened ≡ open_answer (M.NodeMap.meaning parts.map) (L.LabelStore.meaning parts.store) (S.Shelf.meaning parts.shelf) }
        ensures parts { (result.parts.map ≡ parts.map) × (result.parts.store ≡ parts.store) }
        ensures blank { result.opened ≡ Ok tt → S.Shelf.meaning result.parts.shelf ≡ blanks (length (S.Shelf.meaning parts.shelf)) }
        ensures shows { result.opened ≡ Ok tt → Shows (M.NodeMap.meaning result.parts.map) (L.LabelStore.meaning result.parts.store) (S.Shelf.meaning result.parts.shelf) (fresh_book (M.NodeMap.meaning parts.map) (L.LabelStore.meaning parts.store)) }
        ensures stays { extent_of (L.LabelStore.meaning result.parts.store) (S.Shelf.meaning result.parts.shelf) ≡ extent_of (L.LabelStore.meaning parts.store) (S.Shelf.meaning parts.shelf) }
        ensures kept { result.opened ≡ Err UnfitParts → result.parts ≡ parts }
    {
        let opened = check_parts(&parts.map, &parts.store, &parts.shelf);
        if opened.is_ok() {
            blank(&mut parts.shelf);
        }
        Dictionary { parts, opened }
    }

    // How many nodes there are.
    pub fn nodes(&self) -> u32
        ensures { result ≡ count_of (M.NodeMap.meaning self.now.parts.map) }
    {
        self.parts.map.count()
    }

    // How many bytes the labels have together.
    pub fn label_bytes(&self) -> u32
        ensures { result ≡ bytes_in (L.LabelStore.meaning self.now.parts.store).labels }
    {
        self.parts.store.total()
    }

    // The current room.
    pub fn room(&self) -> u32
        ensures { result ≡ (M.NodeMap.meaning self.now.parts.map).room }
    {
        self.parts.map.room()
    }

    // Gives the parts back.
    pub fn into_parts(self) -> Parts<M, L, S>
        ensures { result ≡ self.parts }
    {
        let Dictionary { parts, .. } = self;
        parts
    }
}
