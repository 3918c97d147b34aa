// A list on dictionaries of every combination of makes.
use crate::beside::Trial;
use crate::calls::Value;
use crate::counts::Counts;
use crate::random::Random;
use crate::sizes::{Makes, MapMake, ShelfMake, Sizes, State, StoreMake, rooms};
use crate::stop::Stop;
use compact_map::shape::CompactMap;
use label_stores::grouped::GroupedStore;
use label_stores::plain::PlainStore;
use parts::map::NodeMap;
use parts::shelf::Shelf;
use parts::store::LabelStore;
use plain_book::Book;
use rules::answers::Call;
use shelves::bit::BitShelf;
use shelves::record::RecordShelf;
use sibling_map::record::NodeRecord;
use sibling_map::shape::SiblingMap;
use std::alloc::{AllocError, Global};

// What is lent to stores.
#[derive(Drop)]
struct Labels {
    bytes: Vec<u8>,
    starts: Vec<u32>,
}

// What is lent to maps and stores.
#[derive(Drop)]
struct Lent {
    slots: Vec<u8>,
    records: Vec<NodeRecord>,
    labels: Labels,
}

// What is lent to makes, but for the places of a record shelf. Each dictionary finds there what the one before left.
#[derive(Drop)]
pub(crate) struct Memory {
    parts: Lent,
    bits: Vec<u8>,
}

impl Memory {
    pub(crate) fn new(heap: Global, random: &mut Random) -> Result<Memory, AllocError> {
        let sizes = Sizes::LARGEST;
        let parts = Lent {
            slots: random.bytes(heap, sizes.slot_bytes)?,
            records: vec![in heap; NodeRecord::BLANK; sizes.records]?,
            labels: Labels {
                bytes: random.bytes(heap, sizes.grouped_bytes)?,
                starts: (0..sizes.starts).map(|_| random.number()).collect(heap)?,
            },
        };
        let bits = random.bytes(heap, sizes.bit_bytes)?;
        Ok(Memory { parts, bits })
    }
}

// As many as are asked for, or all.
pub(crate) fn first<T>(of: &mut [T], n: usize) -> &mut [T] {
    let n = n.min(of.len());
    &mut of[..n]
}

// A list with any map and shelf, and the store of the make.
fn with_map<V: Value, M: NodeMap + Drop, S: Shelf<Value = V> + Drop>(
    list: &List<'_, V>,
    trial: Trial<'_, V>,
    map: M,
    shelf: S,
    labels: &mut Labels,
) -> Result<(), Stop> {
    let List { calls, sizes, .. } = *list;
    let Labels { bytes, starts } = labels;
    match trial.makes.store {
        StoreMake::Plain => {
            let bytes = first(bytes, sizes.plain_bytes);
            let starts = first(starts, sizes.starts);
            trial.run(calls, map, PlainStore::new(bytes, starts), shelf)
        }
        StoreMake::Grouped => {
            let bytes = first(bytes, sizes.grouped_bytes);
            let starts = first(starts, sizes.groups);
            trial.run(calls, map, GroupedStore::new(bytes, starts), shelf)
        }
    }
}

// A list: its number, its calls, how much memory its dictionaries are lent, and in what state their parts are.
#[derive(Clone, Copy)]
pub(crate) struct List<'a, V> {
    pub(crate) number: u64,
    pub(crate) calls: &'a [Call<'a, V>],
    pub(crate) sizes: Sizes,
    pub(crate) state: State,
}

impl<V: Value> List<'_, V> {
    // The book that says what a dictionary of these makes answers. A map of a refused size has no room for one more node.
    fn book<'b>(&self, heap: Global, makes: Makes, rooms: &'b [usize]) -> Book<'b, V> {
        let in_use = match self.state {
            State::New => false,
            State::NodeMade => self.sizes.slots(makes.map).is_some(),
            State::LabelThere => true,
        };
        let last = rooms.last().copied().unwrap_or(0);
        match (self.sizes.store(makes.store), self.sizes.shelf(makes.shelf)) {
            (Some((room, labels)), Some(values)) if !in_use && last <= labels.min(values) => {
                Book::new(heap, rooms, room)
            }
            _ => Book::unfit(heap),
        }
    }

    // The list on a dictionary of these makes, over any shelf of theirs.
    fn on<S: Shelf<Value = V> + Drop>(
        &self,
        heap: Global,
        makes: Makes,
        shelf: S,
        lent: &mut Lent,
        counts: &mut Counts,
    ) -> Result<(), Stop> {
        let sizes = self.sizes;
        let rooms = rooms(heap, makes.map, &sizes)?;
        let trial = Trial {
            heap,
            list: self.number,
            makes,
            state: self.state,
            book: self.book(heap, makes, &rooms),
            counts,
        };
        let Lent {
            slots,
            records,
            labels,
        } = lent;
        match makes.map {
            MapMake::Compact => {
                let map = CompactMap::new(first(slots, sizes.slot_bytes));
                with_map(self, trial, map, shelf, labels)
            }
            MapMake::Sibling => {
                let map = SiblingMap::new(first(records, sizes.records));
                with_map(self, trial, map, shelf, labels)
            }
        }
    }

    // The list on each dictionary with a record shelf.
    pub(crate) fn on_records(
        &self,
        heap: Global,
        places: &mut [Option<V>],
        memory: &mut Memory,
        counts: &mut Counts,
    ) -> Result<(), Stop> {
        for makes in makes_with(ShelfMake::Record) {
            let shelf = RecordShelf::new(first(places, self.sizes.places));
            self.on(heap, makes, shelf, &mut memory.parts, counts)?;
        }
        Ok(())
    }
}

impl List<'_, bool> {
    // The list on each dictionary with a bit shelf.
    pub(crate) fn on_bits(
        &self,
        heap: Global,
        memory: &mut Memory,
        counts: &mut Counts,
    ) -> Result<(), Stop> {
        let Memory { parts, bits } = memory;
        for makes in makes_with(ShelfMake::Bit) {
            let shelf = BitShelf::new(first(bits, self.sizes.bit_bytes));
            self.on(heap, makes, shelf, parts, counts)?;
        }
        Ok(())
    }
}

// The makes of map and store, with this shelf.
fn makes_with(shelf: ShelfMake) -> [Makes; 4] {
    let with = |map, store| Makes { map, store, shelf };
    [
        with(MapMake::Compact, StoreMake::Plain),
        with(MapMake::Compact, StoreMake::Grouped),
        with(MapMake::Sibling, StoreMake::Plain),
        with(MapMake::Sibling, StoreMake::Grouped),
    ]
}
