// For the program in speed/, which measures the dictionary beside others: tags entered and found, over lent memory.

#![tactic(auto)]

ghost use Rattle.std.specs.Prelude.{◌≡◌, length};
ghost use Rattle.std.specs.Iterator.{at_most};

use compact_map::shape::CompactMap;
use dictionary::calls::DictionaryCalls;
use dictionary::dictionary::{Dictionary, Parts};
use label_stores::grouped::GroupedStore;
use label_stores::plain::PlainStore;
use parts::map::NodeMap;
use parts::shelf::Shelf;
use parts::store::LabelStore;
use rules::answers::Found;
use shelves::record::RecordShelf;
use tags::refusal::Refusal;

const PLACES: usize = 29_491;

// What was done, for comparing with what should have been.
#[repr(C)]
#[derive(Clone, Copy)]
pub struct Done {
    pub entered: u32,
    pub found: u32,
    pub moves: u32,
    pub nodes: u32,
    pub label_bytes: u32,
}

// Tags behind one another in a text, and where each ends.
#[derive(Clone, Copy)]
struct Tags<'a> {
    text: &'a [u8],
    ends: &'a [u32],
}

impl<'a> Tags<'a> {
    fn iter(self) -> TagIter<'a>
        ensures { result.left ≡ self.entry }
    {
        TagIter {
            from: 0,
            left: self,
        }
    }
}

// The tags that are left, of which the first begins at a place of the text.
#[derive(Drop)]
struct TagIter<'a> {
    from: usize,
    left: Tags<'a>,
}

impl<'a> Iterator for TagIter<'a> {
    type Item = &'a [u8];

    ghost remaining = { λ s. at_most (length s.left.ends.now) };

    fn next(&mut self) -> Option<&'a [u8]> {
        let (end, ends) = self.left.ends.split_first()?;
        let to = *end as usize;
        let tag = self.left.text.get(self.from..to).unwrap_or(&[]);
        self.from = to;
        self.left.ends = ends;
        Some(tag)
    }
}

// Enters a tag, in a larger room where the current one is full.
fn enter_growing<D: DictionaryCalls<Value = u32>>(d: &mut D, tag: &[u8], value: u32) -> bool {
    for _ in 0..2 {
        match d.enter(tag, value) {
            Err(Refusal::NoNodeRoom) => {
                let _ = d.double();
            }
            answer => return answer.is_ok(),
        }
    }
    false
}

// The value of the tag with this number: the number, wrapped.
fn value_of(number: usize) -> u32 {
    (number & 0xffff_ffff) as u32
}

// Enters every tag, each with the value of its number, and answers how many were entered.
fn enter_all<D: DictionaryCalls<Value = u32>>(d: &mut D, tags: Tags<'_>) -> u32 {
    let mut entered = 0u32;
    for (number, tag) in tags.iter().enumerate() {
        if enter_growing(d, tag, value_of(number)) {
            entered = entered.wrapping_add(1);
        }
    }
    entered
}

// How many tags were found with their value, and the moves of all finds.
#[derive(Clone, Copy, Default)]
struct Finds {
    found: u32,
    moves: u32,
}

impl Finds {
    // Finds every tag.
    fn add_all<D: DictionaryCalls<Value = u32>>(&mut self, d: &D, tags: Tags<'_>) {
        for (number, tag) in tags.iter().enumerate() {
            if let Ok(
                Found {
                    held: Some(held),
                    moves,
                },
            ) = d.find(tag)
            {
                self.found = self
                    .found
                    .wrapping_add(u32::from(held.value == value_of(number)));
                self.moves = self.moves.wrapping_add(moves);
            }
        }
    }
}

// Enters all tags, then finds all, so many times. The parts come one by one, as `check_parts` says.
fn measure<M: NodeMap + Drop, L: LabelStore + Drop, S: Shelf<Value = u32> + Drop>(
    map: M,
    store: L,
    shelf: S,
    tags: Tags<'_>,
    rounds: u32,
) -> Done {
    let mut d = Dictionary::new(Parts { map, store, shelf });
    let entered = enter_all(&mut d, tags);
    let mut finds = Finds::default();
    for _ in 0..rounds {
        finds.add_all(&d, tags);
    }
    Done {
        entered,
        found: finds.found,
        moves: finds.moves,
        nodes: d.nodes(),
        label_bytes: d.label_bytes(),
    }
}

// Over a compact map, this store and amounts.
fn measure_with<L: LabelStore + Drop>(
    map: &mut [u8],
    store: L,
    tags: Tags<'_>,
    rounds: u32,
) -> Done {
    let mut amounts = [None; PLACES];
    let map = CompactMap::new(map);
    let shelf = RecordShelf::new(&mut amounts);
    measure(map, store, shelf, tags, rounds)
}

// With a plain store.
#[unsafe(no_mangle)]
pub extern "C" fn walnutyore_speed_plain(
    map: &mut [u8],
    labels: &mut [u8],
    starts: &mut [u32],
    text: &[u8],
    ends: &[u32],
    rounds: u32,
) -> Done {
    let store = PlainStore::new(labels, starts);
    measure_with(map, store, Tags { text, ends }, rounds)
}

// With a grouped store.
#[unsafe(no_mangle)]
pub extern "C" fn walnutyore_speed_grouped(
    map: &mut [u8],
    labels: &mut [u8],
    starts: &mut [u32],
    text: &[u8],
    ends: &[u32],
    rounds: u32,
) -> Done {
    let store = GroupedStore::new(labels, starts);
    measure_with(map, store, Tags { text, ends }, rounds)
}
