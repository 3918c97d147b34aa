// How much memory a list's dictionaries are lent, and what the rules say of it. Nothing here is taken from the makes.
use crate::random::Random;
use std::alloc::{AllocError, Global};

#[derive(Clone, Copy, PartialEq, Eq, Debug)]
pub(crate) enum MapMake {
    Compact,
    Sibling,
}

#[derive(Clone, Copy, PartialEq, Eq, Debug)]
pub(crate) enum StoreMake {
    Plain,
    Grouped,
}

#[derive(Clone, Copy, PartialEq, Eq, Debug)]
pub(crate) enum ShelfMake {
    Record,
    Bit,
}

// Which makes a dictionary has.
#[derive(Clone, Copy, PartialEq, Eq, Debug)]
pub(crate) struct Makes {
    pub(crate) map: MapMake,
    pub(crate) store: StoreMake,
    pub(crate) shelf: ShelfMake,
}

// The numbers of slots that a compact map has, and of records that a sibling map has.
const SLOTS: [usize; 12] = [
    16, 32, 64, 128, 256, 512, 1_024, 2_048, 4_096, 8_192, 16_384, 32_768,
];

// How many bytes, records, starts, groups and places are lent.
#[derive(Clone, Copy, PartialEq, Eq, Debug)]
pub(crate) struct Sizes {
    pub(crate) slot_bytes: usize,
    pub(crate) records: usize,
    pub(crate) plain_bytes: usize,
    pub(crate) starts: usize,
    pub(crate) grouped_bytes: usize,
    pub(crate) groups: usize,
    pub(crate) places: usize,
    pub(crate) bit_bytes: usize,
}

// Places for so many slots: about as many as the last room of a sibling map or of a compact map, or more than enough.
fn draw_places(random: &mut Random, slots: usize) -> usize {
    let last = match random.up_to(5) {
        0 => slots,
        1 => slots.saturating_mul(9) / 10,
        _ => return random.between(slots, slots.saturating_add(9)),
    };
    random.between(last.saturating_sub(1), last.saturating_add(1))
}

// In what state the parts are when a dictionary is opened over them.
#[derive(Clone, Copy, PartialEq, Eq, Debug)]
pub(crate) enum State {
    New,
    // The map has a node besides node 0, where its room is larger than 1.
    NodeMade,
    // The store has a label, where it has a place.
    LabelThere,
}

impl State {
    // One time in eight the parts are in use.
    pub(crate) fn draw(random: &mut Random) -> State {
        match random.up_to(15) {
            0 => State::NodeMade,
            1 => State::LabelThere,
            _ => State::New,
        }
    }
}

impl Sizes {
    // The largest that are drawn.
    pub(crate) const LARGEST: Sizes = Sizes {
        slot_bytes: 7_168,
        records: 513,
        plain_bytes: 40_000,
        starts: 521,
        grouped_bytes: 40_528,
        groups: 33,
        places: 521,
        bit_bytes: 131,
    };

    // Sizes for so many slots that mostly fit one another.
    fn near(random: &mut Random, slots: usize) -> Sizes {
        let bytes = match random.up_to(2) {
            0 => random.between(1, slots.saturating_mul(4)),
            1 => random.between(slots.saturating_mul(4), slots.saturating_mul(20)),
            _ => 40_000,
        };
        let groups = random.between(slots / 16, slots / 16 + 1);
        Sizes {
            slot_bytes: slots.saturating_mul(14),
            records: slots,
            plain_bytes: bytes,
            starts: draw_places(random, slots),
            grouped_bytes: bytes.saturating_add(groups.saturating_mul(16)),
            groups,
            places: draw_places(random, slots),
            bit_bytes: random.between(slots / 4, slots / 4 + 3),
        }
    }

    // One size is drawn anew, mostly to be one that is not taken or too small for the others.
    fn spoil(&mut self, random: &mut Random) {
        match random.up_to(6) {
            0 => self.slot_bytes = random.up_to(self.slot_bytes),
            1 => self.records = self.records.saturating_add(1),
            2 => (self.plain_bytes, self.grouped_bytes) = (0, self.groups.saturating_mul(16)),
            3 => self.starts = random.up_to(15),
            4 => self.groups = random.up_to(1),
            5 => self.places = random.up_to(15),
            _ => self.bit_bytes = random.up_to(3),
        }
    }

    // Sizes for so many slots, one time in eight spoilt.
    pub(crate) fn draw(random: &mut Random, slots: usize) -> Sizes {
        let mut sizes = Sizes::near(random, slots);
        if random.once_in(8) {
            sizes.spoil(random);
        }
        sizes
    }

    // How many slots or records a map has, where its size is not refused.
    pub(crate) fn slots(&self, make: MapMake) -> Option<usize> {
        let slots = match make {
            MapMake::Compact if self.slot_bytes % 14 == 0 => self.slot_bytes / 14,
            MapMake::Compact => 0,
            MapMake::Sibling => self.records,
        };
        SLOTS.iter().copied().find(|n| *n == slots)
    }

    // A store's byte room and places, where its sizes are not refused.
    pub(crate) fn store(&self, make: StoreMake) -> Option<(usize, usize)> {
        match make {
            StoreMake::Plain => {
                let taken = matches!(self.plain_bytes, 1..=1_048_576);
                (taken && matches!(self.starts, 1..=32_768)).then_some((
                    self.plain_bytes,
                    self.starts,
                ))
            }
            StoreMake::Grouped => {
                let places = self.groups.saturating_mul(16);
                let room = self.grouped_bytes.saturating_sub(places);
                let taken = room > 0 && self.grouped_bytes <= 1_081_344;
                (taken && matches!(self.groups, 1..=2_048)).then_some((room, places))
            }
        }
    }

    // A shelf's places, where its size is not refused.
    pub(crate) fn shelf(&self, make: ShelfMake) -> Option<usize> {
        match make {
            ShelfMake::Record => matches!(self.places, 1..=32_768).then_some(self.places),
            ShelfMake::Bit => {
                matches!(self.bit_bytes, 1..=8_192).then_some(self.bit_bytes.saturating_mul(4))
            }
        }
    }
}

// The rooms of a map: one of 1 where its size is refused.
pub(crate) fn rooms(heap: Global, make: MapMake, sizes: &Sizes) -> Result<Vec<usize>, AllocError> {
    let Some(slots) = sizes.slots(make) else {
        return Ok(vec![in heap; 1]?);
    };
    SLOTS
        .iter()
        .copied()
        .filter(|n| *n <= slots)
        .map(|n| match make {
            MapMake::Compact => n.saturating_mul(9) / 10,
            MapMake::Sibling => n,
        })
        .collect(heap)
}
