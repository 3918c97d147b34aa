ghost use Rattle.std.specs.Prelude.{◌≡◌, ◌<◌, ◌≤◌, false, length, is_ok, Some, None, Ok};
ghost use Rattle.rules.specs.declared.step.Step.TheVariants.{By32};
ghost use Rattle.rules.specs.Steps.{symbol_count};
ghost use Rattle.rules.specs.Tree.{child};
ghost use Rattle.parts.specs.Maps.{MapFacts, count_of, with_edge, add_answer, add_next, double_answer, double_next};
ghost use Rattle.parts.specs.Sizes.{power_for, PowerOf, size_answer, map_for};
ghost use Rattle.compact_map.specs.Memory.{memory_of};
ghost use Rattle.compact_map.specs.Meaning.{capacity, bytes_of, meaning_of};

use crate::hash::SYMBOL_BITS;
use crate::shape::CompactMap;
use crate::table::{Set, View};
use parts::map::NodeMap;
use parts::sizes::{check_size, power_for};
use tags::refusal::{MapFault, Refusal};

// Every symbol is below this, as `Step::symbol_count` says. A constant, by which keys are made and taken apart: a call in its
// place is no plainer.
const SYMBOL_COUNT: u32 = 1 << SYMBOL_BITS;

// Whether a map can be made in so many bytes: 14 × M, where M is 16, 32, up to 32,768.
pub fn check_bytes(len: usize) -> Result<(), Refusal>
    ensures { result ≡ size_answer (power_for len 14) }
{
    check_size(len, 14)
}

// How many nodes there may be with so many slots.
fn room_of(slots: usize) -> u32
    requires { slots ≤ 32768 }
    ensures { result ≡ capacity slots }
{
    (9 * slots / 10) as u32
}

impl<'a> CompactMap<'a> {
    // A map with node 0 alone, its first room current. The bytes may hold anything.
    pub fn new(bytes: &'a mut [u8]) -> CompactMap<'a>
        ensures meaning { meaning_of result ≡ map_for capacity (power_for (length bytes.old) 14) }
        ensures memory { bytes_of result ≡ memory_of By32 (meaning_of result) bytes.old }
        ensures lender { result.bytes.ghost_name ≡ bytes.entry.ghost_name }
    {
        match power_for(bytes.len(), 14) {
            Some(top) => CompactMap::empty(bytes, top),
            None => CompactMap::unused(bytes),
        }
    }

    // A map whose sets have 2^top slots, with the first 16 in use.
    fn empty(bytes: &'a mut [u8], top: u32) -> CompactMap<'a>
        requires { (Some top ≡ power_for (length bytes.old) 14) × (PowerOf (length bytes.old) 14 (Some top)) }
        ensures meaning { meaning_of result ≡ map_for capacity (power_for (length bytes.old) 14) }
        ensures memory { bytes_of result ≡ memory_of By32 (meaning_of result) bytes.old }
        ensures lender { result.bytes.ghost_name ≡ bytes.entry.ghost_name }
    {
        let set = Set {
            log: 4,
            slots: 16,
            start: 0,
            large: bytes.len() / 14,
        };
        set.clear(bytes);
        CompactMap {
            bytes,
            set,
            top,
            later: 0,
        }
    }

    // A map that uses no byte. Its set of 2 slots has the room 1 and no next one, so that `room`, `last_room` and `double`
    // need no case of their own, as an `Option` would ask of them. `find` asks `later == 0` in any case.
    fn unused(bytes: &'a mut [u8]) -> CompactMap<'a>
        requires { PowerOf (length bytes.old) 14 None }
        ensures meaning { meaning_of result ≡ map_for capacity (power_for (length bytes.old) 14) }
        ensures memory { bytes_of result ≡ memory_of By32 (meaning_of result) bytes.old }
        ensures lender { result.bytes.ghost_name ≡ bytes.entry.ghost_name }
    {
        CompactMap {
            bytes,
            set: Set {
                log: 1,
                slots: 2,
                start: 12,
                large: 2,
            },
            top: 1,
            later: 0,
        }
    }

    // The slots and places, to be read.
    fn view(&self) -> View<'_>
        requires { 2 < self.now.set.large }
        ensures bytes { result.bytes.now ≡ bytes_of self.now }
        ensures set { result.set ≡ self.now.set }
    {
        View {
            bytes: self.bytes,
            set: self.set,
        }
    }

    // The child of node u by the symbol c.
    fn find(&self, u: u32, c: u16) -> Option<u32>
        requires { (u < count_of (meaning_of self.now)) × (c < symbol_count By32) }
        ensures { result ≡ child (meaning_of self.now).edges u c }
    {
        if self.later == 0 {
            return None;
        }
        self.view()
            .find(u * SYMBOL_COUNT + u32::from(c))
            .map(u32::from)
    }

    // Makes the child of node u by the symbol c, where there is none and the room is not full.
    fn insert(&mut self, u: u32, c: u16)
        requires { (u < count_of (meaning_of self.old)) × ((c < symbol_count By32) × ((count_of (meaning_of self.old) < (meaning_of self.old).room) × (child (meaning_of self.old).edges u c ≡ None))) }
        ensures next { meaning_of self.new ≡ with_edge (meaning_of self.old) u c }
        ensures memory { bytes_of self.new ≡ memory_of By32 (meaning_of self.new) (bytes_of self.old) }
        ensures lender { self.new.bytes.ghost_name ≡ self.old.bytes.ghost_name }
    {
        let key = u * SYMBOL_COUNT + u32::from(c);
        self.set.put(self.bytes, self.later + 1, key);
        self.later += 1;
    }

    // Makes the next room current, where there is one, and answers it.
    fn widen(&mut self) -> u32
        requires { self.old.set.log < self.old.top }
        ensures answer { Ok result ≡ double_answer (meaning_of self.old) }
        ensures next { meaning_of self.new ≡ double_next (meaning_of self.old) }
        ensures memory { bytes_of self.new ≡ memory_of By32 (meaning_of self.new) (bytes_of self.old) }
        ensures lender { self.new.bytes.ghost_name ≡ self.old.bytes.ghost_name }
    {
        self.set = self.set.double(self.bytes, self.later);
        self.room()
    }
}

impl NodeMap for CompactMap<'_> {
    ghost meaning = { meaning_of };

    fn count(&self) -> u32
        ensures count { result ≡ count_of (meaning_of self.now) }
        ensures facts { MapFacts By32 (meaning_of self.now) }
        ensures memory { bytes_of self.now ≡ memory_of By32 (meaning_of self.now) (bytes_of self.now) }
    {
        self.later as u32 + 1
    }

    fn room(&self) -> u32 {
        room_of(self.set.slots)
    }

    fn last_room(&self) -> u32 {
        room_of(self.set.large)
    }

    // `child` and the heads of `add` and `double` read alike in both maps: for one `child` the trait would need the search,
    // which is private and supposes a checked pair, and the clauses of the others on the lent memory differ by make.
    fn child(&self, u: u32, c: u16) -> Result<Option<u32>, MapFault> {
        self.check_pair(u, c)?;
        Ok(self.find(u, c))
    }

    fn add(&mut self, u: u32, c: u16) -> Result<u32, MapFault>
        ensures answer { result ≡ add_answer By32 (meaning_of self.old) u c }
        ensures next { meaning_of self.new ≡ add_next By32 (meaning_of self.old) u c }
        ensures kept { is_ok result ≡ false → self.new ≡ self.old }
        ensures memory { bytes_of self.new ≡ memory_of By32 (meaning_of self.new) (bytes_of self.old) }
        ensures lender { self.new.bytes.ghost_name ≡ self.old.bytes.ghost_name }
    {
        self.check_pair(u, c)?;
        if self.find(u, c).is_some() {
            return Err(MapFault::PairTaken);
        }
        let v = self.later as u32 + 1;
        if v >= room_of(self.set.slots) {
            return Err(MapFault::RoomFull);
        }
        self.insert(u, c);
        Ok(v)
    }

    fn up(&self, v: u32) -> Result<(u32, u16), MapFault> {
        if v == 0 || v as usize > self.later {
            return Err(MapFault::NoNode);
        }
        let key = self.view().key_of(v as usize);
        Ok((key / SYMBOL_COUNT, (key % SYMBOL_COUNT) as u16))
    }

    fn double(&mut self) -> Result<u32, MapFault>
        ensures answer { result ≡ double_answer (meaning_of self.old) }
        ensures next { meaning_of self.new ≡ double_next (meaning_of self.old) }
        ensures kept { is_ok result ≡ false → self.new ≡ self.old }
        ensures memory { bytes_of self.new ≡ memory_of By32 (meaning_of self.new) (bytes_of self.old) }
        ensures lender { self.new.bytes.ghost_name ≡ self.old.bytes.ghost_name }
    {
        if self.set.log == self.top {
            return Err(MapFault::LastRoom);
        }
        Ok(self.widen())
    }
}
