ghost use Rattle.std.specs.Prelude.{◌≡◌, ℕ, ◌+◌, ◌*◌, ◌/◌, ◌%◌, ◌^◌, ◌<◌, ◌≤◌, length};
ghost use Rattle.rules.specs.declared.step.Step.TheVariants.{By32};
ghost use Rattle.compact_map.specs.Hash.{home_of, quotient_of};
ghost use Rattle.compact_map.specs.Slots.{displacement_in};
ghost use Rattle.compact_map.specs.Layout.{onward};
ghost use Rattle.compact_map.specs.Memory.{set_start};
ghost use Rattle.compact_map.specs.Table.{slot_at, place_at, key_in, Taken, Full, Finds, Vacant, FindsEmpty, Placed, Filled, Stored};
ghost use Rattle.compact_map.specs.Reads.{Reads};

use crate::bytes::{read_number, write_number};
use crate::hash::{SYMBOL_BITS, hash, unhash};
use crate::slot::{Slot, TAKEN_HEAD, head, number_in, read_head};

// The slots in use, 2^log of them, six bytes each from `start` on. They lie in one of two sets of `large` slots, which
// take turns; behind both sets each node has two bytes for its slot.
#[derive(Clone, Copy)]
pub(crate) struct Set {
    pub(crate) log: u32,
    pub(crate) slots: usize,
    pub(crate) start: usize,
    pub(crate) large: usize,
    ghost wide: { slots ≡ 2 ^ log },
    ghost small: { log ≤ 15 },
    ghost reach: { slots ≤ large },
    ghost most: { large ≤ 32768 },
    ghost begins: { start ≡ set_start log large },
    ghost fits: { start + 6 * slots ≤ 12 * large },
}

// The bytes are handed in beside the set: `double` works on the same ones with two sets in turn.
impl Set {
    // The slot that i is, counted on past the last slot from slot 0 again.
    fn around(self, i: usize) -> usize
        ensures { result ≡ i % self.slots }
    {
        i & (self.slots - 1)
    }

    // Where the search for a key begins, and what is kept of the key there.
    fn home_and_quotient(self, key: u32) -> (usize, u16)
        ensures home { result.0 ≡ home_of By32 self.log key }
        ensures quotient { result.1 ≡ quotient_of By32 self.log key }
    {
        let h = hash(SYMBOL_BITS + self.log, key) as usize;
        (self.around(h), (h >> self.log) as u16)
    }

    // Sets node v, which has this key, into the first empty slot from its home on.
    pub(crate) fn put(self, bytes: &mut [u8], v: usize, key: u32)
        requires inside { 14 * self.large ≤ length bytes.old }
        requires node { v < self.large }
        requires vacant { Vacant (2 ^ self.log) (slot_at bytes.old (set_start self.log self.large)) (home_of By32 self.log key) }
        ensures { Placed By32 self.log self.large v key bytes.old bytes.new }
    {
        let (home, quotient) = self.home_and_quotient(key);
        let view = View { bytes, set: self };
        let d = view.find_empty(home).unwrap();
        let at = self.around(home + d);
        let slot = Slot {
            quotient,
            displacement: d as u16,
            number: v as u16,
        };
        write_number::<6>(bytes, self.start + 6 * at, slot.pack());
        write_number::<2>(bytes, 12 * self.large + 2 * v, at as u64);
    }

    // Empties the slots.
    pub(crate) fn clear(self, bytes: &mut [u8])
        requires { 12 * self.large ≤ length bytes.old }
        ensures { (K : ℕ → ℕ) → Filled By32 self.log self.large K 0 bytes.old bytes.new }
    {
        bytes[self.start..self.start + 6 * self.slots].fill(0);
    }

    // Sets the nodes 1 to n anew, in number order, into twice as many slots in the other set, which are then in use.
    pub(crate) fn double(self, bytes: &mut [u8], n: usize) -> Set
        requires inside { 14 * self.large ≤ length bytes.old }
        requires wider { 2 * self.slots ≤ self.large }
        requires small { self.log < 15 }
        requires room { n < self.slots }
        requires stored { Stored By32 self.log self.large n bytes.old }
        ensures log { result.log ≡ self.log + 1 }
        ensures large { result.large ≡ self.large }
        ensures filled { Filled By32 (self.log + 1) self.large (key_in By32 bytes.old self.log self.large) n bytes.old bytes.new }
    {
        let to = Set {
            log: self.log + 1,
            slots: 2 * self.slots,
            start: 6 * self.large - self.start,
            large: self.large,
        };
        to.clear(bytes);
        for v in 1..=n {
            let key = View { bytes, set: self }.key_of(v);
            to.put(bytes, v, key);
        }
        to
    }
}

// The bytes of both sets and of the nodes' places, to be read by the slots in use.
#[derive(Clone, Copy)]
pub(crate) struct View<'b> {
    pub(crate) bytes: &'b [u8],
    pub(crate) set: Set,
    ghost inside: { 14 * set.large ≤ length bytes.now },
}

impl View<'_> {
    // The six bytes of slot i, as a number.
    fn word(&self, i: usize) -> u64
        requires { i < self.now.set.slots }
        ensures { result ≡ slot_at self.now.bytes.now self.now.set.start i }
    {
        read_number::<6>(self.bytes, self.set.start + 6 * i)
    }

    // What slot i holds.
    fn slot(&self, i: usize) -> Option<Slot>
        requires { i < self.now.set.slots }
        ensures { Reads (slot_at self.now.bytes.now self.now.set.start i) result }
    {
        Slot::unpack(self.word(i))
    }

    // The head of slot i.
    fn head(&self, i: usize) -> u32
        requires { i < self.now.set.slots }
        ensures is { result ≡ slot_at self.now.bytes.now self.now.set.start i / 2 ^ 19 }
        ensures short { result < 2 ^ 29 }
    {
        read_head(self.bytes, self.set.start + 6 * i)
    }

    // The number in the slot that holds this home and quotient. A loop over the distance, since it ends in two ways: at an
    // empty slot, and where the key is.
    fn find_from(&self, home: usize, quotient: u16) -> Option<u16>
        requires home { home < self.now.set.slots }
        requires full { Full self.now.set.slots (slot_at self.now.bytes.now self.now.set.start) }
        ensures { Finds self.now.set.slots (slot_at self.now.bytes.now self.now.set.start) home quotient result }
    {
        for d in 0..self.set.slots {
            let at = self.set.around(home + d);
            let found = self.head(at);
            if found == head(quotient, d) {
                return Some(number_in(self.word(at)));
            }
            if found < TAKEN_HEAD {
                return None;
            }
        }
        None
    }

    // How far on from home the first empty slot is.
    fn find_empty(&self, home: usize) -> Option<usize>
        requires { home < self.now.set.slots }
        ensures { FindsEmpty self.now.set.slots (slot_at self.now.bytes.now self.now.set.start) home result }
    {
        (0..self.set.slots).find(|&d| self.slot(self.set.around(home + d)).is_none())
    }

    // The node that has the key.
    pub(crate) fn find(&self, key: u32) -> Option<u16>
        requires { Full (2 ^ self.now.set.log) (slot_at self.now.bytes.now (set_start self.now.set.log self.now.set.large)) }
        ensures { Finds (2 ^ self.now.set.log) (slot_at self.now.bytes.now (set_start self.now.set.log self.now.set.large)) (home_of By32 self.now.set.log key) (quotient_of By32 self.now.set.log key) result }
    {
        let (home, quotient) = self.set.home_and_quotient(key);
        self.find_from(home, quotient)
    }

    // The key of node v.
    pub(crate) fn key_of(&self, v: usize) -> u32
        requires node { v < self.now.set.large }
        requires place { place_at self.now.bytes.now (12 * self.now.set.large) v < 2 ^ self.now.set.log }
        requires taken { Taken (slot_at self.now.bytes.now (set_start self.now.set.log self.now.set.large) (place_at self.now.bytes.now (12 * self.now.set.large) v)) }
        requires near { displacement_in (slot_at self.now.bytes.now (set_start self.now.set.log self.now.set.large) (place_at self.now.bytes.now (12 * self.now.set.large) v)) < 2 ^ self.now.set.log }
        ensures { result ≡ key_in By32 self.now.bytes.now self.now.set.log self.now.set.large v }
    {
        let set = self.set;
        let at = read_number::<2>(self.bytes, 12 * set.large + 2 * v) as usize;
        let slot = self.slot(at).unwrap();
        let home = set.around(at + set.slots - usize::from(slot.displacement));
        unhash(
            SYMBOL_BITS + set.log,
            (usize::from(slot.quotient) * set.slots + home) as u32,
        )
    }
}
