ghost use Rattle.std.specs.Prelude.{◌≡◌, false, length, is_ok, MatchResult};

use crate::fill::Fill;
use crate::labels::{byte_of, meet_of};
use crate::layout::Layout;
use parts::store::{LabelStore, StoreFault};
use std::marker::PhantomData;
use tags::refusal::Refusal;

// A label store over lent bytes and a lent list of starts.
#[derive(Drop)]
pub struct LentStore<'a, L: Layout> {
    pub(crate) bytes: &'a mut [u8],
    pub(crate) starts: &'a mut [u32],
    pub(crate) fill: Fill,
    pub(crate) layout: PhantomData<L>,
    ghost sound: { L.Sound bytes.now starts.now fill } by { L.sound_once bytes.now starts.now fill },
}

impl<'a, L: Layout> LentStore<'a, L> {
    ghost use Rattle.label_stores.specs.Sizes.{sizes_answer, new_where};
    ghost use Rattle.label_stores.specs.Meaning.{meaning_by, LabelOf, NoLabelAt};

    // Whether a store takes memory of these sizes.
    pub fn check_sizes(bytes: usize, starts: usize) -> Result<(), Refusal>
        ensures { result ≡ sizes_answer (L.takes bytes starts) }
    {
        L::fresh(bytes, starts)
            .map(|_| ())
            .ok_or(Refusal::StoreMemory)
    }

    // A store with no labels. Made of memory that it does not take, it has no places and byte room 0.
    pub fn new(bytes: &'a mut [u8], starts: &'a mut [u32]) -> LentStore<'a, L>
        ensures meaning { meaning_by L.labels result ≡ new_where (L.takes (length bytes.old) (length starts.old)) (L.room (length bytes.old) (length starts.old)) (L.places (length bytes.old) (length starts.old)) }
        ensures bytes { result.bytes.now ≡ bytes.old }
        ensures starts { result.starts.now ≡ starts.old }
        ensures lenders { (result.bytes.ghost_name ≡ bytes.entry.ghost_name) × (result.starts.ghost_name ≡ starts.entry.ghost_name) }
    {
        let fill = L::fresh(bytes.len(), starts.len()).unwrap_or(Fill::new(0, 0));
        LentStore {
            bytes,
            starts,
            fill,
            layout: PhantomData,
        }
    }

    // The bytes of label v.
    fn label(&self, v: u32) -> Result<&[u8], StoreFault>
        ensures { MatchResult result (λ label. LabelOf (meaning_by L.labels self.now) v label.now) (λ fault. NoLabelAt (meaning_by L.labels self.now) v fault) }
    {
        if v >= self.count() {
            return Err(StoreFault::NoLabel);
        }
        Ok(L::span(self.bytes, self.starts, self.fill, v))
    }
}

impl<L: Layout> LabelStore for LentStore<'_, L> {
    ghost use Rattle.parts.specs.Stores.{append_answer, append_next};
    ghost use Rattle.label_stores.specs.Meaning.{meaning_by, bytes_next, starts_next};

    ghost meaning = { meaning_by L.labels };

    fn count(&self) -> u32 {
        self.fill.count
    }

    fn total(&self) -> u32 {
        self.fill.total
    }

    fn byte_room(&self) -> u32 {
        self.fill.room
    }

    fn places(&self) -> u32 {
        self.fill.places
    }

    fn append(&mut self, s: &[u8], from: usize) -> Result<(), StoreFault>
        ensures answer { result ≡ append_answer (meaning_by L.labels self.old) s.now from }
        ensures next { meaning_by L.labels self.new ≡ append_next (meaning_by L.labels self.old) s.now from }
        ensures kept { is_ok result ≡ false → self.new ≡ self.old }
        ensures bytes { self.new.bytes.now ≡ bytes_next L.bytes_with (meaning_by L.labels self.old) self.old.bytes.now s.now from }
        ensures starts { self.new.starts.now ≡ starts_next L.starts_with (meaning_by L.labels self.old) self.old.starts.now s.now from }
        ensures lenders { (self.new.bytes.ghost_name ≡ self.old.bytes.ghost_name) × (self.new.starts.ghost_name ≡ self.old.starts.ghost_name) }
    {
        self.fill.check_append(s.len(), from)?;
        self.fill = L::lay(self.bytes, self.starts, self.fill, &s[from..]);
        Ok(())
    }

    fn length(&self, v: u32) -> Result<usize, StoreFault> {
        self.label(v).map(|label| label.len())
    }

    fn byte(&self, v: u32, i: usize) -> Result<u8, StoreFault> {
        byte_of(self.label(v)?, i)
    }

    fn meet(&self, v: u32, s: &[u8], from: usize) -> Result<usize, StoreFault> {
        meet_of(self.label(v)?, s, from)
    }
}
