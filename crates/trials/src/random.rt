use rand::rngs::SmallRng;
use rand::seq::IndexedRandom;
use rand::{RngExt, SeedableRng};
use std::alloc::{AllocError, Global};

// Random choices, the same for the same seed.
#[derive(Drop)]
pub(crate) struct Random(SmallRng);

impl Random {
    pub(crate) fn new(seed: u64) -> Random {
        Random(SmallRng::seed_from_u64(seed))
    }

    // A number from 0 to the most.
    pub(crate) fn up_to(&mut self, most: usize) -> usize {
        self.0.random_range(0..=most)
    }

    pub(crate) fn between(&mut self, least: usize, most: usize) -> usize {
        least.saturating_add(self.up_to(most.saturating_sub(least)))
    }

    // True once in so many times.
    pub(crate) fn once_in(&mut self, times: usize) -> bool {
        self.up_to(times.saturating_sub(1)) == 0
    }

    pub(crate) fn bit(&mut self) -> bool {
        self.0.random()
    }

    pub(crate) fn number(&mut self) -> u32 {
        self.0.random()
    }

    pub(crate) fn byte(&mut self) -> u8 {
        self.0.random()
    }

    pub(crate) fn bytes(&mut self, heap: Global, count: usize) -> Result<Vec<u8>, AllocError> {
        (0..count).map(|_| self.byte()).collect(heap)
    }

    // One of these, or nothing where there is none.
    pub(crate) fn one_of<'a, T>(&mut self, of: &'a [T]) -> Option<&'a T> {
        of.choose(&mut self.0)
    }
}
