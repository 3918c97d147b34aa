use crate::beside::narrow;
use crate::random::Random;
use rules::answers::Call;
use shelves::counts::Counts as Tallied;
use std::alloc::{AllocError, Global};
use std::fmt::Debug;

// The most bytes that a buffer of a spell has: more than the longest tag.
pub(crate) const BUFFER: usize = 210;

// A kind of value that dictionaries hold in the trials.
pub(crate) trait Value: Copy + PartialEq + Debug {
    fn draw(random: &mut Random) -> Self;
}

impl Value for u32 {
    fn draw(random: &mut Random) -> u32 {
        random.number()
    }
}

impl Value for bool {
    fn draw(random: &mut Random) -> bool {
        random.bit()
    }
}

// The plain numbers of a tally.
impl Value for Tallied {
    fn draw(random: &mut Random) -> Tallied {
        let accepted = random.number() / 2;
        let rejected = random.number() / 2;
        Tallied {
            inserted: accepted.wrapping_add(rejected),
            accepted,
            rejected,
            takings: random.number(),
        }
    }
}

// How long a buffer is: as long as a word, one byte shorter, or of any length.
fn draw_buffer(random: &mut Random, word: &[u8]) -> usize {
    match random.up_to(3) {
        0 => random.up_to(BUFFER),
        1 => word.len().saturating_sub(1),
        _ => word.len(),
    }
}

// Mostly a ticket below a number.
fn draw_ticket(random: &mut Random, tickets: usize) -> u32 {
    if random.once_in(8) {
        return random.number();
    }
    narrow(random.up_to(tickets))
}

fn draw_call<'a, V: Value>(
    random: &mut Random,
    words: &'a [Vec<u8>],
    tickets: usize,
) -> Call<'a, V> {
    let tag = random.one_of(words).map_or(&[][..], |word| word.as_slice());
    match random.up_to(19) {
        0..=7 => Call::Enter {
            tag,
            value: V::draw(random),
        },
        8..=10 => Call::Find { tag },
        11..=13 => Call::Strike { tag },
        14 | 15 => Call::Change {
            tag,
            value: V::draw(random),
        },
        16..=18 => Call::Spell {
            ticket: draw_ticket(random, tickets),
            buffer: draw_buffer(random, tag),
        },
        _ => Call::Double,
    }
}

// So many random calls with these words, and at the end a find of each word.
pub(crate) fn draw_calls<'a, V: Value>(
    heap: Global,
    random: &mut Random,
    count: usize,
    words: &'a [Vec<u8>],
    tickets: usize,
) -> Result<Vec<Call<'a, V>>, AllocError> {
    let mut calls = Vec::new(heap);
    for _ in 0..count {
        calls.push(draw_call(random, words, tickets))?;
    }
    for tag in words {
        calls.push(Call::Find { tag })?;
    }
    Ok(calls)
}
