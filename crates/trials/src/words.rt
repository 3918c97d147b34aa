// The bytes that calls are made with: mostly tags that begin like one another, and some that are none.
use crate::random::Random;
use std::alloc::{AllocError, Global};

// The most bytes that a tag has.
const LONGEST: usize = 200;

// How a tag goes on after the part that it shares with an earlier one.
#[derive(Clone, Copy, PartialEq, Eq, Debug)]
pub(crate) enum Style {
    // A few letters, of which there are two: rows with many owners.
    Letters,
    // One letter up to 200 times, around the multiples of the step length above all: step nodes.
    Stretches,
    // Any bytes that a tag has.
    Bytes,
}

impl Style {
    pub(crate) fn draw(random: &mut Random) -> Style {
        match random.up_to(2) {
            0 => Style::Letters,
            1 => Style::Stretches,
            _ => Style::Bytes,
        }
    }

    fn length(self, random: &mut Random) -> usize {
        match (self, random.up_to(3)) {
            (Style::Letters, _) => random.between(1, 6),
            (Style::Stretches, 0) => random.between(1, 8),
            (Style::Stretches, 1 | 2) => {
                let near = random.between(1, 6).saturating_mul(32);
                random.between(near.saturating_sub(2), near.saturating_add(2))
            }
            (Style::Bytes, 0 | 1) => random.between(1, 20),
            _ => random.between(1, LONGEST),
        }
    }

    fn byte(self, random: &mut Random) -> u8 {
        match self {
            Style::Letters => *random.one_of(b"ab").unwrap_or(&b'a'),
            Style::Stretches if random.once_in(60) => b'b',
            Style::Stretches => b'a',
            Style::Bytes => random.byte().clamp(1, 254),
        }
    }
}

// The bytes that no tag has.
const BAD: [u8; 2] = [0, 255];

// Takes from a tag what makes it one: its bytes, its length, or the range of a byte.
fn spoil(random: &mut Random, word: &mut Vec<u8>) -> Result<(), AllocError> {
    match random.up_to(4) {
        0 => word.clear(),
        1 | 2 => word.resize(random.between(201, 210), b'a')?,
        _ => {}
    }
    if random.bit() {
        let place = random.up_to(word.len().saturating_sub(1));
        let bad = *random.one_of(&BAD).unwrap_or(&0);
        if let Some(byte) = word.get_mut(place) {
            *byte = bad;
        }
    }
    Ok(())
}

// A word that begins like one of those before it.
fn draw_word(
    heap: Global,
    random: &mut Random,
    style: Style,
    before: &[Vec<u8>],
) -> Result<Vec<u8>, AllocError> {
    let mut word = match random.one_of(before) {
        Some(earlier) if !random.once_in(8) => earlier.clone()?,
        _ => Vec::new(heap),
    };
    word.truncate(random.up_to(word.len()));
    for _ in 0..style.length(random) {
        word.push(style.byte(random))?;
    }
    word.truncate(LONGEST);
    Ok(word)
}

// As many words. One in twelve is drawn to be spoilt, and a fifth of these stay as they are.
pub(crate) fn draw_words(
    heap: Global,
    random: &mut Random,
    count: usize,
) -> Result<Vec<Vec<u8>>, AllocError> {
    let style = Style::draw(random);
    let mut words: Vec<Vec<u8>> = Vec::new(heap);
    for _ in 0..count {
        let word = draw_word(heap, random, style, &words)?;
        words.push(word)?;
    }
    for word in &mut words {
        if random.once_in(12) {
            spoil(random, word)?;
        }
    }
    Ok(words)
}
