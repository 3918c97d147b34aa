// The random lists.
use crate::calls::{Value, draw_calls};
use crate::counts::Counts;
use crate::makes::{List, Memory};
use crate::random::Random;
use crate::sizes::{Sizes, State};
use crate::stop::Stop;
use crate::words::draw_words;
use rules::answers::Call;
use shelves::counts::Counts as Tallied;
use std::alloc::Global;

// How many slots the largest room of a list takes. One list in forty is long.
fn draw_slots(random: &mut Random) -> usize {
    if random.once_in(40) {
        return 512;
    }
    *random.one_of(&[16, 32, 64]).unwrap_or(&16)
}

// A kind of value, by the shelves that hold such values.
trait Shelved: Value {
    fn run(
        list: &List<'_, Self>,
        heap: Global,
        places: &mut [Option<Self>],
        memory: &mut Memory,
        counts: &mut Counts,
    ) -> Result<(), Stop> {
        list.on_records(heap, places, memory, counts)
    }
}

impl Shelved for u32 {}

impl Shelved for Tallied {}

impl Shelved for bool {
    fn run(
        list: &List<'_, bool>,
        heap: Global,
        places: &mut [Option<bool>],
        memory: &mut Memory,
        counts: &mut Counts,
    ) -> Result<(), Stop> {
        list.on_records(heap, places, memory, counts)?;
        list.on_bits(heap, memory, counts)
    }
}

// The list with this number, on every dictionary that holds values of this kind.
fn run_list<V: Shelved>(
    heap: Global,
    number: u64,
    places: &mut [Option<V>],
    memory: &mut Memory,
    counts: &mut Counts,
) -> Result<(), Stop> {
    let mut random = Random::new(number);
    let slots = draw_slots(&mut random);
    let count = random.between(slots, slots.saturating_mul(2));
    let words = draw_words(heap, &mut random, count)?;
    let count = random.between(count, count.saturating_mul(3));
    let calls: Vec<Call<'_, V>> = draw_calls(heap, &mut random, count, &words, slots)?;
    let list = List {
        number,
        calls: &calls,
        sizes: Sizes::draw(&mut random, slots),
        state: State::draw(&mut random),
    };
    V::run(&list, heap, places, memory, counts)
}

// Runs the lists with the numbers from 0 on, up to the first difference.
pub(crate) fn run_lists(heap: Global, lists: u64, counts: &mut Counts) -> Result<(), Stop> {
    let mut memory = Memory::new(heap, &mut Random::new(0))?;
    let most = Sizes::LARGEST.places;
    let mut amounts = vec![in heap; Some(7); most]?;
    let mut tallies = vec![in heap; None; most]?;
    let mut answers = vec![in heap; Some(true); most]?;
    for number in 0..lists {
        match number % 3 {
            0 => run_list::<u32>(heap, number, &mut amounts, &mut memory, counts)?,
            1 => run_list::<Tallied>(heap, number, &mut tallies, &mut memory, counts)?,
            _ => run_list::<bool>(heap, number, &mut answers, &mut memory, counts)?,
        }
        counts.lists = counts.lists.saturating_add(1);
    }
    Ok(())
}
