// The calls that only check, beside what the rules say: sizes of lent memory, and tallies.
use crate::counts::Counts;
use crate::random::Random;
use crate::sizes::{MapMake, ShelfMake, Sizes, StoreMake};
use crate::stop::Stop;
use label_stores::grouped::GroupedStore;
use label_stores::plain::PlainStore;
use shelves::counts::Counts as Tallied;
use shelves::tally::{Tally, check_tally};
use shelves::{bit, record};
use std::alloc::Global;
use std::fmt::Debug;
use tags::refusal::Refusal;

// How often each check is tried.
const TRIES: u32 = 20_000;

// A size at one of the limits, next to it, or any below twice the limit.
fn draw_size(random: &mut Random, limits: &[usize]) -> usize {
    let limit = *random.one_of(limits).unwrap_or(&1);
    match random.up_to(5) {
        0 => random.up_to(limit.saturating_mul(2)),
        1 => limit.saturating_sub(1),
        2 => limit.saturating_add(1),
        _ => limit,
    }
}

fn draw_sizes(random: &mut Random) -> Sizes {
    let slots = draw_size(random, &[0, 8, 16, 48, 256, 32_768, 65_536]);
    let groups = draw_size(random, &[0, 1, 7, 2_048]);
    let grouped_bytes = if random.bit() {
        draw_size(random, &[1, 1_081_344])
    } else {
        groups.saturating_mul(16).saturating_add(random.up_to(2))
    };
    Sizes {
        slot_bytes: slots.saturating_mul(14).saturating_add(random.up_to(1)),
        records: slots,
        plain_bytes: draw_size(random, &[0, 1, 1_048_576]),
        starts: draw_size(random, &[0, 1, 32_768]),
        grouped_bytes,
        groups,
        places: draw_size(random, &[0, 1, 32_768]),
        bit_bytes: draw_size(random, &[0, 1, 8_192]),
    }
}

// What a check answers, and what the rules say: this refusal, or none.
#[derive(Clone, Copy, PartialEq, Eq, Debug)]
struct Checked {
    name: &'static str,
    answer: Result<(), Refusal>,
    taken: bool,
    number: u8,
}

// A check of a size of memory that is refused by this number.
fn size(name: &'static str, number: u8, answer: Result<(), Refusal>, taken: bool) -> Checked {
    Checked {
        name,
        answer,
        taken,
        number,
    }
}

// Every check of a size.
fn check_sizes(sizes: &Sizes) -> [Checked; 6] {
    let slots = |make| sizes.slots(make).is_some();
    let store = |make| sizes.store(make).is_some();
    let shelf = |make| sizes.shelf(make).is_some();
    let compact = compact_map::map::check_bytes(sizes.slot_bytes);
    let sibling = sibling_map::map::check_records(sizes.records);
    let plain = PlainStore::check_sizes(sizes.plain_bytes, sizes.starts);
    let grouped = GroupedStore::check_sizes(sizes.grouped_bytes, sizes.groups);
    let places = record::check_places(sizes.places);
    let bits = bit::check_bytes(sizes.bit_bytes);
    [
        size("compact map", 11, compact, slots(MapMake::Compact)),
        size("sibling map", 11, sibling, slots(MapMake::Sibling)),
        size("plain store", 12, plain, store(StoreMake::Plain)),
        size("grouped store", 12, grouped, store(StoreMake::Grouped)),
        size("record shelf", 12, places, shelf(ShelfMake::Record)),
        size("bit shelf", 12, bits, shelf(ShelfMake::Bit)),
    ]
}

// The check of a tally.
fn check_counts(counts: Tallied) -> [Checked; 1] {
    let sum = u64::from(counts.accepted).saturating_add(u64::from(counts.rejected));
    let taken = u64::from(counts.inserted) == sum;
    [size("tally", 14, check_tally(counts), taken)]
}

fn draw_counts(random: &mut Random) -> Tallied {
    let accepted = random.number();
    let rejected = random.number();
    let off = u32::from(random.bit());
    Tallied {
        inserted: accepted.wrapping_add(rejected).wrapping_add(off),
        accepted,
        rejected,
        takings: random.number(),
    }
}

// Compares what checks of something answer with the rules.
fn compare<T: Debug>(
    heap: Global,
    of: &T,
    checks: &[Checked],
    counts: &mut Counts,
) -> Result<(), Stop> {
    for check in checks {
        if check.answer.map_err(u8::from) != check.taken.then_some(()).ok_or(check.number) {
            return Err(Stop::Difference(format!(in heap; "{check:?} of {of:?}")?));
        }
        if let Err(why) = check.answer {
            counts.refuse(u8::from(why));
        }
    }
    Ok(())
}

// The tally of these numbers has them, where they are a tally's.
fn compare_tally(heap: Global, of: Tallied) -> Result<(), Stop> {
    let made = Tally::try_from(of).map(Tallied::from);
    if made != check_tally(of).map(|()| of) {
        return Err(Stop::Difference(format!(in heap; "{made:?} is made of {of:?}")?));
    }
    Ok(())
}

// Tries every check.
pub(crate) fn try_checks(heap: Global, counts: &mut Counts) -> Result<(), Stop> {
    let mut random = Random::new(0);
    for _ in 0..TRIES {
        let sizes = draw_sizes(&mut random);
        compare(heap, &sizes, &check_sizes(&sizes), counts)?;
        let tallied = draw_counts(&mut random);
        compare(heap, &tallied, &check_counts(tallied), counts)?;
        compare_tally(heap, tallied)?;
    }
    Ok(())
}
