use crate::gathering::{Edge, Tree};
use std::alloc::AllocError;
use std::fmt;

// The map's bytes have two sets of slots, and one of them is in use.
#[derive(Clone, Copy)]
enum Set {
    First,
    Second,
}

impl fmt::Display for Set {
    fn fmt<W: fmt::Write>(&self, f: &mut fmt::Formatter<W>) -> fmt::Result {
        match self {
            Set::First => write!(f, "first"),
            Set::Second => write!(f, "second"),
        }
    }
}

// The slots in use: so many of a set, six bytes each.
#[derive(Clone, Copy)]
struct Table<'a> {
    set: Set,
    bytes: &'a [u8],
    count: usize,
}

// What a taken slot holds.
#[derive(Clone, Copy)]
struct Taken {
    quotient: u16,
    displacement: u16,
    node: u16,
}

// The map's own reader of its slots is private to its crate; this one reads the layout as it is written there.
// The fields of a word: behind the mark 13 bits of quotient, 15 of displacement, 15 of number, and 4 zeros.
fn taken_in(word: u64) -> Option<Taken> {
    if word >> 47 == 0 {
        return None;
    }
    Some(Taken {
        quotient: ((word >> 34) % 8_192) as u16,
        displacement: ((word >> 19) % 32_768) as u16,
        node: ((word >> 4) % 32_768) as u16,
    })
}

// The number that a slot's bytes hold, the most significant first.
fn word_of(bytes: &[u8]) -> u64 {
    bytes
        .iter()
        .fold(0, |word, byte| (word << 8) | u64::from(*byte))
}

impl<'a> Table<'a> {
    // The slots in use with this room, where 14 bytes are lent for each of 1,024 slots. At first 16 slots of the first set
    // are in use, and each doubling goes to the other set.
    fn of(lent: &'a [u8], room: u32) -> Table<'a> {
        let (first, others) = lent.split_at(lent.len() / 14 * 6);
        let log = (4u32..10)
            .find(|log| (9 << *log) / 10 == room)
            .unwrap_or(10);
        let (set, bytes) = if log % 2 == 0 {
            (Set::First, first)
        } else {
            (Set::Second, others)
        };
        Table {
            set,
            bytes,
            count: 1 << log,
        }
    }

    // Where a node in this place would have liked to be.
    fn home_of(&self, place: usize, displacement: usize) -> usize {
        place
            .checked_sub(displacement)
            .unwrap_or_else(|| self.count.saturating_sub(displacement.abs_diff(place)))
    }

    // A taken slot with what it holds, and the edge of its node.
    fn put_taken(
        &self,
        out: &mut String,
        place: usize,
        taken: Taken,
        edge: Option<Edge>,
    ) -> Result<(), AllocError> {
        let Taken {
            quotient,
            displacement,
            node,
        } = taken;
        let home = self.home_of(place, usize::from(displacement));
        write!(
            out,
            "{place:>9}  {home:>4}  {displacement:>12}  {quotient:>8}  {node:>4}"
        )?;
        if let Some(edge) = edge {
            let parent = edge.parent;
            write!(out, "  {parent:>6}  {edge}")?;
        }
        out.push('\n')
    }
}

// The empty slots from one place to another.
fn put_empty(out: &mut String, from: usize, to: usize) -> Result<(), AllocError> {
    let heap = *out.allocator();
    let places = if from == to {
        format!(in heap; "{from}")?
    } else {
        format!(in heap; "{from}..{to}")?
    };
    writeln!(out, "{places:>9}  empty")
}

pub(crate) fn put_slots(out: &mut String, tree: &Tree, lent: &[u8]) -> Result<(), AllocError> {
    let table = Table::of(lent, tree.room);
    let Table { set, bytes, count } = table;
    let taken = bytes
        .chunks_exact(6)
        .take(count)
        .filter(|slot| taken_in(word_of(slot)).is_some())
        .count();
    writeln!(
        out,
        "The table: {taken} of the {count} slots in use are taken, in the {set} set.\n"
    )?;
    writeln!(
        out,
        "     slot  home  displacement  quotient  node  parent  edge"
    )?;
    // Where the empty slots begin that were not drawn yet. The slots are read as they are drawn, and not kept: a list of them
    // would be larger than a small tree.
    let mut empty_from: Option<usize> = None;
    for (place, slot) in bytes.chunks_exact(6).take(count).enumerate() {
        let Some(taken) = taken_in(word_of(slot)) else {
            empty_from = empty_from.or(Some(place));
            continue;
        };
        if let Some(from) = empty_from.take() {
            put_empty(out, from, place.saturating_sub(1))?;
        }
        table.put_taken(out, place, taken, tree.edge_of(usize::from(taken.node)))?;
    }
    if let Some(from) = empty_from {
        put_empty(out, from, count.saturating_sub(1))?;
    }
    out.push('\n')
}
