//! Another dictionary, written on its own to be compared with the proved one: a plain list of rows.
//! It is here to be compared, not believed: its functions are proved safe and ending, and no more. Only what an error
//! becomes is stated.

#![tactic(auto)]

mod errors;
#[cfg(test)]
mod tests;

pub use crate::errors::{EnterError, Refused};
use std::alloc::Global;
use std::cmp::Reverse;

/// The most bytes that a tag has.
pub const LONGEST: usize = 200;

/// How far into a label one move reaches.
pub const STEP: usize = 32;

// `Found` and `Held` are this crate's own, as `Refused` is, so that it shares nothing with what it is compared with.

/// What a find answers: the row that holds a value for the tag, or none, and the moves.
#[derive(Clone, Copy, PartialEq, Eq, Debug)]
pub struct Found<V> {
    pub held: Option<Held<V>>,
    pub moves: usize,
}

/// A row's ticket and the value that it holds.
#[derive(Clone, Copy, PartialEq, Eq, Debug)]
pub struct Held<V> {
    pub ticket: usize,
    pub value: V,
}

/// How a row's tag hangs below another row, which is its owner; the first row has none.
#[derive(Clone, Copy, Default)]
struct Hanging {
    /// The owner's number in the list: rows of a list that grows cannot hold references to one another.
    owner: Option<usize>,
    start: usize,
    offset: usize,
    moves: usize,
}

impl Hanging {
    fn steps(&self) -> usize {
        self.offset / STEP
    }
}

/// A tag that was entered, and where it hangs.
#[derive(Drop)]
struct Row<V> {
    tag: Vec<u8>,
    /// `None` where the row is struck.
    value: Option<V>,
    ticket: usize,
    hanging: Hanging,
}

/// How a tag in no row would hang, and what its owner has: the moves to it, and the most whole
/// steps below it.
#[derive(Clone, Copy)]
struct Place {
    hanging: Hanging,
    owner_moves: usize,
    owner_steps: usize,
}

impl Place {
    /// How many nodes the tag needs.
    fn needed(&self) -> usize {
        self.hanging
            .steps()
            .saturating_sub(self.owner_steps)
            .saturating_add(1)
    }

    /// How many moves looking for the tag makes.
    fn moves(&self) -> usize {
        self.owner_moves
            .saturating_add(self.hanging.steps().min(self.owner_steps))
    }
}

/// What room there is: for nodes now and after each doubling, and for label bytes.
#[derive(Clone, Copy)]
struct Rooms<'a> {
    nodes: usize,
    to_come: &'a [usize],
    bytes: usize,
}

/// The rows in order of first entry, and what room there is.
#[derive(Drop)]
pub struct Book<'a, V> {
    rows: Vec<Row<V>>,
    nodes: usize,
    label_bytes: usize,
    /// `None` where the parts do not fit.
    rooms: Option<Rooms<'a>>,
}

/// How many leading bytes two tags share. Closing bytes do not add to it: tags that are not the
/// same differ before both have closed.
fn shared(a: &[u8], b: &[u8]) -> usize {
    a.iter().zip(b).take_while(|(x, y)| x == y).count()
}

/// Whether these bytes are a tag.
fn check_tag(tag: &[u8]) -> Result<(), Refused> {
    if tag.is_empty() {
        return Err(Refused::EmptyTag);
    }
    if tag.len() > LONGEST {
        return Err(Refused::LongTag);
    }
    if tag.iter().any(|byte| matches!(*byte, 0 | 255)) {
        return Err(Refused::BadByte);
    }
    Ok(())
}

impl<'a, V: Copy> Book<'a, V> {
    fn empty(heap: Global, rooms: Option<Rooms<'a>>) -> Self {
        Book {
            rows: Vec::new(heap),
            nodes: 1,
            label_bytes: 0,
            rooms,
        }
    }

    /// An empty book. The first room is the current one.
    pub fn new(heap: Global, rooms: &'a [usize], byte_room: usize) -> Self {
        let (nodes, to_come) = match rooms {
            [first, rest @ ..] => (*first, rest),
            [] => (0, rooms),
        };
        let rooms = Rooms {
            nodes,
            to_come,
            bytes: byte_room,
        };
        Book::empty(heap, Some(rooms))
    }

    /// A book over parts that do not fit.
    pub fn unfit(heap: Global) -> Self {
        Book::empty(heap, None)
    }

    pub fn nodes(&self) -> usize {
        self.nodes
    }

    pub fn label_bytes(&self) -> usize {
        self.label_bytes
    }

    pub fn rows(&self) -> usize {
        self.rows.len()
    }

    /// The current room; there is none where the parts do not fit.
    pub fn room(&self) -> Option<usize> {
        self.rooms.map(|rooms| rooms.nodes)
    }

    pub fn byte_room(&self) -> Option<usize> {
        self.rooms.map(|rooms| rooms.bytes)
    }

    /// The rooms of parts that fit.
    fn rooms(&self) -> Result<Rooms<'a>, Refused> {
        self.rooms.ok_or(Refused::UnfitParts)
    }

    /// What a tag's call asks for whatever the rows are: parts that fit, and a tag.
    fn check(&self, tag: &[u8]) -> Result<Rooms<'a>, Refused> {
        let rooms = self.rooms()?;
        check_tag(tag)?;
        Ok(rooms)
    }

    fn row_of(&self, tag: &[u8]) -> Option<&Row<V>> {
        self.rows.iter().find(|row| row.tag.as_slice() == tag)
    }

    fn row_mut(&mut self, tag: &[u8]) -> Option<&mut Row<V>> {
        self.rows.iter_mut().find(|row| row.tag.as_slice() == tag)
    }

    /// The largest number of whole steps among the rows that a row owns.
    fn steps_of(&self, owner: usize) -> usize {
        self.rows
            .iter()
            .filter(|row| row.hanging.owner == Some(owner))
            .map(|row| row.hanging.steps())
            .max()
            .unwrap_or(0)
    }

    /// The place of a tag in no row; there is none in an empty book. Its owner is the first of the
    /// rows that share the most bytes with it.
    fn place_of(&self, tag: &[u8]) -> Option<Place> {
        let (owner, row) = self
            .rows
            .iter()
            .enumerate()
            .min_by_key(|(_, row)| Reverse(shared(&row.tag, tag)))?;
        let most = shared(&row.tag, tag);
        let offset = most.saturating_sub(row.hanging.start);
        let hanging = Hanging {
            owner: Some(owner),
            start: most.saturating_add(1),
            offset,
            moves: row
                .hanging
                .moves
                .saturating_add(1)
                .saturating_add(offset / STEP),
        };
        Some(Place {
            hanging,
            owner_moves: row.hanging.moves,
            owner_steps: self.steps_of(owner),
        })
    }

    /// Enters a tag with a value, and answers its ticket.
    pub fn enter(&mut self, heap: Global, tag: &[u8], value: V) -> Result<usize, EnterError> {
        let rooms = self.check(tag)?;
        let Some(row) = self.row_mut(tag) else {
            return self.enter_new(heap, rooms, tag, value);
        };
        if row.value.is_some() {
            return Err(Refused::RowHolds.into());
        }
        row.value = Some(value);
        Ok(row.ticket)
    }

    fn enter_new(
        &mut self,
        heap: Global,
        rooms: Rooms<'a>,
        tag: &[u8],
        value: V,
    ) -> Result<usize, EnterError> {
        let place = self.place_of(tag);
        let hanging = place.map(|p| p.hanging).unwrap_or_default();
        let nodes = self.nodes.saturating_add(place.map_or(0, |p| p.needed()));
        if nodes > rooms.nodes {
            return Err(Refused::NoNodeRoom.into());
        }
        let label = tag.len().saturating_add(1).saturating_sub(hanging.start);
        let label_bytes = self.label_bytes.saturating_add(label);
        if label_bytes > rooms.bytes {
            return Err(Refused::NoByteRoom.into());
        }
        let ticket = nodes.saturating_sub(1);
        self.rows.push(Row {
            tag: tag.to_vec(heap)?,
            value: Some(value),
            ticket,
            hanging,
        })?;
        self.nodes = nodes;
        self.label_bytes = label_bytes;
        Ok(ticket)
    }

    /// Changes the value of a tag, and answers its ticket.
    pub fn change(&mut self, tag: &[u8], value: V) -> Result<usize, Refused> {
        self.rewrite(tag, Some(value))
    }

    /// Strikes a tag, and answers its ticket.
    pub fn strike(&mut self, tag: &[u8]) -> Result<usize, Refused> {
        self.rewrite(tag, None)
    }

    fn rewrite(&mut self, tag: &[u8], value: Option<V>) -> Result<usize, Refused> {
        self.check(tag)?;
        let row = self.row_mut(tag).ok_or(Refused::NoLiveRow)?;
        if row.value.is_none() {
            return Err(Refused::NoLiveRow);
        }
        row.value = value;
        Ok(row.ticket)
    }

    /// Looks for a tag.
    pub fn find(&self, tag: &[u8]) -> Result<Found<V>, Refused> {
        self.check(tag)?;
        Ok(match self.row_of(tag) {
            Some(row) => Found {
                held: row.value.map(|value| Held {
                    ticket: row.ticket,
                    value,
                }),
                moves: row.hanging.moves,
            },
            None => Found {
                held: None,
                moves: self.place_of(tag).map_or(0, |p| p.moves()),
            },
        })
    }

    /// Writes the tag with this ticket to the beginning of a buffer, and answers how long it is.
    pub fn spell(&self, ticket: usize, buffer: &mut [u8]) -> Result<usize, Refused> {
        self.rooms()?;
        let row = self
            .rows
            .iter()
            .find(|row| row.ticket == ticket)
            .ok_or(Refused::NoSuchTicket)?;
        let length = row.tag.len();
        buffer
            .get_mut(..length)
            .ok_or(Refused::ShortBuffer)?
            .copy_from_slice(&row.tag);
        Ok(length)
    }

    /// Takes the next room, and answers it.
    pub fn double(&mut self) -> Result<usize, Refused> {
        let rooms = self.rooms()?;
        let (next, to_come) = rooms.to_come.split_first().ok_or(Refused::NoNextRoom)?;
        self.rooms = Some(Rooms {
            nodes: *next,
            to_come,
            ..rooms
        });
        Ok(*next)
    }
}
