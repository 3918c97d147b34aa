// A list of calls on a dictionary, beside a book that shares nothing with it.
use crate::calls::{BUFFER, Value};
use crate::counts::Counts;
use crate::makes::first;
use crate::sizes::{Makes, State};
use crate::stop::Stop;
use dictionary::dictionary::{Dictionary, Parts};
use dictionary::opening::check_parts;
use dictionary::runs::perform;
use parts::map::NodeMap;
use parts::shelf::Shelf;
use parts::store::LabelStore;
use plain_book::{Book, EnterError};
use rules::answers::{Answer, Call, Found, Held};
use std::alloc::{AllocError, Global};
use tags::refusal::Refusal;

// A refusal's number, and that of the fault which it brings with it.
#[derive(Clone, Copy, PartialEq, Eq, Debug)]
pub(crate) struct Told {
    pub(crate) number: u8,
    fault: Option<u8>,
}

impl From<Refusal> for Told {
    fn from(why: Refusal) -> Told {
        let fault = match why {
            Refusal::NoNextRoom(fault) => Some(u8::from(fault)),
            _ => None,
        };
        Told {
            number: u8::from(why),
            fault,
        }
    }
}

// By its number: 10 brings the node map's last fault.
impl From<u8> for Told {
    fn from(number: u8) -> Told {
        let fault = (number == 10).then_some(5);
        Told { number, fault }
    }
}

// How many nodes and label bytes there are, and the current room.
#[derive(Clone, Copy, PartialEq, Eq, Debug)]
struct Totals {
    nodes: usize,
    label_bytes: usize,
    room: usize,
}

// What a call shows, but for its buffer: what it answers, and what there is afterwards.
#[derive(Clone, Copy, PartialEq, Debug)]
struct Shown<V> {
    answer: Result<Answer<V>, Told>,
    totals: Totals,
}

// A number that the book counts, as the dictionary has it. It has none that is too large for this.
pub(crate) fn narrow(n: usize) -> u32 {
    u32::try_from(n).unwrap_or(u32::MAX)
}

fn found_of<V: Copy>(found: plain_book::Found<V>) -> Found<V> {
    Found {
        held: found.held.map(|held| Held {
            ticket: narrow(held.ticket),
            value: held.value,
        }),
        moves: narrow(found.moves),
    }
}

// One call on the book.
fn ask<V: Copy>(
    heap: Global,
    book: &mut Book<'_, V>,
    call: &Call<'_, V>,
    buffer: &mut [u8],
) -> Result<Answer<V>, EnterError> {
    Ok(match call {
        Call::Enter { tag, value } => Answer::Entered(narrow(book.enter(heap, tag, *value)?)),
        Call::Change { tag, value } => Answer::Changed(narrow(book.change(tag, *value)?)),
        Call::Find { tag } => Answer::Looked(found_of(book.find(tag)?)),
        Call::Strike { tag } => Answer::Struck(narrow(book.strike(tag)?)),
        Call::Spell { ticket, buffer: _ } => Answer::Spelled(book.spell(*ticket as usize, buffer)?),
        Call::Double => Answer::Doubled(narrow(book.double()?)),
    })
}

// What the book shows for a call. Over parts that do not fit nothing ever changes.
fn shown_by_book<V: Copy>(
    heap: Global,
    book: &mut Book<'_, V>,
    opened: Totals,
    call: &Call<'_, V>,
    buffer: &mut [u8],
) -> Result<Shown<V>, AllocError> {
    let answer = match ask(heap, book, call, buffer) {
        Ok(answer) => Ok(answer),
        Err(EnterError::Refused(why)) => Err(Told::from(u8::from(why))),
        Err(EnterError::OutOfMemory) => return Err(AllocError),
    };
    let totals = book.room().map_or(
        opened,
        |room| Totals {
            nodes: book.nodes(),
            label_bytes: book.label_bytes(),
            room,
        },
    );
    Ok(Shown { answer, totals })
}

fn totals_of<M: NodeMap, L: LabelStore, S: Shelf>(d: &Dictionary<M, L, S>) -> Totals {
    Totals {
        nodes: d.nodes() as usize,
        label_bytes: d.label_bytes() as usize,
        room: d.room() as usize,
    }
}

// What the dictionary shows for a call.
fn shown_by<V: Copy, M: NodeMap, L: LabelStore, S: Shelf<Value = V>>(
    d: &mut Dictionary<M, L, S>,
    call: &Call<'_, V>,
    buffer: &mut [u8],
) -> Shown<V> {
    let answer = perform(d, call, buffer).map_err(Told::from);
    Shown {
        answer,
        totals: totals_of(d),
    }
}

// A list on a dictionary of these makes, and the book that says what it answers.
#[derive(Drop)]
pub(crate) struct Trial<'a, V> {
    pub(crate) heap: Global,
    pub(crate) list: u64,
    pub(crate) makes: Makes,
    pub(crate) state: State,
    pub(crate) book: Book<'a, V>,
    pub(crate) counts: &'a mut Counts,
}

impl<V: Value> Trial<'_, V> {
    // The end of the trials at a difference, told after the list and the makes.
    fn differs(&self, what: &str) -> Result<(), Stop> {
        let Trial { list, makes, .. } = self;
        let what = format!(in self.heap; "list {list}, {makes:?}: {what}")?;
        Err(Stop::Difference(what))
    }

    // One call, on the dictionary and on the book.
    fn compare<M: NodeMap, L: LabelStore, S: Shelf<Value = V>>(
        &mut self,
        d: &mut Dictionary<M, L, S>,
        opened: Totals,
        number: usize,
        call: &Call<'_, V>,
    ) -> Result<(), Stop> {
        let size = match call {
            Call::Spell { ticket: _, buffer } => *buffer,
            _ => 0,
        };
        let mut ours = [(number & 255) as u8; BUFFER];
        let mut theirs = ours;
        let shown = shown_by(d, call, first(&mut ours, size));
        let theirs_too = first(&mut theirs, size);
        let expected = shown_by_book(self.heap, &mut self.book, opened, call, theirs_too)?;
        if shown != expected || ours != theirs {
            let what = format!(in self.heap;
                "call {number} is {call:?}\nthe dictionary: {shown:?} {ours:?}\nthe book: {expected:?} {theirs:?}"
            )?;
            return self.differs(&what);
        }
        self.counts.call(shown.answer);
        Ok(())
    }

    // Spells a ticket into a long buffer and, where it has a tag, into one of just its length and one a byte shorter.
    fn compare_spells<M: NodeMap, L: LabelStore, S: Shelf<Value = V>>(
        &mut self,
        d: &mut Dictionary<M, L, S>,
        opened: Totals,
        ticket: usize,
    ) -> Result<(), Stop> {
        let length = self.book.spell(ticket, &mut [0; BUFFER]).unwrap_or(BUFFER);
        for buffer in [BUFFER, length, length.saturating_sub(1)] {
            let ticket = narrow(ticket);
            self.compare(d, opened, buffer, &Call::Spell { ticket, buffer })?;
        }
        Ok(())
    }

    // Runs the list's calls on a dictionary over these parts and on the book, and spells every ticket, up to the first
    // difference. The parts come one by one, as `check_parts` says.
    pub(crate) fn run<M: NodeMap + Drop, L: LabelStore + Drop, S: Shelf<Value = V> + Drop>(
        mut self,
        calls: &[Call<'_, V>],
        mut map: M,
        mut store: L,
        shelf: S,
    ) -> Result<(), Stop> {
        let _ = match self.state {
            State::New => Ok(()),
            State::NodeMade => map.add(0, 0).map(|_| ()).map_err(u8::from),
            State::LabelThere => store.append(&[], 0).map_err(u8::from),
        };
        let checked = check_parts(&map, &store, &shelf).map_err(u8::from);
        if checked != self.book.room().map(|_| ()).ok_or(13) {
            return self.differs("check_parts and the sizes");
        }
        let mut d = Dictionary::new(Parts { map, store, shelf });
        let opened = totals_of(&d);
        for (number, call) in calls.iter().enumerate() {
            self.compare(&mut d, opened, number, call)?;
        }
        for ticket in 0..=self.book.nodes() {
            self.compare_spells(&mut d, opened, ticket)?;
        }
        let Trial { book, counts, .. } = self;
        counts.ran(&book);
        Ok(())
    }
}
