use crate::beside::Told;
use plain_book::Book;
use rules::answers::{Answer, Found};

// How much was tried: how many lists, on how many dictionaries, and how many calls got each answer; and how far it went:
// the longest tag that was spelled, the most moves of a find, and how many dictionaries ended with no node or no byte left.
// The refusals of checks are counted with those of calls.
#[derive(Clone, Copy, Default, Debug)]
pub(crate) struct Counts {
    pub(crate) lists: u64,
    pub(crate) dictionaries: u64,
    pub(crate) rows: u64,
    pub(crate) step_nodes: u64,
    pub(crate) no_node_left: u64,
    pub(crate) no_byte_left: u64,
    pub(crate) calls: u64,
    pub(crate) entered: u64,
    pub(crate) changed: u64,
    pub(crate) struck: u64,
    pub(crate) found: u64,
    pub(crate) absent: u64,
    pub(crate) spelled: u64,
    pub(crate) doubled: u64,
    pub(crate) longest: usize,
    pub(crate) most_moves: u32,
    // By the refusal's number.
    pub(crate) refused: [u64; 15],
}

fn add(count: &mut u64, n: usize) {
    *count = count.saturating_add(n as u64);
}

impl Counts {
    // A dictionary on which a list has run, beside this book. What is no row's node is a step node; node 0 is there before
    // the first row.
    pub(crate) fn ran<V: Copy>(&mut self, book: &Book<'_, V>) {
        let (rows, nodes) = (book.rows(), book.nodes());
        add(&mut self.dictionaries, 1);
        add(&mut self.rows, rows);
        add(&mut self.step_nodes, nodes.saturating_sub(rows.max(1)));
        add(
            &mut self.no_node_left,
            usize::from(book.room() == Some(nodes)),
        );
        let no_byte_left = book.byte_room() == Some(book.label_bytes());
        add(&mut self.no_byte_left, usize::from(no_byte_left));
    }

    // A refusal with this number.
    pub(crate) fn refuse(&mut self, number: u8) {
        if let Some(count) = self.refused.get_mut(usize::from(number)) {
            add(count, 1);
        }
    }

    // What a find answers.
    fn look<V: Copy>(&mut self, found: Found<V>) {
        self.most_moves = self.most_moves.max(found.moves);
        match found.held {
            Some(_) => add(&mut self.found, 1),
            None => add(&mut self.absent, 1),
        }
    }

    fn spell(&mut self, length: usize) {
        self.longest = self.longest.max(length);
        add(&mut self.spelled, 1);
    }

    // A call with this answer.
    pub(crate) fn call<V: Copy>(&mut self, answer: Result<Answer<V>, Told>) {
        add(&mut self.calls, 1);
        match answer {
            Ok(Answer::Entered(_)) => add(&mut self.entered, 1),
            Ok(Answer::Changed(_)) => add(&mut self.changed, 1),
            Ok(Answer::Struck(_)) => add(&mut self.struck, 1),
            Ok(Answer::Looked(found)) => self.look(found),
            Ok(Answer::Spelled(length)) => self.spell(length),
            Ok(Answer::Doubled(_)) => add(&mut self.doubled, 1),
            Err(told) => self.refuse(told.number),
        }
    }
}
