use crate::beside::Trial;
use crate::counts::Counts;
use crate::sizes::{Makes, MapMake, ShelfMake, State, StoreMake};
use crate::stop::Stop;
use compact_map::shape::CompactMap;
use label_stores::plain::PlainStore;
use plain_book::Book;
use rules::answers::Call;
use shelves::record::RecordShelf;
use std::alloc::Global;
use std::process::Abort;

const MAKES: Makes = Makes {
    map: MapMake::Compact,
    store: StoreMake::Plain,
    shelf: ShelfMake::Record,
};

// A list of one call, over a compact map of 16 slots and a plain store of 60 bytes, beside a book.
fn one_call(heap: Global, book: Book<'_, u32>, call: Call<'_, u32>) -> Result<(), Stop> {
    let mut counts = Counts::default();
    let trial = Trial {
        heap,
        list: 3,
        makes: MAKES,
        state: State::New,
        book,
        counts: &mut counts,
    };
    trial.run(
        &[call],
        CompactMap::new(&mut [7; 224]),
        PlainStore::new(&mut [7; 60], &mut [7; 16]),
        RecordShelf::new(&mut [Some(7u32); 16]),
    )
}

fn told(rt: &impl Abort, ended: Result<(), Stop>, begins: &str) {
    match ended {
        Err(Stop::Difference(what)) => assert!(rt; what.starts_with(begins)),
        _ => assert!(rt; false),
    }
}

// A tag whose spelled form has 61 bytes.
const TAG: [u8; 60] = [b'a'; 60];

#[test]
fn another_answer_is_told(rt: HostRuntime) {
    let heap = rt.alloc();
    let enter = Call::Enter {
        tag: &TAG,
        value: 5,
    };
    let ended = one_call(heap, Book::new(heap, &[14], 61), enter);
    told(
        &rt,
        ended,
        "list 3, Makes { map: Compact, store: Plain, shelf: Record }: call 0 is Enter",
    );
    let ended = one_call(heap, Book::new(heap, &[14], 60), enter);
    assert!(rt; ended.is_ok());
}

#[test]
fn parts_that_fit_are_told(rt: HostRuntime) {
    let heap = rt.alloc();
    let ended = one_call(heap, Book::unfit(heap), Call::Double);
    told(
        &rt,
        ended,
        "list 3, Makes { map: Compact, store: Plain, shelf: Record }: check_parts and the sizes",
    );
}

#[test]
fn another_room_is_told(rt: HostRuntime) {
    let heap = rt.alloc();
    let find = Call::Find { tag: &TAG };
    let ended = one_call(heap, Book::new(heap, &[15], 60), find);
    told(
        &rt,
        ended,
        "list 3, Makes { map: Compact, store: Plain, shelf: Record }: call 0 is Find",
    );
}
