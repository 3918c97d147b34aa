use crate::{Book, EnterError, Found, Held, Refused};
use std::process::Abort;

// A find of a tag that no row holds.
fn absent(moves: usize) -> Result<Found<u32>, Refused> {
    Ok(Found { held: None, moves })
}

fn refused(why: Refused) -> Result<usize, EnterError> {
    Err(EnterError::Refused(why))
}

// The tags whose first bytes are those of technology.
fn techs(rt: &(impl Abort + AllocGlobal), book: &mut Book<'_, u32>) {
    let heap = rt.alloc();
    assert_eq!(rt; book.find(b"technology"), absent(0));
    assert_eq!(rt; book.enter(heap, b"technology", 5), Ok(0));
    assert_eq!(rt; book.enter(heap, b"technics", 5), Ok(1));
    assert_eq!(rt; book.enter(heap, b"technique", 5), Ok(2));
    assert_eq!(rt; book.enter(heap, b"technically", 5), Ok(3));
    assert_eq!(rt; book.find(b"technical"), absent(2));
    assert_eq!(rt; book.strike(b"technics"), Ok(1));
    assert_eq!(rt; book.find(b"technics"), absent(1));
    assert_eq!(rt;
        book.find(b"technique"),
        Ok(Found {
            held: Some(Held {
                ticket: 2,
                value: 5
            }),
            moves: 2
        })
    );
    assert_eq!(rt; book.change(b"technics", 6), Err(Refused::NoLiveRow));
    assert_eq!(rt; book.enter(heap, b"technics", 6), Ok(1));
    assert_eq!(rt;
        book.enter(heap, b"technics", 6),
        refused(Refused::RowHolds)
    );
    assert_eq!(rt; book.change(b"technology", 7), Ok(0));
    assert_eq!(rt; (book.rows(), book.nodes(), book.label_bytes()), (4, 4, 21));
}

// Forty a, then 32 a and b, 35 a and c below a step node, and 39 a, whose label is empty.
fn steps(rt: &(impl Abort + AllocGlobal), book: &mut Book<'_, u32>) {
    let heap = rt.alloc();
    let a = [b'a'; 40];
    let mut b = [b'a'; 33];
    b[32] = b'b';
    let mut c = [b'a'; 36];
    c[35] = b'c';
    assert_eq!(rt; book.enter(heap, &a, 5), Ok(4));
    assert_eq!(rt; book.enter(heap, &b, 5), Ok(5));
    assert_eq!(rt; book.enter(heap, &c, 5), Ok(7));
    assert_eq!(rt; book.enter(heap, &a[0..39], 5), Ok(8));
    assert_eq!(rt; book.find(&a[0..38]), absent(2));
    let mut buffer = [b'.'; 40];
    assert_eq!(rt; book.spell(8, &mut buffer[..38]), Err(Refused::ShortBuffer));
    assert_eq!(rt; book.spell(6, &mut buffer), Err(Refused::NoSuchTicket));
    assert_eq!(rt; book.spell(8, &mut buffer), Ok(39));
    assert_eq!(rt; buffer.last().copied(), Some(b'.'));
    assert_eq!(rt; book.spell(4, &mut buffer), Ok(40));
    assert!(rt; buffer == a);
}

#[test]
fn worked(rt: HostRuntime) {
    let mut book = Book::new(rt.alloc(), &[14, 28], 600);
    techs(&rt, &mut book);
    steps(&rt, &mut book);
    assert_eq!(rt; book.nodes(), 9);
    assert_eq!(rt; book.double(), Ok(28));
    assert_eq!(rt; book.double(), Err(Refused::NoNextRoom));
}

// Two rooms of 3 and 5 nodes, and 12 label bytes.
#[test]
fn rooms(rt: HostRuntime) {
    let heap = rt.alloc();
    let mut book = Book::new(heap, &[3, 5], 12);
    assert_eq!(rt;
        book.enter(heap, b"abcdefghijkl", 5),
        refused(Refused::NoByteRoom)
    );
    assert_eq!(rt; book.enter(heap, b"abcdefghijk", 5), Ok(0));
    assert_eq!(rt; book.enter(heap, b"ax", 5), refused(Refused::NoByteRoom));
    assert_eq!(rt; book.enter(heap, b"abcdefghij", 5), Ok(1));
    assert_eq!(rt; book.enter(heap, b"abcdefghi", 5), Ok(2));
    assert_eq!(rt;
        book.enter(heap, b"abcdefgh", 5),
        refused(Refused::NoNodeRoom)
    );
    assert_eq!(rt; book.double(), Ok(5));
    assert_eq!(rt; book.enter(heap, b"abcdefgh", 5), Ok(3));
    assert_eq!(rt; (book.rows(), book.nodes(), book.label_bytes()), (4, 4, 12));
}

#[test]
fn no_tags(rt: HostRuntime) {
    let mut book: Book<'_, u32> = Book::new(rt.alloc(), &[], 0);
    assert_eq!(rt; book.find(b""), Err(Refused::EmptyTag));
    assert_eq!(rt; book.find(&[b'a'; 201]), Err(Refused::LongTag));
    assert_eq!(rt; book.change(b"a\0", 5), Err(Refused::BadByte));
    assert_eq!(rt; book.strike(b"\xff"), Err(Refused::BadByte));
    assert_eq!(rt; book.strike(&[b'a'; 200]), Err(Refused::NoLiveRow));
    assert_eq!(rt;
        book.enter(rt.alloc(), b"a", 5),
        refused(Refused::NoNodeRoom)
    );
}

#[test]
fn unfit(rt: HostRuntime) {
    let mut book = Book::unfit(rt.alloc());
    assert_eq!(rt;
        book.enter(rt.alloc(), b"tag", 5),
        refused(Refused::UnfitParts)
    );
    assert_eq!(rt; book.change(b"", 5), Err(Refused::UnfitParts));
    assert_eq!(rt; book.strike(b"tag"), Err(Refused::UnfitParts));
    assert_eq!(rt; book.find(b"tag"), Err(Refused::UnfitParts));
    assert_eq!(rt; book.spell(0, &mut []), Err(Refused::UnfitParts));
    assert_eq!(rt; book.double(), Err(Refused::UnfitParts));
    assert_eq!(rt; (book.rows(), book.nodes(), book.label_bytes()), (0, 1, 0));
    assert_eq!(rt; u8::from(Refused::UnfitParts), 13);
}
