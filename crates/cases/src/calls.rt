use dictionary::calls::DictionaryCalls;
use dictionary::dictionary::{Dictionary, Parts};
use dictionary::opening::check_parts;
use parts::map::NodeMap;
use parts::shelf::Shelf;
use parts::store::LabelStore;
use std::process::Abort;
use tags::refusal::{MapFault, Refusal};

// The ticket that a find answers, if a row holds the tag, and its moves.
fn looked<D: DictionaryCalls>(d: &D, tag: &[u8]) -> Result<(Option<u32>, u32), Refusal> {
    let found = d.find(tag)?;
    Ok((found.held.map(|row| row.ticket), found.moves))
}

// Runs a case on a dictionary over these parts.
// They come one by one, here and in what the tests call: for a caller of concrete makes that builds a `Parts`, the checker
// makes no proof, since a type argument holds a `&mut` and a struct that has a ghost field.
fn on<M: NodeMap + Drop, L: LabelStore + Drop, S: Shelf + Drop, F>(
    map: M,
    store: L,
    shelf: S,
    case: F,
)
where
    F: FnOnce(&mut Dictionary<M, L, S>),
    requires { F.IsAlwaysCallable case }
{
    case(&mut Dictionary::new(Parts { map, store, shelf }));
}

// The tags whose first bytes are those of technology.
fn techs<D: DictionaryCalls>(rt: &impl Abort, d: &mut D, value: D::Value) {
    assert_eq!(rt; looked(d, b"technology"), Ok((None, 0)));
    assert_eq!(rt; d.enter(b"technology", value), Ok(0));
    assert_eq!(rt; d.enter(b"technics", value), Ok(1));
    assert_eq!(rt; d.enter(b"technique", value), Ok(2));
    assert_eq!(rt; d.enter(b"technically", value), Ok(3));
    assert_eq!(rt; looked(d, b"technical"), Ok((None, 2)));
    assert_eq!(rt; d.strike(b"technics"), Ok(1));
    assert_eq!(rt; looked(d, b"technics"), Ok((None, 1)));
    assert_eq!(rt; looked(d, b"technique"), Ok((Some(2), 2)));
    assert_eq!(rt; d.change(b"technics", value), Err(Refusal::NoLiveRow));
    assert_eq!(rt; d.enter(b"technics", value), Ok(1));
    assert_eq!(rt; d.enter(b"technics", value), Err(Refusal::RowHolds));
}

// Forty a, then 32 a and b, 35 a and c below a step node, and 39 a, whose label is empty.
fn steps<D: DictionaryCalls>(rt: &impl Abort, d: &mut D, value: D::Value) {
    let a = [b'a'; 40];
    let mut b = [b'a'; 33];
    b[32] = b'b';
    let mut c = [b'a'; 36];
    c[35] = b'c';
    assert_eq!(rt; d.enter(&a, value), Ok(4));
    assert_eq!(rt; d.enter(&b, value), Ok(5));
    assert_eq!(rt; d.enter(&c, value), Ok(7));
    assert_eq!(rt; d.enter(&a[0..39], value), Ok(8));
    assert_eq!(rt; looked(d, &a[0..38]), Ok((None, 2)));
    let mut short = [b'.'; 38];
    assert_eq!(rt; d.spell(8, &mut short), Err(Refusal::ShortBuffer));
    let mut buffer = [b'.'; 40];
    assert_eq!(rt; d.spell(6, &mut buffer), Err(Refusal::NoSuchTicket));
    assert_eq!(rt; d.spell(8, &mut buffer), Ok(39));
    assert_eq!(rt; buffer.last().copied(), Some(b'.'));
    assert_eq!(rt; d.spell(4, &mut buffer), Ok(40));
    assert!(rt; buffer == a);
}

// To the last room, and once more.
fn doubles<D: DictionaryCalls>(rt: &impl Abort, d: &mut D) {
    for _ in 0..2 {
        let _ = d.double();
    }
    assert_eq!(rt; d.double(), Err(Refusal::NoNextRoom(MapFault::LastRoom)));
}

// All calls over fitting parts, with room for 14 nodes at least.
pub(crate) fn worked<M: NodeMap + Drop, L: LabelStore + Drop, S: Shelf + Drop>(
    rt: &impl Abort,
    map: M,
    store: L,
    shelf: S,
    value: S::Value,
) {
    on(map, store, shelf, |d| {
        techs(rt, d, value);
        assert_eq!(rt; d.nodes(), 4);
        assert_eq!(rt; d.label_bytes(), 21);
        steps(rt, d, value);
        assert_eq!(rt; d.nodes(), 9);
        doubles(rt, d);
    });
}

// Fills all but one node of the current room; then a tag that needs two is refused for want of nodes, and one that needs
// one enters.
pub(crate) fn last_node<M: NodeMap + Drop, L: LabelStore + Drop, S: Shelf + Drop>(
    rt: &impl Abort,
    map: M,
    store: L,
    shelf: S,
    value: S::Value,
) {
    on(map, store, shelf, |d| {
        let room = d.room();
        let long = [b'a'; 40];
        assert_eq!(rt; d.enter(&long, value), Ok(0));
        for i in 1..room.saturating_sub(1) {
            assert_eq!(rt; d.enter(&[b'b', (i % 200 + 1) as u8], value), Ok(i));
        }
        assert_eq!(rt; d.enter(&long[0..39], value), Err(Refusal::NoNodeRoom));
        assert_eq!(rt; d.nodes(), room.saturating_sub(1));
        assert_eq!(rt; d.enter(b"c", value), Ok(room.saturating_sub(1)));
        assert_eq!(rt; d.enter(b"d", value), Err(Refusal::NoNodeRoom));
    });
}

// In a byte room of 12, eleven bytes and the closing one just fit, and the next tag with a label does not.
pub(crate) fn last_byte<M: NodeMap + Drop, L: LabelStore + Drop, S: Shelf + Drop>(
    rt: &impl Abort,
    map: M,
    store: L,
    shelf: S,
    value: S::Value,
) {
    on(map, store, shelf, |d| {
        assert_eq!(rt; d.enter(b"abcdefghijkl", value), Err(Refusal::NoByteRoom));
        assert_eq!(rt; d.enter(b"abcdefghijk", value), Ok(0));
        assert_eq!(rt; d.label_bytes(), 12);
        assert_eq!(rt; d.enter(b"ax", value), Err(Refusal::NoByteRoom));
        assert_eq!(rt; d.enter(b"abcdefghij", value), Ok(1));
        assert_eq!(rt; d.label_bytes(), 12);
    });
}

// Every call over parts that do not fit. The reading call tells it beforehand.
pub(crate) fn unfit<M: NodeMap + Drop, L: LabelStore + Drop, S: Shelf + Drop>(
    rt: &impl Abort,
    map: M,
    store: L,
    shelf: S,
    value: S::Value,
) {
    assert_eq!(rt; check_parts(&map, &store, &shelf), Err(Refusal::UnfitParts));
    on(map, store, shelf, |d| {
        assert_eq!(rt; d.enter(b"tag", value), Err(Refusal::UnfitParts));
        assert_eq!(rt; d.change(b"", value), Err(Refusal::UnfitParts));
        assert_eq!(rt; d.strike(b"tag"), Err(Refusal::UnfitParts));
        assert_eq!(rt; looked(d, b"tag"), Err(Refusal::UnfitParts));
        assert_eq!(rt; d.spell(0, &mut []), Err(Refusal::UnfitParts));
        assert_eq!(rt; d.double(), Err(Refusal::UnfitParts));
    });
}
