ghost use Rattle.std.specs.Prelude.{◌≡◌, drop};
ghost use Rattle.label_stores.specs.Meaning.{after_append};

mod instances;

use crate::grouped::{Grouped, GroupedStore};
use crate::layout::Layout;
use crate::lent::LentStore;
use crate::plain::{Plain, PlainStore};
use parts::store::{LabelStore, StoreFault};
use std::process::Abort;
use std::test::Fail;
use tags::refusal::Refusal;

fn sizes<L: Layout>(rt: &impl Abort, cases: [(usize, usize, bool); 6]) {
    for (bytes, starts, taken) in cases {
        assert_eq!(rt; LentStore::<L>::check_sizes(bytes, starts).is_ok(), taken);
    }
    assert_eq!(rt;
        LentStore::<L>::check_sizes(0, 0),
        Err(Refusal::StoreMemory)
    );
}

#[test]
fn plain_sizes(rt: HostRuntime) {
    let cases = [
        (1, 1, true),
        (1_048_576, 32_768, true),
        (0, 1, false),
        (1, 0, false),
        (1_048_577, 1, false),
        (1, 32_769, false),
    ];
    sizes::<Plain>(&rt, cases);
}

#[test]
fn grouped_sizes(rt: HostRuntime) {
    let cases = [
        (17, 1, true),
        (1_081_344, 2_048, true),
        (16, 1, false),
        (17, 0, false),
        (1_081_345, 2_048, false),
        (1_081_344, 2_049, false),
    ];
    sizes::<Grouped>(&rt, cases);
}

// Labels of 0, 1, 200 and 201 bytes of s, which has 202, where the byte room is so many.
fn lengths<S: LabelStore>(rt: &impl Abort, store: &mut S, s: &[u8], room: usize) {
    assert_eq!(rt; store.byte_room() as usize, room);
    assert_eq!(rt; store.append(s, 203), Err(StoreFault::StartBeyond));
    assert_eq!(rt; store.append(s, 0), Err(StoreFault::LabelTooLong));
    for from in [202, 201, 2] {
        assert_eq!(rt; store.append(s, from), Ok(()));
    }
    let last = store.append(s, 1);
    assert_eq!(rt; last.is_ok(), room >= 402);
    assert_eq!(rt; store.append(s, 1), Err(StoreFault::BytesUsed));
    for (v, length) in [(0, 0), (1, 1), (2, 200)] {
        assert_eq!(rt; store.length(v), Ok(length));
        assert_eq!(rt; store.byte(v, length), Err(StoreFault::NoByte));
    }
    assert_eq!(rt; store.byte(2, 199), Ok(5));
    assert_eq!(rt; store.byte(9, 0), Err(StoreFault::NoLabel));
    assert_eq!(rt; store.length(9), Err(StoreFault::NoLabel));
}

#[test]
fn label_lengths(rt: HostRuntime) -> Result<(), Fail> {
    let heap = rt.alloc();
    let s = vec![in heap; 5; 202]?;
    for room in [401, 402] {
        let mut bytes = vec![in heap; 7; room]?;
        let mut starts = vec![in heap; 9; 5]?;
        lengths(&rt, &mut PlainStore::new(&mut bytes, &mut starts), &s, room);
        let mut bytes = vec![in heap; 7; 16 + room]?;
        let mut starts = vec![in heap; 9; 1]?;
        lengths(
            &rt,
            &mut GroupedStore::new(&mut bytes, &mut starts),
            &s,
            room,
        );
    }
    Ok(())
}

// Fills the places with empty labels.
fn fill_places<S: LabelStore>(rt: &impl Abort, store: &mut S, places: u32) {
    assert_eq!(rt; store.places(), places);
    for v in 0..places {
        assert_eq!(rt; store.count(), v);
        assert_eq!(rt; store.append(b"", 0), Ok(()));
    }
    assert_eq!(rt; store.append(b"", 0), Err(StoreFault::PlacesUsed));
    assert_eq!(rt; store.total(), 0);
}

// Memory that is refused gives no places, and none of it changes.
#[test]
fn places(rt: HostRuntime) {
    let mut bytes = [7; 17];
    let mut starts = [9; 1];
    fill_places(&rt, &mut PlainStore::new(&mut bytes, &mut []), 0);
    fill_places(&rt, &mut GroupedStore::new(&mut [], &mut starts), 0);
    assert!(rt; bytes == [7; 17] && starts == [9]);
    fill_places(&rt, &mut PlainStore::new(&mut bytes, &mut starts), 1);
    fill_places(&rt, &mut GroupedStore::new(&mut bytes, &mut starts), 16);
}

// Label v is s from place v on.
fn tails<S: LabelStore>(rt: &impl Abort, store: &mut S, s: &[u8; 17]) {
    for from in 0..17 {
        assert_eq!(rt; store.append(s, from), Ok(()));
    }
    for v in 0..17 {
        let from = v as usize;
        assert_eq!(rt; store.length(v), Ok(17 - from));
        assert_eq!(rt; store.byte(v, 0), Ok(s[from]));
        assert_eq!(rt; store.meet(v, s, from), Ok(17 - from));
    }
    assert_eq!(rt; store.count(), 17);
    assert_eq!(rt; store.append(s, 16), Err(StoreFault::BytesUsed));
}

#[test]
fn second_group(rt: HostRuntime) -> Result<(), Fail> {
    let heap = rt.alloc();
    let s = b"abcdefghijklmnopq";
    let mut bytes = vec![in heap; 255; 185]?;
    let mut starts = vec![in heap; 255; 2]?;
    tails(&rt, &mut GroupedStore::new(&mut bytes, &mut starts), s);
    let mut bytes = vec![in heap; 255; 153]?;
    let mut starts = vec![in heap; 255; 20]?;
    tails(&rt, &mut PlainStore::new(&mut bytes, &mut starts), s);
    Ok(())
}

fn meets<S: LabelStore>(rt: &impl Abort, store: &mut S) {
    assert_eq!(rt; store.append(b"abc", 0), Ok(()));
    let s = b"xabcd";
    for (from, agreed) in [(0, 0), (1, 3), (2, 0), (5, 0)] {
        assert_eq!(rt; store.meet(0, s, from), Ok(agreed));
    }
    assert_eq!(rt; store.meet(0, b"abc", 0), Ok(3));
    assert_eq!(rt; store.meet(0, b"ab", 0), Ok(2));
    assert_eq!(rt; store.meet(0, s, 6), Err(StoreFault::StartBeyond));
    assert_eq!(rt; store.meet(1, s, 6), Err(StoreFault::NoLabel));
}

#[test]
fn meet(rt: HostRuntime) {
    let mut bytes = [b'd'; 20];
    let mut starts = [9; 1];
    meets(&rt, &mut PlainStore::new(&mut bytes, &mut starts));
    meets(&rt, &mut GroupedStore::new(&mut bytes, &mut starts));
}

// What the lent memory holds once the store is gone.
fn append_first<L: Layout>(
    bytes: &mut [u8],
    starts: &mut [u32],
    s: &[u8],
    from: usize,
) -> Result<(), StoreFault>
    ensures bytes { bytes.new ≡ after_append result (L.bytes_with bytes.old 0 0 (drop from s.now)) bytes.old }
    ensures starts { starts.new ≡ after_append result (L.starts_with starts.old 0 0) starts.old }
{
    let mut store = LentStore::<L>::new(bytes, starts);
    store.append(s, from)
}

#[test]
fn memory(rt: HostRuntime) {
    let mut bytes = [7; 4];
    let mut starts = [9; 2];
    assert_eq!(rt;
        append_first::<Plain>(&mut bytes, &mut starts, b"abc", 1),
        Ok(())
    );
    assert!(rt; bytes == [b'b', b'c', 7, 7] && starts == [0, 9]);
    let mut bytes = [7; 18];
    let mut starts = [9; 1];
    assert_eq!(rt;
        append_first::<Grouped>(&mut bytes, &mut starts, b"xyz", 1),
        Ok(())
    );
    assert!(rt; bytes[..4] == [2, b'y', b'z', 7][..] && starts == [0]);
}
