use crate::calls::{last_byte, last_node, unfit, worked};
use crate::example::day_over;
use compact_map::shape::CompactMap;
use label_stores::grouped::GroupedStore;
use label_stores::plain::PlainStore;
use parts::map::NodeMap;
use parts::store::LabelStore;
use shelves::bit::BitShelf;
use shelves::record::RecordShelf;
use sibling_map::record::NodeRecord;
use sibling_map::shape::SiblingMap;

// Eight tests, one for each combination of makes. Each is one call, and is its own test so that a failure names its makes.

#[test]
fn compact_plain_record(rt: HostRuntime) {
    worked(
        &rt,
        CompactMap::new(&mut [7; 448]),
        PlainStore::new(&mut [7; 600], &mut [7; 32]),
        RecordShelf::new(&mut [Some(7u32); 32]),
        5,
    )
}

#[test]
fn compact_plain_bit(rt: HostRuntime) {
    worked(
        &rt,
        CompactMap::new(&mut [7; 448]),
        PlainStore::new(&mut [7; 600], &mut [7; 32]),
        BitShelf::new(&mut [255; 8]),
        true,
    )
}

#[test]
fn compact_grouped_record(rt: HostRuntime) {
    worked(
        &rt,
        CompactMap::new(&mut [7; 448]),
        GroupedStore::new(&mut [7; 600], &mut [7; 2]),
        RecordShelf::new(&mut [Some(7u32); 32]),
        5,
    )
}

#[test]
fn compact_grouped_bit(rt: HostRuntime) {
    worked(
        &rt,
        CompactMap::new(&mut [7; 448]),
        GroupedStore::new(&mut [7; 600], &mut [7; 2]),
        BitShelf::new(&mut [255; 8]),
        true,
    )
}

#[test]
fn sibling_plain_record(rt: HostRuntime) {
    worked(
        &rt,
        SiblingMap::new(&mut [NodeRecord::BLANK; 32]),
        PlainStore::new(&mut [7; 600], &mut [7; 32]),
        RecordShelf::new(&mut [Some(7u32); 32]),
        5,
    )
}

#[test]
fn sibling_plain_bit(rt: HostRuntime) {
    worked(
        &rt,
        SiblingMap::new(&mut [NodeRecord::BLANK; 32]),
        PlainStore::new(&mut [7; 600], &mut [7; 32]),
        BitShelf::new(&mut [255; 8]),
        true,
    )
}

#[test]
fn sibling_grouped_record(rt: HostRuntime) {
    worked(
        &rt,
        SiblingMap::new(&mut [NodeRecord::BLANK; 32]),
        GroupedStore::new(&mut [7; 600], &mut [7; 2]),
        RecordShelf::new(&mut [Some(7u32); 32]),
        5,
    )
}

#[test]
fn sibling_grouped_bit(rt: HostRuntime) {
    worked(
        &rt,
        SiblingMap::new(&mut [NodeRecord::BLANK; 32]),
        GroupedStore::new(&mut [7; 600], &mut [7; 2]),
        BitShelf::new(&mut [255; 8]),
        true,
    )
}

#[test]
fn one_node_left(rt: HostRuntime) {
    let mut slots = [7u8; 224];
    let mut bytes = [7u8; 600];
    let mut starts = [7u32; 16];
    let mut places = [None; 16];
    last_node(
        &rt,
        CompactMap::new(&mut slots),
        PlainStore::new(&mut bytes, &mut starts),
        RecordShelf::new(&mut places),
        5u32,
    );
    let mut records = [NodeRecord::BLANK; 16];
    let mut bits = [0u8; 4];
    last_node(
        &rt,
        SiblingMap::new(&mut records),
        PlainStore::new(&mut bytes, &mut starts),
        BitShelf::new(&mut bits),
        false,
    )
}

#[test]
fn bytes_just_enough(rt: HostRuntime) {
    let mut slots = [7u8; 224];
    let mut bytes = [7u8; 12];
    let mut starts = [7u32; 16];
    let mut places = [None; 16];
    last_byte(
        &rt,
        CompactMap::new(&mut slots),
        PlainStore::new(&mut bytes, &mut starts),
        RecordShelf::new(&mut places),
        5u32,
    );
    let mut grouped = [7u8; 28];
    let mut groups = [7u32; 1];
    last_byte(
        &rt,
        CompactMap::new(&mut slots),
        GroupedStore::new(&mut grouped, &mut groups),
        RecordShelf::new(&mut places),
        5u32,
    )
}

#[test]
fn too_few_places(rt: HostRuntime) {
    let mut slots = [7u8; 448];
    let mut bytes = [7u8; 600];
    let mut few = [7u32; 27];
    let mut places = [None; 28];
    unfit(
        &rt,
        CompactMap::new(&mut slots),
        PlainStore::new(&mut bytes, &mut few),
        RecordShelf::new(&mut places),
        5u32,
    );
    let mut starts = [7u32; 28];
    let mut six = [0u8; 6];
    unfit(
        &rt,
        CompactMap::new(&mut slots),
        PlainStore::new(&mut bytes, &mut starts),
        BitShelf::new(&mut six),
        true,
    )
}

#[test]
fn parts_in_use(rt: HostRuntime) {
    let mut slots = [7u8; 224];
    let mut bytes = [7u8; 600];
    let mut starts = [7u32; 16];
    let mut places = [None; 16];
    let mut map = CompactMap::new(&mut slots);
    let _ = map.add(0, 0);
    unfit(
        &rt,
        map,
        PlainStore::new(&mut bytes, &mut starts),
        RecordShelf::new(&mut places),
        5u32,
    );
    let mut store = PlainStore::new(&mut bytes, &mut starts);
    let _ = store.append(b"x", 1);
    unfit(
        &rt,
        CompactMap::new(&mut slots),
        store,
        RecordShelf::new(&mut places),
        5u32,
    )
}

#[test]
fn example(rt: HostRuntime) {
    let mut slots = [0u8; 14 * 16];
    let mut bytes = [0u8; 1_000];
    let mut starts = [0u32; 16];
    let mut amounts = [None; 16];
    let map = CompactMap::new(&mut slots);
    let store = PlainStore::new(&mut bytes, &mut starts);
    let shelf = RecordShelf::new(&mut amounts);
    day_over(&rt, map, store, shelf)
}
