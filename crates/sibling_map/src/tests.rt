ghost use Rattle.std.specs.Prelude.{◌≡◌, ◌<◌, ◌≤◌};
ghost use Rattle.rules.specs.declared.step.Step.TheVariants.{By32};
ghost use Rattle.parts.specs.Maps.{add_answer, add_next};
ghost use Rattle.parts.specs.Sizes.{map_for};
ghost use Rattle.sibling_map.specs.Meaning.{capacity, size_of, start_records, records_for};

use crate::map::check_records;
use crate::record::NodeRecord;
use crate::shape::SiblingMap;
use parts::map::NodeMap;
use std::process::Abort;
use std::test::Fail;
use tags::refusal::MapFault;

// No record of a node: records may hold anything before they are lent.
const WILD: NodeRecord = NodeRecord {
    parent: 7,
    symbol: 65_535,
    first: Some(65_535),
    next: Some(0),
};

// What a caller's records hold when a map in them is gone.
fn one_node(records: &mut [NodeRecord], c: u16) -> Result<u32, MapFault>
    ensures answer { result ≡ add_answer By32 (map_for capacity (size_of records.old)) 0 c }
    ensures memory { records.new ≡ records_for (add_answer By32 (map_for capacity (size_of records.old)) 0 c) (add_next By32 (map_for capacity (size_of records.old)) 0 c).edges (start_records (size_of records.old) records.old) }
{
    let mut map = SiblingMap::new(records);
    map.add(0, c)
}

// Node v hangs below v div width by v mod width.
fn fill<M: NodeMap>(rt: &impl Abort, map: &mut M, width: u32) -> Result<(), Fail>
    requires { (0 < width) × (width ≤ 8192) }
{
    let last = map.last_room();
    assert_eq!(rt; map.count(), 1);
    assert_eq!(rt; map.room(), 16);
    for v in 1..last {
        if v == map.room() {
            assert_eq!(rt; map.add(0, 8191), Err(MapFault::RoomFull));
            assert_eq!(rt; map.double()? / 2, v);
        }
        assert_eq!(rt; map.add(v / width, (v % width) as u16), Ok(v));
    }
    assert_eq!(rt; map.count(), last);
    assert_eq!(rt; map.double(), Err(MapFault::LastRoom));
    Ok(())
}

fn read_back<M: NodeMap>(rt: &impl Abort, map: &M, width: u32)
    requires { (0 < width) × (width ≤ 8192) }
{
    for v in 1..map.count() {
        let u = v / width;
        let c = (v % width) as u16;
        assert_eq!(rt; map.child(u, c), Ok(Some(v)));
        assert_eq!(rt; map.child(u, 8191), Ok(None));
        assert_eq!(rt; map.up(v), Ok((u, c)));
    }
}

fn fills(rt: &impl Abort, records: &mut [NodeRecord], count: usize, width: u32) -> Result<(), Fail>
    requires { (0 < width) × (width ≤ 8192) }
{
    assert!(rt; count <= records.len());
    let mut map = SiblingMap::new(&mut records[..count]);
    fill(rt, &mut map, width)?;
    read_back(rt, &map, width);
    Ok(())
}

#[test]
fn sizes(rt: HostRuntime) {
    assert!(rt; check_records(16).is_ok() && check_records(32_768).is_ok());
    for count in [0, 1, 15, 17, 24, 65_536] {
        assert!(rt; check_records(count).is_err());
    }
}

#[test]
fn filled_to_the_last_room(rt: HostRuntime) -> Result<(), Fail> {
    let mut records = [WILD; 128];
    fills(&rt, &mut records, 16, 3)?;
    // The records are lent again as they were left.
    fills(&rt, &mut records, 32, 200)?;
    fills(&rt, &mut records, 64, 5)?;
    fills(&rt, &mut records, 128, 200)
}

#[test]
fn faults_in_their_order(rt: HostRuntime) -> Result<(), Fail> {
    let mut records = [NodeRecord::BLANK; 16];
    let mut map = SiblingMap::new(&mut records);
    assert_eq!(rt; map.child(1, 8192), Err(MapFault::NoNode));
    assert_eq!(rt; map.child(0, 8192), Err(MapFault::SymbolTooLarge));
    assert_eq!(rt; map.child(0, 8191), Ok(None));
    assert_eq!(rt; map.up(0), Err(MapFault::NoNode));
    fill(&rt, &mut map, 200)?;
    assert_eq!(rt; map.up(16), Err(MapFault::NoNode));
    assert_eq!(rt; map.add(16, 8192), Err(MapFault::NoNode));
    assert_eq!(rt; map.add(15, 8192), Err(MapFault::SymbolTooLarge));
    assert_eq!(rt; map.add(0, 15), Err(MapFault::PairTaken));
    assert_eq!(rt; map.add(0, 16), Err(MapFault::RoomFull));
    Ok(())
}

#[test]
fn made_despite_11(rt: HostRuntime) {
    let mut records = [WILD; 17];
    let mut map = SiblingMap::new(&mut records);
    assert_eq!(rt; map.count(), 1);
    assert_eq!(rt; map.room(), 1);
    assert_eq!(rt; map.last_room(), 1);
    assert_eq!(rt; map.child(0, 5), Ok(None));
    assert_eq!(rt; map.add(0, 5), Err(MapFault::RoomFull));
    assert_eq!(rt; map.double(), Err(MapFault::LastRoom));
    for record in records {
        assert_eq!(rt; record.parent, 7);
        assert_eq!(rt; record.first, Some(65_535));
    }
}

#[test]
fn records_of_two_nodes(rt: HostRuntime) {
    let mut records = [WILD; 16];
    assert_eq!(rt; one_node(&mut records, 5), Ok(1));
    assert_eq!(rt; records[0].first, Some(1));
    assert_eq!(rt; records[1].symbol, 5);
    assert_eq!(rt; records[1].next, None);
    assert_eq!(rt; records[2].parent, 7);
}
