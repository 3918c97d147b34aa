ghost use Rattle.std.specs.Prelude.{◌≡◌, ◌^◌, ◌<◌, ◌≤◌, length};
ghost use Rattle.sibling_map.specs.Records.{edges_in, Parents, Symbols, Distinct, Laid};

use crate::record::NodeRecord;

// A node map in lent records, one for each node. Where their number is none that it takes, it has the one room 1, which is
// 2^0, and uses no record; as an `Option`, `room`, `last_room` and `double` would also have to ask whether there are records.
#[derive(Drop)]
pub struct SiblingMap<'a> {
    pub(crate) records: &'a mut [NodeRecord],
    // The nodes besides node 0.
    pub(crate) later: u32,
    // The current room is 2^log, the last 2^top.
    pub(crate) log: u32,
    pub(crate) top: u32,
    ghost fits: { later < 2 ^ log },
    ghost rooms: { log ≤ top },
    ghost most: { top ≤ 15 },
    ghost whole: { (0 < top → length records.now ≡ 2 ^ top) },
    ghost parents: { Parents (edges_in records.now later) },
    ghost symbols: { Symbols (edges_in records.now later) },
    ghost distinct: { Distinct (edges_in records.now later) },
    ghost laid: { Laid top records.now later },
}
