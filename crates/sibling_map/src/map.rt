ghost use Rattle.std.specs.Prelude.{◌≡◌, ◌^◌, ◌<◌, ◌≤◌, false, is_ok};
ghost use Rattle.rules.specs.declared.step.Step.TheVariants.{By32};
ghost use Rattle.rules.specs.Tree.{child};
ghost use Rattle.parts.specs.Maps.{add_answer, add_next, double_answer, double_next};
ghost use Rattle.parts.specs.Sizes.{power_for, size_answer, map_for};
ghost use Rattle.sibling_map.specs.Meaning.{capacity, meaning_of, size_of, start_records, add_records};

use crate::record::NodeRecord;
use crate::shape::SiblingMap;
use parts::map::NodeMap;
use parts::sizes::{check_size, power_for};
use tags::refusal::{MapFault, Refusal};

// Whether a map can be made in so many records: 16, 32, up to 32,768.
pub fn check_records(count: usize) -> Result<(), Refusal>
    ensures { result ≡ size_answer (power_for count 1) }
{
    check_size(count, 1)
}

// The room of a current size.
fn room_at(log: u32) -> u32
    requires { log ≤ 15 }
    ensures { result ≡ 2 ^ log }
{
    1 << log
}

impl<'a> SiblingMap<'a> {
    // A map with node 0 alone, its first room current. The records may hold anything.
    pub fn new(records: &'a mut [NodeRecord]) -> SiblingMap<'a>
        ensures meaning { meaning_of result ≡ map_for capacity (size_of records.old) }
        ensures memory { result.records.now ≡ start_records (size_of records.old) records.old }
        ensures lender { result.records.ghost_name ≡ records.entry.ghost_name }
    {
        let Some(top) = power_for(records.len(), 1) else {
            return SiblingMap {
                records,
                later: 0,
                log: 0,
                top: 0,
            };
        };
        records[0] = NodeRecord::BLANK;
        SiblingMap {
            records,
            later: 0,
            log: 4,
            top,
        }
    }

    // The child of node u by the symbol c, looked for among its children from the newest on.
    fn find(&self, u: u32, c: u16) -> Option<u32>
        requires { u ≤ self.now.later }
        ensures { result ≡ child (meaning_of self.now).edges u c }
    {
        if self.top == 0 {
            return None;
        }
        let mut at = self.records[u as usize].first;
        while let Some(v) = at {
            let record = self.records[v as usize];
            if record.symbol == c {
                return Some(u32::from(v));
            }
            at = record.next;
        }
        None
    }
}

impl NodeMap for SiblingMap<'_> {
    ghost meaning = { meaning_of };

    fn count(&self) -> u32 {
        self.later + 1
    }

    fn room(&self) -> u32 {
        room_at(self.log)
    }

    fn last_room(&self) -> u32 {
        room_at(self.top)
    }

    // `child` and the heads of `add` and `double` read as in the compact map, which says why.
    fn child(&self, u: u32, c: u16) -> Result<Option<u32>, MapFault> {
        self.check_pair(u, c)?;
        Ok(self.find(u, c))
    }

    fn add(&mut self, u: u32, c: u16) -> Result<u32, MapFault>
        ensures answer { result ≡ add_answer By32 (meaning_of self.old) u c }
        ensures next { meaning_of self.new ≡ add_next By32 (meaning_of self.old) u c }
        ensures kept { is_ok result ≡ false → self.new ≡ self.old }
        ensures memory { self.new.records.now ≡ add_records self.old u c }
        ensures lender { self.new.records.ghost_name ≡ self.old.records.ghost_name }
    {
        self.check_pair(u, c)?;
        if self.find(u, c).is_some() {
            return Err(MapFault::PairTaken);
        }
        let v = self.later + 1;
        if v >= room_at(self.log) {
            return Err(MapFault::RoomFull);
        }
        let next = self.records[u as usize].first;
        self.records[v as usize] = NodeRecord {
            parent: u as u16,
            symbol: c,
            first: None,
            next,
        };
        self.records[u as usize].first = Some(v as u16);
        self.later = v;
        Ok(v)
    }

    fn up(&self, v: u32) -> Result<(u32, u16), MapFault> {
        if v == 0 || v > self.later {
            return Err(MapFault::NoNode);
        }
        let record = self.records[v as usize];
        Ok((u32::from(record.parent), record.symbol))
    }

    fn double(&mut self) -> Result<u32, MapFault>
        ensures answer { result ≡ double_answer (meaning_of self.old) }
        ensures next { meaning_of self.new ≡ double_next (meaning_of self.old) }
        ensures kept { is_ok result ≡ false → self.new ≡ self.old }
        ensures memory { self.new.records.now ≡ self.old.records.now }
        ensures lender { self.new.records.ghost_name ≡ self.old.records.ghost_name }
    {
        if self.log == self.top {
            return Err(MapFault::LastRoom);
        }
        self.log += 1;
        Ok(room_at(self.log))
    }
}
