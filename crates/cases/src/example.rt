// The example of the README.
use dictionary::calls::DictionaryCalls;
use dictionary::dictionary::{Dictionary, Parts};
use parts::map::NodeMap;
use parts::shelf::Shelf;
use parts::store::LabelStore;
use rules::answers::{Found, Held};
use std::process::Abort;
use tags::refusal::Refusal;

// A day of two sorters: both are entered, one counts on, the other is taken away.
fn day<D: DictionaryCalls<Value = u32>>(d: &mut D) -> Result<Found<u32>, Refusal> {
    d.enter(b"north/arcade-7/sorter-0041", 250)?;
    d.enter(b"north/arcade-7/sorter-0042", 90)?;
    d.change(b"north/arcade-7/sorter-0041", 310)?;
    d.strike(b"north/arcade-7/sorter-0042")?;
    d.find(b"north/arcade-7/sorter-0041")
}

// The day, on a dictionary over these parts.
pub(crate) fn day_over<M, L, S>(rt: &impl Abort, map: M, store: L, shelf: S)
where
    M: NodeMap + Drop,
    L: LabelStore + Drop,
    S: Shelf<Value = u32> + Drop,
{
    let mut d = Dictionary::new(Parts { map, store, shelf });
    let held = Some(Held {
        ticket: 0,
        value: 310,
    });
    assert_eq!(rt; day(&mut d), Ok(Found { held, moves: 0 }));
    let mut buffer = [0; 200];
    assert_eq!(rt; d.spell(1, &mut buffer), Ok(26));
    assert!(rt; buffer.starts_with(b"north/arcade-7/sorter-0042"));
}
