ghost use Rattle.std.specs.Prelude.{◌≡◌, ◌*◌, length, Some, slice_set};
ghost use Rattle.parts.specs.Shelves.{blanks, get_answer};
ghost use Rattle.shelves.specs.Bits.{most_bytes, bit_new, bit_set};
ghost use Rattle.shelves.specs.Lent.{size_of};
ghost use Rattle.shelves.specs.Records.{most_places, record_new, record_set};

use crate::bit::{BitShelf, check_bytes};
use crate::counts::Counts;
use crate::record::{RecordShelf, check_places};
use crate::tally::{Tally, check_tally};
use parts::shelf::{Shelf, ShelfFault};
use std::test::Fail;
use tags::refusal::Refusal;

// Puts a value on a new shelf and reads it there; the lent list holds it after the shelf is gone.
fn keep<V: Copy>(list: &mut [Option<V>], n: u32, value: V) -> Result<Option<V>, ShelfFault>
    ensures answer { result ≡ get_answer (slice_set (blanks (size_of most_places (length list.old))) n (Some value)) n }
    ensures lent { list.new ≡ record_set (record_new list.old) n (Some value) }
{
    let mut shelf = RecordShelf::new(list);
    let _ = shelf.put(n, value);
    shelf.get(n)
}

// The same on a bit shelf. Each of the two says its shelf's promise in that shelf's own definitions, which the contract of
// one function over every kind of element could not.
fn keep_bit(bytes: &mut [u8], n: u32, value: bool) -> Result<Option<bool>, ShelfFault>
    ensures answer { result ≡ get_answer (slice_set (blanks (4 * size_of most_bytes (length bytes.old))) n (Some value)) n }
    ensures lent { bytes.new ≡ bit_set (bit_new bytes.old) n (Some value) }
{
    let mut shelf = BitShelf::new(bytes);
    let _ = shelf.put(n, value);
    shelf.get(n)
}

#[test]
fn sizes(rt: HostRuntime) {
    let refused = Err(Refusal::StoreMemory);
    for (count, answer) in [
        (0, refused),
        (1, Ok(())),
        (32_768, Ok(())),
        (32_769, refused),
    ] {
        assert_eq!(rt; check_places(count), answer);
    }
    for (count, answer) in [(0, refused), (1, Ok(())), (8_192, Ok(())), (8_193, refused)] {
        assert_eq!(rt; check_bytes(count), answer);
    }
}

#[test]
fn records(rt: HostRuntime) {
    let mut amounts = [Some(7_u32), None, Some(9)];
    assert_eq!(rt; keep(&mut amounts, 2, 5), Ok(Some(5)));
    assert_eq!(rt; amounts, [None, None, Some(5)]);
    assert_eq!(rt; keep(&mut amounts, 3, 5), Err(ShelfFault::NoPlace));
    assert_eq!(rt; amounts, [None, None, None]);
    assert_eq!(rt; keep(&mut [], 0, 5_u32), Err(ShelfFault::NoPlace));
    let counts = Counts {
        inserted: 3,
        accepted: 2,
        rejected: 1,
        takings: 50,
    };
    assert_eq!(rt; keep(&mut [None], 0, counts), Ok(Some(counts)));
}

#[test]
fn bits(rt: HostRuntime) {
    let mut bytes = [255, 255];
    assert_eq!(rt; keep_bit(&mut bytes, 7, true), Ok(Some(true)));
    assert_eq!(rt; bytes, [0, 0b0000_0011]);
    let mut shelf = BitShelf::new(&mut bytes);
    assert_eq!(rt; shelf.places(), 8);
    for n in 0..8 {
        assert_eq!(rt; shelf.get(n), Ok(None));
    }
    for (n, value) in [(0, true), (1, false), (2, false), (3, true)] {
        assert_eq!(rt; shelf.put(n, value), Ok(()));
        assert_eq!(rt; shelf.get(n), Ok(Some(value)));
    }
    assert_eq!(rt; shelf.clear(2), Ok(()));
    assert_eq!(rt; shelf.get(2), Ok(None));
    assert_eq!(rt; shelf.put(8, true), Err(ShelfFault::NoPlace));
    assert_eq!(rt; bytes, [0b1110_0011, 0]);
}

#[test]
fn too_large(rt: HostRuntime) -> Result<(), Fail> {
    let mut amounts = vec![in rt.alloc(); Some(7_u32); 32_769]?;
    assert_eq!(rt; keep(&mut amounts, 0, 5), Err(ShelfFault::NoPlace));
    for amount in amounts.iter() {
        assert_eq!(rt; *amount, Some(7));
    }
    let mut bytes = vec![in rt.alloc(); 255_u8; 8_193]?;
    assert_eq!(rt; keep_bit(&mut bytes, 0, true), Err(ShelfFault::NoPlace));
    for byte in bytes.iter() {
        assert_eq!(rt; *byte, 255);
    }
    Ok(())
}

#[test]
fn tallies(rt: HostRuntime) {
    for (inserted, accepted, rejected, balanced) in [
        (3, 2, 1, true),
        (4, 2, 1, false),
        (2, 2, 1, false),
        (0, 0, 0, true),
        (0, u32::MAX, 1, false),
    ] {
        let counts = Counts {
            inserted,
            accepted,
            rejected,
            takings: 50,
        };
        let answer = if balanced {
            Ok(counts)
        } else {
            Err(Refusal::UnbalancedTally)
        };
        assert_eq!(rt; check_tally(counts), answer.map(|_| ()));
        assert_eq!(rt; Tally::try_from(counts).map(Counts::from), answer);
    }
}
