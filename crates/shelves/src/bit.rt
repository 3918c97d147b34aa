ghost use Rattle.std.proofs.Common.{rules};
ghost use Rattle.std.specs.Prelude.{◌≡◌, ◌*◌, ◌<◌};
ghost use Rattle.shelves.specs.Lent.{size_answer, size_of};
ghost use Rattle.shelves.specs.Bits.{most_bytes, pair_in, place_of, pair_of, with_pair, bit_places, bit_new, bit_set};
ghost use Rattle.shelves.specs.BitLaws.{bit_laws};

use crate::lent::{Element, LentShelf, check_size};
use tags::refusal::Refusal;

// The most bytes that a bit shelf takes.
const MOST_BYTES: usize = 8_192;

// A shelf of yes and no in lent bytes, four places a byte, two bits each, most significant first: present, value.
pub type BitShelf<'a> = LentShelf<'a, u8>;

// Whether a bit shelf takes this many bytes.
pub fn check_bytes(count: usize) -> Result<(), Refusal>
    ensures { result ≡ size_answer most_bytes count }
{
    check_size(count, MOST_BYTES)
}

// The two bits of place k of a byte. This and what follows are the layout of the bits itself: as a conversion it would need
// a type of its own for two bits, and be no plainer.
fn pair_in(byte: u8, k: u32) -> u8
    requires { k < 4 }
    ensures { result ≡ pair_in byte k }
{
    byte >> (6 - 2 * k) & 3
}

// What two bits say.
fn place_of(pair: u8) -> Option<bool>
    ensures { result ≡ place_of pair }
{
    match pair {
        2 => Some(false),
        3 => Some(true),
        _ => None,
    }
}

// The two bits of a place; both are 0 where it is blank.
fn pair_of(place: Option<bool>) -> u8
    ensures pair { result ≡ pair_of place }
    ensures small { result < 4 }
{
    match place {
        None => 0,
        Some(false) => 2,
        Some(true) => 3,
    }
}

// A byte with the bits of place k replaced.
fn with_pair(byte: u8, k: u32, pair: u8) -> u8
    requires { (k < 4) × (pair < 4) }
    ensures { result ≡ with_pair byte k pair }
{
    let shift = 6 - 2 * k;
    byte & !(3 << shift) | pair << shift
}

impl Element for u8 {
    type Value = bool;

    const EACH: u32 = 4;

    const MOST: usize = MOST_BYTES;

    const BLANK: u8 = 0;

    ghost EACH = { 4 };

    ghost MOST = { most_bytes };

    ghost BLANK = { 0 };

    ghost look = { λ byte k. place_of (pair_in byte k) };

    ghost write = { λ byte k place. with_pair byte k (pair_of place) };

    ghost room = { λ count. 4 * size_of most_bytes count };

    ghost places = { bit_places };

    ghost fresh = { bit_new };

    ghost changed = { bit_set };

    ghost laws = { bit_laws };

    ghost clones = { Prim.search rules };

    fn look(self, k: u32) -> Option<bool> {
        place_of(pair_in(self, k))
    }

    fn write(self, k: u32, place: Option<bool>) -> u8
        requires { k < 4 }
        ensures { result ≡ with_pair self k (pair_of place) }
    {
        with_pair(self, k, pair_of(place))
    }
}
