ghost use Rattle.std.specs.Prelude.{◌≡◌, ◌*◌, ◌%◌, ◌^◌, ◌<◌, ◌≤◌};
ghost use Rattle.compact_map.specs.Hash.{fold as folded, hash as hashed, unhash as unhashed};

// A symbol has so many bits.
pub(crate) const SYMBOL_BITS: u32 = 13;

const FACTOR: u64 = 2_654_435_761;

// The product of both is 1 in 32 bits.
const INVERSE: u64 = 244_002_641;

fn fold(z: u32, k: u32) -> u32
    requires { z ≤ 29 }
    ensures { result ≡ folded z k }
{
    k ^ (k >> (z / 2 + 1))
}

// A product of z bits.
fn times(z: u32, x: u32, by: u64) -> u32
    requires { (z ≤ 29) × (by < 2 ^ 32) }
    ensures { result ≡ x * by % 2 ^ z }
{
    (u64::from(x) * by % (1u64 << z)) as u32
}

// The hash of a key of z bits.
pub(crate) fn hash(z: u32, key: u32) -> u32
    requires { z ≤ 29 }
    ensures { result ≡ hashed z key }
{
    fold(z, times(z, key, FACTOR))
}

// The key of z bits that has this hash.
pub(crate) fn unhash(z: u32, hash: u32) -> u32
    requires { z ≤ 29 }
    ensures { result ≡ unhashed z hash }
{
    times(z, fold(z, hash), INVERSE)
}
