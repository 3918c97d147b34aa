ghost use Rattle.std.specs.Prelude.{◌≡◌, ◌+◌, ◌*◌, ◌^◌, ◌<◌, ◌≤◌, length};
ghost use Rattle.compact_map.specs.Bytes.{number_at, Written};

// The number that N bytes hold, the most significant first.
pub(crate) fn read_number<const N: usize>(bytes: &[u8], at: usize) -> u64
    requires inside { at + N ≤ length bytes.now }
    requires short { N ≤ 6 }
    ensures is { result ≡ number_at bytes.now at N }
    ensures small { result < 2 ^ (8 * N) }
{
    bytes[at..at + N]
        .iter()
        .fold(0, |number, &byte| number << 8 | u64::from(byte))
}

// Writes the last N bytes of the number.
pub(crate) fn write_number<const N: usize>(bytes: &mut [u8], at: usize, number: u64)
    requires inside { at + N ≤ length bytes.old }
    requires short { N ≤ 8 }
    ensures { Written N bytes.old bytes.new at number }
{
    let word = number.to_be_bytes();
    bytes[at..at + N].copy_from_slice(&word[8 - N..]);
}
