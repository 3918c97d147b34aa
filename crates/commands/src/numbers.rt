ghost use Rattle.std.specs.Prelude.{◌≡◌};
ghost use Rattle.commands.specs.Numbers.{number};

// A number of 1 to 10 digits, at most 4,294,967,295.
pub(crate) fn read_number(text: &[u8]) -> Option<u32>
    ensures { result ≡ number text.now }
{
    if text.is_empty() || text.len() > 10 || !text.iter().all(|b| b.is_ascii_digit()) {
        return None;
    }
    // At most ten digits, so that nothing wraps. Not the library's `parse`, which reads a text: to make one of the bytes and
    // to read that takes twice as many instructions.
    let value = text.iter().fold(0u64, |value, &digit| {
        value
            .wrapping_mul(10)
            .wrapping_add(u64::from(digit.wrapping_sub(b'0')))
    });
    u32::try_from(value).ok()
}
