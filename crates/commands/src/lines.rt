ghost use Rattle.std.specs.Prelude.{◌≡◌, ◌≤◌, [], ◌∷◌, length, MatchOption};
ghost use Rattle.commands.specs.Lines.{lines, place_of};

// Where a byte first stands; the length where it stands nowhere.
// No `Option`: both callers cut the text there, and after its last byte where there is no such byte.
pub(crate) fn place_of(byte: u8, text: &[u8]) -> usize
    ensures place { result ≡ place_of byte text.now }
    ensures within { result ≤ length text.now }
{
    text.iter().position(|&b| b == byte).unwrap_or(text.len())
}

// The first line of a text, and what follows its end.
fn first_line(text: &[u8]) -> Option<(&[u8], &[u8])>
    ensures { MatchOption result (lines text.now ≡ []) (λ cut. lines text.now ≡ cut.0.now ∷ lines cut.1.now) }
{
    if text.is_empty() {
        return None;
    }
    let (line, rest) = text.split_at(place_of(b'\n', text));
    Some((line, rest.get(1..).unwrap_or(&[])))
}

// The lines of a text, one by one. A line ends with byte 10, which the last may lack.
// Not the slice's own `split`: a line end that is the text's last byte starts no further line, and an empty text has no line;
// `split_inclusive` leaves each line its end.
#[derive(Drop)]
pub struct Lines<'a> {
    text: &'a [u8],
}

impl<'a> Lines<'a> {
    pub fn new(text: &'a [u8]) -> Lines<'a>
        ensures { result.text.now ≡ text.now }
    {
        Lines { text }
    }
}

impl<'a> Iterator for Lines<'a> {
    ghost use Rattle.std.specs.Iterator.{item_count};
    ghost use Rattle.commands.specs.Lines.{GivesLine, left};

    type Item = &'a [u8];

    ghost next_gives = { GivesLine };

    ghost remaining = { item_count left };

    // The next line, without its end. Once there is none, there is none again.
    fn next(&mut self) -> Option<&'a [u8]> {
        let (line, rest) = first_line(self.text)?;
        self.text = rest;
        Some(line)
    }
}
