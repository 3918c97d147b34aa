ghost use Rattle.std.specs.Prelude.{◌≡◌, ◌^◌, ◌<◌, ◌++◌, length, decimal};

use itoa::Buffer;

// Lent bytes that text is written into from the first on, as far as they go, and how many bytes were written, whether they
// fit or not. A `write!` promises its text only where it answers `Ok`, and no contract says when it does; what is printed
// for a list is promised always, so it is laid as bytes.
#[derive(Drop)]
pub(crate) struct Output<'a> {
    out: &'a mut [u8],
    at: usize,
    ghost short: { length out.now < 2 ^ 64 },
    ghost counted: { at < 2 ^ 64 },
}

impl<'a> Output<'a> {
    ghost use Rattle.session.specs.Output.{Wrote};

    pub(crate) fn new(out: &'a mut [u8]) -> Output<'a>
        ensures same { result.out.ghost_name ≡ out.entry.ghost_name }
        ensures bytes { result.out.now ≡ out.old }
        ensures start { result.at ≡ 0 }
    {
        Output { out, at: 0 }
    }

    // How many bytes were written.
    pub(crate) fn count(&self) -> usize
        ensures { result ≡ self.now.at }
    {
        self.at
    }

    pub(crate) fn put(&mut self, text: &[u8])
        ensures { Wrote self.old text.now self.new }
    {
        if self.at < self.out.len() {
            let n = text.len().min(self.out.len() - self.at);
            self.out[self.at..self.at + n].copy_from_slice(&text[..n]);
        }
        self.at = self.at.saturating_add(text.len());
    }

    // Writes a word and a number in decimal.
    pub(crate) fn put_with(&mut self, word: &[u8], n: u32)
        ensures { Wrote self.old (word.now ++ decimal n) self.new }
    {
        self.put(word);
        self.put(Buffer::new().format(n).as_bytes());
    }
}
