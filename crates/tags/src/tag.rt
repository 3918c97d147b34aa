ghost use Rattle.std.specs.Prelude.{◌≡◌, ◌+◌, ◌≤◌, ◌++◌, length, take, drop, Some, None, MatchResult};
ghost use Rattle.tags.specs.Tags.{WellFormed, is_bad, any_bad, tag_refusal, checked, spelled, padded, tag_of, SpelledFrom};

use crate::refusal::Refusal;

// A checked tag: a reading window on the caller's own bytes, 1 to 200 of them, each from 1 to 254.
#[derive(Clone, Copy)]
pub struct Tag<'a> {
    bytes: &'a [u8],
    ghost form: { WellFormed bytes.now },
}

// The spelled form of a tag, at the beginning of the bytes; 0 follows. An array and a length: nothing here has a heap, and
// what is promised of all 201 bytes, an `ArrayVec` does not have behind its length.
#[derive(Clone, Copy)]
pub struct Spelled {
    bytes: [u8; 201],
    len: usize,
    ghost within: { len ≤ 201 },
}

// Whether a byte is not from 1 to 254.
fn is_bad(byte: u8) -> bool
    ensures { result ≡ is_bad byte }
{
    matches!(byte, 0 | 255)
}

// Looks at every byte, with no way out before the end, so that the compiler can look at many at a time.
fn any_bad(bytes: &[u8]) -> bool
    ensures { result ≡ any_bad bytes.now }
{
    let mut bad = false;
    for byte in bytes {
        bad |= is_bad(*byte);
    }
    bad
}

// Whether bytes are a tag: else the first of empty, too long, a bad byte.
pub fn check(bytes: &[u8]) -> Result<(), Refusal>
    ensures { result ≡ checked bytes.now }
{
    if bytes.is_empty() {
        return Err(Refusal::EmptyTag);
    }
    if bytes.len() > 200 {
        return Err(Refusal::LongTag);
    }
    if any_bad(bytes) {
        return Err(Refusal::BadByte);
    }
    Ok(())
}

// The tag that bytes are, or why they are none.
impl<'a> TryFrom<&'a [u8]> for Tag<'a> {
    type Error = Refusal;

    ghost try_from_gives = { λ bytes answer. MatchResult answer (λ tag. (tag_refusal bytes.now ≡ None) × (tag.bytes.now ≡ bytes.now)) (λ why. tag_refusal bytes.now ≡ Some why) };

    fn try_from(bytes: &'a [u8]) -> Result<Tag<'a>, Refusal> {
        check(bytes)?;
        Ok(Tag { bytes })
    }
}

impl<'a> Tag<'a> {
    // The tag that checked bytes are, for a caller that has checked them: this cannot fail. Bytes that `check` refuses give
    // the tag `?`.
    pub fn new(bytes: &'a [u8]) -> Tag<'a>
        ensures { result.bytes.now ≡ tag_of bytes.now }
    {
        Tag::try_from(bytes).unwrap_or(Tag { bytes: b"?" })
    }

    pub fn bytes(&self) -> &'a [u8]
        ensures { result.now ≡ self.now.bytes.now }
    {
        self.bytes
    }

    // Writes the spelled form to the beginning of the bytes, and answers its length. The dictionary takes this: by
    // `spelled`, whose array is copied at each return, a find takes 10 % more instructions.
    pub fn spell_into(&self, bytes: &mut [u8; 201]) -> usize
        ensures bytes { bytes.new ≡ spelled self.now.bytes.now ++ drop (length self.now.bytes.now + 1) bytes.old }
        ensures len { result ≡ length self.now.bytes.now + 1 }
    {
        let len = self.bytes.len();
        bytes[..len].copy_from_slice(self.bytes);
        bytes[len] = 0;
        len + 1
    }

    pub fn spelled(&self) -> Spelled
        ensures bytes { result.bytes ≡ padded self.now.bytes.now }
        ensures len { result.len ≡ length self.now.bytes.now + 1 }
    {
        let mut bytes = [0; 201];
        let len = self.spell_into(&mut bytes);
        Spelled { bytes, len }
    }
}

// The spelled form of the tag that bytes are, or why they are none.
impl TryFrom<&[u8]> for Spelled {
    type Error = Refusal;

    ghost try_from_gives = { λ bytes answer. MatchResult answer (λ form. SpelledFrom bytes.now form.bytes form.len) (λ why. tag_refusal bytes.now ≡ Some why) };

    fn try_from(bytes: &[u8]) -> Result<Spelled, Refusal> {
        let tag = Tag::try_from(bytes)?;
        Ok(tag.spelled())
    }
}

impl Spelled {
    pub fn bytes(&self) -> &[u8]
        ensures { result.now ≡ take self.now.len self.now.bytes }
    {
        &self.bytes[..self.len]
    }
}
