ghost use Rattle.std.specs.Prelude.{◌≡◌, Err};
ghost use Rattle.tags.specs.declared.refusal.Refusal.TheVariants.{UnfitParts};
ghost use Rattle.rules.specs.Calls.{Book};
ghost use Rattle.rules.specs.Runs.{turn, book_after};
ghost use Rattle.dictionary.specs.Runs.{buffer_size, request_of, leaves, requests, made, RanAs, RanUnfit};

use crate::calls::DictionaryCalls;
use rules::answers::{Answer, Call};
use tags::refusal::Refusal;

// How many bytes long a call's buffer is.
fn buffer_size<V: Copy>(call: &Call<'_, V>) -> usize
    ensures { result ≡ buffer_size call.now }
{
    match call {
        Call::Spell { ticket: _, buffer } => *buffer,
        _ => 0,
    }
}

// One call, on its buffer.
pub fn perform<D: DictionaryCalls>(
    d: &mut D,
    call: &Call<'_, D::Value>,
    buffer: &mut [u8],
) -> Result<Answer<D::Value>, Refusal>
    ensures answer { (b : Book D.Value) → D.DictionaryCalls.shows d.old b
        → result ≡ (turn b (request_of call.now buffer.old)).answer }
    ensures next { (b : Book D.Value) → D.DictionaryCalls.shows d.old b
        → D.DictionaryCalls.shows d.new (turn b (request_of call.now buffer.old)).next }
    ensures written { (b : Book D.Value) → D.DictionaryCalls.shows d.old b
        → buffer.new ≡ leaves b call.now buffer.old }
    ensures stays { D.DictionaryCalls.extent d.new ≡ D.DictionaryCalls.extent d.old }
    ensures unfit { D.DictionaryCalls.unfit d.old
        → (result ≡ Err UnfitParts) × (d.new ≡ d.old) × (buffer.new ≡ buffer.old) }
{
    Ok(match call {
        Call::Enter { tag, value } => Answer::Entered(d.enter(tag, *value)?),
        Call::Change { tag, value } => Answer::Changed(d.change(tag, *value)?),
        Call::Find { tag } => Answer::Looked(d.find(tag)?),
        Call::Strike { tag } => Answer::Struck(d.strike(tag)?),
        Call::Spell { ticket, buffer: _ } => Answer::Spelled(d.spell(*ticket, buffer)?),
        Call::Double => Answer::Doubled(d.double()?),
    })
}

// Any list of calls on a dictionary, in order: each answer in its place, each spell on the next bytes of the memory. A call
// that has no place for its answer is not made; a buffer for which too few bytes are left has what is left.
pub fn run<D: DictionaryCalls>(
    d: &mut D,
    calls: &[Call<'_, D::Value>],
    answers: &mut [Result<Answer<D::Value>, Refusal>],
    memory: &mut [u8],
)
    ensures ran { (b : Book D.Value) → D.DictionaryCalls.shows d.old b
        → RanAs b (made calls.now answers.old) answers.old memory.old answers.new memory.new }
    ensures shows { (b : Book D.Value) → D.DictionaryCalls.shows d.old b
        → D.DictionaryCalls.shows d.new (book_after b (requests (made calls.now answers.old) memory.old)) }
    ensures stays { D.DictionaryCalls.extent d.new ≡ D.DictionaryCalls.extent d.old }
    ensures unfit { D.DictionaryCalls.unfit d.old
        → (d.new ≡ d.old) × RanUnfit (made calls.now answers.old) answers.old memory.old answers.new memory.new }
{
    let count = calls.len().min(answers.len());
    let mut from = 0;
    // By its place: no contract says what a loop over `zip` with `iter_mut` leaves in the answers, and a loop over the
    // answers alone would fetch each call by hand.
    for (i, call) in calls[..count].iter().enumerate() {
        let size = buffer_size(call).min(memory.len() - from);
        answers[i] = perform(d, call, &mut memory[from..from + size]);
        from += size;
    }
}
