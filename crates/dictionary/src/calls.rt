ghost use Rattle.std.specs.Prelude.{◌≡◌, false, is_ok, Err};
ghost use Rattle.tags.specs.declared.refusal.Refusal.TheVariants.{UnfitParts};
ghost use Rattle.rules.specs.Calls.{Book, enter as enter_in, change as change_in, strike as strike_in, find as find_in, spell as spell_in, spell_buffer, double as double_in};
ghost use Rattle.dictionary.specs.Shows.{Extent};

use rules::answers::Found;
use tags::refusal::Refusal;

// The six calls of a dictionary that is known only by the arrival book that it shows. For every book that it shows at a
// call, the answer is the book's and it shows the book's next state after it. Where a call is refused nothing changes.
// Over parts that did not fit, every call is refused as over unfit parts. The clauses of four calls read alike: each names
// its own call of the book, which one fact for all would hide.
pub trait DictionaryCalls {
    type Value: Copy;

    // It shows this book.
    ghost shows: { Self → Book Self.Value → Type 0 };

    // It was opened over parts that did not fit, and only says so.
    ghost unfit: { Self → Type 0 };

    // How many labels and values there is space for.
    ghost extent: { Self → Extent };

    fn enter(&mut self, tag: &[u8], value: Self::Value) -> Result<u32, Refusal>
        ensures answer { (b : Book Self.Value) → shows self.old b → result ≡ (enter_in b tag.now value).answer }
        ensures next { (b : Book Self.Value) → shows self.old b → shows self.new (enter_in b tag.now value).next }
        ensures stays { extent self.new ≡ extent self.old }
        ensures unfit { unfit self.old → result ≡ Err UnfitParts }
        ensures kept { is_ok result ≡ false → self.new ≡ self.old };

    fn change(&mut self, tag: &[u8], value: Self::Value) -> Result<u32, Refusal>
        ensures answer { (b : Book Self.Value) → shows self.old b → result ≡ (change_in b tag.now value).answer }
        ensures next { (b : Book Self.Value) → shows self.old b → shows self.new (change_in b tag.now value).next }
        ensures stays { extent self.new ≡ extent self.old }
        ensures unfit { unfit self.old → result ≡ Err UnfitParts }
        ensures kept { is_ok result ≡ false → self.new ≡ self.old };

    fn strike(&mut self, tag: &[u8]) -> Result<u32, Refusal>
        ensures answer { (b : Book Self.Value) → shows self.old b → result ≡ (strike_in b tag.now).answer }
        ensures next { (b : Book Self.Value) → shows self.old b → shows self.new (strike_in b tag.now).next }
        ensures stays { extent self.new ≡ extent self.old }
        ensures unfit { unfit self.old → result ≡ Err UnfitParts }
        ensures kept { is_ok result ≡ false → self.new ≡ self.old };

    fn find(&self, tag: &[u8]) -> Result<Found<Self::Value>, Refusal>
        ensures answer { (b : Book Self.Value) → shows self.now b → result ≡ find_in b tag.now }
        ensures unfit { unfit self.now → result ≡ Err UnfitParts };

    // Writes the ticket's tag at the buffer's beginning, and answers its length.
    fn spell(&self, ticket: u32, buffer: &mut [u8]) -> Result<usize, Refusal>
        ensures answer { (b : Book Self.Value) → shows self.now b → result ≡ spell_in b ticket buffer.old }
        ensures written { (b : Book Self.Value) → shows self.now b → buffer.new ≡ spell_buffer b ticket buffer.old }
        ensures unfit { unfit self.now → result ≡ Err UnfitParts }
        ensures kept { is_ok result ≡ false → buffer.new ≡ buffer.old };

    fn double(&mut self) -> Result<u32, Refusal>
        ensures answer { (b : Book Self.Value) → shows self.old b → result ≡ (double_in b).answer }
        ensures next { (b : Book Self.Value) → shows self.old b → shows self.new (double_in b).next }
        ensures stays { extent self.new ≡ extent self.old }
        ensures unfit { unfit self.old → result ≡ Err UnfitParts }
        ensures kept { is_ok result ≡ false → self.new ≡ self.old };
}
