ghost use Rattle.std.specs.Prelude.{◌≡◌, false, is_ok, Ok};
ghost use Rattle.rules.specs.declared.step.Step.TheVariants.{By32};
ghost use Rattle.parts.specs.Maps.{Map, MapFacts, count_of, asked, last_room, child_answer, add_answer, add_next, up_answer, double_answer, double_next};

use rules::step::Step;
use tags::refusal::MapFault;

// A node map holds nodes numbered from 0 in order of making, each but 0 below a parent by a symbol, and rooms, one of
// them current: the number of nodes that there may be. Faults are tested in the order written, and change nothing. A pair
// of a parent and a symbol comes as two numbers: a struct would be made for each call, only to be taken apart.
pub trait NodeMap {
    ghost meaning: { Self → Map };

    // How many nodes there are. What holds of every node map is told here, and by no law: an `impl` may prove a law by its
    // specs alone, and not by the lemmas of its crate.
    fn count(&self) -> u32
        ensures count { result ≡ count_of (meaning self.now) }
        ensures facts { MapFacts By32 (meaning self.now) };

    fn room(&self) -> u32
        ensures { result ≡ (meaning self.now).room };

    fn last_room(&self) -> u32
        ensures { result ≡ last_room (meaning self.now) };

    // The first two faults of child and add.
    fn check_pair(&self, u: u32, c: u16) -> Result<(), MapFault>
        ensures { result ≡ asked By32 (meaning self.now) u c (Ok tt) }
    {
        if u >= self.count() {
            return Err(MapFault::NoNode);
        }
        if c >= Step::By32.symbol_count() {
            return Err(MapFault::SymbolTooLarge);
        }
        Ok(())
    }

    // The child of u by the symbol c, or none.
    fn child(&self, u: u32, c: u16) -> Result<Option<u32>, MapFault>
        ensures { result ≡ child_answer By32 (meaning self.now) u c };

    // Makes the child of u by the symbol c, and answers its number.
    fn add(&mut self, u: u32, c: u16) -> Result<u32, MapFault>
        ensures answer { result ≡ add_answer By32 (meaning self.old) u c }
        ensures next { meaning self.new ≡ add_next By32 (meaning self.old) u c }
        ensures kept { is_ok result ≡ false → self.new ≡ self.old };

    // The parent and the symbol of a node that is not 0.
    fn up(&self, v: u32) -> Result<(u32, u16), MapFault>
        ensures { result ≡ up_answer (meaning self.now) v };

    // Makes the next room current, and answers it.
    fn double(&mut self) -> Result<u32, MapFault>
        ensures answer { result ≡ double_answer (meaning self.old) }
        ensures next { meaning self.new ≡ double_next (meaning self.old) }
        ensures kept { is_ok result ≡ false → self.new ≡ self.old };
}
