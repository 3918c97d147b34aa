ghost use Rattle.std.specs.Prelude.{◌≡◌, false, List, length, is_ok, Some, None, Option, slice_set};
ghost use Rattle.parts.specs.Faults.{shelf_fault_number};
ghost use Rattle.parts.specs.Shelves.{get_answer, set_answer};

// Why a shelf does not do what it is asked.
#[derive(Clone, Copy, PartialEq, Eq, Debug)]
pub enum ShelfFault {
    NoPlace,
}

// Its number.
impl From<ShelfFault> for u8 {
    ghost from_gives = { λ fault number. number ≡ shelf_fault_number fault };

    fn from(fault: ShelfFault) -> u8 {
        match fault {
            ShelfFault::NoPlace => 1,
        }
    }
}

// A shelf has places, each blank or holding a value. Beyond them a call changes nothing.
pub trait Shelf {
    type Value: Copy;

    ghost meaning: { Self → List (Option Self.Value) };

    fn places(&self) -> u32
        ensures { result ≡ length (meaning self.now) };

    // The value at a place, or none where it is blank.
    fn get(&self, n: u32) -> Result<Option<Self::Value>, ShelfFault>
        ensures { result ≡ get_answer (meaning self.now) n };

    // Fills a place.
    fn put(&mut self, n: u32, value: Self::Value) -> Result<(), ShelfFault>
        ensures answer { result ≡ set_answer (meaning self.old) n }
        ensures next { meaning self.new ≡ slice_set (meaning self.old) n (Some value) }
        ensures kept { is_ok result ≡ false → self.new ≡ self.old };

    // Blanks a place.
    fn clear(&mut self, n: u32) -> Result<(), ShelfFault>
        ensures answer { result ≡ set_answer (meaning self.old) n }
        ensures next { meaning self.new ≡ slice_set (meaning self.old) n None }
        ensures kept { is_ok result ≡ false → self.new ≡ self.old };
}
