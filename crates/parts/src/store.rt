ghost use Rattle.std.specs.Prelude.{◌≡◌, false, length, is_ok};
ghost use Rattle.rules.specs.Tree.{bytes_in};
ghost use Rattle.parts.specs.Faults.{store_fault_number};
ghost use Rattle.parts.specs.Stores.{Store, StoreFacts, append_answer, append_next, length_answer, byte_answer, meet_answer};

// Why a label store does not do what it is asked.
#[derive(Clone, Copy, PartialEq, Eq, Debug)]
pub enum StoreFault {
    // The place lies beyond the bytes.
    StartBeyond,
    // A label has at most 201 bytes.
    LabelTooLong,
    PlacesUsed,
    // The byte total would pass the byte room.
    BytesUsed,
    NoLabel,
    NoByte,
}

// Its number.
impl From<StoreFault> for u8 {
    ghost from_gives = { λ fault number. number ≡ store_fault_number fault };

    fn from(fault: StoreFault) -> u8 {
        match fault {
            StoreFault::StartBeyond => 1,
            StoreFault::LabelTooLong => 2,
            StoreFault::PlacesUsed => 3,
            StoreFault::BytesUsed => 4,
            StoreFault::NoLabel => 5,
            StoreFault::NoByte => 6,
        }
    }
}

// A label store holds a list of labels of 0 to 201 bytes, with a byte room and a number of places. Faults are tested in
// the order written, and change nothing.
pub trait LabelStore {
    ghost meaning: { Self → Store };

    // How many labels there are. What holds of every label store is told here, as `NodeMap` tells it.
    fn count(&self) -> u32
        ensures count { result ≡ length (meaning self.now).labels }
        ensures facts { StoreFacts (meaning self.now) };

    // The lengths of all labels, added up.
    fn total(&self) -> u32
        ensures { result ≡ bytes_in (meaning self.now).labels };

    fn byte_room(&self) -> u32
        ensures { result ≡ (meaning self.now).byte_room };

    fn places(&self) -> u32
        ensures { result ≡ (meaning self.now).places };

    // The bytes of s from a place on become the next label. The place is tested here, and not by the caller.
    fn append(&mut self, s: &[u8], from: usize) -> Result<(), StoreFault>
        ensures answer { result ≡ append_answer (meaning self.old) s.now from }
        ensures next { meaning self.new ≡ append_next (meaning self.old) s.now from }
        ensures kept { is_ok result ≡ false → self.new ≡ self.old };

    fn length(&self, v: u32) -> Result<usize, StoreFault>
        ensures { result ≡ length_answer (meaning self.now) v };

    fn byte(&self, v: u32, i: usize) -> Result<u8, StoreFault>
        ensures { result ≡ byte_answer (meaning self.now) v i };

    // How many leading bytes of label v and of s from a place on agree.
    fn meet(&self, v: u32, s: &[u8], from: usize) -> Result<usize, StoreFault>
        ensures { result ≡ meet_answer (meaning self.now) v s.now from };
}
