ghost use Rattle.std.specs.Prelude.{◌≡◌, ◌+◌, ◌<◌, ◌≤◌};
ghost use Rattle.label_stores.specs.Answers.{append_check};

use parts::store::StoreFault;

// The longest label.
const LONGEST: usize = 201;

// How much of its room a store has used.
#[derive(Clone, Copy)]
pub struct Fill {
    pub(crate) count: u32,
    // The label lengths, added up.
    pub(crate) total: u32,
    pub(crate) places: u32,
    pub(crate) room: u32,
    ghost placed: { count ≤ places },
    ghost fits: { total ≤ room },
    ghost few: { places ≤ 32768 },
    ghost small: { room ≤ 1081344 },
}

impl Fill {
    // No labels yet.
    pub(crate) fn new(places: u32, room: u32) -> Fill
        requires { (places ≤ 32768) × (room ≤ 1081344) }
        ensures none { (result.count ≡ 0) × (result.total ≡ 0) }
        ensures rooms { (result.places ≡ places) × (result.room ≡ room) }
    {
        Fill {
            count: 0,
            total: 0,
            places,
            room,
        }
    }

    // Whether the bytes from a place on, of so many, can become the next label.
    pub(crate) fn check_append(self, bytes: usize, from: usize) -> Result<(), StoreFault>
        ensures { result ≡ append_check self.count self.places self.total self.room bytes from }
    {
        let length = bytes.checked_sub(from).ok_or(StoreFault::StartBeyond)?;
        if length > LONGEST {
            return Err(StoreFault::LabelTooLong);
        }
        if self.count >= self.places {
            return Err(StoreFault::PlacesUsed);
        }
        if self.total as usize + length > self.room as usize {
            return Err(StoreFault::BytesUsed);
        }
        Ok(())
    }

    // With one label more, of this length.
    pub(crate) fn with_label(mut self, length: u32) -> Fill
        requires { (self.count < self.places) × (self.total + length ≤ self.room) }
        ensures count { result.count ≡ self.count + 1 }
        ensures total { result.total ≡ self.total + length }
        ensures rooms { (result.places ≡ self.places) × (result.room ≡ self.room) }
    {
        self.count += 1;
        self.total += length;
        self
    }
}
