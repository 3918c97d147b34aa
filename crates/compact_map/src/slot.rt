ghost use Rattle.std.specs.Prelude.{◌≡◌, ◌+◌, ◌*◌, ◌/◌, ◌^◌, ◌<◌, ◌≤◌, length};
ghost use Rattle.compact_map.specs.Bytes.{number_at};
ghost use Rattle.compact_map.specs.Slots.{packed, number_in};

// What an empty slot holds is less than this.
const TAKEN: u64 = 0x8000_0000_0000;

// The same of its head.
pub(crate) const TAKEN_HEAD: u32 = (TAKEN / 0x8_0000) as u32;

// The head of a slot is all that it holds in front of its number. A search compares it as one.
pub(crate) fn head(quotient: u16, displacement: usize) -> u32
    requires { displacement < 2 ^ 15 }
    ensures { result ≡ 2 ^ 28 + quotient * 2 ^ 15 + displacement }
{
    TAKEN_HEAD + u32::from(quotient) * 0x8000 + displacement as u32
}

// The head of the slot in six bytes. It lies in the first four, which are copied so that the compiler reads them at once:
// by `read_number::<4>`, a find of the dictionary takes 9 % more instructions.
pub(crate) fn read_head(bytes: &[u8], at: usize) -> u32
    requires { at + 6 ≤ length bytes.now }
    ensures is { result ≡ number_at bytes.now at 6 / 2 ^ 19 }
    ensures short { result < 2 ^ 29 }
{
    let mut word = [0; 4];
    word.copy_from_slice(&bytes[at..at + 4]);
    u32::from_be_bytes(word) / 8
}

// The number in a taken slot.
pub(crate) fn number_in(w: u64) -> u16
    ensures { result ≡ number_in w }
{
    (w / 16 % 0x8000) as u16
}

// What a taken slot holds.
#[derive(Clone, Copy)]
pub(crate) struct Slot {
    pub(crate) quotient: u16,
    pub(crate) displacement: u16,
    pub(crate) number: u16,
    ghost quotient_fits: { quotient < 2 ^ 13 },
    ghost displacement_fits: { displacement < 2 ^ 15 },
    ghost number_fits: { number < 2 ^ 15 },
}

impl Slot {
    ghost use Rattle.compact_map.specs.Reads.{Reads};

    pub(crate) fn pack(self) -> u64
        ensures { result ≡ packed self.quotient self.displacement self.number }
    {
        u64::from(head(self.quotient, usize::from(self.displacement))) * 0x8_0000
            + u64::from(self.number) * 16
    }

    // `None` is an empty slot.
    pub(crate) fn unpack(w: u64) -> Option<Slot>
        ensures { Reads w result }
    {
        if w < TAKEN {
            return None;
        }
        Some(Slot {
            quotient: (w / 0x4_0000_0000 % 0x2000) as u16,
            displacement: (w / 0x8_0000 % 0x8000) as u16,
            number: number_in(w),
        })
    }
}
