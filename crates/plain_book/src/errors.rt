ghost use Rattle.std.specs.Prelude.{◌≡◌};
ghost use Rattle.plain_book.specs.Errors.{refused_number};
ghost use Rattle.plain_book.specs.declared.errors.EnterError.TheVariants.{Refused as of_refused, OutOfMemory};

use std::alloc::{AllocError, AllocFailed};

/// Why a call is refused. It is this crate's own, so that the crate shares nothing with what it is compared with.
#[derive(Clone, Copy, PartialEq, Eq, Debug)]
pub enum Refused {
    EmptyTag,
    LongTag,
    /// A byte 0 or 255 in the tag.
    BadByte,
    /// Enter: the row holds a value.
    RowHolds,
    /// Change, strike: no row has the tag, or it is struck.
    NoLiveRow,
    NoNodeRoom,
    NoByteRoom,
    NoSuchTicket,
    ShortBuffer,
    NoNextRoom,
    UnfitParts,
}

/// Its number in the rules.
impl From<Refused> for u8 {
    ghost from_gives = { λ why number. number ≡ refused_number why };

    fn from(why: Refused) -> u8 {
        match why {
            Refused::EmptyTag => 1,
            Refused::LongTag => 2,
            Refused::BadByte => 3,
            Refused::RowHolds => 4,
            Refused::NoLiveRow => 5,
            Refused::NoNodeRoom => 6,
            Refused::NoByteRoom => 7,
            Refused::NoSuchTicket => 8,
            Refused::ShortBuffer => 9,
            Refused::NoNextRoom => 10,
            Refused::UnfitParts => 13,
        }
    }
}

/// Why a tag is not entered.
#[derive(Clone, Copy, PartialEq, Eq, Debug)]
pub enum EnterError {
    Refused(Refused),
    OutOfMemory,
}

impl From<Refused> for EnterError {
    ghost from_gives = { λ why error. error ≡ of_refused why };

    fn from(why: Refused) -> EnterError {
        EnterError::Refused(why)
    }
}

impl From<AllocError> for EnterError {
    ghost from_gives = { λ _ error. error ≡ OutOfMemory };

    fn from(_: AllocError) -> EnterError {
        EnterError::OutOfMemory
    }
}

impl<T: Drop> From<AllocFailed<T>> for EnterError {
    ghost from_gives = { λ _ error. error ≡ OutOfMemory };

    fn from(failed: AllocFailed<T>) -> EnterError {
        AllocError::from(failed).into()
    }
}
