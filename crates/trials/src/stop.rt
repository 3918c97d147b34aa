use std::alloc::{AllocError, AllocFailed};

// Why the trials end before the last list.
#[derive(Debug, Drop)]
pub(crate) enum Stop {
    // Where the dictionary and the book differ, and in what.
    Difference(String),
    OutOfMemory,
}

impl From<AllocError> for Stop {
    fn from(_: AllocError) -> Stop {
        Stop::OutOfMemory
    }
}

impl<T: Drop> From<AllocFailed<T>> for Stop {
    fn from(_: AllocFailed<T>) -> Stop {
        Stop::OutOfMemory
    }
}
