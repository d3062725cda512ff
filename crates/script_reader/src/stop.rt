//! Why nothing was read.

ghost use Rattle.std.specs.Prelude.{◌≡◌};
ghost use Rattle.script_reader.specs.declared.stop.ReadFailure.TheVariants.{NoMemory};

use std::alloc::{AllocError, AllocFailed};

/// Why nothing was read.
#[derive(Clone, Copy)]
pub enum ReadFailure {
    /// Nothing can be read here.
    NoReading,
    NoMemory,
}

impl From<AllocError> for ReadFailure {
    ghost from_gives = { λ _ stop. stop ≡ NoMemory };

    fn from(_: AllocError) -> ReadFailure {
        ReadFailure::NoMemory
    }
}

impl<T: Drop> From<AllocFailed<T>> for ReadFailure {
    ghost from_gives = { λ _ stop. stop ≡ NoMemory };

    fn from(_: AllocFailed<T>) -> ReadFailure {
        ReadFailure::NoMemory
    }
}
