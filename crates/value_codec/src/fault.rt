//! Why the bytes of a payload are not read.

ghost use Rattle.std.specs.Prelude.{◌≡◌};
ghost use Rattle.value_codec.specs.declared.fault.Refusal.TheVariants.{NoMemory};

use std::alloc::{AllocError, AllocFailed};

/// The first rule that a payload breaks.
#[derive(Clone, Copy)]
pub(crate) struct Fault {
    /// The number of the rule.
    pub(crate) rule: u8,
    /// The number of bytes of the payload that are left at the place of the fault.
    pub(crate) left: usize,
}

/// Why no value was read.
#[derive(Drop)]
pub(crate) enum Refusal {
    NoMemory,
    Broken(Fault),
}

impl From<AllocError> for Refusal {
    ghost from_gives = { λ _ e. e ≡ NoMemory };

    fn from(_error: AllocError) -> Refusal {
        Refusal::NoMemory
    }
}

impl<T: Drop> From<AllocFailed<T>> for Refusal {
    ghost from_gives = { λ _ e. e ≡ NoMemory };

    fn from(_error: AllocFailed<T>) -> Refusal {
        Refusal::NoMemory
    }
}
