//! Why the reader refuses tokens.

ghost use Rattle.std.specs.Prelude.{◌≡◌};
ghost use Rattle.tree_reader.specs.declared.refusal.TreeRefusal.TheVariants.{NoMemory};

use std::alloc::{AllocError, AllocFailed};

/// Why a form was not read.
#[derive(Clone, Copy, Drop)]
pub enum TreeRefusal {
    /// No file can continue with the next token, or end here. This is the number of tokens that are
    /// left.
    Left(usize),
    /// Memory ran out.
    NoMemory,
}

impl From<AllocError> for TreeRefusal {
    ghost from_gives = { λ _ e. e ≡ NoMemory };

    fn from(_error: AllocError) -> TreeRefusal {
        TreeRefusal::NoMemory
    }
}

impl<T: Drop> From<AllocFailed<T>> for TreeRefusal {
    ghost from_gives = { λ _ e. e ≡ NoMemory };

    fn from(_error: AllocFailed<T>) -> TreeRefusal {
        TreeRefusal::NoMemory
    }
}
