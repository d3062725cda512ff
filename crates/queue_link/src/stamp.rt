//! The stamps of packets, which proofs alone read.
ghost use Rattle.std.specs.Prelude.{◌≡◌, ℕ};
ghost use Rattle.std.specs.Borrow.{ftrue};

use std::marker::Model;

/// A number that has no bytes.
#[derive(Drop)]
pub struct Stamp {
    pub ghost at: { ℕ },
}

const _: () = prove!(size_of::<Stamp>() == 0);

impl Model for Stamp {
    ghost also_owns = { λ _. ftrue };
}

// A field that names what it owns keeps a type from being sent by itself. A stamp owns nothing.
unsafe impl Send for Stamp {}

impl Stamp {
    /// Creates a stamp with the number that the caller's proof picks.
    pub fn new() -> Stamp
        ghost n: { ℕ }
        ensures { result.at ≡ n }
    {
        Stamp {}
    }
}
