//! Sinks: where bytes are written.
ghost use Rattle.std.specs.Prelude.{◌≡◌, ℕ, ◌≤◌, List, Option};

/// The result of a write.
#[derive(Clone, Copy, Debug, PartialEq, Eq)]
pub enum WriteAnswer {
    /// The write took this number of the first bytes of the piece.
    Took(usize),
    /// The write failed, and took nothing.
    Failed,
}

/// Where bytes are written (docs/theorems.md, "The outside").
pub trait Sink {
    ghost use Rattle.ipdl_base.specs.Outside.{Rose, Appends, TakesSome, taken};

    /// The bytes written so far, if they are known.
    ghost written: { Self → Option (List ℕ) };

    /// The number of writes that have failed.
    ghost faults: { Self → ℕ };

    /// Writes a prefix of the piece, and returns the length of the prefix, or that the write failed.
    fn write(&mut self, piece: &[u8]) -> WriteAnswer
        ensures count { faults self.old ≤ faults self.new }
        ensures failed { result ≡ WriteAnswer.Failed → Rose (faults self.old) (faults self.new) }
        ensures took { TakesSome result piece.now }
        ensures appended { Appends (written self.old) (written self.new) (taken result piece.now) };
}
