//! Lists of choices of a side, each known by a number.
ghost use Rattle.std.specs.Prelude.{◌≡◌, ◌++◌, ◌∷◌, ◌≤◌, [], Bool, List, IfOk, length};
ghost use Rattle.explorer.specs.Numbering.{Grows, IsListOf, IsApart};

use indexmap::IndexSet;
use std::alloc::{AllocError, Global};

/// One more choice after a list of choices: a delivery or an own step.
#[derive(Clone, Copy, PartialEq, Eq, Hash, Drop)]
pub(crate) struct NextChoice {
    /// The number of the list before it.
    pub(crate) before: usize,
    /// Whether the choice is a delivery.
    pub(crate) delivers: bool,
}

/// Lists of choices of a side, each with a number of its own. The empty list has the number 0.
#[derive(Drop)]
pub(crate) struct Histories {
    pub(crate) choices: IndexSet<NextChoice>,
}

impl Histories {
    /// Returns histories with the empty list alone.
    pub(crate) fn new(alloc: Global) -> Histories
        ensures empty { result.choices.keys ≡ [] }
        ensures apart { IsApart result }
    {
        Histories {
            choices: IndexSet::new(alloc),
        }
    }

    /// Returns the number of a list with one more choice after it. Fails only if memory runs out.
    pub(crate) fn after(&mut self, before: usize, delivers: bool) -> Result<usize, AllocError>
        ensures grows { IfOk result (λ n. Grows self.old self.new) }
        ensures apart { IfOk result (λ n. IsApart self.new) }
        ensures number { IfOk result (λ n. (list : List Bool) → IsListOf self.old.choices.keys before list → IsListOf self.new.choices.keys n (list ++ delivers ∷ [])) }
    {
        match self.choices.insert_full(NextChoice { before, delivers }) {
            Ok((place, _)) => {
                let _count = self.choices.len();
                Ok(place + 1)
            }
            Err(_) => Err(AllocError),
        }
    }
}
