//! A list of the keys of nodes that only proofs see. It takes no memory, and its functions do
//! nothing at run time.
ghost use Rattle.std.specs.Prelude.{◌≡◌, ℕ, List, []};
ghost use Rattle.std.specs.Borrow.{ftrue};
ghost use Rattle.std.specs.Coded.{coded_list, coded_ℕ};

use std::marker::Model;

/// A list of keys that exists only for proofs and is empty at run time.
#[derive(Drop)]
pub struct Keys {
    pub ghost keys: { List ℕ } by { coded_list coded_ℕ },
}

impl Model for Keys {
    ghost also_owns = { λ _. ftrue };
}

/// A change of a list of keys.
#[derive(Clone, Copy, Drop)]
pub enum KeyStep {
    /// A key becomes the last one.
    Append(usize),
    /// A key leaves the list.
    Remove(usize),
}

impl Keys {
    ghost use Rattle.linked_lists.specs.KeySteps.{keys_after};

    /// Returns an empty list of keys.
    pub fn new() -> Keys
        ensures { result.keys ≡ [] }
    {
        Keys {}
    }

    /// Returns the keys after a step.
    pub fn then(&self, _step: &KeyStep) -> Keys
        ensures { result.keys ≡ keys_after self.now.keys _step.now }
    {
        Keys {}
    }
}
