//! Lists of numbers, with a quick test of whether a number is in one.
ghost use Rattle.std.specs.Prelude.{◌≡◌, ◌∷◌, ◌++◌, [], OnOk};
ghost use Rattle.history_reading.specs.Numbers.{has};

use std::alloc::{AllocError, Global};
use std::collections::HashSet;
use std::marker::Model;

/// Numbers in their order. Contracts see them as a list. Whether a number is in it is tested
/// quickly.
#[derive(Drop)]
pub struct NumberList {
    list: Vec<i32>,
    members: HashSet<i32>,
}

impl Model for NumberList {
    ghost use Rattle.std.specs.Prelude.{List, ℤ};
    ghost use Rattle.history_reading.specs.Views.{AreMembers};

    ghost Value = { List ℤ };

    ghost view = { λ a. a.list.items };

    ghost invariant = { λ a. AreMembers a.list.items a.members };
}

impl NumberList {
    /// Returns a list without numbers. Takes no memory.
    pub fn new(alloc: Global) -> NumberList
        ensures { result ≡ [] }
    {
        NumberList {
            list: Vec::new(alloc),
            members: HashSet::new(alloc),
        }
    }

    /// Appends a number.
    pub fn push(&mut self, n: i32) -> Result<(), AllocError>
        ensures { OnOk result (self.new ≡ self.old ++ n ∷ []) }
    {
        self.list.reserve(1)?;
        self.members.insert(n)?;
        if self.list.push(n).is_err() {
            unreachable!();
        }
        Ok(())
    }

    /// Whether a number is in the list.
    pub fn has(&self, n: i32) -> bool
        ensures { result ≡ has self.now n }
    {
        self.members.contains(&n)
    }
}
