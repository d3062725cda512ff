//! The states that a search has met.
ghost use Rattle.std.specs.Prelude.{◌≡◌, ◌++◌, ◌∷◌, [], Contains, IfOk, length};
ghost use Rattle.std.specs.Bool.{Decides};
ghost use Rattle.explorer.specs.Numbering.{Grows, IsApart};
ghost use Rattle.explorer.specs.Keys.{IsKeyAfter};

use crate::histories::Histories;
use indexmap::IndexSet;
use ipdl_base::Side;
use std::alloc::{AllocError, Global};

/// What each side has chosen on the way to a state, as numbers of histories.
#[derive(Clone, Copy, PartialEq, Eq, Hash, Drop)]
pub(crate) struct StateKey {
    pub(crate) parent: usize,
    pub(crate) child: usize,
}

/// The states that a search has met, each with what both sides have chosen on the way to it.
#[derive(Drop)]
pub(crate) struct States {
    pub(crate) histories: Histories,
    pub(crate) met: IndexSet<StateKey>,
}

impl States {
    /// Returns no state.
    pub(crate) fn new(alloc: Global) -> States
        ensures none { result.met.keys ≡ [] }
        ensures begins { result.histories.choices.keys ≡ [] }
        ensures apart { IsApart result.histories }
    {
        States {
            histories: Histories::new(alloc),
            met: IndexSet::new(alloc),
        }
    }

    /// Returns the number of the states.
    pub(crate) fn count(&self) -> usize
        ensures { result ≡ length self.now.met.keys }
    {
        self.met.len()
    }

    /// Returns the key of the state after one more choice. Fails only if memory runs out.
    pub(crate) fn key_after(
        &mut self,
        key: StateKey,
        side: Side,
        delivers: bool,
    ) -> Result<StateKey, AllocError>
        ensures grows { IfOk result (λ k. Grows self.old.histories self.new.histories) }
        ensures apart { IfOk result (λ k. IsApart self.new.histories) }
        ensures met { IfOk result (λ k. self.new.met ≡ self.old.met) }
        ensures key { IfOk result (λ k. IsKeyAfter self.old.histories.choices.keys self.new.histories.choices.keys key side delivers k) }
    {
        match side {
            Side::Parent => Ok(StateKey {
                parent: self.histories.after(key.parent, delivers)?,
                child: key.child,
            }),
            Side::Child => Ok(StateKey {
                parent: key.parent,
                child: self.histories.after(key.child, delivers)?,
            }),
        }
    }

    /// Returns whether a state was met.
    pub(crate) fn has(&self, key: StateKey) -> bool
        ensures { Decides result (Contains self.now.met.keys key) }
    {
        self.met.contains(&key)
    }

    /// Adds a state. Fails only if memory runs out.
    pub(crate) fn add(&mut self, key: StateKey) -> Result<(), AllocError>
        requires { Contains self.old.met.keys key → ⊥ }
        ensures same { IfOk result (λ u. self.new.histories ≡ self.old.histories) }
        ensures added { IfOk result (λ u. self.new.met.keys ≡ self.old.met.keys ++ key ∷ []) }
    {
        match self.met.insert(key) {
            Ok(_) => Ok(()),
            Err(_) => Err(AllocError),
        }
    }
}
