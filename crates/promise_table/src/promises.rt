//! The promises of one end, as its callers see them.
ghost use Rattle.std.specs.Prelude.{◌≡◌, ◌≢◌, ◌↔◌, [], ◌∷◌, ◌++◌, IfOk, OnOk, OnErr};
ghost use Rattle.promise_table.specs.Promises.{
  made,
  is_pending,
  is_pending_of,
  IsUnmade,
  HaveDistinctNumbers,
  settling_of,
  promise_of,
  with_settled,
  oldest,
  with_rejected,
};

use crate::promise::{Outcome, Settling};
use crate::table::Table;
use ipdl_base::Reason;
use std::alloc::{AllocError, Global};
use std::marker::Model;

/// The promises that an end has made. Contracts see them as a list in the order of making. No two
/// have the same number. Only `new` and `make` take memory.
#[derive(Drop)]
pub struct Promises {
    table: Table,
}

impl Model for Promises {
    ghost use Rattle.std.specs.Prelude.{List};
    ghost use Rattle.promise_table.specs.declared.promise.Promise.{Promise};
    ghost use Rattle.promise_table.specs.Promises.{HaveDistinctNumbers};
    ghost use Rattle.ipdl_base.specs.contracts.value.Values as values;
    ghost use Rattle.std.specs.Coded.{codes};

    ghost Value = { List Promise };

    ghost coded = { Prim.hlevel (codes, values.the_row.coded) };

    ghost use Rattle.promise_table.specs.Table.{promises_in, IsTable};

    ghost view = { λ a. promises_in a.table };

    ghost invariant = { λ a. IsTable a.table × HaveDistinctNumbers (promises_in a.table) };
}

impl Promises {
    /// Returns a table without promises, which takes its memory from `alloc`. Fails only if memory
    /// runs out.
    pub fn new(alloc: Global) -> Result<Promises, AllocError>
        ensures { IfOk result (λ promises. promises ≡ []) }
    {
        Ok(Promises {
            table: Table::new(alloc),
        })
    }

    /// Appends a pending promise of a number that no promise has. If memory runs out, nothing
    /// changes.
    pub fn make(&mut self, seq: i32, actor: i32) -> Result<(), AllocError>
        requires { IsUnmade self.old seq }
        ensures ok { OnOk result (self.new ≡ self.old ++ made seq actor ∷ []) }
        ensures err { OnErr result (self.new ≡ self.old) }
    {
        self.table.make(seq, actor)
    }

    /// Settles the promise of this number, and returns what it found. Only a pending promise
    /// changes.
    pub fn settle(&mut self, seq: i32, outcome: Outcome) -> Settling
        ensures answer { result ≡ settling_of (promise_of self.old seq) }
        ensures settled { self.new ≡ with_settled self.old seq outcome }
        ensures unknown { (result ≡ Settling.Unknown) ↔ IsUnmade self.old seq }
        ensures unchanged { result ≢ Settling.Now → self.new ≡ self.old }
        ensures distinct { HaveDistinctNumbers self.new }
    {
        self.table.settle(seq, outcome)
    }

    /// Rejects the oldest pending promise of an actor and returns its number, or `None` if the
    /// actor has none.
    pub fn reject_of(&mut self, actor: i32, reason: Reason) -> Option<i32>
        ensures oldest { result ≡ oldest (is_pending_of actor) self.old }
        ensures rejected { self.new ≡ with_rejected self.old result reason }
        ensures distinct { HaveDistinctNumbers self.new }
    {
        self.table.reject_of(actor, reason)
    }

    /// Rejects the oldest pending promise of any actor and returns its number, or `None` if no
    /// promise is pending.
    pub fn reject_all(&mut self, reason: Reason) -> Option<i32>
        ensures oldest { result ≡ oldest is_pending self.old }
        ensures rejected { self.new ≡ with_rejected self.old result reason }
        ensures distinct { HaveDistinctNumbers self.new }
    {
        self.table.reject_all(reason)
    }
}
