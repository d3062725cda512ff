//! How far a side has come in its script, counted as it runs.

mod taking;

use crate::answers::StepAnswer;
use channel_core::{ResolveAnswer, Resolver};
use handler_script::Script;
use ipdl_base::{Side, Values};
use script_parts::BlockTable;
use std::alloc::{AllocError, Global};
use std::marker::Model;

/// A request whose handler runs.
#[derive(Drop)]
pub struct RunningRequest {
    /// The index in the script of the block that serves it.
    pub block: Option<u32>,
    /// The number of acts that the handler has done.
    pub acts: u32,
    /// Its values, as they were taken.
    pub given: Values,
    /// The id of the actor that it built, or 0.
    pub made: i32,
    /// The right to answer it, if it was neither used nor kept.
    pub resolver: Option<Resolver>,
}

/// How far a side has come in its script.
#[derive(Drop)]
pub struct ScriptCounts {
    pub(crate) events: u32,
    pub(crate) main: u32,
    pub(crate) table: BlockTable,
    /// The requests whose handlers run, the innermost last.
    pub(crate) running: Vec<RunningRequest>,
}

impl Model for ScriptCounts {
    ghost use Rattle.std.specs.Prelude.{◌≤◌, map, reverse};
    ghost use Rattle.std.specs.List.{All};
    ghost use Rattle.std.specs.Coded.{codes};
    ghost use Rattle.indexmap.specs.Layout.{hash_map_code};
    ghost use Rattle.ipdl_base.specs.contracts.value.Values as values;
    ghost use Rattle.world_core.specs.CountsView.{CountsView, view_of};

    ghost Value = { CountsView };

    ghost coded = { Prim.hlevel (codes, hash_map_code, values.the_row.coded) };

    ghost view = { λ a. record {
      events = a.events;
      main = a.main;
      table = a.table;
      running = map view_of (reverse a.running.items);
    } };

    ghost invariant = { λ a. (a.main ≤ a.events) × All (λ r. r.acts ≤ a.events) a.running.items };
}

impl ScriptCounts {
    ghost use Rattle.std.specs.Prelude.{◌^◌, [], length, IfOk};
    ghost use Rattle.script_steps.specs.Progress.{no_progress};
    ghost use Rattle.world_core.specs.Counted.{AreCountsOf};
    ghost use Rattle.std.specs.Prelude.{◌≡◌, ◌<◌, ℕ, List, None, filter, option_and_then, option_map, slice_get};
    ghost use Rattle.handler_script.specs.declared.action.Block.{Block as ScriptBlock};
    ghost use Rattle.handler_script.specs.Served.{serves};
    ghost use Rattle.ipdl_base.specs.declared.kinds.Side.{Side as EndSide};
    ghost use Rattle.script_parts.specs.Tables.{IsTableOf};
    ghost use Rattle.handler_script.specs.ScriptOf.{first_of};
    ghost use Rattle.world_core.specs.CountsView.{view_of};
    ghost use Rattle.world_core.specs.CountsSteps.{after_answer, told_answer, with_act, with_death, with_event, with_resolver, with_return};
    ghost use Rattle.world_core.specs.Resolvers.{resolver_on_top};

    /// Creates the counts of a side as it begins. Fails only if memory runs out.
    pub(crate) fn new(
        alloc: Global,
        script: &Script,
        side: Side,
    ) -> Result<ScriptCounts, AllocError>
        requires { length script.now.blocks < 2 ^ 32 }
        ensures counts { IfOk result (AreCountsOf script.now side no_progress) }
        ensures none { IfOk result (λ counts. counts.running ≡ []) }
    {
        Ok(ScriptCounts {
            events: 0,
            main: 0,
            table: BlockTable::new(alloc, script, side)?,
            running: Vec::new(alloc),
        })
    }

    /// Returns the number of events of the side.
    pub(crate) fn events(&self) -> u32
        ensures { result ≡ self.now.events }
    {
        self.events
    }

    /// Counts one more event.
    pub(crate) fn count_event(&mut self)
        requires { self.old.events < 4294967295 }
        ensures { self.new ≡ with_event self.old }
    {
        self.events += 1;
    }

    /// Counts one more act of the innermost handler, or of main if no handler runs.
    pub(crate) fn count_act(&mut self)
        requires { self.old.events < 4294967295 }
        ensures { self.new ≡ with_act self.old }
    {
        self.events += 1;
        match self.running.last_mut() {
            None => self.main += 1,
            Some(top) => top.acts += 1,
        }
    }

    /// Counts the return of the innermost handler.
    pub(crate) fn count_return(&mut self)
        requires { self.old.events < 4294967295 }
        ensures { self.new ≡ with_return self.old }
    {
        self.count_event();
        let _ = self.running.pop();
    }

    /// Counts a death, which ends all handlers.
    pub(crate) fn count_death(&mut self)
        requires { self.old.events < 4294967295 }
        ensures { self.new ≡ with_death self.old }
    {
        self.count_event();
        self.running.clear();
    }

    /// Takes out the resolver of the innermost request.
    pub(crate) fn take_resolver(&mut self) -> Option<Resolver>
        ensures taken { result ≡ resolver_on_top self.old.running }
        ensures rest { self.new ≡ with_resolver None self.old }
    {
        let Some(top) = self.running.last_mut() else {
            return None;
        };
        top.resolver.take()
    }

    /// Gives the innermost request this resolver, or no resolver.
    pub(crate) fn put_resolver(&mut self, resolver: Option<Resolver>)
        ensures { self.new ≡ with_resolver resolver self.old }
    {
        let Some(top) = self.running.last_mut() else {
            return;
        };
        top.resolver = resolver;
    }

    /// Counts the answer of the innermost handler by its resolver, which comes back if it was not used.
    pub(crate) fn count_answer(&mut self, answer: ResolveAnswer) -> StepAnswer
        requires { self.old.events < 4294967295 }
        ensures counts { self.new ≡ after_answer answer self.old }
        ensures told { result ≡ told_answer answer }
    {
        match answer {
            ResolveAnswer::Sent => {
                self.count_act();
                StepAnswer::Did
            }
            ResolveAnswer::Refused(_, resolver) => {
                self.put_resolver(Some(resolver));
                self.count_act();
                StepAnswer::Did
            }
            ResolveAnswer::NoMemory(resolver) => {
                self.put_resolver(Some(resolver));
                StepAnswer::NoMemory
            }
        }
    }

    /// Returns the request of the innermost handler.
    pub(crate) fn innermost(&self) -> Option<&RunningRequest>
        ensures { option_map (λ r. view_of r.now) result ≡ first_of self.now.running }
    {
        self.running.last()
    }

    /// Returns the number of acts that main has done.
    pub(crate) fn main(&self) -> u32
        ensures { result ≡ self.now.main }
    {
        self.main
    }

    /// Returns the index in the script of the block that is the main of the side.
    pub(crate) fn main_block(&self) -> Option<u32>
        ensures { (blocks : List ScriptBlock) (side : EndSide) (taken : List ℕ)
            → IsTableOf blocks side taken self.now.table
            → option_and_then (slice_get blocks) result ≡ slice_get (filter (serves side None) blocks) 0 }
    {
        self.table.main()
    }
}
