//! The driver that gives each side of a run a thread of its own.

ghost use Rattle.std.specs.Prelude.{◌≡◌};
ghost use Rattle.std.specs.Thread.{IsSync};
ghost use Rattle.thread_link.specs.Runs.{RunsAtOnce};

use crate::workers::run_at_once;
use schedules::Gate;
use std::sync::Wait;
use std::thread::Threads;
use world_core::{Driver, RunAnswer, World};

/// Runs each side of a run on a thread of its own (docs/threads.md). A run may wait; its contract holds
/// if it returns.
#[derive(Drop)]
pub struct TwoThreads<'r, R: Threads + Wait + Sync + AllocGlobal> {
    rt: &'r R,
    gate: Gate,
}

impl<'r, R: Threads + Wait + Sync + AllocGlobal> TwoThreads<'r, R> {
    /// Creates a driver whose sides pass a gate before each step of their own. Takes no memory.
    pub fn new(rt: &'r R, gate: Gate) -> TwoThreads<'r, R>
        ensures { IsSync R.row }
    {
        TwoThreads { rt, gate }
    }

    /// Returns the gate. Takes no memory.
    pub fn gate(&self) -> &Gate
        ensures { result.now ≡ self.now.gate }
    {
        &self.gate
    }
}

impl<'r, R: Threads + Wait + Sync + AllocGlobal> Driver for TwoThreads<'r, R> {
    ghost Gives = { λ _ before after answer. RunsAtOnce before after answer };

    ghost ready = { λ _. IsSync R.row };

    fn drive<'s>(&mut self, world: World<'s>) -> (World<'s>, RunAnswer) {
        run_at_once(self.rt, self.rt.alloc(), &self.gate, world)
    }
}
